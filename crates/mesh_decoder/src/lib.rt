#![tactic(auto)]

// Node types spelled as the contour word of a mesh's dual, in the lent work area: each type read puts letters, and a node that gets its last letters is
// complete, as may be the nodes above it. It knows which letters a type puts; no payloads, no plans and no rotations.
ghost use Rattle.std.specs.Prelude.{◌≡◌, ◌+◌, ◌-◌, ◌*◌, ◌/◌, ◌%◌, ◌≤◌, ◌<◌, length, Some};
ghost use Rattle.node_types.specs.Machine.{word_of_types};
ghost use Rattle.work.specs.Map.{TYPES};
ghost use Rattle.work.specs.Area.{region};
ghost use Rattle.node_ends.specs.declared.Outcome.TheVariants.{Reads, Climbs};
ghost use Rattle.node_ends.specs.Steps.{type_count, left, Standing, Turned};
ghost use Rattle.mesh_decoder.specs.Spelled.{Entering, Spelled};

use node_ends::{Outcome, State};

// Types 1 to 3 are named by what is to come after the first child (`node_ends`). The types with a leaf first: then a child, and two leaves. Types stay
// numbers, as the work area holds them.
const SOON: u16 = 4;

const TIPS: u16 = 5;

// ---- nodes completed

// A tree is complete: so are the nodes above it, up to one whose child is to be read or to the start node.
fn climb(w: &mut [u16], m: usize, s: State) -> Option<Outcome>
    requires { Standing m 0 w.old s }
    ensures { Turned m s.read 0 (left m w.old (Some (Climbs s))) result w.old w.new }
{
    let mut t = s;
    while t.depth > 0 {
        match node_ends::ascend(w, m, t)? {
            Outcome::Climbs(u) => {
                t = u;
            }
            outcome => {
                return Some(outcome);
            }
        }
    }
    node_ends::finish(w, m, t)
}

// ---- types read
// `node`, `soon` and `tips` put different letters, and `tips` leaves no node on top: one function for all would test the type again at each letter.

// Types 1 to 3: what is to come after the first child has the number of the type.
fn node(w: &mut [u16], m: usize, s: State, kind: u16) -> State
    requires { Entering m kind w.old s × (0 < kind) × (kind < 4) }
    ensures { Turned m (s.read + 1) 0 (left m w.old (Some (Reads s))) (Some (Reads result)) w.old w.new }
{
    w[work::LETTERS * (2 * m) + s.put] = work::DOWN;
    w[work::BASES * (2 * m) + s.depth] = s.height as u16;
    w[work::PLACES * (2 * m) + s.depth] = kind;
    State {
        read: s.read + 1,
        put: s.put + 1,
        depth: s.depth + 1,
        ..s
    }
}

// Type 4: a leaf, and nothing is to come after the child.
fn soon(w: &mut [u16], m: usize, s: State) -> State
    requires { Entering m 4 w.old s }
    ensures { Turned m (s.read + 1) 0 (left m w.old (Some (Reads s))) (Some (Reads result)) w.old w.new }
{
    w[work::LETTERS * (2 * m) + s.put] = work::DOWN;
    w[work::LETTERS * (2 * m) + (s.put + 1)] = work::FIRST;
    w[work::BASES * (2 * m) + s.depth] = s.height as u16;
    w[work::PLACES * (2 * m) + s.depth] = node_ends::NOTHING;
    State {
        read: s.read + 1,
        put: s.put + 2,
        height: s.height + 1,
        depth: s.depth + 1,
    }
}

// Type 5: two leaves, and the node is complete.
fn tips(w: &mut [u16], m: usize, s: State) -> Option<Outcome>
    requires { Entering m 5 w.old s }
    ensures { Turned m (s.read + 1) 0 (left m w.old (Some (Reads s))) result w.old w.new }
{
    w[work::LETTERS * (2 * m) + s.put] = work::DOWN;
    w[work::LETTERS * (2 * m) + (s.put + 1)] = work::FIRST;
    w[work::LETTERS * (2 * m) + (s.put + 2)] = work::FIRST;
    w[work::LETTERS * (2 * m) + (s.put + 3)] = work::UP;
    let t = State {
        read: s.read + 1,
        put: s.put + 4,
        height: s.height + 2,
        ..s
    };
    climb(w, m, t)
}

// The next type; 0 and numbers from 6 on are none.
fn enter(w: &mut [u16], m: usize, s: State) -> Option<Outcome>
    requires { Standing m 1 w.old s × (s.read < type_count m) }
    ensures { Turned m (s.read + 1) 0 (left m w.old (Some (Reads s))) result w.old w.new }
{
    match w[work::TYPES * (2 * m) + s.read] {
        kind @ 1..SOON => Some(Outcome::Reads(node(w, m, s, kind))),
        SOON => Some(Outcome::Reads(soon(w, m, s))),
        TIPS => tips(w, m, s),
        _ => None,
    }
}

// The word of the dual for the node types in the work area, put at LETTERS; whether there is one. `enter` leaves no climb unfinished.
pub fn spell(w: &mut [u16], m: usize) -> bool
    requires { (3 ≤ m) × (m ≤ 4096) × (m % 3 ≡ 0) × (32 * m ≤ length w.old) }
    ensures { Spelled (word_of_types (region (TYPES * (2 * m)) (2 * (m / 3) - 1) w.old)) (2 * m) result w.old w.new }
{
    let mut s = State {
        read: 0,
        put: 0,
        height: 0,
        depth: 0,
    };
    while s.read < 2 * (m / 3) - 1 {
        match enter(w, m, s) {
            Some(Outcome::Reads(t)) => {
                s = t;
            }
            Some(Outcome::Whole) => {
                return true;
            }
            Some(Outcome::Climbs(_)) => {
                return false;
            }
            None => {
                return false;
            }
        }
    }
    false
}
