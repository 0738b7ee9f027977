#![tactic(auto)]

// Where the reading of node types as the word of a mesh's dual stands, in the lent work area, and what ends in it: a node that gets its last letters, and the
// tree below the start node. It knows letters and nodes that are not complete, and no types.
ghost use Rattle.std.specs.Prelude.{◌≡◌, ◌<◌, Some};
ghost use Rattle.node_ends.specs.declared.Outcome.TheVariants.{Climbs};
ghost use Rattle.node_ends.specs.Steps.{view_at, ending, left, popped, Standing, Turned};

// What is still to come at a node's second place, a number as the work area holds; `specs/Steps` has the same in `place_for`.
pub const NOTHING: u16 = 0;

const CHILD: u16 = 1;

const GAP: u16 = 2;

const LEAF: u16 = 3;

// Where the reading stands: types read, letters put, leaves open and nodes that are not complete.
#[derive(Clone, Copy)]
pub struct State {
    pub read: usize,
    pub put: usize,
    pub height: usize,
    pub depth: usize,
}

// What a step comes to where there is a word: the next type is to be read; a tree is complete, and the node above it comes next; the whole word is put.
#[derive(Clone, Copy)]
pub enum Outcome {
    Reads(State),
    Climbs(State),
    Whole,
}

// The node on top was entered at the height `base` and has had all its letters but up: a leaf of its tree must be open.
fn complete(w: &mut [u16], m: usize, s: State, base: usize) -> Option<Outcome>
    requires { Standing m 1 w.old (popped s s.put s.height) × (0 < s.depth) }
    ensures { Turned m s.read s.depth (ending (view_at m w.old (popped s s.put s.height)) base s.height) result w.old w.new }
{
    if s.height <= base {
        return None;
    }
    w[work::LETTERS * (2 * m) + s.put] = work::UP;
    Some(Outcome::Climbs(State {
        put: s.put + 1,
        depth: s.depth - 1,
        ..s
    }))
}

// A tree is complete below the node on top: its child is to be read, or it gets its last letters.
pub fn ascend(w: &mut [u16], m: usize, s: State) -> Option<Outcome>
    requires { Standing m 0 w.old s × (0 < s.depth) }
    ensures { Turned m s.read s.depth (left m w.old (Some (Climbs s))) result w.old w.new }
{
    let top = s.depth - 1;
    let base = w[work::BASES * (2 * m) + top] as usize;
    match w[work::PLACES * (2 * m) + top] {
        CHILD => {
            w[work::PLACES * (2 * m) + top] = NOTHING;
            Some(Outcome::Reads(s))
        }
        GAP => {
            w[work::LETTERS * (2 * m) + s.put] = work::SECOND;
            let t = State {
                put: s.put + 1,
                height: s.height - 1,
                ..s
            };
            complete(w, m, t, base)
        }
        LEAF => {
            w[work::LETTERS * (2 * m) + s.put] = work::FIRST;
            let t = State {
                put: s.put + 1,
                height: s.height + 1,
                ..s
            };
            complete(w, m, t, base)
        }
        _ => complete(w, m, s, base),
    }
}

// The tree below the start node is complete: no type may be left, and the two leaves that are open end.
pub fn finish(w: &mut [u16], m: usize, s: State) -> Option<Outcome>
    requires { Standing m 0 w.old s × (s.depth ≡ 0) }
    ensures { Turned m s.read 0 (left m w.old (Some (Climbs s))) result w.old w.new }
{
    if s.read < 2 * (m / 3) - 1 {
        return None;
    }
    let two = s.height == 2;
    if two {
        w[work::LETTERS * (2 * m) + s.put] = work::SECOND;
        w[work::LETTERS * (2 * m) + (s.put + 1)] = work::SECOND;
        return Some(Outcome::Whole);
    }
    None
}
