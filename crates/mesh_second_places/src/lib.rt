#![tactic(auto)]

// Where the walk of a mesh's dual by marks stands, in the lent work area, and what it does at the second place of a face. Every face has three places: the one
// that it is entered by, which is also the last, its first and its second. It knows how a second place is left, and not how one is come to.
ghost use Rattle.std.specs.Prelude.{◌≡◌, ◌*◌, ◌≤◌, ◌<◌, length};
ghost use Rattle.model.specs.Traversal.{up};
ghost use Rattle.mesh_second_places.specs.Areas.{edge_area};
ghost use Rattle.mesh_second_places.specs.Walks.{AtSecond, Ending, Telling, Stepped};

use trace_steps::{FIRST, SEEN};

// Stacks in the work area, in units of the number of darts: edges outside the tree that wait for their end, by number; and of each face whose second place is
// still to come, that place, the face's number, and that of the edge it was entered by.
pub const WAITING: usize = 1;

pub const HALVES: usize = 2;

pub const OWNERS: usize = 3;

pub const ENTRIES: usize = 4;

// Where the walk stands: the root, the dart that comes next, how many edges have begun and faces are seen, how many edges outside the tree wait for their
// end, and how many second places are still to come.
#[derive(Clone, Copy)]
pub struct Stroll {
    pub root: usize,
    pub dart: usize,
    pub edges: usize,
    pub faces: usize,
    pub waiting: usize,
    pub halves: usize,
}

// What comes next: the walk goes down at the dart; or up from the face. Where the plan is no mesh, nothing does.
#[derive(Clone, Copy)]
pub enum Turn {
    Down(Stroll),
    Up(Stroll),
}

// Dart d begins edge e outside the tree.
#[tactic(auto, unfolding(crate::specs::Areas::edge_area))]
pub fn put_edge(w: &mut [u16], n: usize, d: usize, e: usize, waiting: usize)
    requires { (n ≤ 8192) × (16 * n ≤ length w.old) × (d < n) × (e < n) × (waiting < n) }
    ensures { w.new ≡ edge_area n d e waiting w.old }
{
    w[d] = FIRST + e as u16;
    w[WAITING * n + waiting] = e as u16;
}

// The second place of face f, which comes next, goes down, or begins an edge outside the tree; the face has type a or b then.
pub fn second_place(
    order: &[u16],
    w: &mut [u16],
    f: usize,
    a: u16,
    b: u16,
    s: Stroll,
) -> Option<Turn>
    requires { Telling order.now w.old f a b s }
    ensures { Stepped order.now s.root s.edges s.halves w.old result w.new }
{
    let n = order.len();
    match w[dart_steps::other(s.dart)] {
        0 => {
            w[work::TYPES * n + (f - 1)] = a;
            Some(Turn::Down(s))
        }
        SEEN.. => {
            put_edge(w, n, s.dart, s.edges, s.waiting);
            w[work::TYPES * n + (f - 1)] = b;
            Some(Turn::Up(Stroll {
                edges: s.edges + 1,
                waiting: s.waiting + 1,
                ..s
            }))
        }
        _ => None,
    }
}

// At the second place of face f, which edge e entered, the last edge that waits must end, and the one before it have begun after e.
pub fn end_edge(order: &[u16], w: &mut [u16], f: usize, e: u16, s: Stroll) -> Option<Turn>
    requires { AtSecond order.now w.old up f e s × Ending w.old s.dart }
    ensures { Stepped order.now s.root s.edges s.halves w.old result w.new }
{
    let few = s.waiting < 2;
    if few {
        return None;
    }
    let n = order.len();
    let mark = w[dart_steps::other(s.dart)];
    let last = w[WAITING * n + (s.waiting - 1)];
    let before = w[WAITING * n + (s.waiting - 2)];
    if mark != FIRST + last || before < e {
        return None;
    }
    w[work::TYPES * n + (f - 1)] = 2;
    Some(Turn::Up(Stroll {
        waiting: s.waiting - 1,
        ..s
    }))
}
