#![tactic(auto)]

// The contour walk of a mesh's dual by marks, face by face, which says of a plan whether it is a mesh: from face to face down, and up again to the second places
// that are still to come, until the root's face. What is done at the places of a face, the crates below know.
ghost use Rattle.std.specs.Prelude.{◌≡◌, suc, ◌+◌, ◌-◌, ◌*◌, ◌≤◌, ◌<◌, eqb, length, get_or, replicate};
ghost use Rattle.work.specs.Area.{region};
ghost use Rattle.dart_steps.specs.Plans.{rooted_plan};
ghost use Rattle.mesh_second_places.specs.Areas.{WAITING};
ghost use Rattle.mesh_second_places.specs.Walks.{AtDown, AtUp, Stepped};
ghost use Rattle.mesh_tracing.specs.Walks.{AtHome, Ended, Meshed};

use dart_steps::Rooted;
use mesh_second_places::{Stroll, Turn};
use trace_steps::{FIRST, SEEN};

// ---- the way up

// Up to the last second place that is still to come.
fn back(order: &[u16], w: &mut [u16], s: Stroll) -> Option<Turn>
    requires { AtUp order.now w.old s × (0 < s.halves) }
    ensures { Stepped order.now s.root s.edges (s.halves - 1) w.old result w.new }
{
    let n = order.len();
    let halves = s.halves - 1;
    let y = w[mesh_second_places::HALVES * n + halves] as usize;
    let f = w[mesh_second_places::OWNERS * n + halves] as usize;
    let e = w[mesh_second_places::ENTRIES * n + halves];
    let t = Stroll {
        dart: y,
        halves,
        ..s
    };
    match w[dart_steps::other(y)] {
        0 | SEEN.. => mesh_second_places::second_place(order, w, f, 1, 3, t),
        _ => mesh_second_places::end_edge(order, w, f, e, t),
    }
}

// Up until the walk goes down again, or is back at the root's face.
fn climb(order: &[u16], w: &mut [u16], s: Stroll) -> Option<Turn>
    requires { AtUp order.now w.old s }
    ensures { Ended order.now s.root s.edges w.old result w.new }
{
    let mut t = s;
    while 0 < t.halves {
        match back(order, w, t)? {
            Turn::Up(u) => t = u,
            Turn::Down(u) => return Some(Turn::Down(u)),
        }
    }
    Some(Turn::Up(t))
}

// Down to another face, and up from there as far as the walk goes.
fn turn(order: &[u16], w: &mut [u16], s: Stroll) -> Option<Turn>
    requires { AtDown order.now w.old s }
    ensures { Ended order.now s.root (suc s.edges) w.old result w.new }
{
    match mesh_first_places::enter(order, w, s)? {
        Turn::Up(t) => climb(order, w, t),
        Turn::Down(t) => Some(Turn::Down(t)),
    }
}

// ---- the walk

// Whether the edge that began at dart o is the one in place i of those that wait.
fn is_end(w: &[u16], n: usize, o: usize, i: usize) -> bool
    requires { (n ≤ 8192) × (16 * n ≤ length w.now) × (o < n) × (i < n) }
    ensures { result ≡ eqb (get_or w.now o 0) (8192 + get_or w.now (WAITING * n + i) 0) }
{
    let mark = w[o];
    mark >= FIRST && mark - FIRST == w[mesh_second_places::WAITING * n + i]
}

// Back at the root's face, whose other two places must end the two edges that wait. Every edge has begun.
fn at_end(order: &[u16], w: &[u16], s: Stroll) -> bool
    requires { AtHome order.now w.now s }
    ensures { Meshed (record { rotation = order.now; root = s.root; outside = 0 }) w.now result w.now }
{
    let n = order.len();
    let x = dart_steps::along(order, s.root);
    let y = dart_steps::along(order, x);
    let all = s.edges == n / 2;
    if s.waiting != 2 || !all {
        return false;
    }
    if !is_end(w, n, dart_steps::other(x), 1) {
        return false;
    }
    is_end(w, n, dart_steps::other(y), 0)
}

// Whether the plan is a mesh; then its node types stand in their place. The marks are zeros before.
pub fn walk(plan: Rooted<'_>, w: &mut [u16]) -> bool
    requires { let n = length plan.rotation.order.now in (16 * n ≤ length w.old) × (region 0 n w.old ≡ replicate n 0) }
    ensures { Meshed (rooted_plan plan.entry) w.old result w.new }
{
    let order = plan.rotation.order;
    let root = plan.root;
    let x = plan.rotation.along(root);
    let y = plan.rotation.along(x);
    if !mesh_first_places::mark_face(order, w, root, x, y) {
        return false;
    }
    let mut s = Stroll {
        root,
        dart: root,
        edges: 0,
        faces: 1,
        waiting: 0,
        halves: 0,
    };
    loop {
        match turn(order, w, s) {
            Some(Turn::Down(t)) => s = t,
            Some(Turn::Up(t)) => return at_end(order, w, t),
            None => return false,
        }
    }
}
