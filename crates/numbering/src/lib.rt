#![tactic(auto)]

// The contour walk by marks of a connected rotation, which puts its standard rotation on the way: each dart gets its number when it is met, and is entered where
// the dart before it waits for its successor. It knows marks and standard numbers; no words, and no records.
ghost use Rattle.std.specs.Prelude.{◌≡◌, true, ℕ, suc, ◌*◌, ◌≤◌, ◌<◌, length, get_or};
ghost use Rattle.model.specs.Map.{vertex_of, connected};
ghost use Rattle.dart_steps.specs.Plans.{rooted_plan};
ghost use Rattle.trace_steps.specs.Steps.{Ground};
ghost use Rattle.numbering.specs.Numbering.{Placed, WentDown, first_on, first_area, up_on, second_on, end_area, Numbering, Numbered};

use dart_steps::Rooted;
use trace_steps::{DOWN, FIRST, SEEN};

// Where the walk stands: the dart that comes next, how many edges have begun, and the number of the dart whose successor it is.
#[derive(Clone, Copy)]
struct Stand {
    dart: usize,
    edges: usize,
    place: usize,
}

// Not one generic function with those of `trace_steps`: what is put differs.

// The dart of s goes down to the vertex of its opposite o.
#[tactic(auto, unfolding(model::specs::Map::next))]
fn go_down(order: &[u16], w: &mut [u16], o: usize, s: Stand) -> Stand
    requires { Ground order.now w.old × Placed order.now s × (o < length order.now)
        × ((z : ℕ) → z < length order.now → vertex_of order.now z ≡ vertex_of order.now o → get_or w.old z 0 ≡ 0) }
    ensures { WentDown order.now o s w.old result w.new }
{
    let dart = order[o] as usize;
    w[order.len() + s.place] = (2 * s.edges) as u16;
    trace_steps::round(order, w, o, SEEN);
    w[s.dart] = DOWN + s.edges as u16;
    Stand {
        dart,
        edges: s.edges + 1,
        place: 2 * s.edges + 1,
    }
}

// The dart of s begins an edge outside the tree.
#[tactic(auto, unfolding(model::specs::Map::next))]
fn go_first(order: &[u16], w: &mut [u16], s: Stand) -> Stand
    requires { Ground order.now w.old × Placed order.now s }
    ensures { (result ≡ first_on order.now s) × (w.new ≡ first_area (length order.now) s w.old) }
{
    let dart = order[s.dart] as usize;
    w[order.len() + s.place] = (2 * s.edges) as u16;
    w[s.dart] = FIRST + s.edges as u16;
    Stand {
        dart,
        edges: s.edges + 1,
        place: 2 * s.edges,
    }
}

// It ends tree edge f, and its opposite is o.
#[tactic(auto, unfolding(model::specs::Map::next))]
fn go_up(order: &[u16], w: &mut [u16], o: usize, f: usize, s: Stand) -> Stand
    requires { Ground order.now w.old × Placed order.now s × (o < length order.now) × (f < 8192) }
    ensures { (result ≡ up_on order.now o f s) × (w.new ≡ end_area (length order.now) f s w.old) }
{
    let dart = order[o] as usize;
    let place = 2 * f;
    w[order.len() + s.place] = (place + 1) as u16;
    Stand { dart, place, ..s }
}

// It ends edge f outside the tree.
#[tactic(auto, unfolding(model::specs::Map::next))]
fn go_second(order: &[u16], w: &mut [u16], f: usize, s: Stand) -> Stand
    requires { Ground order.now w.old × Placed order.now s × (f < 8192) }
    ensures { (result ≡ second_on order.now f s) × (w.new ≡ end_area (length order.now) f s w.old) }
{
    let dart = order[s.dart] as usize;
    let place = 2 * f + 1;
    w[order.len() + s.place] = place as u16;
    Stand { dart, place, ..s }
}

// The dart that comes next is met, at position i of the walk from the root.
fn visit(order: &[u16], root: usize, w: &mut [u16], i: usize, s: Stand) -> Stand
    requires { Numbering order.now root i w.old s × (i < length order.now) }
    ensures { Numbering order.now root (suc i) w.new result }
{
    let o = dart_steps::other(s.dart);
    let mark = w[o];
    match mark {
        0 => go_down(order, w, o, s),
        SEEN.. => go_first(order, w, s),
        DOWN.. => go_up(order, w, o, (mark - DOWN) as usize, s),
        _ => go_second(order, w, (mark - FIRST) as usize, s),
    }
}

// The standard rotation for this root, behind the marks, which stand at the beginning of the work area.
pub fn walk(plan: Rooted<'_>, w: &mut [u16])
    requires { (connected plan.rotation.order.now ≡ true) × (16 * length plan.rotation.order.now ≤ length w.old) }
    ensures { Numbered (rooted_plan plan.entry) w.old w.new }
{
    let order = plan.rotation.order;
    let root = plan.root;
    let n = order.len();
    work::fill(w, 0, n, 0);
    trace_steps::round(order, w, root, SEEN);
    let mut s = Stand {
        dart: root,
        edges: 0,
        place: 0,
    };
    for i in 0..n {
        s = visit(order, root, w, i, s);
    }
    w[n + s.place] = 0;
}
