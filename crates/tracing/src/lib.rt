#![tactic(auto)]

// The contour walk by marks, which says whether a plan fits a family; why it does not, is for others to say. The next letter is read off the mark of the opposite.
// Edges outside the tree wait on a stack: the plan is planar if each ends on top of it.
// Kinds and families are numbers here, and what is promised holds of any number (decision 173).
ghost use Rattle.std.specs.Prelude.{◌≡◌, ◌≢◌, false, cond, ◌*◌, ◌≤◌, ◌<◌, eqb, length, get_or, replicate};
ghost use Rattle.model.specs.Map.{next};
ghost use Rattle.work.specs.Area.{region};
ghost use Rattle.dart_steps.specs.Plans.{rooted_plan};
ghost use Rattle.tracing.specs.Tracing.{Tracing, Stepped, Traced};

use dart_steps::Rooted;
use trace_steps::{DOWN, FIRST, SEEN, Trace};

// The edge of d, met first with this mark at its opposite, is a loop that the family does not take.
fn loop_refused(family: u16, w: &[u16], d: usize, mark: u16) -> bool
    requires { d < length w.now }
    ensures { result ≡ cond (eqb family 4) false (eqb mark (get_or w.now d 0)) }
{
    family != 4 && mark == w[d]
}

// Dart d, met as up, is alone at its vertex, and the family takes no dead ends.
#[tactic(auto, unfolding(model::specs::Map::next))]
fn leaf_refused(family: u16, order: &[u16], d: usize) -> bool
    requires { d < length order.now }
    ensures { result ≡ cond (eqb family 1) (eqb (next order.now d) d) false }
{
    family == 1 && order[d] as usize == d
}

// The dart that comes next is met, at position i: where the walk stands then, or nothing where the plan does not fit.
#[tactic(auto, using(crate::proofs::Visits::over_in, crate::proofs::Visits::ranges, crate::proofs::Visits::blank, crate::proofs::Visits::up_range))]
fn visit(order: &[u16], family: u16, w: &mut [u16], i: usize, s: Trace) -> Option<Trace>
    requires { Tracing family order.now i w.old s × (i < length order.now) × (0 < i → s.dart ≢ s.root) }
    ensures { Stepped family order.now i w.old s result w.new }
{
    let o = dart_steps::other(s.dart);
    let mark = w[o];
    // Tests here, and no `for` in `walk`: tried, and with a `match` or a `for` the walk of large plans in family 2 took 6 to 13 % longer.
    if mark == 0 {
        return Some(trace_steps::go_down(order, family, w, i, o, s));
    }
    if mark >= SEEN {
        if loop_refused(family, w, s.dart, mark) {
            return None;
        }
        return Some(trace_steps::go_first(order, family, w, i, s));
    }
    if mark >= DOWN {
        if leaf_refused(family, order, s.dart) {
            return None;
        }
        let e = (mark - DOWN) as usize;
        return Some(trace_steps::go_up(order, family, w, i, o, e, s));
    }
    let f = mark - FIRST;
    let crossed = !trace_steps::is_last(w, order.len(), s.waiting, f);
    if crossed {
        return None;
    }
    Some(trace_steps::go_second(order, family, w, i, f as usize, s))
}

// ---- the walk

// Whether the plan fits the family; then its marks stand at the beginning of the work area, and its letters, or its tree bits and labels, in their
// places. The marks are zeros before.
pub fn walk(plan: Rooted<'_>, family: u16, w: &mut [u16]) -> bool
    requires { let n = length plan.rotation.order.now in (16 * n ≤ length w.old) × (region 0 n w.old ≡ replicate n 0) }
    ensures { Traced family (rooted_plan plan.entry) w.old result w.new }
{
    let order = plan.rotation.order;
    let root = plan.root;
    let n = order.len();
    trace_steps::round(order, w, root, SEEN);
    let mut s = Trace {
        root,
        dart: root,
        edges: 0,
        waiting: 0,
    };
    let mut i = 0;
    while i < n {
        let Some(t) = visit(order, family, w, i, s) else {
            return false;
        };
        s = t;
        i += 1;
        if s.dart == root {
            return i == n;
        }
    }
    false
}
