#![tactic(auto)]

// The contour walk of a rotation, in the work area, by the names of its vertices that are there: how many darts it meets. It knows the walk, not what is
// read off its letters.
ghost use Rattle.std.specs.Prelude.{◌≡◌, true, ◌*◌, ◌≤◌, ◌<◌, length};
ghost use Rattle.model.specs.Map.{dart_count_fits};
ghost use Rattle.dart_steps.specs.Plans.{rooted_plan};
ghost use Rattle.contour.specs.Steps.{VerticesNamed, Visited};
ghost use Rattle.contour.specs.Walked.{Walked};

use dart_steps::Rooted;

// Dart d is met, and its letter noted: the dart after it. Both darts that may be it are read first: they stand side by side.
#[tactic(auto, using(crate::proofs::Steps::darts_few, crate::proofs::Steps::other_below, crate::proofs::Steps::name_bound))]
fn visit(order: &[u16], w: &mut [u16], d: usize) -> usize
    requires { (dart_count_fits (length order.now) ≡ true) × (d < length order.now) × (3 * length order.now ≤ length w.old)
        × VerticesNamed order.now w.old }
    ensures { Visited order.now d w.old result w.new }
{
    let n = order.len();
    let o = dart_steps::other(d);
    let around = order[d] as usize;
    let along = order[o] as usize;
    let (letter, next) = match w[work::MET * n + o] {
        0 => {
            let s = work::SEEN * n + w[o] as usize;
            if w[s] == 0 {
                w[s] = 1;
                (work::DOWN, along)
            } else {
                (work::FIRST, around)
            }
        }
        work::DOWN => (work::UP, along),
        _ => (work::SECOND, around),
    };
    w[work::MET * n + d] = letter;
    next
}

// The walk from the root until it is back there: how many darts it meets.
pub fn walk(plan: Rooted<'_>, w: &mut [u16]) -> usize
    requires { (3 * length plan.rotation.order.now ≤ length w.old) × VerticesNamed plan.rotation.order.now w.old }
    ensures { Walked (rooted_plan plan.entry) w.old result w.new }
{
    let order = plan.rotation.order;
    let root = plan.root;
    let n = order.len();
    work::fill(w, work::MET * n, n, 0);
    work::fill(w, work::SEEN * n, n, 0);
    let v = w[root] as usize;
    w[work::SEEN * n + v] = 1;
    let mut d = root;
    for i in 0..n {
        d = visit(order, w, d);
        if d == root {
            return i + 1;
        }
    }
    n
}
