#![tactic(auto)]

// Refusals 9 to 12 and 18, and of a plan that fits the lengths of its faces. Names and letters in the work area are its own matter. It knows no records, and
// nothing of the outside.
// Kinds and families are numbers here, and what is promised holds of any number (decision 173).
ghost use Rattle.std.specs.Prelude.{◌*◌, ◌≤◌, length};
ghost use Rattle.dart_steps.specs.Plans.{rooted_plan};
ghost use Rattle.fitting.specs.Judged.{Surveyed, Judged};

use dart_steps::{Faces, Rooted, Vertices};
use model::Refusal;

// How many vertices there are, whether some edge is a loop that the family does not take, and how many darts the walk meets.
#[derive(Clone, Copy)]
struct Survey {
    vertices: usize,
    looped: bool,
    met: usize,
}

// The vertices are named, loops are looked for by their names, and the plan is walked.
fn surveyed(plan: Rooted<'_>, family: u16, w: &mut [u16]) -> Survey
    requires { 16 * length plan.rotation.order.now ≤ length w.old }
    ensures { Surveyed family (rooted_plan plan.entry) w.old result w.new }
{
    let rotation = plan.rotation;
    let n = rotation.order.len();
    let vertices = cycles::name::<Vertices>(rotation, w, 0, work::DEGREES * n);
    let looped = loops::loop_refused(rotation.order, family, w);
    let met = contour::walk(plan, w);
    Survey {
        vertices,
        looped,
        met,
    }
}

// How many faces a plan that fits has, with their lengths at LENGTHS; of another, the first of refusals 9 to 12 and 18.
pub fn judge(plan: Rooted<'_>, family: u16, w: &mut [u16]) -> Result<usize, Refusal>
    requires { 16 * length plan.rotation.order.now ≤ length w.old }
    ensures { Judged family (rooted_plan plan.entry) w.old result w.new }
{
    let rotation = plan.rotation;
    let n = rotation.order.len();
    let s = surveyed(plan, family, w);
    if s.met != n {
        return Err(Refusal::NotConnected);
    }
    let faces = cycles::name::<Faces>(rotation, w, work::FACES * n, work::LENGTHS * n);
    let x = characteristic::euler(s.vertices, n / 2, faces);
    if x != 2 {
        return Err(Refusal::NotPlanar(x));
    }
    local_checks::local(plan, family, s.looped)?;
    Ok(faces)
}
