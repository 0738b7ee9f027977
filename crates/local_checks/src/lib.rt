#![tactic(auto)]

// Refusals 11, 18 and 12, which look at one edge, face or vertex at a time: which of them is the first that concerns a plan of a family. Whether it has a loop is
// told by the caller. It knows nothing of the whole plan, of whether it is connected or planar.
// Kinds and families are numbers here, and what is promised holds of any number (decision 173).
ghost use Rattle.std.specs.Prelude.{◌≡◌};
ghost use Rattle.model.specs.Map.{loop_refused};
ghost use Rattle.model.specs.Refusals.{number_of};
ghost use Rattle.dart_steps.specs.Plans.{rooted_plan};
ghost use Rattle.local_checks.specs.Local.{local_refusal};

use dart_steps::Rooted;
use model::Refusal;

// The first of 11, 18 and 12 that concerns the plan.
#[tactic(auto, unfolding(crate::specs::Local::local_refusal, model::specs::Map::face_refused, model::specs::Map::degree_refused))]
pub fn local(plan: Rooted<'_>, family: u16, looped: bool) -> Result<(), Refusal>
    requires { looped ≡ loop_refused family plan.rotation.order.now }
    ensures { number_of result ≡ local_refusal family (rooted_plan plan.entry) }
{
    if looped {
        return Err(Refusal::HasLoop);
    }
    if family == 3 && triangles::has_other_face(plan.rotation) {
        return Err(Refusal::NotTriangles);
    }
    if family == 1 && dead_ends::has_dead_end(plan.rotation.order, plan.root) {
        return Err(Refusal::HasDegreeOne);
    }
    Ok(())
}
