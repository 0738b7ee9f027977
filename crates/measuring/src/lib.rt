#![tactic(auto)]

// The public call of measuring: the refusals in document 02's order, the lengths of the faces, and a cleared work area. It knows no records.
ghost use Rattle.model.specs.Calls.{Measures};
ghost use Rattle.measuring.specs.Made.{Made};

use dart_steps::{Rooted, Rotation};
use model::Refusal;

// The answer and the list, before the work area is cleared. Kind 4 takes any connected planar plan, from any root.
fn made(order: &[u16], w: &mut [u16], list: &mut [u16]) -> Result<u16, Refusal>
    ensures { Made order.now w.old list.old result w.new list.new }
{
    measure_checks::early(order, w.len())?;
    let rotation = Rotation { order };
    let plan = Rooted { rotation, root: 0 };
    let faces = fitting::judge(plan, 4, w)?;
    measure_checks::copied(w, order.len(), faces, list)
}

// How many darts each face of a plan has. Any content and any length of what is lent.
pub fn measure(order: &[u16], work: &mut [u16], list: &mut [u16]) -> Result<u16, Refusal>
    ensures { Measures order.now work.old list.old result work.new list.new }
{
    let r = made(order, work, list);
    work::clear(work);
    r
}
