#![tactic(auto)]

// The public call of writing: the refusals in the papers' order, the record, and a cleared work area.
// Kinds and families are numbers here, and what is promised holds of any number (decision 173).
ghost use Rattle.std.specs.Prelude.{◌≡◌, ◌*◌, ◌≤◌, length, replicate};
ghost use Rattle.model.specs.Calls.{Wrote};
ghost use Rattle.work.specs.Area.{region};
ghost use Rattle.dart_steps.specs.Plans.{rooted_plan};
ghost use Rattle.writing.specs.Made.{Made, LaidUnder, Walked, Unfit, Refused, Fits};

use dart_steps::{Rooted, Rotation};
use model::{Refusal, Table};

// Whether the plan fits the kind; then what its record is made of is in the work area.
fn walked(plan: Rooted<'_>, kind: u16, w: &mut [u16]) -> bool
    requires { let n = length plan.rotation.order.now in (16 * n ≤ length w.old) × (region 0 n w.old ≡ replicate n 0) }
    ensures { Walked kind (rooted_plan plan.entry) w.old result w.new }
{
    if kind == 3 {
        mesh_tracing::walk(plan, w)
    } else {
        tracing::walk(plan, kinds::family(kind), w)
    }
}

// The refusal of a plan that does not fit.
fn refused(plan: Rooted<'_>, kind: u16, w: &mut [u16]) -> Refusal
    requires { Unfit kind (rooted_plan plan) w.old }
    ensures { Refused kind (rooted_plan plan.entry) w.old result w.new }
{
    fitting::judge(plan, kinds::family(kind), w).unwrap_err()
}

// The answer for a plan that fits. That a mesh has no room is known only now.
fn laid(
    bytes: &[u8; 243],
    order: &[u16],
    root: u16,
    outside: u16,
    kind: u16,
    w: &mut [u16],
    out: &mut [u8],
) -> Result<u16, Refusal>
    requires { Fits kind (record { rotation = order.now; root = root; outside = outside }) w.old out.old }
    ensures { LaidUnder bytes.now kind (record { rotation = order.now; root = root; outside = outside })
        w.old out.old result w.new out.new }
{
    if kind == 3 {
        return mesh_writing::write(bytes, order, root, w, out);
    }
    Ok(laying::laid_out(bytes, order, root, outside, kind, w, out))
}

// The answer and the output, before the work area is cleared.
fn made(
    table: Table,
    order: &[u16],
    root: u16,
    outside: u16,
    kind: u16,
    w: &mut [u16],
    out: &mut [u8],
) -> Result<u16, Refusal>
    ensures { Made table kind (record { rotation = order.now; root = root; outside = outside })
        w.old out.old result w.new out.new }
{
    let bad_table = !table_test::is_loaded(table);
    if bad_table {
        return Err(Refusal::BadTable);
    }
    let bytes = table.bytes; // lent alone: a table that is lent takes 256 bytes more of the stack
    let good = write_checks::entries_good(order, w);
    write_checks::early(order, root, outside, kind, good, w.len(), out.len())?;
    let rotation = Rotation { order };
    let plan = Rooted {
        rotation,
        root: root as usize,
    };
    if !walked(plan, kind, w) {
        return Err(refused(plan, kind, w));
    }
    laid(&bytes, order, root, outside, kind, w, out)
}

// A plan is written as a record of this kind. Any content and any length of what is lent.
pub fn write(
    table: Table,
    order: &[u16],
    root: u16,
    outside: u16,
    kind: u16,
    work: &mut [u16],
    out: &mut [u8],
) -> Result<u16, Refusal>
    ensures { Wrote table kind (record { rotation = order.now; root = root; outside = outside })
        work.old out.old result work.new out.new }
{
    let r = made(table, order, root, outside, kind, work, out);
    work::clear(work);
    r
}
