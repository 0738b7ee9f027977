#![tactic(auto)]

// Reading, the call: any bytes come back as the plan in its standard numbering, or as one refusal. It tests the output's room between the refusals of the record
// and 13, copies the plan out and clears the work area; how a record is decoded is not known here.
ghost use Rattle.std.specs.Prelude.{◌≡◌, ◌*◌, ◌≤◌, length};
ghost use Rattle.model.specs.Shelf.{kind_of, edges_of};
ghost use Rattle.model.specs.Calls.{Reads, ReadCall};
ghost use Rattle.decoding.specs.Planned.{CheckedUnder};
ghost use Rattle.reading.specs.Planned.{MeshUnder};

use heads::Head;
use model::{ReadBack, Refusal, Table};

// The standard plan of a record of kind 3 whose head passes, in the output, or 13. The work area is not cleared.
fn read_mesh(
    inverse: [u8; 256],
    head: Head,
    record: &[u8],
    w: &mut [u16],
    out: &mut [u16],
) -> Result<ReadBack, Refusal>
    requires checked { CheckedUnder inverse head «record».now (length w.old) }
    requires mesh { kind_of «record».now ≡ 3 }
    requires room { 2 * edges_of «record».now ≤ length out.old }
    ensures { MeshUnder inverse «record».now out.old result out.new }
{
    let found = mesh_reading::read(&record[6..], &inverse, head.edges as usize, w, out);
    if !found {
        return Err(Refusal::NoFitPlan);
    }
    Ok(ReadBack {
        edges: head.edges,
        outside: 0,
    })
}

// The refusals of the record, 8, then 13, then the plan to the output.
fn read_out(
    table: Table,
    record: &[u8],
    work: &mut [u16],
    out: &mut [u16],
) -> Result<ReadBack, Refusal>
    ensures { Reads table «record».now (length work.old) out.old result out.new }
{
    let head = read_checks::checked(table, record, work.len())?;
    let m = head.edges as usize;
    if out.len() < 2 * m {
        return Err(Refusal::ShortOutput);
    }
    if head.kind == 3 {
        return read_mesh(table.inverse, head, record, work, out);
    }
    let back = decoding::read_core(table.inverse, record, work)?;
    work::copy_front(work, 2 * m, out);
    Ok(back)
}

// "Reading returns m, with the standard plan in the first 2m entries", and "the lowest dart of the outside area"; the work area is zeros on every return.
pub fn read(
    table: Table,
    record: &[u8],
    work: &mut [u16],
    out: &mut [u16],
) -> Result<ReadBack, Refusal>
    ensures { ReadCall table «record».now work.old out.old result work.new out.new }
{
    let r = read_out(table, record, work, out);
    work::clear(work);
    r
}
