#![tactic(auto)]

// Whether a record is a fit plan's, as reading and shelving ask it: 13, with the standard plan in the work area or, of a mesh, the verdict alone. How a payload of
// a family is decoded is not known here, nor what else is refused.
// Kinds and families are numbers here, and what is promised holds of any number (decision 173).
ghost use Rattle.std.specs.Prelude.{◌≡◌, ◌≢◌, true, ◌*◌, ◌≤◌, length};
ghost use Rattle.model.specs.Shelf.{kind_of, edges_of, passes};
ghost use Rattle.packing.specs.Payload.{Sized};
ghost use Rattle.packing.specs.Groups.{undone};
ghost use Rattle.coding.specs.Payloads.{decode_payload};
ghost use Rattle.builder.specs.Decoded.{Answered};
ghost use Rattle.decoding.specs.Planned.{Inverse, CheckedUnder, PlannedUnder, JudgedUnder, Verdict};

use heads::Head;
use model::{ReadBack, Refusal, Table};

// The standard plan of a payload of this family, which is not 3, under the table with this inverse: whether there is one, and its rotation in the first 2m entries.
fn decode(payload: &[u8], family: u16, inverse: [u8; 256], m: usize, w: &mut [u16]) -> bool
    requires sized { Sized family m payload.now × (family ≢ 3) }
    requires m_in_bounds { 32 * m ≤ length w.old }
    ensures { Answered (decode_payload family m (undone inverse family m payload.now)) (2 * m) result w.new }
{
    if family == 4 {
        return letter_decoder::decode(payload, m, w);
    }
    decoder::decode(payload, family, inverse, m, w)
}

// The standard plan of a record of a kind other than 3 whose head passes, in the first 2m entries of a work area with room, and its outside; or 13. The work
// area is not cleared.
pub fn read_core(inverse: [u8; 256], record: &[u8], w: &mut [u16]) -> Result<ReadBack, Refusal>
    requires { Inverse inverse × (passes «record».now ≡ true) × (32 * edges_of «record».now ≤ length w.old) × (kind_of «record».now ≢ 3) }
    ensures { PlannedUnder inverse «record».now result w.new }
{
    let kind = heads::field(record, 2);
    let edges = heads::field(record, 4);
    let m = edges as usize;
    let at = record_lengths::head_length(kind);
    if !decode(&record[at..], kinds::family(kind), inverse, m, w) {
        return Err(Refusal::NoFitPlan);
    }
    let outside = named_outside::outside_of(record, kind);
    if !named_outside::is_face(w, 2 * m, outside as usize) {
        return Err(Refusal::NoFitPlan);
    }
    Ok(ReadBack { edges, outside })
}

// Whether a record of kind 3 whose head passes is a fit plan's. The word of the dual tells; the plan is not built.
fn judge_mesh(
    inverse: [u8; 256],
    head: Head,
    record: &[u8],
    w: &mut [u16],
) -> Result<ReadBack, Refusal>
    requires checked { CheckedUnder inverse head «record».now (length w.old) }
    requires mesh { kind_of «record».now ≡ 3 }
    ensures { JudgedUnder inverse «record».now result }
{
    let found = mesh_reading::spell(&record[6..], &inverse, head.edges as usize, w);
    if !found {
        return Err(Refusal::NoFitPlan);
    }
    Ok(ReadBack {
        edges: head.edges,
        outside: 0,
    })
}

// What reading answers where the output has room, for any record. The work area is not cleared.
pub fn verdict(table: Table, record: &[u8], work: &mut [u16]) -> Result<ReadBack, Refusal>
    ensures { Verdict table «record».now (length work.old) result }
{
    let head = read_checks::checked(table, record, work.len())?;
    if head.kind == 3 {
        return judge_mesh(table.inverse, head, record, work);
    }
    read_core(table.inverse, record, work)
}
