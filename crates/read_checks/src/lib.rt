#![tactic(auto)]

// The refusals that reading and shelving share and that need no payload: 19, 1, 2, 3, 5, 7. It knows heads of records and whether a table is one that loading
// gives; no payloads and no plans.
ghost use Rattle.std.specs.Prelude.{◌≡◌, IfOk};
ghost use Rattle.model.specs.Refusals.{number_of};
ghost use Rattle.model.specs.Shelf.{kind_of, edges_of};
ghost use Rattle.model.specs.Calls.{record_refusal};

use heads::Head;
use model::{Refusal, Table};

// The head of the record, or the first of 19, 1, 2, 3, 5, 7 that concerns it, with a work area of this length. Called by itself it hands both back through memory.
#[inline(always)]
pub fn checked(table: Table, record: &[u8], work: usize) -> Result<Head, Refusal>
    ensures number { number_of result ≡ record_refusal table «record».now work }
    ensures fields { IfOk result (λ h. (h.kind ≡ kind_of «record».now) × (h.edges ≡ edges_of «record».now)) }
{
    let bad_table = !table_test::is_loaded(table);
    if bad_table {
        return Err(Refusal::BadTable);
    }
    let head = heads::parse(record)?;
    if work < 32 * head.edges as usize {
        return Err(Refusal::ShortWork);
    }
    Ok(head)
}
