#![tactic(auto)]

// Shelving: a record is read, then found on the shelf or put just past its used bytes. How records are read and placed is not known here.
ghost use Rattle.model.specs.Calls.{Stored};

use model::{Refusal, Shelved, Table};

// "It shall take a work area and read each new record first. A refusal met while reading the record is passed on." The work area is zeros on every return.
pub fn shelve(
    table: Table,
    record: &[u8],
    work: &mut [u16],
    shelf: &mut [u8],
    used: usize,
) -> Result<Shelved, Refusal>
    ensures { Stored table «record».now work.old shelf.old used result work.new shelf.new }
{
    let verdict = decoding::verdict(table, record, work);
    work::clear(work);
    // document 01 asks for let .. else here, where ? would do
    let Err(refusal) = verdict else {
        return placing::place(record, shelf, used);
    };
    Err(refusal)
}
