#![tactic(auto)]

// The test that every call runs on the table it is handed: whether loading gives it. It knows bytes and values, and how many bytes stand for no group; it makes
// no table, and knows no records.
ghost use Rattle.std.specs.Prelude.{◌≡◌, not, cond};
ghost use Rattle.model.specs.Numbers.{count};
ghost use Rattle.model.specs.Calls.{table_refused};
ghost use Rattle.model.specs.Refusals.{number_of};
ghost use Rattle.table_test.specs.Tested.{is_mark, LeadsBack, Decides};

use model::{Refusal, Table};

// How many bytes stand for no group.
fn marks(inverse: &[u8; 256]) -> u16
    ensures { result ≡ count (is_mark inverse.now) 256 }
{
    let mut marks = 0;
    for entry in inverse {
        if *entry == 243 {
            marks += 1;
        }
    }
    marks
}

// The entry of the inverse at each value's byte is that value.
fn leads_back(bytes: &[u8; 243], inverse: &[u8; 256]) -> bool
    ensures { Decides (LeadsBack bytes.now inverse.now) result }
{
    bytes
        .iter()
        .enumerate()
        .all(|(v, b)| inverse[*b as usize] as usize == v)
}

// Loading gives the table with these arrays: each value's byte leads back to it, and the bytes left, 256 - 243, are marked.
pub fn leads_all_back(bytes: &[u8; 243], inverse: &[u8; 256]) -> bool
    ensures { result ≡ not (table_refused (record { bytes = bytes.now; inverse = inverse.now })) }
{
    let counted = marks(inverse) == 13;
    counted && leads_back(bytes, inverse)
}

// The same of a table that is handed over by value.
fn is_own_table(table: Table) -> bool
    ensures { result ≡ not (table_refused table) }
{
    leads_all_back(&table.bytes, &table.inverse)
}

// Loading gives the table. The standard one is told in fewer steps.
#[tactic(auto, using(crate::proofs::Exact::told_standard))]
pub fn is_loaded(table: Table) -> bool
    ensures { result ≡ not (table_refused table) }
{
    standard_test::is_standard_table(table) || is_own_table(table)
}

// Refusal 19, "a call is handed a table that loading never gives".
pub fn check(table: Table) -> Result<(), Refusal>
    ensures { number_of result ≡ cond (table_refused table) 19 0 }
{
    if is_loaded(table) {
        Ok(())
    } else {
        Err(Refusal::BadTable)
    }
}
