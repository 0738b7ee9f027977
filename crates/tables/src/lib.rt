#![tactic(auto)]

// Group tables made: one loaded from bytes, with its inverse, and the standard one. It knows bytes and values, no records and no plans.
ghost use Rattle.std.specs.Prelude.{◌≡◌};
ghost use Rattle.std.specs.Result.{result_unwrap_or};
ghost use Rattle.model.specs.Refusals.{number_of};
ghost use Rattle.model.specs.Numbers.{tabulate};
ghost use Rattle.model.specs.Groups.{inverse_of, standard_table, no_table};
ghost use Rattle.model.specs.Calls.{Loads};

use model::{Refusal, Table};

// For each byte the first place where it stands, 243 where it does not.
fn inverted(bytes: &[u8; 243]) -> [u8; 256]
    ensures { result ≡ inverse_of bytes.now }
{
    let mut inverse = [243u8; 256];
    for v in (0..243).rev() {
        inverse[bytes[v] as usize] = v as u8;
    }
    inverse
}

// The table of zeros, which every call refuses: it stands for the one that a refused loading does not give.
#[tactic(auto, unfolding(model::specs::Groups::no_table))]
pub fn no_table() -> Table
    ensures { result ≡ no_table }
{
    let bytes = [0u8; 243];
    let inverse = [0u8; 256];
    Table { bytes, inverse }
}

// The table of these bytes. Any bytes, and any number of them.
pub fn load(bytes: &[u8]) -> Result<Table, Refusal>
    ensures { Loads bytes.now (result_unwrap_or result no_table) (number_of result) }
{
    let Ok(own) = <&[u8; 243]>::try_from(bytes) else {
        return Err(Refusal::BadTable);
    };
    let inverse = inverted(own);
    if table_test::leads_all_back(own, &inverse) {
        return Ok(Table {
            bytes: *own,
            inverse,
        });
    }
    Err(Refusal::BadTable)
}

// 0, 1, .., 242.
fn numbers() -> [u8; 243]
    ensures { result ≡ tabulate (λ v. v) 0 243 }
{
    let mut bytes = [0u8; 243];
    for v in 0..243 {
        bytes[v] = v as u8;
    }
    bytes
}

// The table under which a group's byte is its value.
#[tactic(auto, using(crate::proofs::Loading::made_loaded), unfolding(model::specs::Groups::standard_table))]
pub fn standard() -> Table
    ensures { result ≡ standard_table }
{
    let bytes = numbers();
    let inverse = inverted(&bytes);
    Table { bytes, inverse }
}
