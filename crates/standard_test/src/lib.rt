#![tactic(auto)]

// Whether a table is the standard one: its entries are compared with those that the standard table has there, in loops without a branch. It knows bytes; of
// loading, and of other tables, it knows nothing.
ghost use Rattle.std.specs.Prelude.{◌≡◌, true};
ghost use Rattle.model.specs.Groups.{standard_table};
ghost use Rattle.standard_test.specs.Entries.{standard_entry, Alike};

use model::Table;

// The entry of the standard table's inverse at this place.
#[tactic(auto, unfolding(crate::specs::Entries::standard_entry))]
fn standard_entry(b: u8) -> u8
    ensures { result ≡ standard_entry b }
{
    b.min(243)
}

// Each of the first 224 entries is its own place in both lists, as in the standard table. The loop has no branch, so that many entries are compared at once,
// and it leaves none over: 224 is 7 times 32.
fn first_places(bytes: &[u8; 243], inverse: &[u8; 256]) -> bool
    ensures { result ≡ true → Alike (λ v. v) 0 224 bytes.now × Alike (λ v. v) 0 224 inverse.now }
{
    let mut differ = 0u8;
    for v in 0..224 {
        let here = v as u8;
        differ |= (bytes[v] ^ here) | (inverse[v] ^ here);
    }
    differ == 0
}

// So is each byte after them.
fn last_bytes(bytes: &[u8; 243]) -> bool
    ensures { result ≡ true → Alike (λ v. v) 224 243 bytes.now }
{
    let mut differ = 0u8;
    for v in 224..243 {
        differ |= bytes[v] ^ (v as u8);
    }
    differ == 0
}

// The entries of the inverse after them are the standard table's.
fn last_entries(inverse: &[u8; 256]) -> bool
    ensures { result ≡ true → Alike standard_entry 224 256 inverse.now }
{
    let mut differ = 0u8;
    for b in 224..256 {
        differ |= inverse[b] ^ standard_entry(b as u8);
    }
    differ == 0
}

// The standard table.
fn is_standard(bytes: &[u8; 243], inverse: &[u8; 256]) -> bool
    ensures { result ≡ true → (bytes.now ≡ standard_table.bytes) × (inverse.now ≡ standard_table.inverse) }
{
    first_places(bytes, inverse) && last_bytes(bytes) && last_entries(inverse)
}

// The same of a table that is handed over by value: its entries are read at known places, so that no copy of it is made.
pub fn is_standard_table(table: Table) -> bool
    ensures { result ≡ true → table ≡ standard_table }
{
    is_standard(&table.bytes, &table.inverse)
}
