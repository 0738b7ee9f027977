#![tactic(auto)]

// The search for a record among bytes that should be records end to end: one walk over the heads. Lengths are compared first, and the records of which more is
// compared are counted.
ghost use Rattle.std.specs.Prelude.{◌≡◌, cond, ◌≤◌, length};
ghost use Rattle.model.specs.Shelf.{kind_of, end_to_end, same};
ghost use Rattle.searching.specs.Search.{search_of};
ghost use Rattle.searching.specs.declared.Searched.TheVariants.{There};

// The number of the first equal record, or, where none is equal, how many records there are; then how many were compared beyond the length.
#[derive(Clone, Copy, Debug, PartialEq, Eq)]
pub enum Searched {
    There(usize, usize),
    Missing(usize, usize),
}

// From the end on: records of one kind and size begin alike.
fn same(a: &[u8], b: &[u8]) -> bool
    requires { length a.now ≡ length b.now }
    ensures { result ≡ same a.now b.now }
{
    // no `a == b`: that calls a function of the C library, and the library needs two alone
    for i in (0..a.len()).rev() {
        if a[i] != b[i] {
            return false;
        }
    }
    true
}

// Two records of one length: kinds are compared, then bytes.
fn equal(record: &[u8], kind: u16, other: &[u8]) -> bool
    requires { (length «record».now ≡ length other.now) × (6 ≤ length other.now) × (kind ≡ kind_of «record».now) }
    ensures { result ≡ same «record».now other.now }
{
    heads::field(other, 2) == kind && same(record, other)
}

// Record n is the equal one. The bytes past it must be records end to end too.
fn there(past: &[u8], n: usize, compared: usize) -> Option<Searched>
    ensures { result ≡ cond (end_to_end past.now) (Some (There n compared)) None }
{
    records::count(past)?;
    Some(Searched::There(n, compared))
}

// None where the bytes are not records end to end. The record's length and kind are fetched before the walk begins.
pub fn search(record: &[u8], bytes: &[u8]) -> Option<Searched>
    requires { 6 ≤ length «record».now }
    ensures { result ≡ search_of «record».now bytes.now }
{
    let length = record.len();
    let kind = heads::field(record, 2);
    let mut at = 0;
    let mut n = 0;
    let mut compared = 0;
    while at < bytes.len() {
        let size = records::length_at(bytes, at)?;
        let end = at + size;
        if size == length {
            compared += 1;
            if equal(record, kind, &bytes[at..end]) {
                return there(&bytes[end..], n, compared);
            }
        }
        at = end;
        n += 1;
    }
    Some(Searched::Missing(n, compared))
}
