#![tactic(auto)]

// A record found on the shelf, or put just past its used bytes: where it belongs, and the bytes. Its payload is not looked at, and how records are searched for is
// not known here.
ghost use Rattle.std.specs.Prelude.{◌≡◌, ◌++◌, ◌+◌, ◌≤◌, length, take, drop};
ghost use Rattle.model.specs.Calls.{front, shelve_answer, shelved_bytes};
ghost use Rattle.placing.specs.Spot.{spot_of};

use model::{Refusal, Shelved};
use searching::Searched;

// Where a record belongs: it is there under a number, or it is new and gets a number.
#[derive(Clone, Copy, Debug, PartialEq, Eq)]
enum Spot {
    There(usize),
    New(usize),
}

fn spot_of(record: &[u8], shelf: &[u8], used: usize) -> Result<Spot, Refusal>
    requires { 6 ≤ length «record».now }
    ensures { result ≡ spot_of «record».now shelf.now used }
{
    if used > shelf.len() {
        return Err(Refusal::ShelfBroken);
    }
    match searching::search(record, &shelf[..used]).ok_or(Refusal::ShelfBroken)? {
        Searched::There(n, _) => Ok(Spot::There(n)),
        Searched::Missing(n, _) => {
            if shelf.len() - used < record.len() {
                return Err(Refusal::ShelfFull);
            }
            Ok(Spot::New(n))
        }
    }
}

// The record is put into the shelf from this place on.
fn put(shelf: &mut [u8], at: usize, record: &[u8])
    requires { at + length «record».now ≤ length shelf.old }
    ensures { shelf.new ≡ take at shelf.old ++ front «record».now (drop at shelf.old) }
{
    // not copy_from_slice: that is compiled to memmove, and the library may need no more than memset and memcpy
    for i in 0..record.len() {
        shelf[at + i] = record[i];
    }
}

pub fn place(record: &[u8], shelf: &mut [u8], used: usize) -> Result<Shelved, Refusal>
    requires { 6 ≤ length «record».now }
    ensures { (result ≡ shelve_answer «record».now shelf.old used) × (shelf.new ≡ shelved_bytes «record».now shelf.old used) }
{
    match spot_of(record, shelf, used)? {
        Spot::There(number) => Ok(Shelved { number, used }),
        Spot::New(number) => {
            put(shelf, used, record);
            let end = used + record.len();
            Ok(Shelved { number, used: end })
        }
    }
}
