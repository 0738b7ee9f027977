#![tactic(auto)]

// The values of each answer as out-numbers: the refusal's number is returned, 0 if none, and each value goes through a reference to a number. How an answer
// is come by is not known here.
ghost use Rattle.std.specs.Prelude.{◌≡◌};
ghost use Rattle.std.specs.Result.{result_unwrap_or};
ghost use Rattle.model.specs.Refusals.{number_of, characteristic_of};
ghost use Rattle.model.specs.Calls.{edges_of_read, outside_of_read, record_number_of_shelved, used_of_shelved};

use model::{ReadBack, Refusal, Shelved};

// Of writing and measuring: the record's length or the number of faces, 0 if refused, and the characteristic of refusal 10, else 0.
pub fn counted(answer: Result<u16, Refusal>, count: &mut u16, characteristic: &mut i32) -> u16
    ensures { (result ≡ number_of answer) × (count.new ≡ result_unwrap_or answer 0) × (characteristic.new ≡ characteristic_of answer) }
{
    *count = 0;
    *characteristic = 0;
    match answer {
        Ok(n) => {
            *count = n;
            0
        }
        Err(refusal) => {
            if let Refusal::NotPlanar(x) = refusal {
                *characteristic = x;
            }
            refusal.into()
        }
    }
}

// Of reading: the number of edges and the outside, each 0 if refused.
pub fn read_back(answer: Result<ReadBack, Refusal>, edges: &mut u16, outside: &mut u16) -> u16
    ensures { (result ≡ number_of answer) × (edges.new ≡ edges_of_read answer) × (outside.new ≡ outside_of_read answer) }
{
    match answer {
        Ok(back) => {
            *edges = back.edges;
            *outside = back.outside;
            0
        }
        Err(refusal) => {
            *edges = 0;
            *outside = 0;
            refusal.into()
        }
    }
}

// Of shelving: the record's number, 0 if refused, and the new used length, as before if refused.
pub fn shelved(
    answer: Result<Shelved, Refusal>,
    used: usize,
    number: &mut usize,
    new_used: &mut usize,
) -> u16
    ensures { (result ≡ number_of answer) × (number.new ≡ record_number_of_shelved answer) × (new_used.new ≡ used_of_shelved used answer) }
{
    match answer {
        Ok(shelved) => {
            *number = shelved.number;
            *new_used = shelved.used;
            0
        }
        Err(refusal) => {
            *number = 0;
            *new_used = used;
            refusal.into()
        }
    }
}
