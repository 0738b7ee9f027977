#![tactic(auto)]

// The shelf: a lent byte slice with a used length, whose used bytes are records end to end. Fetching and walking look at heads and lengths only. The public
// calls are `fetch`, `walk_begin`, `walk_length` and `walk_next`, and for the walker `used_part` and `next_place`; they have no `requires`.
ghost use Rattle.std.specs.Prelude.{◌≡◌, [], length, take, MatchResult};
ghost use Rattle.std.specs.Result.{result_unwrap_or};
ghost use Rattle.model.specs.Refusals.{number_of_refusal, number_of};
ghost use Rattle.model.specs.Calls.{fetch_refusal, Fetched};
ghost use Rattle.model.specs.ShelfWalk.{record_at, next_place, Begun};
ghost use Rattle.shelf.specs.Count.{shelf_count};
ghost use Rattle.model.specs.Parts.{FetchedPart};

use model::Refusal;

// How many records are on the shelf; none if 14 concerns it.
fn count(shelf: &[u8], used: usize) -> Option<usize>
    ensures { result ≡ shelf_count shelf.now used }
{
    if used > shelf.len() {
        return None;
    }
    records::count(&shelf[..used])
}

// The first of 14, 15 that concerns fetching record n.
fn check(shelf: &[u8], used: usize, n: usize) -> Result<(), Refusal>
    ensures { number_of result ≡ fetch_refusal shelf.now used n }
{
    let Some(records) = count(shelf, used) else {
        return Err(Refusal::ShelfBroken);
    };
    if n < records {
        return Ok(());
    }
    Err(Refusal::NoSuchRecord)
}

// The used bytes; the whole shelf if the used length exceeds it.
pub fn used_part<'a>(shelf: &'a [u8], used: usize) -> &'a [u8]
    ensures { (result.now ≡ take used shelf.now) × (result.ref_ptr ≡ shelf.entry.ref_ptr) }
{
    if used > shelf.len() {
        return shelf;
    }
    &shelf[..used]
}

// ---- walking, for callers with plain parameters: a walk is the place that it has come to

// The place of record n, with which a walk begins. It is refused as fetching is; the used length, where no record is left, is what a caller takes for it then.
pub fn walk_begin(shelf: &[u8], used: usize, n: usize) -> Result<usize, Refusal>
    ensures { Begun shelf.now used n (result_unwrap_or result used) (number_of result) }
{
    check(shelf, used, n)?;
    Ok(records::place(&shelf[..used], n))
}

// The length of the record that stands at this place of the used bytes; 0 if none is left there, or none that passes 1, 2, 3 and 5.
pub fn walk_length(shelf: &[u8], used: usize, at: usize) -> usize
    ensures { result ≡ length (record_at (take used shelf.now) at) }
{
    records::length_at(used_part(shelf, used), at).unwrap_or(0)
}

// The place past that record; the place itself if none stands there.
pub fn walk_next(shelf: &[u8], used: usize, at: usize) -> usize
    ensures { result ≡ next_place (take used shelf.now) at }
{
    next_place(used_part(shelf, used), at)
}

pub fn next_place(bytes: &[u8], at: usize) -> usize
    ensures { result ≡ next_place bytes.now at }
{
    at + records::length_at(bytes, at).unwrap_or(0)
}

// ---- fetching: the first step of a walk

// The part of the shelf that is record n. What a caller takes for it where it is refused is the empty part.
#[tactic(auto, using(crate::proofs::Walking::none_fetched))]
pub fn fetch<'a>(shelf: &'a [u8], used: usize, n: usize) -> Result<&'a [u8], Refusal>
    ensures { MatchResult result (λ part. FetchedPart shelf.entry used n part 0) (λ e. Fetched shelf.now used n [] (number_of_refusal e)) }
{
    let at = walk_begin(shelf, used, n)?;
    Ok(records::record_at(used_part(shelf, used), at))
}
