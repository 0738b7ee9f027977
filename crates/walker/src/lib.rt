#![tactic(auto)]

// A walker over a shelf: it holds the used bytes and the place that it has come to. Each function over it is thin and
// leaves the work to a function of `shelf` or `records` with plain parameters.
ghost use Rattle.std.specs.Prelude.{◌≡◌, [], take, MatchResult};
ghost use Rattle.model.specs.Refusals.{number_of_refusal};
ghost use Rattle.model.specs.Calls.{Fetched};
ghost use Rattle.model.specs.ShelfWalk.{next_place, Begun};
ghost use Rattle.model.specs.Parts.{CutOut, FetchedPart};

use model::Refusal;

#[derive(Clone, Copy)]
pub struct Walker<'a> {
    pub src: &'a [u8],
    pub at: usize,
}

// The record at the walker's place, as a part of the bytes; empty if none is left, or none that passes 1, 2, 3 and 5 stands there.
pub fn here<'a>(w: Walker<'a>) -> &'a [u8]
    ensures { CutOut w.entry.src w.entry.at result }
{
    records::record_at(w.src, w.at)
}

// The walker moved on past that record.
pub fn onward<'a>(w: Walker<'a>) -> Walker<'a>
    ensures { (result.src ≡ w.entry.src) × (result.at ≡ next_place w.entry.src.now w.entry.at) }
{
    let at = shelf::next_place(w.src, w.at);
    Walker { src: w.src, at }
}

// A walk from record n on. It is refused as fetching is; the used length, where no record is left, is what a caller takes for its place then.
pub fn begin<'a>(bytes: &'a [u8], used: usize, n: usize) -> Result<Walker<'a>, Refusal>
    ensures { MatchResult result (λ w. (w.src.now ≡ take used bytes.now) × (w.src.ref_ptr ≡ bytes.entry.ref_ptr) × Begun bytes.now used n w.at 0)
        (λ e. Begun bytes.now used n used (number_of_refusal e)) }
{
    let at = shelf::walk_begin(bytes, used, n)?;
    let src = shelf::used_part(bytes, used);
    Ok(Walker { src, at })
}

// The record that a walk from record n yields first: for callers with plain parameters, who need no walk by hand. It is refused as fetching is.
#[tactic(auto, using(shelf::proofs::Walking::none_fetched))]
pub fn first<'a>(bytes: &'a [u8], used: usize, n: usize) -> Result<&'a [u8], Refusal>
    ensures { MatchResult result (λ part. FetchedPart bytes.entry used n part 0) (λ e. Fetched bytes.now used n [] (number_of_refusal e)) }
{
    Ok(here(begin(bytes, used, n)?))
}
