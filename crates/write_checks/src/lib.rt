#![tactic(auto)]

// The refusals of writing before those of the plan itself, but 19, in the papers' order.
// Kinds and families are numbers here, and what is promised holds of any number (decision 173).
ghost use Rattle.std.specs.Prelude.{◌≡◌, ◌≤◌, length, not, ◌&&◌, ltb};
ghost use Rattle.model.specs.Numbers.{is_permutation};
ghost use Rattle.model.specs.Map.{stores_outside};
ghost use Rattle.model.specs.Refusals.{number_of};
ghost use Rattle.write_checks.specs.Early.{Entries, early_refusal};

use model::Refusal;

// The kind stores the outside, and this is none of n darts.
fn outside_refused(kind: u16, outside: u16, n: usize) -> bool
    ensures { result ≡ (stores_outside kind && not (ltb outside n)) }
{
    kinds::stores_outside(kind) && outside as usize >= n
}

// The entries are a permutation; of more than 8,192 nothing is said. The test goes by marks in the work area, which are zeros where they are a permutation,
// and by bits where it is too short for them.
pub fn entries_good(order: &[u16], w: &mut [u16]) -> bool
    ensures { Entries order.now w.old result w.new }
{
    let n = order.len();
    if n > 8192 {
        return false;
    }
    if w.len() < n {
        return permutation::is_permutation(order);
    }
    striking::is_permutation_in(order, w)
}

// The first of the refusals before those of the plan itself: 2, 3, 4, 17, 6, 7, 8. Whether the entries are a permutation is known.
#[tactic(auto, using(model::proofs::Fitness::count_parts), unfolding(crate::specs::Early::early_refusal, model::specs::Calls::early_refusals, model::specs::Numbers::first_refusal, model::specs::Map::outside_refused, model::specs::Map::edges))]
pub fn early(
    order: &[u16],
    root: u16,
    outside: u16,
    kind: u16,
    good: bool,
    room: usize,
    space: usize,
) -> Result<(), Refusal>
    requires { length order.now ≤ 8192 → good ≡ is_permutation order.now }
    ensures { number_of result ≡ early_refusal kind (record { rotation = order.now; root = root; outside = outside }) room space }
{
    if !kinds::is_kind(kind) {
        return Err(Refusal::BadKind);
    }
    let n = order.len();
    if !dart_count::dart_count_fits(n) {
        return Err(Refusal::BadCount);
    }
    if root as usize >= n {
        return Err(Refusal::BadStart);
    }
    if outside_refused(kind, outside, n) {
        return Err(Refusal::BadOutside);
    }
    if !good {
        return Err(Refusal::BadEntry);
    }
    let m = n / 2;
    if room < 32 * m {
        return Err(Refusal::ShortWork);
    }
    // in kind 3 it comes last
    if kind != 3 && space < record_lengths::record_length(kind, m as u16) {
        return Err(Refusal::ShortOutput);
    }
    Ok(())
}
