#![tactic(auto)]

// The refusals of measuring but those of the plan itself: 3, 6 and 7 before them, and 8 after them, with the list where it has room. It knows no faces.
ghost use Rattle.std.specs.Prelude.{◌≡◌};
ghost use Rattle.model.specs.Refusals.{number_of};
ghost use Rattle.measure_checks.specs.Early.{early_refusal, Lengths, Copied};

use model::Refusal;

// The first of the refusals that need no work area: 3, 6, 7.
#[tactic(auto, using(model::proofs::Fitness::count_parts), unfolding(crate::specs::Early::early_refusal, model::specs::Numbers::first_refusal, model::specs::Map::edges))]
pub fn early(order: &[u16], room: usize) -> Result<(), Refusal>
    ensures { number_of result ≡ early_refusal order.now room }
{
    let n = order.len();
    if !dart_count::dart_count_fits(n) {
        return Err(Refusal::BadCount);
    }
    if !permutation::is_permutation(order) {
        return Err(Refusal::BadEntry);
    }
    if room < 16 * n {
        return Err(Refusal::ShortWork);
    }
    Ok(())
}

// The lengths of n darts' faces go from the work area to a list that has room for them.
pub fn copied(w: &[u16], n: usize, faces: usize, list: &mut [u16]) -> Result<u16, Refusal>
    requires { Lengths n faces w.now }
    ensures { Copied n faces w.now list.old result list.new }
{
    if list.len() < faces {
        return Err(Refusal::ShortOutput);
    }
    work::copy_front(&w[work::LENGTHS * n..], faces, list);
    Ok(faces as u16)
}
