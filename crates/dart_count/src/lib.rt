#![tactic(auto)]

// Refusal 3: whether so many darts are a plan's. It knows numbers alone.
ghost use Rattle.std.specs.Prelude.{◌≡◌};
ghost use Rattle.model.specs.Map.{dart_count_fits};

// The count is even, and of 1 to 4,096 edges.
#[tactic(auto, unfolding(model::specs::Map::dart_count_fits))]
pub fn dart_count_fits(n: usize) -> bool
    ensures { result ≡ dart_count_fits n }
{
    n != 0 && n % 2 == 0 && n <= 8192
}
