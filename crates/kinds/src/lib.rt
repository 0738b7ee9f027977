#![tactic(auto)]

// Kinds of records and their families, and refusal 2. A kind is a number here: what a record of it holds is not known.
// Kinds and families are numbers here, and what is promised holds of any number (decision 173).
ghost use Rattle.std.specs.Prelude.{◌≡◌};
ghost use Rattle.model.specs.Map.{is_family, stores_outside, is_kind, family};

#[tactic(auto, unfolding(model::specs::Map::is_family, model::specs::Numbers::elem))]
fn is_family(kind: u16) -> bool
    ensures { result ≡ is_family kind }
{
    matches!(kind, 1..=4)
}

#[tactic(auto, unfolding(model::specs::Map::stores_outside, model::specs::Numbers::elem))]
pub fn stores_outside(kind: u16) -> bool
    ensures { result ≡ stores_outside kind }
{
    matches!(kind, 0x101 | 0x102 | 0x104)
}

#[tactic(auto, unfolding(model::specs::Map::is_kind))]
pub fn is_kind(kind: u16) -> bool
    ensures { result ≡ is_kind kind }
{
    is_family(kind) || stores_outside(kind)
}

// The kind without the outside's bytes.
#[tactic(auto, unfolding(model::specs::Map::family, model::specs::Map::stores_outside, model::specs::Numbers::elem))]
pub fn family(kind: u16) -> u16
    ensures { result ≡ family kind }
{
    if stores_outside(kind) {
        kind - 0x100
    } else {
        kind
    }
}
