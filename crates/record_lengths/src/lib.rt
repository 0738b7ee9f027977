#![tactic(auto)]

// How long the head, the payload and the whole record of a kind are, from the number of edges. It looks at no bytes.
// Kinds and families are numbers here, and what is promised holds of any number (decision 173).
ghost use Rattle.std.specs.Prelude.{◌≡◌, ◌≤◌};
ghost use Rattle.model.specs.Record.{head_length, payload_length, record_length};

// Where the payload of a record of this kind begins.
#[tactic(auto, unfolding(model::specs::Record::head_length))]
pub fn head_length(kind: u16) -> usize
    ensures { result ≡ head_length kind }
{
    if kinds::stores_outside(kind) { 8 } else { 6 }
}

// The length of the payload of a record of this family with m edges, where m fixes it.
#[tactic(auto, unfolding(model::specs::Record::payload_length))]
fn payload_length(family: u16, m: u16) -> usize
    ensures { (result ≡ payload_length family m) × (result ≤ 65536) }
{
    let n = m as usize;
    match family {
        1 => (3 * n + 7) / 8,
        2 => (2 * n + 7) / 8 + (n + 4) / 5,
        _ => (n + 1) / 2,
    }
}

// The length of a record of this kind with m edges, where m fixes it.
#[tactic(auto, using(model::proofs::Heads::head_length_range), unfolding(model::specs::Record::record_length))]
pub fn record_length(kind: u16, m: u16) -> usize
    ensures { result ≡ record_length kind m }
{
    head_length(kind) + payload_length(kinds::family(kind), m)
}
