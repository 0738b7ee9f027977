#![tactic(auto)]

// The sizes of what is lent, from the kind and the number of edges alone. No record and no plan is known here.
// Kinds and families are numbers here, and what is promised holds of any number (decision 173).
ghost use Rattle.std.specs.Prelude.{◌≡◌, ◌*◌, ◌<◌, MatchOption};
ghost use Rattle.model.specs.Exports.{length_for};

// The length of a record of this kind with so many edges; `None` if there is none, and in kind 3, where the edges do not fix it.
#[tactic(auto, using(model::proofs::Heads::record_length_range), unfolding(model::specs::Exports::length_for, model::specs::Map::edge_count_fits))]
pub fn record_length(kind: u16, edges: u16) -> Option<u16>
    ensures { MatchOption result (length_for kind edges ≡ 0) (λ l. (l ≡ length_for kind edges) × (0 < l)) }
{
    if !kinds::is_kind(kind) || kind == 3 || edges == 0 || edges > 4096 {
        return None;
    }
    Some(record_lengths::record_length(kind, edges) as u16)
}

// The work area, in 16-bit numbers, for so many edges.
pub fn work_length(edges: u16) -> usize
    ensures { result ≡ 32 * edges }
{
    32 * (edges as usize)
}
