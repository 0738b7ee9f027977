#![tactic(auto)]

// Whether a rotation has a dead end: a dart alone at its vertex that is not the root. It needs no names of vertices, and knows no kinds.
ghost use Rattle.std.specs.Prelude.{◌≡◌, true, ◌<◌, length};
ghost use Rattle.model.specs.Numbers.{is_permutation};
ghost use Rattle.model.specs.Map.{has_dead_end};

// Some dart other than the root is alone at its vertex.
pub fn has_dead_end(order: &[u16], root: usize) -> bool
    requires { (is_permutation order.now ≡ true) × (root < length order.now) }
    ensures { result ≡ has_dead_end (record { rotation = order.now; root = root; outside = 0 }) }
{
    (0..order.len()).any(|d| order[d] as usize == d && d != root)
}
