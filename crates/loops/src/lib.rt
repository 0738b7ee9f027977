#![tactic(auto)]

// Refusal 11: whether some edge is a loop, by the names of the vertices in the work area, and whether the family takes it. It names no vertices itself, and
// walks nowhere.
// Kinds and families are numbers here, and what is promised holds of any number (decision 173).
ghost use Rattle.std.specs.Prelude.{◌≡◌, true, ◌≤◌, length};
ghost use Rattle.model.specs.Map.{dart_count_fits, has_loop, loop_refused};
ghost use Rattle.contour.specs.Steps.{VerticesNamed};

// Some edge has both its darts at one vertex, by the vertices' names.
fn has_loop(order: &[u16], names: &[u16]) -> bool
    requires { (dart_count_fits (length order.now) ≡ true) × (length order.now ≤ length names.now) × VerticesNamed order.now names.now }
    ensures { result ≡ has_loop order.now }
{
    (0..order.len() / 2).any(|e| names[2 * e] == names[2 * e + 1])
}

// Some edge is a loop, and this family takes none.
#[tactic(auto, unfolding(model::specs::Map::loop_refused))]
pub fn loop_refused(order: &[u16], family: u16, names: &[u16]) -> bool
    requires { (dart_count_fits (length order.now) ≡ true) × (length order.now ≤ length names.now) × VerticesNamed order.now names.now }
    ensures { result ≡ loop_refused family order.now }
{
    family != 4 && has_loop(order, names)
}
