#![tactic(auto)]

// Whether all faces of a rotation are triangles, dart by dart. It knows rotations, not vertices or meshes.
ghost use Rattle.std.specs.Prelude.{◌≡◌, ◌<◌, length};
ghost use Rattle.model.specs.Map.{is_triangle, has_other_face};

use dart_steps::Rotation;

// The face of d has three darts, of three different edges.
#[tactic(auto, using(crate::proofs::Steps::step_bound), unfolding(model::specs::Map::is_triangle))]
fn is_triangle(rotation: Rotation<'_>, d: usize) -> bool
    requires { d < length rotation.order.now }
    ensures { result ≡ is_triangle rotation.entry.order.now d }
{
    let e = rotation.along(d);
    let f = rotation.along(e);
    let g = rotation.along(f);
    g == d && d / 2 != e / 2 && e / 2 != f / 2 && f / 2 != d / 2
}

// Some face is no such triangle.
pub fn has_other_face(rotation: Rotation<'_>) -> bool
    ensures { result ≡ has_other_face rotation.entry.order.now }
{
    (0..rotation.order.len()).any(|d| !is_triangle(rotation, d))
}
