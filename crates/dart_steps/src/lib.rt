#![tactic(auto)]

// From a dart to the next: the other one of its edge, the next round its vertex, the next along its face. It knows rotations dart by dart, no whole cycles.
ghost use Rattle.std.specs.Prelude.{◌≡◌, true, false, ℕ, ◌<◌, List, length};
ghost use Rattle.model.specs.Numbers.{is_permutation};
ghost use Rattle.model.specs.Map.{opposite, next, face_next, dart_count_fits};
ghost use Rattle.orbits.proofs.Maps.{next_perm, face_perm};
ghost use Rattle.model.proofs.Fitness.{count_even};
ghost use Rattle.dart_steps.specs.Steps.{step_of, Permutes};

// The other dart of d's edge.
#[tactic(auto, using(crate::proofs::Crossing::crossed))]
pub fn other(d: usize) -> usize
    requires { d < 65536 }
    ensures { result ≡ opposite d }
{
    d ^ 1
}

// One step round a vertex.
#[tactic(auto, unfolding(model::specs::Map::next))]
pub fn around(order: &[u16], d: usize) -> usize
    requires { (dart_count_fits (length order.now) ≡ true) × (d < length order.now) }
    ensures { result ≡ step_of order.now false d }
{
    order[d] as usize
}

// One step along a face: across d's edge.
pub fn along(order: &[u16], d: usize) -> usize
    requires { (dart_count_fits (length order.now) ≡ true) × (d < length order.now) }
    ensures { result ≡ step_of order.now true d }
{
    order[other(d)] as usize
}

// ---- rotations and plans by value

// The rotation of a plan: as many entries as a plan has darts, each dart once.
#[derive(Clone, Copy)]
pub struct Rotation<'a> {
    pub order: &'a [u16],
    ghost sized: { dart_count_fits (length order.now) ≡ true },
    ghost entries: { is_permutation order.now ≡ true },
}

impl Rotation<'_> {
    // The next dart along d's face.
    pub fn along(self, d: usize) -> usize
        requires { d < length self.order.now }
        ensures { result ≡ face_next self.entry.order.now d }
    {
        along(self.order, d)
    }
}

// A rotation and the root, one of its darts.
#[derive(Clone, Copy)]
pub struct Rooted<'a> {
    pub rotation: Rotation<'a>,
    pub root: usize,
    ghost dart: { root < length rotation.order.now },
}

// ---- whose cycles are the vertices, and whose are the faces

// A step that permutes the darts of a rotation.
pub trait Steps {
    ghost of: { List ℕ → ℕ → ℕ };

    fn step(order: &[u16], d: usize) -> usize
        requires { (dart_count_fits (length order.now) ≡ true) × (d < length order.now) }
        ensures { result ≡ of order.now d };

    ghost permutes: { Permutes of };
}

// Round a vertex.
pub struct Vertices;

impl Steps for Vertices {
    ghost of = { next };

    ghost permutes = { λ rot entries size. next_perm rot entries };

    fn step(order: &[u16], d: usize) -> usize {
        around(order, d)
    }
}

// Along a face.
pub struct Faces;

impl Steps for Faces {
    ghost of = { face_next };

    ghost permutes = { λ rot entries size. face_perm rot entries (count_even (length rot) size) };

    fn step(order: &[u16], d: usize) -> usize {
        along(order, d)
    }
}
