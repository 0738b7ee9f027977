#![tactic(auto)]

// The outside that a record names: its number in the record, and whether that is the lowest dart of a face of the plan that was read. It knows heads of records and
// rotations; no payloads.
// Kinds and families are numbers here, and what is promised holds of any number (decision 173).
ghost use Rattle.std.specs.Prelude.{◌≡◌, true, ◌&&◌, ◌≤◌, eqb, ltb, length};
ghost use Rattle.model.specs.Numbers.{is_permutation};
ghost use Rattle.model.specs.Map.{face_of, dart_count_fits};
ghost use Rattle.model.specs.Shelf.{kind_of, passes};
ghost use Rattle.lists.specs.Coder.{outside_of};
ghost use Rattle.work.specs.Area.{region};

use dart_steps::Rotation;

// x is the lowest dart of a face of the rotation in the first n entries.
#[tactic(auto, unfolding(work::specs::Area::region))]
pub fn is_face(w: &[u16], n: usize, x: usize) -> bool
    requires { (dart_count_fits n ≡ true) × (n ≤ length w.now) × (is_permutation (region 0 n w.now) ≡ true) }
    ensures { result ≡ (ltb x n && eqb (face_of (region 0 n w.now) x) x) }
{
    let zero = x == 0;
    zero || (x < n && outer_face::is_lowest(Rotation { order: &w[..n] }, x))
}

// The number of the outside that a record of this kind names; 0 in a kind without it, no `None`: the theorems on `outside_of` have that number.
#[tactic(auto, unfolding(lists::specs::Coder::outside_of))]
pub fn outside_of(record: &[u8], kind: u16) -> u16
    requires { (passes «record».now ≡ true) × (kind ≡ kind_of «record».now) }
    ensures { result ≡ outside_of «record».now }
{
    if kinds::stores_outside(kind) {
        heads::field(record, 6)
    } else {
        0
    }
}
