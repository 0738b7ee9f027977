#![tactic(auto)]

// The outer face of a plan: the number that stands for it in a record, the least standard number along it, and whether a number is one. It knows rotations and the
// marks of darts in the work area; no words, no bytes.
ghost use Rattle.std.specs.Prelude.{◌≡◌, ◌<◌, eqb, length};
ghost use Rattle.model.specs.Map.{opposite, face_of};
ghost use Rattle.model.specs.Traversal.{standard_face};
ghost use Rattle.outer_face.specs.Marks.{number_by, Marked};

use dart_steps::Rotation;

// ---- reading

// Dart x is the lowest of its face: along the face from x no lower dart is met before x again.
pub fn is_lowest(rotation: Rotation<'_>, x: usize) -> bool
    requires { x < length rotation.order.now }
    ensures { result ≡ eqb (face_of rotation.entry.order.now x) x }
{
    let mut d = rotation.along(x);
    while x < d {
        d = rotation.along(d);
    }
    d == x
}

// ---- writing

// From here on a mark says that its dart is not met first of its edge.
const SECOND: u16 = 32768;

// A lower mark is the number of the edge, modulo this.
const EDGES: u16 = 8192;

// The standard number of dart x, by the marks: 2e if it is met first of edge e, 2e + 1 if its opposite is.
#[tactic(auto, unfolding(crate::specs::Marks::number_by))]
fn standard(w: &[u16], x: usize) -> u16
    requires { (x < 65536) × (x < length w.now) × (opposite x < length w.now) }
    ensures { result ≡ number_by w.now x }
{
    let own = w[x];
    let o = dart_steps::other(x);
    let across = w[o];
    if own < SECOND {
        return 2 * (own % EDGES);
    }
    2 * (across % EDGES) + 1
}

// The least standard number on the outer face: once along it, or until there is no lesser one.
pub fn lowest(order: &[u16], root: usize, outside: usize, w: &[u16]) -> u16
    requires { Marked (record { rotation = order.now; root = root; outside = outside }) w.now }
    ensures { result ≡ standard_face (record { rotation = order.now; root = root; outside = outside }) outside }
{
    let mut least = standard(w, outside);
    let mut x = dart_steps::along(order, outside);
    while x != outside {
        if least == 0 {
            return 0;
        }
        least = least.min(standard(w, x));
        x = dart_steps::along(order, x);
    }
    least
}
