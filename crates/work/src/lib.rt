#![tactic(auto)]

// The lent work area: which part is whose, and parts filled, cleared, copied out. It knows lists and places, no plans.
ghost use Rattle.std.specs.Prelude.{◌≡◌, ◌+◌, ◌≤◌, length, replicate};
ghost use Rattle.model.specs.Calls.{zeros, front};
ghost use Rattle.work.specs.Area.{region, placed};

// ---- the map, in units of n, the number of darts; `specs/Map` has the same names

// Writing: names of vertices from 0 on, letters by dart, vertices seen, letters by position, names of faces.
pub const MET: usize = 1;

pub const SEEN: usize = 2;

pub const LETTERS: usize = 3;

pub const FACES: usize = 4;

// The walk by marks, which stand from 0 on: the stack of edges outside the tree that wait for their end.
pub const WAITING: usize = 1;

// Writing: the tree bits; the labels, in reading too.
pub const BITS: usize = 8;

pub const LABELS: usize = 9;

// Writing and measuring: the sizes of vertices and of faces.
pub const DEGREES: usize = 10;

pub const LENGTHS: usize = 11;

// Reading: the rotation from 0 on; stacks of the vertices that the present one hangs from, of open tree edges, of the vertices where other open edges
// began, and of those edges.
pub const BELOW: usize = 5;

pub const TREES: usize = 6;

pub const BEGUN: usize = 7;

pub const OPENS: usize = 8;

// Meshes. Writing: the node types; the bits of code A stand at BITS, the digits at LABELS. Reading: the node types too, and stacks of the nodes that are not
// complete, the open edges when each was entered and what is to come at its second place.
pub const TYPES: usize = 7;

pub const BASES: usize = 5;

pub const PLACES: usize = 6;

// ---- codes

// The letters; 0 stands for a dart not met yet.
pub const DOWN: u16 = 1;

pub const UP: u16 = 2;

pub const FIRST: u16 = 3;

pub const SECOND: u16 = 4;

// The label of the edge to a bare leaf.
pub const STAR: u16 = 2;

// ---- parts

// The n entries from place a on become x.
pub fn fill(w: &mut [u16], a: usize, n: usize, x: u16)
    requires { a + n ≤ length w.old }
    ensures { w.new ≡ placed a (replicate n x) w.old }
{
    w[a..a + n].fill(x);
}

// "The work area, short or not, is zeros on every return."
#[tactic(auto, unfolding(model::specs::Calls::zeros))]
pub fn clear(w: &mut [u16])
    ensures { w.new ≡ zeros w.old }
{
    w.fill(0);
}

// The first n entries of the work area become those of the output.
#[tactic(auto, unfolding(model::specs::Calls::front, crate::specs::Area::region))]
pub fn copy_front(w: &[u16], n: usize, out: &mut [u16])
    requires { (n ≤ length w.now) × (n ≤ length out.old) }
    ensures { out.new ≡ front (region 0 n w.now) out.old }
{
    // Not copy_from_slice: that is compiled to memmove, and the library may need no more than memset and memcpy.
    for i in 0..n {
        out[i] = w[i];
    }
}
