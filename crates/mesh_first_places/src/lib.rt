#![tactic(auto)]

// The walk of a mesh's dual by marks goes down to a face: the face is marked, and at its first place the walk goes down again, or begins an edge outside the
// tree and is at the second. It knows no way up.
ghost use Rattle.std.specs.Prelude.{◌≡◌, suc, ◌*◌, ◌≤◌, ◌<◌, length, get_or};
ghost use Rattle.model.specs.Map.{opposite, face_next};
ghost use Rattle.trace_steps.specs.Steps.{Ground};
ghost use Rattle.mesh_second_places.specs.Walks.{AtDown, Stepped};
ghost use Rattle.mesh_first_places.specs.Faces.{Faced, half_area, AtFirst};

use mesh_second_places::{Stroll, Turn};
use trace_steps::SEEN;

// ---- what is put

// Whether the face with the darts o, x and y, that follow each other, is a triangle of three edges; then they are marked.
pub fn mark_face(order: &[u16], w: &mut [u16], o: usize, x: usize, y: usize) -> bool
    requires { Ground order.now w.old × (o < length order.now) × (x ≡ face_next order.now o) × (y ≡ face_next order.now x) }
    ensures { Faced order.now o w.old result w.new }
{
    let z = dart_steps::along(order, y);
    if z != o || o / 2 == x / 2 || x / 2 == y / 2 || y / 2 == o / 2 {
        return false;
    }
    w[o] = SEEN;
    w[x] = SEEN;
    w[y] = SEEN;
    true
}

// The second place y of face f, entered by edge e, is still to come.
#[tactic(auto, unfolding(crate::specs::Faces::half_area))]
fn put_half(w: &mut [u16], n: usize, y: usize, f: usize, e: usize, halves: usize)
    requires { (n ≤ 8192) × (16 * n ≤ length w.old) × (y < n) × (f ≤ n) × (e < n) × (halves < n) }
    ensures { w.new ≡ half_area n y f e halves w.old }
{
    w[mesh_second_places::HALVES * n + halves] = y as u16;
    w[mesh_second_places::OWNERS * n + halves] = f as u16;
    w[mesh_second_places::ENTRIES * n + halves] = e as u16;
}

// ---- the places of a face

// The first place of the face entered last, whose second is y, begins an edge outside the tree.
fn leaf(order: &[u16], w: &mut [u16], y: usize, s: Stroll) -> Option<Turn>
    requires { AtFirst order.now w.old y s × (32768 ≤ get_or w.old (opposite s.dart) 0) }
    ensures { Stepped order.now s.root s.edges s.halves w.old result w.new }
{
    mesh_second_places::put_edge(w, order.len(), s.dart, s.edges, s.waiting);
    let t = Stroll {
        dart: y,
        edges: s.edges + 1,
        waiting: s.waiting + 1,
        ..s
    };
    mesh_second_places::second_place(order, w, s.faces - 1, 4, 5, t)
}

// At the first place of the face entered last, whose second is y.
fn first_place(order: &[u16], w: &mut [u16], y: usize, s: Stroll) -> Option<Turn>
    requires { AtFirst order.now w.old y s }
    ensures { Stepped order.now s.root s.edges s.halves w.old result w.new }
{
    match w[dart_steps::other(s.dart)] {
        0 => {
            put_half(w, order.len(), y, s.faces - 1, s.edges - 1, s.halves);
            Some(Turn::Down(Stroll {
                halves: s.halves + 1,
                ..s
            }))
        }
        SEEN.. => leaf(order, w, y, s),
        _ => None,
    }
}

// The dart goes down to another face.
pub fn enter(order: &[u16], w: &mut [u16], s: Stroll) -> Option<Turn>
    requires { AtDown order.now w.old s }
    ensures { Stepped order.now s.root (suc s.edges) s.halves w.old result w.new }
{
    let o = dart_steps::other(s.dart);
    let x = order[s.dart] as usize;
    let y = dart_steps::along(order, x);
    if !mark_face(order, w, o, x, y) {
        return None;
    }
    w[s.dart] = trace_steps::DOWN + s.edges as u16;
    let t = Stroll {
        dart: x,
        edges: s.edges + 1,
        faces: s.faces + 1,
        ..s
    };
    first_place(order, w, y, t)
}
