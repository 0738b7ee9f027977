#![tactic(auto)]

// The payload of a record of kind 3 read as the mesh in standard numbers. It puts the parts in order: payload, node types, the dual's word, the dual, the plan in the
// dual's numbers, and from there the plan's own walk, which gives its own standard numbers. Nothing is written before the word is found.
ghost use Rattle.std.specs.Prelude.{◌≡◌, true, ◌*◌, ◌≤◌, ◌<◌, length};
ghost use Rattle.model.specs.Calls.{front};
ghost use Rattle.packing.specs.Groups.{undone};
ghost use Rattle.coding.specs.Payloads.{decode_mesh};
ghost use Rattle.mesh_reading.specs.Read.{MeshRead};
ghost use Rattle.mesh_reading.specs.Stages.{Spelt, WordThere, PutFrom, MeshThere, mesh_of};

use dart_steps::{Rooted, Rotation};

// The word of the dual that the payload holds, at LETTERS; whether there is one, which is whether the payload is a mesh's.
pub fn spell(payload: &[u8], inverse: &[u8; 256], m: usize, w: &mut [u16]) -> bool
    requires { (1 ≤ m) × (m ≤ 4096) × (length payload.now < 65536) × (32 * m ≤ length w.old) }
    ensures { Spelt (decode_mesh m (undone inverse.now 3 m payload.now)) m result w.old w.new }
{
    mesh_unpacker::types(payload, inverse, m, w) && mesh_decoder::spell(w, m)
}

// The dual of the standard rotation of the word at LETTERS, in the output.
fn put(w: &mut [u16], m: usize, out: &mut [u16])
    requires { WordThere m w.old × (2 * m ≤ length out.old) }
    ensures { PutFrom m w.old out.old w.new out.new }
{
    word_builder::build(w, m);
    dual_copy::copy(w, m, out);
}

// The plan in the output gets its standard numbers.
fn turn(w: &mut [u16], m: usize, out: &mut [u16])
    requires { (m ≤ 4096) × (32 * m ≤ length w.old) × (2 * m ≤ length out.old) × MeshThere m out.old }
    ensures { out.new ≡ front (mesh_of m out.old) out.old }
{
    let order = &out[..2 * m];
    let rotation = Rotation { order };
    numbering::walk(Rooted { rotation, root: 0 }, w);
    work::copy_front(&w[2 * m..], 2 * m, out);
}

// The plan of a payload of m edges, in the first 2m entries of the output; whether there is one.
pub fn read(payload: &[u8], inverse: &[u8; 256], m: usize, w: &mut [u16], out: &mut [u16]) -> bool
    requires { (1 ≤ m) × (m ≤ 4096) × (length payload.now < 65536) × (32 * m ≤ length w.old)
        × (2 * m ≤ length out.old) }
    ensures { MeshRead (decode_mesh m (undone inverse.now 3 m payload.now)) result out.old out.new }
{
    if !spell(payload, inverse, m, w) {
        return false;
    }
    put(w, m, out);
    turn(w, m, out);
    true
}
