#![tactic(auto)]

// The record of a mesh whose node types are in the work area: their codes there, then head and payload in the output. How types are found is not known here.
ghost use Rattle.std.specs.Prelude.{◌≡◌, ◌+◌, ◌/◌, ◌^◌, ◌≤◌, length};
ghost use Rattle.model.specs.Mesh.{types};
ghost use Rattle.model.specs.Record.{headed};
ghost use Rattle.model.specs.Calls.{front};
ghost use Rattle.work.specs.Area.{placed};
ghost use Rattle.mesh_encoder.specs.Encoded.{CodesOf};
ghost use Rattle.mesh_writing.specs.Laid.{Ready, payload_size, tabled_payload};
ghost use Rattle.mesh_writing.specs.Recorded.{Typed, MeshRecorded};

use mesh_encoder::Sizes;
use model::Refusal;

// The bits and digits of the types, in the work area.
fn coded(order: &[u16], root: u16, w: &mut [u16]) -> Sizes
    requires { Typed (record { rotation = order.now; root = root; outside = 0 }) w.old }
    ensures { CodesOf (length order.now) (types (record { rotation = order.now; root = root; outside = 0 }))
        w.old result w.new }
{
    let n = order.len();
    mesh_encoder::codes(w, n, n / 3 - 1)
}

// The payload under the table with these bytes, from place at on.
fn put_payload(bytes: &[u8; 243], w: &[u16], n: usize, s: Sizes, out: &mut [u8], at: usize)
    requires { Ready n s w.now × (at ≤ 2 ^ 16) × (at + payload_size s ≤ length out.old) }
    ensures { out.new ≡ placed at (tabled_payload bytes.now n s w.now) out.old }
{
    mesh_packer::put_payload(w, n, s, out, at);
    let before = packer::groups(s.bits, 8);
    let count = packer::groups(s.digits, 5);
    group_bytes::apply(bytes, out, at + before, count);
}

// The record of this length, where there is room for it.
fn laid_out(bytes: &[u8; 243], w: &[u16], n: usize, s: Sizes, total: u16, out: &mut [u8])
    requires { Ready n s w.now × (total ≡ 6 + payload_size s) × (6 + payload_size s ≤ length out.old) }
    ensures { out.new ≡ front (headed 3 (n / 2) (tabled_payload bytes.now n s w.now)) out.old }
{
    let m = (n / 2) as u16;
    let at = packer::put_head(out, total, 3, m, 0);
    put_payload(bytes, w, n, s, out, at);
}

// The record of a mesh whose types stand in their place, under the table with these bytes: its length; refused where the output has no room for it, and is left as
// it was.
pub fn write(
    bytes: &[u8; 243],
    order: &[u16],
    root: u16,
    w: &mut [u16],
    out: &mut [u8],
) -> Result<u16, Refusal>
    requires { Typed (record { rotation = order.now; root = root; outside = 0 }) w.old }
    ensures { MeshRecorded bytes.now (record { rotation = order.now; root = root; outside = 0 })
        w.old out.old result w.new out.new }
{
    let n = order.len();
    let s = coded(order, root, w);
    let before = packer::groups(s.bits, 8);
    let count = packer::groups(s.digits, 5);
    let total = 6 + before + count;
    if out.len() < total {
        return Err(Refusal::ShortOutput);
    }
    laid_out(bytes, w, n, s, total as u16, out);
    Ok(total as u16)
}
