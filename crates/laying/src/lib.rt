#![tactic(auto)]

// The record of a plan that fits a kind other than 3, from what the walk has put in the work area. A plan that does not fit is not known here.
// Kinds and families are numbers here, and what is promised holds of any number (decision 173).
ghost use Rattle.std.specs.Prelude.{◌≡◌, true};
ghost use Rattle.model.specs.Map.{stores_outside};
ghost use Rattle.model.specs.Traversal.{standard_face};
ghost use Rattle.work.specs.Area.{placed};
ghost use Rattle.outer_face.specs.Marks.{Marked};
ghost use Rattle.laying.specs.Laid.{area_payload, Ready, Tabled, ToLay, RecordedUnder};

// The payload of a plan of n darts whose word is put in the work area, from place at on, with a group's value for its byte.
fn put_values(w: &[u16], n: usize, family: u16, out: &mut [u8], at: usize)
    requires { Ready n family at w.now out.old }
    ensures { out.new ≡ placed at (area_payload family n w.now) out.old }
{
    if family == 4 {
        letter_packer::put_payload(w, n / 2, out, at);
    } else {
        packer::put_payload(w, family, n / 2, out, at);
    }
}

// The payload, under the table with these bytes.
fn put_payload(bytes: &[u8; 243], w: &[u16], n: usize, family: u16, out: &mut [u8], at: usize)
    requires { Ready n family at w.now out.old }
    ensures { Tabled bytes.now n family at w.now out.old out.new }
{
    put_values(w, n, family, out, at);
    if family == 2 {
        group_bytes::apply(bytes, out, at + (n + 7) / 8, (n / 2 + 4) / 5);
    }
}

// The number of the outside in the record; 0 in a kind without it, where `packer::put_head`, which takes a number, puts none.
fn stored(order: &[u16], root: u16, outside: u16, kind: u16, w: &[u16]) -> u16
    requires { stores_outside kind ≡ true → Marked (record { rotation = order.now; root = root; outside = outside }) w.now }
    ensures { stores_outside kind ≡ true → result ≡ standard_face (record { rotation = order.now; root = root; outside = outside }) outside }
{
    if kinds::stores_outside(kind) {
        outer_face::lowest(order, root as usize, outside as usize, w)
    } else {
        0
    }
}

// The record of a plan that fits a kind other than 3, as the walk left it in the work area.
pub fn laid_out(
    bytes: &[u8; 243],
    order: &[u16],
    root: u16,
    outside: u16,
    kind: u16,
    w: &[u16],
    out: &mut [u8],
) -> u16
    requires { ToLay kind (record { rotation = order.now; root = root; outside = outside }) w.now out.old }
    ensures { RecordedUnder bytes.now kind (record { rotation = order.now; root = root; outside = outside })
        out.old result out.new }
{
    let n = order.len();
    let m = (n / 2) as u16;
    let x = stored(order, root, outside, kind, w);
    let length = record_lengths::record_length(kind, m) as u16;
    let at = packer::put_head(out, length, kind, m, x);
    put_payload(bytes, w, n, kinds::family(kind), out, at);
    length
}
