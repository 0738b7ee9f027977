#![tactic(auto)]

// The head of a record, and its payload from the tree bits and labels in the work area. It knows where groups of digits go, not how they are packed.
// Kinds and families are numbers here, and what is promised holds of any number (decision 173).
ghost use Rattle.std.specs.Prelude.{◌≡◌, true, ◌++◌, ◌+◌, ◌*◌, ◌^◌, ◌≤◌, length};
ghost use Rattle.model.specs.Numbers.{all_below};
ghost use Rattle.model.specs.Record.{le16, pack, head_length, label_base, bytes_for};
ghost use Rattle.packing.specs.Payload.{has_labels, value_payload};
ghost use Rattle.work.specs.Area.{placed};
ghost use Rattle.work.specs.Letters.{work_bits, work_labels};
ghost use Rattle.packer.specs.Packed.{Headed};

// A number in two bytes, the low one first.
fn put16(out: &mut [u8], at: usize, x: u16)
    requires { (at + 2 ≤ length out.old) × (at ≤ 2 ^ 20) }
    ensures { out.new ≡ placed at (le16 x) out.old }
{
    out[at..at + 2].copy_from_slice(&x.to_le_bytes());
}

// How many groups of this width hold n digits.
pub fn groups(n: usize, width: usize) -> usize
    requires { (n ≤ 2 ^ 20) × (1 ≤ width) × (width ≤ 2 ^ 20) }
    ensures { result ≡ bytes_for n width }
{
    (n + (width - 1)) / width
}

// The record's length, its kind and m.
fn put_fields(out: &mut [u8], total: u16, kind: u16, m: u16)
    requires { 6 ≤ length out.old }
    ensures { out.new ≡ placed 0 (le16 total ++ (le16 kind ++ le16 m)) out.old }
{
    put16(out, 0, total);
    put16(out, 2, kind);
    put16(out, 4, m);
}

// What stands before the payload: the fields, and the outside in a kind that stores it. Where the payload begins.
pub fn put_head(out: &mut [u8], total: u16, kind: u16, m: u16, outside: u16) -> usize
    requires { head_length kind ≤ length out.old }
    ensures { Headed total kind m outside out.old result out.new }
{
    put_fields(out, total, kind, m);
    if kinds::stores_outside(kind) {
        put16(out, 6, outside);
        return 8;
    }
    6
}

// The payload of family 1, from place at on: tree bits and labels are one run of bits.
fn put_plain(w: &[u16], m: usize, out: &mut [u8], at: usize)
    requires { (m ≤ 4096) × (32 * m ≤ length w.now) × (at ≤ 2 ^ 16) × (at + bytes_for (3 * m) 8 ≤ length out.old)
        × (all_below 2 (work_bits (2 * m) w.now) ≡ true) × (all_below 2 (work_labels (2 * m) w.now) ≡ true) }
    ensures { out.new ≡ placed at (value_payload 1 m (work_bits (2 * m) w.now) (work_labels (2 * m) w.now))
        out.old }
{
    let n = 2 * m;
    let bits = work::BITS * n;
    let labels = work::LABELS * n;
    let count = groups(3 * m, 8);
    grouping::put_groups::<2, 8>(&w[bits..labels + m], &mut out[at..at + count]);
}

// Bits in whole bytes, then digits to the base 3 in groups of five; they fill the output.
pub fn put_parts(bits: &[u16], digits: &[u16], out: &mut [u8])
    requires { (length bits.now ≤ 2 ^ 14) × (length digits.now ≤ 2 ^ 14)
        × (length out.old ≡ bytes_for (length bits.now) 8 + bytes_for (length digits.now) 5)
        × (all_below 2 bits.now ≡ true) × (all_below 3 digits.now ≡ true) }
    ensures { out.new ≡ pack 2 8 (bytes_for (length bits.now) 8) bits.now
        ++ pack 3 5 (bytes_for (length digits.now) 5) digits.now }
{
    let (front, behind) = out.split_at_mut(groups(bits.len(), 8));
    grouping::put_groups::<2, 8>(bits, front);
    grouping::put_groups::<3, 5>(digits, behind);
}

// The payload of family 2, from place at on: tree bits, then labels in groups of five.
fn put_starred(w: &[u16], m: usize, out: &mut [u8], at: usize)
    requires { (m ≤ 4096) × (32 * m ≤ length w.now) × (at ≤ 2 ^ 16) × (at + bytes_for (2 * m) 8 + bytes_for m 5 ≤ length out.old)
        × (all_below 2 (work_bits (2 * m) w.now) ≡ true) × (all_below 3 (work_labels (2 * m) w.now) ≡ true) }
    ensures { out.new ≡ placed at (value_payload 2 m (work_bits (2 * m) w.now) (work_labels (2 * m) w.now))
        out.old }
{
    let n = 2 * m;
    let bits = work::BITS * n;
    let labels = work::LABELS * n;
    let size = groups(n, 8) + groups(m, 5);
    put_parts(
        &w[bits..bits + n],
        &w[labels..labels + m],
        &mut out[at..at + size],
    );
}

// The payload of a record of this family, 1 or 2, from place at on.
pub fn put_payload(w: &[u16], family: u16, m: usize, out: &mut [u8], at: usize)
    requires { (has_labels family ≡ true) × (m ≤ 4096) × (32 * m ≤ length w.now) × (at ≤ 2 ^ 16)
        × (at + length (value_payload family m (work_bits (2 * m) w.now) (work_labels (2 * m) w.now)) ≤ length out.old)
        × (all_below 2 (work_bits (2 * m) w.now) ≡ true) × (all_below (label_base family) (work_labels (2 * m) w.now) ≡ true) }
    ensures { out.new ≡ placed at (value_payload family m (work_bits (2 * m) w.now) (work_labels (2 * m) w.now))
        out.old }
{
    if family == 1 {
        put_plain(w, m, out, at);
        return;
    }
    put_starred(w, m, out, at);
}
