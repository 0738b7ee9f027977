#![tactic(auto)]

// A payload taken apart: whether its padding bits and fill labels are 0 and its groups are a table's, and its labels by number, those of kind 2 put into
// the lent work area. It knows digits and bytes and the inverse of a table; no heads of records, no letters, no words and no plans.
// Kinds and families are numbers here, and what is promised holds of any number (decision 173).
ghost use Rattle.std.specs.Prelude.{◌≡◌, true, ◌+◌, ◌-◌, ◌*◌, ◌^◌, ◌≤◌, ◌<◌, length, get_or, take, drop};
ghost use Rattle.model.specs.Numbers.{all_below};
ghost use Rattle.packing.specs.Unpack.{digits_of, bits, groups};
ghost use Rattle.packing.specs.Payload.{has_labels, Sized, payload_labels, payload_clean};
ghost use Rattle.packing.specs.Groups.{undone, values_of};
ghost use Rattle.unpacker.specs.Unpacked.{labels_at, labels_in, grouped, Unpacks};

// ---- padding bits, fill labels and groups

// Every bit from place `from` up to place `to` is 0.
pub fn zero_bits(bytes: &[u8], from: usize, to: usize) -> bool
    requires { to ≤ 8 * length bytes.now }
    ensures { result ≡ all_below 1 (drop from (take to (bits bytes.now))) }
{
    (from..to).all(|k| bits::bit_at(bytes, k) == 0)
}

// The last labels of a group, so many, are 0.
fn ends_in_zeros(group: u8, count: usize) -> bool
    requires { (0 < count) × (count < 5) }
    ensures { result ≡ all_below 1 (drop (5 - count) (digits_of 3 5 group)) }
{
    match count {
        1 => group % 3 == 0,
        2 => group % 9 == 0,
        3 => group % 27 == 0,
        _ => group % 81 == 0,
    }
}

// Every label of the groups from byte `from` on is 0, from number m on, which is one of the last group's, or past it.
pub fn zero_labels(bytes: &[u8], inverse: &[u8; 256], from: usize, m: usize) -> bool
    requires { (from ≤ length bytes.now) × (length bytes.now < 2 ^ 32) × (5 * (length bytes.now - from) < m + 5) }
    ensures { result ≡ all_below 1 (drop m (groups (drop from (values_of inverse.now bytes.now)))) }
{
    let end = 5 * (bytes.len() - from);
    if end <= m {
        return true;
    }
    let b = bytes[bytes.len() - 1] as usize;
    ends_in_zeros(inverse[b], end - m)
}

// Every byte from place `from` on stands for a group.
pub fn groups_fit(bytes: &[u8], inverse: &[u8; 256], from: usize) -> bool
    ensures { result ≡ all_below 243 (drop from (values_of inverse.now bytes.now)) }
{
    (from..bytes.len()).all(|k| inverse[bytes[k] as usize] < 243)
}

// A payload of kind 2 is clean: "unused low bits are 0", "the last group filled with 0", and every group's byte is the table's.
fn groups_clean(payload: &[u8], inverse: &[u8; 256], m: usize) -> bool
    requires { Sized 2 m payload.now }
    ensures { result ≡ payload_clean 2 m (undone inverse.now 2 m payload.now) }
{
    let from = (2 * m + 7) / 8;
    zero_bits(payload, 2 * m, 8 * from)
        && groups_fit(payload, inverse, from)
        && zero_labels(payload, inverse, from, m)
}

// ---- labels by number

// The five labels of a group, from place `at` on.
fn put_group(w: &mut [u16], at: usize, group: u8)
    requires { at + 5 ≤ length w.old }
    ensures { w.new ≡ grouped at group w.old }
{
    let g = group as u16;
    let a = g / 3;
    let b = g / 9;
    let c = g / 27;
    let d = g / 81;
    w[at] = d % 3;
    w[at + 1] = c - 3 * d;
    w[at + 2] = b - 3 * c;
    w[at + 3] = a - 3 * b;
    w[at + 4] = g - 3 * a;
}

// The labels of kind 2, and those that fill the last group.
fn spread_groups(payload: &[u8], inverse: &[u8; 256], m: usize, w: &mut [u16])
    requires sized { Sized 2 m payload.now }
    requires m_in_bounds { 32 * m ≤ length w.old }
    ensures { labels_at m w.new ≡ payload_labels 2 m (undone inverse.now 2 m payload.now) }
{
    let from = (2 * m + 7) / 8;
    for (i, &b) in payload[from..].iter().enumerate() {
        put_group(w, work::LABELS * (2 * m) + 5 * i, inverse[b as usize]);
    }
}

// Whether a payload of kind 2 is clean, and if so, its labels in the work area. The inverse is handed down by value: it is copied only here.
fn unpack_groups(payload: &[u8], inverse: [u8; 256], m: usize, w: &mut [u16]) -> bool
    requires { Sized 2 m payload.now × (32 * m ≤ length w.old) }
    ensures { Unpacks 2 m inverse payload.now result w.new }
{
    let clean = groups_clean(payload, &inverse, m);
    if clean {
        spread_groups(payload, &inverse, m, w);
    }
    clean
}

// Whether a payload is as it is laid out, and if so, its labels by number: those of kind 2 in the work area, so that whoever reads them one by one needs no
// division; those of kind 1 stay in the payload.
pub fn unpack(payload: &[u8], family: u16, inverse: [u8; 256], m: usize, w: &mut [u16]) -> bool
    requires { (has_labels family ≡ true) × Sized family m payload.now × (32 * m ≤ length w.old) }
    ensures { Unpacks family m inverse payload.now result w.new }
{
    if family == 1 {
        return zero_bits(payload, 3 * m, 8 * payload.len());
    }
    unpack_groups(payload, inverse, m, w)
}

// Label e.
pub fn label_at(payload: &[u8], family: u16, m: usize, w: &[u16], e: usize) -> u16
    requires { (has_labels family ≡ true) × Sized family m payload.now × (32 * m ≤ length w.now) × (e < m) }
    ensures { result ≡ get_or (labels_in family m payload.now w.now) e 0 }
{
    if family == 1 {
        let l = bits::bit_at(payload, 2 * m + e);
        return l as u16;
    }
    w[work::LABELS * (2 * m) + e]
}
