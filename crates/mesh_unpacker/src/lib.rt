#![tactic(auto)]

// The payload of a mesh taken apart into node types, put into the lent work area: its codewords are read, then padding, groups and fill are looked at, then
// types 3 to 5 get their digits. It knows digits and the inverse of a table; no heads of records, no letters and no plans.
ghost use Rattle.std.specs.Prelude.{◌≡◌, true, ◌+◌, ◌-◌, ◌*◌, ◌≤◌, ◌<◌, length, get_or, drop};
ghost use Rattle.model.specs.Mesh.{type_digits};
ghost use Rattle.model.specs.Numbers.{all_below};
ghost use Rattle.model.specs.Record.{bytes_for};
ghost use Rattle.packing.specs.Unpack.{groups};
ghost use Rattle.packing.specs.Types.{with_digits, clean, types_in};
ghost use Rattle.packing.specs.Groups.{undone, values_of};
ghost use Rattle.work.specs.Area.{region};
ghost use Rattle.mesh_unpacker.specs.Reading.{digit_on, values_from, Typed};

// ---- what stands beside the codewords

// The payload is as long as c bits and l digits want it; unused bits and fill digits are 0, and every group's byte is the table's.
fn clean(payload: &[u8], inverse: &[u8; 256], c: usize, l: usize) -> bool
    requires { (length payload.now < 65536) × (c ≤ 8 * length payload.now) × (l ≤ 65536) }
    ensures { result ≡ clean (values_from (bytes_for c 8) inverse.now payload.now) c l }
{
    let from = (c + 7) / 8;
    payload.len() == from + (l + 4) / 5
        && unpacker::zero_bits(payload, c, 8 * from)
        && unpacker::groups_fit(payload, inverse, from)
        && unpacker::zero_labels(payload, inverse, from, l)
}

// ---- digits

// The codeword t, with digit j of the groups from byte `from` on if it has one.
fn with_digit(payload: &[u8], inverse: &[u8; 256], from: usize, j: usize, t: u16) -> u16
    requires { (from ≤ length payload.now) × (t ≡ 3 → j < 5 * (length payload.now - from)) × (t < 4) }
    ensures { result ≡ digit_on t (get_or (groups (drop from (values_of inverse.now payload.now))) j 0) }
{
    if t < 3 {
        return t;
    }
    let d = bits::label_at(payload, inverse, from, j);
    3 + d as u16
}

// Each of the n codewords from place `at` on gets its digit.
fn add_digits(payload: &[u8], inverse: &[u8; 256], from: usize, n: usize, at: usize, w: &mut [u16])
    requires sizes { (length payload.now < 65536) × (from ≤ length payload.now) × (n ≤ 65536) }
    requires n_in_bounds { (at + n ≤ length w.old) × (all_below 4 (region at n w.old) ≡ true) }
    requires w_len_bound { length (type_digits (region at n w.old)) ≤ 5 * (length payload.now - from) }
    ensures { region at n w.new
        ≡ with_digits (region at n w.old) (groups (drop from (values_of inverse.now payload.now))) }
{
    let mut j = 0;
    for i in 0..n {
        let t = w[at + i];
        w[at + i] = with_digit(payload, inverse, from, j, t);
        j += (t / 3) as usize;
    }
}

// ---- the whole

// The node types of a payload of m edges, put at TYPES; whether it is laid out as one.
pub fn types(payload: &[u8], inverse: &[u8; 256], m: usize, w: &mut [u16]) -> bool
    requires { (1 ≤ m) × (m ≤ 4096) × (length payload.now < 65536) × (32 * m ≤ length w.old) }
    ensures { Typed (types_in m (undone inverse.now 3 m payload.now)) m result w.old w.new }
{
    if m % 3 != 0 {
        return false;
    }
    let n = 2 * (m / 3) - 1;
    let at = work::TYPES * (2 * m);
    let Some(counts) = mesh_codewords::read_codewords(payload, n, at, w) else {
        return false;
    };
    if !clean(payload, inverse, counts.bits, counts.digits) {
        return false;
    }
    add_digits(payload, inverse, (counts.bits + 7) / 8, n, at, w);
    true
}
