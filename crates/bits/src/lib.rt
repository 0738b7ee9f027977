#![tactic(auto)]

// Bits and labels of byte slices: a bit or a label read at its place, a bit put where 0 stands. Labels stand in groups, under a table's inverse.
// It knows bytes and digits, no heads of records and no plans.
ghost use Rattle.std.specs.Prelude.{◌≡◌, ◌-◌, ◌*◌, ◌/◌, ◌%◌, ◌^◌, ◌<◌, ◌≤◌, length, get_or, set, drop};
ghost use Rattle.packing.specs.Unpack.{bits, groups};
ghost use Rattle.packing.specs.Groups.{values_of};

// Bit k of the bytes.
pub fn bit_at(s: &[u8], k: usize) -> u8
    requires { k < 8 * length s.now }
    ensures { result ≡ get_or (bits s.now) k 0 }
{
    let q = k / 8;
    let b = s[q];
    (b >> (7 - k % 8)) % 2
}

// Puts a bit where 0 stands.
pub fn put_bit(s: &mut [u8], k: usize, bit: u8)
    requires { (k < 8 * length s.old) × (bit < 2) × (get_or (bits s.old) k 0 ≡ 0) }
    ensures { bits s.new ≡ set (bits s.old) k bit }
{
    let q = k / 8;
    let b = s[q];
    s[q] = b + (bit << (7 - k % 8));
}

// Label j of a group with this value. The divisors are constants, for speed.
fn label_in(group: u8, j: usize) -> u8
    requires { j < 5 }
    ensures { result ≡ group / 3 ^ (4 - j) % 3 }
{
    match j {
        0 => group / 81 % 3,
        1 => group / 27 % 3,
        2 => group / 9 % 3,
        3 => group / 3 % 3,
        _ => group % 3,
    }
}

// Label i of the groups from byte `from` on.
pub fn label_at(s: &[u8], inverse: &[u8; 256], from: usize, i: usize) -> u8
    requires { (from ≤ length s.now) × (i < 5 * (length s.now - from)) }
    ensures { result ≡ get_or (groups (drop from (values_of inverse.now s.now))) i 0 }
{
    let q = from + i / 5;
    let b = s[q] as usize;
    let group = inverse[b];
    label_in(group, i % 5)
}
