#![tactic(auto)]

// The codewords of code A at the front of a mesh's payload, put into the lent work area: one by one, and many at once from eight bytes. It knows bits; no digits
// and no table.
ghost use Rattle.std.specs.Prelude.{◌≡◌, ◌+◌, ◌*◌, ◌/◌, ◌≤◌, ◌<◌, length, drop};
ghost use Rattle.packing.specs.Unpack.{bits};
ghost use Rattle.packing.specs.Types.{read_codes};
ghost use Rattle.mesh_codewords.specs.Reading.{code_head, code_of, Reading, CodesRead};

// How many bits codewords have and how many digits they want.
#[derive(Clone, Copy)]
pub struct Counts {
    pub bits: usize,
    pub digits: usize,
}

// "Type 1: 00. Type 2: 01. Types 3-5: 1": the codeword from bit c on, 3 for any of types 3 to 5; none where the bits run out.
fn codeword(payload: &[u8], c: usize) -> Option<u8>
    requires { (length payload.now < 65536) × (c ≤ 8 * length payload.now) }
    ensures { result ≡ code_head (drop c (bits payload.now)) }
{
    let end = 8 * payload.len();
    if c >= end {
        return None;
    }
    if bits::bit_at(payload, c) != 0 {
        return Some(3);
    }
    if c + 1 >= end {
        return None;
    }
    let b = bits::bit_at(payload, c + 1);
    Some(b + 1)
}

// How many codewords are read, how many bits they have and how many digits they want.
#[derive(Clone, Copy)]
struct Progress {
    read: usize,
    bits: usize,
    digits: usize,
}

// As many codewords are read from eight bytes: they have two bits at most, and the first may begin at the eighth bit.
const MANY: usize = 28;

// The codeword that begins with these two bits.
#[tactic(auto, unfolding(crate::specs::Reading::code_of))]
fn code_of(pair: u64) -> u16
    requires { pair < 4 }
    ensures { result ≡ code_of pair }
{
    if pair < 2 { pair as u16 + 1 } else { 3 }
}

// The next codewords, as many as eight bytes hold.
fn read_many(payload: &[u8], n: usize, at: usize, w: &mut [u16], s: Progress) -> Progress
    requires payload_len_bound { (length payload.now < 65536) × (n ≤ 65536) × (at + n ≤ length w.old) }
    requires reading { Reading (bits payload.now) n at w.old w.old s.bits s.digits s.read × (s.read + 28 ≤ n) × (s.bits / 8 + 8 ≤ length payload.now) }
    ensures { Reading (bits payload.now) n at w.old w.new result.bits result.digits result.read × (result.read ≡ s.read + 28) }
{
    let q = s.bits / 8;
    let x = bit_window::eight(payload, q);
    let end = s.read + MANY;
    let mut c = s.bits;
    let mut l = s.digits;
    for i in s.read..end {
        let pair = bit_window::pair(x, c - 8 * q);
        w[at + i] = code_of(pair);
        let digits = (pair / 2) as usize;
        c += 2 - digits;
        l += digits;
    }
    Progress {
        read: end,
        bits: c,
        digits: l,
    }
}

// Codewords as long as there are enough bytes and enough of them are left.
fn read_windows(payload: &[u8], n: usize, at: usize, w: &mut [u16]) -> Progress
    requires { (length payload.now < 65536) × (n ≤ 65536) × (at + n ≤ length w.old) }
    ensures { Reading (bits payload.now) n at w.old w.new result.bits result.digits result.read }
{
    let mut s = Progress {
        read: 0,
        bits: 0,
        digits: 0,
    };
    while s.read + MANY <= n && s.bits / 8 + 8 <= payload.len() {
        s = read_many(payload, n, at, w, s);
    }
    s
}

// The first n codewords, put from place `at` on; none where the bits run out.
pub fn read_codewords(payload: &[u8], n: usize, at: usize, w: &mut [u16]) -> Option<Counts>
    requires { (length payload.now < 65536) × (n ≤ 65536) × (at + n ≤ length w.old) }
    ensures { CodesRead (read_codes n (bits payload.now)) at n result w.new }
{
    let s = read_windows(payload, n, at, w);
    let mut c = s.bits;
    let mut l = s.digits;
    for i in s.read..n {
        let t = codeword(payload, c)?;
        w[at + i] = t as u16;
        let digits = (t / 3) as usize;
        c += 2 - digits;
        l += digits;
    }
    Some(Counts { bits: c, digits: l })
}
