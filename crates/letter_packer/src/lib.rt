#![tactic(auto)]

// From the contour word in the work area to the payload of a record of family 4: two bits a letter, four letters a byte. It knows letters and places, no plans.
ghost use Rattle.std.specs.Prelude.{◌≡◌, ◌+◌, ◌*◌, ◌/◌, ◌^◌, ◌≤◌, ◌<◌, length, get_or};
ghost use Rattle.model.specs.Record.{digits, pack, bytes_for};
ghost use Rattle.packing.specs.Letters.{letters_payload};
ghost use Rattle.work.specs.Area.{placed};
ghost use Rattle.work.specs.Letters.{letters_in, Coded};
ghost use Rattle.letter_packer.specs.Digits.{digits_at};

// The digit of letter i.
fn digit(w: &[u16], n: usize, i: usize) -> u16
    requires { (n ≤ 8192) × (16 * n ≤ length w.now) × Coded n w.now × (i < n) }
    ensures { (result ≡ get_or (digits_at 0 n w.now) i 0) × (result < 4) }
{
    w[work::LETTERS * n + i] - 1
}

// The byte of the four letters from position i on.
fn four(w: &[u16], n: usize, i: usize) -> u16
    requires { (n ≤ 8192) × (16 * n ≤ length w.now) × Coded n w.now × (i + 4 ≤ n) }
    ensures { (result ≡ digits 4 4 (digits_at i n w.now)) × (result < 256) }
{
    64 * digit(w, n, i) + 16 * digit(w, n, i + 1) + 4 * digit(w, n, i + 2) + digit(w, n, i + 3)
}

// The byte of the last two letters, where no more are left. Apart from `four`, whose sum has no test and no loop.
fn two(w: &[u16], n: usize, i: usize) -> u16
    requires { (n ≤ 8192) × (16 * n ≤ length w.now) × Coded n w.now × (i + 2 ≡ n) }
    ensures { (result ≡ digits 4 4 (digits_at i n w.now)) × (result < 256) }
{
    16 * (4 * digit(w, n, i) + digit(w, n, i + 1))
}

// The bytes that are full, from place at on.
fn put_full(w: &[u16], m: usize, out: &mut [u8], at: usize)
    requires { (m ≤ 4096) × (32 * m ≤ length w.now) × Coded (2 * m) w.now × (at ≤ 2 ^ 16) × (at + m / 2 ≤ length out.old) }
    ensures { out.new ≡ placed at (pack 4 4 (m / 2) (digits_at 0 (2 * m) w.now)) out.old }
{
    for i in 0..m / 2 {
        let byte = four(w, 2 * m, 4 * i) as u8;
        out[at + i] = byte;
    }
}

// The payload, from place at on.
pub fn put_payload(w: &[u16], m: usize, out: &mut [u8], at: usize)
    requires { (m ≤ 4096) × (32 * m ≤ length w.now) × Coded (2 * m) w.now × (at ≤ 2 ^ 16) × (at + bytes_for m 2 ≤ length out.old) }
    ensures { out.new ≡ placed at (letters_payload (letters_in (2 * m) w.now)) out.old }
{
    put_full(w, m, out, at);
    let even = m % 2 == 0;
    if even {
        return;
    }
    out[at + m / 2] = two(w, 2 * m, 2 * m - 2) as u8;
}
