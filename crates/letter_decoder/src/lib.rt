#![tactic(auto)]

// A payload of kind 4 decoded into the standard plan, in the lent work area: each letter of its word, two bits, is a step of `letter_steps`. It knows where
// letters stand; no heads of records, no tree bits and no labels.
ghost use Rattle.std.specs.Prelude.{◌≡◌, ◌*◌, ◌≤◌, ◌<◌, length, replicate};
ghost use Rattle.model.specs.Record.{bytes_for};
ghost use Rattle.words.specs.Word.{nested_word};
ghost use Rattle.packing.specs.Letters.{payload_letters, letters_clean};
ghost use Rattle.coding.specs.Payloads.{decode_letters};
ghost use Rattle.work.specs.Area.{region};
ghost use Rattle.builder.specs.Moves.{Fits};
ghost use Rattle.builder.specs.Decoded.{Answered};
ghost use Rattle.letter_steps.specs.Reading.{Read};
ghost use Rattle.letter_decoder.specs.Pairs.{letters_of, pair_at};

use builder::State;

// ---- where letters stand

// "unused low bits are 0": where m is odd, the last byte has two letters.
fn clean(payload: &[u8], m: usize) -> bool
    requires { (1 ≤ m) × (m ≤ 4096) × (length payload.now ≡ bytes_for m 2) }
    ensures { result ≡ letters_clean m payload.now }
{
    if m % 2 == 0 {
        return true;
    }
    let last = payload[m / 2];
    last % 16 == 0
}

// The pair of letters number i, half a byte, in the high bits.
fn half(payload: &[u8], i: usize) -> u8
    requires { i < 2 * length payload.now }
    ensures { letters_of 2 result ≡ pair_at payload.now i }
{
    let b = payload[i / 2];
    b << (4 * (i % 2))
}

// ---- all letters

// The two letters in the high bits of x. The loop is unrolled; a second call of `step` would not be inlined.
fn pair(w: &mut [u16], m: usize, s: State, e: usize, x: u8) -> Option<(State, usize)>
    requires { Fits m w.old s e }
    ensures { Read (letters_of 2 x) m w.old s e result w.new }
{
    let mut t = s;
    let mut k = e;
    let mut rest = x;
    for _ in 0..2usize {
        (t, k) = letter_steps::step(w, m, t, k, rest / 64)?;
        rest <<= 2;
    }
    Some((t, k))
}

// All letters, two by two. With no more than m edges begun, 2m letters leave none open; the last dart's successor is dart 0.
fn run(payload: &[u8], m: usize, w: &mut [u16]) -> bool
    requires le_m { (1 ≤ m) × (m ≤ 4096) × (length payload.now ≡ bytes_for m 2) }
    requires m_in_bounds { (32 * m ≤ length w.old) × (region 0 (2 * m) w.old ≡ replicate (2 * m) 0) }
    ensures { Answered (nested_word (payload_letters m payload.now)) (2 * m) result w.new }
{
    let mut s = State {
        n: 1,
        here: 0,
        depth: 0,
        opens: 0,
        place: 0,
    };
    let mut e = 0;
    for i in 0..m {
        let Some((t, k)) = pair(w, m, s, e, half(payload, i)) else {
            return false;
        };
        s = t;
        e = k;
    }
    w[s.place] = 0;
    true
}

// The standard plan of a payload of kind 4: whether there is one, and its rotation in the first 2m entries.
pub fn decode(payload: &[u8], m: usize, w: &mut [u16]) -> bool
    requires le_m { (1 ≤ m) × (m ≤ 4096) × (length payload.now ≡ bytes_for m 2) }
    requires m_in_bounds { 32 * m ≤ length w.old }
    ensures { Answered (decode_letters m payload.now) (2 * m) result w.new }
{
    if !clean(payload, m) {
        return false;
    }
    work::fill(w, 0, 2 * m, 0);
    run(payload, m, w)
}
