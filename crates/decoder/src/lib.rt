#![tactic(auto)]

// A payload of kind 1 or 2 decoded into the standard plan, in the lent work area, by a machine that reads tree bits and labels in step: its turns one after the
// other, and where the cursor's word is filled anew.
// Kinds and families are numbers here, and what is promised holds of any number (decision 173).
ghost use Rattle.std.specs.Prelude.{◌≡◌, true, ◌+◌, ◌*◌, ◌≤◌, ◌<◌, length, replicate};
ghost use Rattle.words.specs.Word.{decode_word};
ghost use Rattle.packing.specs.Payload.{has_labels, Sized, payload_bits};
ghost use Rattle.packing.specs.Groups.{undone};
ghost use Rattle.work.specs.Area.{region};
ghost use Rattle.coding.specs.Payloads.{decode_labelled};
ghost use Rattle.unpacker.specs.Unpacked.{labels_in};
ghost use Rattle.builder.specs.Decoded.{Answered};
ghost use Rattle.bit_cursor.specs.Cursors.{Labelled};
ghost use Rattle.decoder_ends.specs.States.{stage, Fits};
ghost use Rattle.decoder_turns.specs.Turns.{Turned};

use bit_cursor::Cursor;
use decoder_ends::State;
use decoder_turns::Outcome;

// The bits of a word that are read: one less than count in it, since a turn may look at two.
const WINDOW: usize = 56;

// Where a word that is filled at bit `at` is left.
fn window_end(m: usize, at: usize) -> usize
    requires { (m ≤ 4096) × (at < 2 * m) }
    ensures { (at < result) × (result ≤ at + 56) × (result ≤ 2 * m) }
{
    let end = at + WINDOW;
    if end < 2 * m {
        return end;
    }
    2 * m
}

// The steps that read from one word, the first at the cursor c, where it is filled.
fn stretch(
    payload: &[u8],
    family: u16,
    m: usize,
    w: &mut [u16],
    s: State,
    c: Cursor,
) -> Option<Outcome>
    requires { Labelled family m payload.now w.old × Fits m w.old (stage c.labels s) × (c.bits < 2 * m) }
    ensures { Turned 1 m (payload_bits m payload.now) (labels_in family m payload.now w.old) w.old c.labels s c.bits result
        w.new }
{
    let end = window_end(m, c.bits);
    let mut s = s;
    let mut c = c.filled(payload);
    loop {
        let turn = decoder_turns::step(payload, family, m, w, s, c)?;
        if end <= turn.cursor.bits {
            return Some(turn);
        }
        s = turn.state;
        c = turn.cursor;
    }
}

// The machine from its start until it is done or stuck.
fn run(payload: &[u8], family: u16, m: usize, w: &mut [u16]) -> bool
    requires labelled { Labelled family m payload.now w.old }
    requires m_in_bounds { (32 * m ≤ length w.old) × (region 0 (2 * m) w.old ≡ replicate (2 * m) 0) }
    ensures { Answered (decode_word (payload_bits m payload.now) (labels_in family m payload.now w.old)) (2 * m) result w.new }
{
    let mut s = State {
        here: 0,
        depth: 0,
        opens: 0,
        place: 0,
    };
    let mut c = Cursor {
        word: 0,
        bits: 0,
        labels: 0,
    };
    while let Some(turn) = stretch(payload, family, m, w, s, c) {
        if 2 * m <= turn.cursor.bits {
            return decoder_ends::finish(w, m, turn.state, turn.cursor.labels);
        }
        s = turn.state;
        c = turn.cursor;
    }
    false
}

// The standard plan of a payload of kind 1 or 2, under the table with this inverse: whether there is one, and its rotation in the first 2m entries.
pub fn decode(payload: &[u8], family: u16, inverse: [u8; 256], m: usize, w: &mut [u16]) -> bool
    requires { (has_labels family ≡ true) × Sized family m payload.now × (32 * m ≤ length w.old) }
    ensures { Answered (decode_labelled family m (undone inverse family m payload.now)) (2 * m) result w.new }
{
    if !unpacker::unpack(payload, family, inverse, m, w) {
        return false;
    }
    work::fill(w, 0, 2 * m, 0);
    run(payload, family, m, w)
}
