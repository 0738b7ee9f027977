#![tactic(auto)]

// The turns of the machine that decodes families 1 and 2: up, or down to a leaf, into the tree or along an edge outside it, and the edges that end after each.
// The cursor hands out tree bits and labels; as many edges have begun as labels are read.
// Kinds and families are numbers here, and what is promised holds of any number (decision 173).
ghost use Rattle.std.specs.Prelude.{◌≡◌, ◌+◌, ◌*◌, ◌≤◌, ◌<◌};
ghost use Rattle.packing.specs.Unpack.{bits};
ghost use Rattle.bit_cursor.specs.Cursors.{Labelled, Sees};
ghost use Rattle.decoder_ends.specs.States.{stage, leaf_stage, leaf_area, back_stage, back_area, enter_stage, enter_area, Fits};
ghost use Rattle.decoder_turns.specs.Turns.{Risen, Descended, Stepped};

use bit_cursor::Cursor;
use decoder_ends::State;

// What a turn comes to: where the machine stands then, with the label of the edge that has just ended, 0 where none has, and the cursor.
#[derive(Clone, Copy)]
pub struct Outcome {
    pub state: State,
    pub label: u16,
    pub cursor: Cursor,
}

// ---- a turn

// A bit 0 was read up to c: up.
fn rise(w: &mut [u16], m: usize, s: State, c: Cursor) -> Option<Outcome>
    requires { Fits m w.old (stage c.labels s) }
    ensures { Risen m w.old s c result w.new }
{
    if s.depth == 0 {
        return None;
    }
    let x = s.here as usize - 2;
    let label = x % 2;
    let place = x - label;
    let depth = s.depth - 1;
    let here = w[work::BELOW * (2 * m) + depth];
    w[s.place] = (place + 1) as u16;
    let state = State {
        here,
        depth,
        place,
        ..s
    };
    Some(Outcome {
        state,
        label: label as u16,
        cursor: c,
    })
}

// Down edge e, the next one, and up again: a bare leaf.
fn leaf(w: &mut [u16], m: usize, s: State, e: usize) -> State
    requires { Fits m w.old (stage e s) × (e < m) }
    ensures { (stage (e + 1) result ≡ leaf_stage (stage e s)) × (w.new ≡ leaf_area w.old (stage e s)) }
{
    let place = 2 * e;
    let end = place + 1;
    w[s.place] = place as u16;
    w[end] = end as u16;
    State { place, ..s }
}

// Edge e, the next one, of label l, begins outside the tree.
fn back(w: &mut [u16], m: usize, s: State, e: usize, l: u16) -> State
    requires { Fits m w.old (stage e s) × (e < m) × (l < 3) }
    ensures { (stage (e + 1) result ≡ back_stage (stage e s)) × (w.new ≡ back_area m w.old (stage e s) l) }
{
    let place = 2 * e;
    let dart = place as u16;
    w[s.place] = dart;
    w[work::BEGUN * (2 * m) + s.opens] = s.here;
    w[work::OPENS * (2 * m) + s.opens] = dart + l;
    State {
        opens: s.opens + 1,
        place,
        ..s
    }
}

// Down edge e, the next one, of the tree and of label l.
fn enter(w: &mut [u16], m: usize, s: State, e: usize, l: u16) -> State
    requires { Fits m w.old (stage e s) × (e < m) × (l < 3) }
    ensures { (stage (e + 1) result ≡ enter_stage (stage e s) l) × (w.new ≡ enter_area m w.old (stage e s)) }
{
    let x = 2 * e;
    let dart = x as u16;
    w[s.place] = dart;
    w[work::BELOW * (2 * m) + s.depth] = s.here;
    State {
        here: dart + l + 2,
        depth: s.depth + 1,
        place: x + 1,
        ..s
    }
}

// A bit that is not 0 was read up to c: a label and a bit more say what begins. Where a tree edge begins, that bit is the next to be read.
fn descend(
    payload: &[u8],
    family: u16,
    m: usize,
    w: &mut [u16],
    s: State,
    c: Cursor,
) -> Option<Outcome>
    requires labelled { Labelled family m payload.now w.old × Fits m w.old (stage c.labels s) }
    requires sees { Sees (bits payload.now) c 1 × (c.bits ≤ 2 * m) }
    ensures { Descended family m payload.now w.old s c result w.new }
{
    let e = c.labels;
    if 2 * m <= c.bits {
        return None;
    }
    if m <= e {
        return None;
    }
    let label = c.label(payload, family, m, w);
    // each branch reads the bit by itself: read once here, it makes the loop of reading 6% slower or more
    if label.value == work::STAR {
        let state = leaf(w, m, s, e);
        let bit = label.cursor.bit(); // its saved label
        return Some(Outcome {
            state,
            label: bit.value,
            cursor: bit.cursor,
        });
    }
    let bit = label.cursor.bit();
    if bit.value == 0 {
        let state = back(w, m, s, e, label.value);
        return Some(Outcome {
            state,
            label: 0,
            cursor: bit.cursor,
        });
    }
    let state = enter(w, m, s, e, label.value);
    Some(Outcome {
        state,
        label: 0,
        cursor: label.cursor,
    })
}

// One letter, or two where a leaf is.
fn turn(
    payload: &[u8],
    family: u16,
    m: usize,
    w: &mut [u16],
    s: State,
    c: Cursor,
) -> Option<Outcome>
    requires labelled { Labelled family m payload.now w.old × Fits m w.old (stage c.labels s) }
    requires sees { Sees (bits payload.now) c 2 × (c.bits < 2 * m) }
    ensures { Stepped 2 family m payload.now w.old s c result w.new }
{
    let bit = c.bit();
    if bit.value == 0 {
        return rise(w, m, s, bit.cursor);
    }
    descend(payload, family, m, w, s, bit.cursor)
}

// A turn, and the edges outside the tree that end where it leads to.
pub fn step(
    payload: &[u8],
    family: u16,
    m: usize,
    w: &mut [u16],
    s: State,
    c: Cursor,
) -> Option<Outcome>
    requires labelled { Labelled family m payload.now w.old × Fits m w.old (stage c.labels s) }
    requires sees { Sees (bits payload.now) c 2 × (c.bits < 2 * m) }
    ensures { Stepped 1 family m payload.now w.old s c result w.new }
{
    let turn = turn(payload, family, m, w, s, c)?;
    let end = decoder_ends::close_all(w, m, turn.state, turn.label)?;
    Some(Outcome {
        state: end.state,
        label: end.label,
        ..turn
    })
}
