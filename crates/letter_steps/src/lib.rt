#![tactic(auto)]

// One letter of a word read, as a step of the builder in the lent work area, if a nested word goes on with it. It knows which words are nested; not where letters
// stand.
ghost use Rattle.std.specs.Prelude.{◌∷◌, [], ◌*◌, ◌<◌};
ghost use Rattle.model.specs.Traversal.{up, second};
ghost use Rattle.packing.specs.Letters.{digit_letter};
ghost use Rattle.builder.specs.Moves.{Fits};
ghost use Rattle.letter_steps.specs.Reading.{Read};

use builder::State;

// In each function e is how many edges have begun. What is handed back is the state after the letter and how many edges have begun then; none where no nested
// word goes on with it.

// An edge begins, if one is left: down, or first where `other` is 1.
fn begin(w: &mut [u16], m: usize, s: State, e: usize, other: u8) -> Option<(State, usize)>
    requires { Fits m w.old s e × (other < 2) }
    ensures { Read (digit_letter (2 * other) ∷ []) m w.old s e result w.new }
{
    if e >= m {
        return None;
    }
    let t = if other == 0 {
        builder::enter(w, m, s, e)
    } else {
        builder::back(w, m, s, e)
    };
    Some((t, e + 1))
}

// The tree edge opened last ends, if one is open.
fn up(w: &mut [u16], m: usize, s: State, e: usize) -> Option<(State, usize)>
    requires { Fits m w.old s e }
    ensures { Read (up ∷ []) m w.old s e result w.new }
{
    if s.depth == 0 {
        return None;
    }
    let edge = builder::last_tree(w, m, s);
    Some((builder::rise(w, m, s, edge), e))
}

// The edge outside the tree opened last ends, if one is open and began here or at a later vertex.
fn second(w: &mut [u16], m: usize, s: State, e: usize) -> Option<(State, usize)>
    requires { Fits m w.old s e }
    ensures { Read (second ∷ []) m w.old s e result w.new }
{
    if s.opens == 0 {
        return None;
    }
    let begun = builder::last_begun(w, m, s);
    if begun < s.here {
        return None;
    }
    let edge = builder::last_open(w, m, s);
    Some((builder::close(w, m, s, edge), e))
}

// The letter of the two bits x: the high one says whether its edge is outside the tree, the low one whether the edge ends.
pub fn step(w: &mut [u16], m: usize, s: State, e: usize, x: u8) -> Option<(State, usize)>
    requires { Fits m w.old s e × (x < 4) }
    ensures { Read (digit_letter x ∷ []) m w.old s e result w.new }
{
    let other = x / 2;
    let ends = x % 2;
    if ends == 0 {
        begin(w, m, s, e, other)
    } else if other == 0 {
        up(w, m, s, e)
    } else {
        second(w, m, s, e)
    }
}
