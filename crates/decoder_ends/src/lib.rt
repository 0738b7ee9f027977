#![tactic(auto)]

// The state of the machine that decodes families 1 and 2, in the lent work area, and what ends in it: edges outside the tree, where an edge of label 1 has
// ended, and the traversal. An open edge is stacked with its label, and a vertex is named by what is stacked of the tree edge above it, so that later ones have
// higher names. It knows no bits.
ghost use Rattle.std.specs.Prelude.{◌<◌};
ghost use Rattle.decoder_ends.specs.States.{stage, Fits, Standing};
ghost use Rattle.decoder_ends.specs.Ends.{Ended, Finished};

// Where the traversal stands: the name of the present vertex, how many tree edges and how many others are open, and the dart whose entry is the next dart.
#[derive(Clone, Copy)]
pub struct State {
    pub here: u16,
    pub depth: usize,
    pub opens: usize,
    pub place: usize,
}

// Where the machine stands when edges outside the tree have ended, with the label of the one that ended last.
#[derive(Clone, Copy)]
pub struct Ending {
    pub state: State,
    pub label: u16,
}

// ---- an edge of label 1 has ended

// The edge outside the tree that was opened last ends here too, if this is a proper ancestor of where it began.
fn close_last(w: &mut [u16], m: usize, s: State) -> Option<Ending>
    requires { Standing m w.old s }
    ensures { Ended 1 2 m w.old s 1 result w.new }
{
    if s.opens == 0 {
        return None; // a label 1 is left over
    }
    let opens = s.opens - 1;
    let v = w[work::BEGUN * (2 * m) + opens];
    if v <= s.here {
        return None;
    }
    let x = w[work::OPENS * (2 * m) + opens];
    let label = x % 2;
    let dart = x - label + 1;
    w[s.place] = dart;
    let state = State {
        opens,
        place: dart as usize,
        ..s
    };
    Some(Ending { state, label })
}

// An edge of this label has ended: edges outside the tree end while it is 1.
pub fn close_all(w: &mut [u16], m: usize, s: State, label: u16) -> Option<Ending>
    requires { Standing m w.old s × (label < 2) }
    ensures { Ended 0 1 m w.old s label result w.new }
{
    let mut end = Ending { state: s, label };
    while end.label == 1 {
        end = close_last(w, m, end.state)?;
    }
    Some(end)
}

// ---- the traversal ends

// All bits are read, and this many edges have begun: if all edges have begun and ended, the last dart's successor is dart 0.
pub fn finish(w: &mut [u16], m: usize, s: State, edges: usize) -> bool
    requires { Fits m w.old (stage edges s) }
    ensures { Finished m w.old (stage edges s) result w.new }
{
    if 0 < s.depth + s.opens {
        return false;
    }
    if edges < m {
        return false;
    }
    w[s.place] = 0;
    true // also where dart 0 follows itself
}
