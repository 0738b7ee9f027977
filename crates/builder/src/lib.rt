#![tactic(auto)]

// The standard rotation, built in the lent work area letter by letter as a contour word is read: each dart is entered where the dart before it waits for
// its successor. It knows letters and the edges that are open, no payloads and no labels. Its stacks are the reading parts of the map in `work`.
ghost use Rattle.std.specs.Prelude.{◌≡◌, ◌+◌, ◌<◌, ◌≤◌, length};
ghost use Rattle.model.specs.Traversal.{down, up, first, second};
ghost use Rattle.words.specs.Word.{head};
ghost use Rattle.work.specs.Area.{stack};
ghost use Rattle.builder.specs.Steps.{parts_at, Standing, Room, Stepped};

// Where the traversal stands: vertices entered, the present one, how many tree edges and how many others are open, and the dart whose entry is the next
// dart.
#[derive(Clone, Copy)]
pub struct State {
    pub n: u16,
    pub here: u16,
    pub depth: usize,
    pub opens: usize,
    pub place: usize,
}

// The entry pushed last on the stack of so many entries that stands from place `at` on.
fn top(w: &[u16], at: usize, count: usize) -> u16
    requires { (0 < count) × (at + count ≤ length w.now) }
    ensures { result ≡ head (stack at count w.now) }
{
    w[at + count - 1]
}

// The tree edge that was opened last. This and the next two read the top of three stacks; what they promise of it differs.
pub fn last_tree(w: &[u16], m: usize, s: State) -> usize
    requires { Standing m w.now s × (0 < s.depth) }
    ensures { (result ≡ head (parts_at m w.now s).trees) × (result < m) }
{
    top(w, work::TREES * (2 * m), s.depth) as usize
}

// The edge outside the tree that was opened last.
pub fn last_open(w: &[u16], m: usize, s: State) -> usize
    requires { Standing m w.now s × (0 < s.opens) }
    ensures { (result ≡ head (parts_at m w.now s).opens) × (result < m) }
{
    top(w, work::OPENS * (2 * m), s.opens) as usize
}

// The vertex where that edge began.
pub fn last_begun(w: &[u16], m: usize, s: State) -> u16
    requires { Standing m w.now s × (0 < s.opens) }
    ensures { result ≡ head (parts_at m w.now s).begun }
{
    top(w, work::BEGUN * (2 * m), s.opens)
}

// Down edge e, of the tree.
pub fn enter(w: &mut [u16], m: usize, s: State, e: usize) -> State
    requires { Standing m w.old s × Room m s e }
    ensures { Stepped down m w.old s e result w.new }
{
    let x = 2 * e;
    w[s.place] = x as u16;
    w[work::BELOW * (2 * m) + s.depth] = s.here;
    w[work::TREES * (2 * m) + s.depth] = e as u16;
    State {
        n: s.n + 1,
        here: s.n,
        depth: s.depth + 1,
        place: x + 1,
        ..s
    }
}

// Up edge e, the tree edge opened last, to the vertex that the present one hangs from.
pub fn rise(w: &mut [u16], m: usize, s: State, e: usize) -> State
    requires { Standing m w.old s × (0 < s.depth) × (e ≡ head (parts_at m w.old s).trees) × (e < m) }
    ensures { Stepped up m w.old s e result w.new }
{
    let here = top(w, work::BELOW * (2 * m), s.depth);
    let place = 2 * e;
    w[s.place] = (place + 1) as u16;
    State {
        here,
        depth: s.depth - 1,
        place,
        ..s
    }
}

// Edge e, outside the tree, begins here.
pub fn back(w: &mut [u16], m: usize, s: State, e: usize) -> State
    requires { Standing m w.old s × Room m s e }
    ensures { Stepped first m w.old s e result w.new }
{
    let place = 2 * e;
    w[s.place] = place as u16;
    w[work::BEGUN * (2 * m) + s.opens] = s.here;
    w[work::OPENS * (2 * m) + s.opens] = e as u16;
    State {
        opens: s.opens + 1,
        place,
        ..s
    }
}

// Edge e, the one outside the tree opened last, ends here.
pub fn close(w: &mut [u16], m: usize, s: State, e: usize) -> State
    requires { Standing m w.old s × (0 < s.opens) × (e ≡ head (parts_at m w.old s).opens) × (e < m) }
    ensures { Stepped second m w.old s e result w.new }
{
    let place = 2 * e + 1;
    w[s.place] = place as u16;
    State {
        opens: s.opens - 1,
        place,
        ..s
    }
}
