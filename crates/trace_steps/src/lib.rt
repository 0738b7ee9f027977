#![tactic(auto)]

// The steps of the contour walk by marks, one function for each letter. On going down to a vertex its darts are marked, once round; so a dart is marked exactly
// when its vertex is seen. What the record is made of is put on the way (`trace_puts`). When which step is due, `tracing` knows.
// Kinds and families are numbers here, and what is promised holds of any number (decision 173).
ghost use Rattle.std.specs.Prelude.{◌≡◌, ℕ, ◌*◌, ◌≤◌, ◌<◌, length, get_or};
ghost use Rattle.model.specs.Map.{vertex_of};
ghost use Rattle.work.specs.Map.{WAITING};
ghost use Rattle.work.specs.Area.{stack};
ghost use Rattle.trace_steps.specs.Steps.{Ground, Circled, Placed, WentDown, first_on, first_area, up_on, up_area, second_on, second_area, last_is};

// ---- marks

// Numbers, not an enum: they stand in the 16-bit entries of the lent work area (fixed memory).
// At a dart whose vertex is seen, with the number of edges begun by then; at a dart met first, as down or as first, with the number of its edge.
pub const SEEN: u16 = 32768;

pub const DOWN: u16 = 16384;

pub const FIRST: u16 = 8192;

// Every dart of the vertex of o, none of which has a mark, gets this one.
pub fn round(order: &[u16], w: &mut [u16], o: usize, mark: u16)
    requires { Ground order.now w.old × (o < length order.now) × (1 ≤ mark)
        × ((z : ℕ) → z < length order.now → vertex_of order.now z ≡ vertex_of order.now o → get_or w.old z 0 ≡ 0) }
    ensures { Circled order.now o mark w.old w.new }
{
    let mut x = order[o] as usize;
    while x != o {
        let y = order[x] as usize;
        w[x] = mark;
        x = y;
    }
    w[o] = mark;
}

// ---- one step

// Not one generic function with those of `numbering`: the two put different entries, and share only which dart comes next.

// Where the walk stands: the root, the dart that comes next, how many edges have begun, and how many of those outside the tree wait for their end.
#[derive(Clone, Copy)]
pub struct Trace {
    pub root: usize,
    pub dart: usize,
    pub edges: usize,
    pub waiting: usize,
}

// The dart of s, at position i, goes down to the vertex of its opposite o.
#[tactic(auto, using(crate::proofs::Grounds::few), unfolding(model::specs::Map::next))]
pub fn go_down(order: &[u16], family: u16, w: &mut [u16], i: usize, o: usize, s: Trace) -> Trace
    requires { Ground order.now w.old × Placed order.now i s × (o < length order.now)
        × ((z : ℕ) → z < length order.now → vertex_of order.now z ≡ vertex_of order.now o → get_or w.old z 0 ≡ 0) }
    ensures { WentDown order.now family i o s w.old result w.new }
{
    let dart = order[o] as usize;
    round(order, w, o, SEEN + 1 + s.edges as u16);
    w[s.dart] = DOWN + s.edges as u16;
    trace_puts::put_down(w, order.len(), family, i, i + s.waiting);
    Trace {
        dart,
        edges: s.edges + 1,
        ..s
    }
}

// The dart of s, at position i, begins an edge outside the tree.
#[tactic(auto, using(crate::proofs::Grounds::few), unfolding(model::specs::Map::next, crate::specs::Steps::first_area))]
pub fn go_first(order: &[u16], family: u16, w: &mut [u16], i: usize, s: Trace) -> Trace
    requires { Ground order.now w.old × Placed order.now i s }
    ensures { (result ≡ first_on order.now s) × (w.new ≡ first_area (length order.now) family i s w.old) }
{
    let n = order.len();
    let dart = order[s.dart] as usize;
    w[s.dart] = FIRST + s.edges as u16;
    w[work::WAITING * n + s.waiting] = s.edges as u16;
    trace_puts::put_first(w, n, family, i, i + s.waiting);
    Trace {
        dart,
        edges: s.edges + 1,
        waiting: s.waiting + 1,
        ..s
    }
}

// The dart of s, at position i, ends tree edge f; its opposite is o.
#[tactic(auto, using(crate::proofs::Grounds::few, crate::proofs::Grounds::after_bound, crate::proofs::Grounds::over_bound), unfolding(model::specs::Map::next, crate::specs::Steps::up_area))]
pub fn go_up(
    order: &[u16],
    family: u16,
    w: &mut [u16],
    i: usize,
    o: usize,
    f: usize,
    s: Trace,
) -> Trace
    requires { Ground order.now w.old × Placed order.now i s × (o < length order.now) × (f < length order.now) }
    ensures { (result ≡ up_on order.now o s) × (w.new ≡ up_area order.now family i o f s w.old) }
{
    let dart = order[o] as usize;
    let leaf = order[s.dart] as usize == s.dart;
    let second = trace_puts::second_next(w, dart);
    trace_puts::put_up(w, order.len(), family, i, i + s.waiting, f, leaf, second);
    Trace { dart, ..s }
}

// The dart of s, at position i, ends edge f, which is the last one open outside the tree.
#[tactic(auto, using(crate::proofs::Grounds::few, crate::proofs::Grounds::after_bound, crate::proofs::Grounds::over_bound), unfolding(model::specs::Map::next, crate::specs::Steps::second_area))]
pub fn go_second(order: &[u16], family: u16, w: &mut [u16], i: usize, f: usize, s: Trace) -> Trace
    requires { Ground order.now w.old × Placed order.now i s × (f < length order.now) × (1 ≤ s.waiting) }
    ensures { (result ≡ second_on order.now s) × (w.new ≡ second_area order.now family i f s w.old) }
{
    let dart = order[s.dart] as usize;
    let second = trace_puts::second_next(w, dart);
    trace_puts::put_second(w, order.len(), family, i, f, second);
    Trace {
        dart,
        waiting: s.waiting - 1,
        ..s
    }
}

// Edge f is the last of those that wait.
#[tactic(auto, using(crate::proofs::Grounds::last_none, crate::proofs::Grounds::last_top))]
pub fn is_last(w: &[u16], n: usize, waiting: usize, f: u16) -> bool
    requires { (n ≤ 8192) × (16 * n ≤ length w.now) × (waiting ≤ n) }
    ensures { result ≡ last_is (stack (WAITING * n) waiting w.now) f }
{
    waiting != 0 && w[work::WAITING * n + (waiting - 1)] == f
}
