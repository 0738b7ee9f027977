#![tactic(auto)]

// What the contour walk by marks puts for the record at each letter: letters for family 4, else tree bits and labels. It knows where they stand in the lent work
// area, and by a mark whether a second comes next; no walk.
// Kinds and families are numbers here, and what is promised holds of any number (decision 173).
ghost use Rattle.std.specs.Prelude.{◌≡◌, ◌*◌, ◌≤◌, ◌<◌, length};
ghost use Rattle.model.specs.Map.{opposite};
ghost use Rattle.trace_puts.specs.Putting.{follows, down_put, first_put, up_put, second_put};

// 1 where the dart x, which comes next, is met as second; else 0.
#[tactic(auto, unfolding(crate::specs::Putting::follows))]
pub fn second_next(w: &[u16], x: usize) -> u16
    requires { (x < 65536) × (opposite x < length w.now) }
    ensures { result ≡ follows w.now x }
{
    let o = dart_steps::other(x);
    if w[o] / 8192 == 1 { 1 } else { 0 }
}

// ---- what is put at the letter in position i, where t tree bits are put before it

// Not one generic function: each puts other entries, and they share only the test of the family.

#[tactic(auto, unfolding(crate::specs::Putting::down_put))]
pub fn put_down(w: &mut [u16], n: usize, family: u16, i: usize, t: usize)
    requires { (n ≤ 8192) × (16 * n ≤ length w.old) × (i < n) × (t < 2 * n) }
    ensures { w.new ≡ down_put n family i t w.old }
{
    if family == 4 {
        w[work::LETTERS * n + i] = work::DOWN;
        return;
    }
    w[work::BITS * n + t] = 1;
}

#[tactic(auto, unfolding(crate::specs::Putting::first_put))]
pub fn put_first(w: &mut [u16], n: usize, family: u16, i: usize, t: usize)
    requires { (n ≤ 8192) × (16 * n ≤ length w.old) × (i < n) × (t < 2 * n) }
    ensures { w.new ≡ first_put n family i t w.old }
{
    if family == 4 {
        w[work::LETTERS * n + i] = work::FIRST;
        return;
    }
    w[work::BITS * n + t] = 1;
    w[work::BITS * n + t + 1] = 0;
}

// Edge f ends, at a bare leaf or not; second is 1 where the next letter is that, else 0.
#[tactic(auto, unfolding(crate::specs::Putting::up_put))]
pub fn put_up(
    w: &mut [u16],
    n: usize,
    family: u16,
    i: usize,
    t: usize,
    f: usize,
    leaf: bool,
    second: u16,
)
    requires { (n ≤ 8192) × (16 * n ≤ length w.old) × (i < n) × (t < 2 * n) × (f < n) }
    ensures { w.new ≡ up_put n family i t f leaf second w.old }
{
    if family == 4 {
        w[work::LETTERS * n + i] = work::UP;
        return;
    }
    if leaf {
        w[work::LABELS * n + f] = work::STAR;
        w[work::BITS * n + t] = second;
        return;
    }
    w[work::LABELS * n + f] = second;
    w[work::BITS * n + t] = 0;
}

#[tactic(auto, unfolding(crate::specs::Putting::second_put))]
pub fn put_second(w: &mut [u16], n: usize, family: u16, i: usize, f: usize, second: u16)
    requires { (n ≤ 8192) × (16 * n ≤ length w.old) × (i < n) × (f < n) }
    ensures { w.new ≡ second_put n family i f second w.old }
{
    if family == 4 {
        w[work::LETTERS * n + i] = work::SECOND;
        return;
    }
    w[work::LABELS * n + f] = second;
}
