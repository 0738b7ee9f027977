#![tactic(auto)]

// Refusal 6 in a work area, which is faster than without one: whether the entries of a rotation are a permutation, by marks that are set and then struck. It knows
// lists of numbers, no plans.
ghost use Rattle.std.specs.Prelude.{◌≡◌, true, ◌≤◌, eqb, length};
ghost use Rattle.model.specs.Numbers.{all_below, sum};
ghost use Rattle.work.specs.Area.{region};
ghost use Rattle.striking.specs.Marks.{Struck, Tested};

// Strikes the mark at each entry, and stops at one that is too large.
fn strike(order: &[u16], w: &mut [u16]) -> bool
    requires { length order.now ≤ length w.old }
    ensures { Struck order.now w.old result w.new }
{
    let n = order.len();
    for x in order {
        let x = *x as usize;
        if x >= n {
            return false;
        }
        w[x] = 0;
    }
    true
}

// No mark is left among the first n.
fn none_left(w: &[u16], n: usize) -> bool
    requires { (n ≤ length w.now) × (n ≤ 8192) × (all_below 2 (region 0 n w.now) ≡ true) }
    ensures { result ≡ eqb (sum (region 0 n w.now)) 0 }
{
    w[..n].iter().sum::<u16>() == 0
}

// Every entry is below the dart count, and no two are equal: one mark a dart, struck at each entry. No mark is left, so every number below the dart count is an entry.
pub fn is_permutation_in(order: &[u16], w: &mut [u16]) -> bool
    requires { (length order.now ≤ 8192) × (length order.now ≤ length w.old) }
    ensures { Tested order.now w.old result w.new }
{
    let n = order.len();
    work::fill(w, 0, n, 1);
    strike(order, w) && none_left(w, n)
}
