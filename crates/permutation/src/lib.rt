#![tactic(auto)]

// Refusal 6: whether the entries of a rotation are a permutation, without a work area. It knows lists of numbers, no plans.
ghost use Rattle.std.specs.Prelude.{◌≡◌, ◌*◌, ◌≤◌, length, replicate};
ghost use Rattle.model.specs.Numbers.{is_permutation};
ghost use Rattle.packing.specs.Unpack.{bits};

// Marks each entry by a bit, and stops at one that is too large or marked already.
fn marked(order: &[u16], marks: &mut [u8]) -> bool
    requires { (length order.now ≤ 8 * length marks.old) × (bits marks.old ≡ replicate (8 * length marks.old) 0) }
    ensures { result ≡ is_permutation order.now }
{
    for x in order {
        let x = *x as usize;
        if x >= order.len() || bits::bit_at(marks, x) != 0 {
            return false;
        }
        bits::put_bit(marks, x, 1);
    }
    true
}

// Every entry is below the dart count, and no two are equal. One bit a dart: no work area is needed.
pub fn is_permutation(order: &[u16]) -> bool
    requires { length order.now ≤ 8192 }
    ensures { result ≡ is_permutation order.now }
{
    let mut marks = [0u8; 1024];
    marked(order, &mut marks)
}
