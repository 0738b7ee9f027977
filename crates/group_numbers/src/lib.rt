#![tactic(auto)]

// The number that a group of digits makes, in a base, highest first, filled up with 0 behind the last. It knows digits, and not where they and the numbers go.
ghost use Rattle.std.specs.Prelude.{◌≡◌, true, ◌^◌, ◌≤◌, get_or};
ghost use Rattle.model.specs.Numbers.{all_below};
ghost use Rattle.model.specs.Record.{digits};

// Digit i, 0 behind the last.
fn digit(ds: &[u16], i: usize) -> u16
    ensures { result ≡ get_or ds.now i 0 }
{
    ds.get(i).copied().unwrap_or(0)
}

// The number whose digits in this base are the first of `ds`, highest first, filled up with 0 to this width. Base and width are constants, and so are the
// places, counted from the last: the compiler unrolls the loop, and adds up the digits of a full group at once.
pub fn digits<const BASE: u16, const WIDTH: usize>(ds: &[u16]) -> u8
    requires { (1 ≤ BASE) × (BASE ^ WIDTH ≤ 256) × (all_below BASE ds.now ≡ true) }
    ensures { result ≡ digits BASE WIDTH ds.now }
{
    let mut x = 0;
    let mut place = 1;
    for i in (0..WIDTH).rev() {
        x += place * digit(ds, i) as usize;
        place *= BASE as usize;
    }
    x as u8
}
