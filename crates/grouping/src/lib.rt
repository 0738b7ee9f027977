#![tactic(auto)]

// Digits packed in groups, each into a byte: a group's number is its digits in a base, highest first, and the last group is filled up with 0.
// It knows digits and bytes, no letters, and not where they stand.
ghost use Rattle.std.specs.Prelude.{◌≡◌, true, ◌*◌, ◌^◌, ◌≤◌, length};
ghost use Rattle.model.specs.Numbers.{all_below};
ghost use Rattle.model.specs.Record.{pack};

// How many groups of this width n digits fill, but no more than count.
fn full_groups(n: usize, width: usize, count: usize) -> usize
    ensures { (result ≤ count) × (result * width ≤ n) }
{
    match n.checked_div(width) {
        Some(r) => r.min(count),
        None => 0,
    }
}

// Groups that are full, one for each byte.
fn put_full<const BASE: u16, const WIDTH: usize>(ds: &[u16], out: &mut [u8])
    requires { (1 ≤ BASE) × (BASE ^ WIDTH ≤ 256) × (all_below BASE ds.now ≡ true) × (length out.old * WIDTH ≤ length ds.now) }
    ensures { out.new ≡ pack BASE WIDTH (length out.old) ds.now }
{
    for (i, byte) in out.iter_mut().enumerate() {
        let from = i * WIDTH;
        *byte = group_numbers::digits::<BASE, WIDTH>(&ds[from..from + WIDTH]);
    }
}

// Groups of which the last ones may have few digits or none.
fn put_rest<const BASE: u16, const WIDTH: usize>(ds: &[u16], out: &mut [u8])
    requires { (1 ≤ BASE) × (BASE ^ WIDTH ≤ 256) × (all_below BASE ds.now ≡ true) × (length out.old * WIDTH ≤ 2 ^ 20) }
    ensures { out.new ≡ pack BASE WIDTH (length out.old) ds.now }
{
    for (j, byte) in out.iter_mut().enumerate() {
        let from = ds.len().min(j * WIDTH);
        *byte = group_numbers::digits::<BASE, WIDTH>(&ds[from..]);
    }
}

// The digits in groups of this width, as so many bytes. In the full groups, which come first, no digit is tested for being there.
pub fn put_groups<const BASE: u16, const WIDTH: usize>(ds: &[u16], out: &mut [u8])
    requires { (1 ≤ BASE) × (BASE ^ WIDTH ≤ 256) × (all_below BASE ds.now ≡ true) × (length out.old * WIDTH ≤ 2 ^ 20) }
    ensures { out.new ≡ pack BASE WIDTH (length out.old) ds.now }
{
    let full = full_groups(ds.len(), WIDTH, out.len());
    let (first, rest) = out.split_at_mut(full);
    put_full::<BASE, WIDTH>(ds, first);
    put_rest::<BASE, WIDTH>(&ds[full * WIDTH..], rest);
}
