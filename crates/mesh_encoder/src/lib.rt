#![tactic(auto)]

// From the node types of a mesh in the work area to the bits of code A and the digits, there too. It knows types, no letters and no bytes.
ghost use Rattle.std.specs.Prelude.{◌≡◌, ◌+◌, ◌*◌, ◌≤◌, true, length};
ghost use Rattle.packing.specs.Types.{all_types};
ghost use Rattle.work.specs.Map.{TYPES};
ghost use Rattle.work.specs.Area.{region};
ghost use Rattle.mesh_encoder.specs.Encoded.{CodesOf};
ghost use Rattle.mesh_encoder.specs.Passes.{Put};

// How many bits and digits there are.
#[derive(Clone, Copy)]
pub struct Sizes {
    pub bits: usize,
    pub digits: usize,
}

// The type t behind the bits and digits that are put.
fn put_code(w: &mut [u16], n: usize, t: u16, s: Sizes) -> Sizes
    requires { (n ≤ 8192) × (16 * n ≤ length w.old) × (s.bits + 2 ≤ n) × (s.digits + 1 ≤ n) × (1 ≤ t) }
    ensures { Put n t s w.old result w.new }
{
    let b = work::BITS * n + s.bits;
    if t < 3 {
        w[b] = 0;
        w[b + 1] = t - 1;
        return Sizes {
            bits: s.bits + 2,
            ..s
        };
    }
    w[b] = 1;
    w[work::LABELS * n + s.digits] = t - 3;
    Sizes {
        bits: s.bits + 1,
        digits: s.digits + 1,
    }
}

// Bits and digits of the first `count` types.
pub fn codes(w: &mut [u16], n: usize, count: usize) -> Sizes
    requires { (n ≤ 8192) × (16 * n ≤ length w.old) × (2 * count ≤ n) × (all_types (region (TYPES * n) count w.old) ≡ true) }
    ensures { CodesOf n (region (TYPES * n) count w.old) w.old result w.new }
{
    let mut s = Sizes { bits: 0, digits: 0 };
    for i in 0..count {
        let t = w[work::TYPES * n + i];
        s = put_code(w, n, t, s);
    }
    s
}
