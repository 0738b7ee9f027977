#![tactic(auto)]

// The cycles of a rotation, its vertices, and of its face walk, its faces: each dart gets the name of its cycle, and the cycles are counted and measured.
// It knows rotations, not traversals or records.
ghost use Rattle.std.specs.Prelude.{◌+◌, ◌≤◌, length};
ghost use Rattle.cycles.specs.Cycles.{Named};

use dart_steps::{Rotation, Steps};

// No cycle's name: names are below 8,192.
const UNNAMED: u16 = 65535;

// Each dart's cycle, by its least dart, from place a on; how many cycles there are, and their sizes from place b on, in the order of their least darts.
pub fn name<S: Steps>(rotation: Rotation<'_>, w: &mut [u16], a: usize, b: usize) -> usize
    requires { (a + length rotation.order.now ≤ b) × (b + length rotation.order.now ≤ length w.old) }
    ensures { let rot = rotation.entry.order.now in Named (S.of rot) (length rot) a b w.old result w.new }
{
    let order = rotation.order;
    let n = order.len();
    work::fill(w, a, n, UNNAMED);
    let mut count = 0;
    for d in 0..n {
        if w[a + d] == UNNAMED {
            let size = following::follow::<S>(order, w, a, d);
            w[b + count] = size as u16;
            count += 1;
        }
    }
    count
}
