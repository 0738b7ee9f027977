#![tactic(auto)]

// The dual of a rotation that stands in the work area, put to the output: the two entries of each edge change places.
ghost use Rattle.std.specs.Prelude.{◌≡◌, ◌*◌, ◌≤◌, length};
ghost use Rattle.model.specs.Mesh.{dual_of};
ghost use Rattle.model.specs.Calls.{front};
ghost use Rattle.work.specs.Area.{region};

// The dual of the rotation in the first 2m entries, in the first 2m entries of the output.
pub fn copy(w: &[u16], m: usize, out: &mut [u16])
    requires { (m ≤ 4096) × (2 * m ≤ length w.now) × (2 * m ≤ length out.old) }
    ensures { out.new ≡ front (dual_of (region 0 (2 * m) w.now)) out.old }
{
    for e in 0..m {
        let x = 2 * e;
        out[x] = w[x + 1];
        out[x + 1] = w[x];
    }
}
