#![tactic(auto)]

// The payload of a mesh, from the bits and digits of its node types in the work area. It knows digits and places, no letters and no types.
ghost use Rattle.std.specs.Prelude.{◌≡◌, true, ◌++◌, ◌+◌, ◌*◌, ◌^◌, ◌≤◌, length};
ghost use Rattle.model.specs.Numbers.{all_below};
ghost use Rattle.model.specs.Record.{pack, bytes_for};
ghost use Rattle.work.specs.Map.{BITS, LABELS};
ghost use Rattle.work.specs.Area.{region, placed};

use mesh_encoder::Sizes;

// The payload, from place at on: the bits in whole bytes, then the digits in groups of five.
pub fn put_payload(w: &[u16], n: usize, s: Sizes, out: &mut [u8], at: usize)
    requires { (n ≤ 8192) × (16 * n ≤ length w.now) × (s.bits ≤ n) × (s.digits ≤ n)
        × (all_below 2 (region (BITS * n) s.bits w.now) ≡ true) × (all_below 3 (region (LABELS * n) s.digits w.now) ≡ true)
        × (at ≤ 2 ^ 16) × (at + bytes_for s.bits 8 + bytes_for s.digits 5 ≤ length out.old) }
    ensures { out.new ≡ placed at (pack 2 8 (bytes_for s.bits 8) (region (BITS * n) s.bits w.now)
        ++ pack 3 5 (bytes_for s.digits 5) (region (LABELS * n) s.digits w.now)) out.old }
{
    let bits = work::BITS * n;
    let digits = work::LABELS * n;
    let size = packer::groups(s.bits, 8) + packer::groups(s.digits, 5);
    packer::put_parts(
        &w[bits..bits + s.bits],
        &w[digits..digits + s.digits],
        &mut out[at..at + size],
    );
}
