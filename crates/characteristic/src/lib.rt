#![tactic(auto)]

// The characteristic of a plan, from how many vertices, edges and faces it has: a signed number of 32 bits. It knows no rotations.
ghost use Rattle.std.specs.Prelude.{◌≡◌, ◌≤◌, pos, ◌+ℤ◌, ◌-ℤ◌};

// Vertices minus edges plus faces, a signed number.
pub fn euler(v: usize, e: usize, f: usize) -> i32
    requires { (v ≤ 8192) × (e ≤ 8192) × (f ≤ 8192) }
    ensures { result ≡ (pos v -ℤ pos e) +ℤ pos f }
{
    (v as i32) - (e as i32) + (f as i32)
}
