#![tactic(auto)]

// Groups put under a table: values that stand in a row, each replaced by its byte. It knows the bytes of a table, no inverse and no records.
ghost use Rattle.std.specs.Prelude.{◌≡◌, true, map, ◌+◌, ◌^◌, ◌≤◌, length, get_or};
ghost use Rattle.model.specs.Numbers.{all_below};
ghost use Rattle.work.specs.Area.{region, placed};

// The bytes of the values that stand in `count` places from `from` on.
pub fn apply(bytes: &[u8; 243], out: &mut [u8], from: usize, count: usize)
    requires { (from + count ≤ length out.old) × (from ≤ 2 ^ 20) × (count ≤ 2 ^ 20) × (all_below 243 (region from count out.old) ≡ true) }
    ensures { out.new ≡ placed from (map (λ v. get_or bytes.now v 0) (region from count out.old)) out.old }
{
    for v in &mut out[from..from + count] {
        *v = bytes[*v as usize];
    }
}
