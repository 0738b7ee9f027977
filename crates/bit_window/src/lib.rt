#![tactic(auto)]

// A window of 64 bits on the bits of a byte slice: its highest bit is the next one. It knows bytes, no records and no plans.
ghost use Rattle.std.specs.Prelude.{◌≡◌, ◌+◌, ◌-◌, ◌*◌, ◌/◌, ◌%◌, ◌^◌, ◌≤◌, ◌<◌, length, get_or, drop};
ghost use Rattle.model.specs.Record.{digits};
ghost use Rattle.packing.specs.Unpack.{bits};
ghost use Rattle.bit_window.specs.Window.{Holds};

// Byte k; bytes past the end count 0.
fn byte_at(bytes: &[u8], k: usize) -> u8
    ensures { result ≡ get_or bytes.now k 0 }
{
    bytes.get(k).copied().unwrap_or(0)
}

// The 64 bits of the eight bytes from byte q on, as a window and as a number.
fn inside(bytes: &[u8], q: usize) -> u64
    requires { q + 8 ≤ length bytes.now }
    ensures { Holds (bits bytes.now) result (8 * q) 64 × (result ≡ digits 2 64 (drop (8 * q) (bits bytes.now))) }
{
    let whole: [u8; 8] = bytes[q..q + 8].try_into().unwrap();
    u64::from_be_bytes(whole)
}

// The same where the bytes may end before. Apart, since `inside` tests no byte, which makes reading faster.
fn at_end(bytes: &[u8], q: usize) -> u64
    requires { q < 2 ^ 32 }
    ensures { Holds (bits bytes.now) result (8 * q) 64 }
{
    let padded = [
        byte_at(bytes, q),
        byte_at(bytes, q + 1),
        byte_at(bytes, q + 2),
        byte_at(bytes, q + 3),
        byte_at(bytes, q + 4),
        byte_at(bytes, q + 5),
        byte_at(bytes, q + 6),
        byte_at(bytes, q + 7),
    ];
    u64::from_be_bytes(padded)
}

// The 64 bits from byte q on.
fn eight_bytes(bytes: &[u8], q: usize) -> u64
    requires { q < 2 ^ 32 }
    ensures { Holds (bits bytes.now) result (8 * q) 64 }
{
    if q + 8 <= bytes.len() {
        return inside(bytes, q);
    }
    at_end(bytes, q)
}

// The window from bit k on; 57 bits of it count.
pub fn from(bytes: &[u8], k: usize) -> u64
    requires { k < 2 ^ 32 }
    ensures { Holds (bits bytes.now) result k 57 }
{
    let word = eight_bytes(bytes, k / 8);
    word << (k % 8)
}

// ---- a number and its places

// The number with the 64 bits from byte q on, the first of them highest. `inside` under another name: its clauses are those that `mesh_codewords` cites.
pub fn eight(s: &[u8], q: usize) -> u64
    requires { (length s.now < 65536) × (q + 8 ≤ length s.now) }
    ensures { result ≡ digits 2 64 (drop (8 * q) (bits s.now)) }
{
    inside(s, q)
}

// The two bits of it from place k on.
pub fn pair(x: u64, k: usize) -> u64
    requires { k < 63 }
    ensures { result ≡ x / 2 ^ (62 - k) % 4 }
{
    (x >> (62 - k)) % 4
}
