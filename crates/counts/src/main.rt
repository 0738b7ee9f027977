#![tactic(auto)]

// Reads every payload of a record with one, two or three edges, in all kinds, and every payload of two bytes of a mesh with up to six, and prints kind, edges,
// payloads and how many records are read: that is how many plans there are up to renumbering. In a kind with the outside each payload is read behind every
// number from 0 to 2m. The file stdout has what it must write.
ghost use Rattle.std.specs.Prelude.{◌≤◌, length};

use printing::GoesOn;
use std::io;

// How many bytes the payload of a record has.
#[derive(Clone, Copy)]
enum Payload {
    One,
    Two,
}

impl Payload {
    fn size(self) -> u8
        ensures { result ≤ 2 }
    {
        match self {
            Payload::One => 1,
            Payload::Two => 2,
        }
    }

    // How many payloads there are.
    fn count(self) -> u32
        ensures { result ≤ 65536 }
    {
        match self {
            Payload::One => 256,
            Payload::Two => 65536,
        }
    }
}

// Family, edges and payload. In family 3 no kind stores the outside.
const LINES: [(u8, u8, Payload); 15] = [
    (1, 1, Payload::One),
    (1, 2, Payload::One),
    (1, 3, Payload::Two),
    (2, 1, Payload::Two),
    (2, 2, Payload::Two),
    (2, 3, Payload::Two),
    (3, 1, Payload::Two),
    (3, 2, Payload::Two),
    (3, 3, Payload::Two),
    (3, 4, Payload::Two),
    (3, 5, Payload::Two),
    (3, 6, Payload::Two),
    (4, 1, Payload::One),
    (4, 2, Payload::One),
    (4, 3, Payload::Two),
];

// Whether some plan has the record.
fn is_read(record: &[u8]) -> bool {
    let mut work = [0; 192];
    let mut out = [0; 12];
    reading::read(tables::standard(), record, &mut work, &mut out).is_ok()
}

// How many records of this head are read, over all payloads.
fn counted(head: &[u8], payload: Payload) -> u32
    requires { length head.now ≤ 8 }
    ensures { result ≤ 65536 }
{
    let mut record = [0; 12];
    record[..head.len()].copy_from_slice(head);
    let end = head.len() + usize::from(payload.size());
    let mut n = 0;
    for x in 0..payload.count() {
        record[head.len()..head.len() + 4].copy_from_slice(&x.to_le_bytes());
        if is_read(&record[..end]) {
            n += 1;
        }
    }
    n
}

fn line(rt: &impl Print, family: u8, m: u8, payload: Payload) -> io::Result<()> {
    let n = counted(&[6 + payload.size(), 0, family, 0, m, 0], payload);
    println!(rt; "{family} {m} {} {n}", payload.count())
}

// The same in the kind of this family that stores the outside, behind every number from 0 to 2m.
fn outside_line(rt: &impl Print, family: u8, m: u8, payload: Payload) -> io::Result<()> {
    let size = 8 + payload.size();
    let mut n = 0;
    for outside in 0..=2 * u16::from(m) {
        let [low, high] = outside.to_le_bytes();
        n += counted(&[size, 0, family, 1, m, 0, low, high], payload);
    }
    println!(rt; "{} {m} {} {n}", 0x100 + u16::from(family), payload.count())
}

fn print_lines(rt: &impl Print) -> io::Result<()> {
    for (family, m, payload) in LINES {
        line(rt, family, m, payload)?;
    }
    for (family, m, payload) in LINES {
        if family != 3 {
            outside_line(rt, family, m, payload)?;
        }
    }
    Ok(())
}

// Output that cannot be written is no failure, and what comes after it is still written.
fn main(rt: HostRuntime) {
    let _ = print_lines(&GoesOn(&rt));
}
