#![tactic(auto)]

// Shelves the starred records of document 01, fetches them and walks over them, and meets each refusal of shelving, fetching and walking, those of document 02
// (b) included. Each answer is a line: numbers and places in decimal, bytes in hexadecimal; where a record was searched for, the line ends with how many were
// compared beyond the length (request (g)). The file stdout has what it must write; tests/shelves.py holds it to the second coder.
ghost use Rattle.std.specs.Prelude.{◌≡◌};
ghost use Rattle.model.specs.Parts.{CutOut};
ghost use Rattle.model.specs.ShelfWalk.{next_place};

use model::Refusal;
use printing::GoesOn;
use searching::Searched;
use std::{fmt, io};
use walker::Walker;

// ---- printing

// Bytes in hexadecimal, a space before each.
#[derive(Drop)]
struct Hex<'a>(&'a [u8]);

impl fmt::Display for Hex<'_> {
    fn fmt<W: fmt::Write>(&self, f: &mut fmt::Formatter<W>) -> fmt::Result {
        for byte in self.0 {
            write!(f, " {byte:02X}")?;
        }
        Ok(())
    }
}

fn show_record(rt: &impl Print, record: &[u8]) -> io::Result<()> {
    if record.is_empty() {
        return println!(rt; " none");
    }
    println!(rt; "{}", Hex(record))
}

// ---- shelving and fetching

// Of how many records among these bytes the search for the record compares more than the length.
fn show_compared(rt: &impl Print, record: &[u8], bytes: &[u8]) -> io::Result<()> {
    if record.len() < 6 {
        return Ok(());
    }
    match searching::search(record, bytes) {
        Some(Searched::There(_, compared) | Searched::Missing(_, compared)) => {
            print!(rt; ", compared {compared}")
        }
        None => Ok(()),
    }
}

// The record is shelved with this work area. The used length after that is returned.
fn shelve_with(
    rt: &impl Print,
    work: &mut [u16],
    record: &[u8],
    shelf: &mut [u8],
    used: usize,
) -> io::Result<usize> {
    print!(rt;
        "shelve{}, used {used} of {}, work {}",
        Hex(record),
        shelf.len(),
        work.len()
    )?;
    match shelving::shelve(tables::standard(), record, work, shelf, used) {
        Ok(shelved) => {
            print!(rt; ": record {}, used {}", shelved.number, shelved.used)?;
            show_compared(rt, record, shelf::used_part(shelf, used))?;
            println!(rt)?;
            Ok(shelved.used)
        }
        Err(refusal) => {
            println!(rt; ": {refusal}")?;
            Ok(used)
        }
    }
}

// With room for three trails.
fn shelve(rt: &impl Print, record: &[u8], shelf: &mut [u8], used: usize) -> io::Result<usize> {
    shelve_with(rt, &mut [0xEEEE; 96], record, shelf, used)
}

// The refusal and the record: 0 and a record, or a refusal and none.
fn show_part(rt: &impl Print, part: Result<&[u8], Refusal>) -> io::Result<()> {
    match part {
        Ok(record) => {
            print!(rt; "refusal 0,")?;
            show_record(rt, record)
        }
        Err(refusal) => println!(rt; "{refusal}, none"),
    }
}

fn fetch(rt: &impl Print, shelf: &[u8], used: usize, n: usize) -> io::Result<()> {
    print!(rt; "fetch {n}, used {used}: ")?;
    show_part(rt, shelf::fetch(shelf, used, n))
}

// ---- walking

// What a walker yields that holds these bytes and stands at this place.
fn yielded<'a>(bytes: &'a [u8], at: usize) -> &'a [u8]
    ensures { CutOut bytes.entry at result }
{
    walker::here(Walker { src: bytes, at })
}

// The place that it moves on to.
fn moved(bytes: &[u8], at: usize) -> usize
    ensures { result ≡ next_place bytes.now at }
{
    walker::onward(Walker { src: bytes, at }).at
}

// So many steps of a walker that holds the used bytes, from this place on.
fn steps(rt: &impl Print, shelf: &[u8], used: usize, place: usize, count: usize) -> io::Result<()> {
    let bytes = shelf::used_part(shelf, used);
    let mut at = place;
    for _ in 0..count {
        print!(rt; "  at {at}:")?;
        show_record(rt, yielded(bytes, at))?;
        at = moved(bytes, at);
    }
    Ok(())
}

// The places of a walk with plain parameters.
fn places(
    rt: &impl Print,
    shelf: &[u8],
    used: usize,
    place: usize,
    count: usize,
) -> io::Result<()> {
    let mut at = place;
    for _ in 0..count {
        print!(rt; " {at}")?;
        at = shelf::walk_next(shelf, used, at);
    }
    Ok(())
}

// A walk from record n on, of so many steps.
fn walk(rt: &impl Print, shelf: &[u8], used: usize, n: usize, count: usize) -> io::Result<()> {
    print!(rt; "walk from {n}, used {used}: ")?;
    show_part(rt, walker::first(shelf, used, n))?;
    let place = shelf::walk_begin(shelf, used, n).unwrap_or(used);
    steps(rt, shelf, used, place, count)?;
    print!(rt; "  places")?;
    places(rt, shelf, used, place, count)?;
    println!(rt)
}

// ---- the cases

// The starred records of document 01, one after another.
const STARRED: [&[u8]; 8] = [
    &[7, 0, 1, 0, 2, 0, 0xC8],
    &[8, 0, 1, 0, 3, 0, 0xE2, 0x00],
    &[8, 0, 1, 0, 3, 0, 0xD2, 0x80],
    &[8, 0, 2, 0, 1, 0, 0x80, 0xA2],
    &[8, 0, 2, 0, 2, 0, 0xC0, 0x36],
    &[8, 0, 2, 0, 2, 0, 0xA0, 0xD8],
    &[8, 0, 2, 0, 2, 0, 0xC0, 0x51],
    &[8, 0, 2, 0, 3, 0, 0xCC, 0x12],
];

fn shelve_starred(rt: &impl Print, shelf: &mut [u8]) -> io::Result<usize> {
    let mut used = 0;
    for record in STARRED {
        used = shelve(rt, record, shelf, used)?;
    }
    Ok(used)
}

// The records are shelved one by one, each with this used length.
fn shelve_each(
    rt: &impl Print,
    records: &[&[u8]],
    shelf: &mut [u8],
    used: usize,
) -> io::Result<()> {
    for record in records {
        shelve(rt, record, shelf, used)?;
    }
    Ok(())
}

// Records that are there already.
const AGAIN: [&[u8]; 4] = [
    &[7, 0, 1, 0, 2, 0, 0xC8],
    &[8, 0, 2, 0, 1, 0, 0x80, 0xA2],
    &[8, 0, 2, 0, 2, 0, 0xC0, 0x36],
    &[8, 0, 2, 0, 3, 0, 0xCC, 0x12],
];

// Refusals 1 and 2, each twice: what is wrong with the kind or the number of edges comes after.
const REFUSED_1_2: [&[u8]; 4] = [
    &[5, 0, 1, 0, 2],
    &[8, 0, 5, 0, 0, 0, 0xC8],
    &[7, 0, 0, 0, 0, 0, 0xC8],
    &[7, 0, 5, 0, 2, 0, 0xC8],
];

// Refusals 3 and 5, each twice: no edge and 4,097 edges, and lengths for other numbers of edges.
const REFUSED_3_5: [&[u8]; 4] = [
    &[7, 0, 1, 0, 0, 0, 0xC8],
    &[7, 0, 1, 0, 1, 16, 0xC8],
    &[7, 0, 1, 0, 3, 0, 0xC8],
    &[7, 0, 2, 0, 1, 0, 0x80],
];

// Refusal 14: a used length past the shelf's, one that cuts a record, and one that reaches past the records. Then 16, one byte short.
fn shelve_refused(rt: &impl Print, shelf: &mut [u8]) -> io::Result<()> {
    for used in [71, 62, 64] {
        shelve(rt, &[7, 0, 1, 0, 2, 0, 0xC8], shelf, used)?;
    }
    shelve(rt, &[8, 0, 1, 0, 3, 0, 0xE1, 0x00], shelf, 63)?;
    Ok(())
}

// Refusals met while reading: 13, also where 14 or 16 holds, and before it 7.
fn shelve_unreadable(rt: &impl Print, shelf: &mut [u8]) -> io::Result<()> {
    let unreadable = [7, 0, 1, 0, 2, 0, 0xCC];
    shelve_with(rt, &mut [0xEEEE; 64], &unreadable, shelf, 63)?;
    shelve_with(rt, &mut [0xEEEE; 63], &unreadable, shelf, 63)?;
    shelve_with(rt, &mut [0xEEEE; 63], &[7, 0, 1, 0, 2, 0, 0xC8], shelf, 71)?;
    shelve(rt, &unreadable, shelf, 71)?;
    shelve(rt, &[8, 0, 1, 0, 3, 0, 0xCC, 0xCC], shelf, 63)?;
    Ok(())
}

fn fetch_all(rt: &impl Print, shelf: &[u8]) -> io::Result<()> {
    for n in 0..8 {
        fetch(rt, shelf, 63, n)?;
    }
    Ok(())
}

// Numbers past the last record, an empty shelf, and shelves that are broken.
fn fetch_refused(rt: &impl Print, shelf: &[u8]) -> io::Result<()> {
    for (used, n) in [(63, 8), (23, 3), (0, 0), (62, 0), (71, 0)] {
        fetch(rt, shelf, used, n)?;
    }
    Ok(())
}

// Used lengths, records to begin with, and how many steps.
const WALKS: [(usize, usize, usize); 7] = [
    (63, 0, 9),
    (63, 5, 4),
    (15, 1, 2),
    (63, 8, 2),
    (0, 0, 2),
    (62, 0, 2),
    (71, 0, 2),
];

fn walk_all(rt: &impl Print, shelf: &[u8]) -> io::Result<()> {
    for (used, n, count) in WALKS {
        walk(rt, shelf, used, n, count)?;
    }
    Ok(())
}

// Steps from places where no record stands.
fn walk_nowhere(rt: &impl Print, shelf: &[u8]) -> io::Result<()> {
    println!(rt; "from places where nothing stands")?;
    for place in [3, 62, 1000] {
        steps(rt, shelf, 63, place, 2)?;
    }
    println!(rt; "the last record cut short")?;
    steps(rt, shelf, 62, 47, 3)
}

// A shelf that holds equal records: the first one's number.
fn shelve_twins(rt: &impl Print) -> io::Result<()> {
    let mut shelf = [7, 0, 1, 0, 2, 0, 0xC8, 7, 0, 1, 0, 2, 0, 0xC8];
    let used = shelve(rt, &[7, 0, 1, 0, 2, 0, 0xC8], &mut shelf, 14)?;
    fetch(rt, &shelf, used, 1)
}

// An empty shelf that the record just fills.
fn shelve_first(rt: &impl Print) -> io::Result<()> {
    let mut shelf = [0xEE; 7];
    let record = [7, 0, 1, 0, 2, 0, 0xC8];
    let used = shelve_with(rt, &mut [0xEEEE; 64], &record, &mut shelf, 0)?;
    fetch(rt, &shelf, used, 0)
}

// A lent shelf may hold a record that no plan has: it is fetched and walked over, others are put behind it, and it is not shelved again.
fn shelve_lent(rt: &impl Print) -> io::Result<()> {
    let mut shelf = [
        7, 0, 1, 0, 2, 0, 0xCC, 0xEE, 0xEE, 0xEE, 0xEE, 0xEE, 0xEE, 0xEE,
    ];
    shelve(rt, &[7, 0, 1, 0, 2, 0, 0xCC], &mut shelf, 7)?;
    let used = shelve(rt, &[7, 0, 1, 0, 2, 0, 0xC8], &mut shelf, 7)?;
    fetch(rt, &shelf, used, 0)?;
    walk(rt, &shelf, used, 0, 3)
}

fn shelve_all(rt: &impl Print, shelf: &mut [u8]) -> io::Result<()> {
    let full = shelve_starred(rt, shelf)?;
    shelve_each(rt, &AGAIN, shelf, full)?;
    shelve_each(rt, &REFUSED_1_2, shelf, full)?;
    shelve_each(rt, &REFUSED_3_5, shelf, full)?;
    shelve_refused(rt, shelf)?;
    shelve_unreadable(rt, shelf)
}

fn look(rt: &impl Print, shelf: &[u8]) -> io::Result<()> {
    print!(rt; "the shelf")?;
    show_record(rt, shelf)?;
    fetch_all(rt, shelf)?;
    fetch_refused(rt, shelf)?;
    walk_all(rt, shelf)?;
    walk_nowhere(rt, shelf)
}

// A record that just fits.
fn shelve_last(rt: &impl Print, shelf: &mut [u8]) -> io::Result<()> {
    let used = shelve(rt, &[7, 0, 4, 0, 1, 0, 0xB0], shelf, 63)?;
    fetch(rt, shelf, used, 8)
}

fn print_lines(rt: &impl Print) -> io::Result<()> {
    let mut shelf = [0xEE; 70];
    shelve_all(rt, &mut shelf)?;
    look(rt, &shelf)?;
    shelve_last(rt, &mut shelf)?;
    shelve_twins(rt)?;
    shelve_first(rt)?;
    shelve_lent(rt)
}

// Output that cannot be written is no failure, and what comes after it is still written.
fn main(rt: HostRuntime) {
    let _ = print_lines(&GoesOn(&rt));
}
