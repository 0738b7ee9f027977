#![tactic(auto)]

// Writes and measures the plans that documents 01 and 02 leave to a run, plans at their limits and plans that are refused, and prints each answer on a line:
// the refusal; or the record's length and its bytes, of a long record a checksum; or the number of areas and their lengths, of many their sum. The file stdout
// has what it must write; tests/cases.py holds it to the second coder.
ghost use Rattle.std.specs.Prelude.{◌≤◌, length};

use model::Refusal;
use printing::GoesOn;
use std::{array, io};

// The longest work area, output and list that a case may have.
const WORK: usize = 131072;

const OUTPUT: usize = 2056;

const LIST: usize = 4097;

// ---- printing

// The bytes as a number in base 31, modulo 65,521.
fn checksum(bytes: &[u8]) -> u16 {
    bytes.iter().fold(
        0,
        |sum, byte| ((31 * u32::from(sum) + u32::from(*byte)) % 65521) as u16,
    )
}

fn show_record(rt: &impl Print, n: u16, out: &[u8]) -> io::Result<()> {
    let record = &out[..out.len().min(usize::from(n))];
    if n > 16 {
        return println!(rt; "length {n}, checksum {}", checksum(record));
    }
    print!(rt; "length {n}, bytes")?;
    for byte in record {
        print!(rt; " {byte:02X}")?;
    }
    println!(rt)
}

fn show_refusal(rt: &impl Print, refusal: Refusal) -> io::Result<()> {
    if let Refusal::NotPlanar(x) = refusal {
        let value = if x == 0 { "0" } else { "not 0" };
        return println!(rt; "{refusal}, characteristic {value}");
    }
    println!(rt; "{refusal}")
}

fn show_written(rt: &impl Print, answer: Result<u16, Refusal>, out: &[u8]) -> io::Result<()> {
    match answer {
        Ok(n) => show_record(rt, n, out),
        Err(refusal) => show_refusal(rt, refusal),
    }
}

fn total(lengths: &[u16]) -> u32
    requires { length lengths.now ≤ 65535 }
{
    lengths.iter().map(|length| u32::from(*length)).sum()
}

fn show_areas(rt: &impl Print, n: u16, list: &[u16]) -> io::Result<()> {
    let lengths = &list[..list.len().min(usize::from(n))];
    if n > 16 {
        return println!(rt; "areas {n}, sum {}", total(lengths));
    }
    print!(rt; "areas {n}, lengths")?;
    for length in lengths {
        print!(rt; " {length}")?;
    }
    println!(rt)
}

fn show_measured(rt: &impl Print, answer: Result<u16, Refusal>, list: &[u16]) -> io::Result<()> {
    match answer {
        Ok(n) => show_areas(rt, n, list),
        Err(refusal) => show_refusal(rt, refusal),
    }
}

// ---- writing and measuring

// A plan to write, with a work area and an output of these lengths.
#[derive(Clone, Copy)]
struct Case<'a> {
    name: &'a str,
    order: &'a [u16],
    root: u16,
    outside: u16,
    work: usize,
    output: usize,
    ghost work_fits: { work ≤ 131072 },
    ghost output_fits: { output ≤ 2056 },
}

impl<'a> Case<'a> {
    // Written from dart 0, with the work area that it needs. The outside may be any number in a kind without it.
    fn new(name: &'a str, order: &'a [u16]) -> Case<'a> {
        Case {
            name,
            order,
            root: 0,
            outside: 65535,
            work: 32 * order.len().div_ceil(2).min(4096),
            output: OUTPUT,
        }
    }

    fn root(mut self, root: u16) -> Case<'a> {
        self.root = root;
        self
    }

    // With this outside, and all the room that a plan may need.
    fn outside(mut self, outside: u16) -> Case<'a> {
        self.outside = outside;
        self.work = WORK;
        self
    }

    fn work(mut self, work: usize) -> Case<'a>
        requires { work ≤ 131072 }
    {
        self.work = work;
        self
    }

    fn output(mut self, output: usize) -> Case<'a>
        requires { output ≤ 2056 }
    {
        self.output = output;
        self
    }

    fn write(self, rt: &impl Print, kind: u16) -> io::Result<()> {
        let mut work = [7; WORK];
        let mut out = [9; OUTPUT];
        let answer = writing::write(
            tables::standard(),
            self.order,
            self.root,
            self.outside,
            kind,
            &mut work[..self.work],
            &mut out[..self.output],
        );
        print!(rt; "{}, kind {kind}: ", self.name)?;
        show_written(rt, answer, &out[..self.output])
    }

    fn write_each(self, rt: &impl Print, kinds: &[u16]) -> io::Result<()> {
        for kind in kinds {
            self.write(rt, *kind)?;
        }
        Ok(())
    }
}

// The plan is measured, with a work area and a list of these lengths.
fn measure(rt: &impl Print, name: &str, order: &[u16], room: usize, space: usize) -> io::Result<()>
    requires { (room ≤ 131072) × (space ≤ 4097) }
{
    let mut work = [7; WORK];
    let mut list = [9; LIST];
    let answer = measuring::measure(order, &mut work[..room], &mut list[..space]);
    print!(rt; "{name}: ")?;
    show_measured(rt, answer, &list[..space])
}

// ---- large plans

// Of each dart the one so many places further: `even` from an even one, `odd` from an odd one.
fn turning<const N: usize>(even: usize, odd: usize) -> [u16; N]
    requires { (N ≤ 8194) × (even ≤ 8192) × (odd ≤ 8192) }
{
    array::from_fn(|dart| ((dart + if dart % 2 == 0 { even } else { odd }) % 8192) as u16)
}

fn ring() -> [u16; 8192] {
    turning(8191, 1)
}

fn star() -> [u16; 8192] {
    turning(2, 0)
}

fn loops() -> [u16; 8192] {
    turning(1, 1)
}

// ---- the cases

fn small(rt: &impl Print) -> io::Result<()> {
    Case::new("order 1 0", &[1, 0]).write_each(rt, &[1, 2])?;
    Case::new("order 0 1", &[0, 1]).write_each(rt, &[1, 2])?;
    Case::new("order 0 1 2 3", &[0, 1, 2, 3]).write(rt, 2)?;
    Case::new("order 3 2 4 5 1 0", &[3, 2, 4, 5, 1, 0]).write(rt, 2)
}

// The car-park spur, from each of its starts.
fn spur(rt: &impl Print) -> io::Result<()> {
    let order = [0, 2, 5, 4, 3, 1];
    let names = [
        "order 0 2 5 4 3 1",
        "order 0 2 5 4 3 1, start 1",
        "order 0 2 5 4 3 1, start 2",
        "order 0 2 5 4 3 1, start 3",
        "order 0 2 5 4 3 1, start 4",
        "order 0 2 5 4 3 1, start 5",
    ];
    for (root, name) in (0..6).zip(names) {
        Case::new(name, &order).root(root).write(rt, 1)?;
    }
    Ok(())
}

// Any planar plan, with loops and dead ends.
fn any_plan(rt: &impl Print) -> io::Result<()> {
    let cases = [
        Case::new("order 1 0", &[1, 0]),
        Case::new("order 0 1", &[0, 1]),
        Case::new("order 5 2 1 4 3 0", &[5, 2, 1, 4, 3, 0]),
        Case::new("order 5 2 4 0 1 3", &[5, 2, 4, 0, 1, 3]),
        Case::new("order 0 2 5 4 3 1", &[0, 2, 5, 4, 3, 1]),
        Case::new("order 0 1 2 3", &[0, 1, 2, 3]),
        Case::new("order 3 2 4 5 1 0", &[3, 2, 4, 5, 1, 0]),
    ];
    for case in cases {
        case.write(rt, 4)?;
    }
    Ok(())
}

// Meshes: the triangle, and the four of six trails.
fn meshes(rt: &impl Print) -> io::Result<()> {
    let triangle = [5, 2, 1, 4, 3, 0];
    Case::new("order 5 2 1 4 3 0", &triangle).write(rt, 3)?;
    Case::new("order 5 2 1 4 3 0, start 3", &triangle)
        .root(3)
        .write(rt, 3)?;
    let six = [11, 2, 6, 4, 3, 0, 8, 5, 1, 10, 9, 7];
    Case::new("order 11 2 6 4 3 0 8 5 1 10 9 7", &six).write(rt, 3)?;
    let six = [9, 2, 11, 4, 6, 0, 3, 8, 10, 5, 7, 1];
    Case::new("order 9 2 11 4 6 0 3 8 10 5 7 1", &six).write(rt, 3)?;
    let six = [11, 2, 1, 4, 6, 0, 10, 8, 7, 5, 3, 9];
    Case::new("order 11 2 1 4 6 0 10 8 7 5 3 9", &six).write(rt, 3)?;
    let six = [5, 2, 11, 4, 6, 0, 8, 1, 3, 10, 9, 7];
    Case::new("order 5 2 11 4 6 0 8 1 3 10 9 7", &six).write(rt, 3)
}

// Plans that are no meshes; 8 comes after all other refusals.
fn no_meshes(rt: &impl Print) -> io::Result<()> {
    let cases = [
        Case::new("order 0 1, output 0", &[0, 1]),
        Case::new("order 1 0, output 0", &[1, 0]),
        Case::new("order 5 2 4 0 1 3, output 0", &[5, 2, 4, 0, 1, 3]),
        Case::new("order 0 1 2 3, output 0", &[0, 1, 2, 3]),
        Case::new("order 3 2 4 5 1 0, output 0", &[3, 2, 4, 5, 1, 0]),
    ];
    for case in cases {
        case.output(0).write(rt, 3)?;
    }
    Ok(())
}

fn short_mesh(rt: &impl Print) -> io::Result<()> {
    let triangle = [5, 2, 1, 4, 3, 0];
    Case::new("order 5 2 1 4 3 0, work area 95", &triangle)
        .work(95)
        .output(0)
        .write(rt, 3)?;
    Case::new("order 5 2 1 4 3 0, output 7", &triangle)
        .output(7)
        .write(rt, 3)?;
    Case::new("order 5 2 1 4 3 0, output 8", &triangle)
        .output(8)
        .write(rt, 3)
}

fn refused(rt: &impl Print) -> io::Result<()> {
    Case::new("order 0 1", &[0, 1]).write_each(rt, &[0, 5])?;
    Case::new("order 0", &[0]).write(rt, 2)?;
    Case::new("order 0 1 2", &[0, 1, 2]).write(rt, 2)?;
    Case::new("order 0 1, start 2", &[0, 1])
        .root(2)
        .write(rt, 2)?;
    Case::new("order 1 1", &[1, 1]).write(rt, 2)?;
    Case::new("order 0 2", &[0, 2]).write(rt, 2)
}

fn short(rt: &impl Print) -> io::Result<()> {
    let pair = [3, 2, 1, 0];
    Case::new("order 3 2 1 0, work area 63", &pair)
        .work(63)
        .write(rt, 1)?;
    Case::new("order 3 2 1 0, output 6", &pair)
        .output(6)
        .write(rt, 1)?;
    Case::new("order 3 2 1 0, output 7", &pair)
        .output(7)
        .write(rt, 1)?;
    Case::new("order 1 0, output 6", &[1, 0])
        .output(6)
        .write(rt, 4)?;
    Case::new("order 1 0, output 7", &[1, 0])
        .output(7)
        .write(rt, 4)?;
    Case::new("order of length 0", &[]).work(32).write(rt, 2)
}

fn counts(rt: &impl Print) -> io::Result<()> {
    let loose: [u16; 8192] = turning(0, 0);
    let longer: [u16; 8194] = turning(0, 0);
    Case::new("8192 darts, work area 0", &loose)
        .work(0)
        .write(rt, 1)?;
    Case::new("8194 darts, work area 0", &longer)
        .work(0)
        .write(rt, 1)?;
    Case::new("8192 darts, each loose", &loose).write(rt, 2)
}

fn large(rt: &impl Print) -> io::Result<()> {
    Case::new("ring of 4096 trails", &ring()).write_each(rt, &[1, 2, 4])?;
    Case::new("star of 4096 trails", &star()).write_each(rt, &[1, 2, 4])?;
    Case::new("loops of 4096 trails", &loops()).write_each(rt, &[2, 4])
}

// The outside of the sheet.
fn outsides(rt: &impl Print) -> io::Result<()> {
    let triangle = [5, 2, 1, 4, 3, 0];
    Case::new("order 5 2 1 4 3 0, outside 0", &triangle)
        .outside(0)
        .write(rt, 0x101)?;
    Case::new("order 5 2 1 4 3 0, outside 1", &triangle)
        .outside(1)
        .write(rt, 0x101)?;
    Case::new("order 5 2 1 4 3 0, start 1, outside 0", &triangle)
        .root(1)
        .outside(0)
        .write(rt, 0x101)?;
    let spur = [0, 2, 5, 4, 3, 1];
    Case::new("order 0 2 5 4 3 1, outside 2", &spur)
        .outside(2)
        .write(rt, 0x101)?;
    Case::new("order 0 2 5 4 3 1, outside 3", &spur)
        .outside(3)
        .write(rt, 0x101)
}

// The same in other kinds, and in one that ignores it.
fn outsides_of_kinds(rt: &impl Print) -> io::Result<()> {
    Case::new("order 4 2 1 0 3 5, outside 1", &[4, 2, 1, 0, 3, 5])
        .outside(1)
        .write(rt, 0x102)?;
    Case::new("order 0 1, outside 1", &[0, 1])
        .outside(1)
        .write(rt, 0x102)?;
    Case::new("order 2 1 0 3, start 1, outside 0", &[2, 1, 0, 3])
        .root(1)
        .outside(0)
        .write(rt, 0x102)?;
    Case::new("order 1 0, outside 0", &[1, 0])
        .outside(0)
        .write(rt, 0x104)?;
    Case::new("order 1 0, outside 1", &[1, 0])
        .outside(1)
        .write(rt, 0x104)?;
    Case::new("order 5 2 1 4 3 0, outside 6", &[5, 2, 1, 4, 3, 0])
        .outside(6)
        .write(rt, 1)
}

// Refusal 17, and those before and behind it.
fn no_outside(rt: &impl Print) -> io::Result<()> {
    let triangle = [5, 2, 1, 4, 3, 0];
    Case::new("order 5 2 1 4 3 0, outside 6", &triangle)
        .outside(6)
        .write(rt, 0x101)?;
    Case::new("order 5 2 1 4 3 0, start 6, outside 6", &triangle)
        .root(6)
        .outside(6)
        .write(rt, 0x104)?;
    Case::new("order 1 1, outside 2", &[1, 1])
        .outside(2)
        .write(rt, 0x104)?;
    Case::new("order 1 1, outside 1", &[1, 1])
        .outside(1)
        .write(rt, 0x104)?;
    Case::new("order 1 0, outside 0", &[1, 0])
        .outside(0)
        .write(rt, 0x101)?;
    Case::new("order 0 1, outside 0", &[0, 1])
        .outside(0)
        .write_each(rt, &[0x101, 0x103])
}

fn short_with_outside(rt: &impl Print) -> io::Result<()> {
    let order = [1, 0];
    Case::new("order 1 0, outside 2, work area 0, output 0", &order)
        .outside(2)
        .work(0)
        .output(0)
        .write(rt, 0x102)?;
    Case::new("order 1 0, outside 1, output 8", &order)
        .outside(1)
        .work(32)
        .output(8)
        .write(rt, 0x104)?;
    Case::new("order 1 0, outside 1, output 9", &order)
        .outside(1)
        .work(32)
        .output(9)
        .write(rt, 0x104)
}

fn large_outsides(rt: &impl Print) -> io::Result<()> {
    Case::new("ring of 4096 trails, outside 1", &ring())
        .outside(1)
        .write_each(rt, &[0x101, 0x102, 0x104])?;
    Case::new("loops of 4096 trails, outside 8191", &loops())
        .outside(8191)
        .write(rt, 0x104)
}

// How long each area is.
fn areas(rt: &impl Print) -> io::Result<()> {
    measure(rt, "order 5 2 1 4 3 0", &[5, 2, 1, 4, 3, 0], 96, LIST)?;
    measure(rt, "order 0 1", &[0, 1], 32, LIST)?;
    measure(rt, "order 1 0", &[1, 0], 32, LIST)?;
    measure(rt, "order 0 2 5 4 3 1", &[0, 2, 5, 4, 3, 1], 96, LIST)?;
    measure(rt, "order 4 2 1 0 3 5", &[4, 2, 1, 0, 3, 5], 96, LIST)
}

// Refusals 3, 6, 7, 9, 10, then 8.
fn no_areas(rt: &impl Print) -> io::Result<()> {
    let triangle = [5, 2, 1, 4, 3, 0];
    measure(rt, "order 0, work area 0, list 0", &[0], 0, 0)?;
    measure(rt, "order 1 1, work area 0, list 0", &[1, 1], 0, 0)?;
    measure(
        rt,
        "order 5 2 1 4 3 0, work area 95, list 0",
        &triangle,
        95,
        0,
    )?;
    measure(rt, "order 0 1 2 3, list 0", &[0, 1, 2, 3], 64, 0)?;
    measure(rt, "order 3 2 4 5 1 0, list 0", &[3, 2, 4, 5, 1, 0], 96, 0)?;
    measure(rt, "order 5 2 1 4 3 0, list 1", &triangle, 96, 1)?;
    measure(rt, "order 5 2 1 4 3 0, list 2", &triangle, 96, 2)
}

fn large_areas(rt: &impl Print) -> io::Result<()> {
    measure(rt, "ring of 4096 trails", &ring(), WORK, 2)?;
    measure(rt, "star of 4096 trails", &star(), WORK, 1)?;
    measure(rt, "loops of 4096 trails", &loops(), WORK, LIST)?;
    measure(rt, "loops of 4096 trails, list 4096", &loops(), WORK, 4096)
}

fn print_written(rt: &impl Print) -> io::Result<()> {
    small(rt)?;
    spur(rt)?;
    any_plan(rt)?;
    meshes(rt)?;
    no_meshes(rt)?;
    short_mesh(rt)?;
    refused(rt)?;
    short(rt)?;
    counts(rt)?;
    large(rt)?;
    outsides(rt)?;
    outsides_of_kinds(rt)?;
    no_outside(rt)?;
    short_with_outside(rt)?;
    large_outsides(rt)
}

fn print_lines(rt: &impl Print) -> io::Result<()> {
    print_written(rt)?;
    areas(rt)?;
    no_areas(rt)?;
    large_areas(rt)
}

// Output that cannot be written is no failure, and what comes after it is still written.
fn main(rt: HostRuntime) {
    let _ = print_lines(&GoesOn(&rt));
}
