#![tactic(auto)]

// The definitions of document 01, in specs/, and the refusals, the values that calls return and the group table, which those definitions speak of. What the calls
// do is in the crates above, and their contracts cite these definitions.
ghost use Rattle.std.specs.Prelude.{◌≡◌};
ghost use Rattle.model.specs.Refusals.{number_of_refusal};

use std::error::Error;
use std::fmt;

// A refusal of documents 01 and 02, in the order of their numbers.
#[derive(Clone, Copy, Debug, PartialEq, Eq)]
pub enum Refusal {
    RecordCut,
    BadKind,
    BadCount,
    BadStart,
    BadLength,
    BadEntry,
    ShortWork,
    ShortOutput,
    NotConnected,
    NotPlanar(i32), // with the characteristic
    HasLoop,
    HasDegreeOne,
    NoFitPlan,
    ShelfBroken,
    NoSuchRecord,
    ShelfFull,
    BadOutside,
    NotTriangles,
    BadTable,
}

impl From<Refusal> for u16 {
    ghost from_gives = { λ refusal n. n ≡ number_of_refusal refusal };

    fn from(refusal: Refusal) -> u16 {
        match refusal {
            Refusal::RecordCut => 1,
            Refusal::BadKind => 2,
            Refusal::BadCount => 3,
            Refusal::BadStart => 4,
            Refusal::BadLength => 5,
            Refusal::BadEntry => 6,
            Refusal::ShortWork => 7,
            Refusal::ShortOutput => 8,
            Refusal::NotConnected => 9,
            Refusal::NotPlanar(_) => 10,
            Refusal::HasLoop => 11,
            Refusal::HasDegreeOne => 12,
            Refusal::NoFitPlan => 13,
            Refusal::ShelfBroken => 14,
            Refusal::NoSuchRecord => 15,
            Refusal::ShelfFull => 16,
            Refusal::BadOutside => 17,
            Refusal::NotTriangles => 18,
            Refusal::BadTable => 19,
        }
    }
}

impl fmt::Display for Refusal {
    fn fmt<W: fmt::Write>(&self, f: &mut fmt::Formatter<W>) -> fmt::Result {
        write!(f, "refusal {}", u16::from(*self))
    }
}

impl Error for Refusal {}

// What reading returns: the number of edges and the lowest dart of the outer face.
#[derive(Clone, Copy, Debug, PartialEq, Eq)]
pub struct ReadBack {
    pub edges: u16,
    pub outside: u16,
}

// What shelving returns: the record's number and the new used length.
#[derive(Clone, Copy, Debug, PartialEq, Eq)]
pub struct Shelved {
    pub number: usize,
    pub used: usize,
}

// A group table: the byte for each group value, and the inverse: for each byte its group value, 243 if it has none.
#[repr(C)]
#[derive(Clone, Copy)]
pub struct Table {
    pub bytes: [u8; 243],
    pub inverse: [u8; 256],
}
