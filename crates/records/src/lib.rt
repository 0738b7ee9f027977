#![tactic(auto)]

// Bytes that are records end to end: where each stands and how many there are. Only the heads are looked at; a record is known by two laws alone
// (heads, `Head.antt`): it is as long as its length field says, and 6 bytes or longer.
ghost use Rattle.std.specs.Prelude.{◌≡◌, ◌≢◌, true, ◌<◌, length, unwrap_or, IfSome};
ghost use Rattle.model.specs.Shelf.{records_in, end_to_end};
ghost use Rattle.model.specs.ShelfWalk.{record_at, place_of_record};
ghost use Rattle.records.specs.Count.{count_of};
ghost use Rattle.model.specs.Parts.{CutOut};

// The length of the record that stands at this place; none if none that passes does.
pub fn length_at(bytes: &[u8], at: usize) -> Option<usize>
    ensures length { unwrap_or result 0 ≡ length (record_at bytes.now at) }
    ensures some { IfSome result (λ l. l ≢ 0) }
{
    if at > bytes.len() {
        return None;
    }
    let left = bytes.len() - at;
    if left < 6 {
        return None;
    }
    let length = heads::field(bytes, at) as usize;
    if length > left {
        return None;
    }
    if heads::parse(&bytes[at..at + length]).is_err() {
        return None;
    }
    Some(length)
}

// How many records these bytes are end to end; none if they are not.
pub fn count(bytes: &[u8]) -> Option<usize>
    ensures { result ≡ count_of bytes.now }
{
    let mut at = 0;
    let mut n = 0;
    while at < bytes.len() {
        at += length_at(bytes, at)?;
        n += 1;
    }
    Some(n)
}

// The record that stands at this place, as the caller's own part of the bytes; empty if none that passes does.
pub fn record_at<'a>(bytes: &'a [u8], at: usize) -> &'a [u8]
    ensures { CutOut bytes.entry at result }
{
    match length_at(bytes, at) {
        None => &bytes[0..0],
        Some(length) => &bytes[at..at + length],
    }
}

// The place of record n.
pub fn place(bytes: &[u8], n: usize) -> usize
    requires { (end_to_end bytes.now ≡ true) × (n < length (records_in bytes.now)) }
    ensures { result ≡ place_of_record (records_in bytes.now) n }
{
    let mut at = 0;
    for _ in 0..n {
        at += heads::field(bytes, at) as usize;
    }
    at
}
