#![tactic(auto)]

// The calls as exported C functions. Numbers and slices go over as they are, a slice as pointer and length, a table by value; an answer's values go out
// through references to numbers. Each function is total: any content and any length of what is lent. Nothing is worked out here: each call is that of a
// crate below.
ghost use Rattle.std.specs.Prelude.{◌≡◌, ◌*◌, length, take};
ghost use Rattle.model.specs.Groups.{standard_table};
ghost use Rattle.model.specs.Calls.{Loads};
ghost use Rattle.model.specs.ShelfWalk.{record_at, Begun};
ghost use Rattle.model.specs.Exports.{WriteExport, ReadExport, MeasureExport, ShelveExport, FetchExport, length_for};

use model::Table;

// ---- sizes

// The length of a record of this kind with so many trails; 0 if there is none, and in kind 3, where the trails do not fix it.
#[unsafe(no_mangle)]
pub extern "C" fn jurnadel_record_length(kind: u16, trails: u16) -> u16
    ensures { result ≡ length_for kind trails }
{
    sizes::record_length(kind, trails).unwrap_or(0)
}

// The work area, in 16-bit numbers, for so many trails.
#[unsafe(no_mangle)]
pub extern "C" fn jurnadel_work_length(trails: u16) -> usize
    ensures { result ≡ 32 * trails }
{
    sizes::work_length(trails)
}

// ---- group tables

// The table of these bytes. Its refusal goes to `refusal`, 0 if none; refused, the table is zeros, and every call refuses it.
#[unsafe(no_mangle)]
pub extern "C" fn jurnadel_load_table(bytes: &[u8], refusal: &mut u16) -> Table
    ensures { Loads bytes.now result refusal.new }
{
    match tables::load(bytes) {
        Ok(loaded) => {
            *refusal = 0;
            loaded
        }
        Err(refused) => {
            *refusal = refused.into();
            tables::no_table()
        }
    }
}

// The table under which a group's byte is its value.
#[unsafe(no_mangle)]
pub extern "C" fn jurnadel_standard_table() -> Table
    ensures { result ≡ standard_table }
{
    tables::standard()
}

// ---- plans and records

// The record's length goes to `length`, 0 if refused; of refusal 10 the characteristic to `characteristic`, else 0.
#[unsafe(no_mangle)]
pub extern "C" fn jurnadel_write(
    table: Table,
    order: &[u16],
    start: u16,
    outside: u16,
    kind: u16,
    work: &mut [u16],
    output: &mut [u8],
    length: &mut u16,
    characteristic: &mut i32,
) -> u16
    ensures { WriteExport table kind (record { rotation = order.now; root = start; outside = outside }) work.old output.old result length.new characteristic.new work.new output.new }
{
    let answer = writing::write(table, order, start, outside, kind, work, output);
    outcomes::counted(answer, length, characteristic)
}

// The plan in its standard numbering goes to the first entries of `order`, the number of its trails to `trails`, and the lowest dart of the outside area to
// `outside`; both are 0 if refused.
#[unsafe(no_mangle)]
pub extern "C" fn jurnadel_read(
    table: Table,
    record: &[u8],
    work: &mut [u16],
    order: &mut [u16],
    trails: &mut u16,
    outside: &mut u16,
) -> u16
    ensures { ReadExport table «record».now work.old order.old result trails.new outside.new work.new order.new }
{
    let answer = reading::read(table, record, work, order);
    outcomes::read_back(answer, trails, outside)
}

// How many darts each area has goes to the first entries of `list`, areas in the order of their lowest dart, and the number of areas to `count`, 0 if
// refused; of refusal 10 the characteristic to `characteristic`, else 0.
#[unsafe(no_mangle)]
pub extern "C" fn jurnadel_area_lengths(
    order: &[u16],
    work: &mut [u16],
    list: &mut [u16],
    count: &mut u16,
    characteristic: &mut i32,
) -> u16
    ensures { MeasureExport order.now work.old list.old result count.new characteristic.new work.new list.new }
{
    let answer = measuring::measure(order, work, list);
    outcomes::counted(answer, count, characteristic)
}

// ---- the shelf

// The record is read first. Its number goes to `number`, 0 if refused; the used length to `new_used`, `used` if refused.
#[unsafe(no_mangle)]
pub extern "C" fn jurnadel_shelve(
    table: Table,
    record: &[u8],
    work: &mut [u16],
    shelf: &mut [u8],
    used: usize,
    number: &mut usize,
    new_used: &mut usize,
) -> u16
    ensures { ShelveExport table «record».now work.old shelf.old used result number.new new_used.new work.new shelf.new }
{
    let answer = shelving::shelve(table, record, work, shelf, used);
    outcomes::shelved(answer, used, number, new_used)
}

// Where the record stands goes to `at` and its length to `length`; both 0 if refused.
#[unsafe(no_mangle)]
pub extern "C" fn jurnadel_fetch(
    shelf: &[u8],
    used: usize,
    number: usize,
    at: &mut usize,
    length: &mut usize,
) -> u16
    ensures { FetchExport shelf.now used number result at.new length.new }
{
    match shelf::walk_begin(shelf, used, number) {
        Ok(begin) => {
            *at = begin;
            *length = shelf::walk_length(shelf, used, begin);
            0
        }
        Err(refusal) => {
            *at = 0;
            *length = 0;
            refusal.into()
        }
    }
}

// The place of the record, with which a walk begins, goes to `at`; the used length, where no record is left, if refused.
#[unsafe(no_mangle)]
pub extern "C" fn jurnadel_walk_begin(
    shelf: &[u8],
    used: usize,
    number: usize,
    at: &mut usize,
) -> u16
    ensures { Begun shelf.now used number at.new result }
{
    match shelf::walk_begin(shelf, used, number) {
        Ok(place) => {
            *at = place;
            0
        }
        Err(refusal) => {
            *at = used;
            refusal.into()
        }
    }
}

// The length of the record that stands at this place of the used bytes; 0 if none is left there, or none that passes 1, 2, 3 and 5.
#[unsafe(no_mangle)]
pub extern "C" fn jurnadel_walk_step(shelf: &[u8], used: usize, at: usize) -> usize
    ensures { result ≡ length (record_at (take used shelf.now) at) }
{
    shelf::walk_length(shelf, used, at)
}
