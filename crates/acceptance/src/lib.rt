//! acceptance: is a file an accepted plan file, and of how many nodes and root fields? Codes 2 to 10.
//!
//! `check` makes the arrays that a plan is read into; `check_in` is lent them, and says nothing of what they held or hold. `read_and_check` leaves an
//! accepted plan in them, for what goes on with it.
#![tactic(auto)]

ghost use Rattle.std.specs.Prelude.{true, ◌≡◌, ◌≤◌};
ghost use Rattle.rules.specs.Check.{check_file};
ghost use Rattle.acceptance.specs.Readings.{checked_of, CheckedIs, Fits, Narrow, NoneBelow, ReadingIs, Room};

use refusals::{Reason, Refusal};
use versions::Version;

/// Code 0, place 0, the number of nodes and of the root's fields; or a refusal's code and place, and 0 for both numbers. These are the four numbers
/// that the C interface gives: within the library what is said of a file is a `Result` of a `Reading`.
#[derive(Clone, Copy)]
pub struct Checked {
    pub code: u8,
    pub place: usize,
    pub nodes: usize,
    pub fields: usize,
}

/// An accepted plan: its number of nodes and of the root's fields, the offset where it starts and its version.
#[derive(Clone, Copy)]
pub struct Reading {
    pub nodes: usize,
    pub fields: usize,
    pub start: usize,
    pub version: Version,
}

impl From<Result<Reading, Refusal>> for Checked {
    ghost from_gives = { λ read checked. checked ≡ checked_of read };

    fn from(read: Result<Reading, Refusal>) -> Checked {
        match read {
            Ok(reading) => Checked {
                code: 0,
                place: 0,
                nodes: reading.nodes,
                fields: reading.fields,
            },
            Err(refusal) => Checked {
                code: refusal.code(),
                place: refusal.place,
                nodes: 0,
                fields: 0,
            },
        }
    }
}

/// A file's plan, read into the lent arrays and accepted, with the keys of its tables in their slots; or a refusal. The arrays are long enough for every plan file of the file's version: see
/// `reader::read_file` and `accept::accept_node`.
pub fn read_and_check(
    file: &[u8],
    cells: &mut [u64],
    rows: &mut [u16],
    nodes: &mut [u64],
    names: &mut [u16],
    fields: &mut [u16],
    widths: &mut [u64],
    keys: &mut [u64],
) -> Result<Reading, Refusal>
    requires { Room file.now cells.old rows.old nodes.old names.old fields.old widths.old keys.old }
    ensures { ReadingIs file.now cells.new rows.new nodes.new fields.new widths.new keys.new result }
{
    let read = reader::read_file(file, cells, rows, nodes, names, keys)?;
    accept::accept_node(
        cells,
        rows,
        nodes,
        read.nodes,
        names,
        read.tables,
        read.version,
        fields,
        widths,
        0,
        0,
    )?;
    Ok(Reading {
        nodes: read.nodes,
        fields: widths[0] as usize,
        start: read.start,
        version: read.version,
    })
}

/// What is said of a file, worked out in lent arrays.
pub fn check_in(
    file: &[u8],
    cells: &mut [u64; 12288],
    rows: &mut [u16; 1065088],
    nodes: &mut [u64; 1792],
    names: &mut [u16; 8208],
    fields: &mut [u16; 262144],
    widths: &mut [u64; 512],
    keys: &mut [u64; 2448],
) -> Checked
    ensures { CheckedIs (check_file file.now) result }
{
    Checked::from(read_and_check(file, cells, rows, nodes, names, fields, widths, keys))
}

// The same in arrays of its own, of so many numbers of rows and of fields.
fn check_with<const ROWS: usize, const FIELDS: usize>(file: &[u8]) -> Checked
    requires fits { Fits file.now ROWS FIELDS }
    requires few { (ROWS ≤ 1065088) × (FIELDS ≤ 262144) }
    ensures { CheckedIs (check_file file.now) result }
{
    let mut cells = [0u64; 12288];
    let mut rows = [0u16; ROWS];
    let mut nodes = [0u64; 1792];
    let mut names = [0u16; 8208];
    let mut fields = [0u16; FIELDS];
    let mut widths = [0u64; 512];
    let mut keys = [0u64; 2448];
    Checked::from(read_and_check(
        file,
        &mut cells,
        &mut rows,
        &mut nodes,
        &mut names,
        &mut fields,
        &mut widths,
        &mut keys,
    ))
}

/// Are 128 fields a node enough for the file, by its version? So smaller arrays are, too.
pub fn is_narrow(file: &[u8]) -> bool
    ensures { result ≡ true → Narrow file.now }
{
    let version = reader::version_at(file);
    version.fields <= 128
}

// What is said of a file, in the arrays that its version needs: versions are tried in turn, from this number on. The compiler puts no large arrays
// of other functions into the frame of one that calls itself, so that the arrays of a version are on the stack for its own files alone.
fn check_from(file: &[u8], number: u64) -> Checked
    requires { NoneBelow file.now number }
    ensures { CheckedIs (check_file file.now) result }
{
    if number > 2 {
        return Checked::from(Err(Refusal::new(Reason::Mark, 0)));
    }
    if reader::has_mark(file, number) {
        if number == 1 {
            return check_with::<278656, 65536>(file);
        }
        return check_with::<1065088, 262144>(file);
    }
    check_from(file, number + 1)
}

/// Is the file an accepted plan file? Its number of nodes and of root fields, or a refusal: 2 to 10 of document 01. The arrays are chosen by the
/// file's version.
pub fn check(file: &[u8]) -> Checked
    ensures { CheckedIs (check_file file.now) result }
{
    check_from(file, 1)
}
