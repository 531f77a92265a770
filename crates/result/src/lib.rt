//! result: how a rewritten plan stands in the lent arrays.
//!
//! A record of `records` is four numbers (form, old node, first input, second input) and a set, as `RequiredIndices` stores it. Its inputs are records before
//! it. What a record stands for is `result_at` of specs/Result.antt.
#![tactic(auto)]

ghost use Rattle.std.specs.Prelude.{◌≡◌, false, ◌+◌, ◌*◌, ◌≤◌, ◌<◌, length};
ghost use Rattle.cpl.specs.Limits.{max_nodes};
ghost use Rattle.required_indices.specs.Request.{Holds, set_of, words_n};
ghost use Rattle.result.specs.Result.{record_n, set_at};
ghost use Rattle.result.specs.Records.{record_at, Appended, PushedIs, Stored};

use arena::Full;
use required_indices::{RequiredIndices, WORDS};

// The numbers of a record: four, and a set as it is stored. `record_n` of specs/Result.antt is the same.
const RECORD: usize = 4 + 1 + WORDS;

// The most nodes of a plan.
const RECORDS: usize = 256;

/// What a record stands for: an old node with the part of its list that the record's set has, over the records of its inputs; the columns
/// of an old node's fields at the set; items of the result's own rows; the one-row Empty with no fields.
#[derive(Clone, Copy)]
pub enum Record {
    Kept {
        old: usize,
        first: usize,
        second: usize,
    },
    Columns {
        old: usize,
        first: usize,
    },
    Items {
        row: usize,
        count: usize,
        first: usize,
    },
    Nothing,
}

/// Record `i`, taken apart. It lies in the array. Forms are told apart here and nowhere else.
pub fn record_at(records: &[u64], i: usize) -> Record
    requires { i * record_n + record_n ≤ length records.now }
    ensures { result ≡ record_at records.now i }
{
    let at = i * RECORD;
    let form = records[at];
    let old = records[at + 1] as usize;
    let first = records[at + 2] as usize;
    let second = records[at + 3] as usize;
    match form {
        0 => Record::Kept { old, first, second },
        1 => Record::Columns { old, first },
        2 => Record::Items {
            row: old,
            count: second,
            first,
        },
        _ => Record::Nothing,
    }
}

/// The set of record `i`, which lies in the array.
pub fn set_at(records: &[u64], i: usize) -> RequiredIndices
    requires { i * record_n + record_n ≤ length records.now }
    ensures { Holds result (set_at records.now i) false }
{
    RequiredIndices::load(records, i * RECORD + 4)
}

// The four numbers and the set of record `i`, which lies in the array. A form is a number, as it stands in a word of the lent array.
fn put_record(
    records: &mut [u64],
    i: usize,
    form: u64,
    old: usize,
    first: usize,
    second: usize,
    set: &RequiredIndices,
)
    requires record_n_in_bounds { i * record_n + record_n ≤ length records.old }
    requires lent { length set.now.indices ≡ words_n }
    ensures { Stored records.old records.new i form old first second (set_of set.now) }
{
    let at = i * RECORD;
    records[at] = form;
    records[at + 1] = old as u64;
    records[at + 2] = first as u64;
    records[at + 3] = second as u64;
    set.store(records, at + 4);
}

/// A record with its set, appended to the first `used`: its number, or `Full` where all 256 are used.
pub fn push_record(
    records: &mut [u64],
    used: usize,
    node: Record,
    set: &RequiredIndices,
) -> Result<usize, Full>
    requires record_n_in_bounds { max_nodes * record_n ≤ length records.old }
    requires lent { length set.now.indices ≡ words_n }
    ensures { PushedIs records.old records.new used node (set_of set.now) result }
{
    if used >= RECORDS {
        return Err(Full);
    }
    match node {
        Record::Kept { old, first, second } => {
            put_record(records, used, 0, old, first, second, set);
        }
        Record::Columns { old, first } => put_record(records, used, 1, old, first, 0, set),
        Record::Items { row, count, first } => put_record(records, used, 2, row, first, count, set),
        Record::Nothing => put_record(records, used, 3, 0, 0, 0, set),
    }
    Ok(used)
}
