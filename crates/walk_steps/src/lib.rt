//! walk_steps: what the walk does at one node, without its calls of itself: a step of merging, the kept items of a list, top-up, the node over its
//! rewritten inputs, the list over its rewritten input. Parts of `optimize_projections/mod.rs`.
//!
//! The old plan, its fields and the rewritten plan stand in lent arrays as in crates `tree`, `lookup` and `result`.
#![tactic(auto)]

ghost use Rattle.std.specs.Prelude.{Bool, ◌≡◌, ◌*◌, ◌^◌, ◌<◌, ◌≤◌, length};
ghost use Rattle.cpl.specs.Limits.{max_nodes};
ghost use Rattle.required_indices.specs.Request.{set_of};
ghost use Rattle.arena.specs.Rows.{items_at, RowsOk};
ghost use Rattle.lookup.specs.Fields.{row_at};
ghost use Rattle.requests.specs.Asked.{Below};
ghost use Rattle.result.specs.Result.{record_n};
ghost use Rattle.merge.specs.Step.{Reads, Stepped};
ghost use Rattle.projections.specs.Lists.{FieldsIn, Room};
ghost use Rattle.walk_steps.specs.Steps.{FieldsFor, kept_pending, LeftFor, ListOk, ListPut, NodePut, over, pending_items, Picked, PutAs, Scratch, side, ToppedIs};

use arena::{Full, Items};
use jobs::{Job, Todo};
use lookup::Schema;
use merge::Step;
use projections::{Selection, Topped};
use required_indices::RequiredIndices;
use result::Record;

/// How many records, rows and cells of the result are in use.
#[derive(Clone, Copy)]
pub struct Used {
    pub records: usize,
    pub rows: usize,
    pub cells: usize,
}

/// A projection that is still to be put on top: the n items from row `first` on of the file's rows, or of the scratch rows. Its pairs are the fields
/// of node `top`.
#[derive(Clone, Copy)]
pub struct Pending {
    pub top: usize,
    pub first: usize,
    pub n: usize,
    pub scratch: bool,
}

/// A rewritten plan: the record of its root, what is now in use, and which of the node's fields are left.
#[derive(Clone, Copy)]
pub struct Walked {
    pub root: usize,
    pub used: Used,
    pub kept: RequiredIndices,
}

/// The rewritten inputs of a node: their records, 0 where it has none, what is now in use, and which of the first input's fields are left.
#[derive(Clone, Copy)]
pub struct Inputs {
    pub first: usize,
    pub second: usize,
    pub used: Used,
    pub kept: RequiredIndices,
}

/// The kept items of a list: what they ask of the input, how they are to be put, and what is now in use.
#[derive(Clone, Copy)]
pub struct Chosen {
    pub ask: RequiredIndices,
    pub list: Selection,
    pub used: Used,
}

// The pending list: its items in the file's rows, or in the scratch rows.
fn items_of<'a>(
    list: Pending,
    rows: &'a [u16],
    cells: &'a [u64],
    arows: &'a [u16],
    acells: &'a [u64],
) -> Items<'a>
    ensures rows_are { result.rows.now ≡ side list.scratch arows.now rows.now }
    ensures cells_are { result.cells.now ≡ side list.scratch acells.now cells.now }
    ensures first_is { result.first ≡ list.first }
    ensures count_is { result.count ≡ list.n }
{
    let (rows, cells) = if list.scratch {
        (arows, acells)
    } else {
        (rows, cells)
    };
    Items {
        rows,
        cells,
        first: list.first,
        count: list.n,
    }
}

/// One step of merging the pending list with the n items from row `first` on of the file: a merged list goes to the second scratch arrays. Each
/// reference of the pending list finds one of those items.
pub fn merge_step(
    house: bool,
    mask: u16,
    list: Pending,
    cells: &[u64],
    rows: &[u16],
    arows: &[u16],
    acells: &[u64],
    first: usize,
    n: usize,
    brows: &mut [u16],
    bcells: &mut [u64],
) -> Result<Step, Full>
    requires list_ok { ListOk list rows.now cells.now arows.now acells.now }
    requires rows_ok { RowsOk rows.now cells.now first n }
    requires reads { Reads (pending_items list rows.now cells.now arows.now acells.now) (items_at rows.now cells.now first n) }
    requires scratch { Scratch brows.old bcells.old }
    ensures { Stepped house mask (pending_items list rows.now cells.now arows.now acells.now) (items_at rows.now cells.now first n) list.n result brows.new bcells.new }
{
    let upper = items_of(list, rows, cells, arows, acells);
    let lower = Items {
        rows,
        cells,
        first,
        count: n,
    };
    merge::merge_consecutive_projections(house, mask, &upper, &lower, brows, bcells)
}

/// The kept items of the pending list over an input whose fields are the `width` from field `start` on: those that are not all bare columns are
/// copied behind the rows and cells in use. Rust: `get_at_indices` and `with_exprs` in `rewrite_projection_given_requirements`.
pub fn get_at_indices(
    list: Pending,
    cells: &[u64],
    rows: &[u16],
    arows: &[u16],
    acells: &[u64],
    request: RequiredIndices,
    fields: &[u16],
    start: usize,
    width: usize,
    items: &mut [u16],
    icells: &mut [u64],
    used: Used,
) -> Result<Chosen, Full>
    requires list_ok { ListOk list rows.now cells.now arows.now acells.now }
    requires request_bound { set_of request < 2 ^ list.n }
    requires below { Below fields.now start width }
    requires room { Room items.old icells.old used.rows used.cells }
    ensures { Picked (kept_pending list request rows.now cells.now arows.now acells.now) (row_at fields.now start width) used items.old icells.old items.new icells.new result }
{
    let upper = items_of(list, rows, cells, arows, acells);
    let input = Schema {
        fields,
        first: start,
        width,
    };
    let ask = requests::with_items(RequiredIndices::new(), &upper, request, &input);
    if projections::all_bare(&upper, request) {
        return Ok(Chosen {
            ask,
            list: Selection::Columns,
            used,
        });
    }
    let copied = projections::copy_kept(&upper, request, items, used.rows, icells, used.cells)?;
    Ok(Chosen {
        ask,
        list: Selection::Items {
            row: used.rows,
            count: copied.rows,
        },
        used: Used {
            records: used.records,
            rows: used.rows + copied.rows,
            cells: copied.used,
        },
    })
}

// A record put behind those in use: its plan, of which the fields `kept` are left.
fn put(
    records: &mut [u64],
    used: Used,
    node: Record,
    set: RequiredIndices,
    kept: RequiredIndices,
) -> Result<Walked, Full>
    requires { max_nodes * record_n ≤ length records.old }
    ensures { PutAs records.old records.new used node (set_of set) kept result }
{
    let root = result::push_record(records, used.records, node, &set)?;
    Ok(Walked {
        root,
        used: Used {
            records: used.records + 1,
            rows: used.rows,
            cells: used.cells,
        },
        kept,
    })
}

/// Node `k` put over its rewritten inputs, as its job says; too large where they are.
pub fn put_node(
    records: &mut [u64],
    k: usize,
    job: Job,
    inputs: Result<Inputs, Full>,
) -> Result<Walked, Full>
    requires record_n_in_bounds { max_nodes * record_n ≤ length records.old }
    requires left_for { LeftFor job job.todo }
    ensures { NodePut records.old records.new k job inputs result job.todo }
{
    let inputs = inputs?;
    let node = Record::Kept {
        old: k,
        first: inputs.first,
        second: inputs.second,
    };
    match job.todo {
        Todo::Leaf => put(records, inputs.used, node, job.set, job.kept),
        Todo::Nothing => put(records, inputs.used, Record::Nothing, job.set, job.kept),
        Todo::Same => Ok(Walked {
            root: inputs.first,
            used: inputs.used,
            kept: jobs::kept_of(job.rest, job.set, job.kept, inputs.kept),
        }),
        Todo::One { .. } => {
            let kept = jobs::kept_of(job.rest, job.set, job.kept, inputs.kept);
            put(records, inputs.used, node, job.set, kept)
        }
        Todo::Two { .. } => put(records, inputs.used, node, job.set, job.kept),
    }
}

// What a walk answered, with the projection on top that was put by `topped`: the fields `kept` are left.
fn over(topped: Topped, used: Used, kept: RequiredIndices) -> Walked
    ensures { result ≡ over topped used kept }
{
    Walked {
        root: topped.record,
        used: Used {
            records: topped.used,
            rows: used.rows,
            cells: used.cells,
        },
        kept,
    }
}

/// Top-up of node `k`, which was asked for `ask` and became `w`; `w` as it is where it is not wanted or `w` is too large.
pub fn top_up(
    records: &mut [u64],
    topped: bool,
    k: usize,
    ask: RequiredIndices,
    w: Result<Walked, Full>,
) -> Result<Walked, Full>
    requires { max_nodes * record_n ≤ length records.old }
    ensures { ToppedIs records.old records.new k ask w result topped }
{
    if !topped {
        return w;
    }
    let w = w?;
    let t = projections::add_projection_on_top_if_helpful(
        records,
        w.used.records,
        w.root,
        k,
        ask,
        w.kept,
    )?;
    Ok(over(t, w.used, ask))
}

/// The kept items of the pending list, whose pairs are the fields of node `top`, `width` from field `start` on, over an input that became `w`. Its
/// fields are the `input_width` from field `lower` on. Both lie in the array. Too large where `w` is. Rust: the end of
/// `rewrite_projection_given_requirements`.
pub fn put_list(
    records: &mut [u64],
    list: Selection,
    fields: &[u16],
    top: usize,
    start: usize,
    width: usize,
    request: RequiredIndices,
    lower: usize,
    input_width: usize,
    w: Result<Walked, Full>,
) -> Result<Walked, Full>
    requires record_n_in_bounds { max_nodes * record_n ≤ length records.old }
    requires fields_in { FieldsIn fields.now start width request }
    requires fields_for { FieldsFor fields.now lower input_width w }
    ensures { ListPut records.old records.new list fields.now top start width request lower input_width w result }
{
    let w = w?;
    let t = projections::put_projection(
        records,
        w.used.records,
        w.root,
        list,
        fields,
        top,
        start,
        width,
        request,
        lower,
        input_width,
        w.kept,
    )?;
    Ok(over(t, w.used, request))
}
