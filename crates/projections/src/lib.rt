//! projections: the parts of the walk that put projections. Port of `rewrite_projection_given_requirements`, `is_projection_unnecessary` and
//! `add_projection_on_top_if_helpful` of `optimize_projections/mod.rs`, without their calls of the walk.
//!
//! A list of items stands in rows and cells as in crate `arena`, the fields of nodes as in crate `lookup`, the rewritten plan as in crate
//! `result`. A projection whose kept items are all bare columns is a record of columns, so only other lists are copied.
#![tactic(auto)]

ghost use Rattle.std.specs.Prelude.{◌+◌, ◌*◌, ◌^◌, ◌≤◌, ◌<◌, ◌≡◌, length};
ghost use Rattle.cpl.specs.Limits.{max_nodes};
ghost use Rattle.required_indices.specs.Request.{set_of};
ghost use Rattle.arena.specs.Lists.{ListOk};
ghost use Rattle.result.specs.Result.{record_n};
ghost use Rattle.projections.specs.Lists.{AllBare, CopyAnswer, FieldsIn, kept_fields, kept_of, Room, same_b};
ghost use Rattle.projections.specs.Tops.{ProjectionPut, PutIs, ToppedUp};

use arena::{Full, Items};
use lookup::Schema;
use required_indices::RequiredIndices;
use result::Record;

/// Are the kept items of a list all bare columns? The list's rows lie in the array, and no index is past them.
pub fn all_bare(list: &Items, kept: RequiredIndices) -> bool
    requires count_in_bounds { (list.now.first + list.now.count) * 4 ≤ length list.now.rows.now }
    requires kept_bound { set_of kept < 2 ^ list.now.count }
    ensures { AllBare list.now.rows.now list.now.first list.now.count kept result }
{
    let mut from = 0;
    while let Some(i) = kept.next(from) {
        let row = arena::row_at(list.rows, list.first + i);
        if row.mark != 0 {
            return false;
        }
        from = i + 1;
    }
    true
}

/// Are those of the fields `own` that `kept` has those of the fields `input` that `input_kept` has, in number and place by place? The fields
/// lie in the array. Rust: `is_projection_unnecessary`, for a projection of bare columns, whose pairs are the first ones.
pub fn is_projection_unnecessary(
    own: &Schema,
    kept: RequiredIndices,
    input: &Schema,
    input_kept: RequiredIndices,
) -> bool
    requires fields_in { FieldsIn own.now.fields.now own.now.first own.now.width kept }
    requires fields_in_2 { FieldsIn input.now.fields.now input.now.first input.now.width input_kept }
    ensures { result ≡ same_b (kept_fields own.now.fields.now own.now.first own.now.width kept) (kept_fields input.now.fields.now input.now.first input.now.width input_kept) }
{
    let mut from = 0;
    let mut at = 0;
    while let Some(i) = kept.next(from) {
        let Some(j) = input_kept.next(at) else {
            return false;
        };
        let f = lookup::field_at(own.fields, own.first + i);
        let g = lookup::field_at(input.fields, input.first + j);
        if f != g {
            return false;
        }
        from = i + 1;
        at = j + 1;
    }
    input_kept.next(at).is_none()
}

/// Kept items that were copied: how many there are, and the nodes in use behind them.
#[derive(Clone, Copy)]
pub struct Copied {
    pub rows: usize,
    pub used: usize,
}

/// Copies the kept items of a list, in order, into the rows of `out_items` from `row` on, their expressions behind the nodes in use of
/// `out_cells`. Its error is `Full` where there is no room for their expressions. The list's rows are well formed, and no index is past them.
/// There is a row more than there are nodes, and no more rows are in use than nodes: as each item takes a node, there are always rows enough.
/// Rust: `get_at_indices`.
pub fn copy_kept(
    list: &Items,
    kept: RequiredIndices,
    out_items: &mut [u16],
    row: usize,
    out_cells: &mut [u64],
    used: usize,
) -> Result<Copied, Full>
    requires rows_ok { ListOk list.now }
    requires kept_bound { set_of kept < 2 ^ list.now.count }
    requires room { Room out_items.old out_cells.old row used }
    ensures { CopyAnswer (kept_of list.now kept) row out_items.old out_cells.old used result out_items.new out_cells.new }
{
    let mut most = used;
    let mut rows = 0;
    let mut from = 0;
    while let Some(i) = kept.next(from) {
        let at = list.first + i;
        let b = arena_build::copy_item(list, at, out_items, row + rows, out_cells, most)?;
        most = b.used;
        rows += 1;
        from = i + 1;
    }
    Ok(Copied { rows, used: most })
}

/// The record of a plan with a projection on top, where it needs one, and the records in use behind it.
#[derive(Clone, Copy)]
pub struct Topped {
    pub record: usize,
    pub used: usize,
}

// A record is put behind those in use.
fn put(records: &mut [u64], used: usize, node: Record, set: RequiredIndices) -> Result<Topped, Full>
    requires { max_nodes * record_n ≤ length records.old }
    ensures { PutIs records.old records.new used node (set_of set) result }
{
    let record = result::push_record(records, used, node, &set)?;
    Ok(Topped {
        record,
        used: used + 1,
    })
}

/// Top-up: where node `k` was asked for fewer fields than its rewritten plan, `record`, has, a projection of those is put on top. Rust:
/// `add_projection_on_top_if_helpful`.
pub fn add_projection_on_top_if_helpful(
    records: &mut [u64],
    used: usize,
    record: usize,
    k: usize,
    asked: RequiredIndices,
    input_kept: RequiredIndices,
) -> Result<Topped, Full>
    requires { max_nodes * record_n ≤ length records.old }
    ensures { ToppedUp records.old records.new used «record» k asked input_kept result }
{
    if asked.len() < input_kept.len() {
        let node = Record::Columns {
            old: k,
            first: record,
        };
        return put(records, used, node, asked);
    }
    Ok(Topped { record, used })
}

/// The kept items of a projection: all bare columns, so those of node `top`'s fields; or copied into rows of the result.
// Not an Option: a list of columns is a list too, and None would not name it.
#[derive(Clone, Copy)]
pub enum Selection {
    Columns,
    Items { row: usize, count: usize },
}

/// The kept items over the rewritten input, `record`; or the input alone, where they change nothing. The fields of node `top`, `width` from field
/// `start` on, and the input's, `input_width` from field `lower` on, lie in the array. Rust: the end of
/// `rewrite_projection_given_requirements`.
pub fn put_projection(
    records: &mut [u64],
    used: usize,
    record: usize,
    list: Selection,
    fields: &[u16],
    top: usize,
    start: usize,
    width: usize,
    kept: RequiredIndices,
    lower: usize,
    input_width: usize,
    input_kept: RequiredIndices,
) -> Result<Topped, Full>
    requires record_n_in_bounds { max_nodes * record_n ≤ length records.old }
    requires fields_in { FieldsIn fields.now start width kept }
    requires fields_in_2 { FieldsIn fields.now lower input_width input_kept }
    ensures { ProjectionPut records.old records.new used «record» list fields.now top start width kept lower input_width input_kept result }
{
    match list {
        Selection::Columns => {
            let own = Schema {
                fields,
                first: start,
                width,
            };
            let input = Schema {
                fields,
                first: lower,
                width: input_width,
            };
            if is_projection_unnecessary(&own, kept, &input, input_kept) {
                return Ok(Topped { record, used });
            }
            let node = Record::Columns {
                old: top,
                first: record,
            };
            put(records, used, node, kept)
        }
        Selection::Items { row, count } => {
            let node = Record::Items {
                row,
                count,
                first: record,
            };
            put(records, used, node, kept)
        }
    }
}
