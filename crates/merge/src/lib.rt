//! merge: one step of merging two projections. Port of `merge_consecutive_projections_one_level` of `optimize_projections/mod.rs`.
//!
//! A list of items stands in rows and cells as in crate `arena`. A step reads the upper and the lower list and writes the merged list to
//! the front of two lent arrays.
#![tactic(auto)]

ghost use Rattle.std.specs.Prelude.{Bool, ◌≡◌, ◌*◌, ◌<◌, ◌≤◌, length};
ghost use Rattle.cpl.specs.Exprs.{item_tags};
ghost use Rattle.cpl.specs.Limits.{max_tags};
ghost use Rattle.cpl.specs.Tests.{sum_of};
ghost use Rattle.rules.specs.Merge.{drops_child, held, stops};
ghost use Rattle.arena.specs.Lists.{listed, ListOk};
ghost use Rattle.arena.specs.Rows.{item_at, RowOk};
ghost use Rattle.merge.specs.Step.{pushes_tag, Reads, Room, Stepped};

use arena::{Full, Items};

// The most tags of a list.
const TAGS: usize = 4096;

/// What a step does: the lists are equal, so the lower one is dropped; it stops; the merged list was written.
#[derive(Clone, Copy)]
pub enum Step {
    Same,
    Stop,
    Merged,
}

// Does a definition with this outermost tag push to leaves?
fn pushes(mask: u16, tag: u64) -> bool
    requires { tag < 12 }
    ensures { result ≡ pushes_tag mask tag }
{
    (u64::from(mask) >> tag) % 2 == 1
}

// Does row `i` of the lower list stop the merge: its definition does not push to leaves, and its pair is written more than once over the
// upper list, or its name alone is? The row and the upper list's rows are well formed, and that list is not over 4,096 tags.
fn stops_merge(mask: u16, upper: &Items, lower: &Items, i: usize) -> bool
    requires rows_ok { ListOk upper.now }
    requires size_bound { sum_of item_tags (listed upper.now) ≤ max_tags }
    requires row_ok { RowOk lower.now.rows.now lower.now.cells.now i }
    ensures { result ≡ stops mask (listed upper.now) (item_at lower.now.rows.now lower.now.cells.now i) }
{
    let row = arena::row_at(lower.rows, i);
    if pushes(mask, arena::tag_at(lower.cells, row.root)) {
        return false;
    }
    let own = upper.uses(row.qualifier, row.name);
    let name = upper.uses(0, row.name);
    own > 1 || name > 1
}

/// Is a pair written more than once over the upper list that finds a definition in the lower list which does not push to leaves? The rows of
/// both are well formed, the upper list is not over 4,096 tags, and each of its references finds one item of the lower list.
pub fn is_held(mask: u16, upper: &Items, lower: &Items) -> bool
    requires rows_ok { ListOk upper.now }
    requires size_bound { sum_of item_tags (listed upper.now) ≤ max_tags }
    requires rows_ok_2 { ListOk lower.now }
    requires reads { Reads (listed upper.now) (listed lower.now) }
    ensures { result ≡ held mask (listed upper.now) (listed lower.now) }
{
    (lower.first..lower.first + lower.count).any(|i| stops_merge(mask, upper, lower, i))
}

/// Does the equal-lists step apply? In house mode only where each item is a bare column or uses no column. The rows of both lists are
/// well formed.
pub fn drops_child(house: bool, upper: &Items, lower: &Items) -> bool
    requires rows_ok { ListOk upper.now }
    requires rows_ok_2 { ListOk lower.now }
    ensures { result ≡ drops_child house (listed upper.now) (listed lower.now) }
{
    upper.same(lower) && (!house || upper.all_plain())
}

/// One step. The rows of both lists are well formed, the upper list is not over 4,096 tags, and each of its references finds one item of the
/// lower list; the lent arrays have room for the rows and for 4,096 nodes. Its error is `Full` where the merged list is over 4,096 tags.
/// Rust: `merge_consecutive_projections_one_level`.
pub fn merge_consecutive_projections(
    house: bool,
    mask: u16,
    upper: &Items,
    lower: &Items,
    rows: &mut [u16],
    dst: &mut [u64],
) -> Result<Step, Full>
    requires rows_ok { ListOk upper.now }
    requires size_bound { sum_of item_tags (listed upper.now) ≤ max_tags }
    requires rows_ok_2 { ListOk lower.now }
    requires reads { Reads (listed upper.now) (listed lower.now) }
    requires room { Room rows.old dst.old upper.now.count }
    ensures { Stepped house mask (listed upper.now) (listed lower.now) upper.now.count result rows.new dst.new }
{
    if drops_child(house, upper, lower) {
        return Ok(Step::Same);
    }
    if is_held(mask, upper, lower) {
        return Ok(Step::Stop);
    }
    if upper.uses_no_column() {
        return Ok(Step::Stop);
    }
    arena_build::replace_items(upper, lower, rows, 0, dst, 0)?;
    let merged = Items {
        rows,
        cells: dst,
        first: 0,
        count: upper.count,
    };
    if merged.tags() > TAGS {
        return Err(Full);
    }
    Ok(Step::Merged)
}
