//! requests: what is asked of the inputs of a node. Port of `with_exprs`, `with_plan_exprs` and `add_expr` of `required_indices.rs` and of
//! `split_join_requirements` of `optimize_projections/mod.rs`.
//!
//! Each function adds to a request the columns of some expressions: what each reference finds among the fields of an input.
//! `Adds` says what mask the request then asks for. Columns are added in place.
#![tactic(auto)]

ghost use Rattle.std.specs.Prelude.{false, ◌≡◌, List, [], ◌∷◌, map, ◌+◌, ◌*◌, ◌<◌, ◌≤◌, length};
ghost use Rattle.cpl.specs.Exprs.{call_exprs, agg_exprs, win_exprs};
ghost use Rattle.cpl.specs.Plan.{item_expr};
ghost use Rattle.cpl.specs.Tests.{concat_map};
ghost use Rattle.rules.specs.Mask.{select};
ghost use Rattle.required_indices.specs.Request.{Holds, request_mask};
ghost use Rattle.arena.specs.Cells.{expr_at, Wf};
ghost use Rattle.arena.specs.Lists.{listed, ListOk};
ghost use Rattle.tree.specs.Rows.{AggOk, AllAt, EachOk, WinOk, aggs_at, call_of, win_at, win_size, wins_at};
ghost use Rattle.lookup.specs.Fields.{fields_of};
ghost use Rattle.requests.specs.Asked.{Adds, Parted, RootsOk, SchemaBelow, roots_at};

use arena::{Items, View};
use lookup::Schema;
use required_indices::{RequiredIndices, Split};
use tree::JoinType;

// The columns of the expression of node `i`, whose nodes are well formed, added in place.
fn add(r: &mut RequiredIndices, cells: &[u64], i: usize, schema: &Schema)
    requires wf { Wf cells.now (i + 1) }
    requires below { SchemaBelow schema.now }
    ensures { Adds (expr_at cells.now i ∷ []) (fields_of schema.now) r.old r.new }
{
    match arena::node_at(cells, i) {
        View::Col(q, n) => {
            if let Some(j) = schema.first_fit(q, n) {
                r.insert(j);
            }
        }
        View::Lit(_) | View::Miss => {}
        View::One(_, x) => add(r, cells, x, schema),
        View::Two(_, x, y) => {
            add(r, cells, x, schema);
            add(r, cells, y, schema);
        }
    }
}

/// The columns of the expression of node `i`, whose nodes are well formed. Rust: `add_expr`.
pub fn add_expr(r: RequiredIndices, cells: &[u64], i: usize, schema: &Schema) -> RequiredIndices
    requires wf { Wf cells.now (i + 1) }
    requires below { SchemaBelow schema.now }
    ensures { Adds (expr_at cells.now i ∷ []) (fields_of schema.now) r result }
{
    let mut out = r;
    add(&mut out, cells, i, schema);
    out
}

/// The columns of the expressions whose roots are number `at` of the rows from `first` on, `count` of them: keys, parts, a join's pairs.
/// The rows lie in the array, and the roots are well formed. Rust: `with_exprs`.
pub fn with_roots(
    r: RequiredIndices,
    rows: &[u16],
    first: usize,
    count: usize,
    at: usize,
    cells: &[u64],
    schema: &Schema,
) -> RequiredIndices
    requires roots_ok { RootsOk rows.now cells.now at first count }
    requires below { SchemaBelow schema.now }
    ensures { Adds (roots_at rows.now cells.now at first count) (fields_of schema.now) r result }
{
    let mut out = r;
    for i in 0..count {
        let root = usize::from(rows[(first + i) * 4 + at]);
        add(&mut out, cells, root, schema);
    }
    out
}

/// The columns of those items of a list that `kept` has. The list's rows are well formed. Rust: `with_exprs` of `get_at_indices`.
pub fn with_items(
    r: RequiredIndices,
    list: &Items,
    kept: RequiredIndices,
    schema: &Schema,
) -> RequiredIndices
    requires rows_ok { ListOk list.now }
    requires below { SchemaBelow schema.now }
    ensures { Adds (map item_expr (select (request_mask list.now.count kept) (listed list.now))) (fields_of schema.now) r result }
{
    let mut out = r;
    for i in 0..list.count {
        if kept.contains(i) {
            let row = arena::row_at(list.rows, list.first + i);
            add(&mut out, list.cells, row.root, schema);
        }
    }
    out
}

/// The columns of a function's expression; function 0 has none. Another function's root is well formed.
pub fn with_call(
    r: RequiredIndices,
    function: u16,
    root: usize,
    cells: &[u64],
    schema: &Schema,
) -> RequiredIndices
    requires wf { 0 < function → Wf cells.now (root + 1) }
    requires below { SchemaBelow schema.now }
    ensures { Adds (call_exprs (call_of function (expr_at cells.now root))) (fields_of schema.now) r result }
{
    if function == 0 {
        return r;
    }
    add_expr(r, cells, root, schema)
}

/// The columns of those aggregates of a list that `kept` has. The list's rows are well formed. Rust: `with_exprs` of `get_at_indices`.
pub fn with_aggregates(
    r: RequiredIndices,
    rows: &[u16],
    first: usize,
    count: usize,
    cells: &[u64],
    kept: RequiredIndices,
    schema: &Schema,
) -> RequiredIndices
    requires each_ok { EachOk (AggOk rows.now cells.now) rows.now first count }
    requires below { SchemaBelow schema.now }
    ensures { Adds (concat_map agg_exprs (select (request_mask count kept) (aggs_at rows.now cells.now first count))) (fields_of schema.now) r result }
{
    let mut out = r;
    for i in 0..count {
        if kept.contains(i) {
            let a = tree::agg_at(rows, first + i);
            out = with_call(out, a.function, a.root, cells, schema);
        }
    }
    out
}

/// The columns of the window from row `i` on, which is well formed.
pub fn with_window(
    r: RequiredIndices,
    rows: &[u16],
    i: usize,
    cells: &[u64],
    schema: &Schema,
) -> RequiredIndices
    requires win_ok { WinOk rows.now cells.now i }
    requires below { SchemaBelow schema.now }
    ensures { Adds (win_exprs (win_at rows.now cells.now i)) (fields_of schema.now) r result }
{
    let w = tree::win_at(rows, i);
    let s = with_call(r, w.function, w.root, cells, schema);
    let t = with_roots(s, rows, i + 1, w.parts, 3, cells, schema);
    with_roots(t, rows, w.key, w.keys, 3, cells, schema)
}

/// The columns of those windows of a list that `kept` has. They are well formed. Rust: `with_exprs` of `get_at_indices`.
pub fn with_windows(
    r: RequiredIndices,
    rows: &[u16],
    first: usize,
    count: usize,
    cells: &[u64],
    kept: RequiredIndices,
    schema: &Schema,
) -> RequiredIndices
    requires all_at { AllAt (WinOk rows.now cells.now) (win_size rows.now) first count }
    requires below { SchemaBelow schema.now }
    ensures { Adds (concat_map win_exprs (select (request_mask count kept) (wins_at rows.now cells.now first count))) (fields_of schema.now) r result }
{
    let mut out = r;
    let mut at = first;
    for i in 0..count {
        let w = tree::win_at(rows, at);
        if kept.contains(i) {
            out = with_window(out, rows, at, cells, schema);
        }
        at = w.next;
    }
    out
}

/// A join's request, split: what is asked of its left and of its right input, whose fields are `left` in number. Rust:
/// `split_join_requirements`.
pub fn split_join_requirements(join_type: JoinType, left: usize, indices: RequiredIndices) -> Split
    ensures { Parted join_type left indices result }
{
    match join_type {
        JoinType::Inner | JoinType::Left | JoinType::Right | JoinType::Full => {
            indices.split_off(left)
        }
        JoinType::LeftSemi | JoinType::LeftAnti => Split {
            below: indices,
            rest: RequiredIndices::new(),
        },
        JoinType::RightSemi | JoinType::RightAnti => Split {
            below: RequiredIndices::new(),
            rest: indices,
        },
    }
}
