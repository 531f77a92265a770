//! The parts of a node: what do their references find, and what fields do they give?
//!
//! Table t has 513 numbers of `names` from 513 * t on: how many columns it has, then their names. A row of fields is named by its first field.
#![tactic(auto)]

ghost use Rattle.std.specs.Prelude.{Bool, map, ◌≡◌, ℕ, ◌+◌, ◌*◌, ◌<◌, ◌≤◌, length, get_or};
ghost use Rattle.arena.specs.Cells.{expr_at, Wf};
ghost use Rattle.arena.specs.Rows.{pair_at};
ghost use Rattle.cpl.specs.Accept.{Test, each_passes, on_passes};
ghost use Rattle.cpl.specs.Exprs.{agg_exprs, call_exprs, win_exprs};
ghost use Rattle.cpl.specs.Fields.{scan_field};
ghost use Rattle.cpl.specs.Plan.{Pair};
ghost use Rattle.cpl.specs.Tests.{all_b, concat_map, iota};
ghost use Rattle.lookup.specs.Answers.{Resolved, resolving};
ghost use Rattle.lookup.specs.Fields.{fields_of, Filled, left_row, pair_of, right_row, row_at, RowIn, SchemaClear, SidesClear};
ghost use Rattle.parts.specs.Catalogue.{column_count, table_at, TableIn};
ghost use Rattle.parts.specs.Parts.{ColumnOk, WinInside};
ghost use Rattle.tree.specs.Rows.{AggOk, AllAt, EachOk, ExprOk, Inside, OnOk, WinOk, aggs_at, call_of, columns_at, exprs_at, list_at, on_at, one, ons_at, pairs_at, win_at, win_size, wins_at};

use lookup::{Schema, Sides, Unresolved};
use tree::Field;

/// What `count` things find together, where `find` answers what the thing at place i of them finds: unknown comes before ambiguous.
fn resolve_each<F: Fn(usize) -> Result<(), Unresolved>>(
    count: usize,
    find: F,
) -> Result<(), Unresolved>
    requires { (i : ℕ) → i < count → F.pre find i }
    ensures { (at : ℕ → Test → Bool) → ((i : ℕ) → i < count → (r : Resolved) → F.post find i r → r ≡ resolving (at i)) → result ≡ resolving (λ test. all_b (λ i. at i test) (list_at (λ i. i) one 0 count)) }
{
    let mut all = Ok(());
    for i in 0..count {
        all = lookup::both_resolved(all, find(i));
    }
    all
}

/// What the references of the expressions in `count` rows from `first` on find among the fields of a row. The rows are those of
/// well formed expressions; the fields lie in the array, and do not clash where `clear` is said.
pub fn resolve_roots(
    cells: &[u64],
    rows: &[u16],
    first: usize,
    count: usize,
    schema: &Schema,
    clear: bool,
) -> Result<(), Unresolved>
    requires each_ok { EachOk (ExprOk rows.now cells.now) rows.now first count }
    requires row_clear { SchemaClear schema.now clear }
    ensures { result ≡ resolving (each_passes (exprs_at rows.now cells.now first count) (fields_of schema.now)) }
{
    resolve_each(count, |i| {
        let row = arena::row_at(rows, first + i);
        lookup::resolve_expr(cells, row.root, schema, clear)
    })
}

/// What the references of a call find. A function other than 0 has the root of a well formed expression; the fields lie in the array, and
/// do not clash where `clear` is said.
fn resolve_call(
    cells: &[u64],
    function: u16,
    root: usize,
    schema: &Schema,
    clear: bool,
) -> Result<(), Unresolved>
    requires wf { 0 < function → Wf cells.now (root + 1) }
    requires row_clear { SchemaClear schema.now clear }
    ensures { result ≡ resolving (each_passes (call_exprs (call_of function (expr_at cells.now root))) (fields_of schema.now)) }
{
    if function == 0 {
        return Ok(());
    }
    lookup::resolve_expr(cells, root, schema, clear)
}

/// What the references of the aggregates in `count` rows from `first` on find. The rows are those of aggregates; the fields lie in the array,
/// and do not clash where `clear` is said.
pub fn resolve_aggs(
    cells: &[u64],
    rows: &[u16],
    first: usize,
    count: usize,
    schema: &Schema,
    clear: bool,
) -> Result<(), Unresolved>
    requires each_ok { EachOk (AggOk rows.now cells.now) rows.now first count }
    requires row_clear { SchemaClear schema.now clear }
    ensures { result ≡ resolving (each_passes (concat_map agg_exprs (aggs_at rows.now cells.now first count)) (fields_of schema.now)) }
{
    resolve_each(count, |i| {
        let row = tree::agg_at(rows, first + i);
        resolve_call(cells, row.function, row.root, schema, clear)
    })
}

/// What the references of the window from row `i` on find. The rows are those of a window; the fields lie in the array, and do not clash where
/// `clear` is said.
fn resolve_win(
    cells: &[u64],
    rows: &[u16],
    i: usize,
    schema: &Schema,
    clear: bool,
) -> Result<(), Unresolved>
    requires win_ok { WinOk rows.now cells.now i }
    requires row_clear { SchemaClear schema.now clear }
    ensures { result ≡ resolving (each_passes (win_exprs (win_at rows.now cells.now i)) (fields_of schema.now)) }
{
    let w = tree::win_at(rows, i);
    let call = resolve_call(cells, w.function, w.root, schema, clear);
    let parts = resolve_roots(cells, rows, i + 1, w.parts, schema, clear);
    let keys = resolve_roots(cells, rows, w.key, w.keys, schema, clear);
    let rest = lookup::both_resolved(parts, keys);
    lookup::both_resolved(call, rest)
}

/// What the references of `count` windows from row `first` on find. The rows are those of windows; the fields lie in the array, and do
/// not clash where `clear` is said.
pub fn resolve_wins(
    cells: &[u64],
    rows: &[u16],
    first: usize,
    count: usize,
    schema: &Schema,
    clear: bool,
) -> Result<(), Unresolved>
    requires all_at { AllAt (WinOk rows.now cells.now) (win_size rows.now) first count }
    requires row_clear { SchemaClear schema.now clear }
    ensures { result ≡ resolving (each_passes (concat_map win_exprs (wins_at rows.now cells.now first count)) (fields_of schema.now)) }
{
    let mut all = Ok(());
    let mut row = first;
    for _ in 0..count {
        let one = resolve_win(cells, rows, row, schema, clear);
        all = lookup::both_resolved(all, one);
        let w = tree::win_at(rows, row);
        row = w.next;
    }
    all
}

/// What the halves of the pair in row `i` find, each in its own side. The row is that of a pair, and the sides lie in the array.
fn resolve_on(
    cells: &[u64],
    rows: &[u16],
    i: usize,
    fields: &[u16],
    sides: Sides,
) -> Result<(), Unresolved>
    requires on_ok { OnOk rows.now cells.now i }
    requires sides_clear { SidesClear fields.now sides }
    ensures { result ≡ resolving (λ test. on_passes (left_row fields.now sides) (right_row fields.now sides) test (on_at rows.now cells.now i)) }
{
    let left = Schema {
        fields,
        first: sides.left,
        width: sides.lwidth,
    };
    let right = Schema {
        fields,
        first: sides.right,
        width: sides.rwidth,
    };
    let on = tree::on_at(rows, i);
    let a = lookup::resolve_expr(cells, on.left, &left, sides.clear);
    let b = lookup::resolve_expr(cells, on.right, &right, sides.clear);
    lookup::both_resolved(a, b)
}

/// What the halves of the pairs of a join in `count` rows from `first` on find, each in its own side. The rows are those of pairs, and
/// the sides lie in the array.
pub fn resolve_ons(
    cells: &[u64],
    rows: &[u16],
    first: usize,
    count: usize,
    fields: &[u16],
    sides: Sides,
) -> Result<(), Unresolved>
    requires each_ok { EachOk (OnOk rows.now cells.now) rows.now first count }
    requires sides_clear { SidesClear fields.now sides }
    ensures { result ≡ resolving (λ test. all_b (on_passes (left_row fields.now sides) (right_row fields.now sides) test) (ons_at rows.now cells.now first count)) }
{
    resolve_each(count, |i| resolve_on(cells, rows, first + i, fields, sides))
}

/// `n` fields are put from field `to` on: the field at place i of them is what `read` answers for i. They lie in the array.
fn fill<F: Fn(usize) -> Field>(fields: &mut [u16], to: usize, n: usize, read: F)
    requires row_in { RowIn fields.old to n }
    requires callable { (i : ℕ) → i < n → F.pre read i }
    ensures { (at : ℕ → Pair) → ((i : ℕ) → i < n → (f : Field) → F.post read i f → pair_of f ≡ at i) → Filled to n (list_at at one 0 n) fields.old fields.new }
{
    for i in 0..n {
        lookup::put_field(fields, to + i, read(i));
    }
}

/// The pairs of `n` rows from `first` on are put from field `to` on. The rows lie in the array, and so do the fields.
pub fn take_pairs(fields: &mut [u16], to: usize, rows: &[u16], first: usize, n: usize)
    requires { RowIn fields.old to n × EachOk (Inside rows.now) rows.now first n }
    ensures { Filled to n (pairs_at rows.now first n) fields.old fields.new }
{
    fill(fields, to, n, |i| tree::pair_at(rows, first + i));
}

/// The pairs of `n` windows from row `first` on are put from field `to` on. The rows lie in the array, and so do the fields. A loop of its own
/// beside `fill`: a window says where the one behind it starts, so its row does not follow from its number.
pub fn win_pairs(fields: &mut [u16], to: usize, rows: &[u16], first: usize, n: usize)
    requires { RowIn fields.old to n × AllAt (WinInside rows.now) (win_size rows.now) first n }
    ensures { Filled to n (list_at (pair_at rows.now) (win_size rows.now) first n) fields.old fields.new }
{
    let mut row = first;
    for i in 0..n {
        let w = tree::win_at(rows, row);
        let f = Field {
            qualifier: w.qualifier,
            name: w.name,
        };
        lookup::put_field(fields, to + i, f);
        row = w.next;
    }
}

/// How many columns table `t`, which lies in the array, has.
pub fn columns(names: &[u16], t: usize) -> usize
    requires { TableIn names.now t }
    ensures { result ≡ length (table_at names.now t) }
{
    usize::from(names[t * 513])
}

/// Name `i` of table `t`, which lies in the array and has more than `i` columns.
pub fn name_at(names: &[u16], t: usize, i: usize) -> u16
    requires table_in { TableIn names.now t }
    requires i_in_bounds { i < length (table_at names.now t) }
    ensures { result ≡ get_or (table_at names.now t) i 0 }
{
    names[t * 513 + 1 + i]
}

/// All columns of table `t` under a qualifier are put from field `to` on. The table lies in the array, and so do the fields.
pub fn scan_all(fields: &mut [u16], to: usize, names: &[u16], t: usize, qualifier: u16)
    requires table_in { TableIn names.now t }
    requires row_in { RowIn fields.old to (length (table_at names.now t)) }
    ensures { Filled to (length (table_at names.now t)) (map (scan_field (table_at names.now t) qualifier) (iota 0 (length (table_at names.now t)))) fields.old fields.new }
{
    let n = columns(names, t);
    fill(
        fields,
        to,
        n,
        |i| Field {
            qualifier,
            name: name_at(names, t, i),
        },
    );
}

/// The columns of table `t` whose indices stand in `n` rows from `first` on are put from field `to` on, under a qualifier. The table, the rows
/// and the fields lie in their arrays, and the indices are the table's.
pub fn scan_given(
    fields: &mut [u16],
    to: usize,
    names: &[u16],
    t: usize,
    qualifier: u16,
    rows: &[u16],
    first: usize,
    n: usize,
)
    requires table_in { TableIn names.now t }
    requires row_in { RowIn fields.old to n × EachOk (ColumnOk rows.now (length (table_at names.now t))) rows.now first n }
    ensures { Filled to n (map (scan_field (table_at names.now t) qualifier) (columns_at rows.now first n)) fields.old fields.new }
{
    fill(fields, to, n, |i| {
        let column = tree::column_at(rows, first + i);
        Field {
            qualifier,
            name: name_at(names, t, column),
        }
    });
}
