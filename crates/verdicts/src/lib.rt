//! What is said of one node of a plan, whose inputs are judged: code 8, 17, 9, 10 or 7 in that order, or none and the node's fields.
//!
//! `fields` and `widths` are lent: node k has as many fields as `widths` has at k, from the field on whose number `widths` has at 256 + k. A node
//! whose fields are an input's has that input's; other nodes' fields are put behind those in use.
#![tactic(auto)]

ghost use Rattle.std.specs.Prelude.{List, ◌++◌, map, ◌≡◌, ℕ, ◌+◌, ◌*◌, ◌^◌, ◌<◌, ◌≤◌, length};
ghost use Rattle.verdicts.specs.Heads.{fields_head, passes_head};
ghost use Rattle.verdicts.specs.Nodes.{even_of, joins, Looked, Looking, Named, NodeInside, parts, Rowed, ScanInside, SidesReady};
ghost use Rattle.verdicts.specs.Verdicts.{Judged};
ghost use Rattle.arena.specs.Rows.{pair_at};
ghost use Rattle.cpl.specs.Fields.{columns_of, join_fields, requalify, scan_field};
ghost use Rattle.cpl.specs.Limits.{max_nodes};
ghost use Rattle.cpl.specs.Plan.{Catalogue, join};
ghost use Rattle.cpl.specs.ReadPlan.{h2};
ghost use Rattle.lookup.specs.Answers.{resolving};
ghost use Rattle.lookup.specs.Fields.{left_row, right_row, RowIn, SidesClear};
ghost use Rattle.parts.specs.Catalogue.{table_at};
ghost use Rattle.parts.specs.Parts.{WinInside};
ghost use Rattle.tree.specs.Node.{join_is};
ghost use Rattle.tree.specs.Rows.{AllAt, columns_at, EachOk, Inside, list_at, pairs_at, win_size};
ghost use Rattle.tree.specs.Tree.{head_of, if?, PartsOk};

use lookup::{Schema, Sides, Unresolved};
use parts::{resolve_aggs, resolve_roots, resolve_wins};
use refusals::{Reason, Refusal};
use tree::{JoinNode, JoinType, Node, ScanNode};

/// A node's row: the number of its first field, how many fields it has, how many of its first are known not to clash, and the number of the next
/// free field.
#[derive(Clone, Copy)]
pub struct Row {
    pub first: usize,
    pub width: usize,
    pub clear: usize,
    pub next: usize,
}

/// Is a node a join?
fn is_join(node: Node) -> bool
    ensures { result ≡ joins node }
{
    matches!(node, Node::Join(_))
}

/// Are a Union's inputs equally wide? Other nodes' need not be.
fn is_even(node: Node, left: usize, right: usize) -> bool
    ensures { result ≡ even_of node left right }
{
    !matches!(node, Node::Union { .. }) | (left == right)
}

/// What a join's references find: pair halves each in their own side, the condition in both. Its rows and roots are well formed, and the
/// sides lie in the array.
fn join_resolved(
    cells: &[u64],
    rows: &[u16],
    j: JoinNode,
    fields: &[u16],
    sides: Sides,
) -> Result<(), Unresolved>
    requires parts_ok { PartsOk (parts cells.now rows.now) (Node.Join j) }
    requires sides_clear { SidesClear fields.now sides }
    ensures { result ≡ resolving (passes_head (head_of (parts cells.now rows.now) (Node.Join j)) (left_row fields.now sides) (right_row fields.now sides)) }
{
    let pairs = parts::resolve_ons(cells, rows, j.first, j.n, fields, sides);
    if j.has_filter {
        let filter = lookup::resolve_both(cells, j.filter, fields, sides);
        return lookup::both_resolved(pairs, filter);
    }
    pairs
}

/// What a node's references find among the fields that they are over. Its rows and roots are well formed, and the sides lie in the array.
#[tactic(auto, unfolding(cpl::specs::Exprs::unary_exprs, cpl::specs::Exprs::leaf_exprs, cpl::specs::Accept::binary_passes, cpl::specs::Tests::all_b))]
fn node_resolved(
    cells: &[u64],
    rows: &[u16],
    node: Node,
    fields: &[u16],
    sides: Sides,
) -> Result<(), Unresolved>
    requires parts_ok { PartsOk (parts cells.now rows.now) node }
    requires sides_clear { SidesClear fields.now sides }
    ensures { result ≡ resolving (passes_head (head_of (parts cells.now rows.now) node) (left_row fields.now sides) (right_row fields.now sides)) }
{
    let own = Schema {
        fields,
        first: sides.left,
        width: sides.lwidth,
    };
    let clear = sides.clear;
    match node {
        Node::Projection { first, n } => resolve_roots(cells, rows, first, n, &own, clear),
        Node::Filter { root } => lookup::resolve_expr(cells, root, &own, clear),
        Node::Sort { first, n } => resolve_roots(cells, rows, first, n, &own, clear),
        Node::Aggregate {
            first,
            groups,
            aggregates,
        } => {
            let keys = resolve_roots(cells, rows, first, groups, &own, clear);
            let next = first + groups;
            let calls = resolve_aggs(cells, rows, next, aggregates, &own, clear);
            lookup::both_resolved(keys, calls)
        }
        Node::Window { first, n } => resolve_wins(cells, rows, first, n, &own, clear),
        Node::Join(j) => join_resolved(cells, rows, j, fields, sides),
        Node::Scan(s) => {
            let next = s.first + s.n;
            resolve_roots(cells, rows, next, s.filters, &own, clear)
        }
        Node::Limit { .. }
        | Node::SubqueryAlias { .. }
        | Node::Union { .. }
        | Node::Distinct
        | Node::Empty { .. } => Ok(()),
    }
}

/// What a scan's filters are over: all columns of its table under its qualifier, put from field `free` on. A scan without filters needs none.
fn table_sides(fields: &mut [u16], free: usize, names: &[u16], s: ScanNode, sides: Sides) -> Sides
    requires { Looking names.now fields.old free (Node.Scan s) sides }
    ensures { (C : Catalogue) (cells rows : List ℕ) → Named C names.now (Node.Scan s) → Looked C free (head_of (parts cells rows) (Node.Scan s)) sides result fields.old fields.new }
{
    if s.filters == 0 {
        return sides;
    }
    parts::scan_all(fields, free, names, s.table, s.qualifier);
    let width = parts::columns(names, s.table);
    Sides {
        left: free,
        lwidth: width,
        right: free,
        rwidth: 0,
        clear: false,
    }
}

/// What a node's expressions are over: its inputs' fields, or for a scan its table's.
fn input_sides(fields: &mut [u16], free: usize, names: &[u16], node: Node, sides: Sides) -> Sides
    requires { Looking names.now fields.old free node sides }
    ensures { (C : Catalogue) (cells rows : List ℕ) → Named C names.now node → Looked C free (head_of (parts cells rows) node) sides result fields.old fields.new }
{
    match node {
        Node::Scan(s) => table_sides(fields, free, names, s, sides),
        _ => sides,
    }
}

/// A row of too many fields, which is not stored.
fn over_row(free: usize, width: usize) -> Row
    ensures { result.width ≡ width }
{
    Row {
        first: free,
        width,
        clear: 0,
        next: free,
    }
}

/// A row that was put from field `free` on, of which the first `clear` do not clash.
fn put_row(free: usize, width: usize, clear: usize) -> Row
    requires { (free + width) * 2 < 2 ^ 64 }
    ensures { (result.first ≡ free) × (result.width ≡ width) × (result.clear ≡ clear) × (result.next ≡ free + width) }
{
    Row {
        first: free,
        width,
        clear,
        next: free + width,
    }
}

/// A row that another node has too, whose fields do not clash: nothing is put.
fn same_row(first: usize, width: usize, free: usize) -> Row
    ensures { (result.first ≡ first) × (result.width ≡ width) × (result.clear ≡ width) × (result.next ≡ free) }
{
    Row {
        first,
        width,
        clear: width,
        next: free,
    }
}

/// The pairs of `n` rows as fields from field `free` on, at most `most`. The rows lie in the array, and there is room.
fn pairs_row(
    fields: &mut [u16],
    free: usize,
    most: usize,
    rows: &[u16],
    first: usize,
    n: usize,
) -> Row
    requires row_in { RowIn fields.old free most }
    requires each_ok { EachOk (Inside rows.now) rows.now first n }
    ensures { Rowed free most result (pairs_at rows.now first n) fields.old fields.new }
{
    if most < n {
        return over_row(free, n);
    }
    parts::take_pairs(fields, free, rows, first, n);
    put_row(free, n, 0)
}

/// The left side's fields and those of `n` windows as fields from field `free` on, at most `most`. The rows lie in the array.
fn window_row(
    fields: &mut [u16],
    free: usize,
    most: usize,
    rows: &[u16],
    first: usize,
    n: usize,
    sides: Sides,
) -> Row
    requires sides_ready { SidesReady fields.old free most sides }
    requires all_at { AllAt (WinInside rows.now) (win_size rows.now) first n }
    ensures { Rowed free most result (left_row fields.old sides ++ list_at (pair_at rows.now) (win_size rows.now) first n) fields.old fields.new }
{
    let own = sides.lwidth;
    let width = own + n;
    if most < width {
        return over_row(free, width);
    }
    lookup::copy_fields(fields, free, sides.left, own);
    parts::win_pairs(fields, free + own, rows, first, n);
    put_row(free, width, own)
}

/// The left side's fields under a qualifier as fields from field `free` on.
fn alias_row(fields: &mut [u16], free: usize, most: usize, qualifier: u16, sides: Sides) -> Row
    requires { SidesReady fields.old free most sides }
    ensures { Rowed free most result (map (requalify qualifier) (left_row fields.old sides)) fields.old fields.new }
{
    lookup::alias_fields(fields, free, sides.left, sides.lwidth, qualifier);
    put_row(free, sides.lwidth, 0)
}

/// The fields of both sides as fields from field `free` on, at most `most`.
fn both_row(fields: &mut [u16], free: usize, most: usize, sides: Sides) -> Row
    requires { SidesReady fields.old free most sides }
    ensures { Rowed free most result (left_row fields.old sides ++ right_row fields.old sides) fields.old fields.new }
{
    let own = sides.lwidth;
    let width = own + sides.rwidth;
    if most < width {
        return over_row(free, width);
    }
    lookup::copy_fields(fields, free, sides.left, own);
    lookup::copy_fields(fields, free + own, sides.right, sides.rwidth);
    put_row(free, width, own)
}

/// A join's fields, by its type: one side's, or both from field `free` on.
#[tactic(auto, unfolding(cpl::specs::Fields::join_fields))]
fn join_row(fields: &mut [u16], free: usize, most: usize, join_type: JoinType, sides: Sides) -> Row
    requires { SidesReady fields.old free most sides }
    ensures { Rowed free most result (join_fields (join_is join_type) (left_row fields.old sides) (right_row fields.old sides)) fields.old fields.new }
{
    match join_type {
        JoinType::Inner | JoinType::Left | JoinType::Right | JoinType::Full => {
            both_row(fields, free, most, sides)
        }
        JoinType::LeftSemi | JoinType::LeftAnti => same_row(sides.left, sides.lwidth, free),
        JoinType::RightSemi | JoinType::RightAnti => same_row(sides.right, sides.rwidth, free),
    }
}

/// A scan's fields from field `free` on. Its table and its rows lie in their arrays, its columns are the table's, at most `most`, and there is room.
fn scan_row(
    fields: &mut [u16],
    free: usize,
    most: usize,
    names: &[u16],
    rows: &[u16],
    s: ScanNode,
) -> Row
    requires row_in { RowIn fields.old free most }
    requires scan_inside { ScanInside most names.now rows.now s }
    ensures { Rowed free most result (map (scan_field (table_at names.now s.table) s.qualifier) (columns_of (table_at names.now s.table) (if? s.given (columns_at rows.now s.first s.n)))) fields.old fields.new }
{
    if s.given {
        parts::scan_given(
            fields,
            free,
            names,
            s.table,
            s.qualifier,
            rows,
            s.first,
            s.n,
        );
        return put_row(free, s.n, 0);
    }
    parts::scan_all(fields, free, names, s.table, s.qualifier);
    let width = parts::columns(names, s.table);
    put_row(free, width, 0)
}

/// A node's fields, at most `most`: an input's, or from field `free` on. What gives them lies in the arrays.
#[tactic(auto, unfolding(cpl::specs::Fields::unary_fields, cpl::specs::Fields::binary_fields, cpl::specs::Fields::leaf_fields))]
fn node_row(
    fields: &mut [u16],
    free: usize,
    most: usize,
    names: &[u16],
    rows: &[u16],
    node: Node,
    sides: Sides,
) -> Row
    requires node_inside { NodeInside most names.now rows.now node }
    requires sides_ready { SidesReady fields.old free most sides }
    ensures { (C : Catalogue) (cells : List ℕ) → Named C names.now node → Rowed free most result (fields_head C (head_of (parts cells rows.now) node) (left_row fields.old sides) (right_row fields.old sides)) fields.old fields.new }
{
    match node {
        Node::Projection { first, n } | Node::Empty { first, n, .. } => {
            pairs_row(fields, free, most, rows, first, n)
        }
        Node::Filter { .. }
        | Node::Sort { .. }
        | Node::Limit { .. }
        | Node::Union { .. }
        | Node::Distinct => same_row(sides.left, sides.lwidth, free),
        Node::Aggregate {
            first,
            groups,
            aggregates,
        } => pairs_row(fields, free, most, rows, first, groups + aggregates),
        Node::Window { first, n } => window_row(fields, free, most, rows, first, n, sides),
        Node::SubqueryAlias { qualifier } => alias_row(fields, free, most, qualifier, sides),
        Node::Join(j) => join_row(fields, free, most, j.join_type, sides),
        Node::Scan(s) => scan_row(fields, free, most, names, rows, s),
    }
}

/// The verdict on node `k` alone, whose sides are its inputs' fields: 8, 17, 9, 10, 7 in that order. Its fields, at most `most`, stand where its
/// input's do, or from field `free` on. Its rows and roots are well formed, and what gives its fields lies in the arrays.
pub fn own_verdict(
    cells: &[u64],
    rows: &[u16],
    names: &[u16],
    most: usize,
    node: Node,
    sides: Sides,
    fields: &mut [u16],
    widths: &mut [u64],
    k: usize,
    free: usize,
) -> Result<usize, Refusal>
    requires parts_ok { PartsOk (parts cells.now rows.now) node × NodeInside most names.now rows.now node }
    requires sides_ready { SidesReady fields.old free most sides × (k < max_nodes) × (max_nodes + max_nodes ≤ length widths.old) }
    ensures { (C : Catalogue) → C.version.max_fields ≡ most → Named C names.now node → Judged C (head_of (parts cells.now rows.now) node) (left_row fields.old sides) (right_row fields.old sides) k free fields.old widths.old fields.new widths.new result }
{
    let over = input_sides(fields, free, names, node, sides);
    match node_resolved(cells, rows, node, fields, over) {
        Ok(()) => {}
        Err(Unresolved::Unknown) => return Err(Refusal::new(Reason::Unknown, k)),
        Err(Unresolved::Ambiguous) => return Err(Refusal::new(Reason::Ambiguous, k)),
    }
    if !is_even(node, sides.lwidth, sides.rwidth) {
        return Err(Refusal::new(Reason::Width, k));
    }
    let row = node_row(fields, free, most, names, rows, node, sides);
    if most < row.width {
        return Err(Refusal::new(Reason::Fields, k));
    }
    widths[k] = row.width as u64;
    widths[256 + k] = row.first as u64;
    if is_join(node) {
        if lookup::sides_clash(fields, sides) {
            return Err(Refusal::new(Reason::Clash, k));
        }
        return Ok(row.next);
    }
    if lookup::clash_from(fields, row.first, row.clear, row.width) {
        return Err(Refusal::new(Reason::Clash, k));
    }
    Ok(row.next)
}
