//! The nodes of a plan as text, a line each, and a whole plan: node by node into the lent buffer from `at` on, as the functions of `text_put` do.
#![tactic(auto)]

ghost use Rattle.std.specs.Prelude.{true, ◌≡◌, ◌+◌, ◌<◌, ◌≤◌};
ghost use Rattle.cpl.specs.Plan.{aggregate, empty, filter, limit, subquery_alias, window};
ghost use Rattle.cpl.specs.ReadPlan.{fetch_of};
ghost use Rattle.plan_text.specs.Listing.{indent, plan_text};
ghost use Rattle.plan_text.specs.Write.{◌·◌, columns_text, cond_text, fetch_text, filters_text, join_text, leaf_text, unary_text, word};
ghost use Rattle.plan_text.specs.Words.{w_newline};
ghost use Rattle.arena.specs.Cells.{expr_at, Wf};
ghost use Rattle.arena.specs.Rows.{items_at, RowsOk};
ghost use Rattle.tree.specs.Node.{join_is};
ghost use Rattle.tree.specs.Rows.{AggOk, EachOk, ExprOk, Inside, aggs_at, columns_at, exprs_at, one, pairs_at, wins_at};
ghost use Rattle.tree.specs.Tree.{if?, lent, plan_at};
ghost use Rattle.text_put.specs.Puts.{Puts};
ghost use Rattle.text_parts.specs.Parts.{PartsOk, WinsOk, members_at, part_text};
ghost use Rattle.text_plan.specs.Heads.{JoinOk, NodeOk, ScanOk, Walks, join_at, node_text, scan_at};

use text_parts::Part;
use text_put::{put_number, put_text};
use tree::{Inputs, JoinNode, JoinType, Node, ScanNode};

// How many rows are fetched: a number, or `none`.
#[tactic(auto, using(crate::proofs::Heads::fetch_some, crate::proofs::Heads::fetch_none))]
fn put_fetch(out: &mut [u8], at: usize, fetch: u32) -> usize
    ensures { Puts (fetch_text (fetch_of fetch)) at out.old result out.new }
{
    if fetch == 4294967295 {
        return put_text(out, at, b"none");
    }
    put_number(out, at, u64::from(fetch))
}

// A join's type, and the word before its pairs.
#[tactic(auto, unfolding(plan_text::specs::Write::join_text))]
fn put_type(out: &mut [u8], at: usize, t: JoinType) -> usize
    ensures { Puts (join_text (join_is t)) at out.old result out.new }
{
    match t {
        JoinType::Inner => put_text(out, at, b"inner on "),
        JoinType::Left => put_text(out, at, b"left on "),
        JoinType::Right => put_text(out, at, b"right on "),
        JoinType::Full => put_text(out, at, b"full on "),
        JoinType::LeftSemi => put_text(out, at, b"leftsemi on "),
        JoinType::LeftAnti => put_text(out, at, b"leftanti on "),
        JoinType::RightSemi => put_text(out, at, b"rightsemi on "),
        JoinType::RightAnti => put_text(out, at, b"rightanti on "),
    }
}

// A join's condition, if it has one.
#[tactic(auto, using(crate::proofs::Heads::condition_some, crate::proofs::Heads::condition_none))]
fn put_condition(cells: &[u64], has: bool, root: usize, out: &mut [u8], at: usize) -> usize
    requires { has ≡ true → Wf cells.now (root + 1) }
    ensures { Puts (cond_text (if? has (expr_at cells.now root))) at out.old result out.new }
{
    if has {
        let a = put_text(out, at, b" if ");
        return text_parts::put_expr(cells, root, out, a);
    }
    at
}

// The columns of a scan, if they are given.
#[tactic(auto, using(text_parts::proofs::Parts::each_all, crate::proofs::Heads::columns_some, crate::proofs::Heads::columns_none))]
fn put_columns(
    rows: &[u16],
    cells: &[u64],
    given: bool,
    first: usize,
    n: usize,
    out: &mut [u8],
    at: usize,
) -> usize
    requires { EachOk (Inside rows.now) rows.now first n }
    ensures { Puts (columns_text (if? given (columns_at rows.now first n))) at out.old result out.new }
{
    if given {
        let a = put_text(out, at, b" [");
        return text_parts::put_members(Part::Column, rows, cells, first, n, out, a);
    }
    at
}

// The filters of a scan, if it has any.
#[tactic(auto, using(text_parts::proofs::Parts::each_all, crate::proofs::Heads::filters_some, crate::proofs::Heads::filters_none))]
fn put_filters(
    rows: &[u16],
    cells: &[u64],
    first: usize,
    n: usize,
    out: &mut [u8],
    at: usize,
) -> usize
    requires { EachOk (ExprOk rows.now cells.now) rows.now first n }
    ensures { Puts (filters_text (exprs_at rows.now cells.now first n)) at out.old result out.new }
{
    if n == 0 {
        return at;
    }
    let a = put_text(out, at, b" where [");
    text_parts::put_members(Part::Expr, rows, cells, first, n, out, a)
}

// A scan: its table, its qualifier, its columns, its filters.
#[tactic(auto, using(crate::proofs::Heads::scan_put))]
fn put_scan(s: ScanNode, rows: &[u16], cells: &[u64], out: &mut [u8], at: usize) -> usize
    requires { ScanOk rows.now cells.now s }
    ensures { Puts (scan_at rows.now cells.now s) at out.old result out.new }
{
    let a = put_text(out, at, b"scan ");
    let b = put_number(out, a, s.table as u64);
    let c = put_text(out, b, b" as q");
    let d = put_number(out, c, u64::from(s.qualifier));
    let e = put_columns(rows, cells, s.given, s.first, s.n, out, d);
    put_filters(rows, cells, s.first + s.n, s.filters, out, e)
}

// A join: its type, its pairs, its condition.
#[tactic(auto, using(text_parts::proofs::Parts::each_all, crate::proofs::Heads::join_put))]
fn put_join(j: JoinNode, rows: &[u16], cells: &[u64], out: &mut [u8], at: usize) -> usize
    requires { JoinOk rows.now cells.now j }
    ensures { Puts (join_at rows.now cells.now j) at out.old result out.new }
{
    let a = put_text(out, at, b"join ");
    let t = j.join_type;
    let b = put_type(out, a, t);
    let c = put_list(b"[", Part::On, rows, cells, j.first, j.n, out, b);
    put_condition(cells, j.has_filter, j.filter, out, c)
}

// An Empty: whether it has a row, its fields.
#[tactic(auto, using(text_parts::proofs::Parts::each_all, crate::proofs::Heads::empty_put))]
fn put_empty(
    row: bool,
    rows: &[u16],
    cells: &[u64],
    first: usize,
    n: usize,
    out: &mut [u8],
    at: usize,
) -> usize
    requires { EachOk (Inside rows.now) rows.now first n }
    ensures { Puts (leaf_text (empty row (pairs_at rows.now first n))) at out.old result out.new }
{
    let a = put_text(out, at, b"empty ");
    let b = text_parts::put_if(out, a, row, b"one-row ");
    put_list(b"[", Part::Pair, rows, cells, first, n, out, b)
}

// A node's word with the opening bracket, and the list behind it.
fn put_list(
    s: &[u8],
    part: Part,
    rows: &[u16],
    cells: &[u64],
    first: usize,
    n: usize,
    out: &mut [u8],
    at: usize,
) -> usize
    requires { PartsOk part rows.now cells.now first n }
    ensures { Puts (word s.now · members_at (part_text part rows.now cells.now) one first n) at out.old result out.new }
{
    let a = put_text(out, at, s);
    text_parts::put_members(part, rows, cells, first, n, out, a)
}

// A filter.
fn put_filter(cells: &[u64], root: usize, out: &mut [u8], at: usize) -> usize
    requires { Wf cells.now (root + 1) }
    ensures { Puts (unary_text (filter (expr_at cells.now root))) at out.old result out.new }
{
    let a = put_text(out, at, b"filter ");
    text_parts::put_expr(cells, root, out, a)
}

// A limit: how many rows are skipped, how many are fetched.
#[tactic(auto, using(crate::proofs::Heads::limit_put))]
fn put_limit(out: &mut [u8], at: usize, skip: u32, fetch: u32) -> usize
    ensures { Puts (unary_text (limit skip (fetch_of fetch))) at out.old result out.new }
{
    let a = put_text(out, at, b"limit ");
    let b = put_number(out, a, u64::from(skip));
    let c = put_text(out, b, b" ");
    put_fetch(out, c, fetch)
}

// An aggregate: its groups, its aggregates.
#[tactic(auto, using(text_parts::proofs::Parts::each_all, text_parts::proofs::Parts::rows_all))]
fn put_aggregate(
    rows: &[u16],
    cells: &[u64],
    first: usize,
    groups: usize,
    aggregates: usize,
    out: &mut [u8],
    at: usize,
) -> usize
    requires { RowsOk rows.now cells.now first groups × EachOk (AggOk rows.now cells.now) rows.now (first + groups) aggregates }
    ensures { Puts (unary_text (aggregate (items_at rows.now cells.now first groups) (aggs_at rows.now cells.now (first + groups) aggregates))) at out.old result out.new }
{
    let a = put_list(
        b"aggregate [",
        Part::Item,
        rows,
        cells,
        first,
        groups,
        out,
        at,
    );
    put_list(
        b" [",
        Part::Agg,
        rows,
        cells,
        first + groups,
        aggregates,
        out,
        a,
    )
}

// A window node.
fn put_window(
    rows: &[u16],
    cells: &[u64],
    first: usize,
    n: usize,
    out: &mut [u8],
    at: usize,
) -> usize
    requires { WinsOk rows.now cells.now first n }
    ensures { Puts (unary_text (window (wins_at rows.now cells.now first n))) at out.old result out.new }
{
    let a = put_text(out, at, b"window [");
    text_parts::put_wins(rows, cells, first, n, out, a)
}

// A SubqueryAlias.
fn put_alias(out: &mut [u8], at: usize, qualifier: u16) -> usize
    ensures { Puts (unary_text (subquery_alias qualifier)) at out.old result out.new }
{
    let a = put_text(out, at, b"subqueryalias q");
    put_number(out, a, u64::from(qualifier))
}

/// A node without its inputs: its kind, then what it holds.
pub fn put_head(node: Node, rows: &[u16], cells: &[u64], out: &mut [u8], at: usize) -> usize
    requires { NodeOk rows.now cells.now node }
    ensures { Puts (node_text rows.now cells.now node) at out.old result out.new }
{
    match node {
        Node::Projection { first, n } => put_list(
            b"projection [",
            Part::Item,
            rows,
            cells,
            first,
            n,
            out,
            at,
        ),
        Node::Filter { root } => put_filter(cells, root, out, at),
        Node::Sort { first, n } => put_list(b"sort [", Part::Key, rows, cells, first, n, out, at),
        Node::Limit { skip, fetch } => put_limit(out, at, skip, fetch),
        Node::Aggregate {
            first,
            groups,
            aggregates,
        } => put_aggregate(rows, cells, first, groups, aggregates, out, at),
        Node::Window { first, n } => put_window(rows, cells, first, n, out, at),
        Node::SubqueryAlias { qualifier } => put_alias(out, at, qualifier),
        Node::Union { .. } => put_text(out, at, b"union"),
        Node::Distinct => put_text(out, at, b"distinct"),
        Node::Join(j) => put_join(j, rows, cells, out, at),
        Node::Scan(s) => put_scan(s, rows, cells, out, at),
        Node::Empty { one_row, first, n } => put_empty(one_row, rows, cells, first, n, out, at),
    }
}

// Two spaces for each level.
fn put_indent(out: &mut [u8], at: usize, level: usize) -> usize
    ensures { Puts (indent level) at out.old result out.new }
{
    let mut end = at;
    for _ in 0..level {
        end = put_text(out, end, b"  ");
    }
    end
}

/// The line of a node at this level.
pub fn put_line(
    level: usize,
    node: Node,
    rows: &[u16],
    cells: &[u64],
    out: &mut [u8],
    at: usize,
) -> usize
    requires { NodeOk rows.now cells.now node }
    ensures { Puts (indent level · node_text rows.now cells.now node · word w_newline) at out.old result out.new }
{
    let a = put_indent(out, at, level);
    let b = put_head(node, rows, cells, out, a);
    put_text(out, b, b"\n")
}

/// The lines of the plan at node k, which stands at this level: its own, then those of its inputs.
pub fn put_plan(
    cells: &[u64],
    rows: &[u16],
    nodes: &[u64],
    k: usize,
    level: usize,
    out: &mut [u8],
    at: usize,
) -> usize
    requires walks { Walks cells.now rows.now nodes.now k }
    requires level_le_k { level ≤ k }
    ensures { Puts (plan_text level (plan_at (lent cells.now rows.now nodes.now) k)) at out.old result out.new }
{
    let node = tree::node_at(nodes, k);
    let a = put_line(level, node, rows, cells, out, at);
    match tree::inputs_of(node) {
        Inputs::Nothing => a,
        Inputs::One => put_plan(cells, rows, nodes, k + 1, level + 1, out, a),
        Inputs::Two(right) => {
            let b = put_plan(cells, rows, nodes, k + 1, level + 1, out, a);
            put_plan(cells, rows, nodes, right, level + 1, out, b)
        }
    }
}
