//! The parts of a plan's nodes as text: expressions, items, keys, functions, aggregates, windows, pairs of a join, and lists of them. Each function
//! puts its text into the lent buffer from `at` on and answers the place after it, as those of `text_put` do.
#![tactic(auto)]

ghost use Rattle.std.specs.Prelude.{◌≡◌, ◌+◌, ◌<◌, ◌≤◌};
ghost use Rattle.cpl.specs.Codes.{fn_of, op1_of, op2_of};
ghost use Rattle.plan_text.specs.Words.{w_open, w_space};
ghost use Rattle.plan_text.specs.Write.{◌·◌, agg_text, call_text, expr_text, fn_text, if, item_text, key_text, on_text, op1_text, op2_text, win_text, word};
ghost use Rattle.arena.specs.Cells.{expr_at, Wf};
ghost use Rattle.arena.specs.Rows.{item_at, RowOk};
ghost use Rattle.tree.specs.Rows.{agg_at, AggOk, call_of, key_at, KeyOk, on_at, OnOk, one, win_at, WinOk, win_size};
ghost use Rattle.text_put.specs.Puts.{Puts};
ghost use Rattle.text_parts.specs.Parts.{PartOk, PartsOk, WinsOk, members_at, more_at, part_text, win_text_at};

use arena::View;
use text_put::{put_pair, put_text};

/// What a row holds.
#[derive(Clone, Copy)]
pub enum Part {
    Item,
    Key,
    Agg,
    Expr,
    On,
    Pair,
    Column,
}

/// A word, or nothing.
#[tactic(auto, using(crate::proofs::Parts::yes_put, crate::proofs::Parts::no_put))]
pub fn put_if(out: &mut [u8], at: usize, yes: bool, s: &[u8]) -> usize
    ensures { Puts (if yes (word s.now)) at out.old result out.new }
{
    if yes {
        return put_text(out, at, s);
    }
    at
}

// The bracket and the operator with one operand, by its tag.
#[tactic(auto, unfolding(cpl::specs::Codes::op1_of, plan_text::specs::Write::op1_text))]
fn put_one(out: &mut [u8], at: usize, t: u64) -> usize
    requires { (3 ≤ t) × (t < 5) }
    ensures { Puts (word w_open · op1_text (op1_of t)) at out.old result out.new }
{
    match t {
        3 => put_text(out, at, b"(not "),
        _ => put_text(out, at, b"(is-missing "),
    }
}

// The operator with two operands, by its tag, between spaces.
#[tactic(auto, unfolding(cpl::specs::Codes::op2_of, plan_text::specs::Write::op2_text))]
fn put_two(out: &mut [u8], at: usize, t: u64) -> usize
    requires { (5 ≤ t) × (t < 12) }
    ensures { Puts (word w_space · op2_text (op2_of t)) at out.old result out.new }
{
    match t {
        5 => put_text(out, at, b" + "),
        6 => put_text(out, at, b" - "),
        7 => put_text(out, at, b" * "),
        8 => put_text(out, at, b" = "),
        9 => put_text(out, at, b" < "),
        10 => put_text(out, at, b" and "),
        _ => put_text(out, at, b" or "),
    }
}

/// The expression of node i, its operators in brackets.
pub fn put_expr(cells: &[u64], i: usize, out: &mut [u8], at: usize) -> usize
    requires { Wf cells.now (i + 1) }
    ensures { Puts (expr_text (expr_at cells.now i)) at out.old result out.new }
{
    let v = arena::node_at(cells, i);
    match v {
        View::Col(q, n) => put_pair(out, at, q, n),
        View::Lit(x) => text_put::put_integer(out, at, x),
        View::Miss => put_text(out, at, b"missing"),
        View::One(t, x) => {
            let a = put_one(out, at, t);
            let b = put_expr(cells, x, out, a);
            put_text(out, b, b")")
        }
        View::Two(t, x, y) => {
            let a = put_text(out, at, b"(");
            let b = put_expr(cells, x, out, a);
            let c = put_two(out, b, t);
            let d = put_expr(cells, y, out, c);
            put_text(out, d, b")")
        }
    }
}

/// An item: a column, or an expression with its alias.
#[tactic(auto, using(crate::proofs::Parts::item_bare, arena::proofs::Rows::read_wf))]
pub fn put_item(rows: &[u16], cells: &[u64], i: usize, out: &mut [u8], at: usize) -> usize
    requires { RowOk rows.now cells.now i }
    ensures { Puts (item_text (item_at rows.now cells.now i)) at out.old result out.new }
{
    let row = arena::row_at(rows, i);
    if row.mark == 0 {
        return put_pair(out, at, row.qualifier, row.name);
    }
    let a = put_expr(cells, row.root, out, at);
    let b = put_text(out, a, b" as ");
    put_pair(out, b, row.qualifier, row.name)
}

/// A key: its expression, and what its flags say.
pub fn put_key(rows: &[u16], cells: &[u64], i: usize, out: &mut [u8], at: usize) -> usize
    requires { KeyOk rows.now cells.now i }
    ensures { Puts (key_text (key_at rows.now cells.now i)) at out.old result out.new }
{
    let row = tree::key_at(rows, i);
    let a = put_expr(cells, row.root, out, at);
    let b = put_if(out, a, row.flags % 2 == 1, b" down");
    put_if(out, b, row.flags / 2 == 1, b" first")
}

// The name of a function with an expression, by its number, and the bracket.
#[tactic(auto, unfolding(cpl::specs::Codes::fn_of, plan_text::specs::Write::fn_text))]
fn put_fn(out: &mut [u8], at: usize, f: u16) -> usize
    requires { (0 < f) × (f < 5) }
    ensures { Puts (fn_text (fn_of f)) at out.old result out.new }
{
    match f {
        1 => put_text(out, at, b"count("),
        2 => put_text(out, at, b"sum("),
        3 => put_text(out, at, b"min("),
        _ => put_text(out, at, b"max("),
    }
}

/// A function with its expression; function 0 has none, and the word `alone`.
#[tactic(auto, using(crate::proofs::Parts::call_none, crate::proofs::Parts::call_over_lem))]
pub fn put_call(
    cells: &[u64],
    f: u16,
    root: usize,
    alone: &[u8],
    out: &mut [u8],
    at: usize,
) -> usize
    requires { (f < 5) × (0 < f → Wf cells.now (root + 1)) }
    ensures { Puts (call_text alone.now (call_of f (expr_at cells.now root))) at out.old result out.new }
{
    if f == 0 {
        return put_text(out, at, alone);
    }
    let a = put_fn(out, at, f);
    let b = put_expr(cells, root, out, a);
    put_text(out, b, b")")
}

/// An aggregate: its function, and its pair.
#[tactic(auto, using(crate::proofs::Parts::agg_put))]
pub fn put_agg(rows: &[u16], cells: &[u64], i: usize, out: &mut [u8], at: usize) -> usize
    requires { AggOk rows.now cells.now i }
    ensures { Puts (agg_text (agg_at rows.now cells.now i)) at out.old result out.new }
{
    let row = tree::agg_at(rows, i);
    let a = put_call(cells, row.function, row.root, b"rows()", out, at);
    let b = put_text(out, a, b" as ");
    put_pair(out, b, row.qualifier, row.name)
}

/// A pair of a join: its two expressions.
#[tactic(auto, using(crate::proofs::Parts::on_put))]
pub fn put_on(rows: &[u16], cells: &[u64], i: usize, out: &mut [u8], at: usize) -> usize
    requires { OnOk rows.now cells.now i }
    ensures { Puts (on_text (on_at rows.now cells.now i)) at out.old result out.new }
{
    let row = tree::on_at(rows, i);
    let a = put_expr(cells, row.left, out, at);
    let b = put_text(out, a, b" = ");
    put_expr(cells, row.right, out, b)
}

/// A row by what it holds.
pub fn put_part(
    part: Part,
    rows: &[u16],
    cells: &[u64],
    i: usize,
    out: &mut [u8],
    at: usize,
) -> usize
    requires { PartOk part rows.now cells.now i }
    ensures { Puts (part_text part rows.now cells.now i) at out.old result out.new }
{
    match part {
        Part::Item => put_item(rows, cells, i, out, at),
        Part::Key => put_key(rows, cells, i, out, at),
        Part::Agg => put_agg(rows, cells, i, out, at),
        Part::Expr => {
            let row = arena::row_at(rows, i);
            put_expr(cells, row.root, out, at)
        }
        Part::On => put_on(rows, cells, i, out, at),
        Part::Pair => {
            let row = tree::pair_at(rows, i);
            put_pair(out, at, row.qualifier, row.name)
        }
        Part::Column => text_put::put_number(out, at, tree::column_at(rows, i) as u64),
    }
}

// What follows a member of a list: n rows from `first` on, each behind a comma, and the closing bracket.
fn put_more(
    part: Part,
    rows: &[u16],
    cells: &[u64],
    first: usize,
    n: usize,
    out: &mut [u8],
    at: usize,
) -> usize
    requires { PartsOk part rows.now cells.now first n }
    ensures { Puts (more_at (part_text part rows.now cells.now) one first n) at out.old result out.new }
{
    let mut end = at;
    for i in 0..n {
        let a = put_text(out, end, b", ");
        end = put_part(part, rows, cells, first + i, out, a);
    }
    put_text(out, end, b"]")
}

/// A list behind its opening bracket: n rows from `first` on, and the closing bracket.
pub fn put_members(
    part: Part,
    rows: &[u16],
    cells: &[u64],
    first: usize,
    n: usize,
    out: &mut [u8],
    at: usize,
) -> usize
    requires { PartsOk part rows.now cells.now first n }
    ensures { Puts (members_at (part_text part rows.now cells.now) one first n) at out.old result out.new }
{
    if n == 0 {
        return put_text(out, at, b"]");
    }
    let a = put_part(part, rows, cells, first, out, at);
    put_more(part, rows, cells, first + 1, n - 1, out, a)
}

/// The window from row i on: its function, its parts, its keys, its pair.
pub fn put_win(rows: &[u16], cells: &[u64], i: usize, out: &mut [u8], at: usize) -> usize
    requires { WinOk rows.now cells.now i }
    ensures { Puts (win_text (win_at rows.now cells.now i)) at out.old result out.new }
{
    let w = tree::win_at(rows, i);
    let a = put_call(cells, w.function, w.root, b"number()", out, at);
    let b = put_text(out, a, b" by [");
    let c = put_members(Part::Expr, rows, cells, i + 1, w.parts, out, b);
    let d = put_text(out, c, b" order [");
    let e = put_members(Part::Key, rows, cells, w.key, w.keys, out, d);
    let f = put_text(out, e, b" as ");
    put_pair(out, f, w.qualifier, w.name)
}

// What follows a window of a list: n windows from row `first` on, each behind a comma, and the closing bracket.
fn put_more_wins(
    rows: &[u16],
    cells: &[u64],
    first: usize,
    n: usize,
    out: &mut [u8],
    at: usize,
) -> usize
    requires { WinsOk rows.now cells.now first n }
    ensures { Puts (more_at (win_text_at rows.now cells.now) (win_size rows.now) first n) at out.old result out.new }
{
    let mut end = at;
    let mut row = first;
    for _ in 0..n {
        let a = put_text(out, end, b", ");
        end = put_win(rows, cells, row, out, a);
        row = tree::win_at(rows, row).next;
    }
    put_text(out, end, b"]")
}

/// A list of windows behind its opening bracket: n windows from row `first` on, and the closing bracket.
pub fn put_wins(
    rows: &[u16],
    cells: &[u64],
    first: usize,
    n: usize,
    out: &mut [u8],
    at: usize,
) -> usize
    requires { WinsOk rows.now cells.now first n }
    ensures { Puts (members_at (win_text_at rows.now cells.now) (win_size rows.now) first n) at out.old result out.new }
{
    if n == 0 {
        return put_text(out, at, b"]");
    }
    let a = put_win(rows, cells, first, out, at);
    put_more_wins(rows, cells, tree::win_at(rows, first).next, n - 1, out, a)
}
