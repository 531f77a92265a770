//! Writing the parts of a node: each writer fills the start of the buffer that it is lent, and lends the rest on. What is written is
//! counted first, its bytes and its expression tags.
#![tactic(auto)]

ghost use Rattle.std.specs.Prelude.{option_copied, ◌∷◌, ◌≡◌, ◌+◌, ◌^◌, ◌<◌, ◌≤◌, length};
ghost use Rattle.cpl.specs.Bytes.{agg_bytes, bytes, call_bytes, expr_bytes, item_bytes, key_bytes, on_bytes, pair_bytes, win_bytes};
ghost use Rattle.cpl.specs.Exprs.{agg_tags, call_exprs, expr_tags, item_tags, key_tags, on_tags, win_tags};
ghost use Rattle.cpl.specs.Plan.{pair};
ghost use Rattle.cpl.specs.Tests.{sum_of};
ghost use Rattle.arena.specs.Cells.{expr_at, Wf};
ghost use Rattle.arena.specs.Rows.{item_at, RowOk};
ghost use Rattle.tree.specs.Rows.{agg_at, AggOk, call_of, key_at, KeyOk, on_at, OnOk, win_at, WinOk};
ghost use Rattle.writer_parts.specs.Wrote.{Countable, Counts, Laid, Wrote};
ghost use Rattle.writer_parts.specs.Parts.{part_bytes, PartOk, part_tags};
ghost use Rattle.writer_parts.specs.Lists.{counted_list, list_bytes, list_tags, PartsOk, taken_count, takes, which_of, wins_bytes, WinsOk, wins_tags};

use arena::View;
use required_indices::RequiredIndices;
use std::ops::Add;

/// How many bytes, and how many expression tags.
#[derive(Clone, Copy)]
pub struct Size {
    pub bytes: usize,
    pub tags: usize,
}

/// What a row holds: a row of four numbers, or a field, or only its own number. A column and a number are written in that many bytes.
#[derive(Clone, Copy)]
pub enum Part {
    Item,
    Key,
    Agg,
    Expr,
    On,
    Pair,
    Column(usize),
    Index(usize),
    Field,
}

/// Two sizes together.
impl Add for Size {
    type Output = Size;

    ghost can_add = { λ a b. (a.bytes + b.bytes < 2 ^ 64) × (a.tags + b.tags < 2 ^ 64) };

    ghost add_gives = { λ a b r. Counts (a.bytes + b.bytes) (a.tags + b.tags) r };

    fn add(self, other: Size) -> Size {
        Size {
            bytes: self.bytes + other.bytes,
            tags: self.tags + other.tags,
        }
    }
}

// The two lowest bytes of x, the lowest first, at the start of out.
fn put_two(out: &mut [u8], x: u64)
    requires { 2 ≤ length out.old }
    ensures { Wrote (bytes 2 x) out.old 2 out.new }
{
    out[0] = (x % 256) as u8;
    out[1] = (x / 256 % 256) as u8;
}

// The four lowest bytes of x.
fn put_four(out: &mut [u8], x: u64)
    requires { 4 ≤ length out.old }
    ensures { Wrote (bytes 4 x) out.old 4 out.new }
{
    put_two(out, x);
    put_two(&mut out[2..], x / 65536);
}

// The eight bytes of x.
fn put_eight(out: &mut [u8], x: u64)
    requires { 8 ≤ length out.old }
    ensures { Wrote (bytes 8 x) out.old 8 out.new }
{
    put_four(out, x);
    put_four(&mut out[4..], x / 4294967296);
}

// The three lowest bytes of x.
fn put_three(out: &mut [u8], x: u64)
    requires { 3 ≤ length out.old }
    ensures { Wrote (bytes 3 x) out.old 3 out.new }
{
    out[0] = (x % 256) as u8;
    put_two(&mut out[1..], x / 256);
}

// The five lowest bytes of x.
fn put_five(out: &mut [u8], x: u64)
    requires { 5 ≤ length out.old }
    ensures { Wrote (bytes 5 x) out.old 5 out.new }
{
    out[0] = (x % 256) as u8;
    put_four(&mut out[1..], x / 256);
}

// The k lowest bytes of x, byte by byte: for a width that nothing written has.
fn put_any(out: &mut [u8], k: usize, x: u64)
    requires { k ≤ length out.old }
    ensures { Wrote (bytes k x) out.old k out.new }
{
    if k > 0 {
        out[0] = (x % 256) as u8;
        put_any(&mut out[1..], k - 1, x / 256);
    }
}

/// The k lowest bytes of x, the lowest first, at the start of out.
pub fn put(out: &mut [u8], k: usize, x: u64)
    requires { k ≤ length out.old }
    ensures { Wrote (bytes k x) out.old k out.new }
{
    match k {
        1 => {
            out[0] = (x % 256) as u8;
        }
        2 => put_two(out, x),
        3 => put_three(out, x),
        4 => put_four(out, x),
        5 => put_five(out, x),
        8 => put_eight(out, x),
        _ => put_any(out, k, x),
    }
}

/// The k lowest bytes of x from `at` on; the place after them.
pub fn put_at(out: &mut [u8], at: usize, k: usize, x: u64) -> usize
    requires { at + k ≤ length out.old }
    ensures { Laid at (bytes k x) k out.old result out.new }
{
    put(&mut out[at..], k, x);
    at + k
}

/// The bytes of a pair from `at` on; the place after them.
pub fn put_pair(out: &mut [u8], at: usize, q: u16, n: u16) -> usize
    requires { at + 4 ≤ length out.old }
    ensures { Laid at (pair_bytes (pair q n)) 4 out.old result out.new }
{
    put_at(out, at, 4, u64::from(q) + u64::from(n) * 65536)
}

/// The bytes of the expression of node i at the start of out, in prefix order; their number.
pub fn write_expr(cells: &[u64], i: usize, out: &mut [u8]) -> usize
    requires wf { Wf cells.now (i + 1) }
    requires i_in_bounds { length (expr_bytes (expr_at cells.now i)) ≤ length out.old }
    ensures { Wrote (expr_bytes (expr_at cells.now i)) out.old result out.new }
{
    let v = arena::node_at(cells, i);
    match v {
        View::Col(q, n) => {
            let a = put_at(out, 0, 1, 0);
            put_pair(out, a, q, n)
        }
        View::Lit(x) => {
            let a = put_at(out, 0, 1, 1);
            put_at(out, a, 8, x)
        }
        View::Miss => put_at(out, 0, 1, 2),
        View::One(t, x) => {
            let a = put_at(out, 0, 1, t);
            let n = write_expr(cells, x, &mut out[a..]);
            a + n
        }
        View::Two(t, x, y) => {
            let a = put_at(out, 0, 1, t);
            let m = write_expr(cells, x, &mut out[a..]);
            let b = a + m;
            let n = write_expr(cells, y, &mut out[b..]);
            b + n
        }
    }
}

/// What the expression of node i takes.
pub fn expr_size(cells: &[u64], i: usize) -> Size
    requires wf { Wf cells.now (i + 1) }
    requires countable { Countable (length (expr_bytes (expr_at cells.now i))) (expr_tags (expr_at cells.now i)) }
    ensures { Counts (length (expr_bytes (expr_at cells.now i))) (expr_tags (expr_at cells.now i)) result }
{
    let v = arena::node_at(cells, i);
    match v {
        View::Col(_, _) => Size { bytes: 5, tags: 1 },
        View::Lit(_) => Size { bytes: 9, tags: 1 },
        View::Miss => Size { bytes: 1, tags: 1 },
        View::One(_, x) => Size { bytes: 1, tags: 1 } + expr_size(cells, x),
        View::Two(_, x, y) => {
            let a = expr_size(cells, x);
            let b = expr_size(cells, y);
            Size { bytes: 1, tags: 1 } + (a + b)
        }
    }
}

/// An item: a bare column, or a pair with its expression.
pub fn write_item(rows: &[u16], cells: &[u64], i: usize, out: &mut [u8]) -> usize
    requires row_ok { RowOk rows.now cells.now i }
    requires i_in_bounds { length (item_bytes (item_at rows.now cells.now i)) ≤ length out.old }
    ensures { Wrote (item_bytes (item_at rows.now cells.now i)) out.old result out.new }
{
    let row = arena::row_at(rows, i);
    if row.mark == 0 {
        let a = put_at(out, 0, 1, 0);
        return put_pair(out, a, row.qualifier, row.name);
    }
    let a = put_at(out, 0, 1, 12);
    let b = put_pair(out, a, row.qualifier, row.name);
    let m = write_expr(cells, row.root, &mut out[b..]);
    b + m
}

pub fn item_size(rows: &[u16], cells: &[u64], i: usize) -> Size
    requires row_ok { RowOk rows.now cells.now i }
    requires countable { Countable (length (item_bytes (item_at rows.now cells.now i))) (item_tags (item_at rows.now cells.now i)) }
    ensures { Counts (length (item_bytes (item_at rows.now cells.now i))) (item_tags (item_at rows.now cells.now i)) result }
{
    let row = arena::row_at(rows, i);
    if row.mark == 0 {
        return Size { bytes: 5, tags: 1 };
    }
    Size { bytes: 5, tags: 1 } + expr_size(cells, row.root)
}

/// A key: its flags, its expression.
pub fn write_key(rows: &[u16], cells: &[u64], i: usize, out: &mut [u8]) -> usize
    requires key_ok { KeyOk rows.now cells.now i }
    requires i_in_bounds { length (key_bytes (key_at rows.now cells.now i)) ≤ length out.old }
    ensures { Wrote (key_bytes (key_at rows.now cells.now i)) out.old result out.new }
{
    let row = tree::key_at(rows, i);
    let a = put_at(out, 0, 1, u64::from(row.flags));
    let m = write_expr(cells, row.root, &mut out[a..]);
    a + m
}

pub fn key_size(rows: &[u16], cells: &[u64], i: usize) -> Size
    requires key_ok { KeyOk rows.now cells.now i }
    requires countable { Countable (length (key_bytes (key_at rows.now cells.now i))) (key_tags (key_at rows.now cells.now i)) }
    ensures { Counts (length (key_bytes (key_at rows.now cells.now i))) (key_tags (key_at rows.now cells.now i)) result }
{
    let row = tree::key_at(rows, i);
    Size { bytes: 1, tags: 0 } + expr_size(cells, row.root)
}

/// What stands at the end of a function's entry: its expression, where its number is not 0.
pub fn write_call(cells: &[u64], f: u16, root: usize, out: &mut [u8]) -> usize
    requires wf { 0 < f → Wf cells.now (root + 1) }
    requires root_in_bounds { length (call_bytes (call_of f (expr_at cells.now root))) ≤ length out.old }
    ensures { Wrote (call_bytes (call_of f (expr_at cells.now root))) out.old result out.new }
{
    if f == 0 {
        return 0;
    }
    write_expr(cells, root, out)
}

pub fn call_size(cells: &[u64], f: u16, root: usize) -> Size
    requires wf { 0 < f → Wf cells.now (root + 1) }
    requires countable { Countable (length (call_bytes (call_of f (expr_at cells.now root)))) (sum_of expr_tags (call_exprs (call_of f (expr_at cells.now root)))) }
    ensures { Counts (length (call_bytes (call_of f (expr_at cells.now root)))) (sum_of expr_tags (call_exprs (call_of f (expr_at cells.now root)))) result }
{
    if f == 0 {
        return Size { bytes: 0, tags: 0 };
    }
    expr_size(cells, root)
}

/// An aggregate: its pair, its function's number, its expression.
pub fn write_agg(rows: &[u16], cells: &[u64], i: usize, out: &mut [u8]) -> usize
    requires agg_ok { AggOk rows.now cells.now i }
    requires i_in_bounds { length (agg_bytes (agg_at rows.now cells.now i)) ≤ length out.old }
    ensures { Wrote (agg_bytes (agg_at rows.now cells.now i)) out.old result out.new }
{
    let row = tree::agg_at(rows, i);
    let a = put_pair(out, 0, row.qualifier, row.name);
    let b = put_at(out, a, 1, u64::from(row.function));
    let m = write_call(cells, row.function, row.root, &mut out[b..]);
    b + m
}

pub fn agg_size(rows: &[u16], cells: &[u64], i: usize) -> Size
    requires agg_ok { AggOk rows.now cells.now i }
    requires countable { Countable (length (agg_bytes (agg_at rows.now cells.now i))) (agg_tags (agg_at rows.now cells.now i)) }
    ensures { Counts (length (agg_bytes (agg_at rows.now cells.now i))) (agg_tags (agg_at rows.now cells.now i)) result }
{
    let row = tree::agg_at(rows, i);
    Size { bytes: 5, tags: 0 } + call_size(cells, row.function, row.root)
}

/// The two expressions of a pair of a join.
pub fn write_on(rows: &[u16], cells: &[u64], i: usize, out: &mut [u8]) -> usize
    requires ok { OnOk rows.now cells.now i }
    requires i_in_bounds { length (on_bytes (on_at rows.now cells.now i)) ≤ length out.old }
    ensures { Wrote (on_bytes (on_at rows.now cells.now i)) out.old result out.new }
{
    let row = tree::on_at(rows, i);
    let a = write_expr(cells, row.left, out);
    let m = write_expr(cells, row.right, &mut out[a..]);
    a + m
}

pub fn on_size(rows: &[u16], cells: &[u64], i: usize) -> Size
    requires ok { OnOk rows.now cells.now i }
    requires countable { Countable (length (on_bytes (on_at rows.now cells.now i))) (on_tags (on_at rows.now cells.now i)) }
    ensures { Counts (length (on_bytes (on_at rows.now cells.now i))) (on_tags (on_at rows.now cells.now i)) result }
{
    let row = tree::on_at(rows, i);
    expr_size(cells, row.left) + expr_size(cells, row.right)
}

/// A row by what it holds.
pub fn write_part(part: Part, rows: &[u16], cells: &[u64], i: usize, out: &mut [u8]) -> usize
    requires part_ok { PartOk part rows.now cells.now i }
    requires i_in_bounds { length (part_bytes part rows.now cells.now i) ≤ length out.old }
    ensures { Wrote (part_bytes part rows.now cells.now i) out.old result out.new }
{
    match part {
        Part::Item => write_item(rows, cells, i, out),
        Part::Key => write_key(rows, cells, i, out),
        Part::Agg => write_agg(rows, cells, i, out),
        Part::Expr => {
            let row = arena::row_at(rows, i);
            write_expr(cells, row.root, out)
        }
        Part::On => write_on(rows, cells, i, out),
        Part::Pair => {
            let row = tree::pair_at(rows, i);
            put_pair(out, 0, row.qualifier, row.name)
        }
        Part::Column(k) => put_at(out, 0, k, tree::column_at(rows, i) as u64),
        Part::Index(k) => put_at(out, 0, k, i as u64),
        Part::Field => {
            let f = lookup::field_at(rows, i);
            let a = put_at(out, 0, 1, 0);
            put_pair(out, a, f.qualifier, f.name)
        }
    }
}

pub fn part_size(part: Part, rows: &[u16], cells: &[u64], i: usize) -> Size
    requires part_ok { PartOk part rows.now cells.now i }
    requires countable { Countable (length (part_bytes part rows.now cells.now i)) (part_tags part rows.now cells.now i) }
    ensures { Counts (length (part_bytes part rows.now cells.now i)) (part_tags part rows.now cells.now i) result }
{
    match part {
        Part::Item => item_size(rows, cells, i),
        Part::Key => key_size(rows, cells, i),
        Part::Agg => agg_size(rows, cells, i),
        Part::Expr => {
            let row = arena::row_at(rows, i);
            expr_size(cells, row.root)
        }
        Part::On => on_size(rows, cells, i),
        Part::Pair => Size { bytes: 4, tags: 0 },
        Part::Column(k) => Size { bytes: k, tags: 0 },
        Part::Index(k) => Size { bytes: k, tags: 0 },
        Part::Field => Size { bytes: 5, tags: 1 },
    }
}

/// Is thing i taken, where all are, or those of a set?
pub fn is_taken(taken: Option<&RequiredIndices>, i: usize) -> bool
    ensures { result ≡ takes (which_of (option_copied taken.entry)) i }
{
    match taken {
        None => true,
        Some(set) => set.contains(i),
    }
}

/// Of n rows from `first` on those that are taken: all, or those of a set.
pub fn write_list(
    part: Part,
    rows: &[u16],
    cells: &[u64],
    first: usize,
    n: usize,
    taken: Option<&RequiredIndices>,
    out: &mut [u8],
) -> usize
    requires parts_ok { PartsOk part rows.now cells.now first n }
    requires used_in_bounds { length (list_bytes part rows.now cells.now first n (which_of (option_copied taken))) ≤ length out.old }
    ensures { Wrote (list_bytes part rows.now cells.now first n (which_of (option_copied taken.entry))) out.old result out.new }
{
    let mut at = 0;
    for i in 0..n {
        if is_taken(taken, i) {
            at += write_part(part, rows, cells, first + i, &mut out[at..]);
        }
    }
    at
}

pub fn list_size(
    part: Part,
    rows: &[u16],
    cells: &[u64],
    first: usize,
    n: usize,
    taken: Option<&RequiredIndices>,
) -> Size
    requires parts_ok { PartsOk part rows.now cells.now first n }
    requires countable { Countable (length (list_bytes part rows.now cells.now first n (which_of (option_copied taken)))) (list_tags part rows.now cells.now first n (which_of (option_copied taken))) }
    ensures { Counts (length (list_bytes part rows.now cells.now first n (which_of (option_copied taken.entry)))) (list_tags part rows.now cells.now first n (which_of (option_copied taken.entry))) result }
{
    let mut sum = Size { bytes: 0, tags: 0 };
    for i in 0..n {
        if is_taken(taken, i) {
            sum = sum + part_size(part, rows, cells, first + i);
        }
    }
    sum
}

// How many of n things are taken: of a set, as many as it has.
fn taken_count(n: usize, taken: Option<&RequiredIndices>) -> usize
    ensures { result ≡ taken_count (which_of (option_copied taken.entry)) n }
{
    match taken {
        None => n,
        Some(set) => set.len(),
    }
}

/// The count of a list in k bytes, and those of its rows that are taken.
pub fn write_counted(
    k: usize,
    part: Part,
    rows: &[u16],
    cells: &[u64],
    first: usize,
    n: usize,
    taken: Option<&RequiredIndices>,
    out: &mut [u8],
) -> usize
    requires parts_ok { PartsOk part rows.now cells.now first n }
    requires used_in_bounds { length (counted_list k part rows.now cells.now first n (which_of (option_copied taken))) ≤ length out.old }
    ensures { Wrote (counted_list k part rows.now cells.now first n (which_of (option_copied taken.entry))) out.old result out.new }
{
    let a = put_at(out, 0, k, taken_count(n, taken) as u64);
    let m = write_list(part, rows, cells, first, n, taken, &mut out[a..]);
    a + m
}

pub fn counted_size(
    k: usize,
    part: Part,
    rows: &[u16],
    cells: &[u64],
    first: usize,
    n: usize,
    taken: Option<&RequiredIndices>,
) -> Size
    requires parts_ok { PartsOk part rows.now cells.now first n }
    requires countable { Countable (length (counted_list k part rows.now cells.now first n (which_of (option_copied taken)))) (list_tags part rows.now cells.now first n (which_of (option_copied taken))) }
    ensures { Counts (length (counted_list k part rows.now cells.now first n (which_of (option_copied taken.entry)))) (list_tags part rows.now cells.now first n (which_of (option_copied taken.entry))) result }
{
    Size { bytes: k, tags: 0 } + list_size(part, rows, cells, first, n, taken)
}

/// The window from row i on: its pair, its function's number, its parts, its keys, its expression.
pub fn write_win(rows: &[u16], cells: &[u64], i: usize, out: &mut [u8]) -> usize
    requires win_ok { WinOk rows.now cells.now i }
    requires i_in_bounds { length (win_bytes (win_at rows.now cells.now i)) ≤ length out.old }
    ensures { Wrote (win_bytes (win_at rows.now cells.now i)) out.old result out.new }
{
    let w = tree::win_at(rows, i);
    let a = put_pair(out, 0, w.qualifier, w.name);
    let b = put_at(out, a, 1, u64::from(w.function));
    let p = write_counted(
        1,
        Part::Expr,
        rows,
        cells,
        i + 1,
        w.parts,
        None,
        &mut out[b..],
    );
    let c = b + p;
    let k = write_counted(
        1,
        Part::Key,
        rows,
        cells,
        w.key,
        w.keys,
        None,
        &mut out[c..],
    );
    let d = c + k;
    let m = write_call(cells, w.function, w.root, &mut out[d..]);
    d + m
}

pub fn win_size(rows: &[u16], cells: &[u64], i: usize) -> Size
    requires win_ok { WinOk rows.now cells.now i }
    requires countable { Countable (length (win_bytes (win_at rows.now cells.now i))) (win_tags (win_at rows.now cells.now i)) }
    ensures { Counts (length (win_bytes (win_at rows.now cells.now i))) (win_tags (win_at rows.now cells.now i)) result }
{
    let w = tree::win_at(rows, i);
    let p = counted_size(1, Part::Expr, rows, cells, i + 1, w.parts, None);
    let k = counted_size(1, Part::Key, rows, cells, w.key, w.keys, None);
    let m = call_size(cells, w.function, w.root);
    Size { bytes: 5, tags: 0 } + p + (k + m)
}

/// Of n windows from row `first` on those that are taken.
// Beside `write_list`: the row of the next window is known once this one is read, and a step that hands it on is no plainer.
pub fn write_wins(
    rows: &[u16],
    cells: &[u64],
    first: usize,
    n: usize,
    taken: Option<&RequiredIndices>,
    out: &mut [u8],
) -> usize
    requires wins_ok { WinsOk rows.now cells.now first n }
    requires used_in_bounds { length (wins_bytes rows.now cells.now first n (which_of (option_copied taken))) ≤ length out.old }
    ensures { Wrote (wins_bytes rows.now cells.now first n (which_of (option_copied taken.entry))) out.old result out.new }
{
    let mut at = 0;
    let mut row = first;
    for i in 0..n {
        if is_taken(taken, i) {
            at += write_win(rows, cells, row, &mut out[at..]);
        }
        row = tree::win_at(rows, row).next;
    }
    at
}

pub fn wins_size(
    rows: &[u16],
    cells: &[u64],
    first: usize,
    n: usize,
    taken: Option<&RequiredIndices>,
) -> Size
    requires wins_ok { WinsOk rows.now cells.now first n }
    requires countable { Countable (length (wins_bytes rows.now cells.now first n (which_of (option_copied taken)))) (wins_tags rows.now cells.now first n (which_of (option_copied taken))) }
    ensures { Counts (length (wins_bytes rows.now cells.now first n (which_of (option_copied taken.entry)))) (wins_tags rows.now cells.now first n (which_of (option_copied taken.entry))) result }
{
    let mut sum = Size { bytes: 0, tags: 0 };
    let mut row = first;
    for i in 0..n {
        if is_taken(taken, i) {
            sum = sum + win_size(rows, cells, row);
        }
        row = tree::win_at(rows, row).next;
    }
    sum
}
