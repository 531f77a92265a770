//! The parts of a plan's nodes, one after the other: their expressions go into cells, and a row for each into rows.
#![tactic(auto)]

ghost use Rattle.std.specs.Prelude.{◌≡◌, Bool, List, [], ◌∷◌, ℕ, ◌+◌, ◌*◌, ◌-◌, ◌≤◌, ◌<◌, length};
ghost use Rattle.std.proofs.lemmas.List.Edits.{sets};
ghost use Rattle.cpl.specs.Plan.{pair};
ghost use Rattle.cpl.specs.Read.{index, times, counted};
ghost use Rattle.cpl.specs.ReadExpr.{read_pair, read_expr, read_bare, read_alias, read_item, read_key, read_call, read_agg, read_win, read_on};
ghost use Rattle.tree.specs.Layout.{item_store, key_store, agg_store, win_store, on_store, pair_store, column_store, list_store};
ghost use Rattle.reader_fields.specs.Answers.{From};
ghost use Rattle.reader_parts.specs.Parts.{RightAt, bytes_of, store_of, reader_of, member_store, call_store, read_rest, rest_store, agg_rest, win_rest};

use reader_fields::Spot;
use refusals::{Reason, Refusal};

/// What a list holds. A column index has so many bytes, and is below the number given.
// An enum: a list's kind is chosen by its caller and looked at once for each part, and a trait with a type for each kind would be no plainer.
#[derive(Clone, Copy)]
pub enum Kind {
    Item,
    Key,
    Expr,
    Agg,
    On,
    Pair,
    Column(usize, u64),
}

/// The four numbers of a row.
fn put_row(rows: &mut [u16], row: usize, a: u64, b: u64, c: u64, d: u64)
    requires { (4 * row + 4 ≤ length rows.old) × (a < 65536) × (b < 65536) × (c < 65536) × (d < 65536) }
    ensures { rows.new ≡ sets rows.old (4 * row) (a ∷ b ∷ c ∷ d ∷ []) }
{
    rows[4 * row..4 * row + 4].copy_from_slice(&[a as u16, b as u16, c as u16, d as u16]);
}

/// The root of an expression whose nodes are those from `from` to `to`, or 0 where there is none.
pub fn root(from: usize, to: usize) -> u64
    requires { from ≤ to }
    ensures { (to ≡ from → result ≡ 0) × (from < to → result ≡ to - 1) × (result ≤ to) }
{
    if to == from {
        return 0;
    }
    (to - 1) as u64
}

/// The rest of a bare item, after its tag, which is counted here.
fn read_bare(file: &[u8], s: Spot, cells: &mut [u64], rows: &mut [u16]) -> Result<Spot, Refusal>
    requires { (s.made ≤ s.tags + 4096) × (s.tags < 4096) × (3 * s.made + 12288 ≤ 3 * s.tags + length cells.old) × (4 * s.row + 4 ≤ length rows.old) }
    ensures { RightAt item_store read_bare file.now s (s.tags + 1) cells.old cells.new rows.old rows.new result }
{
    let pair = reader_fields::read_pair(file, s.at)?;
    reader_fields::put(cells, s.made, 0, pair.qualifier, pair.name);
    put_row(rows, s.row, pair.qualifier, pair.name, 0, s.made as u64);
    Ok(Spot {
        at: pair.next,
        tags: s.tags + 1,
        made: s.made + 1,
        row: s.row + 1,
    })
}

/// The rest of an aliased item, after its tag, which is counted here.
fn read_alias(file: &[u8], s: Spot, cells: &mut [u64], rows: &mut [u16]) -> Result<Spot, Refusal>
    requires { (s.made ≤ s.tags + 4096) × (s.tags < 4096) × (3 * s.made + 12288 ≤ 3 * s.tags + length cells.old) × (4 * s.row + 4 ≤ length rows.old) }
    ensures { RightAt item_store read_alias file.now s (s.tags + 1) cells.old cells.new rows.old rows.new result }
{
    let pair = reader_fields::read_pair(file, s.at)?;
    let from = Spot {
        at: pair.next,
        tags: s.tags + 1,
        ..s
    };
    let t = reader_fields::read_expr(file, from, cells)?;
    put_row(
        rows,
        t.row,
        pair.qualifier,
        pair.name,
        1,
        (t.made - 1) as u64,
    );
    Ok(Spot {
        row: t.row + 1,
        ..t
    })
}

/// An item of a projection or a group list: a column, or an alias.
fn read_item(file: &[u8], s: Spot, cells: &mut [u64], rows: &mut [u16]) -> Result<Spot, Refusal>
    requires { (s.made ≤ s.tags + 4096) × (s.tags ≤ 4096) × (3 * s.made + 12288 ≤ 3 * s.tags + length cells.old) × (4 * s.row + 4 ≤ length rows.old) }
    ensures { RightAt item_store read_item file.now s s.tags cells.old cells.new rows.old rows.new result }
{
    let tag = reader_fields::read_tag(file, s.at, s.tags)?;
    let from = Spot { at: tag.next, ..s };
    match tag.value {
        0 => read_bare(file, from, cells, rows),
        12 => read_alias(file, from, cells, rows),
        _ => Err(Refusal::new(Reason::Value, s.at)),
    }
}

/// An expression in a list.
fn read_member(
    file: &[u8],
    s: Spot,
    x: u64,
    cells: &mut [u64],
    rows: &mut [u16],
) -> Result<Spot, Refusal>
    requires { (s.made ≤ s.tags + 4096) × (s.tags ≤ 4096) × (3 * s.made + 12288 ≤ 3 * s.tags + length cells.old) × (4 * s.row + 4 ≤ length rows.old) × (x < 65536) }
    ensures { RightAt (member_store x) read_expr file.now s s.tags cells.old cells.new rows.old rows.new result }
{
    let t = reader_fields::read_expr(file, s, cells)?;
    put_row(rows, t.row, x, 0, 0, (t.made - 1) as u64);
    Ok(Spot {
        row: t.row + 1,
        ..t
    })
}

/// A key: its flags and its expression.
fn read_key(file: &[u8], s: Spot, cells: &mut [u64], rows: &mut [u16]) -> Result<Spot, Refusal>
    requires { (s.made ≤ s.tags + 4096) × (s.tags ≤ 4096) × (3 * s.made + 12288 ≤ 3 * s.tags + length cells.old) × (4 * s.row + 4 ≤ length rows.old) }
    ensures { RightAt key_store read_key file.now s s.tags cells.old cells.new rows.old rows.new result }
{
    let flags = reader_fields::read_below(file, s.at, 4)?;
    read_member(
        file,
        Spot {
            at: flags.next,
            ..s
        },
        flags.value,
        cells,
        rows,
    )
}

/// What function f has at the end: an expression, or nothing.
fn read_call(file: &[u8], s: Spot, f: u64, cells: &mut [u64]) -> Result<Spot, Refusal>
    requires { (s.made ≤ s.tags + 4096) × (s.tags ≤ 4096) × (3 * s.made + 12288 ≤ 3 * s.tags + length cells.old) }
    ensures { RightAt call_store (read_call f) file.now s s.tags cells.old cells.new [] [] result }
{
    if f == 0 {
        return Ok(s);
    }
    reader_fields::read_expr(file, s, cells)
}

/// An aggregate: its pair, its function and what that has at the end.
fn read_agg(file: &[u8], s: Spot, cells: &mut [u64], rows: &mut [u16]) -> Result<Spot, Refusal>
    requires { (s.made ≤ s.tags + 4096) × (s.tags ≤ 4096) × (3 * s.made + 12288 ≤ 3 * s.tags + length cells.old) × (4 * s.row + 4 ≤ length rows.old) }
    ensures { RightAt agg_store read_agg file.now s s.tags cells.old cells.new rows.old rows.new result }
{
    let pair = reader_fields::read_pair(file, s.at)?;
    let function = reader_fields::read_below(file, pair.next, 5)?;
    let from = Spot {
        at: function.next,
        ..s
    };
    let t = read_call(file, from, function.value, cells)?;
    let e = root(s.made, t.made);
    put_row(rows, t.row, pair.qualifier, pair.name, function.value, e);
    Ok(Spot {
        row: t.row + 1,
        ..t
    })
}

/// A pair of a join.
fn read_on(file: &[u8], s: Spot, cells: &mut [u64], rows: &mut [u16]) -> Result<Spot, Refusal>
    requires { (s.made ≤ s.tags + 4096) × (s.tags ≤ 4096) × (3 * s.made + 12288 ≤ 3 * s.tags + length cells.old) × (4 * s.row + 4 ≤ length rows.old) }
    ensures { RightAt on_store read_on file.now s s.tags cells.old cells.new rows.old rows.new result }
{
    let a = reader_fields::read_expr(file, s, cells)?;
    let b = reader_fields::read_expr(file, a, cells)?;
    put_row(rows, b.row, 0, 0, (a.made - 1) as u64, (b.made - 1) as u64);
    Ok(Spot {
        row: b.row + 1,
        ..b
    })
}

/// A field of an Empty.
fn read_field(file: &[u8], s: Spot, rows: &mut [u16]) -> Result<Spot, Refusal>
    requires { (s.tags ≤ 4096) × (4 * s.row + 4 ≤ length rows.old) }
    ensures { (cells : List ℕ) → RightAt pair_store read_pair file.now s s.tags cells cells rows.old rows.new result }
{
    let pair = reader_fields::read_pair(file, s.at)?;
    put_row(rows, s.row, pair.qualifier, pair.name, 0, 0);
    Ok(Spot {
        at: pair.next,
        row: s.row + 1,
        ..s
    })
}

/// A column index of a scan, of k bytes.
fn read_index(
    file: &[u8],
    s: Spot,
    k: usize,
    columns: u64,
    rows: &mut [u16],
) -> Result<Spot, Refusal>
    requires { (s.tags ≤ 4096) × (4 * s.row + 4 ≤ length rows.old) × (k ≤ 2) }
    ensures { (cells : List ℕ) → RightAt column_store (index k columns) file.now s s.tags cells cells rows.old rows.new result }
{
    let index = reader_fields::read_index(file, s.at, k, columns)?;
    put_row(rows, s.row, index.value, 0, 0, 0);
    Ok(Spot {
        at: index.next,
        row: s.row + 1,
        ..s
    })
}

/// One part.
fn read_part(
    file: &[u8],
    s: Spot,
    kind: Kind,
    cells: &mut [u64],
    rows: &mut [u16],
) -> Result<Spot, Refusal>
    requires { (s.made ≤ s.tags + 4096) × (s.tags ≤ 4096) × (3 * s.made + 12288 ≤ 3 * s.tags + length cells.old) × (4 * s.row + 4 ≤ length rows.old) × (bytes_of kind ≤ 2) }
    ensures { RightAt (store_of kind) (reader_of kind) file.now s s.tags cells.old cells.new rows.old rows.new result }
{
    match kind {
        Kind::Item => read_item(file, s, cells, rows),
        Kind::Key => read_key(file, s, cells, rows),
        Kind::Expr => read_member(file, s, 0, cells, rows),
        Kind::Agg => read_agg(file, s, cells, rows),
        Kind::On => read_on(file, s, cells, rows),
        Kind::Pair => read_field(file, s, rows),
        Kind::Column(k, columns) => read_index(file, s, k, columns, rows),
    }
}

/// n parts, one after the other.
fn read_parts(
    file: &[u8],
    s: Spot,
    kind: Kind,
    n: u64,
    cells: &mut [u64],
    rows: &mut [u16],
) -> Result<Spot, Refusal>
    requires { (s.made ≤ s.tags + 4096) × (s.tags ≤ 4096) × (3 * s.made + 12288 ≤ 3 * s.tags + length cells.old) × (4 * s.row + 4 * n ≤ length rows.old) × (bytes_of kind ≤ 2) }
    ensures { RightAt (list_store (store_of kind)) (times n (reader_of kind)) file.now s s.tags cells.old cells.new rows.old rows.new result }
{
    let mut t = s;
    for _ in 0..n {
        t = read_part(file, t, kind, cells, rows)?;
    }
    Ok(t)
}

/// A count of k bytes, from `least` to `limit`, and as many parts.
pub fn read_list(
    file: &[u8],
    s: Spot,
    kind: Kind,
    k: usize,
    least: u64,
    limit: u64,
    cells: &mut [u64],
    rows: &mut [u16],
) -> Result<Spot, Refusal>
    requires { (s.made ≤ s.tags + 4096) × (s.tags ≤ 4096) × (3 * s.made + 12288 ≤ 3 * s.tags + length cells.old) × (4 * s.row + 4 * limit ≤ length rows.old) × (bytes_of kind ≤ 2) × (k ≤ 2) }
    ensures { (allowed : ℕ → Bool) → From least allowed → RightAt (list_store (store_of kind)) (counted k allowed limit (reader_of kind)) file.now s s.tags cells.old cells.new rows.old rows.new result }
{
    let count = reader_fields::read_count(file, s.at, k, least, limit)?;
    let from = Spot {
        at: count.next,
        ..s
    };
    read_parts(file, from, kind, count.value, cells, rows)
}

/// A window's keys and its function's expression. The row before the keys has their number and the root, so it is put when that is known.
fn read_rest(
    file: &[u8],
    s: Spot,
    f: u64,
    cells: &mut [u64],
    rows: &mut [u16],
) -> Result<Spot, Refusal>
    requires { (s.made ≤ s.tags + 4096) × (s.tags ≤ 4096) × (3 * s.made + 12288 ≤ 3 * s.tags + length cells.old) × (4 * s.row + 68 ≤ length rows.old) }
    ensures { RightAt rest_store (read_rest f) file.now s s.tags cells.old cells.new rows.old rows.new result }
{
    let count = reader_fields::read_count(file, s.at, 1, 0, 16)?;
    let from = Spot {
        at: count.next,
        row: s.row + 1,
        ..s
    };
    let t = read_parts(file, from, Kind::Key, count.value, cells, rows)?;
    let u = read_call(file, t, f, cells)?;
    let e = root(t.made, u.made);
    put_row(rows, s.row, count.value, 0, 0, e);
    Ok(u)
}

/// A window: its pair, its function, its parts and what follows them.
fn read_win(file: &[u8], s: Spot, cells: &mut [u64], rows: &mut [u16]) -> Result<Spot, Refusal>
    requires { (s.made ≤ s.tags + 4096) × (s.tags ≤ 4096) × (3 * s.made + 12288 ≤ 3 * s.tags + length cells.old) × (4 * s.row + 136 ≤ length rows.old) }
    ensures { RightAt win_store read_win file.now s s.tags cells.old cells.new rows.old rows.new result }
{
    let pair = reader_fields::read_pair(file, s.at)?;
    let function = reader_fields::read_below(file, pair.next, 5)?;
    let count = reader_fields::read_count(file, function.next, 1, 0, 16)?;
    put_row(
        rows,
        s.row,
        pair.qualifier,
        pair.name,
        function.value,
        count.value,
    );
    let from = Spot {
        at: count.next,
        row: s.row + 1,
        ..s
    };
    let t = read_parts(file, from, Kind::Expr, count.value, cells, rows)?;
    read_rest(file, t, function.value, cells, rows)
}

/// n windows, one after the other.
pub fn read_wins(
    file: &[u8],
    s: Spot,
    n: u64,
    cells: &mut [u64],
    rows: &mut [u16],
) -> Result<Spot, Refusal>
    requires { (s.made ≤ s.tags + 4096) × (s.tags ≤ 4096) × (3 * s.made + 12288 ≤ 3 * s.tags + length cells.old) × (4 * (s.row + 2 * n + (4096 - s.tags) + 32) ≤ length rows.old) }
    ensures { RightAt (list_store win_store) (times n read_win) file.now s s.tags cells.old cells.new rows.old rows.new result }
{
    let mut t = s;
    for _ in 0..n {
        t = read_win(file, t, cells, rows)?;
    }
    Ok(t)
}
