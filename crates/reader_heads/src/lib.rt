// The nodes of a plan without their inputs.
#![tactic(auto)]

ghost use Rattle.std.specs.Prelude.{◌≡◌, List, [], ℕ, ◌+◌, ◌*◌, ◌-◌, ◌≤◌, ◌<◌, length};
ghost use Rattle.cpl.specs.Plan.{Catalogue};
ghost use Rattle.cpl.specs.ReadPlan.{read_head, read_cond};
ghost use Rattle.versions.specs.Versions.{version_of, Known, node_rows};
ghost use Rattle.reader_parts.specs.Parts.{RightAt};
ghost use Rattle.reader_heads.specs.Heads.{HeadAt, RightHead, cond_store, in_version, columns_store, columns_rest, scan_rest, Widths};

use reader_fields::Spot;
use reader_parts::Kind;
use refusals::{Reason, Refusal};
use versions::Version;

// The last four numbers of a node: how many rows, and three that depend on the kind.
#[derive(Clone, Copy)]
pub struct Node {
    pub n: u64,
    pub x: u64,
    pub y: u64,
    pub z: u64,
}

const ZEROS: Node = Node {
    n: 0,
    x: 0,
    y: 0,
    z: 0,
};

// A node with no input, one or two, and where the reader stands after its own fields. A node with no input has its number of filters.
#[derive(Clone, Copy)]
pub enum Head {
    Leaf(Spot, Node, usize),
    One(Spot, Node),
    Two(Spot, Node),
}

// Is there something from `from` to `to`? 1 where there is.
fn flag(from: usize, to: usize) -> u64
    ensures { (to ≡ from → result ≡ 0) × (from < to → result ≡ 1) × (result ≤ 1) }
{
    u64::from(to != from)
}

fn read_projection(
    file: &[u8],
    s: Spot,
    version: Version,
    cells: &mut [u64],
    rows: &mut [u16],
) -> Result<Head, Refusal>
    requires { (s.made ≤ s.tags) × (s.tags ≤ 4096) × (12288 ≤ length cells.old) × (4 * (s.row + node_rows (version_of version) + (4096 - s.tags) + 32) ≤ length rows.old) × (version.wide ≤ 2) }
    ensures { (C : Catalogue) → HeadAt 1 (in_version (version_of version) C) file.now s cells.old cells.new rows.old rows.new result }
{
    let k = version.wide;
    let most = version.items;
    let list = reader_parts::read_list(file, s, Kind::Item, k, 0, most, cells, rows)?;
    Ok(Head::One(
        list,
        Node {
            n: (list.row - s.row) as u64,
            ..ZEROS
        },
    ))
}

fn read_filter(file: &[u8], s: Spot, cells: &mut [u64]) -> Result<Head, Refusal>
    requires { (s.made ≤ s.tags) × (s.tags ≤ 4096) × (12288 ≤ length cells.old) }
    ensures { (C : Catalogue) (rows : List ℕ) → HeadAt 2 C file.now s cells.old cells.new rows rows result }
{
    let e = reader_fields::read_expr(file, s, cells)?;
    Ok(Head::One(
        e,
        Node {
            x: (e.made - 1) as u64,
            ..ZEROS
        },
    ))
}

fn read_sort(file: &[u8], s: Spot, cells: &mut [u64], rows: &mut [u16]) -> Result<Head, Refusal>
    requires { (s.made ≤ s.tags) × (s.tags ≤ 4096) × (12288 ≤ length cells.old) × (4 * (s.row + 32) ≤ length rows.old) }
    ensures { (C : Catalogue) → HeadAt 3 C file.now s cells.old cells.new rows.old rows.new result }
{
    let list = reader_parts::read_list(file, s, Kind::Key, 1, 1, 16, cells, rows)?;
    Ok(Head::One(
        list,
        Node {
            n: (list.row - s.row) as u64,
            ..ZEROS
        },
    ))
}

fn read_limit(file: &[u8], s: Spot) -> Result<Head, Refusal>
    requires { s.tags ≤ 4096 }
    ensures { (C : Catalogue) (cells rows : List ℕ) → HeadAt 4 C file.now s cells cells rows rows result }
{
    let skip = reader_fields::read_number(file, s.at, 4)?;
    let fetch = reader_fields::read_number(file, skip.next, 4)?;
    Ok(Head::One(
        Spot {
            at: fetch.next,
            ..s
        },
        Node {
            x: skip.value,
            y: fetch.value,
            ..ZEROS
        },
    ))
}

fn read_aggregate(
    file: &[u8],
    s: Spot,
    version: Version,
    cells: &mut [u64],
    rows: &mut [u16],
) -> Result<Head, Refusal>
    requires { (s.made ≤ s.tags) × (s.tags ≤ 4096) × (12288 ≤ length cells.old) × (4 * (s.row + node_rows (version_of version) + (4096 - s.tags) + 32) ≤ length rows.old) × (version.wide ≤ 2) }
    ensures { (C : Catalogue) → HeadAt 5 (in_version (version_of version) C) file.now s cells.old cells.new rows.old rows.new result }
{
    let k = version.wide;
    let most = version.items;
    let groups = reader_parts::read_list(file, s, Kind::Item, k, 0, most, cells, rows)?;
    let least = 1 - flag(s.row, groups.row);
    let values = reader_parts::read_list(file, groups, Kind::Agg, k, least, most, cells, rows)?;
    Ok(Head::One(
        values,
        Node {
            n: (groups.row - s.row) as u64,
            x: (values.row - groups.row) as u64,
            ..ZEROS
        },
    ))
}

fn read_window(
    file: &[u8],
    s: Spot,
    version: Version,
    cells: &mut [u64],
    rows: &mut [u16],
) -> Result<Head, Refusal>
    requires { (s.made ≤ s.tags) × (s.tags ≤ 4096) × (12288 ≤ length cells.old) × (4 * (s.row + node_rows (version_of version) + (4096 - s.tags) + 32) ≤ length rows.old) × (version.wide ≤ 2) }
    ensures { (C : Catalogue) → HeadAt 6 (in_version (version_of version) C) file.now s cells.old cells.new rows.old rows.new result }
{
    let count = reader_fields::read_count(file, s.at, version.wide, 1, version.items)?;
    let from = Spot {
        at: count.next,
        ..s
    };
    let list = reader_parts::read_wins(file, from, count.value, cells, rows)?;
    Ok(Head::One(
        list,
        Node {
            n: count.value,
            ..ZEROS
        },
    ))
}

fn read_alias(file: &[u8], s: Spot) -> Result<Head, Refusal>
    requires { s.tags ≤ 4096 }
    ensures { (C : Catalogue) (cells rows : List ℕ) → HeadAt 7 C file.now s cells cells rows rows result }
{
    let name = reader_fields::read_name(file, s.at)?;
    Ok(Head::One(
        Spot { at: name.next, ..s },
        Node {
            x: name.value,
            ..ZEROS
        },
    ))
}

// A join's condition, if it has one.
fn read_cond(file: &[u8], s: Spot, cells: &mut [u64]) -> Result<Spot, Refusal>
    requires { (s.made ≤ s.tags) × (s.tags ≤ 4096) × (12288 ≤ length cells.old) }
    ensures { RightAt cond_store read_cond file.now s s.tags cells.old cells.new [] [] result }
{
    let some = reader_fields::read_below(file, s.at, 2)?;
    let from = Spot { at: some.next, ..s };
    if some.value == 0 {
        return Ok(from);
    }
    reader_fields::read_expr(file, from, cells)
}

fn read_join(file: &[u8], s: Spot, cells: &mut [u64], rows: &mut [u16]) -> Result<Head, Refusal>
    requires { (s.made ≤ s.tags) × (s.tags ≤ 4096) × (12288 ≤ length cells.old) × (4 * (s.row + 32) ≤ length rows.old) }
    ensures { (C : Catalogue) → HeadAt 10 C file.now s cells.old cells.new rows.old rows.new result }
{
    let kind = reader_fields::read_below(file, s.at, 8)?;
    let from = Spot { at: kind.next, ..s };
    let pairs = reader_parts::read_list(file, from, Kind::On, 1, 0, 16, cells, rows)?;
    let cond = read_cond(file, pairs, cells)?;
    Ok(Head::Two(
        cond,
        Node {
            n: (pairs.row - s.row) as u64,
            x: kind.value,
            y: flag(pairs.made, cond.made),
            z: reader_parts::root(pairs.made, cond.made),
        },
    ))
}

// A scan's column indices below `columns`, where x is not 0.
fn read_columns(
    file: &[u8],
    s: Spot,
    x: u64,
    version: Version,
    columns: u64,
    cells: &mut [u64],
    rows: &mut [u16],
) -> Result<Spot, Refusal>
    requires { (s.made ≤ s.tags) × (s.tags ≤ 4096) × (12288 ≤ length cells.old) × (4 * s.row + 4 * version.columns ≤ length rows.old) × (version.wide ≤ 2) }
    ensures { RightAt columns_store (columns_rest (version_of version) columns x) file.now s s.tags cells.old cells.new rows.old rows.new result }
{
    if x == 0 {
        return Ok(s);
    }
    let kind = Kind::Column(version.wide, columns);
    reader_parts::read_list(file, s, kind, version.wide, 0, version.columns, cells, rows)
}

// What follows a scan's table t and qualifier q: its column indices below `columns`, if it has any, and its filters.
fn read_over(
    file: &[u8],
    s: Spot,
    t: u64,
    q: u64,
    version: Version,
    columns: u64,
    cells: &mut [u64],
    rows: &mut [u16],
) -> Result<Head, Refusal>
    requires { (s.made ≤ s.tags) × (s.tags ≤ 4096) × (12288 ≤ length cells.old) × (4 * (s.row + node_rows (version_of version) + (4096 - s.tags) + 32) ≤ length rows.old) × (version.wide ≤ 2) × (version.late ≤ 2) × (version.columns + version.filters ≤ 2 * version.items) }
    ensures { (n : ℕ) → RightHead (version_of version) 11 s cells.old cells.new rows.old rows.new n (scan_rest (version_of version) t q columns file.now s.at s.tags n) result }
{
    let some = reader_fields::read_below(file, s.at, 2)?;
    let from = Spot { at: some.next, ..s };
    let list = read_columns(file, from, some.value, version, columns, cells, rows)?;
    let k = version.late;
    let most = version.filters;
    let filters = reader_parts::read_list(file, list, Kind::Expr, k, 0, most, cells, rows)?;
    Ok(Head::Leaf(
        filters,
        Node {
            n: (list.row - s.row) as u64,
            x: t,
            y: q,
            z: some.value,
        },
        filters.row - list.row,
    ))
}

fn read_scan(
    file: &[u8],
    s: Spot,
    version: Version,
    tables: u64,
    names: &[u16],
    cells: &mut [u64],
    rows: &mut [u16],
) -> Result<Head, Refusal>
    requires { (s.made ≤ s.tags) × (s.tags ≤ 4096) × (12288 ≤ length cells.old) × (4 * (s.row + node_rows (version_of version) + (4096 - s.tags) + 32) ≤ length rows.old) × (513 * tables ≤ length names.now) × (tables ≤ 16) × (version.wide ≤ 2) × (version.late ≤ 2) × (version.columns + version.filters ≤ 2 * version.items) }
    ensures { (C : Catalogue) → Widths names.now tables C → HeadAt 11 (in_version (version_of version) C) file.now s cells.old cells.new rows.old rows.new result }
{
    let table = reader_fields::read_below(file, s.at, tables)?;
    let name = reader_fields::read_name(file, table.next)?;
    let base = 513 * (table.value as usize);
    let columns = u64::from(names[base]);
    let from = Spot { at: name.next, ..s };
    read_over(
        file,
        from,
        table.value,
        name.value,
        version,
        columns,
        cells,
        rows,
    )
}

fn read_empty(
    file: &[u8],
    s: Spot,
    version: Version,
    cells: &mut [u64],
    rows: &mut [u16],
) -> Result<Head, Refusal>
    requires { (s.made ≤ s.tags) × (s.tags ≤ 4096) × (12288 ≤ length cells.old) × (4 * (s.row + node_rows (version_of version) + (4096 - s.tags) + 32) ≤ length rows.old) × (version.wide ≤ 2) }
    ensures { (C : Catalogue) → HeadAt 12 (in_version (version_of version) C) file.now s cells.old cells.new rows.old rows.new result }
{
    let k = version.wide;
    let most = version.items;
    let row = reader_fields::read_below(file, s.at, 2)?;
    let from = Spot { at: row.next, ..s };
    let list = reader_parts::read_list(file, from, Kind::Pair, k, 0, most, cells, rows)?;
    Ok(Head::Leaf(
        list,
        Node {
            n: (list.row - s.row) as u64,
            x: row.value,
            ..ZEROS
        },
        0,
    ))
}

// A node's own fields, after its tag t that stood at `place`: document 01's number of the kind in the file format. Each row of `names` has 513 numbers, of which the first says how many columns the table has.
pub fn read_head(
    file: &[u8],
    s: Spot,
    place: usize,
    t: u64,
    version: Version,
    tables: u64,
    names: &[u16],
    cells: &mut [u64],
    rows: &mut [u16],
) -> Result<Head, Refusal>
    requires made_le_tags { (s.made ≤ s.tags) × (s.tags ≤ 4096) × (12288 ≤ length cells.old) × (4 * (s.row + node_rows (version_of version) + (4096 - s.tags) + 32) ≤ length rows.old) × (513 * tables ≤ length names.now) × (tables ≤ 16) }
    requires known { Known version }
    ensures { (C : Catalogue) → C.version ≡ version_of version → Widths names.now tables C → (n : ℕ) → RightHead (version_of version) t s cells.old cells.new rows.old rows.new n (read_head C place t file.now s.at s.tags n) result }
{
    match t {
        1 => read_projection(file, s, version, cells, rows),
        2 => read_filter(file, s, cells),
        3 => read_sort(file, s, cells, rows),
        4 => read_limit(file, s),
        5 => read_aggregate(file, s, version, cells, rows),
        6 => read_window(file, s, version, cells, rows),
        7 => read_alias(file, s),
        8 => Ok(Head::Two(s, ZEROS)),
        9 => Ok(Head::One(s, ZEROS)),
        10 => read_join(file, s, cells, rows),
        11 => read_scan(file, s, version, tables, names, cells, rows),
        12 => read_empty(file, s, version, cells, rows),
        _ => Err(Refusal::new(Reason::Value, place)),
    }
}
