//! Runs each function of `arena` and `arena_build` on samples, and writes what it answers.
#![tactic(auto)]

ghost use Rattle.std.specs.Prelude.{◌+◌, ◌*◌, ◌≤◌, length};
ghost use Rattle.arena.specs.Cells.{Wf};
ghost use Rattle.arena.specs.Lists.{ListOk};
ghost use Rattle.arena.specs.Rows.{RowsOk};

use arena::{Items, View};
use std::io;

fn said(b: bool) -> &'static str {
    if b { "yes" } else { "no" }
}

/// Node `i`, by its view. The nodes up to it are well formed.
fn show_node(rt: &impl Print, cells: &[u64], i: usize) -> io::Result<()>
    requires { Wf cells.now (i + 1) }
{
    match arena::node_at(cells, i) {
        View::Col(q, n) => println!(rt; "col {q} {n} "),
        View::Lit(x) => println!(rt; "lit {x} "),
        View::Miss => println!(rt; "miss "),
        View::One(t, x) => println!(rt; "{t} {x} "),
        View::Two(t, x, y) => println!(rt; "{t} {x} {y} "),
    }
}

/// The first `n` nodes, which are well formed.
fn show_nodes(rt: &impl Print, cells: &[u64], n: usize) -> io::Result<()>
    requires { Wf cells.now n }
{
    for i in 0..n {
        show_node(rt, cells, i)?;
    }
    Ok(())
}

/// The first `n` rows, which lie in the array.
fn show_rows(rt: &impl Print, rows: &[u16], n: usize) -> io::Result<()>
    requires { n * 4 ≤ length rows.now }
{
    for i in 0..n {
        let row = arena::row_at(rows, i);
        println!(rt; "{} {} {} {} ", row.qualifier, row.name, row.mark, row.root)?;
    }
    Ok(())
}

// (1,1), 5, (1,1) + 5, not that, (0,7), missing, (1,1) and not ((1,1) + 5), (0,3)
const CELLS: [u64; 24] = [
    0, 1, 1, 1, 5, 0, 5, 0, 1, 3, 2, 0, 0, 0, 7, 2, 0, 0, 10, 0, 3, 0, 0, 3,
];
// (1,1); (1,1) + 5 as (0,7); missing as (0,9); (1,1) and not ((1,1) + 5) as (2,8); (0,3)
const ITEMS: [u16; 20] = [1, 1, 0, 0, 0, 7, 1, 2, 0, 9, 1, 5, 2, 8, 1, 6, 0, 3, 0, 7];
// (0,7), (1,1), (0,7) * (1,1), (0,3), not (0,7), (0,9), (0,6)
const ABOVE: [u64; 21] = [
    0, 0, 7, 0, 1, 1, 7, 0, 1, 0, 0, 3, 3, 0, 0, 0, 0, 9, 0, 0, 6,
];
// (0,7) * (1,1) as (0,4); (1,1) as (0,1); (1,1); (0,7); (1,1) as (1,1); not (0,7) as (0,7); (0,3) as (0,3); (0,9);
// (0,6)
const UPPER: [u16; 36] = [
    0, 4, 1, 2, 0, 1, 1, 1, 1, 1, 0, 1, 0, 7, 0, 0, 1, 1, 1, 1, 0, 7, 1, 4, 0, 3, 1, 3, 0, 9, 0, 5,
    0, 6, 0, 6,
];

fn read_exprs(rt: &impl Print) -> io::Result<()> {
    let cells = CELLS;
    show_nodes(rt, &cells, 8)?;
    print!(rt; "{} ", arena::tag_at(&cells, 6))?;
    print!(rt; "{} ", arena::count_uses(&cells, 6, 1, 1))?;
    print!(rt; "{} ", arena::count_tags(&cells, 6))?;
    print!(rt; "{} ", said(arena::has_column(&cells, 6)))?;
    print!(rt; "{} ", said(arena::has_column(&cells, 5)))?;
    print!(rt; "{} ", said(arena::is_column(&cells, 4, 0, 7)))?;
    println!(rt; "{} ", said(arena::is_column(&cells, 4, 1, 7)))
}

fn read_lists(rt: &impl Print) -> io::Result<()> {
    let list = Items {
        rows: &ITEMS,
        cells: &CELLS,
        first: 0,
        count: 5,
    };
    let missing = Items {
        first: 2,
        count: 1,
        ..list
    };
    print!(rt; "{} {} ", list.uses(1, 1), list.tags())?;
    print!(rt; "{} ", said(list.uses_no_column()))?;
    print!(rt; "{} ", said(missing.uses_no_column()))?;
    print!(rt; "{} ", said(list.all_plain()))?;
    println!(rt; "{} ", said(missing.all_plain()))
}

fn compare(rt: &impl Print) -> io::Result<()> {
    let cells = CELLS;
    let items = ITEMS;
    let above = ABOVE;
    let upper = UPPER;
    print!(rt; "{} ", said(arena::same_expr(&cells, 6, &cells, 6)))?;
    print!(rt; "{} ", said(arena::same_expr(&cells, 6, &above, 2)))?;
    print!(rt; "{} ", said(arena::same_expr(&cells, 0, &above, 1)))?;
    let first = arena::same_item(&items, 0, &cells, &upper, 2, &above);
    let second = arena::same_item(&items, 0, &cells, &upper, 4, &above);
    print!(rt; "{} {} ", said(first), said(second))?;
    let list = Items {
        rows: &items,
        cells: &cells,
        first: 0,
        count: 5,
    };
    let other = Items {
        rows: &upper,
        cells: &above,
        first: 2,
        count: 1,
    };
    print!(rt; "{} ", said(list.same(&list)))?;
    print!(rt; "{} ", said(list.same(&Items { count: 3, ..list })))?;
    let one = Items { count: 1, ..list };
    println!(rt; "{} ", said(one.same(&other)))
}

// What a name alone finds in the lower list; and the upper list over the lower one.
fn build(rt: &impl Print) -> io::Result<()> {
    let cells = CELLS;
    let items = ITEMS;
    let above = ABOVE;
    let upper = UPPER;
    let mut rows = [0u16; 36];
    let mut dst = [0u64; 54];
    let list = Items {
        rows: &items,
        cells: &cells,
        first: 0,
        count: 5,
    };
    match arena_build::find_def(&list, 0, 8) {
        Some(j) => print!(rt; "{j} ")?,
        None => println!(rt;)?,
    }
    let over = Items {
        rows: &upper,
        cells: &above,
        first: 0,
        count: 9,
    };
    match arena_build::replace_items(&over, &list, &mut rows, 0, &mut dst, 0) {
        Ok(used) => {
            println!(rt; "{used} ")?;
            show_nodes(rt, &dst, used)?;
            show_rows(rt, &rows, 9)
        }
        Err(_) => println!(rt;),
    }
}

/// Copies the item (0,1) as (0,2) into row after row, to 128, until the cells are full: how many rows there are then.
fn copies(upper: &mut [u16], above: &mut [u64]) -> usize
    requires { (512 ≤ length upper.old) × (length above.old ≤ 196608) }
    ensures { (result ≤ 128) × RowsOk upper.new above.new 0 result }
{
    let list = Items {
        rows: &[0u16, 2, 1, 0],
        cells: &[0u64, 0, 1],
        first: 0,
        count: 1,
    };
    let mut used = 0;
    for i in 0..128 {
        let Ok(b) = arena_build::copy_item(&list, 0, upper, i, above, used) else {
            return i;
        };
        used = b.used;
    }
    128
}

// not not .. (0,3), 31 tags, as (0,1)
const CHAIN: [u64; 93] = [
    0, 0, 3, 3, 0, 0, 3, 1, 0, 3, 2, 0, 3, 3, 0, 3, 4, 0, 3, 5, 0, 3, 6, 0, 3, 7, 0, 3, 8, 0, 3, 9,
    0, 3, 10, 0, 3, 11, 0, 3, 12, 0, 3, 13, 0, 3, 14, 0, 3, 15, 0, 3, 16, 0, 3, 17, 0, 3, 18, 0, 3,
    19, 0, 3, 20, 0, 3, 21, 0, 3, 22, 0, 3, 23, 0, 3, 24, 0, 3, 25, 0, 3, 26, 0, 3, 27, 0, 3, 28,
    0, 3, 29, 0,
];

const LOWER: [u16; 4] = [0, 1, 1, 30];

/// Merges the list over the chain, and says how many nodes and tags it then has, or that there is no room.
fn merge(rt: &impl Print, list: &Items, dst: &mut [u64]) -> io::Result<()>
    requires list_ok { (list.now.count ≤ 128) × ListOk list.now }
    requires dst_len_bound { length dst.old ≤ 196608 }
{
    let chain = CHAIN;
    let lower = LOWER;
    let mut rows = [0u16; 512];
    let defined = Items {
        rows: &lower,
        cells: &chain,
        first: 0,
        count: 1,
    };
    match arena_build::replace_items(list, &defined, &mut rows, 0, dst, 0) {
        Ok(used) => {
            let made = Items {
                rows: &rows,
                cells: dst,
                first: 0,
                count: list.count,
            };
            println!(rt; "{used} {} ", made.tags())
        }
        Err(_) => println!(rt; "full"),
    }
}

/// The same in room for so many nodes only, which the array has.
fn merge_within(rt: &impl Print, list: &Items, dst: &mut [u64], room: usize) -> io::Result<()>
    requires list_ok { (list.now.count ≤ 128) × ListOk list.now }
    requires dst_len_bound { (length dst.old ≤ 196608) × (room * 3 ≤ length dst.old) }
{
    let end = room * 3;
    merge(rt, list, &mut dst[..end])
}

/// 128 items over a definition of 31 tags make 4,096 tags in 3,968 nodes: in room for so many nodes, and for one fewer.
fn large(rt: &impl Print) -> io::Result<()> {
    let mut upper = [0u16; 512];
    let mut above = [0u64; 384];
    let mut dst = [0u64; 11904];
    let n = copies(&mut upper, &mut above);
    let list = Items {
        rows: &upper,
        cells: &above,
        first: 0,
        count: n,
    };
    merge_within(rt, &list, &mut dst, 3968)?;
    merge_within(rt, &list, &mut dst, 3967)
}

fn main(rt: HostRuntime) -> io::Result<()> {
    read_exprs(&rt)?;
    read_lists(&rt)?;
    compare(&rt)?;
    build(&rt)?;
    large(&rt)
}
