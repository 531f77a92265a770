//! Expressions and items built into lent arrays, behind what stands there. The arrays are laid out as in crate `arena`.
//!
//! Every function keeps the nodes below `used` and the rows below the one that it writes. Its error is `Full`, exactly when the nodes
//! that it needs are more than the array has left.
#![tactic(auto)]

ghost use Rattle.std.specs.Prelude.{map, ◌≡◌, ℕ, ◌+◌, ◌*◌, ◌<◌, ◌≤◌, length};
ghost use Rattle.cpl.specs.Plan.{col, pair};
ghost use Rattle.rules.specs.Merge.{replace, replace_item};
ghost use Rattle.arena.specs.Cells.{expr_at, Wf};
ghost use Rattle.arena.specs.Lists.{listed, ListOk};
ghost use Rattle.arena.specs.Rows.{item_at, row_item, RowOk};
ghost use Rattle.arena_build.specs.Build.{Answer, find_in, level_of, Pushed, put_for};
ghost use Rattle.arena_build.specs.Lists.{ItemAnswer, ListAnswer, Marked, put_row};

use arena::{Full, Items, View};

/// An expression that was built: its node, and the nodes in use behind it.
#[derive(Clone, Copy)]
pub struct Built {
    pub node: usize,
    pub used: usize,
}

/// One node more.
pub fn push(cells: &mut [u64], used: usize, tag: u64, x: u64, y: u64) -> Result<Built, Full>
    ensures { Pushed cells.old used tag x y result cells.new }
{
    if used >= cells.len() / 3 {
        return Err(Full);
    }
    let at = used * 3;
    cells[at] = tag;
    cells[at + 1] = x;
    cells[at + 2] = y;
    Ok(Built {
        node: used,
        used: used + 1,
    })
}

/// The node of the first row whose pair fits the reference (q, n): a name without qualifier fits every pair of that name. The list's rows
/// lie in the array.
pub fn find_def(list: &Items, q: u16, n: u16) -> Option<usize>
    requires { (list.now.first + list.now.count) * 4 ≤ length list.now.rows.now }
    ensures { result ≡ find_in list.now.rows.now list.now.first list.now.count (pair q n) }
{
    for i in list.first..list.first + list.count {
        let row = arena::row_at(list.rows, i);
        if n == row.name && (q == 0 || q == row.qualifier) {
            return Some(row.root);
        }
    }
    None
}

/// What becomes of a column: it stays as it is, or it is replaced by its definition.
#[derive(Clone, Copy)]
pub enum Level {
    Copy,
    Replace,
}

/// The level of a number: 0 is Copy, any other is Replace.
impl From<usize> for Level {
    ghost from_gives = { λ number level. level ≡ level_of number };

    #[tactic(auto, unfolding(crate::specs::Build::level_of))]
    fn from(number: usize) -> Level {
        match number {
            0 => Level::Copy,
            _ => Level::Replace,
        }
    }
}

/// Builds the expression of node `i` of `src` behind the nodes in use. At level Copy it is a copy; at level Replace each column is
/// replaced by its definition, which is copied: the expression of the row of the list that it finds.
/// The node, the list's rows and the nodes in use are well formed. Rust: `rewrite_expr`.
pub fn subst(
    src: &[u64],
    i: usize,
    list: &Items,
    level: Level,
    dst: &mut [u64],
    used: usize,
) -> Result<Built, Full>
    requires wf { Wf src.now (i + 1) }
    requires rows_ok { ListOk list.now }
    requires wf_2 { Wf dst.old used }
    ensures { Answer (replace (put_for level (listed list.now)) (expr_at src.now i)) dst.old used result dst.new }
{
    match arena::node_at(src, i) {
        View::Col(q, n) => match level {
            Level::Copy => push(dst, used, 0, u64::from(q), u64::from(n)),
            Level::Replace => match find_def(list, q, n) {
                Some(j) => subst(list.cells, j, list, Level::Copy, dst, used),
                None => push(dst, used, 2, 0, 0),
            },
        },
        View::Lit(a) => push(dst, used, 1, a, 0),
        View::Miss => push(dst, used, 2, 0, 0),
        View::One(t, x) => {
            let b = subst(src, x, list, level, dst, used)?;
            push(dst, b.used, t, b.node as u64, 0)
        }
        View::Two(t, x, y) => {
            let b = subst(src, x, list, level, dst, used)?;
            let d = subst(src, y, list, level, dst, b.used)?;
            push(dst, d.used, t, b.node as u64, d.node as u64)
        }
    }
}

/// Writes row `i`, which lies in the array.
pub fn put_row(items: &mut [u16], i: usize, q: u16, n: u16, mark: u16, root: u16)
    requires { i * 4 + 3 < length items.old }
    ensures { items.new ≡ put_row items.old i q n mark root }
{
    let at = i * 4;
    items[at] = q;
    items[at + 1] = n;
    items[at + 2] = mark;
    items[at + 3] = root;
}

/// The mark of an item that had `mark` and the pair (q, n), now that its expression is node `i`'s: an alias only where the expression
/// is not a column of that pair, except that an item aliased with a nonzero qualifier stays aliased. The nodes up to it are well formed.
pub fn mark_for(mark: u16, q: u16, n: u16, cells: &[u64], i: usize) -> u16
    requires { Wf cells.now (i + 1) }
    ensures { Marked mark (pair q n) (expr_at cells.now i) result }
{
    if mark != 0 && q != 0 {
        return 1;
    }
    u16::from(!arena::is_column(cells, i, q, n))
}

/// Puts the item of row `i` of a list, with each column replaced by its definition, into row `k` of `rows`, its expression behind
/// the nodes in use. The row and the definitions' rows are well formed, the nodes in use too; row `k` lies in the array, and `dst`
/// has at most 65,536 nodes, since a row names a node in 16 bits.
pub fn replace_item(
    upper: &Items,
    i: usize,
    list: &Items,
    rows: &mut [u16],
    k: usize,
    dst: &mut [u64],
    used: usize,
) -> Result<Built, Full>
    requires row_ok { RowOk upper.now.rows.now upper.now.cells.now i }
    requires rows_ok { ListOk list.now }
    requires k_in_bounds { k * 4 + 3 < length rows.old }
    requires dst_len_bound { (length dst.old ≤ 196608) × Wf dst.old used }
    ensures { ItemAnswer (replace_item (listed list.now) (item_at upper.now.rows.now upper.now.cells.now i)) k rows.old dst.old used result rows.new dst.new }
{
    let row = arena::row_at(upper.rows, i);
    let b = subst(upper.cells, row.root, list, Level::Replace, dst, used)?;
    let mark = mark_for(row.mark, row.qualifier, row.name, dst, b.node);
    put_row(rows, k, row.qualifier, row.name, mark, b.node as u16);
    Ok(b)
}

/// Puts the item of row `i` of a list into row `k` of `rows`, its expression behind the nodes in use. The row is well formed, the
/// nodes in use too; row `k` lies in the array, and `dst` has at most 65,536 nodes.
pub fn copy_item(
    list: &Items,
    i: usize,
    rows: &mut [u16],
    k: usize,
    dst: &mut [u64],
    used: usize,
) -> Result<Built, Full>
    requires row_ok { RowOk list.now.rows.now list.now.cells.now i }
    requires k_in_bounds { k * 4 + 3 < length rows.old }
    requires dst_len_bound { (length dst.old ≤ 196608) × Wf dst.old used }
    ensures { ItemAnswer (item_at list.now.rows.now list.now.cells.now i) k rows.old dst.old used result rows.new dst.new }
{
    let row = arena::row_at(list.rows, i);
    let none = Items {
        count: 0,
        first: 0,
        ..*list
    };
    let b = subst(list.cells, row.root, &none, Level::Copy, dst, used)?;
    put_row(rows, k, row.qualifier, row.name, row.mark, b.node as u16);
    Ok(b)
}

/// Puts a whole list, with each column replaced by its definition, into the rows of `rows` from `to` on, and answers the nodes in use
/// behind it. The rows of both lists are well formed, the nodes in use too; there are rows enough, and `dst` has at most 65,536 nodes.
pub fn replace_items(
    upper: &Items,
    list: &Items,
    rows: &mut [u16],
    to: usize,
    dst: &mut [u64],
    used: usize,
) -> Result<usize, Full>
    requires rows_ok { ListOk upper.now }
    requires rows_ok_2 { ListOk list.now }
    requires size_in_bounds { (to + upper.now.count) * 4 ≤ length rows.old }
    requires dst_len_bound { (length dst.old ≤ 196608) × Wf dst.old used }
    ensures { ListAnswer (map (replace_item (listed list.now)) (listed upper.now)) to upper.now.count rows.old dst.old used result rows.new dst.new }
{
    let mut most = used;
    for i in 0..upper.count {
        let b = replace_item(upper, upper.first + i, list, rows, to + i, dst, most)?;
        most = b.used;
    }
    Ok(most)
}
