//! Expressions and items in lent arrays of numbers, read.
//!
//! A node of `cells` is three numbers (tag, x, y), and its operands stand at smaller node numbers. A row of `items` is four numbers
//! (qualifier, name, mark, root): mark 0 is a bare column, any other mark an alias; root is the node of the item's expression.
#![tactic(auto)]

ghost use Rattle.std.specs.Prelude.{Bool, ◌≡◌, ℕ, ◌+◌, ◌*◌, ◌^◌, ◌<◌, ◌≤◌, length};
ghost use Rattle.std.proofs.Math.Bool.{decide};
ghost use Rattle.cpl.specs.Codes.{tag_of};
ghost use Rattle.cpl.specs.Exprs.{columns?, expr_tags, item_tags};
ghost use Rattle.cpl.specs.Plan.{col, pair};
ghost use Rattle.cpl.specs.Tests.{all_b, sum_of};
ghost use Rattle.rules.specs.Merge.{eq_items, expr_d, item_d, occurs, occurs_in, plain, uses_none};
ghost use Rattle.arena.specs.Cells.{expr_at, NodeIs, Wf};
ghost use Rattle.arena.specs.Lists.{listed, ListOk};
ghost use Rattle.arena.specs.Rows.{item_at, RowIs, RowOk};
ghost use Rattle.arena.specs.View.{Shows};

/// A lent array has no room left.
#[derive(Clone, Copy)]
pub struct Full;

/// The three numbers of a node.
#[derive(Clone, Copy)]
pub struct Node {
    pub tag: u64,
    pub x: u64,
    pub y: u64,
}

/// The numbers of node `i`, which lies in the array.
pub fn words_at(cells: &[u64], i: usize) -> Node
    requires { i * 3 + 2 < length cells.now }
    ensures { NodeIs cells.now i result.tag result.x result.y }
{
    let at = i * 3;
    Node {
        tag: cells[at],
        x: cells[at + 1],
        y: cells[at + 2],
    }
}

/// A node taken apart: a column's pair, a literal's bits, missing, an operator's tag with its operands.
// An operator stays a number: it is copied from word to word of the lent arrays (document 01: no heap, fixed memory).
#[derive(Clone, Copy)]
pub enum View {
    Col(u16, u16),
    Lit(u64),
    Miss,
    One(u64, usize),
    Two(u64, usize, usize),
}

/// Node `i`, taken apart. The nodes up to it are well formed. Tags are told apart here and nowhere else.
pub fn node_at(cells: &[u64], i: usize) -> View
    requires { Wf cells.now (i + 1) }
    ensures { Shows cells.now i result }
{
    let w = words_at(cells, i);
    match w.tag {
        0 => View::Col(w.x as u16, w.y as u16),
        1 => View::Lit(w.x),
        2 => View::Miss,
        3 | 4 => View::One(w.tag, w.x as usize),
        _ => View::Two(w.tag, w.x as usize, w.y as usize),
    }
}

/// The outermost tag of node `i`'s expression. The nodes up to it are well formed.
pub fn tag_at(cells: &[u64], i: usize) -> u64
    requires { Wf cells.now (i + 1) }
    ensures { result ≡ tag_of (expr_at cells.now i) }
{
    words_at(cells, i).tag
}

/// Is node `i`'s expression the column (q, n)? The nodes up to it are well formed.
pub fn is_column(cells: &[u64], i: usize, q: u16, n: u16) -> bool
    requires { Wf cells.now (i + 1) }
    ensures { result ≡ decide (expr_d (expr_at cells.now i) (col (pair q n))) }
{
    match node_at(cells, i) {
        View::Col(a, b) => a == q && b == n,
        View::Lit(_) | View::Miss | View::One(..) | View::Two(..) => false,
    }
}

/// The four numbers of a row.
#[derive(Clone, Copy)]
pub struct Row {
    pub qualifier: u16,
    pub name: u16,
    pub mark: u16,
    pub root: usize,
}

/// The numbers of row `i`, which lies in the array.
pub fn row_at(items: &[u16], i: usize) -> Row
    requires { i * 4 + 3 < length items.now }
    ensures { RowIs items.now i result.qualifier result.name result.mark result.root }
{
    let at = i * 4;
    Row {
        qualifier: items[at],
        name: items[at + 1],
        mark: items[at + 2],
        root: items[at + 3] as usize,
    }
}

/// How often the column (q, n) occurs in node `i`'s expression. The nodes up to it are well formed, and it has fewer than 2^32 tags.
pub fn count_uses(cells: &[u64], i: usize, q: u16, n: u16) -> usize
    requires wf { Wf cells.now (i + 1) }
    requires i_bound { expr_tags (expr_at cells.now i) < 2 ^ 32 }
    ensures { result ≡ occurs (pair q n) (expr_at cells.now i) }
{
    match node_at(cells, i) {
        View::Col(a, b) => usize::from(a == q && b == n),
        View::Lit(_) | View::Miss => 0,
        View::One(_, x) => count_uses(cells, x, q, n),
        View::Two(_, x, y) => count_uses(cells, x, q, n) + count_uses(cells, y, q, n),
    }
}

/// The number of tags of node `i`'s expression. The nodes up to it are well formed, and there are fewer than 2^32.
pub fn count_tags(cells: &[u64], i: usize) -> usize
    requires wf { Wf cells.now (i + 1) }
    requires i_bound { expr_tags (expr_at cells.now i) < 2 ^ 32 }
    ensures { result ≡ expr_tags (expr_at cells.now i) }
{
    match node_at(cells, i) {
        View::Col(_, _) | View::Lit(_) | View::Miss => 1,
        View::One(_, x) => count_tags(cells, x) + 1,
        View::Two(_, x, y) => count_tags(cells, x) + count_tags(cells, y) + 1,
    }
}

/// The number of tags of the item of row `i`, an alias being a tag. The row is well formed, and there are fewer than 2^32.
pub fn item_tags(items: &[u16], i: usize, cells: &[u64]) -> usize
    requires row_ok { RowOk items.now cells.now i }
    requires i_bound { item_tags (item_at items.now cells.now i) < 2 ^ 32 }
    ensures { result ≡ item_tags (item_at items.now cells.now i) }
{
    let row = row_at(items, i);
    if row.mark == 0 {
        return 1;
    }
    count_tags(cells, row.root) + 1
}

/// Are the expressions of node `i` of `a` and node `j` of `b` the same? The nodes up to them are well formed.
pub fn same_expr(a: &[u64], i: usize, b: &[u64], j: usize) -> bool
    requires wf { Wf a.now (i + 1) }
    requires wf_2 { Wf b.now (j + 1) }
    ensures { result ≡ decide (expr_d (expr_at a.now i) (expr_at b.now j)) }
{
    let v = words_at(a, i);
    let w = words_at(b, j);
    if v.tag != w.tag {
        return false;
    }
    match node_at(a, i) {
        View::Col(_, _) => v.x == w.x && v.y == w.y,
        View::Lit(_) => v.x == w.x,
        View::Miss => true,
        View::One(_, x) => same_expr(a, x, b, w.x as usize),
        View::Two(_, x, y) => same_expr(a, x, b, w.x as usize) && same_expr(a, y, b, w.y as usize),
    }
}

/// Are row `i` of one list and row `j` of another the same item? Both rows are well formed.
pub fn same_item(
    items: &[u16],
    i: usize,
    cells: &[u64],
    items2: &[u16],
    j: usize,
    cells2: &[u64],
) -> bool
    requires row_ok { RowOk items.now cells.now i }
    requires row_ok_2 { RowOk items2.now cells2.now j }
    ensures { result ≡ decide (item_d (item_at items.now cells.now i) (item_at items2.now cells2.now j)) }
{
    let v = row_at(items, i);
    let w = row_at(items2, j);
    // `&`, since both tests are one value here; `&&` is no plainer.
    let pairs = (v.qualifier == w.qualifier) & (v.name == w.name);
    if v.mark == 0 {
        return (w.mark == 0) & pairs;
    }
    if w.mark == 0 {
        return false;
    }
    pairs && same_expr(cells, v.root, cells2, w.root)
}

/// Does node `i`'s expression use a column? The nodes up to it are well formed.
pub fn has_column(cells: &[u64], i: usize) -> bool
    requires { Wf cells.now (i + 1) }
    ensures { result ≡ columns? (expr_at cells.now i) }
{
    match node_at(cells, i) {
        View::Col(_, _) => true,
        View::Lit(_) | View::Miss => false,
        View::One(_, x) => has_column(cells, x),
        View::Two(_, x, y) => has_column(cells, x) || has_column(cells, y),
    }
}

/// Is the item of row `i` a bare column or without columns? The row is well formed.
pub fn is_plain(items: &[u16], i: usize, cells: &[u64]) -> bool
    requires { RowOk items.now cells.now i }
    ensures { result ≡ plain (item_at items.now cells.now i) }
{
    let row = row_at(items, i);
    row.mark == 0 || !has_column(cells, row.root)
}

/// A list of items: `count` rows from row `first` on, whose expressions stand in `cells`.
#[derive(Clone, Copy)]
pub struct Items<'a> {
    pub rows: &'a [u16],
    pub cells: &'a [u64],
    pub first: usize,
    pub count: usize,
}

impl Items<'_> {
    /// How often the column (q, n) occurs over the whole list. Its rows are well formed, and it has fewer than 2^32 tags.
    pub fn uses(&self, q: u16, n: u16) -> usize
        requires rows_ok { ListOk self.now }
        requires count_bound { sum_of item_tags (listed self.now) < 2 ^ 32 }
        ensures { result ≡ occurs_in (pair q n) (listed self.now) }
    {
        (self.first..self.first + self.count)
            .map(|i| count_uses(self.cells, row_at(self.rows, i).root, q, n))
            .sum()
    }

    /// The number of tags of the list. Its rows are well formed, and there are fewer than 2^32.
    pub fn tags(&self) -> usize
        requires rows_ok { ListOk self.now }
        requires count_bound { sum_of item_tags (listed self.now) < 2 ^ 32 }
        ensures { result ≡ sum_of item_tags (listed self.now) }
    {
        (self.first..self.first + self.count)
            .map(|i| item_tags(self.rows, i, self.cells))
            .sum()
    }

    /// Is the list the same as another, item by item? The rows of both are well formed.
    pub fn same(&self, other: &Items) -> bool
        requires rows_ok { ListOk self.now }
        requires rows_ok_2 { ListOk other.now }
        ensures { result ≡ eq_items (listed self.now) (listed other.now) }
    {
        self.count == other.count
            && (0..self.count).all(|i| {
                same_item(
                    self.rows,
                    self.first + i,
                    self.cells,
                    other.rows,
                    other.first + i,
                    other.cells,
                )
            })
    }

    /// Does the list use no column? Its rows are well formed.
    pub fn uses_no_column(&self) -> bool
        requires { ListOk self.now }
        ensures { result ≡ uses_none (listed self.now) }
    {
        (self.first..self.first + self.count).all(|i| !has_column(
            self.cells,
            row_at(self.rows, i).root,
        ))
    }

    /// Is each item of the list a bare column or without columns? Its rows are well formed.
    pub fn all_plain(&self) -> bool
        requires { ListOk self.now }
        ensures { result ≡ all_b plain (listed self.now) }
    {
        (self.first..self.first + self.count).all(|i| is_plain(self.rows, i, self.cells))
    }
}
