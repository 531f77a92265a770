//! A plan in lent arrays of numbers, taken apart node by node and row by row.
//!
//! A node of `nodes` is seven numbers (kind, second input or number of filters, first row, number of rows, three more), in prefix order: the
//! first input of node k is node k + 1. A row of `rows` is four numbers. An expression is named by the number of its root in the cells of the crate `arena`.
#![tactic(auto)]

ghost use Rattle.std.specs.Prelude.{◌≡◌, ◌+◌, ◌*◌, ◌<◌, length};
ghost use Rattle.cpl.specs.Plan.{pair};
ghost use Rattle.arena.specs.Rows.{pair_at};
ghost use Rattle.tree.specs.Rows.{Inside, last_row, number_at};
ghost use Rattle.tree.specs.Node.{Fits, NodeFits, inputs_of, join_node, node_of, scan_node, type_number, type_of, words_at};
ghost use Rattle.tree.specs.Shows.{AggIs, KeyIs, OnIs, TakenApart, WinIs};

/// A join's type, in the order of document 01's numbers.
#[derive(Clone, Copy, PartialEq, Eq)]
pub enum JoinType {
    Inner,
    Left,
    Right,
    Full,
    LeftSemi,
    LeftAnti,
    RightSemi,
    RightAnti,
}

impl From<JoinType> for u64 {
    ghost from_gives = { λ join_type n. n ≡ type_number join_type };

    #[tactic(auto, unfolding(cpl::specs::Codes::join_number))]
    fn from(join_type: JoinType) -> u64 {
        match join_type {
            JoinType::Inner => 0,
            JoinType::Left => 1,
            JoinType::Right => 2,
            JoinType::Full => 3,
            JoinType::LeftSemi => 4,
            JoinType::LeftAnti => 5,
            JoinType::RightSemi => 6,
            JoinType::RightAnti => 7,
        }
    }
}

/// A join: its type, its pairs' rows, the root of its condition if it has one, the number of its second input.
#[derive(Clone, Copy)]
pub struct JoinNode {
    pub join_type: JoinType,
    pub first: usize,
    pub n: usize,
    pub has_filter: bool,
    pub filter: usize,
    pub right: usize,
}

/// A scan: its table, its qualifier, the rows of its column indices if they are given, and how many filters have their rows behind those. `first`
/// and `n` stand beside `given`, since they say where the filters' rows start also where no indices are given.
#[derive(Clone, Copy)]
pub struct ScanNode {
    pub table: usize,
    pub qualifier: u16,
    pub given: bool,
    pub first: usize,
    pub n: usize,
    pub filters: usize,
}

/// A node without its inputs. `first` is its first row, `n` the number of things that its rows hold; an aggregate's rows are those of its
/// groups, then those of its aggregates. A fetch of 2^32 - 1 is none.
#[derive(Clone, Copy)]
pub enum Node {
    Projection {
        first: usize,
        n: usize,
    },
    Filter {
        root: usize,
    },
    Sort {
        first: usize,
        n: usize,
    },
    Limit {
        skip: u32,
        fetch: u32,
    },
    Aggregate {
        first: usize,
        groups: usize,
        aggregates: usize,
    },
    Window {
        first: usize,
        n: usize,
    },
    SubqueryAlias {
        qualifier: u16,
    },
    Union {
        right: usize,
    },
    Distinct,
    Join(JoinNode),
    Scan(ScanNode),
    Empty {
        one_row: bool,
        first: usize,
        n: usize,
    },
}

/// The inputs of a node: none, the next node, or that and the node with this number.
#[derive(Clone, Copy)]
pub enum Inputs {
    Nothing,
    One,
    Two(usize),
}

/// The inputs of a node.
pub fn inputs_of(node: Node) -> Inputs
    ensures { result ≡ inputs_of node }
{
    match node {
        Node::Union { right } => Inputs::Two(right),
        Node::Join(join) => Inputs::Two(join.right),
        Node::Scan(_) | Node::Empty { .. } => Inputs::Nothing,
        Node::Projection { .. }
        | Node::Filter { .. }
        | Node::Sort { .. }
        | Node::Limit { .. }
        | Node::Aggregate { .. }
        | Node::Window { .. }
        | Node::SubqueryAlias { .. }
        | Node::Distinct => Inputs::One,
    }
}

/// The seven numbers of a node.
#[derive(Clone, Copy)]
struct Words {
    kind: u64,
    right: u64,
    first: u64,
    n: u64,
    a: u64,
    b: u64,
    c: u64,
}

/// The numbers of node `k`, which lies in the array.
#[tactic(auto, unfolding(crate::specs::Node::words_at))]
fn words_at(nodes: &[u64], k: usize) -> Words
    requires { k * 7 + 6 < length nodes.now }
    ensures { result ≡ words_at nodes.now k }
{
    let at = k * 7;
    Words {
        kind: nodes[at],
        right: nodes[at + 1],
        first: nodes[at + 2],
        n: nodes[at + 3],
        a: nodes[at + 4],
        b: nodes[at + 5],
        c: nodes[at + 6],
    }
}

/// The join type of a number. A match on the number: a node's words hold numbers, and what stands in them was read as allowed, so none is
/// refused.
#[tactic(auto, unfolding(crate::specs::Node::type_of))]
fn type_of(x: u64) -> JoinType
    ensures { result ≡ type_of x }
{
    match x {
        0 => JoinType::Inner,
        1 => JoinType::Left,
        2 => JoinType::Right,
        3 => JoinType::Full,
        4 => JoinType::LeftSemi,
        5 => JoinType::LeftAnti,
        6 => JoinType::RightSemi,
        _ => JoinType::RightAnti,
    }
}

/// A node's numbers as a join.
#[tactic(auto, unfolding(crate::specs::Node::join_node))]
fn join_node(w: Words) -> JoinNode
    ensures { result ≡ join_node w }
{
    JoinNode {
        join_type: type_of(w.a),
        first: w.first as usize,
        n: w.n as usize,
        has_filter: w.b == 1,
        filter: w.c as usize,
        right: w.right as usize,
    }
}

/// A node's numbers as a scan. Its qualifier is a 16-bit number.
#[tactic(auto, unfolding(crate::specs::Node::scan_node))]
fn scan_node(w: Words) -> ScanNode
    requires { w.b < 65536 }
    ensures { result ≡ scan_node w }
{
    ScanNode {
        table: w.a as usize,
        qualifier: w.b as u16,
        given: w.c == 1,
        first: w.first as usize,
        n: w.n as usize,
        filters: w.right as usize,
    }
}

/// A node by its numbers, which fit their types. Kinds are told apart here and nowhere else, by a match on the number: a node's
/// words hold numbers, and what stands in them was read as allowed.
#[tactic(auto, unfolding(crate::specs::Node::node_of))]
fn node_of(w: Words) -> Node
    requires { Fits w }
    ensures { result ≡ node_of w }
{
    let first = w.first as usize;
    let n = w.n as usize;
    let a = w.a;
    let kind = w.kind;
    match kind {
        1 => Node::Projection { first, n },
        2 => Node::Filter { root: a as usize },
        3 => Node::Sort { first, n },
        4 => Node::Limit {
            skip: a as u32,
            fetch: w.b as u32,
        },
        5 => Node::Aggregate {
            first,
            groups: n,
            aggregates: a as usize,
        },
        6 => Node::Window { first, n },
        7 => Node::SubqueryAlias {
            qualifier: a as u16,
        },
        8 => Node::Union {
            right: w.right as usize,
        },
        9 => Node::Distinct,
        10 => Node::Join(join_node(w)),
        11 => Node::Scan(scan_node(w)),
        _ => Node::Empty {
            one_row: a == 1,
            first,
            n,
        },
    }
}

/// Node `k`, taken apart. It lies in the array, and its numbers fit their types.
#[tactic(auto, using(crate::proofs::Plans::taken))]
pub fn node_at(nodes: &[u64], k: usize) -> Node
    requires { NodeFits nodes.now k }
    ensures { TakenApart nodes.now k result }
{
    let w = words_at(nodes, k);
    node_of(w)
}

/// A key: its flags, its root.
#[derive(Clone, Copy)]
pub struct KeyRow {
    pub flags: u16,
    pub root: usize,
}

/// The key of row `i`, which lies in the array.
#[tactic(auto, using(crate::proofs::Parts::key_is))]
pub fn key_at(rows: &[u16], i: usize) -> KeyRow
    requires { Inside rows.now i }
    ensures { KeyIs rows.now i result.flags result.root }
{
    let row = arena::row_at(rows, i);
    KeyRow {
        flags: row.qualifier,
        root: row.root,
    }
}

/// An aggregate: its pair, its function, its root (where the function is not 0).
#[derive(Clone, Copy)]
pub struct AggRow {
    pub qualifier: u16,
    pub name: u16,
    pub function: u16,
    pub root: usize,
}

/// The aggregate of row `i`, which lies in the array.
#[tactic(auto, using(crate::proofs::Parts::agg_is))]
pub fn agg_at(rows: &[u16], i: usize) -> AggRow
    requires { Inside rows.now i }
    ensures { AggIs rows.now i result.qualifier result.name result.function result.root }
{
    let row = arena::row_at(rows, i);
    AggRow {
        qualifier: row.qualifier,
        name: row.name,
        function: row.mark,
        root: row.root,
    }
}

/// A window: its pair, its function, its root (where the function is not 0); `parts` parts from the row after its first on, `keys` keys
/// from row `key` on; the row after its last.
#[derive(Clone, Copy)]
pub struct WinRow {
    pub qualifier: u16,
    pub name: u16,
    pub function: u16,
    pub root: usize,
    pub parts: usize,
    pub key: usize,
    pub keys: usize,
    pub next: usize,
}

/// The window from row `i` on. Its last row, and so each of them, lies in the array.
pub fn win_at(rows: &[u16], i: usize) -> WinRow
    requires { Inside rows.now (last_row rows.now i) }
    ensures { WinIs rows.now i result.qualifier result.name result.function result.parts result.key result.keys result.root result.next }
{
    let head = arena::row_at(rows, i);
    let parts = head.root;
    let mid = i + 1 + parts;
    let row = arena::row_at(rows, mid);
    let key = mid + 1;
    let keys = usize::from(row.qualifier);
    WinRow {
        qualifier: head.qualifier,
        name: head.name,
        function: head.mark,
        root: row.root,
        parts,
        key,
        keys,
        next: key + keys,
    }
}

/// A pair of a join: the roots of its two sides.
#[derive(Clone, Copy)]
pub struct OnRow {
    pub left: usize,
    pub right: usize,
}

/// The pair of a join in row `i`, which lies in the array.
pub fn on_at(rows: &[u16], i: usize) -> OnRow
    requires { Inside rows.now i }
    ensures { OnIs rows.now i result.left result.right }
{
    let row = arena::row_at(rows, i);
    OnRow {
        left: usize::from(row.mark),
        right: row.root,
    }
}

/// The first number of row `i`, which lies in the array: a column index.
#[tactic(auto, using(crate::proofs::Parts::number_is))]
pub fn column_at(rows: &[u16], i: usize) -> usize
    requires { Inside rows.now i }
    ensures { result ≡ number_at rows.now i }
{
    let row = arena::row_at(rows, i);
    usize::from(row.qualifier)
}

/// A pair, as a row holds it and as a field is named: a qualifier, 0 for none, and a name.
#[derive(Clone, Copy, PartialEq, Eq)]
pub struct Field {
    pub qualifier: u16,
    pub name: u16,
}

/// The pair of row `i`, which lies in the array.
pub fn pair_at(rows: &[u16], i: usize) -> Field
    requires { Inside rows.now i }
    ensures { pair result.qualifier result.name ≡ pair_at rows.now i }
{
    let row = arena::row_at(rows, i);
    Field {
        qualifier: row.qualifier,
        name: row.name,
    }
}
