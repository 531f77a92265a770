//! shapes: what is written of a node. A node's head is a number and two segments; those are counted, and written over the start of a buffer.
#![tactic(auto)]

ghost use Rattle.std.specs.Prelude.{true, false, ◌≡◌, ◌+◌, ◌*◌, ◌^◌, ◌<◌, ◌≤◌, length};
ghost use Rattle.required_indices.specs.Request.{set_of};
ghost use Rattle.writer_parts.specs.Wrote.{Countable, Counts, Wrote};
ghost use Rattle.shapes.specs.Shapes.{empty_shape, head_shape, join_shape, part_of, scan_shape, seg_bytes, SegOk, seg_tags, shape_bytes, shape_of, ShapeOk, shape_tags, Sums};

use required_indices::RequiredIndices;
use tree::{JoinNode, Node, ScanNode};
use writer_parts::{Part, Size};

/// A part of a node's head that is no number of a known width: a list behind its count of `count` bytes, all of it or at the set; windows at
/// the set; an expression; a condition that is there, or not; a number of four bytes; a list at that part of the set that begins at `from`.
#[derive(Clone, Copy)]
pub enum Segment {
    Nothing,
    List {
        count: usize,
        part: Part,
        first: usize,
        n: usize,
        all: bool,
    },
    Wins {
        count: usize,
        first: usize,
        n: usize,
    },
    Expr(usize),
    Present(usize),
    Absent,
    Word(u64),
    Chosen {
        count: usize,
        part: Part,
        from: usize,
        first: usize,
        n: usize,
    },
}

/// A node's head: the k lowest bytes of x, and two segments.
#[derive(Clone, Copy)]
pub struct Shape {
    pub k: usize,
    pub x: u64,
    pub first: Segment,
    pub second: Segment,
}

/// A head that is a tag alone, or a tag and a number: k bytes.
pub fn plain(k: usize, x: u64, first: Segment) -> Shape
    ensures { result ≡ head_shape k x first Segment.Nothing }
{
    Shape {
        k,
        x,
        first,
        second: Segment::Nothing,
    }
}

// A Join: its type, its pairs, its condition.
fn join_shape(j: JoinNode) -> Shape
    ensures { result ≡ join_shape j }
{
    let second = if j.has_filter {
        Segment::Present(j.filter)
    } else {
        Segment::Absent
    };
    Shape {
        k: 2,
        x: u64::from(j.join_type) * 256 + 10,
        first: all_of(1, Part::On, j.first, j.n),
        second,
    }
}

// A Scan: its table, its qualifier, those of its columns that the set has, its filters.
fn scan_shape(s: ScanNode, width: usize, wide: usize, late: usize) -> Shape
    requires { s.first + s.n < 2 ^ 64 }
    ensures { result ≡ scan_shape wide late s width }
{
    let behind = s.first + s.n;
    let (part, first, n) = if s.given {
        (Part::Column(wide), s.first, s.n)
    } else {
        (Part::Index(wide), 0, width)
    };
    Shape {
        k: 5,
        x: 4294967296 + u64::from(s.qualifier) * 65536 + ((s.table % 256) as u64) * 256 + 11,
        first: at_set(wide, part, first, n),
        second: all_of(late, Part::Expr, behind, s.filters),
    }
}

/// An Empty: whether it has a row, its fields.
pub fn empty_shape(one_row: bool, first: usize, n: usize, wide: usize) -> Shape
    ensures { result ≡ empty_shape wide one_row first n }
{
    plain(
        2,
        u64::from(one_row) * 256 + 12,
        all_of(wide, Part::Pair, first, n),
    )
}

/// A node's head, of which the set's part of its list is kept. A scan that names no columns has `width` of them. A count has
/// `wide` bytes, that of a scan's filters `late`. Kinds are told apart here and nowhere else.
pub fn shape_of(node: Node, width: usize, wide: usize, late: usize) -> Shape
    requires { Sums node }
    ensures { result ≡ shape_of wide late node width }
{
    match node {
        Node::Projection { first, n } => plain(1, 1, all_of(wide, Part::Item, first, n)),
        Node::Filter { root } => plain(1, 2, Segment::Expr(root)),
        Node::Sort { first, n } => plain(1, 3, all_of(1, Part::Key, first, n)),
        Node::Limit { skip, fetch } => plain(
            5,
            u64::from(skip) * 256 + 4,
            Segment::Word(u64::from(fetch)),
        ),
        Node::Aggregate {
            first,
            groups,
            aggregates,
        } => {
            let behind = first + groups;
            Shape {
                k: 1,
                x: 5,
                first: Segment::Chosen {
                    count: wide,
                    part: Part::Item,
                    from: 0,
                    first,
                    n: groups,
                },
                second: Segment::Chosen {
                    count: wide,
                    part: Part::Agg,
                    from: groups,
                    first: behind,
                    n: aggregates,
                },
            }
        }
        Node::Window { first, n } => plain(
            1,
            6,
            Segment::Wins {
                count: wide,
                first,
                n,
            },
        ),
        Node::SubqueryAlias { qualifier } => {
            plain(3, u64::from(qualifier) * 256 + 7, Segment::Nothing)
        }
        Node::Union { .. } => plain(1, 8, Segment::Nothing),
        Node::Distinct => plain(1, 9, Segment::Nothing),
        Node::Join(j) => join_shape(j),
        Node::Scan(s) => scan_shape(s, width, wide, late),
        Node::Empty { one_row, first, n } => empty_shape(one_row, first, n, wide),
    }
}

/// All rows of a list.
pub fn all_of(count: usize, part: Part, first: usize, n: usize) -> Segment
    ensures { result ≡ Segment.List count part first n true }
{
    Segment::List {
        count,
        part,
        first,
        n,
        all: true,
    }
}

/// Those rows of a list that the set has.
pub fn at_set(count: usize, part: Part, first: usize, n: usize) -> Segment
    ensures { result ≡ Segment.List count part first n false }
{
    Segment::List {
        count,
        part,
        first,
        n,
        all: false,
    }
}

// The n indices of a set from `from` on, counted from there.
fn part_of(set: RequiredIndices, from: usize, n: usize) -> RequiredIndices
    ensures { set_of result ≡ part_of (set_of set) from n }
{
    set.split_off(from).rest.split_off(n).below
}

/// A segment of a head.
pub fn write_segment(
    segment: Segment,
    rows: &[u16],
    cells: &[u64],
    set: &RequiredIndices,
    out: &mut [u8],
) -> usize
    requires seg_ok { SegOk segment rows.now cells.now (set_of set.now) }
    requires used_in_bounds { length (seg_bytes segment rows.now cells.now (set_of set.now)) ≤ length out.old }
    ensures { Wrote (seg_bytes segment rows.now cells.now (set_of set.now)) out.old result out.new }
{
    match segment {
        Segment::Nothing => 0,
        Segment::List {
            count,
            part,
            first,
            n,
            all,
        } => writer_parts::write_counted(
            count,
            part,
            rows,
            cells,
            first,
            n,
            (!all).then_some(set),
            out,
        ),
        Segment::Wins { count, first, n } => {
            let a = writer_parts::put_at(out, 0, count, set.len() as u64);
            let m = writer_parts::write_wins(rows, cells, first, n, Some(set), &mut out[a..]);
            a + m
        }
        Segment::Expr(root) => writer_parts::write_expr(cells, root, out),
        Segment::Present(root) => {
            let a = writer_parts::put_at(out, 0, 1, 1);
            let m = writer_parts::write_expr(cells, root, &mut out[a..]);
            a + m
        }
        Segment::Absent => writer_parts::put_at(out, 0, 1, 0),
        Segment::Word(x) => writer_parts::put_at(out, 0, 4, x),
        Segment::Chosen {
            count,
            part,
            from,
            first,
            n,
        } => {
            let own = part_of(*set, from, n);
            writer_parts::write_counted(count, part, rows, cells, first, n, Some(&own), out)
        }
    }
}

pub fn segment_size(segment: Segment, rows: &[u16], cells: &[u64], set: &RequiredIndices) -> Size
    requires seg_ok { SegOk segment rows.now cells.now (set_of set.now) }
    requires countable { Countable (length (seg_bytes segment rows.now cells.now (set_of set.now))) (seg_tags segment rows.now cells.now (set_of set.now)) }
    ensures { Counts (length (seg_bytes segment rows.now cells.now (set_of set.now))) (seg_tags segment rows.now cells.now (set_of set.now)) result }
{
    let one = Size { bytes: 1, tags: 0 };
    match segment {
        Segment::Nothing => Size { bytes: 0, tags: 0 },
        Segment::List {
            count,
            part,
            first,
            n,
            all,
        } => writer_parts::counted_size(count, part, rows, cells, first, n, (!all).then_some(set)),
        Segment::Wins { count, first, n } => {
            Size {
                bytes: count,
                tags: 0,
            } + writer_parts::wins_size(rows, cells, first, n, Some(set))
        }
        Segment::Expr(root) => writer_parts::expr_size(cells, root),
        Segment::Present(root) => one + writer_parts::expr_size(cells, root),
        Segment::Absent => one,
        Segment::Word(_) => Size { bytes: 4, tags: 0 },
        Segment::Chosen {
            count,
            part,
            from,
            first,
            n,
        } => {
            let own = part_of(*set, from, n);
            writer_parts::counted_size(count, part, rows, cells, first, n, Some(&own))
        }
    }
}

/// A head: its number, its two segments.
pub fn write_shape(
    shape: Shape,
    rows: &[u16],
    cells: &[u64],
    set: &RequiredIndices,
    out: &mut [u8],
) -> usize
    requires shape_ok { ShapeOk shape rows.now cells.now (set_of set.now) }
    requires used_in_bounds { length (shape_bytes shape rows.now cells.now (set_of set.now)) ≤ length out.old }
    ensures { Wrote (shape_bytes shape rows.now cells.now (set_of set.now)) out.old result out.new }
{
    let a = writer_parts::put_at(out, 0, shape.k, shape.x);
    let m = write_segment(shape.first, rows, cells, set, &mut out[a..]);
    let b = a + m;
    let n = write_segment(shape.second, rows, cells, set, &mut out[b..]);
    b + n
}

pub fn shape_size(shape: Shape, rows: &[u16], cells: &[u64], set: &RequiredIndices) -> Size
    requires shape_ok { ShapeOk shape rows.now cells.now (set_of set.now) }
    requires countable { Countable (length (shape_bytes shape rows.now cells.now (set_of set.now))) (shape_tags shape rows.now cells.now (set_of set.now)) }
    ensures { Counts (length (shape_bytes shape rows.now cells.now (set_of set.now))) (shape_tags shape rows.now cells.now (set_of set.now)) result }
{
    let a = segment_size(shape.first, rows, cells, set);
    let b = segment_size(shape.second, rows, cells, set);
    Size {
        bytes: shape.k,
        tags: 0,
    } + (a + b)
}
