//! listing: the text that the program `prune` prints, made in a buffer: the nodes of a plan with their kinds and widths, or a refusal.
//!
//! `run` makes all that the program prints, `list` the listing of a plan file as it stands; `list_in` is lent the arrays that `list` makes. The
//! contracts determine every byte.
#![tactic(auto)]

ghost use Rattle.std.specs.Prelude.{◌++◌, ◌≡◌, ◌+◌, ◌*◌, ◌≤◌, get_or, length};
ghost use Rattle.writer_parts.specs.Wrote.{Wrote};
ghost use Rattle.plan_text.specs.Decimal.{decimal};
ghost use Rattle.listing.specs.Text.{count_text, file_in, line_text, list_text, mask_in, printed_text, program_text, refused_text};
ghost use Rattle.listing.specs.Lines.{Counts, Listable, Puts, line_at, node_text, span};

use tree::Node;

/// A text from `at` on; the place after it.
pub fn put_text(out: &mut [u8], at: usize, s: &[u8]) -> usize
    requires { at + length s.now ≤ length out.old }
    ensures { Puts at s.now out.old result out.new }
{
    let end = at + s.len();
    out[at..end].copy_from_slice(s);
    end
}

/// The decimal digits of n from `at` on; the place after them.
pub fn put_number(out: &mut [u8], at: usize, n: u64) -> usize
    requires { at + length (decimal n) ≤ length out.old }
    ensures { Puts at (decimal n) out.old result out.new }
{
    if n < 10 {
        out[at] = (48 + n) as u8;
        return at + 1;
    }
    let last = put_number(out, at, n / 10);
    out[last] = (48 + n % 10) as u8;
    last + 1
}

// The kind of a node in small letters, from `at` on; the place after it.
#[tactic(auto, unfolding(crate::specs::Lines::node_text))]
fn put_kind(out: &mut [u8], at: usize, node: Node) -> usize
    requires { at + 13 ≤ length out.old }
    ensures { Puts at (node_text node) out.old result out.new }
{
    match node {
        Node::Projection { .. } => put_text(out, at, b"projection"),
        Node::Filter { .. } => put_text(out, at, b"filter"),
        Node::Sort { .. } => put_text(out, at, b"sort"),
        Node::Limit { .. } => put_text(out, at, b"limit"),
        Node::Aggregate { .. } => put_text(out, at, b"aggregate"),
        Node::Window { .. } => put_text(out, at, b"window"),
        Node::SubqueryAlias { .. } => put_text(out, at, b"subqueryalias"),
        Node::Union { .. } => put_text(out, at, b"union"),
        Node::Distinct => put_text(out, at, b"distinct"),
        Node::Join(_) => put_text(out, at, b"join"),
        Node::Scan(_) => put_text(out, at, b"scan"),
        Node::Empty { .. } => put_text(out, at, b"empty"),
    }
}

// The line of a node: its number, its kind, how many fields it has.
fn write_line(out: &mut [u8], k: usize, node: Node, width: u64) -> usize
    requires { 56 ≤ length out.old }
    ensures { Wrote (line_text k (node_text node) width) out.old result out.new }
{
    let a = put_number(out, 0, k as u64);
    let b = put_text(out, a, b" ");
    let c = put_kind(out, b, node);
    let d = put_text(out, c, b" ");
    let e = put_number(out, d, width);
    put_text(out, e, b"\n")
}

// The lines of the first `count` nodes.
fn write_lines(out: &mut [u8], nodes: &[u64], widths: &[u64], count: usize) -> usize
    requires { Listable nodes.now widths.now count × (56 * count ≤ length out.old) }
    ensures { Wrote (span (line_at nodes.now widths.now) 0 count) out.old result out.new }
{
    let mut at = 0;
    for k in 0..count {
        let node = tree::node_at(nodes, k);
        at += write_line(&mut out[at..], k, node, widths[k]);
    }
    at
}

// The number of nodes, and their lines.
fn write_listing(out: &mut [u8], nodes: &[u64], widths: &[u64], count: usize) -> usize
    requires { Listable nodes.now widths.now count × (26 + 56 * count ≤ length out.old) }
    ensures { Wrote (count_text count ++ span (line_at nodes.now widths.now) 0 count) out.old result out.new }
{
    let a = put_text(out, 0, b"PLAN ");
    let b = put_number(out, a, count as u64);
    let c = put_text(out, b, b"\n");
    let n = write_lines(&mut out[c..], nodes, widths, count);
    c + n
}

// A refusal's line.
fn write_refused(out: &mut [u8], code: u8, place: usize) -> usize
    requires { 50 ≤ length out.old }
    ensures { Wrote (refused_text code place) out.old result out.new }
{
    let a = put_text(out, 0, b"REFUSED ");
    let b = put_number(out, a, u64::from(code));
    let c = put_text(out, b, b" ");
    let d = put_number(out, c, place as u64);
    put_text(out, d, b"\n")
}

/// The listing of a plan file, worked out in lent arrays; how many bytes of `text` it takes.
pub fn list_in(
    file: &[u8],
    cells: &mut [u64; 12288],
    rows: &mut [u16; 1065088],
    nodes: &mut [u64; 1792],
    names: &mut [u16; 8208],
    fields: &mut [u16; 262144],
    widths: &mut [u64; 512],
    keys: &mut [u64; 2448],
    text: &mut [u8; 16384],
) -> usize
    ensures wrote { Wrote (list_text file.now) text.old result text.new }
    ensures counts { Counts result text.new }
{
    match acceptance::read_and_check(file, cells, rows, nodes, names, fields, widths, keys) {
        Ok(read) => write_listing(text, nodes, widths, read.nodes),
        Err(refusal) => write_refused(text, refusal.code(), refusal.place),
    }
}

/// The listing of a plan file: a line for each node of its plan, or for what is wrong with the file; how many bytes of `text` it takes.
/// The bytes of `text` behind them stay.
pub fn list(file: &[u8], text: &mut [u8; 16384]) -> usize
    ensures wrote { Wrote (list_text file.now) text.old result text.new }
    ensures counts { Counts result text.new }
{
    let mut cells = [0u64; 12288];
    let mut rows = [0u16; 1065088];
    let mut nodes = [0u64; 1792];
    let mut names = [0u16; 8208];
    let mut fields = [0u16; 262144];
    let mut widths = [0u64; 512];
    let mut keys = [0u64; 2448];
    list_in(
        file,
        &mut cells,
        &mut rows,
        &mut nodes,
        &mut names,
        &mut fields,
        &mut widths,
        &mut keys,
        text,
    )
}

/// A byte of the input, 0 past its end.
pub fn byte(input: &[u8], i: usize) -> u8
    ensures { result ≡ get_or input.now i 0 }
{
    input.get(i).copied().unwrap_or(0)
}

// The mask that the input starts with.
#[tactic(auto, unfolding(crate::specs::Text::mask_in))]
fn mask_in(input: &[u8]) -> u16
    ensures { result ≡ mask_in input.now }
{
    let low = u16::from(byte(input, 1));
    let high = u16::from(byte(input, 2));
    low + 256 * high
}

// The plan bytes that are looked at: those behind the three bytes of settings, 65,536 at most.
fn file_in(input: &[u8]) -> &[u8]
    ensures { result.now ≡ file_in input.now }
{
    let file = &input[input.len().min(3)..];
    &file[..file.len().min(65536)]
}

// The narrowed plan's listing, or the refusal.
fn write_answer(mode: u8, mask: u16, file: &[u8], text: &mut [u8; 16384]) -> usize
    ensures wrote { Wrote (printed_text mode mask file.now) text.old result text.new }
    ensures counts { Counts result text.new }
{
    let mut out = [0u8; 65536];
    let a = pruner::prune_all(mode, mask, file, &mut out);
    if a.code > 0 {
        return write_refused(text, a.code, a.place);
    }
    let n = a.length;
    list(&out[..n], text)
}

/// What the program `prune` prints of its standard input, a mode byte, a mask of two bytes and a plan file of which at most 65,536 bytes are looked
/// at; how many bytes of `text` it takes. The bytes of `text` behind them stay.
pub fn run(input: &[u8], text: &mut [u8; 16384]) -> usize
    ensures wrote { Wrote (program_text input.now) text.old result text.new }
    ensures counts { Counts result text.new }
{
    let mode = byte(input, 0);
    let mask = mask_in(input);
    write_answer(mode, mask, file_in(input), text)
}
