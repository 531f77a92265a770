//! writer: the rewritten plan, counted and then written. A node's head is written first; each input is lent the rest of the buffer.
#![tactic(auto)]

ghost use Rattle.std.specs.Prelude.{◌++◌, ◌≡◌, ◌+◌, ◌*◌, ◌≤◌, length, take};
ghost use Rattle.cpl.specs.Bytes.{plan_bytes};
ghost use Rattle.cpl.specs.Exprs.{plan_tags};
ghost use Rattle.result.specs.Records.{record_at};
ghost use Rattle.result.specs.Result.{record_n};
ghost use Rattle.versions.specs.Versions.{version_of};
ghost use Rattle.writer_parts.specs.Wrote.{Counts, Wrote};
ghost use Rattle.writer.specs.Plans.{cells_of, head_tags, inputs_of, node_inputs, plan_head, plan_of, record_shape, rows_of, Shaped, Taken, Writes};

use result::Record;
use shapes::Shape;
use tree::{Inputs, Node};
use versions::Version;
use writer_parts::{Part, Size};

// The head of record `i`: of the node that it keeps, the columns of an old node's fields, items, the one-row Empty with no fields.
fn shape_at(
    version: &Version,
    nodes: &[u64; 1792],
    widths: &[u64; 512],
    records: &[u64; 3328],
    i: usize,
) -> Shape
    requires record_n_in_bounds { i * record_n + record_n ≤ length records.now }
    requires taken { Taken nodes.now (record_at records.now i) }
    ensures { result ≡ record_shape version.now.wide version.now.late nodes.now widths.now (record_at records.now i) }
{
    match result::record_at(records, i) {
        Record::Kept { old, .. } => shapes::shape_of(
            tree::node_at(nodes, old),
            lookup::width_at(widths, old),
            version.wide,
            version.late,
        ),
        Record::Columns { old, .. } => shapes::plain(
            1,
            1,
            shapes::at_set(
                version.wide,
                Part::Field,
                lookup::first_at(widths, old),
                lookup::width_at(widths, old),
            ),
        ),
        Record::Items { row, count, .. } => {
            shapes::plain(1, 1, shapes::all_of(version.wide, Part::Item, row, count))
        }
        Record::Nothing => shapes::empty_shape(true, 0, 0, version.wide),
    }
}

// The records of a node's inputs, if it has any: the first, and the second if it has one. The node is kept, and its record has two numbers.
fn node_inputs(node: Node, first: usize, second: usize) -> Option<(usize, Option<usize>)>
    ensures { result ≡ node_inputs node first second }
{
    match tree::inputs_of(node) {
        Inputs::Nothing => None,
        Inputs::One => Some((first, None)),
        Inputs::Two(_) => Some((first, Some(second))),
    }
}

// The inputs of record `i`.
fn kids(nodes: &[u64; 1792], records: &[u64; 3328], i: usize) -> Option<(usize, Option<usize>)>
    requires record_n_in_bounds { i * record_n + record_n ≤ length records.now }
    requires taken { Taken nodes.now (record_at records.now i) }
    ensures { result ≡ inputs_of nodes.now (record_at records.now i) }
{
    match result::record_at(records, i) {
        Record::Kept { old, first, second } => node_inputs(
            tree::node_at(nodes, old),
            first,
            second,
        ),
        Record::Columns { first, .. } => Some((first, None)),
        Record::Items { first, .. } => Some((first, None)),
        Record::Nothing => None,
    }
}

// The rows and the cells that the parts of a record's head stand in: the old plan's rows, its fields, or the result's own.
fn parts_of<'a>(
    form: Record,
    cells: &'a [u64; 12288],
    rows: &'a [u16],
    fields: &'a [u16],
    items: &'a [u16; 16896],
    icells: &'a [u64; 12288],
) -> (&'a [u16], &'a [u64; 12288])
    ensures rows_are { result.0.now ≡ rows_of rows.now fields.now items.now form }
    ensures cells_are { result.1.now ≡ cells_of cells.now icells.now form }
{
    match form {
        Record::Kept { .. } => (rows, cells),
        Record::Columns { .. } => (fields, cells),
        Record::Items { .. } => (items, icells),
        Record::Nothing => (rows, cells),
    }
}

// The head of record `i`, which is `shape`, at the start of out; its length.
fn write_head(
    shape: Shape,
    cells: &[u64; 12288],
    rows: &[u16],
    fields: &[u16],
    records: &[u64; 3328],
    items: &[u16; 16896],
    icells: &[u64; 12288],
    i: usize,
    out: &mut [u8],
) -> usize
    requires { (s : Shaped shape cells.now rows.now fields.now records.now items.now icells.now i)
        × (length (plan_head (version_of s.version) (plan_of s.writes)) ≤ length out.old) }
    ensures { (s : Shaped shape cells.now rows.now fields.now records.now items.now
        icells.now i)
        → Wrote (plan_head (version_of s.version) (plan_of s.writes)) out.old result out.new }
{
    let set = result::set_at(records, i);
    let form = result::record_at(records, i);
    let (rows, cells) = parts_of(form, cells, rows, fields, items, icells);
    shapes::write_shape(shape, rows, cells, &set, out)
}

fn head_size(
    shape: Shape,
    cells: &[u64; 12288],
    rows: &[u16],
    fields: &[u16],
    records: &[u64; 3328],
    items: &[u16; 16896],
    icells: &[u64; 12288],
    i: usize,
) -> Size
    requires { Shaped shape cells.now rows.now fields.now records.now items.now icells.now i }
    ensures { (s : Shaped shape cells.now rows.now fields.now records.now items.now
        icells.now i)
        → Counts (length (plan_head (version_of s.version) (plan_of s.writes))) (head_tags (plan_of s.writes)) result }
{
    let set = result::set_at(records, i);
    let form = result::record_at(records, i);
    let (rows, cells) = parts_of(form, cells, rows, fields, items, icells);
    shapes::shape_size(shape, rows, cells, &set)
}

// What the plan of record `i` takes: its head, and the plans of its inputs.
fn node_size(
    version: &Version,
    cells: &[u64; 12288],
    rows: &[u16],
    nodes: &[u64; 1792],
    fields: &[u16],
    widths: &[u64; 512],
    records: &[u64; 3328],
    items: &[u16; 16896],
    icells: &[u64; 12288],
    i: usize,
) -> Size
    requires { Writes version.now cells.now rows.now nodes.now fields.now widths.now records.now items.now icells.now i }
    ensures { (w : Writes version.now cells.now rows.now nodes.now fields.now widths.now
        records.now items.now icells.now i)
        → Counts (length (plan_bytes (version_of version.now) (plan_of w))) (plan_tags (plan_of w)) result }
{
    let shape = shape_at(version, nodes, widths, records, i);
    let head = head_size(shape, cells, rows, fields, records, items, icells, i);
    let Some((first, second)) = kids(nodes, records, i) else {
        return head;
    };
    let a = node_size(
        version, cells, rows, nodes, fields, widths, records, items, icells, first,
    );
    let sum = head + a;
    let Some(other) = second else {
        return sum;
    };
    let b = node_size(
        version, cells, rows, nodes, fields, widths, records, items, icells, other,
    );
    sum + b
}

// The bytes of the plan of record `i` at the start of out; their number. The head is written, and each input is lent the rest.
fn write_node(
    version: &Version,
    cells: &[u64; 12288],
    rows: &[u16],
    nodes: &[u64; 1792],
    fields: &[u16],
    widths: &[u64; 512],
    records: &[u64; 3328],
    items: &[u16; 16896],
    icells: &[u64; 12288],
    i: usize,
    out: &mut [u8],
) -> usize
    requires { (w : Writes version.now cells.now rows.now nodes.now fields.now widths.now records.now items.now icells.now i)
        × (length (plan_bytes (version_of version.now) (plan_of w)) ≤ length out.old) }
    ensures { (w : Writes version.now cells.now rows.now nodes.now fields.now widths.now
        records.now items.now icells.now i)
        → Wrote (plan_bytes (version_of version.now) (plan_of w)) out.old result out.new }
{
    let shape = shape_at(version, nodes, widths, records, i);
    let a = write_head(shape, cells, rows, fields, records, items, icells, i, out);
    let Some((first, second)) = kids(nodes, records, i) else {
        return a;
    };
    let m = write_node(
        version,
        cells,
        rows,
        nodes,
        fields,
        widths,
        records,
        items,
        icells,
        first,
        &mut out[a..],
    );
    let b = a + m;
    let Some(other) = second else {
        return b;
    };
    let n = write_node(
        version,
        cells,
        rows,
        nodes,
        fields,
        widths,
        records,
        items,
        icells,
        other,
        &mut out[b..],
    );
    b + n
}

/// What the plan of record `i` takes in the bytes of a version.
pub fn plan_size(
    version: Version,
    cells: &[u64; 12288],
    rows: &[u16],
    nodes: &[u64; 1792],
    fields: &[u16],
    widths: &[u64; 512],
    records: &[u64; 3328],
    items: &[u16; 16896],
    icells: &[u64; 12288],
    i: usize,
) -> Size
    requires { Writes version cells.now rows.now nodes.now fields.now widths.now records.now items.now icells.now i }
    ensures { (w : Writes version cells.now rows.now nodes.now fields.now widths.now
        records.now items.now icells.now i)
        → Counts (length (plan_bytes (version_of version) (plan_of w))) (plan_tags (plan_of w)) result }
{
    node_size(
        &version, cells, rows, nodes, fields, widths, records, items, icells, i,
    )
}

/// A plan file: the first `start` bytes of `file`, its mark and tables, and behind them the plan of record `i`.
pub fn write_plan(
    version: Version,
    file: &[u8],
    start: usize,
    cells: &[u64; 12288],
    rows: &[u16],
    nodes: &[u64; 1792],
    fields: &[u16],
    widths: &[u64; 512],
    records: &[u64; 3328],
    items: &[u16; 16896],
    icells: &[u64; 12288],
    i: usize,
    out: &mut [u8],
) -> usize
    requires start_in_bounds { start ≤ length file.now }
    requires w_in_bounds { (w : Writes version cells.now rows.now nodes.now fields.now widths.now records.now items.now icells.now i)
        × (start + length (plan_bytes (version_of version) (plan_of w)) ≤ length out.old) }
    ensures { (w : Writes version cells.now rows.now nodes.now fields.now widths.now
        records.now items.now icells.now i)
        → Wrote (take start file.now ++ plan_bytes (version_of version) (plan_of w)) out.old result out.new }
{
    out[..start].copy_from_slice(&file[..start]);
    let plan = write_node(
        &version,
        cells,
        rows,
        nodes,
        fields,
        widths,
        records,
        items,
        icells,
        i,
        &mut out[start..],
    );
    start + plan
}
