//! Reading a plan file into lent arrays: its mark, its nodes and its end. The tables' names and keys are read by crate catalogue.
#![tactic(auto)]

ghost use Rattle.std.specs.Prelude.{◌≡◌, [], ◌∷◌, ℕ, ◌+◌, ◌*◌, ◌≤◌, length};
ghost use Rattle.std.proofs.lemmas.List.Edits.{sets};
ghost use Rattle.cpl.specs.Limits as cpl;
ghost use Rattle.cpl.specs.Plan.{Catalogue};
ghost use Rattle.cpl.specs.Read.{ok};
ghost use Rattle.cpl.specs.ReadPlan.{starts, read_mark};
ghost use Rattle.versions.specs.Versions.{version_of, Known, node_rows, rows_room};
ghost use Rattle.reader_heads.specs.Heads.{numbers, Widths};
ghost use Rattle.key_sets.specs.Slots.{SlotIn};
ghost use Rattle.reader.specs.Marks.{MarkIs};
ghost use Rattle.reader.specs.Plans.{ReadsPlan, RightBody, RightFile};

use reader_fields::Spot;
use reader_heads::{Head, Node};
use refusals::{Reason, Refusal};
use versions::Version;

// Where the reader stands after a plan, and how many nodes it has read.
#[derive(Clone, Copy)]
pub struct Planned {
    pub spot: Spot,
    pub nodes: usize,
}

// What a file was read as: its version, the number of tables, the offset of the plan, how many nodes, expression tags and nodes of expressions it has.
#[derive(Clone, Copy)]
pub struct Read {
    pub version: Version,
    pub tables: usize,
    pub start: usize,
    pub nodes: usize,
    pub tags: usize,
    pub made: usize,
}

// The seven numbers of a node.
fn put_node(nodes: &mut [u64], k: usize, t: u64, second: usize, row: usize, node: Node)
    requires { 7 * k + 7 ≤ length nodes.old }
    ensures { nodes.new ≡ sets nodes.old (7 * k) (numbers t second row node) }
{
    nodes[7 * k..7 * k + 7].copy_from_slice(&[
        t,
        second as u64,
        row as u64,
        node.n,
        node.x,
        node.y,
        node.z,
    ]);
}

// A plan whose root is node k.
fn read_plan(
    file: &[u8],
    s: Spot,
    k: usize,
    version: Version,
    tables: u64,
    names: &[u16],
    cells: &mut [u64],
    rows: &mut [u16],
    nodes: &mut [u64],
) -> Result<Planned, Refusal>
    requires made_le_tags { (s.made ≤ s.tags) × (s.tags ≤ 4096) × (k ≤ 256) × (s.row ≤ node_rows (version_of version) * k + s.tags) × (12288 ≤ length cells.old) × (rows_room (version_of version) ≤ length rows.old) × (1792 ≤ length nodes.old) × (513 * tables ≤ length names.now) × (tables ≤ 16) × ((C : Catalogue) × (C.version ≡ version_of version) × Widths names.now tables C) }
    requires known { Known version }
    ensures { (C : Catalogue) → C.version ≡ version_of version → Widths names.now tables C → ReadsPlan (version_of version) C file.now s k cells.old cells.new rows.old rows.new nodes.old nodes.new result }
{
    let at = s.at;
    if file.len() <= at {
        return Err(Refusal::new(Reason::Cut, at));
    }
    if 256 <= k {
        return Err(Refusal::new(Reason::Many, at));
    }
    let t = reader_fields::byte(file, at);
    let from = Spot { at: at + 1, ..s };
    let head = reader_heads::read_head(file, from, at, t, version, tables, names, cells, rows)?;
    match head {
        Head::Leaf(u, node, filters) => {
            put_node(nodes, k, t, filters, s.row, node);
            Ok(Planned {
                spot: u,
                nodes: k + 1,
            })
        }
        Head::One(u, node) => {
            put_node(nodes, k, t, 0, s.row, node);
            read_plan(file, u, k + 1, version, tables, names, cells, rows, nodes)
        }
        Head::Two(u, node) => {
            let first = read_plan(file, u, k + 1, version, tables, names, cells, rows, nodes)?;
            put_node(nodes, k, t, first.nodes, s.row, node);
            read_plan(
                file,
                first.spot,
                first.nodes,
                version,
                tables,
                names,
                cells,
                rows,
                nodes,
            )
        }
    }
}

/// Does the file start with the mark and the version of this number?
pub fn has_mark(file: &[u8], number: u64) -> bool
    ensures { result ≡ starts (67 ∷ 80 ∷ 76 ∷ number ∷ 0 ∷ []) file.now }
{
    match file {
        [67, 80, 76, version, 0, ..] => u64::from(*version) == number,
        _ => false,
    }
}

// The mark of a version that there is.
fn read_mark(file: &[u8]) -> Option<Version>
    ensures { MarkIs file.now result }
{
    if has_mark(file, 1) {
        return Some(versions::version1());
    }
    if has_mark(file, 2) {
        return Some(versions::version2());
    }
    None
}

/// The version of the file's mark: the lent arrays go by it. Version 1 where there is no mark.
pub fn version_at(file: &[u8]) -> Version
    ensures { ((v : cpl.Version) → read_mark file.now 0 0 0 ≡ ok v 5 0 0 → version_of result ≡ v) × Known result }
{
    match read_mark(file) {
        Some(version) => version,
        None => versions::version1(),
    }
}

// The plan, and the end of the file after it.
fn read_body(
    file: &[u8],
    start: usize,
    version: Version,
    tables: u64,
    cells: &mut [u64],
    rows: &mut [u16],
    nodes: &mut [u64],
    names: &[u16],
) -> Result<Read, Refusal>
    requires in_bounds { (12288 ≤ length cells.old) × (rows_room (version_of version) ≤ length rows.old) × (1792 ≤ length nodes.old) × (513 * tables ≤ length names.now) × (tables ≤ 16) × ((C : Catalogue) × (C.version ≡ version_of version) × Widths names.now tables C) }
    requires known { Known version }
    ensures { (C : Catalogue) → C.version ≡ version_of version → Widths names.now tables C → RightBody C file.now start version tables cells.old cells.new rows.old rows.new nodes.old nodes.new result }
{
    let from = Spot {
        at: start,
        tags: 0,
        made: 0,
        row: 0,
    };
    let plan = read_plan(file, from, 0, version, tables, names, cells, rows, nodes)?;
    let end = plan.spot;
    if end.at != file.len() {
        return Err(Refusal::new(Reason::Tail, end.at));
    }
    Ok(Read {
        version,
        tables: tables as usize,
        start,
        nodes: plan.nodes,
        tags: end.tags,
        made: end.made,
    })
}

// What follows the mark of a version.
fn read_marked(
    file: &[u8],
    version: Version,
    cells: &mut [u64],
    rows: &mut [u16],
    nodes: &mut [u64],
    names: &mut [u16],
    keys: &mut [u64],
) -> Result<Read, Refusal>
    requires in_bounds { (12288 ≤ length cells.old) × (rows_room (version_of version) ≤ length rows.old) × (1792 ≤ length nodes.old) × (8208 ≤ length names.old) × SlotIn keys.old 15 }
    requires known { Known version }
    ensures { ((tags n : ℕ) → read_mark file.now 0 tags n ≡ ok (version_of version) 5 tags n) → RightFile file.now cells.old cells.new rows.old rows.new nodes.old nodes.new names.new keys.new result }
{
    let count = reader_fields::read_count(file, 5, 1, 0, 16)?;
    let n = count.value;
    let next = catalogue::read_tables(file, count.next, n, 0, version, names)?;
    let start = catalogue::read_all_keys(file, next, n, version, names, keys)?;
    read_body(file, start, version, n, cells, rows, nodes, names)
}

// A plan file. The lent arrays are long enough for every plan file of its version: cells three numbers for each of 4,096 nodes of expressions, rows four
// for each row of 256 nodes, of 4,096 tags and of 32 that a window may ask for, nodes seven for each of 256 nodes, names 513 for each of 16 tables. The
// tables' keys are put into the first 16 slots of `keys`.
pub fn read_file(
    file: &[u8],
    cells: &mut [u64],
    rows: &mut [u16],
    nodes: &mut [u64],
    names: &mut [u16],
    keys: &mut [u64],
) -> Result<Read, Refusal>
    requires in_bounds { (12288 ≤ length cells.old) × (1792 ≤ length nodes.old) × (8208 ≤ length names.old) × SlotIn keys.old 15 }
    requires v_in_bounds { (v : cpl.Version) → read_mark file.now 0 0 0 ≡ ok v 5 0 0 → rows_room v ≤ length rows.old }
    ensures { RightFile file.now cells.old cells.new rows.old rows.new nodes.old nodes.new names.new keys.new result }
{
    let Some(version) = read_mark(file) else {
        return Err(Refusal::new(Reason::Mark, 0));
    };
    read_marked(file, version, cells, rows, nodes, names, keys)
}
