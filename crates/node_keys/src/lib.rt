//! node_keys: which fields of each node of a plan are a key of its rows, and which groups an Aggregate keeps by its input's key.
//!
//! A key is a set of places, empty for none. The keys of all nodes are worked out once, from the last node to the first, and stand in the
//! slots of `key_sets`. A node's own key is of the old plan.
#![tactic(auto)]

ghost use Rattle.std.specs.Prelude.{◌≡◌, false, List, [], map, ℕ, ◌+◌, ◌*◌, ◌<◌, ◌≤◌, length};
ghost use Rattle.std.proofs.Math.Option.{some};
ghost use Rattle.arena.specs.Cells.{expr_at, Wf};
ghost use Rattle.arena.specs.Lists.{listed, ListOk};
ghost use Rattle.required_indices.specs.Request.{Holds, set_of, words_n};
ghost use Rattle.tree.specs.Rows.{columns_at};
ghost use Rattle.lookup.specs.Answers.{place_of};
ghost use Rattle.lookup.specs.Fields.{fields_of, SchemaIn};
ghost use Rattle.key_sets.specs.Slots.{SlotIn, node_slot, slot_at};
ghost use Rattle.rules.specs.Keys.{field_place, places_of};
ghost use Rattle.node_keys.specs.Found.{Carries, ColumnsIn, Finds, FoundIs, Further, PlaceIn};
ghost use Rattle.node_keys.specs.Keys.{KeptGroups, KeysFound, NodeAsked, NodeKeyIs, PlanAsked, ProjectionKey, ScanIn, ScanKey};

use arena::{Items, View};
use lookup::Schema;
use required_indices::RequiredIndices;
use tree::{Node, ScanNode};

/// The items of a list that are columns of a key: `seen` has these columns, `firsts` the first item of each, `all` every such item.
#[derive(Clone, Copy)]
struct Found {
    seen: RequiredIndices,
    firsts: RequiredIndices,
    all: RequiredIndices,
}

/// Of no item.
fn none_found() -> Found
    ensures { (key : List ℕ) → FoundIs key [] result }
{
    let none = RequiredIndices::new();
    Found {
        seen: none,
        firsts: none,
        all: none,
    }
}

/// Of one item more, item `i`, which is the column at a place, or computed.
fn with_place(found: Found, key: RequiredIndices, i: usize, place: Option<usize>) -> Found
    requires i_bound { i < words_n * 64 }
    requires place_in { PlaceIn place }
    ensures { Further key i place found result }
{
    let Some(j) = place else {
        return found;
    };
    if !key.contains(j) {
        return found;
    }
    let all = found.all.with_index(i);
    if found.seen.contains(j) {
        return Found { all, ..found };
    }
    Found {
        seen: found.seen.with_index(j),
        firsts: found.firsts.with_index(i),
        all,
    }
}

/// The place of the field that an expression is, among the fields of an input; none where it is computed.
fn item_place(cells: &[u64], root: usize, input: &Schema) -> Option<usize>
    requires wf { Wf cells.now (root + 1) }
    requires row_in { SchemaIn input.now }
    ensures { place_of result ≡ field_place (fields_of input.now) (expr_at cells.now root) }
{
    match arena::node_at(cells, root) {
        View::Col(q, n) => input.first_fit(q, n),
        View::Lit(_) | View::Miss | View::One(..) | View::Two(..) => None,
    }
}

/// Of the items of a list, over an input's fields.
fn found_items(key: RequiredIndices, list: &Items, input: &Schema) -> Found
    requires rows_ok { ListOk list.now × (list.now.count ≤ words_n * 64) }
    requires row_in { SchemaIn input.now × (input.now.width ≤ words_n * 64) }
    ensures { Finds key (places_of (fields_of input.now) (listed list.now)) result }
{
    let mut found = none_found();
    for i in 0..list.count {
        let row = arena::row_at(list.rows, list.first + i);
        let place = item_place(list.cells, row.root, input);
        found = with_place(found, key, i, place);
    }
    found
}

/// Of the columns of a scan's list.
fn found_columns(key: RequiredIndices, rows: &[u16], first: usize, count: usize) -> Found
    requires { ColumnsIn rows.now first count }
    ensures { Finds key (map some (columns_at rows.now first count)) result }
{
    let mut found = none_found();
    for i in 0..count {
        let j = tree::column_at(rows, first + i);
        found = with_place(found, key, i, Some(j));
    }
    found
}

/// A key carried on to a list of items: of each column the first item that is it; no key where one lacks.
fn carried(key: RequiredIndices, found: Found) -> RequiredIndices
    ensures { Carries key found result }
{
    if found.seen.equals(key) {
        found.firsts
    } else {
        RequiredIndices::new()
    }
}

/// The key of a scan: its table's, carried on to its columns, if they are given.
fn scan_key(scan: ScanNode, rows: &[u16], keys: &[u64]) -> RequiredIndices
    requires { ScanIn rows.now keys.now scan }
    ensures { ScanKey rows.now keys.now scan result }
{
    let key = key_sets::key_at(keys, scan.table);
    if !scan.given || key.is_empty() {
        return key;
    }
    let found = found_columns(key, rows, scan.first, scan.n);
    carried(key, found)
}

/// The key of a Projection: its input's, carried on to its items.
fn projection_key(key: RequiredIndices, list: &Items, input: &Schema) -> RequiredIndices
    requires rows_ok { ListOk list.now × (list.now.count ≤ words_n * 64) }
    requires row_in { SchemaIn input.now × (input.now.width ≤ words_n * 64) }
    ensures { ProjectionKey key (places_of (fields_of input.now) (listed list.now)) result }
{
    if key.is_empty() {
        return key;
    }
    let found = found_items(key, list, input);
    carried(key, found)
}

/// The key of node `k`'s input, which is the next node.
fn input_key(keys: &[u64], k: usize) -> RequiredIndices
    requires { (k < 256) × SlotIn keys.now (node_slot (k + 1)) }
    ensures { Holds result (slot_at keys.now (node_slot (k + 1))) false }
{
    let slot = key_sets::node_slot(k + 1);
    key_sets::key_at(keys, slot)
}

/// The key of node `k` of an accepted plan, where that of its input stands in its slot: a scan's is its table's, a Projection's its input's by its
/// items; others have their input's, or none.
fn node_key(
    cells: &[u64],
    rows: &[u16],
    nodes: &[u64],
    k: usize,
    fields: &[u16],
    widths: &[u64],
    keys: &[u64],
) -> RequiredIndices
    requires { NodeAsked cells.now rows.now nodes.now fields.now widths.now keys.now k }
    ensures { NodeKeyIs cells.now rows.now nodes.now fields.now widths.now keys.now k result }
{
    match tree::node_at(nodes, k) {
        Node::Scan(scan) => scan_key(scan, rows, keys),
        Node::Projection { first, n } => {
            let key = input_key(keys, k);
            let list = Items {
                rows,
                cells,
                first,
                count: n,
            };
            let input = Schema {
                fields,
                first: lookup::first_at(widths, k + 1),
                width: lookup::width_at(widths, k + 1),
            };
            projection_key(key, &list, &input)
        }
        Node::Filter { .. } | Node::Sort { .. } | Node::Limit { .. } | Node::SubqueryAlias { .. } =>
            input_key(keys, k),
        Node::Aggregate { .. }
        | Node::Window { .. }
        | Node::Union { .. }
        | Node::Distinct
        | Node::Join(_)
        | Node::Empty { .. } => RequiredIndices::new(),
    }
}

/// The keys of all `count` nodes of an accepted plan, put into their slots. Those of the tables stand in theirs.
pub fn node_keys(
    cells: &[u64],
    rows: &[u16],
    nodes: &[u64],
    count: usize,
    fields: &[u16],
    widths: &[u64],
    keys: &mut [u64],
)
    requires { PlanAsked cells.now rows.now nodes.now fields.now widths.now keys.old count }
    ensures { KeysFound cells.now rows.now nodes.now fields.now widths.now count keys.old keys.new }
{
    for k in (0..count).rev() {
        let key = node_key(cells, rows, nodes, k, fields, widths, keys);
        let slot = key_sets::node_slot(k);
        key_sets::put_key(keys, slot, key);
    }
}

/// The groups of an Aggregate that stay, by its input's key: those that are asked for and those that are a key column,
/// where each of the key's columns is a group; else all.
pub fn kept_groups(
    key: RequiredIndices,
    asked: RequiredIndices,
    groups: &Items,
    input: &Schema,
) -> RequiredIndices
    requires rows_ok { ListOk groups.now × (groups.now.count ≤ words_n * 64) }
    requires row_in { SchemaIn input.now × (input.now.width ≤ words_n * 64) }
    ensures { KeptGroups key asked (places_of (fields_of input.now) (listed groups.now)) result }
{
    if key.is_empty() {
        return RequiredIndices::new_for_all_exprs(groups.count);
    }
    let found = found_items(key, groups, input);
    let grouped = found.seen;
    if grouped.equals(key) {
        return asked.append(found.all);
    }
    RequiredIndices::new_for_all_exprs(groups.count)
}
