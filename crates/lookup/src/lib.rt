//! The fields of nodes in lent arrays: how many there are, lookup, references resolved, clashes, and rows that are filled.
//!
//! Field j is two numbers of `fields`, its qualifier and its name, at 2 * j. A row of fields is named by the number of its first. Node k's row
//! stands in `widths`: at k how many fields it has, at 256 + k the number of the first.
#![tactic(auto)]

ghost use Rattle.std.specs.Prelude.{Bool, false, ◌++◌, map, ◌≡◌, ℕ, ◌+◌, ◌*◌, ◌<◌, ◌≤◌, length};
ghost use Rattle.arena.specs.Cells.{expr_at, Wf};
ghost use Rattle.cpl.specs.Accept.{clash, conflict};
ghost use Rattle.cpl.specs.Exprs.{find, fitting};
ghost use Rattle.cpl.specs.Fields.{requalify};
ghost use Rattle.cpl.specs.Plan.{col, pair};
ghost use Rattle.cpl.specs.Tests.{any_b};
ghost use Rattle.lookup.specs.Answers.{lookup_of, place_of, resolving, worse};
ghost use Rattle.lookup.specs.Marks.{Marked, Marks, slot_of, slots};
ghost use Rattle.lookup.specs.Fields.{fields_of, SchemaClear, SchemaIn, field_at, Filled, first_at, Kept, left_row, pair_of, right_row, row_at, RowClear, RowIn, SidesClear, SidesIn, width_at};
ghost use Rattle.tree.specs.Rows.{list_at, one};

use arena::View;
use tree::Field;

/// Two sides: `lwidth` fields from field `left` on, `rwidth` from field `right` on. What has one input or none has width 0 there. And are the
/// fields of each side by themselves known not to clash? Rows are named by numbers, as `widths` holds them: the lent array of fields is written
/// between two uses (document 01: no heap, fixed memory), so no slice of it is held.
#[derive(Clone, Copy)]
pub struct Sides {
    pub left: usize,
    pub lwidth: usize,
    pub right: usize,
    pub rwidth: usize,
    pub clear: bool,
}

/// What a reference finds among fields: the place of the one that fits, or none fits, or more than one does. An enum, as document 01 names it.
#[derive(Clone, Copy)]
pub enum Lookup {
    Found(usize),
    Absent,
    Ambiguous,
}

/// Why the references of expressions do not each find one field: some finds none, or else some finds more than one.
#[derive(Clone, Copy, PartialEq, Eq)]
pub enum Unresolved {
    Unknown,
    Ambiguous,
}

/// Field `j`, which lies in the array.
pub fn field_at(fields: &[u16], j: usize) -> Field
    requires { j * 2 + 1 < length fields.now }
    ensures { pair_of result ≡ field_at fields.now j }
{
    let at = j * 2;
    Field {
        qualifier: fields[at],
        name: fields[at + 1],
    }
}

/// Field `j`, which lies in the array, is set.
pub fn put_field(fields: &mut [u16], j: usize, f: Field)
    requires { j * 2 + 1 < length fields.old }
    ensures j_after { field_at fields.new j ≡ pair_of f }
    ensures kept { Kept field_at j (j + 1) fields.old fields.new }
{
    let at = j * 2;
    fields[at] = f.qualifier;
    fields[at + 1] = f.name;
}

/// How many fields node `k` has; 0 past the last node.
pub fn width_at(widths: &[u64], k: usize) -> usize
    ensures { result ≡ width_at widths.now k }
{
    widths.get(k).map_or(0, |&width| width as usize)
}

/// The number of node `k`'s first field; 0 past the last node.
pub fn first_at(widths: &[u64], k: usize) -> usize
    ensures { result ≡ first_at widths.now k }
{
    if k < widths.len() {
        return width_at(widths, 256 + k);
    }
    0
}

/// A row of fields: `width` of them from field `first` on. The fields of a node are one.
#[derive(Clone, Copy)]
pub struct Schema<'a> {
    pub fields: &'a [u16],
    pub first: usize,
    pub width: usize,
}

impl Schema<'_> {
    /// The place of the first field that fits a reference. Without a qualifier a reference fits each field of its name; with one it fits that pair
    /// alone. The fields lie in the array.
    pub fn first_fit(&self, qualifier: u16, name: u16) -> Option<usize>
        requires { SchemaIn self.now }
        ensures { place_of result ≡ find (pair qualifier name) (fields_of self.now) }
    {
        for i in 0..self.width {
            let f = field_at(self.fields, self.first + i);
            if (name == f.name) & ((qualifier == 0) | (qualifier == f.qualifier)) {
                return Some(i);
            }
        }
        None
    }
}

/// What a reference finds among the fields of a row, which lie in the array. Where `clear` is said they do not clash, so where the reference's
/// own pair is found, no second field fits.
pub fn look_up(schema: &Schema, clear: bool, qualifier: u16, name: u16) -> Lookup
    requires { SchemaClear schema.now clear }
    ensures { result ≡ lookup_of (find (pair qualifier name) (fields_of schema.now)) (fitting (pair qualifier name) (fields_of schema.now)) }
{
    let Some(i) = schema.first_fit(qualifier, name) else {
        return Lookup::Absent;
    };
    let f = field_at(schema.fields, schema.first + i);
    if clear & (f.qualifier == qualifier) {
        return Lookup::Found(i);
    }
    let next = i + 1;
    let behind = Schema {
        first: schema.first + next,
        width: schema.width - next,
        ..*schema
    };
    if behind.first_fit(qualifier, name).is_some() {
        return Lookup::Ambiguous;
    }
    Lookup::Found(i)
}

/// What a reference finds in two sides together, which lie in the array.
fn resolve_column(fields: &[u16], sides: Sides, qualifier: u16, name: u16) -> Result<(), Unresolved>
    requires { SidesClear fields.now sides }
    ensures { result ≡ resolving (λ test. test (left_row fields.now sides ++ right_row fields.now sides) (col (pair qualifier name))) }
{
    let left = Schema {
        fields,
        first: sides.left,
        width: sides.lwidth,
    };
    let right = Schema {
        fields,
        first: sides.right,
        width: sides.rwidth,
    };
    let left = look_up(&left, sides.clear, qualifier, name);
    let right = look_up(&right, sides.clear, qualifier, name);
    match (left, right) {
        (Lookup::Found(_), Lookup::Absent) | (Lookup::Absent, Lookup::Found(_)) => Ok(()),
        (Lookup::Absent, Lookup::Absent) => Err(Unresolved::Unknown),
        _ => Err(Unresolved::Ambiguous),
    }
}

/// What two lists of expressions find together: unknown comes before ambiguous.
pub fn both_resolved(a: Result<(), Unresolved>, b: Result<(), Unresolved>) -> Result<(), Unresolved>
    ensures { result ≡ worse «a» «b» }
{
    match a {
        Ok(()) => b,
        Err(Unresolved::Unknown) => a,
        Err(Unresolved::Ambiguous) => {
            match b {
                Ok(()) => a,
                Err(_) => b,
            }
        }
    }
}

/// What the references of node `i`'s expression find in two sides together, which lie in the array. The nodes up to `i` are well formed.
pub fn resolve_both(cells: &[u64], i: usize, fields: &[u16], sides: Sides) -> Result<(), Unresolved>
    requires wf { Wf cells.now (i + 1) }
    requires sides_clear { SidesClear fields.now sides }
    ensures { result ≡ resolving (λ test. test (left_row fields.now sides ++ right_row fields.now sides) (expr_at cells.now i)) }
{
    let v = arena::node_at(cells, i);
    match v {
        View::Col(q, n) => resolve_column(fields, sides, q, n),
        View::Lit(_) | View::Miss => Ok(()),
        View::One(_, x) => resolve_both(cells, x, fields, sides),
        View::Two(_, x, y) => {
            let first = resolve_both(cells, x, fields, sides);
            let second = resolve_both(cells, y, fields, sides);
            both_resolved(first, second)
        }
    }
}

/// What the references of node `i`'s expression find among the fields of a row, which lie in the array, and do not clash where `clear` is said.
/// The nodes up to `i` are well formed.
pub fn resolve_expr(cells: &[u64], i: usize, schema: &Schema, clear: bool) -> Result<(), Unresolved>
    requires wf { Wf cells.now (i + 1) }
    requires row_clear { SchemaClear schema.now clear }
    ensures { result ≡ resolving (λ test. test (fields_of schema.now) (expr_at cells.now i)) }
{
    let one = Sides {
        left: schema.first,
        lwidth: schema.width,
        right: schema.first,
        rwidth: 0,
        clear,
    };
    resolve_both(cells, i, schema.fields, one)
}

/// May two fields not stand in one list? Two equal pairs, or one name both with and without qualifier.
fn in_conflict(f: Field, g: Field) -> bool
    ensures { result ≡ conflict (pair_of f) (pair_of g) }
{
    (f == g) | ((f.name == g.name) & ((f.qualifier == 0) | (g.qualifier == 0)))
}

/// Is a field in conflict with one of `width` fields from field `first` on, which lie in the array?
fn conflicts(fields: &[u16], first: usize, width: usize, f: Field) -> bool
    requires { RowIn fields.now first width }
    ensures { result ≡ any_b (conflict (pair_of f)) (row_at fields.now first width) }
{
    let mut hit = false;
    for i in 0..width {
        let g = field_at(fields, first + i);
        hit = hit | in_conflict(f, g);
    }
    hit
}

/// The slot of a field's name in a table of marks.
fn slot(f: Field) -> usize
    ensures { result ≡ slot_of f.name }
{
    (f.name % 256) as usize
}

/// The slot of a field's name is marked.
fn mark(seen: &mut [bool; 256], f: Field)
    requires { length seen.old ≡ slots }
    ensures { Marks f.name seen.old seen.new }
{
    let s = slot(f);
    seen[s] = true;
}

/// The slots of the names of `width` fields from field `first` on, which lie in the array, are marked.
fn mark_row(seen: &mut [bool; 256], fields: &[u16], first: usize, width: usize)
    requires { (length seen.old ≡ slots) × RowIn fields.now first width }
    ensures { Marked seen.new fields.now first width }
{
    for i in 0..width {
        let f = field_at(fields, first + i);
        mark(seen, f);
    }
}

/// `conflicts`, where the names of the fields are marked: a field whose name's slot is not marked is in conflict with none.
fn conflicts_marked(
    seen: &[bool; 256],
    fields: &[u16],
    first: usize,
    width: usize,
    f: Field,
) -> bool
    requires { RowIn fields.now first width × Marked seen.now fields.now first width }
    ensures { result ≡ any_b (conflict (pair_of f)) (row_at fields.now first width) }
{
    let s = slot(f);
    if !seen[s] {
        return false;
    }
    conflicts(fields, first, width, f)
}

/// Do `width` fields from field `first` on, which lie in the array, clash? The first `start` of them do not.
pub fn clash_from(fields: &[u16], first: usize, start: usize, width: usize) -> bool
    requires row_in { RowIn fields.now first width }
    requires start_le_width { (start ≤ width) × (clash (row_at fields.now first start) ≡ false) }
    ensures { result ≡ clash (row_at fields.now first width) }
{
    if start == width {
        return false;
    }
    let mut seen = [false; 256];
    mark_row(&mut seen, fields, first, start);
    for i in start..width {
        let f = field_at(fields, first + i);
        if conflicts_marked(&seen, fields, first, i, f) {
            return true;
        }
        mark(&mut seen, f);
    }
    false
}

/// Do the fields of two sides together clash? They lie in the array, and the fields of each side by themselves do not clash.
pub fn sides_clash(fields: &[u16], sides: Sides) -> bool
    requires sides_in { SidesIn fields.now sides }
    requires sides_value { (clash (left_row fields.now sides) ≡ false) × (clash (right_row fields.now sides) ≡ false) }
    ensures { result ≡ clash (left_row fields.now sides ++ right_row fields.now sides) }
{
    let left = sides.left;
    let lwidth = sides.lwidth;
    let right = sides.right;
    let width = sides.rwidth;
    let mut seen = [false; 256];
    mark_row(&mut seen, fields, left, lwidth);
    for i in 0..width {
        let f = field_at(fields, right + i);
        if conflicts_marked(&seen, fields, left, lwidth, f) {
            return true;
        }
    }
    false
}

/// `width` fields from field `from` on are put from field `to` on, behind them. All lie in the array.
pub fn copy_fields(fields: &mut [u16], to: usize, from: usize, width: usize)
    requires { (from + width ≤ to) × RowIn fields.old to width }
    ensures { Filled to width (row_at fields.old from width) fields.old fields.new }
{
    fields.copy_within(from * 2..(from + width) * 2, to * 2);
}

/// `width` fields from field `from` on are put from field `to` on, behind them, under a qualifier. All lie in the array. Field by field: the library
/// copies whole numbers, and each second one is the qualifier.
pub fn alias_fields(fields: &mut [u16], to: usize, from: usize, width: usize, qualifier: u16)
    requires { (from + width ≤ to) × RowIn fields.old to width }
    ensures { Filled to width (map (requalify qualifier) (row_at fields.old from width)) fields.old fields.new }
{
    for i in 0..width {
        let f = field_at(fields, from + i);
        put_field(fields, to + i, Field { qualifier, ..f });
    }
}
