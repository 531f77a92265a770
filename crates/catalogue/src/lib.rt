//! The catalogue of a plan file: the names of the tables' columns and the keys of the tables, read and checked. The names stand in a lent array, 513
//! numbers for each table; the keys are put into the slots of their tables.
#![tactic(auto)]

ghost use Rattle.std.specs.Prelude.{◌≡◌, List, [], ℕ, ◌+◌, ◌*◌, ◌≤◌, ◌<◌, length, get_or};
ghost use Rattle.cpl.specs.Plan.{Catalogue, TableKey, keyed_tables};
ghost use Rattle.cpl.specs.Read.{nonzero, any, value, fresh, times, times_after, counted_after};
ghost use Rattle.cpl.specs.ReadPlan.{read_table_key};
ghost use Rattle.versions.specs.Versions.{version_of};
ghost use Rattle.reader_fields.specs.Answers.{Fields};
ghost use Rattle.reader_heads.specs.Heads.{Widths};
ghost use Rattle.catalogue.specs.Tables.{names_at, table_at, tables_at, read_table, NextIs};
ghost use Rattle.key_sets.specs.Slots.{SlotIn, slot_at};
ghost use Rattle.catalogue.specs.Keys.{Stands, Found, FreshIn, KeyIs, KeyPut, KeysPut, TablesPut};

use reader_fields::Field;
use refusals::{Reason, Refusal};
use required_indices::RequiredIndices;
use versions::Version;

// n names, from `slot` on: the offset after them.
fn read_names(
    file: &[u8],
    at: usize,
    n: u64,
    slot: usize,
    names: &mut [u16],
) -> Result<usize, Refusal>
    requires { slot + n ≤ length names.old }
    ensures { NextIs (times n (nonzero 2)) file.now at (names_at names.new slot n) slot names.old names.new result }
{
    let mut next = at;
    for i in 0..n as usize {
        let name = reader_fields::read_name(file, next)?;
        names[slot + i] = name.value as u16;
        next = name.next;
    }
    Ok(next)
}

// The names of table t: the offset after them.
fn read_table(
    file: &[u8],
    at: usize,
    t: usize,
    version: Version,
    names: &mut [u16],
) -> Result<usize, Refusal>
    requires { (513 * t + 513 ≤ length names.old) × (version.wide ≤ 2) × (version.columns ≤ 512) }
    ensures { NextIs (read_table (version_of version)) file.now at (table_at names.new t) (513 * t) names.old names.new result }
{
    let count = reader_fields::read_count(file, at, version.wide, 0, version.columns)?;
    let base = 513 * t;
    names[base] = count.value as u16;
    read_names(file, count.next, count.value, base + 1, names)
}

/// n tables, from table t on: the offset after them.
pub fn read_tables(
    file: &[u8],
    at: usize,
    n: u64,
    t: usize,
    version: Version,
    names: &mut [u16],
) -> Result<usize, Refusal>
    requires { (513 * (t + n) ≤ length names.old) × (version.wide ≤ 2) × (version.columns ≤ 512) }
    ensures { NextIs (times n (read_table (version_of version))) file.now at (tables_at names.new t n) (513 * t) names.old names.new result }
{
    let mut next = at;
    for i in 0..n as usize {
        next = read_table(file, next, t + i, version, names)?;
    }
    Ok(next)
}

// A field of k bytes that is below n and is not taken.
fn read_fresh(
    file: &[u8],
    at: usize,
    k: usize,
    n: u64,
    taken: RequiredIndices,
) -> Result<Field, Refusal>
    requires { k ≤ 8 }
    ensures by_index { (xs : List ℕ) → Stands taken xs → Fields n (value k (fresh n xs) file.now at) result }
    ensures fresh_in { FreshIn taken result }
{
    let found = reader_fields::read_number(file, at, k)?;
    if n <= found.value {
        return Err(Refusal::new(Reason::Value, at));
    }
    if taken.contains(found.value as usize) {
        return Err(Refusal::new(Reason::Value, at));
    }
    Ok(found)
}

// n columns of a key, of k bytes each, below `columns`, none of them read before. They are put into the table's slot. Answers the offset after them.
fn read_columns(
    file: &[u8],
    at: usize,
    n: u64,
    k: usize,
    columns: u64,
    table: usize,
    keys: &mut [u64],
) -> Result<usize, Refusal>
    requires { (k ≤ 8) × (columns ≤ 512) × SlotIn keys.old table }
    ensures { Found (times_after n (λ ys. value k (fresh columns ys)) [] file.now at) (KeyPut keys.old keys.new table []) result }
{
    let mut taken = RequiredIndices::new();
    let mut next = at;
    for _ in 0..n {
        let column = read_fresh(file, next, k, columns, taken)?;
        taken.insert(column.value as usize);
        next = column.next;
    }
    key_sets::put_key(keys, table, taken);
    Ok(next)
}

// A key of one of the tables that are not taken, put into the table's slot: the table and the offset after the key.
fn read_key(
    file: &[u8],
    at: usize,
    tables: u64,
    version: Version,
    names: &[u16],
    taken: RequiredIndices,
    keys: &mut [u64],
) -> Result<Field, Refusal>
    requires tables_bound { (tables ≤ 16) × (513 * tables ≤ length names.now) × (version.wide ≤ 2) × SlotIn keys.old 15 }
    requires by_index { (t : ℕ) → t < tables → get_or names.now (513 * t) 0 ≤ 512 }
    requires widths { (C : Catalogue) × (before : List TableKey) × Widths names.now tables C × Stands taken (keyed_tables before) }
    ensures { (C : Catalogue) (before : List TableKey) → Widths names.now tables C → Stands taken (keyed_tables before) → KeyIs tables (read_table_key (version_of version) C.tables before file.now at) keys.old keys.new before result }
{
    let table = read_fresh(file, at, 1, tables, taken)?;
    let slot = table.value as usize;
    let base = 513 * slot;
    let columns = u64::from(names[base]);
    let k = version.wide;
    let count = reader_fields::read_count(file, table.next, k, 1, version.columns)?;
    let next = read_columns(file, count.next, count.value, k, columns, slot, keys)?;
    Ok(Field { next, ..table })
}

// n keys, of which no two are of the same table, put into the tables' slots: the offset after them.
fn read_keys(
    file: &[u8],
    at: usize,
    n: u64,
    tables: u64,
    version: Version,
    names: &[u16],
    keys: &mut [u64],
) -> Result<usize, Refusal>
    requires tables_bound { (tables ≤ 16) × (513 * tables ≤ length names.now) × (version.wide ≤ 2) × SlotIn keys.old 15 }
    requires by_index { (t : ℕ) → t < tables → get_or names.now (513 * t) 0 ≤ 512 }
    requires widths { (C : Catalogue) × Widths names.now tables C }
    ensures { (C : Catalogue) → Widths names.now tables C → Found (times_after n (read_table_key (version_of version) C.tables) [] file.now at) (KeysPut keys.old keys.new []) result }
{
    let mut taken = RequiredIndices::new();
    let mut next = at;
    for _ in 0..n {
        let key = read_key(file, next, tables, version, names, taken, keys)?;
        taken.insert(key.value as usize);
        next = key.next;
    }
    Ok(next)
}

// No table has a key: the slots of all tables are empty.
fn clear_keys(keys: &mut [u64])
    requires { SlotIn keys.old 15 }
    ensures { (t : ℕ) → t < 16 → slot_at keys.new t ≡ 0 }
{
    let none = RequiredIndices::new();
    for t in 0..16 {
        key_sets::put_key(keys, t, none);
    }
}

/// The keys of the tables: a count, and as many keys. Each is put into its table's slot; the slots of the other tables are empty.
/// Answers the offset after them.
pub fn read_all_keys(
    file: &[u8],
    at: usize,
    tables: u64,
    version: Version,
    names: &[u16],
    keys: &mut [u64],
) -> Result<usize, Refusal>
    requires tables_bound { (tables ≤ 16) × (513 * tables ≤ length names.now) × (version.wide ≤ 2) × (version.late ≤ 2) × SlotIn keys.old 15 }
    requires by_index { (t : ℕ) → t < tables → get_or names.now (513 * t) 0 ≤ 512 }
    requires widths { (C : Catalogue) × Widths names.now tables C }
    ensures { (C : Catalogue) → Widths names.now tables C → Found (counted_after version.late any version.keys (read_table_key (version_of version) C.tables) file.now at) (TablesPut keys.new) result }
{
    let count = reader_fields::read_count(file, at, version.late, 0, version.keys)?;
    clear_keys(keys);
    read_keys(file, count.next, count.value, tables, version, names, keys)
}
