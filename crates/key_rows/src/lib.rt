//! key_rows: a list of pairs of nodes in its two layouts, each from the other. Rows, as those of a join's list, are what is read and written; pairs
//! are what a `JoinKeySet` holds.
//!
//! The arrays are lent whole (document 01: no heap), so the number of pairs in use stands beside them.
#![tactic(auto)]

ghost use Rattle.std.specs.Prelude.{◌*◌, ◌≤◌, length};
ghost use Rattle.join_key_set.specs.Pairs.{KeysIn};
ghost use Rattle.key_rows.specs.Rows.{SameKeys};

/// The pairs of the first n rows.
pub fn pairs_of(rows: &[u16], n: usize, pairs: &mut [u64])
    requires { (n * 4 ≤ length rows.now) × (n * 2 ≤ length pairs.old) }
    ensures { SameKeys n rows.now pairs.new }
{
    for i in 0..n {
        let row = tree::on_at(rows, i);
        join_key_set::put_key(pairs, i, row.left, row.right);
    }
}

/// The rows of the first n pairs, whose nodes have 16-bit numbers. The two numbers of a row that no pair has are left.
pub fn rows_of(pairs: &[u64], n: usize, rows: &mut [u16])
    requires { (n * 4 ≤ length rows.old) × KeysIn 65536 pairs.now 0 n }
    ensures { SameKeys n rows.new pairs.now }
{
    for i in 0..n {
        let key = join_key_set::key_at(pairs, i);
        let at = i * 4;
        rows[at + 2] = key.left as u16;
        rows[at + 3] = key.right as u16;
    }
}
