//! predicate_writer: the answers of the entries over predicates. Keys, or what is left of a predicate, counted and written.
//! The arrays are lent whole (document 01: no heap), so the number of pairs in use stands beside them.
#![tactic(auto)]

ghost use Rattle.std.specs.Prelude.{◌≡◌, ◌≤◌, length};
ghost use Rattle.cpl.specs.Exprs.{on_tags};
ghost use Rattle.cpl.specs.Tests.{sum_of};
ghost use Rattle.rules.specs.Answer.{written};
ghost use Rattle.answers.specs.Answers.{Delivers};
ghost use Rattle.join_keys.specs.Entries.{keys_bytes, left_bytes};
ghost use Rattle.join_key_set.specs.Pairs.{KeysOk, keys_at};
ghost use Rattle.writer_parts.specs.Wrote.{Countable};
ghost use Rattle.predicate_writer.specs.Left.{left_of, LeftOk};

use refusals::{Reason, Refusal};
use writer_parts::Part;

/// The first n pairs: counted, and written where they fit.
pub fn write_keys(
    cells: &[u64],
    pairs: &[u64],
    n: usize,
    rows: &mut [u16],
    out: &mut [u8],
) -> Result<usize, Refusal>
    requires n_bound { (n ≤ 64) × (256 ≤ length rows.old) × (length cells.now ≤ 196608) }
    requires keys_ok { KeysOk cells.now pairs.now 0 n }
    requires countable { Countable (length (keys_bytes (keys_at cells.now pairs.now 0 n))) (sum_of on_tags (keys_at cells.now pairs.now 0 n)) }
    ensures { Delivers (written (keys_bytes (keys_at cells.now pairs.now 0 n)) out.old) result out.new }
{
    key_rows::rows_of(pairs, n, rows);
    let size = writer_parts::counted_size(1, Part::On, rows, cells, 0, n, None);
    if size.bytes > out.len() {
        return Err(Refusal::new(Reason::Room, size.bytes));
    }
    Ok(writer_parts::write_counted(1, Part::On, rows, cells, 0, n, None, out))
}

/// What is left, a node or nothing: counted, and written where it fits.
pub fn write_left(cells: &[u64], left: Option<usize>, out: &mut [u8]) -> Result<usize, Refusal>
    requires { LeftOk cells.now left }
    ensures { Delivers (written (left_bytes (left_of cells.now left)) out.old) result out.new }
{
    let Some(node) = left else {
        if out.is_empty() {
            return Err(Refusal::new(Reason::Room, 1));
        }
        return Ok(writer_parts::put_at(out, 0, 1, 0));
    };
    let size = writer_parts::expr_size(cells, node);
    let needed = size.bytes + 1;
    if needed > out.len() {
        return Err(Refusal::new(Reason::Room, needed));
    }
    let a = writer_parts::put_at(out, 0, 1, 1);
    let m = writer_parts::write_expr(cells, node, &mut out[a..]);
    Ok(a + m)
}
