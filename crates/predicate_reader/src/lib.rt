//! predicate_reader: the arguments of the entries over predicates, each read to its last byte: the nodes into the cells, the keys into the pairs.
//! All three arrays are lent (document 01: no heap).
#![tactic(auto)]

ghost use Rattle.std.specs.Prelude.{◌≡◌, ◌+◌, ◌*◌, ◌≤◌, length};
ghost use Rattle.arena.specs.Cells.{Wf};
ghost use Rattle.predicate_reader.specs.Arguments.{all_of, KeysAre, PredicateIs};

use reader_fields::Spot;
use reader_parts::Kind;
use refusals::{Reason, Refusal};

// What was read, where it is all of the argument.
#[tactic(auto, unfolding(crate::specs::Arguments::all_of))]
fn all_of(bytes: &[u8], s: Spot) -> Result<Spot, Refusal>
    ensures { result ≡ all_of (length bytes.now) s }
{
    if s.at != bytes.len() {
        return Err(Refusal::new(Reason::Tail, s.at));
    }
    Ok(s)
}

/// A predicate: one expression. Its nodes are the first of the cells, and its root is the last of them.
pub fn read_predicate(bytes: &[u8], cells: &mut [u64]) -> Result<Spot, Refusal>
    requires { 12288 ≤ length cells.old }
    ensures { PredicateIs bytes.now cells.new result }
{
    let from = Spot {
        at: 0,
        tags: 0,
        made: 0,
        row: 0,
    };
    let e = reader_fields::read_expr(bytes, from, cells)?;
    all_of(bytes, e)
}

/// Keys: a count, and as many pairs of expressions. Their nodes go into the cells behind the first `made`, and what is read has as many rows as there
/// are pairs. The rows are those of the list that was read.
pub fn read_keys(
    bytes: &[u8],
    made: usize,
    cells: &mut [u64],
    rows: &mut [u16],
    pairs: &mut [u64],
) -> Result<Spot, Refusal>
    requires made_bound { (made ≤ 4096) × (3 * made + 12288 ≤ length cells.old) × (1020 ≤ length rows.old) × (510 ≤ length pairs.old) }
    requires wf { Wf cells.old made }
    ensures { KeysAre bytes.now made cells.old cells.new pairs.new result }
{
    let from = Spot {
        at: 0,
        tags: 0,
        made,
        row: 0,
    };
    let list = reader_parts::read_list(bytes, from, Kind::On, 1, 0, 255, cells, rows)?;
    let read = all_of(bytes, list)?;
    key_rows::pairs_of(rows, read.row, pairs);
    Ok(read)
}
