//! predicate_keys: the public entries over predicates. The join keys of a predicate, and what is left of a predicate without keys.
//!
//! `join_keys` and `without_keys` make the arrays that they work in, as the C interface asks; `join_keys_in` and `without_keys_in` are lent them
//! (document 01: no heap, lent arrays), and say nothing of what they held or hold.
#![tactic(auto)]

ghost use Rattle.std.specs.Prelude.{◌≡◌};
ghost use Rattle.answers.specs.Answers.{AnswerIs, Delivers};
ghost use Rattle.arena.specs.Cells.{expr_at};
ghost use Rattle.join_keys.specs.Entries.{join_keys_answer, without_keys_answer};
ghost use Rattle.join_keys.specs.Promise.{KeysPromise, LeftPromise};
ghost use Rattle.join_key_set.specs.Pairs.{keys_at};
ghost use Rattle.predicate_keys.specs.Given.{Given, without};

use answers::Answer;
use join_key_set::JoinKeySet;
use refusals::Refusal;

// The join keys of a predicate, worked out in lent arrays.
fn written_keys(
    predicate: &[u8],
    out: &mut [u8],
    cells: &mut [u64; 12288],
    pairs: &mut [u64; 2048],
    rows: &mut [u16; 256],
) -> Result<usize, Refusal>
    ensures { Delivers (join_keys_answer predicate.now out.old) result out.new }
{
    let read = predicate_reader::read_predicate(predicate, cells)?;
    let none = JoinKeySet::new(0);
    let keys = join_key_set::extract_possible_join_keys(cells, pairs, none, read.made - 1)?;
    predicate_writer::write_keys(cells, pairs, keys.size, rows, out)
}

/// The join keys of a predicate, worked out in lent arrays.
pub fn join_keys_in(
    predicate: &[u8],
    out: &mut [u8],
    cells: &mut [u64; 12288],
    pairs: &mut [u64; 2048],
    rows: &mut [u16; 256],
) -> Answer
    ensures answer_is { AnswerIs (join_keys_answer predicate.now out.old) result out.new }
    ensures keys_promise { result.code ≡ 0 → KeysPromise predicate.now (join_keys_answer predicate.now out.old) }
{
    Answer::from(written_keys(predicate, out, cells, pairs, rows))
}

/// The join keys of a predicate: a count and as many pairs of expressions, in insertion order, written to `out`; or a refusal.
///
/// The predicate is one expression in the form of a plan file. On any row where it is yes, both halves of every pair are present and equal.
pub fn join_keys(predicate: &[u8], out: &mut [u8]) -> Answer
    ensures answer_is { AnswerIs (join_keys_answer predicate.now out.old) result out.new }
    ensures keys_promise { result.code ≡ 0 → KeysPromise predicate.now (join_keys_answer predicate.now out.old) }
{
    let mut cells = [0u64; 12288];
    let mut pairs = [0u64; 2048];
    let mut rows = [0u16; 256];
    join_keys_in(predicate, out, &mut cells, &mut pairs, &mut rows)
}

// What is left of the predicate of node `node` without the first n pairs, of which one that is given twice, or with its mirror, is kept once.
fn remove_given(
    cells: &mut [u64],
    node: usize,
    used: usize,
    pairs: &mut [u64],
    n: usize,
    out: &mut [u8],
) -> Result<usize, Refusal>
    requires { Given cells.old node used pairs.old n }
    ensures { Delivers (without (keys_at cells.old pairs.old 0 n) (expr_at cells.old node) out.old) result out.new }
{
    let given = JoinKeySet { start: 0, size: n };
    let set = JoinKeySet::new(0).insert_all(cells, pairs, given)?;
    let left = join_key_set::remove_join_expressions(cells, used, node, pairs, set);
    predicate_writer::write_left(cells, left.node, out)
}

// What is left of a predicate without keys, worked out in lent arrays.
fn written_left(
    predicate: &[u8],
    keys: &[u8],
    out: &mut [u8],
    cells: &mut [u64; 30717],
    pairs: &mut [u64; 510],
    rows: &mut [u16; 1020],
) -> Result<usize, Refusal>
    ensures { Delivers (without_keys_answer predicate.now keys.now out.old) result out.new }
{
    let read = predicate_reader::read_predicate(predicate, cells)?;
    let given = predicate_reader::read_keys(keys, read.made, cells, rows, pairs)?;
    remove_given(cells, read.made - 1, given.made, pairs, given.row, out)
}

/// What is left of a predicate without keys, worked out in lent arrays.
pub fn without_keys_in(
    predicate: &[u8],
    keys: &[u8],
    out: &mut [u8],
    cells: &mut [u64; 30717],
    pairs: &mut [u64; 510],
    rows: &mut [u16; 1020],
) -> Answer
    ensures answer_is { AnswerIs (without_keys_answer predicate.now keys.now out.old) result out.new }
    ensures left_promise { result.code ≡ 0 → LeftPromise predicate.now keys.now (without_keys_answer predicate.now keys.now out.old) }
{
    Answer::from(written_left(predicate, keys, out, cells, pairs, rows))
}

/// What is left of a predicate without keys: 0, or 1 and an expression, written to `out`; or a refusal.
///
/// The keys are those that `join_keys` writes, or any others of that form. On any row where both halves of every key are present and equal, the
/// predicate is yes exactly when what is left is yes, nothing left counting as yes.
pub fn without_keys(predicate: &[u8], keys: &[u8], out: &mut [u8]) -> Answer
    ensures answer_is { AnswerIs (without_keys_answer predicate.now keys.now out.old) result out.new }
    ensures left_promise { result.code ≡ 0 → LeftPromise predicate.now keys.now (without_keys_answer predicate.now keys.now out.old) }
{
    let mut cells = [0u64; 30717];
    let mut pairs = [0u64; 510];
    let mut rows = [0u16; 1020];
    without_keys_in(predicate, keys, out, &mut cells, &mut pairs, &mut rows)
}
