//! list_plan: a plan file as an indented listing, a line for each node, or a refusal: 2 to 10 and 17, then 13.
//!
//! `list_plan` makes the arrays that a plan is read into, by the file's version; `list_plan_in` is lent them, and says nothing of what they held or
//! hold. The contracts determine every byte.
#![tactic(auto)]

ghost use Rattle.std.specs.Prelude.{◌≤◌};
ghost use Rattle.answers.specs.Answers.{AnswerIs, Delivers};
ghost use Rattle.plan_text.specs.Answers.{list_answer};
ghost use Rattle.acceptance.specs.Readings.{Fits, NoneBelow, Room};

use answers::Answer;
use refusals::{Reason, Refusal};

// The listing of a file's plan, worked out in arrays that are long enough for it.
fn list_over(
    file: &[u8],
    cells: &mut [u64],
    rows: &mut [u16],
    nodes: &mut [u64],
    names: &mut [u16],
    fields: &mut [u16],
    widths: &mut [u64],
    keys: &mut [u64],
    out: &mut [u8],
) -> Result<usize, Refusal>
    requires { Room file.now cells.old rows.old nodes.old names.old fields.old widths.old keys.old }
    ensures { Delivers (list_answer file.now out.old) result out.new }
{
    acceptance::read_and_check(file, cells, rows, nodes, names, fields, widths, keys)?;
    text_answer::list_tree(cells, rows, nodes, out)
}

/// The listing of a plan file, worked out in lent arrays.
pub fn list_plan_in(
    file: &[u8],
    cells: &mut [u64; 12288],
    rows: &mut [u16; 1065088],
    nodes: &mut [u64; 1792],
    names: &mut [u16; 8208],
    fields: &mut [u16; 262144],
    widths: &mut [u64; 512],
    keys: &mut [u64; 2448],
    out: &mut [u8],
) -> Answer
    ensures { AnswerIs (list_answer file.now out.old) result out.new }
{
    Answer::from(list_over(file, cells, rows, nodes, names, fields, widths, keys, out))
}

// The same in arrays of its own, of so many numbers of rows and of fields.
fn list_with<const ROWS: usize, const FIELDS: usize>(
    file: &[u8],
    out: &mut [u8],
) -> Result<usize, Refusal>
    requires fits { Fits file.now ROWS FIELDS }
    requires few { (ROWS ≤ 1065088) × (FIELDS ≤ 262144) }
    ensures { Delivers (list_answer file.now out.old) result out.new }
{
    let mut cells = [0u64; 12288];
    let mut rows = [0u16; ROWS];
    let mut nodes = [0u64; 1792];
    let mut names = [0u16; 8208];
    let mut fields = [0u16; FIELDS];
    let mut widths = [0u64; 512];
    let mut keys = [0u64; 2448];
    list_over(
        file,
        &mut cells,
        &mut rows,
        &mut nodes,
        &mut names,
        &mut fields,
        &mut widths,
        &mut keys,
        out,
    )
}

// The listing of a file, in the arrays that its version needs: versions are tried in turn, from this number on, and the function calls itself for the
// reason that `acceptance::check_from` has.
fn list_from(file: &[u8], number: u64, out: &mut [u8]) -> Result<usize, Refusal>
    requires { NoneBelow file.now number }
    ensures { Delivers (list_answer file.now out.old) result out.new }
{
    if number > 2 {
        return Err(Refusal::new(Reason::Mark, 0));
    }
    if reader::has_mark(file, number) {
        if number == 1 {
            return list_with::<278656, 65536>(file, out);
        }
        return list_with::<1065088, 262144>(file, out);
    }
    list_from(file, number + 1, out)
}

/// The listing of a plan file, written to `out`; or a refusal, which changes no byte of it. The bytes of `out` behind the listing stay.
pub fn list_plan(file: &[u8], out: &mut [u8]) -> Answer
    ensures { AnswerIs (list_answer file.now out.old) result out.new }
{
    Answer::from(list_from(file, 1, out))
}
