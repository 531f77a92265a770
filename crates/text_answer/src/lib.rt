//! The plan that stands in the lent arrays as a listing, counted and then written into a lent buffer.
#![tactic(auto)]

ghost use Rattle.std.specs.Prelude.{◌<◌, ◌^◌, length};
ghost use Rattle.rules.specs.Answer.{written};
ghost use Rattle.answers.specs.Answers.{Delivers};
ghost use Rattle.plan_text.specs.Listing.{listing};
ghost use Rattle.tree.specs.Tree.{lent, plan_at};
ghost use Rattle.text_plan.specs.Heads.{Walks};

use refusals::{Reason, Refusal};

/// The listing of the plan that stands in the lent arrays: counted, and written where it fits.
pub fn list_tree(
    cells: &[u64],
    rows: &[u16],
    nodes: &[u64],
    out: &mut [u8],
) -> Result<usize, Refusal>
    requires walks { Walks cells.now rows.now nodes.now 0 }
    requires nodes_len_bound { length (listing (plan_at (lent cells.now rows.now nodes.now) 0)) < 2 ^ 64 }
    ensures { Delivers (written (listing (plan_at (lent cells.now rows.now nodes.now) 0)) out.old) result out.new }
{
    let n = text_plan::put_plan(cells, rows, nodes, 0, 0, &mut [], 0);
    if n > out.len() {
        return Err(Refusal::new(Reason::Room, n));
    }
    Ok(text_plan::put_plan(cells, rows, nodes, 0, 0, out, 0))
}
