//! Acceptance: the walk over a plan. Each node is judged after its inputs, so that the first fault is answered: codes 7 to 10 of document 01 and 17
//! of document 02; or none, and the fields of every node.
//!
//! `fields` and `widths` are lent, and a node's fields stand in them as crate verdicts says.
#![tactic(auto)]

ghost use Rattle.std.specs.Prelude.{◌≡◌};
ghost use Rattle.accept.specs.Verdicts.{Checked, Judgeable, Walking};
ghost use Rattle.cpl.specs.Plan.{Catalogue};
ghost use Rattle.lookup.specs.Fields.{first_at, width_at};
ghost use Rattle.tree.specs.Tree.{lent};

use lookup::Sides;
use refusals::Refusal;
use tree::Inputs;
use versions::Version;

/// The sides of a node without inputs.
fn no_sides() -> Sides
    ensures { (result.left ≡ 0) × (result.lwidth ≡ 0) × (result.right ≡ 0) × (result.rwidth ≡ 0) }
{
    Sides {
        left: 0,
        lwidth: 0,
        right: 0,
        rwidth: 0,
        clear: true,
    }
}

/// The sides of a node whose one input is node `left`, whose fields do not clash.
fn one_side(widths: &[u64], left: usize) -> Sides
    ensures { (result.left ≡ first_at widths.now left) × (result.lwidth ≡ width_at widths.now left) × (result.right ≡ 0) × (result.rwidth ≡ 0) }
{
    Sides {
        left: lookup::first_at(widths, left),
        lwidth: lookup::width_at(widths, left),
        ..no_sides()
    }
}

/// The sides of a node whose inputs are nodes `left` and `right`, neither of whose fields clash.
fn two_sides(widths: &[u64], left: usize, right: usize) -> Sides
    ensures { (result.left ≡ first_at widths.now left) × (result.lwidth ≡ width_at widths.now left) × (result.right ≡ first_at widths.now right) × (result.rwidth ≡ width_at widths.now right) }
{
    Sides {
        right: lookup::first_at(widths, right),
        rwidth: lookup::width_at(widths, right),
        ..one_side(widths, left)
    }
}

/// The verdict on the plan at node `k`, children first, left before right: see `accept_node`. The fields of a node are at most `most`, and those
/// below field `to` are kept.
fn accept_at(
    cells: &[u64],
    rows: &[u16],
    nodes: &[u64],
    names: &[u16],
    most: usize,
    fields: &mut [u16],
    widths: &mut [u64],
    k: usize,
    to: usize,
) -> Result<usize, Refusal>
    requires { (C : Catalogue) × Walking C (lent cells.now rows.now nodes.now) names.now most fields.old widths.old k to }
    ensures { (C : Catalogue) → Walking C (lent cells.now rows.now nodes.now) names.now most fields.old widths.old k to → Checked C (lent cells.now rows.now nodes.now) k to fields.old widths.old fields.new widths.new result }
{
    let node = tree::node_at(nodes, k);
    let left = k + 1;
    match tree::inputs_of(node) {
        Inputs::Nothing => {
            let sides = no_sides();
            verdicts::own_verdict(cells, rows, names, most, node, sides, fields, widths, k, to)
        }
        Inputs::One => {
            let on = accept_at(cells, rows, nodes, names, most, fields, widths, left, to)?;
            let sides = one_side(widths, left);
            verdicts::own_verdict(cells, rows, names, most, node, sides, fields, widths, k, on)
        }
        Inputs::Two(right) => {
            let mid = accept_at(cells, rows, nodes, names, most, fields, widths, left, to)?;
            let on = accept_at(cells, rows, nodes, names, most, fields, widths, right, mid)?;
            let sides = two_sides(widths, left, right);
            verdicts::own_verdict(cells, rows, names, most, node, sides, fields, widths, k, on)
        }
    }
}

/// The verdict on the plan at node `k`, children first, left before right. Where it is fine, the fields of each of the plan's nodes are stored, and
/// it has the number of the next free field. Fields below number `free` are kept. Requires a tree of `n` nodes of which `k` is one, `tables`
/// tables, the version's room for the fields of each of the plan's nodes from field `free` on, and 512 numbers for widths.
pub fn accept_node(
    cells: &[u64],
    rows: &[u16],
    nodes: &[u64],
    n: usize,
    names: &[u16],
    tables: usize,
    version: Version,
    fields: &mut [u16],
    widths: &mut [u64],
    k: usize,
    free: usize,
) -> Result<usize, Refusal>
    requires { (C : Catalogue) × Judgeable C (lent cells.now rows.now nodes.now) n names.now tables version fields.old widths.old k free }
    ensures { (C : Catalogue) → Judgeable C (lent cells.now rows.now nodes.now) n names.now tables version fields.old widths.old k free → Checked C (lent cells.now rows.now nodes.now) k free fields.old widths.old fields.new widths.new result }
{
    let most = version.fields;
    accept_at(cells, rows, nodes, names, most, fields, widths, k, free)
}
