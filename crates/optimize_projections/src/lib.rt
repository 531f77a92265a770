//! optimize_projections: the pass. Port of `optimize_projections` of `optimize_projections/mod.rs`.
//!
//! One function for a node, one for its inputs, calling each other downwards. A projection on its way down is a pending list (`Pending` of crate
//! `walk_steps`): a step of merging reads it in the file's rows or in the first scratch arrays and writes the merged list into the second, and the two
//! change places on the call. The old plan (`Plan`) is read only; the rewritten plan grows behind what is in use of the result's arrays.
#![tactic(auto)]

ghost use Rattle.std.specs.Prelude.{◌≡◌, Ok};
ghost use Rattle.optimize_projections.specs.Plans.{PlanAfter, PlanBefore, PlanBeforeInputs, PlanBeforeList, PlanInputAfter, PlanInputsAfter, PlanListAfter, PlanPutAfter};
ghost use Rattle.optimize_projections.specs.Walk.{NoInputs, one_walked};

use arena::Full;
use jobs::{Job, Todo};
use merge::Step;
use required_indices::RequiredIndices;
use tree::Node;
use walk_steps::{Inputs, Pending, Used, Walked};

/// The mode and the push mask.
#[derive(Clone, Copy)]
pub struct Settings {
    pub house: bool,
    pub mask: u16,
}

/// An accepted plan in lent arrays, with the keys of its nodes in their slots.
#[derive(Clone, Copy)]
pub struct Plan<'a> {
    pub cells: &'a [u64],
    pub rows: &'a [u16],
    pub nodes: &'a [u64],
    pub fields: &'a [u16],
    pub widths: &'a [u64],
    pub keys: &'a [u64],
}

/// Lent arrays for a merged list: its rows and their cells.
#[derive(Drop)]
pub struct Scratch<'a> {
    pub rows: &'a mut [u16; 2048],
    pub cells: &'a mut [u64; 12288],
}

/// The rewritten plan in lent arrays, as in crate `result`: its records, and the rows and cells of the items that it does not take from the old plan.
#[derive(Drop)]
pub struct Rewriting<'a> {
    pub records: &'a mut [u64; 3328],
    pub items: &'a mut [u16; 16896],
    pub icells: &'a mut [u64; 12288],
}

// A node without inputs.
fn no_input(kept: RequiredIndices, used: Used) -> Inputs
    ensures { NoInputs used (Ok result) }
{
    Inputs {
        first: 0,
        second: 0,
        used,
        kept,
    }
}

// A node with one input.
fn one_input(w: Walked) -> Inputs
    ensures { one_walked result ≡ w }
{
    Inputs {
        first: w.root,
        second: 0,
        used: w.used,
        kept: w.kept,
    }
}

/// The pass over node `k`, asked for `request`: its job says what is asked of its inputs; a projection goes on down as a pending list. Its error
/// is `Full` where the result is too large. Rust: `optimize_projections`.
#[cycle(merge_projections_optimize_input_optimize_inputs_optimize_projections_rewrite_projection_given_requirements)]
pub fn optimize_projections(
    plan: &Plan,
    settings: Settings,
    k: usize,
    request: RequiredIndices,
    a: &mut Scratch,
    b: &mut Scratch,
    out: &mut Rewriting,
    used: Used,
) -> Result<Walked, Full>
    requires { PlanBefore plan.now out.old k request used }
    ensures { PlanAfter settings plan.now out.old out.new k request used result }
{
    let node = tree::node_at(plan.nodes, k);
    match node {
        Node::Projection { first, n } => {
            let list = Pending {
                top: k,
                first,
                n,
                scratch: false,
            };
            merge_projections(plan, settings, k + 1, list, request, a, b, out, used)
        }
        _ => {
            let job = jobs::job_at(
                node,
                k,
                request,
                plan.cells,
                plan.rows,
                plan.fields,
                plan.widths,
                plan.keys,
            );
            let inputs = optimize_inputs(plan, settings, k, job, a, b, out, used);
            walk_steps::put_node(out.records, k, job, inputs)
        }
    }
}

/// The inputs of node `k`, each asked as its job says.
#[cycle(merge_projections_optimize_input_optimize_inputs_optimize_projections_rewrite_projection_given_requirements)]
pub fn optimize_inputs(
    plan: &Plan,
    settings: Settings,
    k: usize,
    job: Job,
    a: &mut Scratch,
    b: &mut Scratch,
    out: &mut Rewriting,
    used: Used,
) -> Result<Inputs, Full>
    requires { PlanBeforeInputs plan.now out.old k job used }
    ensures { PlanInputsAfter settings plan.now out.old out.new k job used result }
{
    match job.todo {
        Todo::Leaf => Ok(no_input(job.ask, used)),
        Todo::Nothing => Ok(no_input(job.ask, used)),
        Todo::Same => {
            let w = optimize_input(plan, settings, k + 1, job.ask, false, a, b, out, used)?;
            Ok(one_input(w))
        }
        Todo::One { topped } => {
            let w = optimize_input(plan, settings, k + 1, job.ask, topped, a, b, out, used)?;
            Ok(one_input(w))
        }
        Todo::Two { right } => {
            let w = optimize_input(plan, settings, k + 1, job.ask, true, a, b, out, used)?;
            let v = optimize_input(plan, settings, right, job.second, true, a, b, out, w.used)?;
            Ok(Inputs {
                first: w.root,
                second: v.root,
                used: v.used,
                kept: w.kept,
            })
        }
    }
}

/// The pass over node `k`, an input that was asked for `ask`, topped up where that is wanted.
#[cycle(merge_projections_optimize_input_optimize_inputs_optimize_projections_rewrite_projection_given_requirements)]
pub fn optimize_input(
    plan: &Plan,
    settings: Settings,
    k: usize,
    ask: RequiredIndices,
    topped: bool,
    a: &mut Scratch,
    b: &mut Scratch,
    out: &mut Rewriting,
    used: Used,
) -> Result<Walked, Full>
    requires { PlanBefore plan.now out.old k ask used }
    ensures { PlanInputAfter settings plan.now out.old out.new k ask topped used result }
{
    let w = optimize_projections(plan, settings, k, ask, a, b, out, used);
    walk_steps::top_up(out.records, topped, k, ask, w)
}

/// The pass over node `k` with a projection still to be put on top: merged with the next one as long as a step applies. Rust:
/// `merge_consecutive_projections`.
#[cycle(merge_projections_optimize_input_optimize_inputs_optimize_projections_rewrite_projection_given_requirements)]
pub fn merge_projections(
    plan: &Plan,
    settings: Settings,
    k: usize,
    list: Pending,
    request: RequiredIndices,
    a: &mut Scratch,
    b: &mut Scratch,
    out: &mut Rewriting,
    used: Used,
) -> Result<Walked, Full>
    requires { PlanBeforeList plan.now a.old out.old k list request used }
    ensures { PlanListAfter settings plan.now a.old out.old out.new k list request used result }
{
    let Node::Projection { first, n } = tree::node_at(plan.nodes, k) else {
        return rewrite_projection_given_requirements(
            plan, settings, k, list, request, a, b, out, used,
        );
    };
    let arows = &*a.rows;
    let acells = &*a.cells;
    let brows = &mut *b.rows;
    let bcells = &mut *b.cells;
    let step = walk_steps::merge_step(
        settings.house,
        settings.mask,
        list,
        plan.cells,
        plan.rows,
        arows,
        acells,
        first,
        n,
        brows,
        bcells,
    )?;
    match step {
        Step::Same => merge_projections(plan, settings, k + 1, list, request, a, b, out, used),
        Step::Merged => {
            let merged = Pending {
                top: list.top,
                first: 0,
                n: list.n,
                scratch: true,
            };
            merge_projections(plan, settings, k + 1, merged, request, b, a, out, used)
        }
        Step::Stop => rewrite_projection_given_requirements(
            plan, settings, k, list, request, a, b, out, used,
        ),
    }
}

/// The pending list over node `k`: its items at the request, over node `k` asked for the columns they use. Rust:
/// `rewrite_projection_given_requirements`.
#[cycle(merge_projections_optimize_input_optimize_inputs_optimize_projections_rewrite_projection_given_requirements)]
pub fn rewrite_projection_given_requirements(
    plan: &Plan,
    settings: Settings,
    k: usize,
    list: Pending,
    request: RequiredIndices,
    a: &mut Scratch,
    b: &mut Scratch,
    out: &mut Rewriting,
    used: Used,
) -> Result<Walked, Full>
    requires { PlanBeforeList plan.now a.old out.old k list request used }
    ensures { PlanPutAfter settings plan.now a.old out.old out.new k list request used result }
{
    let start = lookup::first_at(plan.widths, k);
    let width = lookup::width_at(plan.widths, k);
    let arows = &*a.rows;
    let acells = &*a.cells;
    let items = &mut *out.items;
    let icells = &mut *out.icells;
    let chosen = walk_steps::get_at_indices(
        list,
        plan.cells,
        plan.rows,
        arows,
        acells,
        request,
        plan.fields,
        start,
        width,
        items,
        icells,
        used,
    )?;
    let w = optimize_projections(plan, settings, k, chosen.ask, a, b, out, chosen.used);
    let top = list.top;
    let upper = lookup::first_at(plan.widths, top);
    let wide = lookup::width_at(plan.widths, top);
    walk_steps::put_list(
        out.records,
        chosen.list,
        plan.fields,
        top,
        upper,
        wide,
        request,
        start,
        width,
        w,
    )
}
