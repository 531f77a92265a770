//! delivery: the answer for an accepted plan. It is walked from its root; what the walk left is too large, or it is counted and written to the output
//! where that has room.
#![tactic(auto)]

ghost use Rattle.std.specs.Prelude.{◌≡◌, ◌++◌, ◌≤◌, length, take};
ghost use Rattle.cpl.specs.Bytes.{plan_bytes};
ghost use Rattle.cpl.specs.Exprs.{plan_tags};
ghost use Rattle.rules.specs.Answer as rules;
ghost use Rattle.answers.specs.Answers.{Delivers};
ghost use Rattle.versions.specs.Versions.{version_of};
ghost use Rattle.writer.specs.Plans.{Writes, plan_of};
ghost use Rattle.delivery.specs.Delivery.{Walkable, delivered, nothing_used, root_walk};

use arena::Full;
use optimize_projections::{Plan, Rewriting, Scratch, Settings};
use refusals::{Reason, Refusal};
use required_indices::RequiredIndices;
use versions::Version;
use walk_steps::Used;

// The plan of a record, after the first `start` bytes of the file: counted, and written where it fits; the length written, or a refusal.
fn write_out(
    version: Version,
    file: &[u8],
    start: usize,
    cells: &[u64; 12288],
    rows: &[u16],
    nodes: &[u64; 1792],
    fields: &[u16],
    widths: &[u64; 512],
    made: &Rewriting,
    root: usize,
    out: &mut [u8],
) -> Result<usize, Refusal>
    requires start_in_bounds { start ≤ length file.now }
    requires writes { Writes version cells.now rows.now nodes.now fields.now widths.now made.now.records.now made.now.items.now made.now.icells.now root }
    ensures { (w : Writes version cells.now rows.now nodes.now fields.now widths.now made.now.records.now made.now.items.now made.now.icells.now root) → Delivers (delivered (plan_tags (plan_of w)) (take start file.now ++ plan_bytes (version_of version) (plan_of w)) out.old) result out.new }
{
    let size = writer::plan_size(
        version,
        cells,
        rows,
        nodes,
        fields,
        widths,
        made.records,
        made.items,
        made.icells,
        root,
    );
    if size.tags > 4096 {
        return Err(Refusal::new(Reason::Large, 0));
    }
    let needed = start + size.bytes;
    if needed > out.len() {
        return Err(Refusal::new(Reason::Room, needed));
    }
    Ok(writer::write_plan(
        version,
        file,
        start,
        cells,
        rows,
        nodes,
        fields,
        widths,
        made.records,
        made.items,
        made.icells,
        root,
        out,
    ))
}

// Nothing is in use of the result's arrays. They are lent as slices, which tells their lengths.
fn nothing_used(records: &[u64], items: &[u16], icells: &[u64]) -> Used
    ensures { result ≡ nothing_used }
{
    Used {
        records: 0,
        rows: 0,
        cells: 0,
    }
}

/// The plan at node 0, asked for `request`: walked, and written to `out` after the first `start` bytes of the file; the length written, or a refusal.
pub fn walk_and_deliver(
    version: Version,
    file: &[u8],
    start: usize,
    cells: &[u64; 12288],
    rows: &[u16],
    nodes: &[u64; 1792],
    fields: &[u16],
    widths: &[u64; 512],
    keys: &[u64; 2448],
    settings: Settings,
    request: RequiredIndices,
    arows: &mut [u16; 2048],
    acells: &mut [u64; 12288],
    brows: &mut [u16; 2048],
    bcells: &mut [u64; 12288],
    records: &mut [u64; 3328],
    items: &mut [u16; 16896],
    icells: &mut [u64; 12288],
    out: &mut [u8],
) -> Result<usize, Refusal>
    requires { Walkable version file.now start cells.now rows.now nodes.now fields.now widths.now keys.now request }
    ensures { (x : Walkable version file.now start cells.now rows.now nodes.now fields.now widths.now keys.now request) → Delivers (rules.deliver (rules.finish x.standing.C (root_walk settings x.standing.C cells.now rows.now nodes.now request x.R)) out.old) result out.new }
{
    let used = nothing_used(records, items, icells);
    let plan = Plan {
        cells,
        rows,
        nodes,
        fields,
        widths,
        keys,
    };
    let mut a = Scratch {
        rows: arows,
        cells: acells,
    };
    let mut b = Scratch {
        rows: brows,
        cells: bcells,
    };
    let mut made = Rewriting {
        records,
        items,
        icells,
    };
    let walked = optimize_projections::optimize_projections(
        &plan, settings, 0, request, &mut a, &mut b, &mut made, used,
    );
    match walked {
        Ok(w) => write_out(
            version, file, start, cells, rows, nodes, fields, widths, &made, w.root, out,
        ),
        Err(Full) => Err(Refusal::new(Reason::Large, 0)),
    }
}
