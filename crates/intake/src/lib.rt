//! intake: from the bytes of a plan file and a request to an accepted plan in the lent arrays and the set of fields asked for. Codes 2 to 11, of which
//! `acceptance` gives those up to 10.
#![tactic(auto)]

ghost use Rattle.std.specs.Prelude.{◌≤◌};
ghost use Rattle.rules.specs.Request.{request_fault};
ghost use Rattle.request.specs.Requests.{RequestIs};
ghost use Rattle.acceptance.specs.Readings.{Room};
ghost use Rattle.intake.specs.Intake.{wanted, IntakeIs};

use refusals::Refusal;
use required_indices::RequiredIndices;
use versions::Version;

/// An accepted plan and its request: the file's version, the offset of the plan, its number of nodes and the set of fields asked for.
#[derive(Clone, Copy)]
pub struct Intake {
    pub version: Version,
    pub start: usize,
    pub count: usize,
    pub set: RequiredIndices,
}

// The set of fields asked for of an accepted plan whose root has `width` fields: all of them, or those of the list.
fn ask(all: bool, request: &[u16], width: usize) -> Result<RequiredIndices, Refusal>
    requires { width ≤ 512 }
    ensures { RequestIs width (wanted all request.now width) result (request_fault width (wanted all request.now width)) }
{
    if all {
        return Ok(request::all_fields(width));
    }
    request::check_request(request, width)
}

/// A file's plan, read into the lent arrays and accepted, and the set of fields asked for (`all` of them, or those of the list); or a refusal.
/// The arrays are long enough for every plan file of the file's version: see `acceptance::read_and_check`.
pub fn take_in(
    file: &[u8],
    all: bool,
    request: &[u16],
    cells: &mut [u64],
    rows: &mut [u16],
    nodes: &mut [u64],
    names: &mut [u16],
    fields: &mut [u16],
    widths: &mut [u64],
    keys: &mut [u64],
) -> Result<Intake, Refusal>
    requires { Room file.now cells.old rows.old nodes.old names.old fields.old widths.old keys.old }
    ensures { IntakeIs file.now (wanted all request.now) cells.new rows.new nodes.new fields.new widths.new keys.new result }
{
    let read = acceptance::read_and_check(file, cells, rows, nodes, names, fields, widths, keys)?;
    let set = ask(all, request, read.fields)?;
    Ok(Intake {
        version: read.version,
        start: read.start,
        count: read.nodes,
        set,
    })
}
