//! pruner: the public entries. A plan file and a request in, a narrowed plan file or a refusal out.
//!
//! `prune` and `prune_all` make the arrays that a plan is read into and rewritten in, as long as the file's version needs them; `prune_in` is lent them,
//! and says nothing of what they held or hold.
#![tactic(auto)]

ghost use Rattle.std.specs.Prelude.{Ok, ℕ, ◌≤◌};
ghost use Rattle.acceptance.specs.Readings.{Fits};
ghost use Rattle.cpl.specs.Tests.{iota};
ghost use Rattle.rules.specs.Answer as rules;
ghost use Rattle.answers.specs.Answers.{AnswerIs, Delivers};
ghost use Rattle.intake.specs.Intake.{wanted};
ghost use Rattle.pruner.specs.Answers.{Promised, RoomWith, SettingsAre};

use answers::Answer;
use optimize_projections::Settings;
use refusals::{Reason, Refusal};

// The settings of these numbers, where they are allowed.
fn settings_of(mode: u8, mask: u16) -> Result<Settings, Refusal>
    ensures { SettingsAre mode mask result }
{
    if mode > 1 || mask > 4095 {
        return Err(Refusal::new(Reason::Setting, 0));
    }
    Ok(Settings {
        house: mode == 1,
        mask,
    })
}

// The bytes written for a request of `all` fields or of those of the list, worked out in lent arrays that are long enough for the file's version.
fn prune_over(
    settings: Settings,
    all: bool,
    file: &[u8],
    request: &[u16],
    out: &mut [u8],
    cells: &mut [u64; 12288],
    rows: &mut [u16],
    nodes: &mut [u64; 1792],
    names: &mut [u16; 8208],
    fields: &mut [u16],
    widths: &mut [u64; 512],
    keys: &mut [u64; 2448],
    arows: &mut [u16; 2048],
    acells: &mut [u64; 12288],
    brows: &mut [u16; 2048],
    bcells: &mut [u64; 12288],
    records: &mut [u64; 3328],
    items: &mut [u16; 16896],
    icells: &mut [u64; 12288],
) -> Result<usize, Refusal>
    requires { RoomWith file.now rows.old fields.old }
    ensures { (mode mask : ℕ) → SettingsAre mode mask (Ok settings) → Delivers (rules.reply mode mask file.now (wanted all request.now) out.old) result out.new }
{
    let t = intake::take_in(
        file, all, request, cells, rows, nodes, names, fields, widths, keys,
    )?;
    node_keys::node_keys(cells, rows, nodes, t.count, fields, widths, keys);
    delivery::walk_and_deliver(
        t.version, file, t.start, cells, rows, nodes, fields, widths, keys, settings, t.set, arows,
        acells, brows, bcells, records, items, icells, out,
    )
}

/// The answer to a request of `all` fields or of those of the list, worked out in lent arrays.
pub fn prune_in(
    mode: u8,
    mask: u16,
    all: bool,
    file: &[u8],
    request: &[u16],
    out: &mut [u8],
    cells: &mut [u64; 12288],
    rows: &mut [u16; 1065088],
    nodes: &mut [u64; 1792],
    names: &mut [u16; 8208],
    fields: &mut [u16; 262144],
    widths: &mut [u64; 512],
    keys: &mut [u64; 2448],
    arows: &mut [u16; 2048],
    acells: &mut [u64; 12288],
    brows: &mut [u16; 2048],
    bcells: &mut [u64; 12288],
    records: &mut [u64; 3328],
    items: &mut [u16; 16896],
    icells: &mut [u64; 12288],
) -> Answer
    ensures answer_is { AnswerIs (rules.reply mode mask file.now (wanted all request.now) out.old) result out.new }
    ensures promised { Promised mode mask file.now (wanted all request.now) out.old result.code }
{
    let settings = match settings_of(mode, mask) {
        Ok(settings) => settings,
        Err(refusal) => return Answer::from(Err(refusal)),
    };
    Answer::from(prune_over(
        settings, all, file, request, out, cells, rows, nodes, names, fields, widths, keys, arows,
        acells, brows, bcells, records, items, icells,
    ))
}

// The same in arrays that are made here, of ROWS and FIELDS numbers where these go by the file's version. Nothing is made for settings that are refused;
// but room is taken for it, so the entries test them before.
fn prune_made<const ROWS: usize, const FIELDS: usize>(
    mode: u8,
    mask: u16,
    all: bool,
    file: &[u8],
    request: &[u16],
    out: &mut [u8],
) -> Result<usize, Refusal>
    requires fits { Fits file.now ROWS FIELDS }
    requires few { (ROWS ≤ 1065088) × (FIELDS ≤ 262144) }
    ensures { Delivers (rules.reply mode mask file.now (wanted all request.now) out.old) result out.new }
{
    let settings = settings_of(mode, mask)?;
    let mut cells = [0u64; 12288];
    let mut rows = [0u16; ROWS];
    let mut nodes = [0u64; 1792];
    let mut names = [0u16; 8208];
    let mut fields = [0u16; FIELDS];
    let mut widths = [0u64; 512];
    let mut keys = [0u64; 2448];
    let mut arows = [0u16; 2048];
    let mut acells = [0u64; 12288];
    let mut brows = [0u16; 2048];
    let mut bcells = [0u64; 12288];
    let mut records = [0u64; 3328];
    let mut items = [0u16; 16896];
    let mut icells = [0u64; 12288];
    prune_over(
        settings,
        all,
        file,
        request,
        out,
        &mut cells,
        &mut rows,
        &mut nodes,
        &mut names,
        &mut fields,
        &mut widths,
        &mut keys,
        &mut arows,
        &mut acells,
        &mut brows,
        &mut bcells,
        &mut records,
        &mut items,
        &mut icells,
    )
}

/// The plan file's plan, narrowed to the fields of the request (rising positions of the root's fields) and written to `out`; or a refusal.
///
/// The answer and every byte of `out` are those of document 01. In house mode, where nothing is refused, the plan that is written gives the rows of
/// the plan that was read at each field that it keeps; where the file declares keys, on tables that keep them.
pub fn prune(mode: u8, mask: u16, file: &[u8], request: &[u16], out: &mut [u8]) -> Answer
    ensures answer_is { AnswerIs (rules.answer mode mask file.now request.now out.old) result out.new }
    ensures promised { Promised mode mask file.now (λ width. request.now) out.old result.code }
{
    if let Err(refusal) = settings_of(mode, mask) {
        return Answer::from(Err(refusal));
    }
    if acceptance::is_narrow(file) {
        return Answer::from(prune_made::<278656, 65536>(mode, mask, false, file, request, out));
    }
    Answer::from(prune_made::<1065088, 262144>(mode, mask, false, file, request, out))
}

/// The same with every field of the root requested.
pub fn prune_all(mode: u8, mask: u16, file: &[u8], out: &mut [u8]) -> Answer
    ensures answer_is { AnswerIs (rules.answer_all mode mask file.now out.old) result out.new }
    ensures promised { Promised mode mask file.now (λ width. iota 0 width) out.old result.code }
{
    if let Err(refusal) = settings_of(mode, mask) {
        return Answer::from(Err(refusal));
    }
    if acceptance::is_narrow(file) {
        return Answer::from(prune_made::<278656, 65536>(mode, mask, true, file, &[], out));
    }
    Answer::from(prune_made::<1065088, 262144>(mode, mask, true, file, &[], out))
}
