//! simmerroof: the functions that C and Rust programs link, and nothing else: those of pruner, acceptance, list_plan and predicate_keys, with the answer as
//! numbers in a lent array.
#![tactic(auto)]

ghost use Rattle.std.specs.Prelude.{◌≡◌, [], ◌∷◌};
ghost use Rattle.cpl.specs.Tests.{iota};
ghost use Rattle.rules.specs.Answer as rules;
ghost use Rattle.rules.specs.Check.{check_file};
ghost use Rattle.join_keys.specs.Entries.{join_keys_answer, without_keys_answer};
ghost use Rattle.join_keys.specs.Promise.{KeysPromise, LeftPromise};
ghost use Rattle.plan_text.specs.Answers.{list_answer};
ghost use Rattle.pruner.specs.Answers.{Promised};
ghost use Rattle.simmerroof.specs.Numbers.{NumbersAre, check_numbers, code_in};

use answers::Answer;

// The three numbers of an answer.
fn put(a: Answer, answer: &mut [u64; 3])
    ensures { answer.new ≡ a.code ∷ a.length ∷ a.place ∷ [] }
{
    *answer = [a.code as u64, a.length as u64, a.place as u64];
}

/// `prune` for C and Rust: `answer` gets the code, the length and the place.
#[unsafe(no_mangle)]
pub extern "C" fn simmerroof_prune(
    mode: u8,
    mask: u16,
    file: &[u8],
    request: &[u16],
    out: &mut [u8],
    answer: &mut [u64; 3],
)
    ensures numbers_are { NumbersAre (rules.answer mode mask file.now request.now out.old) answer.new out.new }
    ensures promised { Promised mode mask file.now (λ width. request.now) out.old (code_in answer.new) }
{
    put(pruner::prune(mode, mask, file, request, out), answer);
}

/// `prune_all` for C and Rust.
#[unsafe(no_mangle)]
pub extern "C" fn simmerroof_prune_all(
    mode: u8,
    mask: u16,
    file: &[u8],
    out: &mut [u8],
    answer: &mut [u64; 3],
)
    ensures numbers_are { NumbersAre (rules.answer_all mode mask file.now out.old) answer.new out.new }
    ensures promised { Promised mode mask file.now (λ width. iota 0 width) out.old (code_in answer.new) }
{
    put(pruner::prune_all(mode, mask, file, out), answer);
}

/// `simmerroof_prune` in lent arrays. The number at the end of the name goes with their lengths: a program that was compiled for others does not link.
#[unsafe(no_mangle)]
pub extern "C" fn simmerroof_prune_in3(
    mode: u8,
    mask: u16,
    file: &[u8],
    request: &[u16],
    out: &mut [u8],
    cells: &mut [u64; 12288],
    rows: &mut [u16; 1065088],
    nodes: &mut [u64; 1792],
    names: &mut [u16; 8208],
    fields: &mut [u16; 262144],
    widths: &mut [u64; 512],
    keys: &mut [u64; 2448],
    arows: &mut [u16; 2048],
    acells: &mut [u64; 12288],
    brows: &mut [u16; 2048],
    bcells: &mut [u64; 12288],
    records: &mut [u64; 3328],
    items: &mut [u16; 16896],
    icells: &mut [u64; 12288],
    answer: &mut [u64; 3],
)
    ensures numbers_are { NumbersAre (rules.answer mode mask file.now request.now out.old) answer.new out.new }
    ensures promised { Promised mode mask file.now (λ width. request.now) out.old (code_in answer.new) }
{
    let a = pruner::prune_in(
        mode, mask, false, file, request, out, cells, rows, nodes, names, fields, widths, keys,
        arows, acells, brows, bcells, records, items, icells,
    );
    put(a, answer);
}

/// `simmerroof_prune_all` in lent arrays, with the same number.
#[unsafe(no_mangle)]
pub extern "C" fn simmerroof_prune_all_in3(
    mode: u8,
    mask: u16,
    file: &[u8],
    out: &mut [u8],
    cells: &mut [u64; 12288],
    rows: &mut [u16; 1065088],
    nodes: &mut [u64; 1792],
    names: &mut [u16; 8208],
    fields: &mut [u16; 262144],
    widths: &mut [u64; 512],
    keys: &mut [u64; 2448],
    arows: &mut [u16; 2048],
    acells: &mut [u64; 12288],
    brows: &mut [u16; 2048],
    bcells: &mut [u64; 12288],
    records: &mut [u64; 3328],
    items: &mut [u16; 16896],
    icells: &mut [u64; 12288],
    answer: &mut [u64; 3],
)
    ensures numbers_are { NumbersAre (rules.answer_all mode mask file.now out.old) answer.new out.new }
    ensures promised { Promised mode mask file.now (λ width. iota 0 width) out.old (code_in answer.new) }
{
    let nothing = [0u16; 1];
    let a = pruner::prune_in(
        mode, mask, true, file, &nothing, out, cells, rows, nodes, names, fields, widths, keys,
        arows, acells, brows, bcells, records, items, icells,
    );
    put(a, answer);
}

/// `check` for C and Rust: `answer` gets the code, the place, the number of nodes and the number of the root's fields.
#[unsafe(no_mangle)]
pub extern "C" fn simmerroof_check(file: &[u8], answer: &mut [u64; 4])
    ensures { answer.new ≡ check_numbers (check_file file.now) }
{
    let c = acceptance::check(file);
    *answer = [
        c.code as u64,
        c.place as u64,
        c.nodes as u64,
        c.fields as u64,
    ];
}

/// `list_plan` for C and Rust.
#[unsafe(no_mangle)]
pub extern "C" fn simmerroof_list_plan(file: &[u8], out: &mut [u8], answer: &mut [u64; 3])
    ensures { NumbersAre (list_answer file.now out.old) answer.new out.new }
{
    put(list_plan::list_plan(file, out), answer);
}

/// `join_keys` for C and Rust.
#[unsafe(no_mangle)]
pub extern "C" fn simmerroof_join_keys(predicate: &[u8], out: &mut [u8], answer: &mut [u64; 3])
    ensures numbers_are { NumbersAre (join_keys_answer predicate.now out.old) answer.new out.new }
    ensures keys_promise { code_in answer.new ≡ 0 → KeysPromise predicate.now (join_keys_answer predicate.now out.old) }
{
    put(predicate_keys::join_keys(predicate, out), answer);
}

/// `without_keys` for C and Rust.
#[unsafe(no_mangle)]
pub extern "C" fn simmerroof_without_keys(
    predicate: &[u8],
    keys: &[u8],
    out: &mut [u8],
    answer: &mut [u64; 3],
)
    ensures numbers_are { NumbersAre (without_keys_answer predicate.now keys.now out.old) answer.new out.new }
    ensures left_promise { code_in answer.new ≡ 0 → LeftPromise predicate.now keys.now (without_keys_answer predicate.now keys.now out.old) }
{
    put(predicate_keys::without_keys(predicate, keys, out), answer);
}
