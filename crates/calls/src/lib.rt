//! calls: an entry of the library for a caller that has only bytes. The input names the entry and has its arguments; the text has its answer.
//!
//! Input: the entry's number in a byte (0 `prune`, 1 `prune_all`, 2 `check`, 3 `join_keys`, 4 `without_keys`, 5 `list`, 6 `list_plan`), then its arguments in the
//! order of its signature, numbers little-endian: mode (1 byte), mask (2), the file, the predicate or the keys (the length in 4 bytes, the bytes),
//! the request (its length in 4, each index in 2), the length of the output (4). `list` takes a file and is answered by its nodes, `list_plan` by its plan as text. Where the input
//! is cut off, numbers are 0, files and requests shorter. Of a file the first 65,536 bytes are looked at, and an output is at most as long. Text: a
//! line with the numbers of the answer (code, length, place) and, behind it, `length` bytes; of `check` the line `code place nodes fields` alone.
//! Another number is no entry: the text is empty.
//!
//! An entry is a function here and a definition in specs/Calls.antt, and a case of `run` and a member of `entries`.
#![tactic(auto)]

ghost use Rattle.std.specs.Prelude.{◌≡◌, ◌+◌, ◌*◌, ◌^◌, ◌<◌, ◌≤◌, min, length, take};
ghost use Rattle.cpl.specs.Read.{little};
ghost use Rattle.cpl.specs.ReadPlan.{read_file};
ghost use Rattle.rules.specs.Check.{finding};
ghost use Rattle.writer_parts.specs.Wrote.{Wrote};
ghost use Rattle.listing.specs.Lines.{Counts};
ghost use Rattle.calls.specs.Calls.{call_text, check_text, count_in, file_in, join_keys_text, list_call_text, list_plan_text, listed, most_asked, most_lent, numbers_text, prune_all_text, prune_text, request_in, said, spaced, text_of, without_keys_text};

// The number in two bytes of the input.
#[tactic(auto, unfolding(cpl::specs::Read::little))]
fn half_at(input: &[u8], at: usize) -> u16
    requires { at < 2 ^ 40 }
    ensures { (result ≡ little 2 input.now at) × (result < 65536) }
{
    let low = u16::from(listing::byte(input, at));
    let high = u16::from(listing::byte(input, at + 1));
    low + 256 * high
}

// The number in four bytes.
fn word_at(input: &[u8], at: usize) -> usize
    requires { at < 2 ^ 36 }
    ensures { (result ≡ little 4 input.now at) × (result < 2 ^ 32) }
{
    let low = usize::from(half_at(input, at));
    let high = usize::from(half_at(input, at + 2));
    low + 65536 * high
}

// A file whose length stands at an offset.
fn file_at(input: &[u8], at: usize) -> &[u8]
    requires { at < 2 ^ 36 }
    ensures { result.now ≡ file_in input.now at }
{
    let size = word_at(input, at).min(65536);
    let file = &input[input.len().min(at + 4)..];
    &file[..file.len().min(size)]
}

// How long an output is whose length stands at an offset.
fn room_at(input: &[u8], at: usize) -> usize
    requires { at < 2 ^ 36 }
    ensures { (result ≡ min (little 4 input.now at) most_lent) × (result ≤ 65536) }
{
    word_at(input, at).min(65536)
}

// How many indices a request has whose length stands at an offset: as many as it says, if they are there whole.
#[tactic(auto, unfolding(crate::specs::Calls::count_in))]
fn count_at(input: &[u8], at: usize) -> usize
    requires { at < 2 ^ 36 }
    ensures { result ≡ count_in input.now at }
{
    let behind = input.len().saturating_sub(at + 4);
    word_at(input, at).min(behind / 2)
}

// The first 513 indices of a request, in a lent array. A root has at most 512 fields, so that a longer request has a fault among them.
fn read_request<'a>(input: &[u8], at: usize, request: &'a mut [u16]) -> &'a [u16]
    requires { (at < 2 ^ 36) × (513 ≤ length request.old) }
    ensures { result.now ≡ take most_asked (request_in input.now at) }
{
    let count = count_at(input, at).min(513);
    for k in 0..count {
        request[k] = half_at(input, at + 4 + 2 * k);
    }
    &request[..count]
}

// A space and a number, for each of them.
fn write_others(out: &mut [u8], numbers: &[u64]) -> usize
    requires { 21 * length numbers.now ≤ length out.old }
    ensures wrote { Wrote (spaced numbers.now) out.old result out.new }
    ensures upper_bound { result ≤ 21 * length numbers.now }
{
    let mut at = 0;
    for &n in numbers {
        let next = listing::put_text(out, at, b" ");
        at = listing::put_number(out, next, n);
    }
    at
}

// The line of one number or more.
fn write_numbers(out: &mut [u8], numbers: &[u64]) -> usize
    requires { (0 < length numbers.now) × (21 * length numbers.now ≤ length out.old) }
    ensures wrote { Wrote (numbers_text numbers.now) out.old result out.new }
    ensures upper_bound { result ≤ 21 * length numbers.now }
{
    let a = listing::put_number(out, 0, numbers[0]);
    let n = write_others(&mut out[a..], &numbers[1..]);
    listing::put_text(out, a + n, b"\n")
}

// An answer: its line, and the bytes.
fn write_answer(text: &mut [u8], code: u8, place: usize, bytes: &[u8]) -> usize
    requires { (65600 ≤ length text.old) × (length bytes.now ≤ 65536) }
    ensures wrote { Wrote (text_of code place bytes.now) text.old result text.new }
    ensures counts { Counts result text.new }
{
    let numbers = [u64::from(code), bytes.len() as u64, place as u64];
    let at = write_numbers(text, &numbers);
    listing::put_text(text, at, bytes)
}

// 0: mode, mask, file, request, length of the output.
fn prune(input: &[u8], text: &mut [u8; 65600]) -> usize
    ensures wrote { Wrote (prune_text input.now) text.old result text.new }
    ensures counts { Counts result text.new }
{
    let mode = listing::byte(input, 1);
    let mask = half_at(input, 2);
    let file = file_at(input, 4);
    let at = 8 + word_at(input, 4);
    let mut indices = [0u16; 513];
    let request = read_request(input, at, &mut indices);
    let room = room_at(input, at + 4 + 2 * word_at(input, at));
    let mut out = [0u8; 65536];
    let a = pruner::prune(mode, mask, file, request, &mut out[..room]);
    write_answer(text, a.code, a.place, &out[..a.length])
}

// 1: mode, mask, file, length of the output.
fn prune_all(input: &[u8], text: &mut [u8; 65600]) -> usize
    ensures wrote { Wrote (prune_all_text input.now) text.old result text.new }
    ensures counts { Counts result text.new }
{
    let mode = listing::byte(input, 1);
    let mask = half_at(input, 2);
    let file = file_at(input, 4);
    let room = room_at(input, 8 + word_at(input, 4));
    let mut out = [0u8; 65536];
    let a = pruner::prune_all(mode, mask, file, &mut out[..room]);
    write_answer(text, a.code, a.place, &out[..a.length])
}

// 2: file.
fn check(input: &[u8], text: &mut [u8; 65600]) -> usize
    ensures wrote { Wrote (check_text input.now) text.old result text.new }
    ensures counts { Counts result text.new }
{
    let file = file_at(input, 1);
    let c = acceptance::check(file);
    let numbers = [
        u64::from(c.code),
        c.place as u64,
        c.nodes as u64,
        c.fields as u64,
    ];
    write_numbers(text, &numbers)
}

// 3: predicate, length of the output.
fn join_keys(input: &[u8], text: &mut [u8; 65600]) -> usize
    ensures wrote { Wrote (join_keys_text input.now) text.old result text.new }
    ensures counts { Counts result text.new }
{
    let predicate = file_at(input, 1);
    let room = room_at(input, 5 + word_at(input, 1));
    let mut out = [0u8; 65536];
    let a = predicate_keys::join_keys(predicate, &mut out[..room]);
    write_answer(text, a.code, a.place, &out[..a.length])
}

// 4: predicate, keys, length of the output.
fn without_keys(input: &[u8], text: &mut [u8; 65600]) -> usize
    ensures wrote { Wrote (without_keys_text input.now) text.old result text.new }
    ensures counts { Counts result text.new }
{
    let predicate = file_at(input, 1);
    let at = 5 + word_at(input, 1);
    let keys = file_at(input, at);
    let room = room_at(input, at + 4 + word_at(input, at));
    let mut out = [0u8; 65536];
    let a = predicate_keys::without_keys(predicate, keys, &mut out[..room]);
    write_answer(text, a.code, a.place, &out[..a.length])
}

// The listing of an accepted file, or the refusal.
fn list_file(file: &[u8], lines: &mut [u8; 16384], text: &mut [u8; 65600]) -> usize
    ensures wrote { Wrote (said (listed (finding (read_file file.now)))) text.old result text.new }
    ensures counts { Counts result text.new }
{
    let c = acceptance::check(file);
    if c.code > 0 {
        return write_answer(text, c.code, c.place, b"");
    }
    let n = listing::list(file, lines);
    write_answer(text, 0, 0, &lines[..n])
}

// 5: file.
fn list(input: &[u8], text: &mut [u8; 65600]) -> usize
    ensures wrote { Wrote (list_call_text input.now) text.old result text.new }
    ensures counts { Counts result text.new }
{
    let file = file_at(input, 1);
    let mut lines = [0u8; 16384];
    list_file(file, &mut lines, text)
}

// 6: file, length of the output.
fn list_plan(input: &[u8], text: &mut [u8; 65600]) -> usize
    ensures wrote { Wrote (list_plan_text input.now) text.old result text.new }
    ensures counts { Counts result text.new }
{
    let file = file_at(input, 1);
    let room = room_at(input, 5 + word_at(input, 1));
    let mut out = [0u8; 65536];
    let a = list_plan::list_plan(file, &mut out[..room]);
    write_answer(text, a.code, a.place, &out[..a.length])
}

/// The answer to a call, at the front of `text`; how many bytes it takes. The bytes of `text` behind them stay.
pub fn run(input: &[u8], text: &mut [u8; 65600]) -> usize
    ensures wrote { Wrote (call_text input.now) text.old result text.new }
    ensures counts { Counts result text.new }
{
    match listing::byte(input, 0) {
        0 => prune(input, text),
        1 => prune_all(input, text),
        2 => check(input, text),
        3 => join_keys(input, text),
        4 => without_keys(input, text),
        5 => list(input, text),
        6 => list_plan(input, text),
        _ => 0,
    }
}
