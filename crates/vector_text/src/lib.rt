//! vector_text: the fields of a stored vector. A vector is a line of text with one space between its fields: decimal numbers, lists of
//! them, bytes in hexadecimal. For programs that replay vectors. What is not of the form that is asked for is `None`: nothing is guessed.
#![tactic(auto)]

ghost use Rattle.std.specs.Prelude.{true, ◌≡◌, ◌<◌, MatchOption};
ghost use Rattle.vector_text.specs.Text.{byte_of, bytes_of, digit_of, field_of, list_of, number_of, short_of, Stored};

// The value of a hexadecimal digit.
#[tactic(auto, unfolding(crate::specs::Text::digit_of))]
fn digit(b: u8) -> Option<u8>
    ensures { MatchOption result (digit_of b ≡ 16) (λ d. (d ≡ digit_of b) × (d < 16)) }
{
    match b {
        b'0'..=b'9' => Some(b - b'0'),
        b'a'..=b'f' => Some(b - b'a' + 10),
        _ => None,
    }
}

/// Field k of a line, from 0 on; past the last field, nothing.
pub fn field<'a>(line: &'a [u8], k: usize) -> &'a [u8]
    ensures { result.now ≡ field_of k line.now }
{
    line.split(|&b| b == b' ').nth(k).unwrap_or(&[])
}

/// A decimal number of one digit or more, below 1,000,000,000.
pub fn number(text: &[u8]) -> Option<usize>
    ensures { result ≡ number_of text.now }
{
    if text.is_empty() {
        return None;
    }
    let mut value: usize = 0;
    for &b in text {
        let d = digit(b)?;
        if 9 < d {
            return None;
        }
        if 99999999 < value {
            return None;
        }
        value = value * 10 + usize::from(d);
    }
    Some(value)
}

// A number below 65,536.
fn short(text: &[u8]) -> Option<u16>
    ensures { result ≡ short_of text.now }
{
    let n = number(text)?;
    u16::try_from(n).ok()
}

/// A list of numbers below 65,536 with commas between them, or `-` for none: stored at the front of `out`, which must have room for all.
/// The answer is how many they are.
pub fn list(text: &[u8], out: &mut [u16]) -> Option<usize>
    ensures { Stored (list_of text.now) out.old out.new result }
{
    if text == b"-".as_slice() {
        return Some(0);
    }
    let mut n = 0;
    for piece in text.split(|&b| b == b',') {
        let x = short(piece)?;
        if out.len() <= n {
            return None;
        }
        out[n] = x;
        n += 1;
    }
    Some(n)
}

// The byte of two hexadecimal digits.
#[tactic(auto, unfolding(crate::specs::Text::byte_of))]
fn hex(high: u8, low: u8) -> Option<u8>
    ensures { result ≡ byte_of high low }
{
    let h = digit(high)?;
    let l = digit(low)?;
    Some(h * 16 + l)
}

/// Bytes of two hexadecimal digits each, one at least, or `-` for none: stored at the front of `out`, which must have room for all. The
/// answer is how many they are.
pub fn bytes(text: &[u8], out: &mut [u8]) -> Option<usize>
    ensures { Stored (bytes_of text.now) out.old out.new result }
{
    if text == b"-".as_slice() {
        return Some(0);
    }
    if text.is_empty() {
        return None;
    }
    let n = text.len() / 2;
    for i in 0..n {
        let x = hex(text[2 * i], text[2 * i + 1])?;
        if out.len() <= i {
            return None;
        }
        out[i] = x;
    }
    if text.len() % 2 == 1 { None } else { Some(n) }
}

/// Is field k of a line that word?
pub fn is_word(line: &[u8], k: usize, word: &[u8]) -> bool
    ensures { (result ≡ true → field_of k line.now ≡ word.now) × (field_of k line.now ≡ word.now → result ≡ true) }
{
    field(line, k) == word
}

/// The number that field k of a line is.
pub fn number_at(line: &[u8], k: usize) -> Option<usize>
    ensures { result ≡ number_of (field_of k line.now) }
{
    number(field(line, k))
}

/// The list that field k of a line is.
pub fn list_at(line: &[u8], k: usize, out: &mut [u16]) -> Option<usize>
    ensures { Stored (list_of (field_of k line.now)) out.old out.new result }
{
    list(field(line, k), out)
}

/// The bytes that field k of a line is.
pub fn bytes_at(line: &[u8], k: usize, out: &mut [u8]) -> Option<usize>
    ensures { Stored (bytes_of (field_of k line.now)) out.old out.new result }
{
    bytes(field(line, k), out)
}
