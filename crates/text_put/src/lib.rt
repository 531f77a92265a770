//! Text put into a lent buffer from a place on. Every function stores what lies in the buffer and counts all of it: lent an empty buffer, it counts.
#![tactic(auto)]

ghost use Rattle.std.specs.Prelude.{[], ◌∷◌, ◌≡◌};
ghost use Rattle.cpl.specs.Codes.{signed};
ghost use Rattle.cpl.specs.Plan.{pair};
ghost use Rattle.plan_text.specs.Write.{integer, number, pair_text, word};
ghost use Rattle.text_put.specs.Puts.{Puts};

/// A letter at `at`, where the buffer goes so far; the place after it.
pub fn put_byte(out: &mut [u8], at: usize, b: u8) -> usize
    ensures { Puts (word (b ∷ [])) at out.old result out.new }
{
    if at < out.len() {
        out[at] = b;
    }
    at.saturating_add(1)
}

/// A word from `at` on; the place after it.
pub fn put_text(out: &mut [u8], at: usize, s: &[u8]) -> usize
    ensures { Puts (word s.now) at out.old result out.new }
{
    let mut end = at;
    for &b in s {
        end = put_byte(out, end, b);
    }
    end
}

/// The decimal digits of n from `at` on; the place after them.
pub fn put_number(out: &mut [u8], at: usize, n: u64) -> usize
    ensures { Puts (number n) at out.old result out.new }
{
    if n < 10 {
        return put_byte(out, at, (48 + n) as u8);
    }
    let end = put_number(out, at, n / 10);
    put_byte(out, end, (48 + n % 10) as u8)
}

/// The number that 64 bits stand for, in decimal with a minus sign; the place after it.
pub fn put_integer(out: &mut [u8], at: usize, x: u64) -> usize
    ensures { Puts (integer (signed x)) at out.old result out.new }
{
    if x < 9223372036854775808 {
        return put_number(out, at, x);
    }
    let a = put_text(out, at, b"-");
    put_number(out, a, x.wrapping_neg())
}

/// A pair from `at` on, its qualifier first where it has one; the place after it.
pub fn put_pair(out: &mut [u8], at: usize, q: u16, n: u16) -> usize
    ensures { Puts (pair_text (pair q n)) at out.old result out.new }
{
    if q == 0 {
        let a = put_text(out, at, b"c");
        return put_number(out, a, u64::from(n));
    }
    let a = put_text(out, at, b"q");
    let b = put_number(out, a, u64::from(q));
    let c = put_text(out, b, b".c");
    put_number(out, c, u64::from(n))
}
