//! required_indices: the set of field indices that are asked of a plan node. Port of
//! `optimize_projections/required_indices.rs`.
//!
//! The Rust keeps a sorted `Vec` of indices. Here a set over 512 indices stands in eight words: index
//! i is in it where digit i of the words, the lowest word first, is 1. Only the first `used` words
//! count, and every loop goes over these: what the others hold does not matter. Every contract says
//! what a set is by `set_of`, the number that its words hold; `proofs/Methods.antt` says the same by masks.
//!
//! A function that only reads a set is lent it, as `insert` is to change it in place: a set is not copied where it is looked at.
#![tactic(auto)]

ghost use Rattle.std.specs.Prelude.{◌≡◌, ℕ, true, false, ◌++◌, ◌+◌, ◌-◌, ◌*◌, ◌/◌, ◌%◌, ◌^◌, ◌≤◌, ◌<◌, min, eqb, get_or, length, replicate, take};
ghost use Rattle.std.proofs.Common.{Fits};
ghost use Rattle.std.specs.Int.{w64};
ghost use Rattle.std.specs.Int.Bits.{bit_or};
ghost use Rattle.std.specs.Int.Count.{ones};
ghost use Rattle.std.proofs.Math.Seq.{paste};
ghost use Rattle.required_indices.specs.Set.{has};
ghost use Rattle.required_indices.specs.Words.{number};
ghost use Rattle.required_indices.specs.Request.{words_n, set_in, set_of, flag_of, Holds, IsNext, Lent, stored, stored_n, stored_at};

/// The number of words; `words_n` of specs/Request.antt is the same.
pub const WORDS: usize = 8;

// The number of indices that a set can have.
const INDICES: usize = WORDS * 64;

/// The Rust's `RequiredIndices`: indices in order and without duplicates, and whether putting a
/// projection above the children is beneficial for the parent: 1 where it is, a word as the others are, so
/// that a set is copied in one piece. `used` is the number of words that count.
#[derive(Clone, Copy)]
pub struct RequiredIndices {
    pub indices: [u64; WORDS],
    pub used: usize,
    projection_beneficial: u64,
}

/// A set split at n: the indices below n, and the others less n.
#[derive(Clone, Copy)]
pub struct Split {
    pub below: RequiredIndices,
    pub rest: RequiredIndices,
}

// The n lowest digits of a word, all 64 where n is more.
fn low_bits(n: usize) -> u64
    ensures { result ≡ 2 ^ min n 64 - 1 }
{
    if n < 64 { (1u64 << n) - 1 } else { u64::MAX }
}

// The n lowest digits of a word, as the uppermost of the word below it.
fn carry(w: u64, n: usize) -> u64
    requires { n < 64 }
    ensures { result ≡ (w % 2 ^ n) * 2 ^ (64 - n) }
{
    if n == 0 { 0 } else { w << (64 - n) }
}

// How many words the indices below n take, of the words that there are.
fn words_for(n: usize) -> usize
    ensures { result ≡ min ((n + 63) / 64) words_n }
{
    if n < INDICES { (n + 63) / 64 } else { WORDS }
}

// Word k of the first n, and 0 past them.
fn word(words: &[u64], n: usize, k: usize) -> u64
    requires { n ≤ length words.now }
    ensures { result ≡ get_or (take n words.now) k 0 }
{
    if k < n { words[k] } else { 0 }
}

// Word k of the first n behind up words of 0, and 0 past them.
fn word_behind(words: &[u64], n: usize, up: usize, k: usize) -> u64
    requires { n ≤ length words.now }
    ensures { result ≡ get_or (replicate up 0 ++ take n words.now) k 0 }
{
    if k < up { 0 } else { word(words, n, k - up) }
}

// How many of the first n words are needed: one less where the last of them is 0.
fn trimmed(words: &[u64; WORDS], n: usize) -> usize
    requires { n ≤ words_n }
    ensures { number (take result words.now) ≡ number (take n words.now) }
{
    if n > 0 && words[n - 1] == 0 { n - 1 } else { n }
}

// Whether i is in the set that the first `used` of these words hold.
fn has_in(words: &[u64], used: usize, i: usize) -> bool
    requires { length words.now ≡ words_n }
    ensures { result ≡ has (set_in words.now used) i }
{
    let w = word(words, used.min(WORDS), i / 64);
    (w >> (i % 64)) % 2 == 1
}

// How many indices the set has that the first `used` of these words hold.
fn count_in(words: &[u64], used: usize) -> usize
    requires { length words.now ≡ words_n }
    ensures { result ≡ ones (set_in words.now used) }
{
    let last = used.min(WORDS);
    let mut n: usize = 0;
    for k in 0..last {
        n += words[k].count_ones() as usize;
    }
    n
}

// The first index at or above from of the set that the first `used` of these words hold.
fn next_in(words: &[u64], used: usize, from: usize) -> Option<usize>
    requires { length words.now ≡ words_n }
    ensures { IsNext (set_in words.now used) from result }
{
    let last = used.min(WORDS);
    let mut at = from % 64;
    for k in from / 64..last {
        let w = words[k] >> at;
        if w != 0 {
            return Some(k * 64 + at + w.trailing_zeros() as usize);
        }
        at = 0;
    }
    None
}

// The index i added to the set that the first `used` of these words hold; answers how many words are then in use.
fn insert_in(words: &mut [u64], used: usize, i: usize) -> usize
    requires long { length words.old ≡ words_n }
    requires i_bound { i < words_n * 64 }
    ensures kept_long { length words.new ≡ words_n }
    ensures fits { (j : ℕ) → Fits w64 (get_or words.new j 0) }
    ensures added { set_in words.new result ≡ bit_or (set_in words.old used) (2 ^ i) }
{
    let k = i / 64;
    let n = used.min(WORDS);
    let end = n.max(k + 1);
    words[n..end].fill(0);
    words[k] |= 1u64 << (i % 64);
    end
}

impl RequiredIndices {
    /// No index. Rust: `new`.
    pub fn new() -> Self
        ensures { Holds result 0 false }
    {
        Self {
            indices: [0u64; WORDS],
            used: 0,
            projection_beneficial: 0,
        }
    }

    /// Every index below width. Rust: `new_for_all_exprs`, which takes the width from the plan's
    /// schema. Requires a width of at most 512, which every plan that was accepted has.
    pub fn new_for_all_exprs(width: usize) -> Self
        requires { width ≤ words_n * 64 }
        ensures { Holds result (2 ^ width - 1) false }
    {
        let mut out = RequiredIndices::new();
        let n = words_for(width);
        out.used = n;
        for k in 0..n {
            out.indices[k] = low_bits(width.saturating_sub(k * 64));
        }
        out
    }

    /// The same set, with the flag set. Rust: `with_projection_beneficial`.
    pub fn with_projection_beneficial(mut self) -> Self
        ensures { Holds result (set_of self) true }
    {
        self.projection_beneficial = 1;
        self
    }

    /// The flag. Rust: `projection_beneficial`.
    pub fn projection_beneficial(self) -> bool
        ensures { result ≡ flag_of self }
    {
        self.projection_beneficial == 1
    }

    /// Whether i is in a set. Rust: `indices().contains(&i)`.
    pub fn contains(&self, i: usize) -> bool
        ensures { result ≡ has (set_of self.now) i }
    {
        has_in(&self.indices, self.used, i)
    }

    /// The index i added; the flag stays. Requires an index below 512.
    pub fn with_index(mut self, i: usize) -> Self
        requires { i < words_n * 64 }
        ensures { Holds result (bit_or (set_of self) (2 ^ i)) (flag_of self) }
    {
        self.insert(i);
        self
    }

    /// The index i added in place; the flag stays. Rust: the push and `compact` of `add_expr`. Requires an index below 512, which every
    /// field's is.
    pub fn insert(&mut self, i: usize)
        requires { i < words_n * 64 }
        ensures holds { Holds self.new (bit_or (set_of self.old) (2 ^ i)) (flag_of self.old) }
        ensures lent { Lent self.new.indices }
    {
        self.used = insert_in(&mut self.indices, self.used, i);
    }

    /// All indices of other added; the flag stays. Rust: `append`.
    pub fn append(self, other: RequiredIndices) -> Self
        ensures { Holds result (bit_or (set_of self) (set_of other)) (flag_of self) }
    {
        let mut out = self;
        let a = self.used.min(WORDS);
        let b = other.used.min(WORDS);
        let n = a.max(b);
        out.used = n;
        for k in 0..n {
            let w = word(&self.indices, a, k);
            let v = word(&other.indices, b, k);
            out.indices[k] = w | v;
        }
        out
    }

    /// How many indices there are. Rust: `indices().len()`.
    pub fn len(&self) -> usize
        ensures { result ≡ ones (set_of self.now) }
    {
        count_in(&self.indices, self.used)
    }

    /// The first index at or above from. Rust: a turn of `indices().iter()`.
    pub fn next(&self, from: usize) -> Option<usize>
        ensures { IsNext (set_of self.now) from result }
    {
        next_in(&self.indices, self.used, from)
    }

    /// The indices below n, and the others less n; both keep the flag. Rust: `split_off`.
    pub fn split_off(self, n: usize) -> Split
        ensures holds { Holds result.below (set_of self % 2 ^ n) (flag_of self) }
        ensures holds_2 { Holds result.rest (set_of self / 2 ^ n) (flag_of self) }
    {
        let below = self.below(n);
        let rest = self.slide(0, n);
        Split { below, rest }
    }

    /// The indices, and those of rest each more by n; the flag stays. The inverse of `split_off`. Requires
    /// that the moved indices are below 512, as they are where rest is over at most 512 - n fields.
    pub fn followed_by(self, n: usize, rest: RequiredIndices) -> Self
        requires { set_of rest * 2 ^ n < 2 ^ (words_n * 64) }
        ensures { Holds result (bit_or (set_of self) (set_of rest * 2 ^ n)) (flag_of self) }
    {
        let moved = rest.slide(n / 64 + 1, 64 - n % 64);
        self.append(moved)
    }

    // The indices below n. Rust: the first half of `partition`.
    fn below(self, n: usize) -> RequiredIndices
        ensures { Holds result (set_of self % 2 ^ n) (flag_of self) }
    {
        let mut out = self;
        let last = self.used.min(words_for(n));
        out.used = last;
        for k in 0..last {
            out.indices[k] = self.indices[k] & low_bits(n.saturating_sub(k * 64));
        }
        out
    }

    // The indices, each more by up * 64 and then less n; those that are below n by then are left out. By
    // it the second half of the Rust's `partition` with `map_indices`, and its inverse.
    fn slide(self, up: usize, n: usize) -> RequiredIndices
        requires up_bound { up ≤ 2 ^ 60 }
        requires n_bound { set_of self * 2 ^ (up * 64) / 2 ^ n < 2 ^ (words_n * 64) }
        ensures { Holds result (set_of self * 2 ^ (up * 64) / 2 ^ n) (flag_of self) }
    {
        let mut out = self;
        let q = n / 64;
        let m = n % 64;
        let a = self.used.min(WORDS);
        let last = (a + up).saturating_sub(q).min(WORDS);
        for k in 0..last {
            let w = word_behind(&self.indices, a, up, q + k);
            let v = word_behind(&self.indices, a, up, q + k + 1);
            out.indices[k] = (w >> m) | carry(v, m);
        }
        out.used = trimmed(&out.indices, last);
        out
    }

    /// Whether the two sets have the same indices. Rust: `==` of `indices()`. No `PartialEq`: a derive compares words that do not count,
    /// and `==` by this alone calls requests equal that differ in the flag.
    pub fn equals(self, other: RequiredIndices) -> bool
        ensures { result ≡ eqb (set_of self) (set_of other) }
    {
        let a = self.used.min(WORDS);
        let b = other.used.min(WORDS);
        let n = a.max(b);
        (0..n).all(|k| word(&self.indices, a, k) == word(&other.indices, b, k))
    }

    /// Whether there is no index. Rust: `indices().is_empty()`.
    pub fn is_empty(self) -> bool
        ensures { result ≡ eqb (set_of self) 0 }
    {
        self.equals(RequiredIndices::new())
    }

    /// Whether each index of other is in the set. Rust: `iter().all(|i| indices().contains(i))`.
    pub fn contains_all(self, other: RequiredIndices) -> bool
        ensures { result ≡ eqb (bit_or (set_of other) (set_of self)) (set_of self) }
    {
        let both = other.append(self);
        both.equals(self)
    }

    /// The set stored from `at` on: how many words are in use, and these. Requires room for all words. The
    /// flag is not stored.
    pub fn store(&self, words: &mut [u64], at: usize)
        requires { at + stored_n ≤ length words.old }
        ensures { words.new ≡ paste words.old at (stored self.now) (length (stored self.now)) }
    {
        let last = self.used.min(WORDS);
        words[at] = last as u64;
        words[at + 1..at + 1 + last].copy_from_slice(&self.indices[..last]);
    }

    /// The set that is stored from `at` on, without the flag.
    pub fn load(words: &[u64], at: usize) -> Self
        requires { at + stored_n ≤ length words.now }
        ensures { Holds result (stored_at words.now at) false }
    {
        let mut indices = [0u64; WORDS];
        let used = (words[at] as usize).min(WORDS);
        indices[..used].copy_from_slice(&words[at + 1..at + 1 + used]);
        Self {
            indices,
            used,
            projection_beneficial: 0,
        }
    }
}
