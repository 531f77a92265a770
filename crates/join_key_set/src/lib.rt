//! Keys out of a predicate: `JoinKeySet`, `extract_possible_join_keys` and `remove_join_expressions`. Port of `join_key_set.rs` and of the
//! two functions of `eliminate_cross_join.rs`.
//!
//! Expressions are nodes of `cells`, laid out as in crate `arena`. A pair is two node numbers in `pairs`, at twice its own number, and a set is a
//! range of pairs in insertion order. The arrays are lent (document 01: no heap), and no set stands on the stack: the sides of an `or` are worked
//! out in the pairs behind the set being filled.
#![tactic(auto)]

ghost use Rattle.std.specs.Prelude.{◌≡◌, ℕ, ◌+◌, ◌*◌, ◌<◌, ◌≤◌, length};
ghost use Rattle.cpl.specs.Plan.{on};
ghost use Rattle.refusals.specs.Codes.{code_of};
ghost use Rattle.arena.specs.Cells.{expr_at, Wf};
ghost use Rattle.join_keys.specs.Keys.{contains, insert, insert_all, insert_intersection, is_pair};
ghost use Rattle.join_keys.specs.Extract.{extract_possible_join_keys};
ghost use Rattle.join_keys.specs.Flat.{equalities};
ghost use Rattle.join_keys.specs.Remove.{remove_join_expressions};
ghost use Rattle.join_key_set.specs.Pairs.{Behind, KeyIs, keys_at, KeysIn, KeysOk, put_key};
ghost use Rattle.join_key_set.specs.Answers.{FilledIn, Fills, first_alone, insert_common, joints, Leaves};

use arena::View;
use refusals::{Reason, Refusal};

/// The most pairs that a set can have.
pub const MAX_PAIRS: usize = 64;

// Numbers stay here: a stored node has its operator as a tag, a number of the lent array.
/// The tags of the operators that are looked into; `and` and `or` are the last of all.
const EQ: u64 = 8;

const AND: u64 = 10;

const OR: u64 = 11;

/// The two nodes of a pair.
#[derive(Clone, Copy)]
pub struct Key {
    pub left: usize,
    pub right: usize,
}

/// The nodes of pair `k`, which lies in the array.
pub fn key_at(pairs: &[u64], k: usize) -> Key
    requires { k * 2 + 1 < length pairs.now }
    ensures { KeyIs pairs.now k result.left result.right }
{
    let at = k * 2;
    Key {
        left: pairs[at] as usize,
        right: pairs[at + 1] as usize,
    }
}

/// Writes pair `k`, which lies in the array.
#[tactic(auto, unfolding(crate::specs::Pairs::put_key))]
pub fn put_key(pairs: &mut [u64], k: usize, left: usize, right: usize)
    requires { k * 2 + 1 < length pairs.old }
    ensures { pairs.new ≡ put_key pairs.old k left right }
{
    let at = k * 2;
    pairs[at] = left as u64;
    pairs[at + 1] = right as u64;
}

/// Are the expressions of nodes `left` and `right` those of nodes `a` and `b`? The nodes up to them are well formed.
#[tactic(auto, unfolding(join_keys::specs::Keys::is_pair))]
fn is_pair(cells: &[u64], left: usize, right: usize, a: usize, b: usize) -> bool
    requires wf { Wf cells.now (left + 1) × Wf cells.now (right + 1) }
    requires wf_2 { Wf cells.now (a + 1) × Wf cells.now (b + 1) }
    ensures { result ≡ is_pair (expr_at cells.now left) (expr_at cells.now right) (on (expr_at cells.now a) (expr_at cells.now b)) }
{
    arena::same_expr(cells, left, cells, a) && arena::same_expr(cells, right, cells, b)
}

// A range stays: the pairs lie in the lent array, where other sets are filled behind this one (document 01: no heap).
/// A set: `size` pairs from pair `start` on.
#[derive(Clone, Copy)]
pub struct JoinKeySet {
    pub start: usize,
    pub size: usize,
}

/// A set would hold over 64 pairs.
#[derive(Clone, Copy)]
pub struct Pairs;

/// Document 02's 18, without a place.
impl From<Pairs> for Refusal {
    ghost from_gives = { λ _ refusal. (code_of refusal.reason ≡ 18) × (refusal.place ≡ 0) };

    fn from(_: Pairs) -> Refusal {
        Refusal::new(Reason::Pairs, 0)
    }
}

impl JoinKeySet {
    /// An empty set.
    pub fn new(start: usize) -> JoinKeySet
        ensures { (result.start ≡ start) × (result.size ≡ 0) }
    {
        JoinKeySet { start, size: 0 }
    }

    /// Is the pair, or its mirror, in the set? The set's nodes and those of the pair are well formed.
    pub fn contains(self, cells: &[u64], pairs: &[u64], left: usize, right: usize) -> bool
        requires keys_ok { KeysOk cells.now pairs.now self.start self.size }
        requires wf { Wf cells.now (left + 1) × Wf cells.now (right + 1) }
        ensures { result ≡ contains (keys_at cells.now pairs.now self.start self.size) (expr_at cells.now left) (expr_at cells.now right) }
    {
        for i in 0..self.size {
            let key = key_at(pairs, self.start + i);
            if is_pair(cells, left, right, key.left, key.right) {
                return true;
            }
            if is_pair(cells, right, left, key.left, key.right) {
                return true;
            }
        }
        false
    }

    /// The set with the pair, where neither it nor its mirror is there. The set's nodes and those of the pair are well formed, and there is
    /// room for a pair behind the set: no other is written.
    pub fn insert(
        self,
        cells: &[u64],
        pairs: &mut [u64],
        left: usize,
        right: usize,
    ) -> Result<JoinKeySet, Pairs>
        requires keys_ok { KeysOk cells.now pairs.old self.start self.size }
        requires wf { Wf cells.now (left + 1) × Wf cells.now (right + 1) }
        requires size_in_bounds { (self.start + self.size + 1) * 2 ≤ length pairs.old }
        ensures fills { Fills (insert (expr_at cells.now left) (expr_at cells.now right) (keys_at cells.now pairs.old self.start self.size)) cells.now pairs.old self.start (self.size + 1) result pairs.new }
        ensures behind { Behind ((self.start + self.size + 1) * 2) pairs.old pairs.new }
        ensures by_index { (n : ℕ) → KeysIn n pairs.old self.start self.size → left < n → right < n → FilledIn n result pairs.new }
    {
        if self.contains(cells, pairs, left, right) {
            return Ok(self);
        }
        if self.size < MAX_PAIRS {
            put_key(pairs, self.start + self.size, left, right);
            return Ok(JoinKeySet {
                size: self.size + 1,
                ..self
            });
        }
        Err(Pairs)
    }

    /// The set with the pairs of `keys`, one after the other. `keys` stands behind the set, and may be written over.
    pub fn insert_all(
        self,
        cells: &[u64],
        pairs: &mut [u64],
        keys: JoinKeySet,
    ) -> Result<JoinKeySet, Pairs>
        requires keys_ok { KeysOk cells.now pairs.old self.start self.size }
        requires keys_ok_2 { KeysOk cells.now pairs.old keys.start keys.size }
        requires size_bound { self.start + self.size ≤ keys.start }
        ensures fills { Fills (insert_all (keys_at cells.now pairs.old keys.start keys.size) (keys_at cells.now pairs.old self.start self.size)) cells.now pairs.old self.start (self.size + keys.size) result pairs.new }
        ensures by_index { (n : ℕ) → KeysIn n pairs.old self.start self.size → KeysIn n pairs.old keys.start keys.size → FilledIn n result pairs.new }
    {
        let mut set = self;
        for i in 0..keys.size {
            let key = key_at(pairs, keys.start + i);
            set = set.insert(cells, pairs, key.left, key.right)?;
        }
        Ok(set)
    }

    /// The set with the pair, if `s2` has it too. As `insert`; the nodes of `s2` are well formed too.
    fn insert_common(
        self,
        cells: &[u64],
        pairs: &mut [u64],
        s2: JoinKeySet,
        left: usize,
        right: usize,
    ) -> Result<JoinKeySet, Pairs>
        requires keys_ok { KeysOk cells.now pairs.old self.start self.size }
        requires keys_ok_2 { KeysOk cells.now pairs.old s2.start s2.size }
        requires wf { Wf cells.now (left + 1) × Wf cells.now (right + 1) }
        requires size_in_bounds { (self.start + self.size + 1) * 2 ≤ length pairs.old }
        ensures fills { Fills (insert_common (keys_at cells.now pairs.old s2.start s2.size) (expr_at cells.now left) (expr_at cells.now right) (keys_at cells.now pairs.old self.start self.size)) cells.now pairs.old self.start (self.size + 1) result pairs.new }
        ensures behind { Behind ((self.start + self.size + 1) * 2) pairs.old pairs.new }
    {
        if s2.contains(cells, pairs, left, right) {
            return self.insert(cells, pairs, left, right);
        }
        Ok(self)
    }

    // Apart from `insert_all`, as in the Rust: one function for both would take a second set that one of them has not.
    /// The set with the pairs of `s1` that `s2` has too. `s1` stands behind the set, and may be written over; `s2` stands behind `s1`.
    pub fn insert_intersection(
        self,
        cells: &[u64],
        pairs: &mut [u64],
        s1: JoinKeySet,
        s2: JoinKeySet,
    ) -> Result<JoinKeySet, Pairs>
        requires keys_ok { KeysOk cells.now pairs.old self.start self.size }
        requires keys_ok_2 { KeysOk cells.now pairs.old s1.start s1.size }
        requires keys_ok_3 { KeysOk cells.now pairs.old s2.start s2.size }
        requires size_bound { (self.start + self.size ≤ s1.start) × (s1.start + s1.size ≤ s2.start) }
        ensures { Fills (insert_intersection (keys_at cells.now pairs.old s1.start s1.size) (keys_at cells.now pairs.old s2.start s2.size) (keys_at cells.now pairs.old self.start self.size)) cells.now pairs.old self.start (self.size + s1.size) result pairs.new }
    {
        let mut set = self;
        for i in 0..s1.size {
            let key = key_at(pairs, s1.start + i);
            set = set.insert_common(cells, pairs, s2, key.left, key.right)?;
        }
        Ok(set)
    }
}

/// The set with the keys of the predicate of node `node`: an equality is a key; `and` gives the keys of both sides; `or` those that each side
/// gives alone. The nodes up to it and the set's are well formed, and behind the set there is room for a pair for each equality.
pub fn extract_possible_join_keys(
    cells: &[u64],
    pairs: &mut [u64],
    keys: JoinKeySet,
    node: usize,
) -> Result<JoinKeySet, Pairs>
    requires wf { Wf cells.now (node + 1) }
    requires keys_ok { KeysOk cells.now pairs.old keys.start keys.size }
    requires node_in_bounds { (keys.start + keys.size + equalities (expr_at cells.now node)) * 2 ≤ length pairs.old }
    ensures { Fills (extract_possible_join_keys (expr_at cells.now node) (keys_at cells.now pairs.old keys.start keys.size)) cells.now pairs.old keys.start (keys.size + equalities (expr_at cells.now node)) result pairs.new }
{
    match arena::node_at(cells, node) {
        View::Col(_, _) | View::Lit(_) | View::Miss | View::One(_, _) => Ok(keys),
        View::Two(t, left, right) => {
            if t == EQ {
                return keys.insert(cells, pairs, left, right);
            }
            if t == AND {
                let more = extract_possible_join_keys(cells, pairs, keys, left)?;
                return extract_possible_join_keys(cells, pairs, more, right);
            }
            if t == OR {
                let behind = JoinKeySet::new(keys.start + keys.size);
                let left_join_keys = extract_possible_join_keys(cells, pairs, behind, left)?;
                let behind = JoinKeySet::new(left_join_keys.start + left_join_keys.size);
                let right_join_keys = extract_possible_join_keys(cells, pairs, behind, right)?;
                return keys.insert_intersection(cells, pairs, left_join_keys, right_join_keys);
            }
            Ok(keys)
        }
    }
}

/// What is left of a predicate, and the nodes in use.
#[derive(Clone, Copy)]
pub struct Left {
    /// The node of what is left, if anything is.
    pub node: Option<usize>,
    pub used: usize,
}

/// The node that is left of an `and` or `or`, by its tag, where only node `l` of its first side is left.
#[tactic(auto, unfolding(crate::specs::Answers::first_alone))]
fn first_alone(tag: u64, l: usize) -> Option<usize>
    ensures { result ≡ first_alone tag l }
{
    if tag == OR {
        return None;
    }
    Some(l)
}

/// What is left of the predicate of node `node` without the keys: an equality that is a key goes; of an `and` what is left of either side is
/// left; of an `or` nothing where nothing is left of a side. An `and` or `or` of which both sides are left takes a node behind the `used`. Those
/// are well formed and hold the predicate and the keys, and there is room for a node for each `and` and `or`.
pub fn remove_join_expressions(
    cells: &mut [u64],
    used: usize,
    node: usize,
    pairs: &[u64],
    keys: JoinKeySet,
) -> Left
    requires wf { Wf cells.old used × (node < used) }
    requires keys_in { KeysIn used pairs.now keys.start keys.size }
    requires node_in_bounds { (used + joints (expr_at cells.old node)) * 3 ≤ length cells.old }
    ensures { Leaves (remove_join_expressions (keys_at cells.old pairs.now keys.start keys.size) (expr_at cells.old node)) cells.old used (joints (expr_at cells.old node)) result cells.new }
{
    let whole = Left {
        node: Some(node),
        used,
    };
    match arena::node_at(cells, node) {
        View::Col(_, _) | View::Lit(_) | View::Miss | View::One(_, _) => whole,
        View::Two(t, left, right) => {
            if t == EQ && keys.contains(cells, pairs, left, right) {
                return Left { node: None, used };
            }
            if t < AND {
                return whole;
            }
            let first = remove_join_expressions(cells, used, left, pairs, keys);
            let Some(l) = first.node else {
                if t == OR {
                    return first;
                }
                return remove_join_expressions(cells, first.used, right, pairs, keys);
            };
            let second = remove_join_expressions(cells, first.used, right, pairs, keys);
            let Some(r) = second.node else {
                return Left {
                    node: first_alone(t, l),
                    used: second.used,
                };
            };
            let both = arena_build::push(cells, second.used, t, l as u64, r as u64).unwrap();
            Left {
                node: Some(both.node),
                used: both.used,
            }
        }
    }
}
