//! key_sets: keys as sets of places in a lent array, each in a slot of nine numbers: those of 16 tables, then those of 256 nodes.
//!
//! A key is the set of its columns' places; the empty set is no key.
#![tactic(auto)]

ghost use Rattle.std.specs.Prelude.{◌≡◌, false, ◌+◌, ◌*◌, ◌≤◌, length};
ghost use Rattle.required_indices.specs.Request.{Holds, set_of};
ghost use Rattle.key_sets.specs.Slots.{PutKey, SlotIn, node_slot, slot_at};

use required_indices::{RequiredIndices, WORDS};

// The numbers of a slot: how many words are in use, and these. `stored_n` of required_indices is the same.
const SLOT: usize = 1 + WORDS;

// The most tables of a catalogue: their slots come first.
const TABLES: usize = 16;

/// The slot of node `k`'s key; table t's is slot t.
pub fn node_slot(k: usize) -> usize
    requires { k ≤ 256 }
    ensures { result ≡ node_slot k }
{
    TABLES + k
}

/// The key in a slot, which lies in the array.
pub fn key_at(keys: &[u64], slot: usize) -> RequiredIndices
    requires { SlotIn keys.now slot }
    ensures { Holds result (slot_at keys.now slot) false }
{
    RequiredIndices::load(keys, slot * SLOT)
}

/// A key is put into a slot, which lies in the array.
pub fn put_key(keys: &mut [u64], slot: usize, key: RequiredIndices)
    requires { SlotIn keys.old slot }
    ensures { PutKey keys.old keys.new slot (set_of key) }
{
    key.store(keys, slot * SLOT);
}
