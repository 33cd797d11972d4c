//! Where each live key's row was put.

ghost use Rattle.std.specs.Prelude.{◌≡◌, ◌+◌, ◌≤◌, vec_len, vec_capacity, IfOk, OnOk};
ghost use Rattle.std.specs.FinMap as fin;

use crate::buckets::Buckets;
use crate::trees::Node;
use row_types::{Key, Memory};
use std::alloc::Global;
use std::marker::Model;

// How many trees an index begins with.
const FIRST_TREES: usize = 16;

/// A finite map from keys to positions. Contracts see the map, and how many more keys it takes
/// without memory. Every call costs the logarithm of the number of keys, whatever the keys are.
#[derive(Drop)]
pub struct KeyIndex {
    buckets: Buckets,
    spare: Vec<Box<Node>>,
}

impl Model for KeyIndex {
    ghost use Rattle.std.specs.Prelude.{◌+◌, ◌≤◌, ◌^◌, length, vec_len, vec_capacity};
    ghost use Rattle.std.specs.FinMap as fin;
    ghost use Rattle.growing_segment.specs.KeyMaps.{KeyMap, key_map_code};

    ghost Value = { KeyMap };

    ghost coded = { key_map_code };

    ghost view = { λ i. record { map = i.buckets.map; spare = vec_len i.spare } };

    ghost use Rattle.growing_segment.specs.Kept.{IsIndex};

    ghost invariant = { λ i. IsIndex i.buckets.nodes (vec_len i.spare) (vec_capacity i.spare) };
}

impl KeyIndex {
    /// The map without keys. Want of memory is the only error.
    pub fn new(alloc: Global) -> Result<KeyIndex, Memory>
        ensures { IfOk result (λ index. index.map ≡ fin.empty) }
    {
        let buckets = Buckets::new(alloc, FIRST_TREES)?;
        Ok(KeyIndex {
            buckets,
            spare: Vec::new(alloc),
        })
    }

    /// Room for `n` more keys. Want of memory leaves the map as it was.
    pub fn reserve(&mut self, alloc: Global, n: u32) -> Result<(), Memory>
        ensures room { OnOk result (n ≤ self.new.spare) }
        ensures map { self.new.map ≡ self.old.map }
        ensures spare { self.old.spare ≤ self.new.spare }
    {
        let more = (n as usize).saturating_sub(self.spare.len());
        self.spare.reserve(self.buckets.nodes() + more)?;
        let nodes = self.buckets.nodes() + self.spare.len() + more;
        self.buckets.widen(alloc, &mut self.spare, nodes)?;
        add_nodes(alloc, &mut self.spare, more)
    }

    /// The position of a key, or None exactly where the map does not have it.
    pub fn find(&self, key: Key) -> Option<u64>
        ensures { result ≡ fin.get self.now.map key.0 }
    {
        self.buckets.find(key)
    }

    /// Sets the position of a key, which the map may have already; takes no memory.
    pub fn set(&mut self, key: Key, position: u64)
        requires { 1 ≤ self.old.spare }
        ensures map { self.new.map ≡ fin.insert self.old.map key.0 position }
        ensures spare { self.old.spare ≤ self.new.spare + 1 }
    {
        self.buckets.set(&mut self.spare, key, position);
    }

    /// Takes a key out of the map, if the map has it; takes no memory.
    pub fn clear(&mut self, key: Key)
        ensures map { self.new.map ≡ fin.remove self.old.map key.0 }
        ensures spare { self.old.spare ≤ self.new.spare }
    {
        self.buckets.clear(&mut self.spare, key);
    }
}

// Makes `n` more spare nodes. Want of memory leaves those that were made.
fn add_nodes(alloc: Global, spare: &mut Vec<Box<Node>>, n: usize) -> Result<(), Memory>
    requires { vec_len spare.old + n ≤ vec_capacity spare.old }
    ensures ok { OnOk result (vec_len spare.new ≡ vec_len spare.old + n) }
    ensures least { vec_len spare.old ≤ vec_len spare.new }
    ensures most { vec_len spare.new ≤ vec_len spare.old + n }
    ensures capacity { vec_capacity spare.new ≡ vec_capacity spare.old }
{
    'nodes: for _ in 0..n {
        let node = Box::new(alloc, Node::blank())?;
        spare.push_reserved(node);
    }
    Ok(())
}
