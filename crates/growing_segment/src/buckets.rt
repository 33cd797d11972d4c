//! Search trees in an array, each with the keys of one slot.

ghost use Rattle.std.specs.Prelude.{◌≡◌, ℤ, ◌+◌, ◌<◌, ◌≤◌, ◌^◌, length, vec_len, vec_capacity, IfOk};
ghost use Rattle.std.specs.Ordering.{int_cmp};
ghost use Rattle.std.specs.FinMap as fin;
ghost use Rattle.std.specs.FinMap.{find};
ghost use Rattle.growing_segment.specs.Trees.{with_entry, without_key, KeysRise};
ghost use Rattle.growing_segment.specs.Slots.{slot_of};
ghost use Rattle.growing_segment.specs.Buckets.{entries_in, or_else};

use crate::trees::{Node, Parts, Tree};
use row_types::{Key, Memory};
use std::alloc::Global;
use std::marker::Model;
use std::mem;

// The most trees that there may be.
const MOST_TREES: usize = 1 << 32;

/// Search trees in an array, each with the keys of one slot. Contracts see the map, and how many
/// nodes the trees have.
#[derive(Drop)]
pub struct Buckets {
    trees: Vec<Tree>,
    nodes: usize,
}

impl Model for Buckets {
    ghost use Rattle.std.specs.FinMap as fin;
    ghost use Rattle.growing_segment.specs.Buckets.{Held, held_code, entries_in, AreBuckets};

    ghost Value = { Held };

    ghost coded = { held_code };

    ghost view = { λ b. record { map = fin.from_entries (entries_in b.trees.items); nodes = b.nodes } };

    ghost invariant = { λ b. AreBuckets b.trees.items b.nodes };
}

impl Buckets {
    /// An array of `count` trees without keys.
    pub fn new(alloc: Global, count: usize) -> Result<Buckets, Memory>
        requires some { 0 < count }
        requires few { count ≤ 4294967296 }
        ensures map { IfOk result (λ b. b.map ≡ fin.empty) }
        ensures nodes { IfOk result (λ b. b.nodes ≡ 0) }
    {
        let mut trees = Vec::with_capacity(alloc, count)?;
        'trees: for _ in 0..count {
            trees.push_reserved(Tree::new());
        }
        Ok(Buckets { trees, nodes: 0 })
    }

    /// How many nodes the trees have.
    pub fn nodes(&self) -> usize
        ensures { result ≡ self.now.nodes }
    {
        self.nodes
    }

    /// The position of a key.
    pub fn find(&self, key: Key) -> Option<u64>
        ensures { result ≡ fin.get self.now.map key.0 }
    {
        let at = slot(key, self.trees.len());
        let tree = &self.trees[at];
        tree.find(key)
    }

    /// Sets the position of a key, by one of the spare nodes if the key is new.
    pub fn set(&mut self, spare: &mut Vec<Box<Node>>, key: Key, position: u64)
        requires room { 1 ≤ vec_len spare.old }
        requires few { self.old.nodes < 2 ^ 63 }
        ensures map { self.new.map ≡ fin.insert self.old.map key.0 position }
        ensures nodes { vec_len spare.new + self.new.nodes ≡ vec_len spare.old + self.old.nodes }
        ensures most { self.new.nodes ≤ self.old.nodes + 1 }
        ensures least { self.old.nodes ≤ self.new.nodes }
        ensures capacity { vec_capacity spare.new ≡ vec_capacity spare.old }
    {
        let before = spare.len();
        let at = slot(key, self.trees.len());
        put_in(&mut self.trees[at], spare, key, position);
        self.nodes += before - spare.len();
    }

    /// Takes a key out, if it is there; its node becomes spare.
    pub fn clear(&mut self, spare: &mut Vec<Box<Node>>, key: Key)
        requires room { vec_len spare.old + self.old.nodes ≤ vec_capacity spare.old }
        requires few { self.old.nodes < 2 ^ 63 }
        ensures map { self.new.map ≡ fin.remove self.old.map key.0 }
        ensures nodes { vec_len spare.new + self.new.nodes ≡ vec_len spare.old + self.old.nodes }
        ensures most { self.new.nodes ≤ self.old.nodes }
        ensures capacity { vec_capacity spare.new ≡ vec_capacity spare.old }
    {
        let before = spare.len();
        let at = slot(key, self.trees.len());
        take_out(&mut self.trees[at], spare, key);
        self.nodes -= spare.len() - before;
    }

    /// At least so many trees, or twice as many as there are if that is more, up to a limit. Want of
    /// memory leaves the trees as they were. Each node is set anew, so the call takes time for each.
    pub fn widen(
        &mut self,
        alloc: Global,
        spare: &mut Vec<Box<Node>>,
        least: usize,
    ) -> Result<(), Memory>
        requires room { vec_len spare.old + self.old.nodes ≤ vec_capacity spare.old }
        requires few { self.old.nodes < 2 ^ 63 }
        ensures map { self.new.map ≡ self.old.map }
        ensures nodes { vec_len spare.new + self.new.nodes ≡ vec_len spare.old + self.old.nodes }
        ensures most { self.new.nodes ≤ self.old.nodes }
        ensures capacity { vec_capacity spare.new ≡ vec_capacity spare.old }
    {
        let count = self.trees.len();
        if least <= count || count == MOST_TREES {
            return Ok(());
        }
        let wide = Buckets::new(alloc, least.max(2 * count).min(MOST_TREES))?;
        let narrow = mem::replace(self, wide);
        move_all(narrow.trees, self, spare);
        Ok(())
    }
}

// Sets the position of a key in a tree.
fn put_in(tree: &mut Tree, spare: &mut Vec<Box<Node>>, key: Key, position: u64)
    requires room { 1 ≤ vec_len spare.old }
    requires few { length tree.old.list < 2 ^ 63 }
    ensures list { tree.new.list ≡ with_entry (key.0, position) tree.old.list }
    ensures nodes { vec_len spare.new + length tree.new.list ≡ vec_len spare.old + length tree.old.list }
    ensures capacity { vec_capacity spare.new ≡ vec_capacity spare.old }
{
    let old = mem::replace(tree, Tree::new());
    *tree = old.with(spare, key, position);
}

// Takes a key out of a tree.
fn take_out(tree: &mut Tree, spare: &mut Vec<Box<Node>>, key: Key)
    requires room { vec_len spare.old + length tree.old.list ≤ vec_capacity spare.old }
    requires few { length tree.old.list < 2 ^ 63 }
    ensures rise { KeysRise tree.old.list }
    ensures list { tree.new.list ≡ without_key key.0 tree.old.list }
    ensures nodes { vec_len spare.new + length tree.new.list ≡ vec_len spare.old + length tree.old.list }
    ensures capacity { vec_capacity spare.new ≡ vec_capacity spare.old }
{
    let old = mem::replace(tree, Tree::new());
    *tree = old.without(spare, key);
}

// Sets each key of some trees, the last ones first; what stood there is overwritten.
fn move_all(mut trees: Vec<Tree>, into: &mut Buckets, spare: &mut Vec<Box<Node>>)
    requires room { vec_len spare.old + length (entries_in trees.items) ≤ vec_capacity spare.old }
    requires few { length (entries_in trees.items) + into.old.nodes < 2 ^ 63 }
    ensures found { (q : ℤ) → fin.get into.new.map q ≡ or_else (find int_cmp q (entries_in trees.items)) (fin.get into.old.map q) }
    ensures nodes { vec_len spare.new + into.new.nodes ≡ vec_len spare.old + into.old.nodes + length (entries_in trees.items) }
    ensures least { into.old.nodes ≤ into.new.nodes }
    ensures most { into.new.nodes ≤ into.old.nodes + length (entries_in trees.items) }
    ensures capacity { vec_capacity spare.new ≡ vec_capacity spare.old }
{
    'trees: while let Some(tree) = trees.pop() {
        scatter(tree, into, spare);
    }
}

// Sets each key of a tree, the last one first.
fn scatter(tree: Tree, into: &mut Buckets, spare: &mut Vec<Box<Node>>)
    requires room { vec_len spare.old + length tree.list ≤ vec_capacity spare.old }
    requires few { length tree.list + into.old.nodes < 2 ^ 63 }
    ensures found { (q : ℤ) → fin.get into.new.map q ≡ or_else (find int_cmp q tree.list) (fin.get into.old.map q) }
    ensures nodes { vec_len spare.new + into.new.nodes ≡ vec_len spare.old + into.old.nodes + length tree.list }
    ensures least { into.old.nodes ≤ into.new.nodes }
    ensures most { into.new.nodes ≤ into.old.nodes + length tree.list }
    ensures capacity { vec_capacity spare.new ≡ vec_capacity spare.old }
{
    let Some(Parts { node, left, right }) = tree.parts() else {
        return;
    };
    scatter(right, into, spare);
    let (key, position) = (node.key, node.position);
    spare.push_reserved(node);
    into.set(spare, key, position);
    scatter(left, into, spare);
}

// Where a key belongs among `count` trees.
fn slot(key: Key, count: usize) -> usize
    requires some { 0 < count }
    requires few { count ≤ 4294967296 }
    ensures place { result < count }
    ensures slot { result ≡ slot_of key.0 count }
{
    let bits = key.0.cast_unsigned();
    let mixed = (bits ^ (bits >> 32)).wrapping_mul(0x9E37_79B9_7F4A_7C15);
    ((mixed >> 32) as usize * count) >> 32
}
