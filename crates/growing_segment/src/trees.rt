//! Search trees of keys, kept balanced, whose nodes are made beforehand.

ghost use Rattle.std.specs.Prelude.{◌≡◌, ◌+◌, ◌≤◌, ◌<◌, ◌^◌, max, [], ◌∷◌, ◌++◌, length};
ghost use Rattle.std.specs.Prelude.{vec_len, vec_capacity, IfSome, IsNone, int_lt};
ghost use Rattle.std.specs.Ordering.{int_cmp};
ghost use Rattle.std.specs.FinMap.{find};
ghost use Rattle.growing_segment.specs.Trees.{Entries, KeysRise, DifferByAtMost, IsHeightOf, IsNode, with_entry, without_key};

use row_types::Key;
use std::marker::Model;
use std::mem;

/// A search tree of keys. The heights of a node's sides differ by at most one.
#[cycle(tree)]
#[derive(Drop)]
pub struct Tree {
    root: Link,
}

#[cycle(tree)]
#[derive(Drop)]
enum Link {
    Leaf,
    Fork(Box<Node>),
}

/// A node: a key with its position, between the lower keys and the higher ones.
#[cycle(tree)]
#[derive(Drop)]
pub struct Node {
    left: Tree,
    pub key: Key,
    pub position: u64,
    height: u64,
    right: Tree,
}

impl Model for Tree {
    ghost use Rattle.std.specs.Prelude.{length};
    ghost use Rattle.growing_segment.specs.Trees.{Entries};

    ghost Value = { Entries };

    ghost use Rattle.growing_segment.specs.Nodes.{entries_of, IsTree};

    ghost view = { λ t. entries_of t.root };

    ghost invariant = { λ t. IsTree t.root };

    ghost size = { λ e. length e.list };

    ghost use Rattle.std.proofs.Common.{arith, length-append};

    ghost size_decreases = { λ a h. Prim.grind (arith, length-append) };
}

impl Node {
    /// A node that stands in no tree yet.
    pub fn blank() -> Node {
        Node {
            left: Tree::new(),
            key: Key(0),
            position: 0,
            height: 0,
            right: Tree::new(),
        }
    }
}

impl Tree {
    /// The tree without keys.
    pub fn new() -> Tree
        ensures list { result.list ≡ [] }
        ensures height { result.height ≡ 0 }
    {
        Tree { root: Link::Leaf }
    }

    /// How many nodes stand above one another at most.
    pub fn height(&self) -> u64
        ensures height { result ≡ self.now.height }
        ensures low { self.now.height ≤ length self.now.list }
    {
        match &self.root {
            Link::Leaf => 0,
            Link::Fork(node) => node.height,
        }
    }

    /// The position of a key.
    pub fn find(&self, key: Key) -> Option<u64>
        ensures { result ≡ find int_cmp key.0 self.now.list }
    {
        let mut tree = self;
        'down: while let Link::Fork(node) = &tree.root {
            if is_below(key, node.key) {
                tree = &node.left;
            } else if is_below(node.key, key) {
                tree = &node.right;
            } else {
                return Some(node.position);
            }
        }
        None
    }

    /// The tree with the position of a key set, by one of the spare nodes if the key is new.
    pub fn with(self, spare: &mut Vec<Box<Node>>, key: Key, position: u64) -> Tree
        requires room { 1 ≤ vec_len spare.old }
        requires few { length self.list < 2 ^ 63 }
        ensures list { result.list ≡ with_entry (key.0, position) self.list }
        ensures not_lower { self.height ≤ result.height }
        ensures at_most_one_higher { result.height ≤ self.height + 1 }
        ensures nodes { vec_len spare.new + length result.list ≡ vec_len spare.old + length self.list }
        ensures capacity { vec_capacity spare.new ≡ vec_capacity spare.old }
    {
        let Some(
            Parts {
                mut node,
                left,
                right,
            },
        ) = self.parts()
        else {
            return single(spare, key, position);
        };
        if is_below(key, node.key) {
            return even(node, left.with(spare, key, position), right);
        }
        if is_below(node.key, key) {
            return even(node, left, right.with(spare, key, position));
        }
        node.position = position;
        join(node, left, right)
    }

    /// The tree without a key, whose node becomes spare.
    pub fn without(self, spare: &mut Vec<Box<Node>>, key: Key) -> Tree
        requires room { vec_len spare.old + length self.list ≤ vec_capacity spare.old }
        requires few { length self.list < 2 ^ 63 }
        ensures rise { KeysRise self.list }
        ensures list { result.list ≡ without_key key.0 self.list }
        ensures not_higher { result.height ≤ self.height }
        ensures at_most_one_lower { self.height ≤ result.height + 1 }
        ensures nodes { vec_len spare.new + length result.list ≡ vec_len spare.old + length self.list }
        ensures capacity { vec_capacity spare.new ≡ vec_capacity spare.old }
    {
        let Some(Parts { node, left, right }) = self.parts() else {
            return Tree::new();
        };
        if is_below(key, node.key) {
            return even(node, left.without(spare, key), right);
        }
        if is_below(node.key, key) {
            return even(node, left, right.without(spare, key));
        }
        spare.push_reserved(node);
        beside(left, right)
    }

    /// The root and its two sides, or None of the tree without keys.
    pub fn parts(self) -> Option<Parts>
        ensures none { IsNone result → self ≡ record { list = []; height = 0 } }
        ensures list { IfSome result (λ p. self.list ≡ p.left.list ++ (p.node.value.key.0, p.node.value.position) ∷ p.right.list) }
        ensures node { IfSome result (λ p. IsNode p.left p.node.value.key.0 p.node.value.position self.height p.right) }
    {
        match self.root {
            Link::Leaf => None,
            Link::Fork(mut node) => {
                let left = mem::replace(&mut node.left, Tree::new());
                let right = mem::replace(&mut node.right, Tree::new());
                Some(Parts { node, left, right })
            }
        }
    }
}

/// A node and the sides that belong to it.
#[derive(Drop)]
pub struct Parts {
    pub node: Box<Node>,
    pub left: Tree,
    pub right: Tree,
}

// Whether a key is below another.
fn is_below(key: Key, other: Key) -> bool
    ensures { result ≡ int_lt key.0 other.0 }
{
    key.0 < other.0
}

// The tree of two sides that stood beside one node.
fn beside(left: Tree, right: Tree) -> Tree
    requires rise { KeysRise (left.list ++ right.list) }
    requires even { DifferByAtMost 1 left.height right.height }
    requires low { max left.height right.height < 2 ^ 63 }
    ensures list { result.list ≡ left.list ++ right.list }
    ensures not_higher { result.height ≤ max left.height right.height + 1 }
    ensures not_lower { max left.height right.height ≤ result.height }
{
    match split_last(left) {
        None => right,
        Some((left, last)) => even(last, left, right),
    }
}

// The tree without its last node, and that node, or None of the tree without keys.
fn split_last(tree: Tree) -> Option<(Tree, Box<Node>)>
    requires { tree.height < 2 ^ 63 }
    ensures none { IsNone result → tree ≡ record { list = []; height = 0 } }
    ensures list { IfSome result (λ p. tree.list ≡ p.0.list ++ (p.1.value.key.0, p.1.value.position) ∷ []) }
    ensures not_higher { IfSome result (λ p. p.0.height ≤ tree.height) }
    ensures at_most_one_lower { IfSome result (λ p. tree.height ≤ p.0.height + 1) }
{
    let Parts { node, left, right } = tree.parts()?;
    match split_last(right) {
        None => Some((left, node)),
        Some((right, last)) => Some((even(node, left, right), last)),
    }
}

// The tree of one key.
fn single(spare: &mut Vec<Box<Node>>, key: Key, position: u64) -> Tree
    requires room { 1 ≤ vec_len spare.old }
    ensures list { result.list ≡ (key.0, position) ∷ [] }
    ensures height { result.height ≡ 1 }
    ensures nodes { vec_len spare.new + 1 ≡ vec_len spare.old }
    ensures capacity { vec_capacity spare.new ≡ vec_capacity spare.old }
{
    let Some(mut node) = spare.pop() else {
        unreachable!()
    };
    node.key = key;
    node.position = position;
    join(node, Tree::new(), Tree::new())
}

// The tree of a node between two sides.
fn join(mut node: Box<Node>, left: Tree, right: Tree) -> Tree
    requires rise { KeysRise (left.list ++ (node.value.key.0, node.value.position) ∷ right.list) }
    requires even { DifferByAtMost 1 left.height right.height }
    requires low { max left.height right.height ≤ 2 ^ 63 }
    ensures list { result.list ≡ left.list ++ (node.value.key.0, node.value.position) ∷ right.list }
    ensures height { result.height ≡ max left.height right.height + 1 }
{
    node.height = left.height().max(right.height()) + 1;
    node.left = left;
    node.right = right;
    Tree {
        root: Link::Fork(node),
    }
}

// The tree of a node between two sides, one of which may be two levels higher.
fn even(node: Box<Node>, left: Tree, right: Tree) -> Tree
    requires rise { KeysRise (left.list ++ (node.value.key.0, node.value.position) ∷ right.list) }
    requires near { DifferByAtMost 2 left.height right.height }
    requires low { max left.height right.height ≤ 2 ^ 63 }
    ensures list { result.list ≡ left.list ++ (node.value.key.0, node.value.position) ∷ right.list }
    ensures height { IsHeightOf left.height right.height result.height }
{
    let (lower, higher) = (left.height(), right.height());
    if lower > higher + 1 {
        return turned_right(node, left, right);
    }
    if higher > lower + 1 {
        return turned_left(node, left, right);
    }
    join(node, left, right)
}

// The tree of a node whose left side is two levels higher than its right one.
fn turned_right(node: Box<Node>, left: Tree, right: Tree) -> Tree
    requires rise { KeysRise (left.list ++ (node.value.key.0, node.value.position) ∷ right.list) }
    requires higher { left.height ≡ right.height + 2 }
    requires low { left.height ≤ 2 ^ 63 }
    ensures list { result.list ≡ left.list ++ (node.value.key.0, node.value.position) ∷ right.list }
    ensures not_lower { left.height ≤ result.height }
    ensures at_most_one_higher { result.height ≤ left.height + 1 }
{
    let Some(outer) = left.parts() else {
        unreachable!()
    };
    if outer.right.height() <= outer.left.height() {
        let low = join(node, outer.right, right);
        return join(outer.node, outer.left, low);
    }
    let Some(inner) = outer.right.parts() else {
        unreachable!()
    };
    let low = join(outer.node, outer.left, inner.left);
    let high = join(node, inner.right, right);
    join(inner.node, low, high)
}

// The tree of a node whose right side is two levels higher than its left one.
fn turned_left(node: Box<Node>, left: Tree, right: Tree) -> Tree
    requires rise { KeysRise (left.list ++ (node.value.key.0, node.value.position) ∷ right.list) }
    requires higher { right.height ≡ left.height + 2 }
    requires low { right.height ≤ 2 ^ 63 }
    ensures list { result.list ≡ left.list ++ (node.value.key.0, node.value.position) ∷ right.list }
    ensures not_lower { right.height ≤ result.height }
    ensures at_most_one_higher { result.height ≤ right.height + 1 }
{
    let Some(outer) = right.parts() else {
        unreachable!()
    };
    if outer.left.height() <= outer.right.height() {
        let low = join(node, left, outer.left);
        return join(outer.node, low, outer.right);
    }
    let Some(inner) = outer.left.parts() else {
        unreachable!()
    };
    let low = join(node, left, inner.left);
    let high = join(outer.node, inner.right, outer.right);
    join(inner.node, low, high)
}
