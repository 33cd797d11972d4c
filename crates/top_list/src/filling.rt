//! A top list while it is filled.

ghost use Rattle.std.specs.Prelude.{◌≡◌, ℕ, ℤ, ◌+◌, ◌<◌, ◌≤◌, ◌^◌, ◌∷◌, ◌++◌, [], length, vec_len, vec_capacity, IfSome, MatchOption};
ghost use Rattle.std.specs.declared.cmp.Ordering.TheVariants.{Less};
ghost use Rattle.std.specs.Ordering.{nat_cmp, int_cmp, ordering_then};
ghost use Rattle.row_types.specs.declared.hits.Distance.TheVariants.{Hamming};
ghost use Rattle.std.specs.List.Sorted.{IsPermutation, IsSorted};
ghost use Rattle.row_types.specs.Hits.{hit_cmp, least, value_cmp};
ghost use Rattle.top_list.specs.Kept.{IsBehindAll, IsLast, is_after};
ghost use Rattle.top_list.specs.Ranks.{rank_of};

use crate::tops::TopList;
use row_types::{Distance, Hit, Key};
use std::cmp::Ordering;
use std::marker::Model;

/// A top list while it is filled: the hits that it would hold if it were settled now. Contracts see
/// it as that list.
///
/// Most offers cost one comparison; a buffer is put in order each time that it is full.
#[derive(Debug, Drop)]
pub struct Gather {
    k: u32,
    hits: Vec<Hit>,
    last: Option<Hit>,
}

impl Model for Gather {
    ghost use Rattle.std.specs.Prelude.{vec_len, vec_capacity};
    ghost use Rattle.row_types.specs.Hits.{least};
    ghost use Rattle.top_list.specs.Kept.{Kept, IsFilling};

    ghost Value = { Kept };

    ghost view = { λ g. record { k = g.k; hits = least g.k g.hits.items } };

    ghost invariant = { λ g. IsFilling g.k g.hits.items (vec_len g.hits) (vec_capacity g.hits) g.last };
}

impl Gather {
    pub(crate) fn begin(k: u32, hits: Vec<Hit>) -> Gather
        requires some { 0 < k }
        requires room { k < vec_capacity hits }
        requires free { vec_len hits < vec_capacity hits }
        ensures { result ≡ record { k = k; hits = least k hits.items } }
    {
        Gather {
            k,
            hits,
            last: None,
        }
    }

    /// Puts the hits in order; takes no memory.
    pub fn settle(self) -> TopList
        ensures { result ≡ self }
    {
        TopList::settled(self.k, self.hits)
    }

    /// Offers a hit; takes no memory.
    pub fn offer(&mut self, hit: Hit)
        ensures k { self.new.k ≡ self.old.k }
        ensures hits { self.new.hits ≡ least self.old.k (self.old.hits ++ hit ∷ []) }
    {
        if is_behind(self.last, &hit) {
            return;
        }
        push_hit(&mut self.hits, hit);
        if self.hits.len() == self.hits.capacity() {
            self.last = cut(&mut self.hits, self.k);
        }
    }

    /// Offers many hits; takes no memory.
    pub fn offer_all(&mut self, hits: &[Hit])
        ensures k { self.new.k ≡ self.old.k }
        ensures hits { self.new.hits ≡ least self.old.k (self.old.hits ++ hits.now) }
    {
        let _ = &self.k;
        for hit in hits {
            self.offer(*hit);
        }
    }

    /// A hit behind which nothing is kept any more, where one is known: there is none before the
    /// first k hits, and it may be an earlier one than the last that is kept.
    pub fn bar(&self) -> Option<Hit>
        ensures own { self.now.hits ≡ least self.now.k self.now.hits }
        ensures behind { IfSome result (IsBehindAll self.now) }
    {
        self.last
    }

    /// The greatest Hamming distance, in bits, that may still be kept; `u32::MAX` where any may.
    pub fn limit(&self) -> u32
        ensures own { self.now.hits ≡ least self.now.k self.now.hits }
        ensures far { (d : ℕ) (key : ℤ) → result < d → d < 2 ^ 32 →
            least self.now.k (self.now.hits ++ record { distance = Hamming d; key = record { 0 = key } } ∷ []) ≡ self.now.hits }
    {
        match self.last {
            Some(last) => reach(last.distance),
            None => u32::MAX,
        }
    }
}

// The greatest Hamming distance that is not above a distance, as far as it is known without a division.
fn reach(distance: Distance) -> u32
    ensures { (d : ℕ) → result < d → d < 2 ^ 32 → value_cmp distance (Hamming d) ≡ Less }
{
    match distance {
        Distance::Hamming(bits) => bits,
        Distance::Jaccard { .. } => u32::MAX,
    }
}

// Adds a hit at the end.
fn push_hit(hits: &mut Vec<Hit>, hit: Hit)
    requires { vec_len hits.old < vec_capacity hits.old }
    ensures items { hits.new.items ≡ hits.old.items ++ hit ∷ [] }
    ensures len { vec_len hits.new ≡ vec_len hits.old + 1 }
    ensures capacity { vec_capacity hits.old ≤ vec_capacity hits.new }
{
    let _pushed = hits.push(hit);
}

// Puts the hits in order, each once, and drops those behind the first k. Gives the last of k hits,
// and none where there are fewer.
pub(crate) fn cut(hits: &mut Vec<Hit>, k: u32) -> Option<Hit>
    requires { 0 < k }
    ensures items { hits.new.items ≡ least k hits.old.items }
    ensures len { vec_len hits.new ≤ k }
    ensures capacity { vec_capacity hits.new ≡ vec_capacity hits.old }
    ensures last { MatchOption result (vec_len hits.new < k) (IsLast k hits.new.items) }
{
    sort_hits(hits);
    hits.dedup();
    hits.truncate(k as usize);
    last_of(hits, k)
}

// Puts the hits in rising order.
fn sort_hits(hits: &mut Vec<Hit>)
    ensures permutation { IsPermutation hits.old.items hits.new.items }
    ensures sorted { IsSorted hit_cmp hits.new.items }
    ensures len { vec_len hits.new ≡ vec_len hits.old }
    ensures capacity { vec_capacity hits.new ≡ vec_capacity hits.old }
{
    hits.sort_unstable_by(
        |a: &Hit, b: &Hit| -> Ordering
            ensures { result ≡ hit_cmp a.now b.now }
        { in_turn(a, b) },
    );
}

// The order of hits. Where both are numbers of bits no product is needed, and the key decides a tie.
// It is part of the sort's loops, where a call would cost more than the comparison.
#[inline(always)]
fn in_turn(a: &Hit, b: &Hit) -> Ordering
    ensures { result ≡ hit_cmp a.now b.now }
{
    match a.distance {
        Distance::Hamming(here) => match b.distance {
            Distance::Hamming(there) => by_bits(here, a.key, there, b.key),
            Distance::Jaccard { .. } => a.cmp(b),
        },
        Distance::Jaccard { .. } => a.cmp(b),
    }
}

// By numbers of bits, and then by keys. Both are compared as one number: no branch hangs on an
// answer that a sort can't foresee.
#[inline(always)]
fn by_bits(here: u32, a: Key, there: u32, b: Key) -> Ordering
    ensures { result ≡ ordering_then (nat_cmp here there) (int_cmp a.0 b.0) }
{
    rank(here, a).cmp(&rank(there, b))
}

// A number that rises with the bits, and with the key where the bits are equal.
#[inline(always)]
fn rank(bits: u32, key: Key) -> i128
    ensures { result ≡ rank_of bits key.0 }
{
    i128::from(bits) * (1 << 64) + i128::from(key.0)
}

// The last of k hits that rise, and none where there are fewer.
pub(crate) fn last_of(hits: &[Hit], k: u32) -> Option<Hit>
    requires some { 0 < k }
    requires own { least k hits.now ≡ hits.now }
    ensures { MatchOption result (length hits.now < k) (IsLast k hits.now) }
{
    if hits.len() < k as usize {
        return None;
    }
    hits.last().copied()
}

// Whether the hit comes after one that is known to be the last of k.
pub(crate) fn is_behind(last: Option<Hit>, hit: &Hit) -> bool
    ensures { result ≡ is_after last hit.now }
{
    match last {
        Some(last) => in_turn(&last, hit).is_lt(),
        None => false,
    }
}
