//! A top list that is in order at all times.

ghost use Rattle.std.specs.Prelude.{◌≡◌, ◌<◌, ◌≤◌, ◌∷◌, ◌++◌, [], length, vec_capacity, IfOk};
ghost use Rattle.std.specs.List.Sorted.{IsStrictlySortedBy};
ghost use Rattle.row_types.specs.Hits.{hit_cmp, least, IsOneDistanceAKey, IsEachKeyOnce};
ghost use Rattle.top_list.specs.Kept.{hits_of};

use crate::filling::{Gather, cut, is_behind, last_of};
use crate::windows::Window;
use row_types::{Hit, Memory};
use std::alloc::Global;
use std::marker::Model;

/// The k least of the hits that were offered, in order. Contracts see k and these hits.
///
/// A hit that is offered twice is kept once. Where a key always has the same distance, each key is
/// kept once.
#[derive(Debug, Drop)]
pub struct TopList {
    k: u32,
    hits: Window,
}

impl Model for TopList {
    ghost use Rattle.top_list.specs.Kept.{Kept, IsTop};

    ghost Value = { Kept };

    ghost view = { λ t. record { k = t.k; hits = t.hits.hits } };

    ghost invariant = { λ t. IsTop t.k t.hits.hits t.hits.room };
}

impl TopList {
    /// A list with no hits, which is to keep the `k` least.
    ///
    /// It takes all the memory that it ever takes: 24 bytes for each of 2 k hits, or of k + 1 where k
    /// is below 20.
    pub fn new(alloc: Global, k: u32) -> Result<TopList, Memory>
        requires some { 1 ≤ k }
        requires bound { k ≤ 16384 }
        ensures { IfOk result (λ list. list ≡ record { k = k; hits = [] }) }
    {
        let hits = Window::new(Vec::with_capacity(alloc, room_for(k))?);
        Ok(TopList { k, hits })
    }

    /// Offers a hit; takes no memory. For many offers in a row take a [`Gather`].
    pub fn offer(&mut self, hit: Hit)
        ensures k { self.new.k ≡ self.old.k }
        ensures hits { self.new.hits ≡ least self.old.k (self.old.hits ++ hit ∷ []) }
        ensures each_key_once { IsOneDistanceAKey (self.old.hits ++ hit ∷ []) → IsEachKeyOnce self.new.hits }
    {
        place(&mut self.hits, self.k, hit);
    }

    /// The hits that are kept, in order.
    pub fn hits(&self) -> &[Hit]
        ensures hits { result.now ≡ self.now.hits }
        ensures own { self.now.hits ≡ least self.now.k self.now.hits }
        ensures rises { IsStrictlySortedBy hit_cmp self.now.hits }
        ensures few { length self.now.hits ≤ self.now.k }
        ensures each_key_once { IsOneDistanceAKey self.now.hits → IsEachKeyOnce self.now.hits }
    {
        self.hits.as_slice()
    }

    /// The same list, to be filled; takes no memory.
    pub fn gather(self) -> Gather
        ensures { result ≡ self }
    {
        Gather::begin(self.k, self.hits.into_buffer())
    }

    pub(crate) fn settled(k: u32, mut buffer: Vec<Hit>) -> TopList
        requires some { 0 < k }
        requires room { k < vec_capacity buffer }
        ensures { result ≡ record { k = k; hits = least k buffer.items } }
    {
        let _last = cut(&mut buffer, k);
        let hits = Window::new(buffer);
        TopList { k, hits }
    }

    /// The `k` least of the hits of all these lists.
    pub fn merge(alloc: Global, lists: &[TopList], k: u32) -> Result<TopList, Memory>
        requires some { 1 ≤ k }
        requires bound { k ≤ 16384 }
        ensures least { IfOk result (λ list. list ≡ record { k = k; hits = least k (hits_of lists.now) }) }
        ensures each_key_once { IfOk result (λ list. IsOneDistanceAKey (hits_of lists.now) → IsEachKeyOnce list.hits) }
    {
        let mut gather = TopList::new(alloc, k)?.gather();
        'lists: for list in lists {
            gather.offer_all(list.hits());
        }
        Ok(gather.settle())
    }
}

// How many hits a buffer has room for. One of a few hits is full at the first hit that is too many: it
// is put in order again by one insertion, and what is too far is known at once. A greater one is put in
// order once as many hits came as it keeps, since there a sort costs more than the offers it saves.
fn room_for(k: u32) -> usize
    ensures { k < result }
{
    let count = k as usize;
    if count < 20 { count + 1 } else { 2 * count }
}

// Puts a hit in its place among at most k hits that rise, and keeps k.
fn place(window: &mut Window, k: u32, hit: Hit)
    requires some { 0 < k }
    requires own { least k window.old.hits ≡ window.old.hits }
    requires room { k < window.old.room }
    ensures hits { window.new.hits ≡ least k (window.old.hits ++ hit ∷ []) }
    ensures room { k < window.new.room }
{
    let hits = window.as_slice();
    if is_behind(last_of(hits, k), &hit) {
        return;
    }
    if let Err(at) = hits.binary_search(&hit) {
        window.insert(k, at, hit);
        window.truncate(k);
    }
}
