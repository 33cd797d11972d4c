//! A channel as a look found it.

ghost use Rattle.std.specs.Prelude.{◌≡◌, ◌≤◌, length};
ghost use Rattle.std.specs.Arc.{arc_value};
ghost use Rattle.std.specs.List.{AllByRecursion};
ghost use Rattle.seg_sealed.specs.Parts.{AreDeathsOf};
ghost use Rattle.channel_view.specs.Views.{AreRowsOf, IsChannelView, seen_as};

use coarse_lists::Collection;
use growing_segment::SharedTail;
use hybrid_time::Timestamp;
use seg_sealed::{Marks, Part};
use std::alloc::Global;
use std::marker::Model;
use std::sync::Arc;

/// A channel of a collection as a look found it: the floor and the tick, from and up to which it may be
/// searched, the rows of the tail with their marks, and a part for each place of a segment. Contracts
/// see these.
#[derive(Drop)]
pub struct View {
    collection: Arc<Collection, Global>,
    channel: u32,
    floor: Timestamp,
    tick: Timestamp,
    tail: SharedTail,
    tail_marks: Marks,
    parts: Arc<Vec<Part>, Global>,
}

impl Model for View {
    ghost use Rattle.std.specs.Arc.{arc_value};
    ghost use Rattle.channel_view.specs.Views.{ChannelView, IsChannelView, seen_as};

    ghost Value = { ChannelView };

    ghost view = { λ v. seen_as (arc_value v.collection) v.channel v.floor.0 v.tick.0 v.tail v.tail_marks.deaths (arc_value v.parts).items };

    ghost invariant = { λ v. IsChannelView (seen_as (arc_value v.collection) v.channel v.floor.0 v.tick.0 v.tail v.tail_marks.deaths (arc_value v.parts).items) };
}

impl View {
    /// The view of these; takes no memory. The marks are those of the tail's rows by their numbers, and
    /// each place of a segment has a part.
    pub fn new(
        collection: Arc<Collection, Global>,
        channel: u32,
        floor: Timestamp,
        tick: Timestamp,
        tail: SharedTail,
        tail_marks: Marks,
        parts: Arc<Vec<Part>, Global>,
    ) -> View
        requires order { floor.0 ≤ tick.0 }
        requires dim { tail.dim ≡ (arc_value collection).dim }
        requires tail_rows { AreRowsOf (arc_value collection) tail.rows }
        requires marks { AreDeathsOf (length tail.rows) tail_marks.deaths }
        requires part_rows { AllByRecursion (λ part. AreRowsOf (arc_value collection) part.sealed.rows) (arc_value parts).items }
        ensures { result ≡ seen_as (arc_value collection) channel floor.0 tick.0 tail tail_marks.deaths (arc_value parts).items }
    {
        View {
            collection,
            channel,
            floor,
            tick,
            tail,
            tail_marks,
            parts,
        }
    }

    /// The collection.
    pub fn collection(&self) -> &Collection
        ensures { result.now ≡ self.now.collection }
    {
        &self.collection
    }

    /// The number of the channel.
    pub fn channel(&self) -> u32
        ensures { result ≡ self.now.channel }
    {
        self.channel
    }

    /// The least timestamp at which the view may be searched.
    pub fn floor(&self) -> Timestamp
        ensures floor { result.0 ≡ self.now.floor }
        ensures kept { IsChannelView self.now }
    {
        self.floor
    }

    /// The greatest timestamp at which the view may be searched, not below the floor.
    pub fn tick(&self) -> Timestamp
        ensures tick { result.0 ≡ self.now.tick }
        ensures order { self.now.floor ≤ self.now.tick }
    {
        self.tick
    }

    /// The rows that no segment has.
    pub fn tail(&self) -> &SharedTail
        ensures { result.now ≡ self.now.tail }
    {
        &self.tail
    }

    /// Which rows of the tail died, by their numbers.
    pub fn tail_marks(&self) -> &Marks
        ensures deaths { result.now.deaths ≡ self.now.deaths }
        ensures marks { AreDeathsOf (length self.now.tail.rows) self.now.deaths }
    {
        &self.tail_marks
    }

    /// The parts, one for each place of a segment.
    pub fn parts(&self) -> &[Part]
        ensures { result.now ≡ self.now.parts }
    {
        self.parts.as_slice()
    }
}
