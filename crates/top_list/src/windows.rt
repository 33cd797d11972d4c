//! Hits in a buffer with free places before them. None of the steps takes memory.

ghost use Rattle.std.specs.Prelude.{◌≡◌, ◌+◌, ◌-◌, ◌<◌, ◌≤◌, ◌∷◌, ◌++◌, [], length, take, drop, vec_len, vec_capacity};
ghost use Rattle.std.specs.List.{insert};

use row_types::Hit;
use std::fmt::{self, Debug, Formatter, Write};
use std::marker::Model;

/// Hits at the end of a buffer, behind free places. Where a hit is put among them only the shorter
/// side moves: those before it to the front, into a free place, or those after it to the back.
/// Contracts see the hits, and how many may stand in the buffer from the first on.
#[derive(Drop)]
pub(crate) struct Window {
    buffer: Vec<Hit>,
    from: usize,
}

impl Model for Window {
    ghost use Rattle.std.specs.Prelude.{◌-◌, ◌≤◌, drop, vec_len, vec_capacity};
    ghost use Rattle.top_list.specs.Kept.{Standing};

    ghost Value = { Standing };

    ghost view = { λ w. record { hits = drop w.from w.buffer.items; room = vec_capacity w.buffer - w.from } };

    ghost invariant = { λ w. w.from ≤ vec_len w.buffer };
}

impl Window {
    pub(crate) fn new(buffer: Vec<Hit>) -> Window
        ensures hits { result.hits ≡ buffer.items }
        ensures room { result.room ≡ vec_capacity buffer }
    {
        Window { buffer, from: 0 }
    }

    pub(crate) fn as_slice(&self) -> &[Hit]
        ensures { result.now ≡ self.now.hits }
    {
        &self.buffer[self.from..]
    }

    // The hits, with no places before them.
    pub(crate) fn into_buffer(self) -> Vec<Hit>
        ensures items { result.items ≡ self.hits }
        ensures capacity { self.room ≤ vec_capacity result }
    {
        let mut buffer = self.buffer;
        let count = buffer.len() - self.from;
        buffer.rotate_left(self.from);
        buffer.truncate(count);
        buffer
    }

    // Keeps the first k hits.
    pub(crate) fn truncate(&mut self, k: u32)
        ensures hits { self.new.hits ≡ take k self.old.hits }
        ensures room { self.new.room ≡ self.old.room }
    {
        self.buffer.truncate(self.from + k as usize);
    }

    // Puts a hit before those from `at` on, among at most k.
    pub(crate) fn insert(&mut self, k: u32, at: usize, hit: Hit)
        requires few { length self.old.hits ≤ k }
        requires room { k < self.old.room }
        requires within { at ≤ length self.old.hits }
        ensures hits { self.new.hits ≡ insert self.old.hits at hit }
        ensures room { k < self.new.room }
    {
        if at < self.as_slice().len() / 2 {
            self.free_front(k, hit);
            self.insert_forwards(at, hit);
        } else {
            self.insert_backwards(at, hit);
        }
    }

    // Frees places before the hits where there are none: as many as there are hits, so that one move
    // of them all serves as many insertions, but no more than leave room for k hits and one. Copies
    // of a hit fill the places until they are used.
    fn free_front(&mut self, k: u32, hit: Hit)
        requires few { length self.old.hits ≤ k }
        requires room { k < self.old.room }
        ensures hits { self.new.hits ≡ self.old.hits }
        ensures room { k < self.new.room }
    {
        if self.from == 0 {
            let spare = self.buffer.capacity() - k as usize - 1;
            self.from = self.buffer.len().min(spare);
            move_back(&mut self.buffer, self.from, hit);
        }
    }

    // Puts a hit before those from `at` on. Where a place is free, those before it move to the front.
    fn insert_forwards(&mut self, at: usize, hit: Hit)
        requires room { length self.old.hits < self.old.room }
        requires within { at ≤ length self.old.hits }
        ensures hits { self.new.hits ≡ insert self.old.hits at hit }
        ensures room { self.old.room ≤ self.new.room }
    {
        if self.from == 0 {
            return self.insert_backwards(at, hit);
        }
        replace_first(&mut self.buffer[self.from - 1..self.from + at], hit);
        self.from -= 1;
    }

    // Puts a hit before those from `at` on, which move to the back.
    fn insert_backwards(&mut self, at: usize, hit: Hit)
        requires room { length self.old.hits < self.old.room }
        requires within { at ≤ length self.old.hits }
        ensures hits { self.new.hits ≡ insert self.old.hits at hit }
        ensures room { self.old.room ≤ self.new.room }
    {
        insert_hit(&mut self.buffer, self.from + at, hit);
    }
}

impl Debug for Window {
    fn fmt<W: Write>(&self, f: &mut Formatter<W>) -> fmt::Result {
        f.debug_list().entries(self.as_slice()).finish()
    }
}

// Puts a hit before those from `at` on.
fn insert_hit(hits: &mut Vec<Hit>, at: usize, hit: Hit)
    requires room { vec_len hits.old < vec_capacity hits.old }
    requires within { at ≤ vec_len hits.old }
    ensures items { hits.new.items ≡ insert hits.old.items at hit }
    ensures capacity { vec_capacity hits.old ≤ vec_capacity hits.new }
{
    let _inserted = hits.insert(at, hit);
}

// Moves all hits some places to the back, and fills these places with copies of a hit.
fn move_back(hits: &mut Vec<Hit>, places: usize, hit: Hit)
    requires { vec_len hits.old + places ≤ vec_capacity hits.old }
    ensures items { drop places hits.new.items ≡ hits.old.items }
    ensures len { vec_len hits.new ≡ vec_len hits.old + places }
    ensures capacity { vec_capacity hits.old ≤ vec_capacity hits.new }
{
    let _filled = hits.resize(hits.len() + places, hit);
    hits.rotate_right(places);
}

// Drops the first of some hits and adds another at the end.
fn replace_first(hits: &mut [Hit], hit: Hit)
    requires { 0 < length hits.old }
    ensures { hits.new ≡ drop 1 hits.old ++ hit ∷ [] }
{
    hits[0] = hit;
    hits.rotate_left(1);
}
