//! A shard and its log, driven side by side through random steps.

ghost use Rattle.std.specs.Prelude.{◌<◌, ◌≤◌};

use crate::bench::{Bench, Sizes};
use crate::rows::row;
use crate::searches::{nearest, row_at};
use channel_view::View;
use hybrid_time::Timestamp;
use journal_model::{Home, PutKind};
use log_model::{Entry, Write, live_at};
use row_types::{Key, Memory, Row};
use std::alloc::Global;
use std::process::Abort;
use std::test::Fail;

/// Random numbers from a seed.
#[derive(Debug, Clone, Copy)]
struct Random(u64);

impl Random {
    /// A number below `n`.
    fn below(&mut self, n: u32) -> u32
        requires { 1 ≤ n }
        ensures { result < n }
    {
        self.0 = self
            .0
            .wrapping_mul(6_364_136_223_846_793_005)
            .wrapping_add(1_442_695_040_888_963_407);
        ((self.0 >> 33) % u64::from(n)) as u32
    }
}

/// A shard of the odd keys, its log, and what was done.
#[derive(Drop)]
struct Pair {
    bench: Bench,
    log: Vec<Entry>,
    random: Random,
    done: Done,
}

/// How many calls did what they are for.
#[derive(Debug, Clone, Copy)]
struct Done {
    looks: u32,
    loads: u32,
    releases: u32,
}

impl Pair {
    fn new(alloc: Global) -> Result<Pair, Memory> {
        let sizes = Sizes {
            channels: 2,
            nodes: 3,
            seal_rows: 4,
        };
        Ok(Pair {
            bench: Bench::new(alloc, sizes, 1)?,
            log: Vec::new(alloc),
            random: Random(14),
            done: Done {
                looks: 0,
                loads: 0,
                releases: 0,
            },
        })
    }

    /// A random key of the channel.
    fn key(&mut self) -> i64 {
        2 * i64::from(self.random.below(20)) - 15
    }

    fn put(&mut self, alloc: Global, how: PutKind) -> Result<(), Memory> {
        let key = self.key();
        let byte = self.random.below(256) as u8;
        let row = row(alloc, key, byte)?;
        let write = match how {
            PutKind::Insert => Write::Insert(row),
            PutKind::Upsert => Write::Upsert(row),
        };
        let ts = self.bench.now();
        self.log.push(Entry { ts, write })?;
        self.bench.put(alloc, how, key, byte)?;
        Ok(())
    }

    fn remove(&mut self, alloc: Global) -> Result<(), Memory> {
        let key = Key(self.key());
        let (ts, write) = (self.bench.now(), Write::Delete(key));
        self.log.push(Entry { ts, write })?;
        self.bench.remove(alloc, key)?;
        Ok(())
    }

    /// A random one of some segments.
    fn one_of(&mut self, segments: &[u64]) -> Option<u64> {
        let count = segments.len().min(1000) as u32;
        if count == 0 {
            return None;
        }
        segments.get(self.random.below(count) as usize).copied()
    }

    /// Begins to move a segment, from the leader or from a node.
    fn begin(&mut self, alloc: Global) -> Result<(), Memory> {
        let node = self.random.below(6);
        let (segments, from) = if node < 3 {
            (self.bench.on_node(alloc, node)?, Home::Node(node))
        } else {
            (self.bench.waiting(alloc)?, Home::Leader)
        };
        if let Some(segment) = self.one_of(segments.as_slice()) {
            let _ = self.bench.begin(alloc, segment, from);
        }
        Ok(())
    }

    fn load(&mut self, alloc: Global) {
        let node = self.random.below(3);
        if let Ok(None) = self.bench.load(alloc, node) {
            self.done.loads = self.done.loads.wrapping_add(1);
        }
    }

    fn release(&mut self, alloc: Global) -> Result<(), Memory> {
        let node = self.random.below(3);
        let segments = self.bench.on_node(alloc, node)?;
        if let Some(segment) = self.one_of(segments.as_slice()) {
            if self.bench.release(alloc, segment, node).is_ok() {
                self.done.releases = self.done.releases.wrapping_add(1);
            }
        }
        Ok(())
    }

    fn raise_floor(&mut self) {
        let back = u64::from(self.random.below(40));
        let ts = self.bench.last_tick().saturating_sub(back);
        self.bench.raise_floor(Timestamp(ts));
    }

    /// Looks; whether the view has the live rows of its tick, and of a random timestamp.
    fn look(&mut self, alloc: Global) -> Result<bool, Memory> {
        let view = self.bench.look(alloc)?;
        self.done.looks = self.done.looks.wrapping_add(1);
        let tick = view.tick().0;
        let back = u64::from(self.random.below(100));
        let ts = tick.saturating_sub(back).max(view.floor().0);
        Ok(self.shows_live(alloc, &view, tick)? && self.shows_live(alloc, &view, ts)?)
    }

    /// Whether a view shows exactly the live rows at a timestamp.
    fn shows_live(&self, alloc: Global, view: &View, ts: u64) -> Result<bool, Memory> {
        let rows = live_at(alloc, self.log.as_slice(), Timestamp(ts))?;
        let found = nearest(alloc, view, ts, 64)?;
        Ok(found.hits().len() == rows.len() && shows_all(alloc, view, ts, rows.as_slice())?)
    }

    /// A random step; whether a look in it was right.
    fn step(&mut self, alloc: Global) -> Result<bool, Memory> {
        match self.random.below(20) {
            0..=4 => self.put(alloc, PutKind::Insert)?,
            5..=8 => self.put(alloc, PutKind::Upsert)?,
            9..=10 => self.remove(alloc)?,
            11..=12 => self.bench.tick(alloc)?,
            13 => {
                let _ = self.bench.seal(alloc)?;
            }
            14..=15 => self.begin(alloc)?,
            16 => self.load(alloc),
            17 => self.release(alloc)?,
            18 => self.raise_floor(),
            _ => return self.look(alloc),
        }
        Ok(true)
    }
}

/// Whether a view shows each of some rows at a timestamp.
fn shows_all(alloc: Global, view: &View, ts: u64, rows: &[Row]) -> Result<bool, Memory> {
    for row in rows {
        match row_at(alloc, view, ts, row.key)? {
            Some(found) if found.vector.words() == row.vector.words() => (),
            _ => return Ok(false),
        }
    }
    Ok(true)
}

/// Takes random steps, up to the first look that is wrong; the number of its step.
fn first_wrong(alloc: Global, pair: &mut Pair) -> Result<Option<u32>, Memory> {
    for step in 0..2000 {
        if !pair.step(alloc)? {
            return Ok(Some(step));
        }
    }
    Ok(None)
}

fn is_right(rt: &impl Abort, alloc: Global, pair: &mut Pair) -> Result<(), Fail> {
    assert_eq!(rt; first_wrong(alloc, pair)?, None);
    let Done {
        looks,
        loads,
        releases,
    } = pair.done;
    assert!(rt;
        looks >= 80 && loads >= 30 && releases >= 10,
        "{looks} {loads} {releases}"
    );
    Ok(())
}

#[test]
fn looks_show_the_live_rows_of_the_log(rt: HostRuntime) -> Result<(), Fail> {
    let mut pair = Pair::new(rt.alloc())?;
    is_right(&rt, rt.alloc(), &mut pair)
}
