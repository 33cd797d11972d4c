//! Places against a plain reference, and the refusals of a release.

use crate::{PlaceError, Places};
use journal_model::Home;
use row_types::Memory;
use std::alloc::Global;
use std::collections::BTreeMap;
use std::process::Abort;

/// The rows of each segment, and a mark for each place on a node.
#[derive(Drop)]
struct Reference {
    rows: BTreeMap<u64, u32>,
    places: BTreeMap<u64, bool>,
}

/// The mark of a place.
fn mark(segment: u64, node: u32) -> u64 {
    segment % 64 * 16 + u64::from(node % 16)
}

impl Reference {
    fn has(&self, segment: u64, node: u32) -> bool {
        self.places.contains_key(&mark(segment, node))
    }

    fn is_elsewhere(&self, segment: u64, node: u32, nodes: u32) -> bool {
        (0..nodes).any(|other| other != node && self.has(segment, other))
    }

    fn load(&mut self, segment: u64, node: u32) -> Result<Result<(), PlaceError>, Memory> {
        if !self.rows.contains_key(&segment) {
            return Ok(Err(PlaceError::Gone { segment }));
        }
        if self.has(segment, node) {
            return Ok(Err(PlaceError::Already { segment, node }));
        }
        self.places.insert(mark(segment, node), true)?;
        Ok(Ok(()))
    }

    fn release(&mut self, segment: u64, node: u32, nodes: u32) -> Result<(), PlaceError> {
        if !self.rows.contains_key(&segment) {
            return Err(PlaceError::Gone { segment });
        }
        if !self.has(segment, node) {
            return Err(PlaceError::NotThere { segment, node });
        }
        if !self.is_elsewhere(segment, node, nodes) {
            return Err(PlaceError::LastPlace { segment });
        }
        self.places.remove(&mark(segment, node));
        Ok(())
    }

    fn drop_all(&mut self, segment: u64, nodes: u32) {
        self.rows.remove(&segment);
        for node in 0..nodes {
            self.places.remove(&mark(segment, node));
        }
    }

    fn rows_on(&self, node: u32) -> u64 {
        let mut sum: u64 = 0;
        for (segment, rows) in &self.rows {
            if self.has(*segment, node) {
                sum = sum.wrapping_add(u64::from(*rows));
            }
        }
        sum
    }

    fn choose_node(&self, nodes: u32) -> u32 {
        let mut best = 0;
        for node in 0..nodes {
            if self.rows_on(node) < self.rows_on(best) {
                best = node;
            }
        }
        best
    }
}

fn next(state: u64) -> u64 {
    state
        .wrapping_mul(6_364_136_223_846_793_005)
        .wrapping_add(1_442_695_040_888_963_407)
}

/// One call on both, of which the answers are compared.
fn step(
    rt: &impl Abort,
    alloc: Global,
    places: &mut Places,
    reference: &mut Reference,
    draw: u64,
) -> Result<(), Memory> {
    let nodes = places.nodes();
    let segment = draw / 64 % 24;
    let node = (draw / 4096 % u64::from(nodes)) as u32;
    match draw % 8 {
        0 | 1 => {
            let rows = (draw / 65536 % 100) as u32;
            if !places.is_known(segment) {
                places.add(alloc, segment, rows)?;
                reference.rows.insert(segment, rows)?;
            }
        }
        2 | 3 | 4 => {
            let want = reference.load(segment, node)?;
            assert_eq!(rt; places.load(segment, node), want);
        }
        5 | 6 => {
            let want = reference.release(segment, node, nodes);
            assert_eq!(rt; places.release(segment, node), want);
        }
        _ => {
            places.drop_all(segment);
            reference.drop_all(segment, nodes);
        }
    }
    Ok(())
}

/// The homes of a segment are those of the reference.
fn check_homes(rt: &impl Abort, places: &Places, reference: &Reference, segment: u64) {
    let Some(homes) = places.homes(segment) else {
        assert!(rt; !reference.rows.contains_key(&segment));
        return;
    };
    let mut count: usize = 0;
    for node in 0..places.nodes() {
        let there = reference.has(segment, node);
        assert_eq!(rt; homes.contains(&Home::Node(node)), there);
        count = count.wrapping_add(usize::from(there));
    }
    let waits = count == 0;
    assert_eq!(rt; homes.contains(&Home::Leader), waits);
    assert_eq!(rt; homes.len(), count.max(1));
}

#[test]
fn places_answer_as_a_plain_reference(rt: HostRuntime) -> Result<(), Memory> {
    let alloc = rt.alloc();
    let mut places = Places::new(alloc, 3)?;
    let mut reference = Reference {
        rows: BTreeMap::new(alloc),
        places: BTreeMap::new(alloc),
    };
    let mut state = 7;
    for _ in 0..4_000 {
        state = next(state);
        let draw = state / 65_536;
        step(&rt, alloc, &mut places, &mut reference, draw)?;
        check_homes(&rt, &places, &reference, draw / 64 % 24);
        let nodes = places.nodes();
        assert_eq!(&rt; places.choose_node(), reference.choose_node(nodes));
    }
    Ok(())
}

#[test]
fn the_last_place_stays(rt: HostRuntime) -> Result<(), Memory> {
    let alloc = rt.alloc();
    let mut places = Places::new(alloc, 2)?;
    if !places.is_known(0) {
        places.add(alloc, 0, 2)?;
    }
    assert_eq!(&rt; places.load(0, 0), Ok(()));
    let refusals = [
        (0, 0, PlaceError::LastPlace { segment: 0 }),
        (
            0,
            1,
            PlaceError::NotThere {
                segment: 0,
                node: 1,
            },
        ),
        (16, 0, PlaceError::Gone { segment: 16 }),
    ];
    for (segment, node, refusal) in refusals {
        if node < places.nodes() {
            assert_eq!(&rt; places.release(segment, node), Err(refusal));
        }
    }
    assert_eq!(&rt; places.homes(0), Some([Home::Node(0)].as_slice()));
    assert_eq!(&rt; places.choose_node(), 1);
    Ok(())
}
