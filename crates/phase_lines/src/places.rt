//! A place for each caller.

ghost use Rattle.std.specs.Prelude.{◌≡◌, ◌≢◌, [], ◌∷◌, ◌++◌, All, length, Ok, IfOk, OnOk, OnErr};
ghost use Rattle.phase_lines.specs.Waiting.{MayWait, own};
ghost use Rattle.phase_lines.specs.Steps.{Gains, AreWorksOf};

use hybrid_time::Timestamp;
use phase_run::Work;
use request_lines::Request;
use row_types::Memory;
use std::alloc::Global;

/// How many callers there may be.
pub(crate) const CALLERS: usize = 16;

/// An empty list for each caller.
pub(crate) fn empty_places<T: Drop>(alloc: Global) -> Result<Vec<Vec<T>>, Memory>
    ensures many { IfOk result (λ places. length places.items ≡ 16) }
    ensures none { IfOk result (λ places. All (λ place. place.items ≡ []) places.items) }
{
    let mut places = Vec::with_capacity(alloc, CALLERS)?;
    'callers: for _ in 0..CALLERS {
        places.push(Vec::new(alloc))?;
    }
    Ok(places)
}

/// Gives a request to its caller, at the number of its line.
pub(crate) fn give(
    places: &mut Vec<Vec<(u32, Request)>>,
    number: u32,
    request: Request,
) -> Result<(), Memory>
    requires may { MayWait (Ok request) }
    requires many { length places.old.items ≡ 16 }
    ensures given { OnOk result (Gains (λ caller. own caller number (Ok request)) places.old.items places.new.items) }
    ensures kept { OnErr result (Gains (λ caller. []) places.old.items places.new.items) }
    ensures many { length places.new.items ≡ 16 }
{
    let place = &mut places[request.caller as usize];
    place.push((number, request))?;
    Ok(())
}

/// A work for each caller that asks.
pub(crate) fn works_of(
    alloc: Global,
    places: Vec<Vec<(u32, Request)>>,
    mine: &[Timestamp],
) -> Result<Vec<Work>, Memory>
    requires many { (length places.items ≡ 16) × (length mine.now ≡ 16) }
    ensures { IfOk result (λ works. AreWorksOf places.items mine.now works.items) }
{
    let mut works = Vec::with_capacity(alloc, places.len())?;
    let mut caller = 0;
    for requests in places {
        let last_write = mine[caller as usize];
        add_work(&mut works, caller, last_write, requests)?;
        caller += 1;
    }
    Ok(works)
}

// Adds the work of a caller, where it asks anything.
fn add_work(
    works: &mut Vec<Work>,
    caller: u32,
    mine: Timestamp,
    requests: Vec<(u32, Request)>,
) -> Result<(), Memory>
    ensures asks { OnOk result (requests.items ≢ [] → works.new.items ≡ works.old.items ++ record { caller = caller; mine = mine; requests = requests } ∷ []) }
    ensures silent { OnOk result (requests.items ≡ [] → works.new.items ≡ works.old.items) }
{
    if requests.is_empty() {
        return Ok(());
    }
    works.push(Work {
        caller,
        mine,
        requests,
    })?;
    Ok(())
}
