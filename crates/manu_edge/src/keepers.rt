//! Where objects are kept.

ghost use Rattle.std.specs.Prelude.{◌≡◌, ◌≢◌, ◌↔◌, ℕ, ◌<◌, ◌^◌, [], option_map, IfOk, OnOk, OnErr, IsTrue};
ghost use Rattle.std.specs.declared.option.Option.{Option};
ghost use Rattle.std.specs.declared.option.Option.TheVariants.{Some};
ghost use Rattle.std.specs.FinMap as fin;
ghost use Rattle.manu_edge.specs.Faults.{HasKeepCause, Counts, is_planned};
ghost use Rattle.manu_edge.specs.Objects.{Objects, objects_of, spoiled, Changes, Stays, WhereTold};
ghost use Rattle.manu_edge.specs.Telling.{TellsAlike};

use crate::faults::{FailurePlan, KeepError};
use std::alloc::{AllocError, Global};
use std::collections::BTreeMap;

/// Objects of bytes, each under a number. A call that is not done leaves every other object as it
/// was, and its own as it was or as it was to be.
pub trait Keeper {
    // the objects, where they are told
    ghost kept: { Self → Option Objects };

    // the faults so far
    ghost faults: { Self → ℕ };

    /// Keeps the bytes under a name, in the place of those that were there.
    fn put(&mut self, name: u64, bytes: &[u8]) -> Result<(), KeepError>
        requires { name < 2 ^ 63 }
        ensures objects { Changes (kept self.old) (kept self.new) result (λ objects. fin.insert objects name bytes.now) }
        ensures cause { HasKeepCause (faults self.old) (faults self.new) result }
        ensures telling { TellsAlike (kept self.old) (kept self.new) };

    /// The bytes under a name, if there are any.
    fn get(&mut self, name: u64) -> Result<Option<Vec<u8>>, KeepError>
        requires { name < 2 ^ 63 }
        ensures found { WhereTold (kept self.old) (kept self.new)
            (λ objects _. IfOk result (λ bytes. option_map (λ b. b.items) bytes ≡ fin.get objects name)) }
        ensures objects { Stays (kept self.old) (kept self.new) }
        ensures cause { HasKeepCause (faults self.old) (faults self.new) result }
        ensures telling { TellsAlike (kept self.old) (kept self.new) };

    /// Takes the object of a name away, if there is one.
    fn remove(&mut self, name: u64) -> Result<(), KeepError>
        requires { name < 2 ^ 63 }
        ensures objects { Changes (kept self.old) (kept self.new) result (λ objects. fin.remove objects name) }
        ensures cause { HasKeepCause (faults self.old) (faults self.new) result }
        ensures telling { TellsAlike (kept self.old) (kept self.new) };
}

/// Objects in memory. What a call was refused for want of memory is not done at all.
#[derive(Drop)]
pub struct MapKeeper {
    alloc: Global,
    objects: BTreeMap<u64, Vec<u8>>,
    plan: FailurePlan,
}

impl MapKeeper {
    /// A keeper of no objects, whose calls of the numbers in `failing` fail, counted from 1.
    pub fn new(alloc: Global, failing: Vec<u32>) -> MapKeeper
        ensures kept { ⟦<MapKeeper as Keeper>⟧.kept result ≡ Some fin.empty }
        ensures faults { ⟦<MapKeeper as Keeper>⟧.faults result ≡ 0 }
        ensures failing { result.plan.failing.items ≡ failing.items }
        ensures calls { result.plan.calls ≡ 0 }
    {
        MapKeeper {
            alloc,
            objects: BTreeMap::new(alloc),
            plan: FailurePlan::new(failing),
        }
    }

    /// Damages the object of a name, or takes it away; this is no call that could fail by the plan.
    pub fn spoil(&mut self, name: u64, bytes: Option<Vec<u8>>) -> Result<(), AllocError>
        ensures ok { OnOk result (objects_of (λ b. b.items) self.new.objects.entries
            ≡ spoiled name (option_map (λ b. b.items) bytes) (objects_of (λ b. b.items) self.old.objects.entries)) }
        ensures err { OnErr result (self.new.objects.entries ≡ self.old.objects.entries) }
        ensures plan { self.new.plan ≡ self.old.plan }
    {
        match bytes {
            None => {
                self.objects.remove(&name);
                Ok(())
            }
            Some(bytes) => match self.objects.insert(name, bytes) {
                Ok(_) => Ok(()),
                Err(_) => Err(AllocError),
            },
        }
    }
}

impl Keeper for MapKeeper {
    ghost kept = { λ keeper. Some (objects_of (λ b. b.items) keeper.objects.entries) };

    ghost faults = { λ keeper. keeper.plan.faults };

    fn put(&mut self, name: u64, bytes: &[u8]) -> Result<(), KeepError>
        ensures objects { Changes
            (Some (objects_of (λ b. b.items) self.old.objects.entries))
            (Some (objects_of (λ b. b.items) self.new.objects.entries))
            result (λ objects. fin.insert objects name bytes.now) }
        ensures unchanged { OnErr result (self.new.objects.entries ≡ self.old.objects.entries) }
        ensures cause { HasKeepCause self.old.plan.faults self.new.plan.faults result }
        ensures telling { TellsAlike
            (Some (objects_of (λ b. b.items) self.old.objects.entries))
            (Some (objects_of (λ b. b.items) self.new.objects.entries)) }
        ensures planned { (result ≡ Err KeepError.Failed) ↔ IsTrue (is_planned self.old.plan) }
        ensures counts { Counts self.old.plan self.new.plan (is_planned self.old.plan) }
        ensures unfailing { self.old.plan.failing.items ≡ [] → result ≢ Err KeepError.Failed }
    {
        if self.plan.begin().is_err() {
            return Err(KeepError::Failed);
        }
        let Ok(copy) = Vec::from_slice(self.alloc, bytes) else {
            return Err(KeepError::Memory);
        };
        match self.objects.insert(name, copy) {
            Ok(_) => Ok(()),
            Err(_) => Err(KeepError::Memory),
        }
    }

    fn get(&mut self, name: u64) -> Result<Option<Vec<u8>>, KeepError>
        ensures found { WhereTold
            (Some (objects_of (λ b. b.items) self.old.objects.entries))
            (Some (objects_of (λ b. b.items) self.new.objects.entries))
            (λ objects _. IfOk result (λ bytes. option_map (λ b. b.items) bytes ≡ fin.get objects name)) }
        ensures objects { Stays
            (Some (objects_of (λ b. b.items) self.old.objects.entries))
            (Some (objects_of (λ b. b.items) self.new.objects.entries)) }
        ensures cause { HasKeepCause self.old.plan.faults self.new.plan.faults result }
        ensures telling { TellsAlike
            (Some (objects_of (λ b. b.items) self.old.objects.entries))
            (Some (objects_of (λ b. b.items) self.new.objects.entries)) }
        ensures planned { (result ≡ Err KeepError.Failed) ↔ IsTrue (is_planned self.old.plan) }
        ensures counts { Counts self.old.plan self.new.plan (is_planned self.old.plan) }
        ensures unfailing { self.old.plan.failing.items ≡ [] → result ≢ Err KeepError.Failed }
    {
        if self.plan.begin().is_err() {
            return Err(KeepError::Failed);
        }
        let Some(bytes) = self.objects.get(&name) else {
            return Ok(None);
        };
        match Vec::from_slice(self.alloc, bytes.as_slice()) {
            Ok(copy) => Ok(Some(copy)),
            Err(_) => Err(KeepError::Memory),
        }
    }

    fn remove(&mut self, name: u64) -> Result<(), KeepError>
        ensures objects { Changes
            (Some (objects_of (λ b. b.items) self.old.objects.entries))
            (Some (objects_of (λ b. b.items) self.new.objects.entries))
            result (λ objects. fin.remove objects name) }
        ensures unchanged { OnErr result (self.new.objects.entries ≡ self.old.objects.entries) }
        ensures cause { HasKeepCause self.old.plan.faults self.new.plan.faults result }
        ensures telling { TellsAlike
            (Some (objects_of (λ b. b.items) self.old.objects.entries))
            (Some (objects_of (λ b. b.items) self.new.objects.entries)) }
        ensures planned { (result ≡ Err KeepError.Failed) ↔ IsTrue (is_planned self.old.plan) }
        ensures counts { Counts self.old.plan self.new.plan (is_planned self.old.plan) }
        ensures unfailing { self.old.plan.failing.items ≡ [] → result ≢ Err KeepError.Failed }
    {
        if self.plan.begin().is_err() {
            return Err(KeepError::Failed);
        }
        self.objects.remove(&name);
        Ok(())
    }
}
