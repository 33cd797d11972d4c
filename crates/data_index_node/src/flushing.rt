//! Storing a part.

ghost use Rattle.std.specs.Prelude.{◌<◌, ◌^◌, [], ◌∷◌, OnOk};
ghost use Rattle.std.specs.Option.{IfSome};
ghost use Rattle.std.specs.FinMap as fin;
ghost use Rattle.manu_edge.specs.Telling.{TellsAlike};
ghost use Rattle.part_objects.specs.Spellings.{list_objects, objects_of};
ghost use Rattle.part_objects.specs.Keeping.{Holds};
ghost use Rattle.data_index_node.specs.Flushing.{Stores, LeavesOthers, HasFlushCause};

use crate::refusals::FlushError;
use manu_edge::{KeepError, Keeper};
use part_objects::{Object, delete_object, insert_object, list_object};
use seg_sealed::Part;
use std::alloc::Global;

/// Puts the objects of a part into a keeper: the insert log, the delete log and, where the segment has
/// lists, the list file, in this order, up to the first failure. What was put before it stays.
pub fn flush<K: Keeper>(alloc: Global, part: &Part, keeper: &mut K) -> Result<(), FlushError>
    // All objects were put, or those before the one that failed.
    ensures stored { Stores (objects_of part.now) (K.kept keeper.old) (K.kept keeper.new) result }
    // Where it is done, each object stands under its name as it is spelled.
    ensures held { OnOk result (IfSome (K.kept keeper.new) (λ kept. Holds (fin.get kept) (objects_of part.now))) }
    // All other names are as before, whatever the answer.
    ensures others { LeavesOthers (objects_of part.now) (K.kept keeper.old) (K.kept keeper.new) }
    // It answers that the keeper failed only where the count of faults rose.
    ensures cause { HasFlushCause (K.faults keeper.old) (K.faults keeper.new) result }
    ensures telling { TellsAlike (K.kept keeper.old) (K.kept keeper.new) }
{
    store(alloc, part, keeper)
}

fn store<K: Keeper>(alloc: Global, part: &Part, keeper: &mut K) -> Result<(), FlushError>
    ensures stored { Stores (objects_of part.now) (K.kept keeper.old) (K.kept keeper.new) result }
    ensures cause { HasFlushCause (K.faults keeper.old) (K.faults keeper.new) result }
    ensures telling { TellsAlike (K.kept keeper.old) (K.kept keeper.new) }
{
    let inserts = insert_object(alloc, part)?;
    put(keeper, &inserts)?;
    let deletes = delete_object(alloc, part)?;
    put(keeper, &deletes)?;
    store_lists(alloc, part, keeper)
}

fn store_lists<K: Keeper>(alloc: Global, part: &Part, keeper: &mut K) -> Result<(), FlushError>
    ensures stored { Stores (list_objects part.now.sealed.number part.now.sealed.lists) (K.kept keeper.old) (K.kept keeper.new) result }
    ensures cause { HasFlushCause (K.faults keeper.old) (K.faults keeper.new) result }
    ensures telling { TellsAlike (K.kept keeper.old) (K.kept keeper.new) }
{
    match list_object(alloc, part)? {
        Some(lists) => put(keeper, &lists),
        None => Ok(()),
    }
}

fn put<K: Keeper>(keeper: &mut K, object: &Object) -> Result<(), FlushError>
    requires { object.now.name < 2 ^ 63 }
    ensures stored { Stores (object.now ∷ []) (K.kept keeper.old) (K.kept keeper.new) result }
    ensures cause { HasFlushCause (K.faults keeper.old) (K.faults keeper.new) result }
    ensures telling { TellsAlike (K.kept keeper.old) (K.kept keeper.new) }
{
    match keeper.put(object.name, object.bytes.as_slice()) {
        Ok(()) => Ok(()),
        Err(KeepError::Failed) => Err(FlushError::KeepFault {
            object: object.name,
        }),
        Err(KeepError::Memory) => Err(FlushError::Memory),
    }
}
