//! Fetching a part.

ghost use Rattle.std.specs.Prelude.{◌≡◌, ◌<◌, ◌^◌, [], ◌∷◌, Some, None, length, IfOk};
ghost use Rattle.std.specs.Option.{IfSome};
ghost use Rattle.std.specs.FinMap as fin;
ghost use Rattle.manu_edge.specs.Objects.{Stays};
ghost use Rattle.manu_edge.specs.Telling.{TellsAlike};
ghost use Rattle.seg_sealed.specs.Segments.{with_lists};
ghost use Rattle.seg_sealed.specs.Parts.{AreDeathsOf};
ghost use Rattle.part_objects.specs.Spellings.{insert_object, delete_object, list_objects, objects_of};
ghost use Rattle.part_objects.specs.Keeping.{Given, Holds};
ghost use Rattle.query_node.specs.Fetching.{Answers, Fetches, OnFault, HasFetchCause, IsUnharmed};

use crate::comparing::first_difference;
use crate::making::{marks_of, sealed_of, with_lists};
use crate::refusals::FetchError;
use manu_edge::{KeepError, Keeper};
use part_objects::{Object, delete_object, insert_object, list_object};
use row_types::Memory;
use seg_sealed::{Marks, Part, Sealed};
use std::alloc::Global;
use std::sync::Arc;

/// Gets the objects of a part from a keeper: the insert log, the delete log and, where the segment has
/// lists, the list file, in this order, up to the first that is not got as it is spelled. The part is
/// made of the bytes that were got, with the number, the rows, the marks and the lists of the one that
/// was asked for.
pub fn fetch<K: Keeper>(alloc: Global, part: &Part, keeper: &mut K) -> Result<Part, FetchError>
    ensures part { IfOk result (λ fetched. fetched ≡ part.now) }
    // The answer is the one for what the keeper gave, which is what it keeps where it tells that.
    ensures fetched { Fetches (objects_of part.now) (K.kept keeper.old) result }
    // Nothing is lost or damaged where the keeper has the part.
    ensures unharmed { IfSome (K.kept keeper.old) (λ kept. Holds (fin.get kept) (objects_of part.now) → IsUnharmed result) }
    ensures stays { Stays (K.kept keeper.old) (K.kept keeper.new) }
    // It answers that the keeper failed only where the count of faults rose.
    ensures cause { HasFetchCause (K.faults keeper.old) (K.faults keeper.new) result }
    ensures telling { TellsAlike (K.kept keeper.old) (K.kept keeper.new) }
{
    fetch_objects(alloc, part, keeper)
}

fn fetch_objects<K: Keeper>(alloc: Global, part: &Part, keeper: &mut K) -> Result<Part, FetchError>
    ensures part { IfOk result (λ fetched. fetched ≡ part.now) }
    ensures fetched { Fetches (objects_of part.now) (K.kept keeper.old) result }
    ensures stays { Stays (K.kept keeper.old) (K.kept keeper.new) }
    ensures cause { HasFetchCause (K.faults keeper.old) (K.faults keeper.new) result }
    ensures telling { TellsAlike (K.kept keeper.old) (K.kept keeper.new) }
{
    let sealed = match fetch_sealed(alloc, part, keeper) {
        Ok(sealed) => sealed,
        Err(error) => return Err(error),
    };
    fetch_others(alloc, part, keeper, sealed)
}

// The part of a segment whose rows were fetched.
fn fetch_others<K: Keeper>(
    alloc: Global,
    part: &Part,
    keeper: &mut K,
    sealed: Sealed,
) -> Result<Part, FetchError>
    requires { sealed ≡ with_lists part.now.sealed None }
    ensures part { IfOk result (λ fetched. fetched ≡ part.now) }
    ensures fetched { Fetches (delete_object part.now ∷ list_objects part.now.sealed.number part.now.sealed.lists) (K.kept keeper.old) result }
    ensures stays { Stays (K.kept keeper.old) (K.kept keeper.new) }
    ensures cause { HasFetchCause (K.faults keeper.old) (K.faults keeper.new) result }
    ensures telling { TellsAlike (K.kept keeper.old) (K.kept keeper.new) }
{
    let marks = match fetch_marks(alloc, part, keeper) {
        Ok(marks) => marks,
        Err(error) => return Err(error),
    };
    match fetch_lists(alloc, part, keeper, sealed) {
        Ok(sealed) => Ok(joined(alloc, sealed, marks)?),
        Err(error) => Err(error),
    }
}

fn joined(alloc: Global, sealed: Sealed, marks: Marks) -> Result<Part, Memory>
    requires { AreDeathsOf (length sealed.rows) marks.deaths }
    ensures sealed { IfOk result (λ part. part.sealed ≡ sealed) }
    ensures deaths { IfOk result (λ part. part.deaths ≡ marks.deaths) }
    ensures applied { IfOk result (λ part. part.applied ≡ marks.applied) }
{
    let sealed = Arc::new(alloc, sealed)?;
    let marks = Arc::new(alloc, marks)?;
    Ok(Part::new(sealed, marks))
}

fn fetch_sealed<K: Keeper>(alloc: Global, part: &Part, keeper: &mut K) -> Result<Sealed, FetchError>
    ensures sealed { IfOk result (λ sealed. sealed ≡ with_lists part.now.sealed None) }
    ensures fetched { Fetches (insert_object part.now ∷ []) (K.kept keeper.old) result }
    ensures stays { Stays (K.kept keeper.old) (K.kept keeper.new) }
    ensures cause { HasFetchCause (K.faults keeper.old) (K.faults keeper.new) result }
    ensures telling { TellsAlike (K.kept keeper.old) (K.kept keeper.new) }
{
    let object = insert_object(alloc, part)?;
    match get(keeper, &object) {
        Ok(bytes) => Ok(sealed_of(alloc, &bytes)?),
        Err(error) => Err(error),
    }
}

fn fetch_marks<K: Keeper>(alloc: Global, part: &Part, keeper: &mut K) -> Result<Marks, FetchError>
    ensures deaths { IfOk result (λ marks. marks.deaths ≡ part.now.deaths) }
    ensures applied { IfOk result (λ marks. marks.applied ≡ part.now.applied) }
    ensures below { IfOk result (λ marks. AreDeathsOf (length part.now.sealed.rows) marks.deaths) }
    ensures fetched { Fetches (delete_object part.now ∷ []) (K.kept keeper.old) result }
    ensures stays { Stays (K.kept keeper.old) (K.kept keeper.new) }
    ensures cause { HasFetchCause (K.faults keeper.old) (K.faults keeper.new) result }
    ensures telling { TellsAlike (K.kept keeper.old) (K.kept keeper.new) }
{
    let object = delete_object(alloc, part)?;
    match get(keeper, &object) {
        Ok(bytes) => Ok(marks_of(alloc, &bytes)?),
        Err(error) => Err(error),
    }
}

// The segment with its lists, if it has any.
fn fetch_lists<K: Keeper>(
    alloc: Global,
    part: &Part,
    keeper: &mut K,
    sealed: Sealed,
) -> Result<Sealed, FetchError>
    requires { sealed ≡ with_lists part.now.sealed None }
    ensures sealed { IfOk result (λ sealed. sealed ≡ part.now.sealed) }
    ensures fetched { Fetches (list_objects part.now.sealed.number part.now.sealed.lists) (K.kept keeper.old) result }
    ensures stays { Stays (K.kept keeper.old) (K.kept keeper.new) }
    ensures cause { HasFetchCause (K.faults keeper.old) (K.faults keeper.new) result }
    ensures telling { TellsAlike (K.kept keeper.old) (K.kept keeper.new) }
{
    let Some(object) = list_object(alloc, part)? else {
        return Ok(sealed);
    };
    match get(keeper, &object) {
        Ok(bytes) => Ok(with_lists(alloc, &sealed, &bytes)?),
        Err(error) => Err(error),
    }
}

// Gets one object, whose bytes are to be those that spell it.
fn get<K: Keeper>(keeper: &mut K, object: &Object) -> Result<Vec<u8>, FetchError>
    requires { object.now.name < 2 ^ 63 }
    ensures found { IfOk result (λ bytes. bytes.items ≡ object.now.bytes) }
    ensures fetched { Fetches (object.now ∷ []) (K.kept keeper.old) result }
    ensures stays { Stays (K.kept keeper.old) (K.kept keeper.new) }
    ensures cause { HasFetchCause (K.faults keeper.old) (K.faults keeper.new) result }
    ensures telling { TellsAlike (K.kept keeper.old) (K.kept keeper.new) }
{
    match keeper.get(object.name) {
        Ok(Some(bytes)) => compared(object, bytes),
        Ok(None) => Err(FetchError::Lost {
            object: object.name,
        }),
        Err(KeepError::Failed) => Err(FetchError::KeepFault {
            object: object.name,
        }),
        Err(KeepError::Memory) => Err(FetchError::Memory),
    }
}

// Bytes that were got for an object, which are to be those that spell it.
fn compared(object: &Object, bytes: Vec<u8>) -> Result<Vec<u8>, FetchError>
    ensures found { IfOk result (λ same. same.items ≡ object.now.bytes) }
    ensures answers { (given : Given) → given object.now.name ≡ Some bytes.items → Answers (object.now ∷ []) given result }
    ensures cause { OnFault result ⊥ }
{
    match first_difference(object.bytes.as_slice(), bytes.as_slice()) {
        None => Ok(bytes),
        Some(difference) => Err(FetchError::Damaged {
            object: object.name,
            at: difference.at as u64,
            want: difference.want,
            got: difference.got,
        }),
    }
}
