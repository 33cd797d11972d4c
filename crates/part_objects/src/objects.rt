//! The objects of a part.

ghost use Rattle.std.specs.Prelude.{◌≡◌, ◌<◌, ◌^◌, length, Some, IfOk};
ghost use Rattle.std.specs.Option.{option_map, IfSome};
ghost use Rattle.binlog_format.specs.declared.objects.ListFile.{ListFile};
ghost use Rattle.binlog_format.specs.Lists.{SpellsLists};
ghost use Rattle.binlog_format.specs.Inserts.{SpellsInserts};
ghost use Rattle.binlog_format.specs.Deletes.{SpellsDeletes};
ghost use Rattle.seg_sealed.specs.Segments.{IsSealed, AreListsOf, log_of};
ghost use Rattle.seg_sealed.specs.Marks.{delete_log_of};
ghost use Rattle.seg_sealed.specs.Parts.{AreDeathsOf};
ghost use Rattle.part_objects.specs.Spellings.{insert_object, delete_object, list_object};

use crate::names::{ObjectKind, name_of};
use binlog_format::{write_delete, write_insert, write_lists};
use row_types::{List, Memory};
use seg_sealed::Part;
use std::alloc::Global;

/// Bytes under a name.
#[derive(Debug, Drop)]
pub struct Object {
    pub name: u64,
    pub bytes: List<u8>,
}

/// The insert log of a part's rows.
pub fn insert_object(alloc: Global, part: &Part) -> Result<Object, Memory>
    ensures object { IfOk result (λ object. object ≡ insert_object part.now) }
    ensures fits { IfOk result (λ object. object.name < 2 ^ 63) }
    ensures spells { IfOk result (λ object. SpellsInserts object.bytes (log_of part.now.sealed)) }
    ensures sealed { IsSealed part.now.sealed }
{
    let sealed = part.sealed();
    let number = sealed.number();
    let log = sealed.to_log(alloc)?;
    let bytes = write_insert(alloc, &log)?;
    Ok(Object {
        name: name_of(number, ObjectKind::InsertLog),
        bytes: List::of(bytes),
    })
}

/// The delete log of a part's deaths.
pub fn delete_object(alloc: Global, part: &Part) -> Result<Object, Memory>
    ensures object { IfOk result (λ object. object ≡ delete_object part.now) }
    ensures fits { IfOk result (λ object. object.name < 2 ^ 63) }
    ensures spells { IfOk result (λ object. SpellsDeletes object.bytes (delete_log_of part.now.sealed.number part.now.applied part.now.deaths)) }
    ensures deaths { AreDeathsOf (length part.now.sealed.rows) part.now.deaths }
{
    let number = part.sealed().number();
    let log = part.marks().to_log(alloc, number)?;
    let bytes = write_delete(alloc, &log)?;
    Ok(Object {
        name: name_of(number, ObjectKind::DeleteLog),
        bytes: List::of(bytes),
    })
}

/// The list file of a part's rows; `None` exactly where its segment has no lists.
pub fn list_object(alloc: Global, part: &Part) -> Result<Option<Object>, Memory>
    ensures object { IfOk result (λ object. object ≡ option_map (list_object part.now.sealed.number) part.now.sealed.lists) }
    ensures fits { IfOk result (λ object. IfSome object (λ x. x.name < 2 ^ 63)) }
    ensures spells { (file : ListFile) → part.now.sealed.lists ≡ Some file → IfOk result (λ object. IfSome object (λ x. SpellsLists x.bytes file)) }
    ensures lists { IfSome part.now.sealed.lists (AreListsOf part.now.sealed.number (length part.now.sealed.rows)) }
{
    let sealed = part.sealed();
    let Some(file) = sealed.lists() else {
        return Ok(None);
    };
    let name = name_of(sealed.number(), ObjectKind::ListFile);
    let bytes = write_lists(alloc, file)?;
    Ok(Some(Object {
        name,
        bytes: List::of(bytes),
    }))
}
