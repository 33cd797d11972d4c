//! Reading the bytes of objects. Those that spell a value are read as this value, so only memory can
//! be wanting.

ghost use Rattle.std.specs.Prelude.{◌≡◌, length, map, Some, None, IfOk};
ghost use Rattle.binlog_format.specs.declared.objects.DeleteLog.{DeleteLog};
ghost use Rattle.binlog_format.specs.declared.objects.ListFile.{ListFile};
ghost use Rattle.binlog_format.specs.Inserts.{SpellsInserts};
ghost use Rattle.binlog_format.specs.Deletes.{SpellsDeletes};
ghost use Rattle.binlog_format.specs.Lists.{SpellsLists};
ghost use Rattle.seg_sealed.specs.Segments.{SealedSegment, IsSealed, AreListsOf, log_of, with_lists};
ghost use Rattle.seg_sealed.specs.Marks.{death_of};

use binlog_format::{ListFile, read_delete, read_insert, read_lists};
use row_types::Memory;
use seg_sealed::{Marks, Sealed};
use std::alloc::Global;

/// The segment that an insert log spells, without lists.
pub(crate) fn sealed_of(alloc: Global, inserts: &[u8]) -> Result<Sealed, Memory>
    ensures { (s : SealedSegment) → IsSealed s → SpellsInserts inserts.now (log_of s) → IfOk result (λ r. r ≡ with_lists s None) }
{
    match read_insert(alloc, inserts) {
        Ok(log) => Sealed::of_log(alloc, log),
        Err(_) => Err(Memory),
    }
}

/// The marks that a delete log spells.
pub(crate) fn marks_of(alloc: Global, deletes: &[u8]) -> Result<Marks, Memory>
    ensures deaths { (log : DeleteLog) → SpellsDeletes deletes.now log → IfOk result (λ m. m.deaths ≡ map death_of log.marks) }
    ensures applied { (log : DeleteLog) → SpellsDeletes deletes.now log → IfOk result (λ m. m.applied ≡ log.applied) }
{
    match read_delete(alloc, deletes) {
        Ok(log) => Marks::of_log(alloc, log),
        Err(_) => Err(Memory),
    }
}

// The list file that bytes spell.
fn lists_of(alloc: Global, lists: &[u8]) -> Result<ListFile, Memory>
    ensures { (file : ListFile) → SpellsLists lists.now file → IfOk result (λ read. read ≡ file) }
{
    match read_lists(alloc, lists) {
        Ok(file) => Ok(file),
        Err(_) => Err(Memory),
    }
}

/// The segment with the lists that a list file spells.
pub(crate) fn with_lists(alloc: Global, sealed: &Sealed, lists: &[u8]) -> Result<Sealed, Memory>
    requires { (file : ListFile) × SpellsLists lists.now file × AreListsOf sealed.now.number (length sealed.now.rows) file }
    ensures { (file : ListFile) → SpellsLists lists.now file → IfOk result (λ s. s ≡ with_lists sealed.now (Some file)) }
{
    let file = lists_of(alloc, lists)?;
    sealed.with_lists(alloc, file)
}
