//! What storing a part gives, and the names of its objects.

ghost use Rattle.std.specs.Prelude.{◌≡◌, IfOk};
ghost use Rattle.vault.specs.Names.{names_of};

use part_objects::{ObjectKind, name_of};
use row_types::Memory;
use seg_sealed::Part;
use std::alloc::Global;

/// What came of storing a part.
#[derive(Drop)]
pub enum Stored {
    /// It is kept; this is the part as it was fetched.
    Kept(Part),
    /// The keeper failed, or an object was lost or damaged.
    Failed,
}

/// The names of a part's objects, in the order in which they are stored and fetched.
pub(crate) fn names_of(alloc: Global, part: &Part) -> Result<Vec<u64>, Memory>
    ensures { IfOk result (λ names. names.items ≡ names_of part.now) }
{
    let sealed = part.sealed();
    let segment = sealed.number();
    let mut names = vec![in alloc;
        name_of(segment, ObjectKind::InsertLog),
        name_of(segment, ObjectKind::DeleteLog),
    ]?;
    if sealed.lists().is_some() {
        names.push(name_of(segment, ObjectKind::ListFile))?;
    }
    Ok(names)
}
