//! The names of objects.

ghost use Rattle.std.specs.Prelude.{◌≡◌, ◌<◌, ◌^◌};
ghost use Rattle.part_objects.specs.Spellings.{kind_number, name_of};

/// The kinds of a segment's objects.
#[derive(Clone, Copy, Debug, PartialEq, Eq)]
pub enum ObjectKind {
    InsertLog,
    DeleteLog,
    ListFile,
}

/// The name of a segment's object, below 2^63. Two objects of one name are of one segment and one
/// kind.
pub fn name_of(segment: u64, kind: ObjectKind) -> u64
    requires { segment < 2 ^ 60 }
    ensures name { result ≡ name_of segment kind }
    ensures fits { result < 2 ^ 63 }
{
    segment * 4 + number_of(kind)
}

fn number_of(kind: ObjectKind) -> u64
    ensures number { result ≡ kind_number kind }
    ensures small { result < 4 }
{
    match kind {
        ObjectKind::InsertLog => 0,
        ObjectKind::DeleteLog => 1,
        ObjectKind::ListFile => 2,
    }
}
