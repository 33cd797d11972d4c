//! A segment with its marks.

ghost use Rattle.std.specs.Prelude.{◌≡◌, length, IfOk};
ghost use Rattle.std.specs.Arc.{arc_value};
ghost use Rattle.seg_sealed.specs.Parts.{AreDeathsOf, part_of};

use crate::marks::Marks;
use crate::sealed::Sealed;
use row_types::Memory;
use std::alloc::Global;
use std::marker::Model;
use std::sync::Arc;

/// A segment with the marks of its dead rows; both have several owners. Contracts see the segment,
/// its deaths, and the position up to which they are marked.
#[derive(Debug, Drop)]
pub struct Part {
    sealed: Arc<Sealed, Global>,
    marks: Arc<Marks, Global>,
}

impl Model for Part {
    ghost use Rattle.std.specs.Prelude.{length};
    ghost use Rattle.std.specs.Arc.{arc_value};
    ghost use Rattle.seg_sealed.specs.Parts.{SegmentPart, AreDeathsOf, part_of};

    ghost Value = { SegmentPart };

    ghost view = { λ p. part_of (arc_value p.sealed) (arc_value p.marks) };

    ghost invariant = { λ p. AreDeathsOf (length (arc_value p.sealed).rows) (arc_value p.marks).deaths };
}

impl Part {
    /// The part of a segment and the marks of its rows; takes no memory.
    pub fn new(sealed: Arc<Sealed, Global>, marks: Arc<Marks, Global>) -> Part
        requires { AreDeathsOf (length (arc_value sealed).rows) (arc_value marks).deaths }
        ensures { result ≡ part_of (arc_value sealed) (arc_value marks) }
    {
        Part { sealed, marks }
    }

    /// One more owner of the segment and of the marks.
    pub fn share(&self) -> Result<Part, Memory>
        ensures { IfOk result (λ p. p ≡ self.now) }
    {
        let sealed = Arc::try_clone(&self.sealed)?;
        let marks = Arc::try_clone(&self.marks)?;
        Ok(Part { sealed, marks })
    }

    /// The same segment with other marks of its rows.
    pub fn with_marks(&self, marks: Arc<Marks, Global>) -> Result<Part, Memory>
        requires { AreDeathsOf (length self.now.sealed.rows) (arc_value marks).deaths }
        ensures { IfOk result (λ p. p ≡ part_of self.now.sealed (arc_value marks)) }
    {
        let sealed = Arc::try_clone(&self.sealed)?;
        Ok(Part { sealed, marks })
    }

    /// The segment.
    pub fn sealed(&self) -> &Sealed
        ensures sealed { result.now ≡ self.now.sealed }
        ensures marks { AreDeathsOf (length self.now.sealed.rows) self.now.deaths }
    {
        &self.sealed
    }

    /// The marks.
    pub fn marks(&self) -> &Marks
        ensures deaths { result.now.deaths ≡ self.now.deaths }
        ensures applied { result.now.applied ≡ self.now.applied }
    {
        &self.marks
    }
}
