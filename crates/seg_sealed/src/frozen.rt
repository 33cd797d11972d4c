//! Marks that no call changes any more, sorted by their rows.

ghost use Rattle.std.specs.Prelude.{◌≡◌, ◌<◌, ◌^◌, ◌++◌, length, map, IfOk};
ghost use Rattle.std.specs.Option.{option_map};
ghost use Rattle.seg_sealed.specs.Marks.{RowsRise, death_of, death_at, deaths_in};
ghost use Rattle.seg_sealed.specs.Fields.{AreApart};

use hybrid_time::Timestamp;
use row_types::Memory;
use std::alloc::Global;
use std::marker::Model;
use std::sync::Arc;

/// Marks that no call changes any more, with several owners.
#[derive(Debug, Drop)]
pub(crate) struct Frozen {
    marks: Arc<Vec<(u32, Timestamp)>, Global>,
}

impl Model for Frozen {
    ghost use Rattle.std.specs.Prelude.{List, ℕ};
    ghost use Rattle.std.specs.Arc.{arc_value};
    ghost use Rattle.hybrid_time.specs.declared.times.Timestamp.{Timestamp};

    ghost Value = { List (ℕ × Timestamp) };

    ghost view = { λ f. (arc_value f.marks).items };
}

impl Frozen {
    pub(crate) fn of(alloc: Global, marks: Vec<(u32, Timestamp)>) -> Result<Frozen, Memory>
        ensures { IfOk result (λ f. f ≡ marks.items) }
    {
        let marks = Arc::new(alloc, marks)?;
        Ok(Frozen { marks })
    }

    pub(crate) fn marks(&self) -> &[(u32, Timestamp)]
        ensures { result.now ≡ self.now }
    {
        self.marks.as_slice()
    }

    pub(crate) fn len(&self) -> usize
        ensures len { result ≡ length self.now }
        ensures few { result < 2 ^ 63 }
    {
        self.marks.len()
    }

    /// One more owner.
    pub(crate) fn share(&self) -> Result<Frozen, Memory>
        ensures { IfOk result (λ f. f ≡ self.now) }
    {
        let marks = Arc::try_clone(&self.marks)?;
        Ok(Frozen { marks })
    }

    /// When a row died.
    pub(crate) fn find(&self, row: u32) -> Option<Timestamp>
        requires { RowsRise self.now }
        ensures { option_map (λ ts. ts.0) result ≡ death_at row (map death_of self.now) }
    {
        find_sorted(self.marks.as_slice(), row)
    }

    /// These marks and others of other rows, sorted.
    pub(crate) fn with(
        &self,
        alloc: Global,
        others: &[(u32, Timestamp)],
    ) -> Result<Vec<(u32, Timestamp)>, Memory>
        requires { AreApart (self.now ++ others.now) }
        ensures same { IfOk result (λ marks. map death_of marks.items ≡ deaths_in (self.now ++ others.now)) }
        ensures rise { IfOk result (λ marks. RowsRise marks.items) }
    {
        let mut marks = Vec::with_capacity(alloc, self.marks.len() + others.len())?;
        marks.extend_from_slice(self.marks.as_slice())?;
        marks.extend_from_slice(others)?;
        // The stable sort keeps the run of these marks, sorts the others alone, and merges the two in one
        // pass.
        marks.sort_by_key(|mark| mark.0)?;
        Ok(marks)
    }
}

fn find_sorted(marks: &[(u32, Timestamp)], row: u32) -> Option<Timestamp>
    requires { RowsRise marks.now }
    ensures { option_map (λ ts. ts.0) result ≡ death_at row (map death_of marks.now) }
{
    if marks.is_empty() {
        return None;
    }
    let (before, from) = marks.split_at(marks.len() / 2);
    let mark = from[0];
    if mark.0 == row {
        return Some(mark.1);
    }
    if row < mark.0 {
        return find_sorted(before, row);
    }
    find_sorted(&from[1..], row)
}
