//! How far a row may be that is still kept.

ghost use Rattle.std.specs.Prelude.{◌≡◌, ◌/◌, ◌≤◌, ◌∷◌, [], true};
ghost use Rattle.std.specs.List.{AllByRecursion};
ghost use Rattle.row_types.specs.Hits.{num_of, den_of};
ghost use Rattle.flat_scan.specs.Bars.{is_past, whole_of, num_in, den_in};

use row_types::{Distance, Hit};

/// A hit behind which nothing is kept, if one is known, and its distance in the forms that a scan
/// compares: without a hit nothing is behind it.
#[derive(Drop)]
pub(crate) struct Bar {
    hit: Option<Hit>,
    whole: u32,
    num: u32,
    den: u32,
    ghost whole_is: { whole ≡ whole_of hit },
    ghost num_is: { num ≡ num_in hit },
    ghost den_is: { den ≡ den_in hit },
}

impl Bar {
    pub(crate) fn of(hit: Option<Hit>) -> Bar
        ensures { result.hit ≡ hit }
    {
        Bar {
            hit,
            whole: whole(hit),
            num: numerator(hit),
            den: divisor(hit),
        }
    }

    // How many of four distances are those of hits that come after the hit, whatever their keys: a sum,
    // and so without a branch between them.
    #[inline(always)]
    pub(crate) fn pasts(
        &self,
        first: Distance,
        second: Distance,
        third: Distance,
        fourth: Distance,
    ) -> u32
        ensures { 4 ≤ result → AllByRecursion (λ d. is_past self.now.hit d ≡ true) (first ∷ second ∷ third ∷ fourth ∷ []) }
    {
        self.past(first) + self.past(second) + self.past(third) + self.past(fourth)
    }

    // One where a hit at this distance comes after the hit, and else nothing.
    #[inline(always)]
    fn past(&self, distance: Distance) -> u32
        ensures past { 1 ≤ result → is_past self.now.hit distance ≡ true }
        ensures few { result ≤ 1 }
    {
        u32::from(self.is_before(distance))
    }

    // Whether a hit at this distance comes after the hit, whatever its key. Cross products of 32 bits
    // fit 64.
    #[inline(always)]
    pub(crate) fn is_before(&self, distance: Distance) -> bool
        ensures { result ≡ is_past self.now.hit distance }
    {
        match distance {
            Distance::Hamming(bits) => self.whole < bits,
            Distance::Jaccard { num, den } => {
                u64::from(self.num) * u64::from(den.max(1)) < u64::from(num) * u64::from(self.den)
            }
        }
    }
}

fn whole(hit: Option<Hit>) -> u32
    ensures { result ≡ whole_of hit }
{
    match hit {
        Some(last) => whole_part(last.distance),
        None => u32::MAX,
    }
}

// A number of bits is whole as it stands, without a division.
fn whole_part(distance: Distance) -> u32
    ensures { result ≡ num_of distance / den_of distance }
{
    match distance {
        Distance::Hamming(bits) => bits,
        Distance::Jaccard { num, den } => num / den.max(1),
    }
}

fn numerator(hit: Option<Hit>) -> u32
    ensures { result ≡ num_in hit }
{
    match hit {
        Some(last) => top(last.distance),
        None => 0,
    }
}

fn divisor(hit: Option<Hit>) -> u32
    ensures { result ≡ den_in hit }
{
    match hit {
        Some(last) => bottom(last.distance),
        None => 0,
    }
}

fn top(distance: Distance) -> u32
    ensures { result ≡ num_of distance }
{
    match distance {
        Distance::Hamming(bits) => bits,
        Distance::Jaccard { num, .. } => num,
    }
}

fn bottom(distance: Distance) -> u32
    ensures { result ≡ den_of distance }
{
    match distance {
        Distance::Hamming(_) => 1,
        Distance::Jaccard { den, .. } => den.max(1),
    }
}
