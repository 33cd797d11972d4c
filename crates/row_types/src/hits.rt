//! Distances between vectors, and the hits of a search in their order.

ghost use Rattle.std.specs.Prelude.{◌≡◌, ◌↔◌, IsTrue, refl};
ghost use Rattle.std.specs.Cmp.{partial_equiv_from_equiv, eq_by_cmp_equiv, partial_order_from_total};
ghost use Rattle.std.specs.declared.cmp.Ordering.TheVariants.{Less};
ghost use Rattle.std.specs.Ordering.{eq_by_cmp, as_partial_cmp};
ghost use Rattle.row_types.specs.Hits.{num_of, den_of, written_den, variant_of, value_cmp, parts_cmp, hit_cmp};
ghost use Rattle.row_types.specs.Orders.{hits_total};

use crate::rows::Key;
use std::cmp::Ordering;

/// How the distance of two vectors is measured.
#[derive(Debug, Clone, Copy, PartialEq, Eq)]
pub enum Metric {
    Hamming,
    Jaccard,
}

/// A distance: a number of bits, or a fraction that is not reduced.
#[derive(Debug, Clone, Copy)]
pub enum Distance {
    Hamming(u32),
    Jaccard { num: u32, den: u32 },
}

impl Distance {
    fn numerator(self) -> u32
        ensures { result ≡ num_of self }
    {
        match self {
            Distance::Hamming(bits) => bits,
            Distance::Jaccard { num, .. } => num,
        }
    }

    /// The denominator as it is written; a number of bits stands over 1.
    fn denominator(self) -> u32
        ensures { result ≡ written_den self }
    {
        match self {
            Distance::Hamming(_) => 1,
            Distance::Jaccard { den, .. } => den,
        }
    }

    fn form(self) -> u8
        ensures { result ≡ variant_of self }
    {
        match self {
            Distance::Hamming(_) => 0,
            Distance::Jaccard { .. } => 1,
        }
    }

    /// By value. Cross products of 32 bits fit 64, so no fraction is rounded.
    fn compare_values(self, other: Distance) -> Ordering
        ensures { result ≡ value_cmp self other }
    {
        let here = u64::from(self.numerator()) * u64::from(divisor(other));
        let there = u64::from(other.numerator()) * u64::from(divisor(self));
        here.cmp(&there)
    }

    /// By the numbers of which the distances are made.
    fn compare_parts(self, other: Distance) -> Ordering
        ensures { result ≡ parts_cmp self other }
    {
        let rest = self
            .denominator()
            .cmp(&other.denominator())
            .then(self.form().cmp(&other.form()));
        self.numerator().cmp(&other.numerator()).then(rest)
    }
}

// What a distance is divided by: no distance has the denominator 0, and it counts as 1 so that the
// order is one on all values of the type.
fn divisor(distance: Distance) -> u32
    ensures { result ≡ den_of distance }
{
    distance.denominator().max(1)
}

/// A row that a search found, by its key, and its distance from the query's vector.
///
/// Hits are ordered by the value of the distance, then by key, then by the parts of the distance;
/// so 1/2 of key 5 comes before 2/4 of key 7. Only equal hits tie.
#[derive(Debug, Clone, Copy)]
pub struct Hit {
    pub distance: Distance,
    pub key: Key,
}

impl Hit {
    /// Whether this hit comes before another in the order of hits.
    pub fn before(&self, other: &Hit) -> bool
        ensures { IsTrue result ↔ (hit_cmp self.now other.now ≡ Less) }
    {
        self < other
    }
}

impl PartialEq for Hit {
    ghost eq = { eq_by_cmp hit_cmp };

    ghost laws = { partial_equiv_from_equiv (eq_by_cmp_equiv hits_total) };

    fn eq(&self, other: &Hit) -> bool {
        self.cmp(other).is_eq()
    }
}

impl Eq for Hit {
    ghost laws = { eq_by_cmp_equiv hits_total };
}

impl PartialOrd for Hit {
    ghost partial_cmp = { as_partial_cmp hit_cmp };

    ghost laws = { partial_order_from_total hits_total };

    fn partial_cmp(&self, other: &Hit) -> Option<Ordering> {
        Some(self.cmp(other))
    }
}

impl Ord for Hit {
    ghost cmp = { hit_cmp };

    ghost total = { hits_total };

    ghost matches_partial_cmp = { λ x y. refl };

    ghost matches_eq = { λ x y. refl };

    fn cmp(&self, other: &Hit) -> Ordering {
        let by_value = self.distance.compare_values(other.distance);
        let by_key = self.key.cmp(&other.key);
        by_value
            .then(by_key)
            .then_with(|| self.distance.compare_parts(other.distance))
    }
}

#[cfg(test)]
mod tests {
    use super::*;

    fn jaccard(num: u32, den: u32, key: i64) -> Hit {
        Hit {
            distance: Distance::Jaccard { num, den },
            key: Key(key),
        }
    }

    fn hamming(bits: u32, key: i64) -> Hit {
        Hit {
            distance: Distance::Hamming(bits),
            key: Key(key),
        }
    }

    #[test]
    fn value_comes_first_and_then_the_key(rt: HostRuntime) {
        let rising = [
            jaccard(1, 3, 9),
            jaccard(2, 4, 5),
            jaccard(1, 2, 7),
            jaccard(3, 4, -1),
            hamming(1, 3),
            hamming(1, 9),
            hamming(2, -8),
        ];
        for pair in rising.windows(2) {
            assert!(rt; pair[0].before(&pair[1]));
            assert!(rt; !pair[1].before(&pair[0]));
        }
    }
}
