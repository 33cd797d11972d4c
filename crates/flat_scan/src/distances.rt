//! The distances of rows that stand together, by metric.

ghost use Rattle.std.specs.Prelude.{◌≡◌, ◌+◌, ◌-◌, ◌<◌, ℕ, length};
ghost use Rattle.row_types.specs.declared.hits.Distance.{Distance};
ghost use Rattle.row_types.specs.declared.hits.Metric.TheVariants as metrics;
ghost use Rattle.row_types.specs.Hits.{fraction_of, distance_of};
ghost use Rattle.row_types.specs.Bits.{hamming_of, union_of};
ghost use Rattle.flat_scan.specs.Rows.{row_at};

use crate::columns::Column;
use crate::rows::row_of;
use bit_distance::{Steps, differing_bits, union_bits};
use log_model::{Plan, TailRow};
use row_types::{BitVector, Distance, Metric};
use std::sync::ledger::Ledger;

/// A distance for each of some rows.
pub(crate) trait Distances {
    /// How many rows there are.
    ghost count: { Self → ℕ };
    /// The distance of each.
    ghost far: { Self → ℕ → Distance };

    /// The distance of a row.
    fn distance(&self, i: u32) -> Distance
        requires { i < count self.now }
        ensures { result ≡ far self.now i };
}

/// Measures the distance of a row, which is a step.
#[inline(always)]
pub(crate) fn measured<D: Distances, L: Ledger>(far: &D, i: u32, steps: &mut Steps<L>) -> Distance
    requires { i < D.count far.now }
    ensures distance { result ≡ D.far far.now i }
    ensures steps { steps.new ≡ steps.old + 1 }
{
    steps.tick();
    far.distance(i)
}

/// Hamming distances.
#[derive(Drop)]
pub(crate) struct ByBits<'a, C: Column>(pub(crate) &'a C);

impl<C: Column> Distances for ByBits<'_, C> {
    ghost count = { λ d. C.count d.0.now };

    ghost far = { λ d i. distance_of metrics.Hamming (C.asked d.0.now) (C.bits d.0.now i) };

    fn distance(&self, i: u32) -> Distance {
        Distance::Hamming(self.0.differing(i))
    }
}

/// Jaccard distances.
#[derive(Drop)]
pub(crate) struct ByShare<'a, C: Column>(pub(crate) &'a C);

impl<C: Column> Distances for ByShare<'_, C> {
    ghost count = { λ d. C.count d.0.now };

    ghost far = { λ d i. distance_of metrics.Jaccard (C.asked d.0.now) (C.bits d.0.now i) };

    fn distance(&self, i: u32) -> Distance {
        fraction(self.0.differing(i), self.0.united(i))
    }
}

/// Distances of rows that stand one by one.
#[derive(Drop)]
pub(crate) struct OneByOne<'a> {
    pub(crate) rows: &'a [TailRow],
    pub(crate) query: &'a BitVector,
    pub(crate) plan: &'a Plan,
    ghost fits: { (i : ℕ) → i < length rows.now → length query.now ≡ length (row_at rows.now i).row.vector },
}

impl Distances for OneByOne<'_> {
    ghost count = { λ d. length d.rows.now };

    ghost far = { λ d i. distance_of d.plan.now.metric d.query.now (row_at d.rows.now i).row.vector };

    fn distance(&self, i: u32) -> Distance {
        let row = row_of(self.rows, i);
        apart(self.plan.metric, self.query, &row.vector)
    }
}

// The distance of two vectors.
fn apart(metric: Metric, a: &BitVector, b: &BitVector) -> Distance
    requires { length a.now ≡ length b.now }
    ensures { result ≡ distance_of metric a.now b.now }
{
    match metric {
        Metric::Hamming => Distance::Hamming(differing(a, b)),
        Metric::Jaccard => fraction(differing(a, b), united(a, b)),
    }
}

fn differing(a: &BitVector, b: &BitVector) -> u32
    requires { length a.now ≡ length b.now }
    ensures { result ≡ hamming_of a.now b.now }
{
    let ours = a.words();
    let theirs = b.words();
    differing_bits(ours, theirs)
}

fn united(a: &BitVector, b: &BitVector) -> u32
    requires { length a.now ≡ length b.now }
    ensures { result ≡ union_of a.now b.now }
{
    let ours = a.words();
    let theirs = b.words();
    union_bits(ours, theirs)
}

// The fraction of these parts, and 0/1 in place of a fraction of nothing.
pub(crate) fn fraction(num: u32, den: u32) -> Distance
    ensures { (common : ℕ) → num ≡ den - common → result ≡ fraction_of den common }
{
    if den == 0 {
        Distance::Jaccard { num: 0, den: 1 }
    } else {
        Distance::Jaccard { num, den }
    }
}
