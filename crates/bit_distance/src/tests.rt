//! Worked examples of distances.

ghost use Rattle.std.specs.Prelude.{◌≡◌, ◌<◌, ◌≤◌, length};

use crate::{Steps, distance};
use row_types::{BitVector, Distance, Memory, Metric};
use std::alloc::Global;
use std::marker::Brand;
use std::sync::ledger::{Blank, Ledger};

// The numerator and the denominator of the distance of the vectors of these bytes.
fn between<L: Ledger>(
    alloc: Global,
    metric: Metric,
    a: &[u8],
    b: &[u8],
    blank: Blank,
) -> Result<(u32, u32), Memory>
    requires left { length a.now ≤ 512 }
    requires right { length a.now ≡ length b.now }
    requires name { blank.name ≡ L.name }
    requires parts { blank.parts ≡ L.parts }
    requires some { 0 < L.parts }
{
    let a = BitVector::from_bytes(alloc, a)?;
    let b = BitVector::from_bytes(alloc, b)?;
    let mut steps: Steps<L> = Steps::none(blank);
    match distance(metric, &a, &b, &mut steps) {
        Distance::Hamming(bits) => Ok((bits, 1)),
        Distance::Jaccard { num, den } => Ok((num, den)),
    }
}

#[test]
fn differing_bits_of_long_vectors(rt: HostRuntime) -> Result<(), Memory> {
    for (first, others, want) in [(0x00u8, 0x00u8, 0u32), (0xff, 0xff, 4096), (0x80, 0x00, 1)] {
        let mut bytes = [others; 512];
        bytes[0] = first;
        let far = between::<Brand>(
            rt.alloc(),
            Metric::Hamming,
            &[0; 512],
            &bytes,
            Blank::new(1),
        )?;
        assert_eq!(rt; far, (want, 1));
    }
    Ok(())
}

#[test]
fn shares_of_the_union(rt: HostRuntime) -> Result<(), Memory> {
    for (a, b, want) in [
        (0x00, 0x00, (0, 1)),
        (0x00, 0xff, (8, 8)),
        (0xc0, 0x80, (1, 2)),
        (0xc0, 0xf0, (2, 4)),
    ] {
        let far = between::<Brand>(rt.alloc(), Metric::Jaccard, &[a], &[b], Blank::new(1))?;
        assert_eq!(rt; far, want);
    }
    Ok(())
}
