ghost use Rattle.std.specs.Prelude.{◌≤◌};

use crate::TopList;
use row_types::{Distance, Hit, Key, Memory};
use std::alloc::Global;
use std::process::Abort;

fn bits(distance: u32, key: i64) -> Hit {
    Hit {
        distance: Distance::Hamming(distance),
        key: Key(key),
    }
}

fn fraction(num: u32, den: u32, key: i64) -> Hit {
    Hit {
        distance: Distance::Jaccard { num, den },
        key: Key(key),
    }
}

// Asserts what a list keeps, by single offers and filled at once.
fn expect(rt: &impl Abort, alloc: Global, k: u32, hits: &[Hit], want: &[Hit]) -> Result<(), Memory>
    requires some { 1 ≤ k }
    requires bound { k ≤ 16384 }
{
    let mut list = TopList::new(alloc, k)?;
    for hit in hits {
        list.offer(*hit);
    }
    let mut gather = TopList::new(alloc, k)?.gather();
    for hit in hits {
        gather.offer(*hit);
    }
    assert_eq!(rt; list.hits(), want);
    assert_eq!(rt; gather.settle().hits(), want);
    Ok(())
}

#[test]
fn the_k_least_are_kept_each_once(rt: HostRuntime) -> Result<(), Memory> {
    expect(&rt, rt.alloc(), 1, &[bits(1, 9), bits(1, 3)], &[bits(1, 3)])?;
    expect(
        &rt,
        rt.alloc(),
        2,
        &[fraction(1, 2, 7), fraction(2, 4, 5)],
        &[fraction(2, 4, 5), fraction(1, 2, 7)],
    )?;
    expect(
        &rt,
        rt.alloc(),
        3,
        &[bits(4, 1), bits(0, 8), bits(4, 1), bits(2, 5), bits(0, 8)],
        &[bits(0, 8), bits(2, 5), bits(4, 1)],
    )?;
    expect(
        &rt,
        rt.alloc(),
        2,
        &[bits(9, 1), bits(8, 2), bits(7, 3), bits(8, 1)],
        &[bits(7, 3), bits(8, 1)],
    )?;
    expect(
        &rt,
        rt.alloc(),
        16384,
        &[bits(3, 2), bits(3, 1)],
        &[bits(3, 1), bits(3, 2)],
    )
}

// Asserts that of hits at each distance below 200 the k nearest are kept, by single offers, and where
// the second half is filled at once. They are offered in steps round the circle of distances: a step
// of 1 rises, one of 199 falls, and others mix.
fn expect_nearest(rt: &impl Abort, alloc: Global, k: u32, step: u32) -> Result<(), Memory>
    requires some { 1 ≤ k }
    requires bound { k ≤ 200 }
    requires within { step ≤ 200 }
{
    let mut list = TopList::new(alloc, k)?;
    let mut front = TopList::new(alloc, k)?;
    for turn in 1..=100 {
        list.offer(bits(turn * step % 200, 7));
        front.offer(bits(turn * step % 200, 7));
    }
    let mut gather = front.gather();
    for turn in 101..=200 {
        list.offer(bits(turn * step % 200, 7));
        gather.offer(bits(turn * step % 200, 7));
    }
    let want: Vec<Hit> = (0..k).map(|distance| bits(distance, 7)).collect(alloc)?;
    assert_eq!(rt; list.hits(), want.as_slice());
    assert_eq!(rt; gather.settle().hits(), want.as_slice());
    Ok(())
}

#[test]
fn any_order_of_offers_keeps_the_same(rt: HostRuntime) -> Result<(), Memory> {
    for k in [1, 2, 3, 19, 20, 60, 199] {
        for step in [1, 199, 77, 123] {
            expect_nearest(&rt, rt.alloc(), k, step)?;
        }
    }
    Ok(())
}

#[test]
fn lists_that_share_keys_merge_to_each_key_once(rt: HostRuntime) -> Result<(), Memory> {
    let mut old = TopList::new(rt.alloc(), 2)?.gather();
    old.offer_all(&[bits(8, 2), bits(0, 1)]);
    let mut new = TopList::new(rt.alloc(), 5)?.gather();
    new.offer_all(&[bits(0, 1), bits(8, 2), bits(5, 4)]);
    let lists = [old.settle(), new.settle()];
    assert_eq!(rt;
        TopList::merge(rt.alloc(), &lists, 2)?.hits(),
        [bits(0, 1), bits(5, 4)].as_slice()
    );
    assert_eq!(rt;
        TopList::merge(rt.alloc(), &lists, 9)?.hits(),
        [bits(0, 1), bits(5, 4), bits(8, 2)].as_slice()
    );
    Ok(())
}

#[test]
fn the_limit_is_that_of_the_last_that_is_known(rt: HostRuntime) -> Result<(), Memory> {
    let mut gather = TopList::new(rt.alloc(), 2)?.gather();
    assert_eq!(rt; gather.limit(), u32::MAX);
    for key in 0..100 {
        gather.offer(bits(7, key));
    }
    assert_eq!(rt; gather.limit(), 7);
    assert_eq!(rt; gather.bar(), Some(bits(7, 1)));
    Ok(())
}
