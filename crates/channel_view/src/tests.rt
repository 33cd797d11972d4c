//! A view lends what it was made of.

use crate::View;
use coarse_lists::{Collection, Index};
use growing_segment::Growing;
use hybrid_time::Timestamp;
use row_types::{List, Memory, Metric, Schema};
use seg_sealed::Marks;
use std::sync::Arc;

#[test]
fn a_view_lends_what_it_was_made_of(rt: HostRuntime) -> Result<(), Memory> {
    let alloc = rt.alloc();
    let collection = Collection {
        dim: 8,
        metric: Metric::Jaccard,
        channels: 4,
        nodes: 2,
        seal_rows: 2,
        index: Index::Flat,
        schema: Schema {
            columns: List::of(Vec::new(alloc)),
        },
    };
    let tail = Growing::new(alloc, 8).share(alloc)?;
    let marks = Marks::new(alloc, 7)?;
    let view = View::new(
        Arc::new(alloc, collection)?,
        3,
        Timestamp(2),
        Timestamp(5),
        tail,
        marks,
        Arc::new(alloc, Vec::new(alloc))?,
    );
    assert_eq!(&rt; view.collection().dim, 8);
    assert_eq!(&rt;
        (view.channel(), view.floor(), view.tick()),
        (3, Timestamp(2), Timestamp(5))
    );
    assert_eq!(&rt; view.tail().dim(), 8);
    assert_eq!(&rt; view.tail_marks().applied(), 7);
    assert!(&rt; view.parts().is_empty());
    Ok(())
}
