use super::super::*;
use hybrid_time::Timestamp;
use row_types::Key;
use std::alloc::Global;
use std::test::*;

/// Segment 0 of dimension 8, one row at position 0 with timestamp 1, key 1 and vector 0f.
const BYTES: [u8; 53] = [
    0x4d, 0x41, 0x4e, 0x55, 0x49, 0x4e, 0x53, 0x31, // the name
    0, 0, 0, 0, 0, 0, 0, 0, // the segment
    8, 0, 0, 0, // the dimension
    1, 0, 0, 0, // the number of rows
    0, 0, 0, 0, // the number of columns
    0, 0, 0, 0, 0, 0, 0, 0, // the position
    1, 0, 0, 0, 0, 0, 0, 0, // the timestamp
    1, 0, 0, 0, 0, 0, 0, 0, // the key
    0x0f, // the vector
];

/// The same row, with the values 5, true and a text of one character in three columns.
const COLUMNS: [u8; 71] = [
    0x4d, 0x41, 0x4e, 0x55, 0x49, 0x4e, 0x53, 0x31, // the name
    0, 0, 0, 0, 0, 0, 0, 0, // the segment
    8, 0, 0, 0, // the dimension
    1, 0, 0, 0, // the number of rows
    3, 0, 0, 0, // the number of columns
    0, 0, 0, 0, 0, 0, 0, 0, // the position
    1, 0, 0, 0, 0, 0, 0, 0, // the timestamp
    1, 0, 0, 0, 0, 0, 0, 0, // the key
    0x0f, // the vector
    0, 5, 0, 0, 0, 0, 0, 0, 0, // a column of integers
    1, 1, // a column of truth values
    2, 2, 0, 0, 0, 0xc3, 0xa9, // a column of texts
];

/// Two rows, at the positions 0 and 1 with the timestamps 1 and 1.
const TWO: [u8; 78] = [
    0x4d, 0x41, 0x4e, 0x55, 0x49, 0x4e, 0x53, 0x31, // the name
    0, 0, 0, 0, 0, 0, 0, 0, // the segment
    8, 0, 0, 0, // the dimension
    2, 0, 0, 0, // the number of rows
    0, 0, 0, 0, // the number of columns
    0, 0, 0, 0, 0, 0, 0, 0, 1, 0, 0, 0, 0, 0, 0, 0, // the positions
    1, 0, 0, 0, 0, 0, 0, 0, 1, 0, 0, 0, 0, 0, 0, 0, // the timestamps
    1, 0, 0, 0, 0, 0, 0, 0, 2, 0, 0, 0, 0, 0, 0, 0, // the keys
    0x0f, 0x0e, // the vectors
];

fn written_again(alloc: Global, bytes: &[u8]) -> Option<Vec<u8>> {
    match read_insert(alloc, bytes) {
        Ok(log) => match write_insert(alloc, &log) {
            Ok(bytes) => Some(bytes),
            Err(_) => None,
        },
        Err(_) => None,
    }
}

#[test]
fn an_insert_log_is_read_and_written_again(rt: HostRuntime) -> Result<(), Fail> {
    let alloc = rt.alloc();
    let log = read_insert(alloc, &BYTES)
        .ok()
        .ok_or("the bytes spell an insert log")?;
    assert_eq!(rt; log.segment, 0);
    assert_eq!(rt; log.dim, 8);
    assert_eq!(rt; log.positions.as_slice(), [0].as_slice());
    assert_eq!(rt; log.stamps.as_slice(), [Timestamp(1)].as_slice());
    assert_eq!(rt; log.keys.as_slice(), [Key(1)].as_slice());
    assert_eq!(rt; log.columns.as_slice().len(), 0);
    let bytes = written_again(alloc, &BYTES).ok_or("memory")?;
    assert_eq!(rt; bytes.as_slice(), BYTES.as_slice());
    Ok(())
}

#[test]
fn columns_are_read_and_written_again(rt: HostRuntime) -> Result<(), Fail> {
    let alloc = rt.alloc();
    let log = read_insert(alloc, &COLUMNS)
        .ok()
        .ok_or("the bytes spell an insert log")?;
    for column in log.columns.as_slice() {
        match column {
            Column::Ints(ints) => assert_eq!(rt; ints.as_slice(), [5].as_slice()),
            Column::Bools(bools) => assert_eq!(rt; bools.as_slice(), [true].as_slice()),
            Column::Texts(texts) => {
                for text in texts.as_slice() {
                    assert_eq!(rt; text.as_str(), "é");
                }
            }
        }
    }
    let bytes = written_again(alloc, &COLUMNS).ok_or("memory")?;
    assert_eq!(rt; bytes.as_slice(), COLUMNS.as_slice());
    Ok(())
}

#[test]
fn an_insert_log_is_refused_at_its_first_wrong_item(rt: HostRuntime) {
    let alloc = rt.alloc();
    for (place, byte, at, kind) in [
        (7, 0x32, 0, FormatKind::Magic),
        (15, 0x10, 8, FormatKind::Range), // segment 2^60
        (16, 4, 16, FormatKind::Range), // dimension 4
        (16, 12, 16, FormatKind::Range), // dimension 12
        (17, 0x10, 16, FormatKind::Range), // dimension 4,104
        (20, 0, 20, FormatKind::Range), // no rows
        (22, 1, 20, FormatKind::Range), // 65,537 rows
        (21, 1, 71, FormatKind::Short), // 257 rows
        (24, 17, 24, FormatKind::Range), // 17 columns
        (24, 4, 71, FormatKind::Short), // four columns
        (24, 2, 64, FormatKind::Extra), // two columns
        (53, 3, 53, FormatKind::Range), // a column of kind 3
        (63, 2, 63, FormatKind::Range), // a truth value 2
        (66, 4, 65, FormatKind::Range), // a text of 1,026 bytes
        (65, 3, 71, FormatKind::Short), // a text of 3 bytes
        (69, 0xff, 69, FormatKind::Utf8),
    ] {
        let mut bytes = COLUMNS;
        if let Some(slot) = bytes.get_mut(place) {
            *slot = byte;
        }
        assert_eq!(rt;
            read_insert(alloc, &bytes).err(),
            Some(FormatError::Bad { at, kind }),
            "at {place}"
        );
    }
}

#[test]
fn rows_out_of_order_are_refused(rt: HostRuntime) {
    let alloc = rt.alloc();
    for (place, at) in [(36, 36), (52, 52)] {
        let mut bytes = TWO;
        if let Some(slot) = bytes.get_mut(place) {
            *slot = 0;
        }
        assert_eq!(rt;
            read_insert(alloc, &bytes).err(),
            Some(FormatError::Bad {
                at,
                kind: FormatKind::Order
            })
        );
    }
}

#[test]
fn an_insert_log_that_is_cut_or_goes_on_is_refused(rt: HostRuntime) -> Result<(), Fail> {
    let alloc = rt.alloc();
    assert_eq!(rt;
        read_insert(alloc, &BYTES[..52]).err(),
        Some(FormatError::Bad {
            at: 52,
            kind: FormatKind::Short
        })
    );
    let mut bytes = Vec::from_slice(alloc, &BYTES)?;
    bytes.push(0)?;
    assert_eq!(rt;
        read_insert(alloc, &bytes).err(),
        Some(FormatError::Bad {
            at: 53,
            kind: FormatKind::Extra
        })
    );
    Ok(())
}
