use super::super::*;
use std::test::*;

/// Segment 0, version 0, the lists [0] and [1].
const BYTES: [u8; 44] = [
    0x4d, 0x41, 0x4e, 0x55, 0x4c, 0x53, 0x54, 0x31, // the name
    0, 0, 0, 0, 0, 0, 0, 0, // the segment
    0, 0, 0, 0, // the version
    2, 0, 0, 0, // the number of lists
    2, 0, 0, 0, // the number of rows
    1, 0, 0, 0, // the length of the first list
    1, 0, 0, 0, // the length of the second list
    0, 0, 0, 0, // the row of the first list
    1, 0, 0, 0, // the row of the second list
];

#[test]
fn a_list_file_is_read_and_written_again(rt: HostRuntime) -> Result<(), Fail> {
    let alloc = rt.alloc();
    let file = read_lists(alloc, &BYTES)
        .ok()
        .ok_or("the bytes spell a list file")?;
    assert_eq!(rt; file.segment, 0);
    assert_eq!(rt; file.version, 0);
    for (list, row) in file.lists.as_slice().iter().zip([0, 1]) {
        assert_eq!(rt; list.as_slice(), [row].as_slice());
    }
    let bytes = write_lists(alloc, &file).ok().ok_or("memory")?;
    assert_eq!(rt; bytes.as_slice(), BYTES.as_slice());
    Ok(())
}

#[test]
fn a_list_file_is_refused_at_its_first_wrong_item(rt: HostRuntime) {
    let alloc = rt.alloc();
    for (place, byte, at, kind) in [
        (4, 0, 0, FormatKind::Magic),
        (15, 0x10, 8, FormatKind::Range), // segment 2^60
        (20, 0, 20, FormatKind::Range), // no lists
        (21, 8, 20, FormatKind::Range), // 2,050 lists
        (20, 9, 44, FormatKind::Short), // nine lists
        (24, 0, 24, FormatKind::Range), // no rows
        (26, 1, 24, FormatKind::Range), // 65,538 rows
        (28, 3, 28, FormatKind::Sum), // three rows in the first list
        (32, 2, 32, FormatKind::Sum), // three rows together
        (32, 0, 36, FormatKind::Sum), // one row together
        (36, 2, 36, FormatKind::Range), // there are two rows
        (40, 0, 40, FormatKind::Range), // the first row once more
    ] {
        let mut bytes = BYTES;
        if let Some(slot) = bytes.get_mut(place) {
            *slot = byte;
        }
        assert_eq!(rt;
            read_lists(alloc, &bytes).err(),
            Some(FormatError::Bad { at, kind }),
            "at {place}"
        );
    }
}

#[test]
fn a_list_file_that_is_cut_goes_on_or_falls_is_refused(rt: HostRuntime) -> Result<(), Fail> {
    let alloc = rt.alloc();
    assert_eq!(rt;
        read_lists(alloc, &BYTES[..43]).err(),
        Some(FormatError::Bad {
            at: 43,
            kind: FormatKind::Short
        })
    );
    let mut bytes = Vec::from_slice(alloc, &BYTES)?;
    bytes.push(0)?;
    assert_eq!(rt;
        read_lists(alloc, &bytes).err(),
        Some(FormatError::Bad {
            at: 44,
            kind: FormatKind::Extra
        })
    );
    let mut falls = BYTES;
    for (place, byte) in [(28, 2), (32, 0), (36, 1), (40, 0)] {
        if let Some(slot) = falls.get_mut(place) {
            *slot = byte;
        }
    }
    assert_eq!(rt;
        read_lists(alloc, &falls).err(),
        Some(FormatError::Bad {
            at: 40,
            kind: FormatKind::Order
        })
    );
    Ok(())
}
