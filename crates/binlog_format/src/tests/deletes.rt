use super::super::*;
use hybrid_time::Timestamp;
use std::test::*;

/// Segment 0, applied up to 5, its first row dead at 3.
const BYTES: [u8; 40] = [
    0x4d, 0x41, 0x4e, 0x55, 0x44, 0x45, 0x4c, 0x31, // the name
    0, 0, 0, 0, 0, 0, 0, 0, // the segment
    5, 0, 0, 0, 0, 0, 0, 0, // applied
    1, 0, 0, 0, // the number of marks
    0, 0, 0, 0, // the row
    3, 0, 0, 0, 0, 0, 0, 0, // its timestamp
];

#[test]
fn a_delete_log_is_read_and_written_again(rt: HostRuntime) -> Result<(), Fail> {
    let alloc = rt.alloc();
    let log = read_delete(alloc, &BYTES)
        .ok()
        .ok_or("the bytes spell a delete log")?;
    assert_eq!(rt; log.segment, 0);
    assert_eq!(rt; log.applied, 5);
    assert_eq!(rt; log.marks.as_slice(), [(0, Timestamp(3))].as_slice());
    let bytes = write_delete(alloc, &log).ok().ok_or("memory")?;
    assert_eq!(rt; bytes.as_slice(), BYTES.as_slice());
    Ok(())
}

#[test]
fn a_delete_log_is_refused_at_its_first_wrong_item(rt: HostRuntime) {
    let alloc = rt.alloc();
    for (place, byte, at, kind) in [
        (0, 0, 0, FormatKind::Magic),
        (15, 0x10, 8, FormatKind::Range), // segment 2^60
        (26, 2, 24, FormatKind::Range), // 131,073 marks
        (24, 2, 40, FormatKind::Short), // two marks
        (30, 1, 28, FormatKind::Range), // one beyond the greatest row
    ] {
        let mut bytes = BYTES;
        if let Some(slot) = bytes.get_mut(place) {
            *slot = byte;
        }
        assert_eq!(rt;
            read_delete(alloc, &bytes).err(),
            Some(FormatError::Bad { at, kind }),
            "at {place}"
        );
    }
}

#[test]
fn a_delete_log_that_is_cut_goes_on_or_falls_is_refused(rt: HostRuntime) -> Result<(), Fail> {
    let alloc = rt.alloc();
    let mut bytes = Vec::from_slice(alloc, &BYTES)?;
    assert_eq!(rt;
        read_delete(alloc, &bytes[..39]).err(),
        Some(FormatError::Bad {
            at: 39,
            kind: FormatKind::Short
        })
    );
    bytes.push(0)?;
    assert_eq!(rt;
        read_delete(alloc, &bytes).err(),
        Some(FormatError::Bad {
            at: 40,
            kind: FormatKind::Extra
        })
    );
    let mut two = Vec::from_slice(alloc, &BYTES)?;
    two.extend_from_slice(&BYTES[28..])?;
    if let Some(slot) = two.get_mut(24) {
        *slot = 2;
    }
    assert_eq!(rt;
        read_delete(alloc, &two).err(),
        Some(FormatError::Bad {
            at: 40,
            kind: FormatKind::Order
        })
    );
    Ok(())
}
