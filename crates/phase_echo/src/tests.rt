//! The reader at work behind the smallest engine.

use crate::Echo;
use manu_edge::{BytesSink, BytesSource};
use phase_reading::{Stop, serve};
use std::test::Fail;

// A run over these bytes, whose reads and writes of the given numbers fail.
#[derive(Drop)]
struct Run {
    ended: Result<(), Stop>,
    phases: u64,
    sink: BytesSink,
}

fn run_over(rt: HostRuntime, bytes: Vec<u8>, failing: &[u32], torn: &[u32]) -> Result<Run, Fail> {
    let alloc = rt.alloc();
    let mut echo = Echo::new(alloc);
    let mut source = BytesSource::new(bytes, Vec::from_slice(alloc, failing)?);
    let mut sink = BytesSink::new(alloc, Vec::from_slice(alloc, torn)?);
    let ended = serve(alloc, &mut echo, &mut source, &mut sink);
    Ok(Run {
        ended,
        phases: echo.phases(),
        sink,
    })
}

#[test]
fn answers_one_phase_and_the_end(rt: HostRuntime) -> Result<(), Fail> {
    let run = run_over(rt, Vec::from_slice(rt.alloc(), b"c\na\nb")?, &[], &[])?;
    assert!(rt; run.ended.is_ok());
    assert_eq!(rt; run.sink.as_slice(), b"c\na\nb\n.".as_slice());
    Ok(())
}

#[test]
fn answers_two_phases_one_after_the_other(rt: HostRuntime) -> Result<(), Fail> {
    // the last line is a meet without its LF
    let run = run_over(rt, Vec::from_slice(rt.alloc(), b"c\na\nm\nb\nm")?, &[], &[])?;
    assert!(rt; run.ended.is_ok());
    assert_eq!(rt; run.phases, 2);
    assert_eq!(rt; run.sink.as_slice(), b"c\na\nm\nb\nm\n.".as_slice());
    Ok(())
}

#[test]
fn a_write_fault_in_the_second_phase_leaves_the_first(rt: HostRuntime) -> Result<(), Fail> {
    let run = run_over(
        rt,
        Vec::from_slice(rt.alloc(), b"c\na\nm\nb\nm\n")?,
        &[],
        &[3],
    )?;
    assert!(rt; matches!(run.ended, Err(Stop::WriteFault)));
    assert_eq!(rt; run.phases, 2);
    assert_eq!(rt; run.sink.as_slice(), b"c\na\nm\n".as_slice());
    Ok(())
}

#[test]
fn a_limit_leaves_the_phases_before_it(rt: HostRuntime) -> Result<(), Fail> {
    let mut bytes = Vec::from_slice(rt.alloc(), b"c\na\nm\nb\n")?;
    bytes.resize(2_097_161, b'x')?;
    bytes.extend_from_slice(b"\nm\n")?;
    let run = run_over(rt, bytes, &[], &[])?;
    assert!(rt; matches!(run.ended, Err(Stop::Limit)));
    assert_eq!(rt; run.phases, 1);
    assert_eq!(rt; run.sink.as_slice(), b"c\na\nm\n".as_slice());
    Ok(())
}
