//! Worked examples: the forms in memory, which fail as planned, and the adapters of the system.

use crate::{
    At, BytesSink, BytesSource, Failed, FixedMoments, Gate, KeepError, Keeper, MapKeeper, Moments,
    OpenGate, Point, Sink, Source, StandardInput, StandardOutput, SystemClock, counted, moment_of,
    read_answer, write_answer,
};
use std::io;
use std::io::ErrorKind;
use std::test::Fail;
use std::time::Duration;

#[test]
fn a_source_gives_its_bytes_but_for_the_planned_call(rt: HostRuntime) -> Result<(), Fail> {
    let alloc = rt.alloc();
    let bytes = Vec::from_slice(alloc, b"abcde")?;
    let failing = Vec::from_slice(alloc, &[2])?;
    let mut source = BytesSource::new(bytes, failing);
    let mut place = [0; 3];
    assert_eq!(rt; source.read(&mut place), Ok(3));
    assert_eq!(rt; place.as_slice(), b"abc".as_slice());
    assert_eq!(rt; source.read(&mut place), Err(Failed));
    assert_eq!(rt; source.read(&mut place), Ok(2));
    assert_eq!(rt; place.as_slice(), b"dec".as_slice());
    assert_eq!(rt; source.read(&mut place), Ok(0));
    Ok(())
}

#[test]
fn a_sink_keeps_what_it_took(rt: HostRuntime) -> Result<(), Fail> {
    let alloc = rt.alloc();
    let mut sink = BytesSink::new(alloc, Vec::from_slice(alloc, &[2])?);
    assert_eq!(rt; sink.write(b"ab"), Ok(2));
    assert_eq!(rt; sink.write(b"cd"), Err(Failed));
    assert_eq!(rt; sink.write(b"ef"), Ok(2));
    assert_eq!(rt; sink.as_slice(), b"abef".as_slice());
    Ok(())
}

#[test]
fn a_keeper_has_what_was_put_last(rt: HostRuntime) -> Result<(), Fail> {
    let alloc = rt.alloc();
    let mut keeper = MapKeeper::new(alloc, Vec::from_slice(alloc, &[3])?);
    assert_eq!(rt; keeper.put(4, b"\x01\x02"), Ok(()));
    assert_eq!(rt; keeper.put(4, b"\x03"), Ok(()));
    assert_eq!(rt; keeper.remove(4), Err(KeepError::Failed));
    assert_eq!(rt; keeper.get(4)?.as_deref(), Some(b"\x03".as_slice()));
    keeper.spoil(4, Some(Vec::from_slice(alloc, b"\x09")?))?;
    assert_eq!(rt; keeper.get(4)?.as_deref(), Some(b"\x09".as_slice()));
    assert_eq!(rt; keeper.remove(4), Ok(()));
    assert_eq!(rt; keeper.get(4)?.as_deref(), None);
    Ok(())
}

#[test]
fn the_gate_is_open_and_the_clock_stands(rt: HostRuntime) {
    let point = Point {
        at: At::Start,
        caller: 0,
        line: 2,
    };
    OpenGate.pass(&rt, point);
    assert_eq!(rt; FixedMoments(10_000).now(), 10_000);
}

#[test]
fn what_the_system_answers_is_told_as_it_is(rt: HostRuntime) {
    assert_eq!(rt; read_answer(Ok(3)), Ok(3));
    let failed = read_answer(Err(io::Error::from(ErrorKind::BrokenPipe)));
    assert_eq!(rt; failed, Err(Failed));
    assert_eq!(rt; counted(4, &failed), 5);
    assert_eq!(rt; write_answer(Ok(2), 5), Ok(2));
    assert_eq!(rt; write_answer(Ok(0), 5), Err(Failed));
    assert_eq!(rt; moment_of(Some(Duration::from_millis(10_000))), 10_000);
    assert_eq!(rt; moment_of(None), 0);
}

#[test]
fn standard_input_can_be_read(rt: HostRuntime) {
    let mut input = StandardInput::new(rt.stdin());
    assert_eq!(rt; input.read(&mut []), Ok(0));
}

#[test]
fn standard_output_can_be_written(rt: HostRuntime) {
    let mut output = StandardOutput::new(rt.stdout());
    assert_eq!(rt; output.write(b""), Ok(0));
}

#[test]
fn the_system_has_a_clock(rt: HostRuntime) {
    // the year 2020
    assert!(rt; SystemClock::new(rt).now() > 1_577_836_800_000);
}
