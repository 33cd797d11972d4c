//! A run of the top call over memory.

use manu_edge::{BytesSink, BytesSource, FixedMoments, Gate, MapKeeper, Moments, OpenGate, Source};
use manu_serve::{Ended, Status, serve};
use row_types::Text;
use std::alloc::{AllocError, Global};
use std::process::Abort;
use std::sync::Wait;
use std::test::Fail;
use std::thread::Threads;

/// What a run is given.
#[derive(Drop)]
pub struct Given<'a> {
    pub words: &'a [&'a str],
    pub input: &'a [u8],
    pub failing_reads: &'a [u32],
    pub failing_writes: &'a [u32],
}

/// The lines, each with its LF.
pub fn joined(alloc: Global, lines: &[&str]) -> Result<Vec<u8>, AllocError> {
    let mut bytes = Vec::new(alloc);
    for line in lines {
        bytes.extend_from_slice(line.as_bytes())?;
        bytes.push(b'\n')?;
    }
    Ok(bytes)
}

/// The status of a run, and what it wrote.
pub fn run<R: Threads + Wait + Sync, M: Moments + Sync>(
    rt: &R,
    alloc: Global,
    given: &Given,
    moments: &M,
) -> Result<(Status, Vec<u8>), Fail> {
    run_held(rt, alloc, given, moments, &OpenGate)
}

/// The same where a gate holds callers.
pub fn run_held<R: Threads + Wait + Sync, M: Moments + Sync, G: Gate + Sync>(
    rt: &R,
    alloc: Global,
    given: &Given,
    moments: &M,
    gate: &G,
) -> Result<(Status, Vec<u8>), Fail> {
    let input = given.input.to_vec(alloc)?;
    let mut source = BytesSource::new(input, given.failing_reads.to_vec(alloc)?);
    run_from(rt, alloc, given, &mut source, moments, gate)
}

/// The same of an input that comes from any source.
pub fn run_from<R: Threads + Wait + Sync, S: Source, M: Moments + Sync, G: Gate + Sync>(
    rt: &R,
    alloc: Global,
    given: &Given,
    source: &mut S,
    moments: &M,
    gate: &G,
) -> Result<(Status, Vec<u8>), Fail> {
    let mut words = Vec::new(alloc);
    for word in given.words {
        words.push(Text::copied(alloc, *word)?)?;
    }
    let mut sink = BytesSink::new(alloc, given.failing_writes.to_vec(alloc)?);
    let keeper = MapKeeper::new(alloc, Vec::new(alloc));
    let Ended { status, keeper: _ } = serve(
        rt, alloc, &words, source, &mut sink, keeper, moments, gate,
    );
    let output = sink.as_slice().to_vec(alloc)?;
    Ok((status, output))
}

/// What `run --still` writes for some lines, and how it ends; the clock, which tells 10,000, does not
/// count.
pub fn still<R: Threads + Wait + Sync, G: Gate + Sync>(
    rt: &R,
    alloc: Global,
    lines: &[&str],
    gate: &G,
) -> Result<(Status, Vec<u8>), Fail> {
    let input = joined(alloc, lines)?;
    let given = Given {
        words: &["run", "--still"],
        input: &input,
        failing_reads: &[],
        failing_writes: &[],
    };
    run_held(rt, alloc, &given, &FixedMoments(10_000), gate)
}

/// Sees that `run --still` ends well and writes these lines for those.
pub fn check<R: Abort + Threads + Wait + Sync>(
    rt: &R,
    alloc: Global,
    input: &[&str],
    output: &[&str],
) -> Result<(), Fail> {
    check_held(rt, alloc, input, output, &OpenGate)
}

/// The same where a gate holds callers.
pub fn check_held<R: Abort + Threads + Wait + Sync, G: Gate + Sync>(
    rt: &R,
    alloc: Global,
    input: &[&str],
    output: &[&str],
    gate: &G,
) -> Result<(), Fail> {
    let (status, written) = still(rt, alloc, input, gate)?;
    assert_eq!(rt; status, Status::Done);
    let wanted = joined(alloc, output)?;
    assert_eq!(rt; written.as_slice(), wanted.as_slice());
    Ok(())
}
