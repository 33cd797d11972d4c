//! Runs that end in another way, and moments that count.

ghost use Rattle.std.specs.declared.option.Option.TheVariants.{None};

use crate::runs::{Given, joined, run, run_from};
use manu_edge::{Failed, FixedMoments, Moments, OpenGate, Source};
use manu_serve::Status;
use std::alloc::Global;
use std::sync::Wait;
use std::sync::atomic::{AtomicU64, Ordering};
use std::test::Fail;
use std::thread::Threads;

const CREATE: &str = "{\"op\":\"create\",\"dim\":8}";

const CREATED: &str = "{\"answer\":\"created\",\"line\":1}";

const INSERT: &str = "{\"op\":\"insert\",\"key\":1,\"vector\":\"0f\"}";

const SEARCH: &str = "{\"op\":\"search\",\"vector\":\"0f\",\"k\":1}";

#[test]
fn nothing_is_written_where_the_run_does_not_come_to_answers(rt: HostRuntime) -> Result<(), Fail> {
    let alloc = rt.alloc();
    let whole = joined(alloc, &[CREATE, INSERT])?;
    let still: &[&str] = &["run", "--still"];
    let cases = [
        (
            still,
            b"".as_slice(),
            [].as_slice(),
            [].as_slice(),
            Status::BadHeader,
        ),
        (still, whole.as_slice(), &[1], &[], Status::ReadFault),
        (still, whole.as_slice(), &[], &[1], Status::WriteFault),
        (&["fly"], whole.as_slice(), &[], &[], Status::Usage),
    ];
    for (words, input, failing_reads, failing_writes, wanted) in cases {
        let given = Given {
            words,
            input,
            failing_reads,
            failing_writes,
        };
        let (status, output) = run(&rt, alloc, &given, &FixedMoments(0))?;
        assert_eq!(rt; status, wanted);
        assert_eq!(rt; output.len(), 0);
    }
    Ok(())
}

#[test]
fn each_ending_has_its_number_and_its_text(rt: HostRuntime) {
    let cases = [
        (Status::Done, 0, None),
        (Status::BadHeader, 2, Some("manu: bad header")),
        (Status::ReadFault, 4, Some("manu: read fault")),
        (Status::WriteFault, 5, Some("manu: write fault")),
        (Status::Limit, 6, Some("manu: limit")),
        (Status::Memory, 7, Some("manu: memory")),
        (Status::Usage, 64, Some("manu: usage: manu run [--still]")),
    ];
    for (status, number, text) in cases {
        assert_eq!(rt; status.number(), number);
        assert_eq!(rt; status.text(), text);
    }
}

// How a run of one insert ends, and what it writes, where these calls of its source and its sink fail.
fn failing<R: Threads + Wait + Sync>(
    rt: &R,
    alloc: Global,
    reads: &[u32],
    writes: &[u32],
) -> Result<(Status, Vec<u8>), Fail> {
    let input = joined(alloc, &[CREATE, INSERT])?;
    let given = Given {
        words: &["run", "--still"],
        input: &input,
        failing_reads: reads,
        failing_writes: writes,
    };
    run(rt, alloc, &given, &FixedMoments(0))
}

// The source is asked twice, for the input and for its end. The output is written in two parts: the
// answer to line 1 once it was read, and the rest at the end.
#[test]
fn a_fault_comes_exactly_where_a_call_fails(rt: HostRuntime) -> Result<(), Fail> {
    let alloc = rt.alloc();
    let created = joined(alloc, &[CREATED])?;
    let whole = joined(
        alloc,
        &[
            CREATED,
            "{\"answer\":\"ok\",\"line\":2,\"ts\":1}",
            "{\"answer\":\"end\",\"failed\":0,\"live\":1,\"node_live\":0,\"node_rows\":0,\"tail\":1,\"ts\":2,\"waiting\":0}",
        ],
    )?;
    let cases = [
        (1, [].as_slice(), Status::ReadFault, Status::WriteFault),
        (2, created.as_slice(), Status::ReadFault, Status::WriteFault),
        (3, whole.as_slice(), Status::Done, Status::Done),
        (4, whole.as_slice(), Status::Done, Status::Done),
    ];
    for (call, wanted, of_reads, of_writes) in cases {
        let (status, output) = failing(&rt, alloc, &[call], &[])?;
        assert_eq!(rt; status, of_reads);
        assert_eq!(rt; output.as_slice(), wanted);
        let (status, output) = failing(&rt, alloc, &[], &[call])?;
        assert_eq!(rt; status, of_writes);
        assert_eq!(rt; output.as_slice(), wanted);
    }
    Ok(())
}

/// Gives its bytes one at a time, and counts them.
#[derive(Drop)]
struct Drops<'a> {
    bytes: &'a [u8],
    given: usize,
}

impl Source for Drops<'_> {
    ghost left = { λ _. None };

    ghost faults = { λ _. 0 };

    fn read(&mut self, into: &mut [u8]) -> Result<usize, Failed> {
        if into.is_empty() || self.given >= self.bytes.len() {
            return Ok(0);
        }
        into[0] = self.bytes[self.given];
        self.given += 1;
        Ok(1)
    }
}

// How a run ends that is given its input a byte at a time, and how many bytes it took.
fn drop_by_drop<R: Threads + Wait + Sync>(
    rt: &R,
    alloc: Global,
    lines: &[&str],
) -> Result<(Status, usize), Fail> {
    let input = joined(alloc, lines)?;
    let given = Given {
        words: &["run", "--still"],
        input: &[],
        failing_reads: &[],
        failing_writes: &[],
    };
    let mut source = Drops {
        bytes: &input,
        given: 0,
    };
    let (status, _) = run_from(rt, alloc, &given, &mut source, &FixedMoments(0), &OpenGate)?;
    Ok((status, source.given))
}

#[test]
fn nothing_is_read_behind_a_bad_header(rt: HostRuntime) -> Result<(), Fail> {
    let (status, taken) = drop_by_drop(&rt, rt.alloc(), &["{}", CREATE])?;
    assert_eq!(rt; status, Status::BadHeader);
    assert_eq!(rt; taken, 3);
    let (status, taken) = drop_by_drop(&rt, rt.alloc(), &[CREATE, "{"])?;
    assert_eq!(rt; status, Status::Done);
    assert_eq!(rt; taken, 26);
    Ok(())
}

// A line longer than a line may be.
fn long_line(alloc: Global) -> Result<Vec<u8>, Fail> {
    Ok(vec![in alloc; b' '; 2_097_153]?)
}

// What was answered of the phases before the line is written; the insert of the phase that is cut is not.
#[test]
fn a_line_that_is_too_long_passes_the_limit(rt: HostRuntime) -> Result<(), Fail> {
    let alloc = rt.alloc();
    let met = [CREATE, INSERT, "{\"op\":\"meet\"}", INSERT];
    let answers = [
        CREATED,
        "{\"answer\":\"ok\",\"line\":2,\"ts\":1}",
        "{\"answer\":\"met\",\"failed\":0,\"line\":3,\"live\":1,\"node_live\":0,\"node_rows\":0,\"tail\":1,\"ts\":2,\"waiting\":0}",
    ];
    let cases = [
        ([CREATE, INSERT].as_slice(), [CREATED].as_slice()),
        (&met, &answers),
    ];
    for (lines, wanted) in cases {
        let mut input = joined(alloc, lines)?;
        input.extend_from_slice(&long_line(alloc)?)?;
        let given = Given {
            words: &["run", "--still"],
            input: &input,
            failing_reads: &[],
            failing_writes: &[],
        };
        let (status, output) = run(&rt, alloc, &given, &FixedMoments(0))?;
        let wanted = joined(alloc, wanted)?;
        assert_eq!(rt; status, Status::Limit);
        assert_eq!(rt; output.as_slice(), wanted.as_slice());
    }
    Ok(())
}

/// Tells 10,000 times the number of the call.
#[derive(Drop)]
struct Steps {
    calls: AtomicU64,
}

impl Moments for Steps {
    ghost least = { λ _. 0 };

    fn now(&self) -> u64 {
        let call = self.calls.fetch_add(1, Ordering::SeqCst).saturating_add(1);
        call.saturating_mul(10_000)
    }
}

#[test]
fn each_request_reads_the_moment_anew(rt: HostRuntime) -> Result<(), Fail> {
    let alloc = rt.alloc();
    let input = joined(alloc, &[CREATE, INSERT, SEARCH])?;
    let given = Given {
        words: &["run"],
        input: &input,
        failing_reads: &[],
        failing_writes: &[],
    };
    let (_, output) = run(&rt, alloc, &given, &FixedMoments(10_000))?;
    let wanted = joined(
        alloc,
        &[
            "{\"answer\":\"created\",\"line\":1}",
            "{\"answer\":\"ok\",\"line\":2,\"ts\":2621440000}",
            "{\"answer\":\"hits\",\"guarantee\":1310720001,\"hits\":[[0,1]],\"line\":3,\"now\":2621440001,\"ts\":2621440002}",
            "{\"answer\":\"end\",\"failed\":0,\"live\":1,\"node_live\":0,\"node_rows\":0,\"tail\":1,\"ts\":2621440003,\"waiting\":0}",
        ],
    )?;
    assert_eq!(rt; output.as_slice(), wanted.as_slice());
    let (_, output) = run(
        &rt,
        alloc,
        &given,
        &Steps {
            calls: AtomicU64::new(0),
        },
    )?;
    let wanted = joined(
        alloc,
        &[
            "{\"answer\":\"created\",\"line\":1}",
            "{\"answer\":\"ok\",\"line\":2,\"ts\":2621440000}",
            "{\"answer\":\"hits\",\"guarantee\":3932160000,\"hits\":[[0,1]],\"line\":3,\"now\":5242880000,\"ts\":5242880001}",
            "{\"answer\":\"end\",\"failed\":0,\"live\":1,\"node_live\":0,\"node_rows\":0,\"tail\":1,\"ts\":7864320000,\"waiting\":0}",
        ],
    )?;
    assert_eq!(rt; output.as_slice(), wanted.as_slice());
    Ok(())
}

#[test]
fn a_refused_line_reads_no_moment(rt: HostRuntime) -> Result<(), Fail> {
    let alloc = rt.alloc();
    let input = joined(alloc, &[CREATE, "{", INSERT])?;
    let given = Given {
        words: &["run"],
        input: &input,
        failing_reads: &[],
        failing_writes: &[],
    };
    let moments = Steps {
        calls: AtomicU64::new(0),
    };
    let (_, output) = run(&rt, alloc, &given, &moments)?;
    let wanted = joined(
        alloc,
        &[
            "{\"answer\":\"created\",\"line\":1}",
            "{\"answer\":\"refused\",\"line\":2,\"reason\":\"NotJson\"}",
            "{\"answer\":\"ok\",\"line\":3,\"ts\":2621440000}",
            "{\"answer\":\"end\",\"failed\":0,\"live\":1,\"node_live\":0,\"node_rows\":0,\"tail\":1,\"ts\":5242880000,\"waiting\":0}",
        ],
    )?;
    assert_eq!(rt; output.as_slice(), wanted.as_slice());
    Ok(())
}
