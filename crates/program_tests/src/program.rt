// The top call on sources and sinks: which fault ends it and what was written then, how many reads and writes it makes,
// and which runs its crews keep.

use dbp_plan::{MemSink, MemSource, ReadSource, WriteSink};
use dbp_top::{Status, dbp_main, plain_main};
use party_exec::{CrewEntry, FreePace, TaskEnd, ThreadCrew, TurnCrew};
use std::alloc::Global;
use std::process::Abort;
use std::sync::Wait;
use std::test::Fail;
use std::thread::Threads;
use test_inputs::{Document, TWO_RATES};

const TWO_RATES_LINES: &str = "0,a,1,1\n0,b,1,10\n2,a,2,2\n3,b,2,20\n4,a,3,3\n";

const THREE_RATES_LINES: &str =
    "0,a,1,1\n0,b,1,10\n0,h,1,0\n1,h,2,0\n2,a,2,2\n2,h,3,1\n3,b,2,20\n3,h,4,1\n4,a,3,3\n4,h,5,2\n5,h,6,2\n";

// A command line of these words.
fn line_of(alloc: Global, words: &[&str]) -> Result<Vec<String>, Fail> {
    let mut line = Vec::new(alloc);
    for word in words {
        line.push(word.to_string(alloc)?)?;
    }
    Ok(line)
}

// The input in pieces of 16 bytes. The read with this number fails.
fn source_of(alloc: Global, input: &str, fails: u32) -> Result<MemSource, Fail> {
    let bytes = input.as_bytes().to_vec(alloc)?;
    let failing = vec![in alloc; fails]?;
    Ok(MemSource::new(bytes, 16, failing))
}

// Room for what is written, in pieces of this size. The write with this number fails.
fn sink_of(alloc: Global, (piece, fails): (usize, u32)) -> Result<MemSink, Fail> {
    let room = 1_000;
    let failing = vec![in alloc; fails]?;
    let store = Vec::with_capacity(alloc, room)?;
    Ok(MemSink::new(store, room, piece.max(1), failing))
}

// How a call ends, and how many runs the crew of threads and that of drawn turns then have.
type Ended = (Status, usize, usize);

// The words and the input of a call, which read fails, the size of a write and which one fails, and how it is to end.
#[derive(Clone, Copy)]
struct Call {
    words: &'static [&'static str],
    input: &'static str,
    read: u32,
    writes: (usize, u32),
    ended: Ended,
}

// How the tasks of the documents stand after a run: one has the first two of them, the other all.
static ENDS: [TaskEnd; 3] = [
    TaskEnd {
        ended: 3,
        occurrences: 3,
    },
    TaskEnd {
        ended: 2,
        occurrences: 2,
    },
    TaskEnd {
        ended: 6,
        occurrences: 6,
    },
];

// How many runs of the documents these are; if one is of another, more than there are.
fn run_count(runs: &[CrewEntry]) -> usize {
    let are_whole = runs.iter().all(|entry| match ENDS.get(..entry.tasks.items().len()) {
        Some(ends) => ends.len() > 1 && entry.tasks.items() == ends,
        None => false,
    });
    if are_whole { runs.len() } else { usize::MAX }
}

// How a call of these streams ends.
fn ended<R: Threads + Wait + Sync>(
    rt: &R,
    alloc: Global,
    line: &[String],
    source: &mut MemSource,
    sink: &mut MemSink,
    crew: &mut ThreadCrew<FreePace>,
    turns: &mut TurnCrew,
) -> Ended {
    let status = dbp_main(rt, alloc, line, source, sink, crew, turns);
    (status, run_count(crew.runs()), run_count(turns.runs()))
}

// Whether the call ends as it is to, and this is what it writes.
fn writes_so<R: Threads + Wait + Sync>(
    rt: &R,
    alloc: Global,
    line: &[String],
    crew: &mut ThreadCrew<FreePace>,
    turns: &mut TurnCrew,
    call: &Call,
    text: &[u8],
) -> Result<bool, Fail> {
    let mut source = source_of(alloc, call.input, call.read)?;
    let mut sink = sink_of(alloc, call.writes)?;
    let ended = ended(rt, alloc, line, &mut source, &mut sink, crew, turns);
    Ok(ended == call.ended && sink.bytes() == text)
}

// Compares how the call ends, and what it writes.
fn compare<R: Abort + Threads + Wait + Sync>(
    rt: &R,
    alloc: Global,
    crew: &mut ThreadCrew<FreePace>,
    turns: &mut TurnCrew,
    call: &Call,
    text: &[u8],
) -> Result<(), Fail> {
    let line = line_of(alloc, call.words)?;
    let is_so = writes_so(rt, alloc, &line, crew, turns, call, text)?;
    assert!(rt; is_so, "{:?}", call.words);
    Ok(())
}

// Which read fails, the size of a write and which one fails, the status, and how many bytes of the lines are written. The
// document is 13 pieces of 16 bytes, and one more read finds its end; the lines are six pieces of 8 bytes.
static FAULTS: [(u32, (usize, u32), Status, usize); 23] = [
    (1, (8, 0), Status::ReadFault, 0),
    (2, (8, 0), Status::ReadFault, 0),
    (3, (8, 0), Status::ReadFault, 0),
    (4, (8, 0), Status::ReadFault, 0),
    (5, (8, 0), Status::ReadFault, 0),
    (6, (8, 0), Status::ReadFault, 0),
    (7, (8, 0), Status::ReadFault, 0),
    (8, (8, 0), Status::ReadFault, 0),
    (9, (8, 0), Status::ReadFault, 0),
    (10, (8, 0), Status::ReadFault, 0),
    (11, (8, 0), Status::ReadFault, 0),
    (12, (8, 0), Status::ReadFault, 0),
    (13, (8, 0), Status::ReadFault, 0),
    (14, (8, 0), Status::ReadFault, 0),
    (3, (8, 1), Status::ReadFault, 0),
    (0, (8, 1), Status::WriteFault, 0),
    (0, (8, 2), Status::WriteFault, 8),
    (0, (8, 3), Status::WriteFault, 16),
    (0, (8, 4), Status::WriteFault, 24),
    (0, (8, 5), Status::WriteFault, 32),
    (0, (8, 6), Status::WriteFault, 40),
    (0, (9, 2), Status::WriteFault, 9),
    // the first read and the first write after all that are to be made
    (15, (8, 7), Status::Ok, 42),
];

// Each of these calls ends as it is to, and no crew runs anything.
fn compare_faults<R: Abort + Threads + Wait + Sync>(
    rt: &R,
    alloc: Global,
    crew: &mut ThreadCrew<FreePace>,
    turns: &mut TurnCrew,
) -> Result<(), Fail> {
    for (read, writes, status, written) in &FAULTS {
        let call = Call {
            words: &["mean"],
            input: TWO_RATES,
            read: *read,
            writes: *writes,
            ended: (*status, 0, 0),
        };
        let text = TWO_RATES_LINES
            .as_bytes()
            .get(..*written)
            .unwrap_or(b"more");
        compare(rt, alloc, crew, turns, &call, text)?;
    }
    Ok(())
}

#[test]
fn faults_end_the_call(rt: HostRuntime) -> Result<(), Fail> {
    let mut crew = ThreadCrew::new(rt.alloc(), FreePace);
    let mut turns = TurnCrew::new(rt.alloc(), 0);
    compare_faults(&rt, rt.alloc(), &mut crew, &mut turns)
}

#[test]
fn a_refusal_makes_no_more_reads_and_writes(rt: HostRuntime) -> Result<(), Fail> {
    let mut crew = ThreadCrew::new(rt.alloc(), FreePace);
    let mut turns = TurnCrew::new(rt.alloc(), 0);
    let call = Call {
        words: &["mean"],
        input: "",
        read: 2,
        writes: (8, 6),
        ended: (Status::Refused, 0, 0),
    };
    let text = b"refused: line 1: 8 MissingHeader\n";
    compare(&rt, rt.alloc(), &mut crew, &mut turns, &call, text)
}

#[test]
fn a_reader_and_a_writer_of_std_serve(rt: HostRuntime) -> Result<(), Fail> {
    let line = line_of(rt.alloc(), &["mean"])?;
    let mut written = Vec::<u8>::new(rt.alloc());
    let mut source = ReadSource::new(b"dbp 1\npolicy fp\nuntil".as_slice());
    let mut sink = WriteSink::new(&mut written);
    let status = plain_main(rt.alloc(), &line, &mut source, &mut sink);
    drop(sink);
    assert_eq!(rt; status, Status::Refused);
    assert_eq!(rt;
        written.as_slice(),
        b"refused: line 3: 3 BadLine\n".as_slice()
    );
    Ok(())
}

#[test]
fn a_run_is_no_command_of_the_plain_call(rt: HostRuntime) -> Result<(), Fail> {
    let line = line_of(rt.alloc(), &["run"])?;
    let mut source = source_of(rt.alloc(), TWO_RATES, 1)?;
    let mut sink = sink_of(rt.alloc(), (8, 1))?;
    let status = plain_main(rt.alloc(), &line, &mut source, &mut sink);
    assert!(rt; status == Status::Usage && sink.bytes().is_empty());
    Ok(())
}

// Words of a call, the document, and how many runs the crews of all calls then have.
static RUNS: [(&[&str], Document, usize, usize); 5] = [
    (&["run"], Document::TwoRates, 1, 0),
    (&["run", "--turns", "9"], Document::TwoRates, 1, 1),
    (&["run", "--turns=9"], Document::ThreeRates, 1, 2),
    (&["run"], Document::ThreeRates, 2, 2),
    (&["mean"], Document::TwoRates, 2, 2),
];

// These calls are made one after another.
fn compare_runs<R: Abort + Threads + Wait + Sync>(
    rt: &R,
    alloc: Global,
    crew: &mut ThreadCrew<FreePace>,
    turns: &mut TurnCrew,
) -> Result<(), Fail> {
    for (words, document, threads, drawn) in &RUNS {
        let call = Call {
            words: *words,
            input: document.text(),
            read: 0,
            writes: (8, 0),
            ended: (Status::Ok, *threads, *drawn),
        };
        let text = match document {
            Document::TwoRates => TWO_RATES_LINES.as_bytes(),
            _ => THREE_RATES_LINES.as_bytes(),
        };
        compare(rt, alloc, crew, turns, &call, text)?;
    }
    Ok(())
}

#[test]
fn runs_are_kept_by_their_crews(rt: HostRuntime) -> Result<(), Fail> {
    let mut crew = ThreadCrew::new(rt.alloc(), FreePace);
    let mut turns = TurnCrew::new(rt.alloc(), 0);
    compare_runs(&rt, rt.alloc(), &mut crew, &mut turns)
}
