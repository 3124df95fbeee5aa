//! The program `dbp`: the top call over the standard streams.
#![tactic(auto)]

use dbp_plan::{ReadSource, Sink, Source, WriteSink};
use dbp_top::{Status, command_lines, dbp_main, note};
use party_exec::{FreePace, ThreadCrew, TurnCrew};
use std::alloc::Global;
use std::process::ExitCode;
use std::sync::Wait;
use std::thread::Threads;
use std::{env, io};

fn main(rt: HostRuntime) -> ExitCode {
    let status = match arguments(&rt, rt.alloc()) {
        Ok(arguments) => {
            let mut source = ReadSource::new(rt.reader());
            let mut sink = WriteSink::new(io::writer(&rt));
            run(&rt, rt.alloc(), &arguments, &mut source, &mut sink)
        }
        Err(status) => status,
    };
    if !matches!(status, Status::Ok | Status::Refused | Status::Overrun) {
        let _ = eprintln!(&rt; "dbp: {}", note(status));
    }
    if status == Status::Usage {
        list_commands(&rt);
    }
    ExitCode::from(status as u8)
}

// Writes the commands to the standard error.
fn list_commands(rt: &HostRuntime) {
    if let Ok(lines) = command_lines(rt.alloc()) {
        let _ = eprint!(rt; "{lines}");
    }
}

// Calls the program with these arguments, and with crews that have run nothing.
fn run<R: Threads + Wait + Sync, S: Source, K: Sink>(
    rt: &R,
    alloc: Global,
    arguments: &[String],
    source: &mut S,
    sink: &mut K,
) -> Status {
    let mut crew = ThreadCrew::new(alloc, FreePace);
    let mut turns = TurnCrew::new(alloc, 0);
    dbp_main(rt, alloc, arguments, source, sink, &mut crew, &mut turns)
}

// The arguments, without the program's own name, or the status of a call that has none. No command has an argument that
// isn't UTF-8.
fn arguments(rt: &HostRuntime, alloc: Global) -> Result<Vec<String>, Status> {
    let given = match env::args(rt) {
        Ok(given) => given,
        Err(error) if error.kind() == io::ErrorKind::OutOfMemory => return Err(Status::NoMemory),
        Err(_) => return Err(Status::Usage),
    };
    let mut arguments = Vec::new(alloc);
    for argument in given.skip(1) {
        if arguments.push(argument).is_err() {
            return Err(Status::NoMemory);
        }
    }
    Ok(arguments)
}
