//! The program: `vx run` answers the script on its standard input, with disks in memory, and `vx run --dir D` with disks in
//! the files of the folder D. It ends with the exit status of the run.
#![tactic(auto)]

mod words;

ghost use Rattle.std.specs.Prelude.{◌≡◌};
ghost use Rattle.std.specs.Process.{exit_status};
ghost use Rattle.vx_cli.specs.Codes.{code_of};

use crate::words::words;
use std::process::ExitCode;
use std::sync::Wait;
use std::thread::Threads;
use vx_cli::{OpenGate, Status, fresh_racks, vx_main};
use vx_stream::{HostSink, HostSource};

fn main(rt: HostRuntime) -> ExitCode {
    let status = match words(rt) {
        Ok(words) => run(&rt, rt, &words),
        Err(status) => status,
    };
    if let Some(trouble) = trouble(status) {
        let _ = eprintln!(rt; "vx: {trouble}");
    }
    ended(status)
}

fn ended(status: Status) -> ExitCode
    ensures { exit_status result ≡ code_of status }
{
    ExitCode::from(status.code())
}

fn run<H: Threads + Wait + Sync>(handle: &H, rt: HostRuntime, words: &[String]) -> Status {
    let alloc = rt.alloc();
    let Ok(mut racks) = fresh_racks(rt, alloc) else {
        return Status::OutOfMemory;
    };
    let mut source = HostSource::new(rt.stdin());
    let mut sink = HostSink::new(rt.stdout());
    vx_main(
        handle,
        alloc,
        words,
        &mut source,
        &mut sink,
        &mut racks,
        &OpenGate,
    )
}

// What is said beside the replies. A line that is wrong is named among those.
fn trouble(status: Status) -> Option<&'static str> {
    match status {
        Status::Done | Status::BadLine { .. } => None,
        Status::Usage => Some(
            "usage: vx run [--dir FOLDER], with the script on standard input; FOLDER keeps the disks in files",
        ),
        Status::ReadFault => Some("the script could not be read further"),
        Status::WriteFault => Some("a reply could not be written whole"),
        Status::OutOfMemory => Some("out of memory"),
        Status::TooLong => Some("the script has more than 1,000,000 lines"),
    }
}
