// Ends that fail, ends that give and take a byte at a time, and words that are no call.
use crate::bytes::{ByteSink, ByteSource};
use std::test::Fail;
use vx_runs::{Status, run_over};
use vx_stream::{MemSink, MemSource};

const SCRIPT: &str = "site a 3 64\nraw a\nwrite a d1 3 1 5a\nread a d1 3 1\n";

// A run, and what comes of it.
#[derive(Clone, Copy, Drop)]
struct Run {
    name: &'static str,
    word: &'static str,
    // The calls that fail: of the disks, of the source, and of the sink.
    disks: &'static [u64],
    source: &'static [u64],
    sink: &'static [u64],
    script: &'static str,
    // How many bytes the sink has room for.
    room: usize,
    status: Status,
    wanted: &'static str,
}

const WHOLE: Run = Run {
    name: "a run whose ends work",
    word: "run",
    disks: &[],
    source: &[],
    sink: &[],
    script: SCRIPT,
    room: 64,
    status: Status::Done,
    wanted: "done\ndone\ndone 1\n5a\n",
};

const RUNS: [Run; 5] = [
    // What is read before the second call is answered, and nothing else.
    Run {
        name: "a source that fails is a read fault",
        script: "site a 3 64\n",
        source: &[2],
        status: Status::ReadFault,
        wanted: "done\n",
        ..WHOLE
    },
    Run {
        name: "a sink that fails is a write fault",
        sink: &[1],
        status: Status::WriteFault,
        wanted: "",
        ..WHOLE
    },
    // A reply is put whole or the run ends.
    Run {
        name: "a full sink is a write fault",
        room: 8,
        status: Status::WriteFault,
        wanted: "done\ndon",
        ..WHOLE
    },
    Run {
        name: "another word is no call",
        word: "walk",
        script: "site a 3 64\n",
        status: Status::Usage,
        wanted: "",
        ..WHOLE
    },
    // The first call on the disks is the log's, on disk 0.
    Run {
        name: "a device call that fails is named",
        disks: &[1],
        script: "site a 3 64\nraw a\n",
        wanted: "done\nno 7 device 0\n",
        ..WHOLE
    },
];

#[test]
fn ends_that_fail(rt: HostRuntime) -> Result<(), Fail> {
    let alloc = rt.alloc();
    for run in RUNS {
        let mut source = MemSource::new(alloc, run.script.as_bytes(), run.source)?;
        let mut sink = MemSink::new(alloc, run.room, run.sink)?;
        let status = run_over(&rt, alloc, run.word, run.disks, &mut source, &mut sink)?;
        let name = run.name;
        assert!(rt;
            status == run.status && sink.written() == run.wanted.as_bytes(),
            "{name}"
        );
    }
    Ok(())
}

#[test]
fn single_bytes_make_the_same_replies(rt: HostRuntime) -> Result<(), Fail> {
    let alloc = rt.alloc();
    let mut source = ByteSource {
        inner: MemSource::new(alloc, SCRIPT.as_bytes(), &[])?,
    };
    let mut sink = ByteSink {
        inner: MemSink::new(alloc, 64, &[])?,
    };
    let status = run_over(&rt, alloc, "run", &[], &mut source, &mut sink)?;
    assert!(rt; status == Status::Done);
    assert!(rt; sink.inner.written() == b"done\ndone\ndone 1\n5a\n".as_slice());
    Ok(())
}
