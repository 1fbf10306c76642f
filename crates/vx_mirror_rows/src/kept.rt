// A group whose disks return in the files of an earlier run.
use std::fs;
use std::sync::Wait;
use std::test::Fail;
use std::thread::Threads;
use vx_runs::{OpenGate, Status, fresh_racks, vx_main};
use vx_stream::{MemSink, MemSource};

fn remove(rt: &HostRuntime) {
    let _ = fs::remove_file(rt, "./0-0.vxd");
    let _ = fs::remove_file(rt, "./0-1.vxd");
}

// Whether a run of the script over the files of this folder is answered so.
fn is_answered<H: Threads + Wait + Sync>(
    handle: &H,
    rt: HostRuntime,
    script: &[u8],
    replies: &[u8],
) -> Result<bool, Fail> {
    let alloc = rt.alloc();
    let mut words = Vec::new(alloc);
    for word in ["run", "--dir", "."] {
        words.push(String::from_str(alloc, word)?)?;
    }
    let mut source = MemSource::new(alloc, script, &[])?;
    let mut sink = MemSink::new(alloc, 4096, &[])?;
    let mut racks = fresh_racks(rt, alloc)?;
    let status = vx_main(
        handle,
        alloc,
        &words,
        &mut source,
        &mut sink,
        &mut racks,
        &OpenGate,
    );
    Ok(status == Status::Done && sink.written() == replies)
}

// A volume of which one plex missed a write.
const FIRST: &[u8] =
    b"site a 2 1024\ndg a init\nvol a v 64 mirrors=2 layout=concat log=none fmr=off rdpol=round\nwrite a v 3 2 5a\nplex a v 1 det\nwrite a v 4 1 6b\n";

// A disk that was not held as failed is missed first. Then the group is found, its plex is copied, and the group is given up.
const SECOND: &[u8] =
    b"site a 2 1024\ndisk a 0 fail\nrecover a\nstatus a\ndisk a 0 ok\nrecover a\nread a v 2 4\nplex a v 1 att\nread a v 4 1\nread a v 4 1\ndg a deport\n";

const FOUND: &[u8] =
    b"done\ndone\nno 8 missing 0\nsite a bare\ndone\nrecovered\nsite a up\ndisk 0 ok\ndisk 1 ok\nvol v 64 none off\nplex 0 ACTIVE\nplex 1 STALE\n00\n5a\n6b\n00\ndone 1\n6b\n6b\ndone\n";

// A group that was given up is found as well.
const THIRD: &[u8] = b"site a 2 1024\nrecover a\nread a v 3 2\nread a v 3 2\n";

const AGAIN: &[u8] =
    b"done\nrecovered\nsite a up\ndisk 0 ok\ndisk 1 ok\nvol v 64 none off\nplex 0 ACTIVE\nplex 1 ACTIVE\n5a\n6b\n5a\n6b\n";

#[test]
fn later_runs_find_the_group(rt: HostRuntime) -> Result<(), Fail> {
    remove(&rt);
    let is_made = is_answered(&rt, rt, FIRST, b"done\ndone\ndone\ndone\ndone\ndone\n")?;
    let is_found = is_answered(&rt, rt, SECOND, FOUND)?;
    let is_again = is_answered(&rt, rt, THIRD, AGAIN)?;
    remove(&rt);
    assert!(rt; is_made);
    assert!(rt; is_found);
    assert!(rt; is_again);
    Ok(())
}
