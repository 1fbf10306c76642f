// A replicated volume group whose disks return in the files of an earlier run.
use std::fs;
use std::test::Fail;
use vx_runs::{OpenGate, Status, fresh_racks, vx_main};
use vx_stream::{MemSink, MemSource};

fn remove(rt: &HostRuntime) {
    let _ = fs::remove_file(rt, "./0-0.vxd");
    let _ = fs::remove_file(rt, "./0-1.vxd");
}

// A write before the group is made, and two behind it.
const FIRST: &[u8] =
    b"site a 2 1024\ndg a init\nvol a log1 64 mirrors=2 layout=concat log=none fmr=off rdpol=round\nvol a maps 8 mirrors=2 layout=concat log=none fmr=off rdpol=round\nvol a v 64 mirrors=2 layout=concat log=none fmr=off rdpol=round\nwrite a v 1 1 44\nrvg a srl=log1 dcm=maps vols=v\nwrite a v 3 2 5a\nwrite a v 4 1 6b\n";

const MADE: &[u8] = b"done\ndone\ndone\ndone\ndone\ndone\ndone\ndone 1\ndone 2\n";

// A disk that was not held as failed is missed first. Then the group and its log are found.
const SECOND: &[u8] =
    b"site a 2 1024\ndisk a 0 fail\nrecover a\nstatus a\ndisk a 0 ok\nrecover a\nread a v 0 6\nwrite a v 5 1 7c\n";

const FOUND: &[u8] =
    b"done\ndone\nno 8 missing 0\nsite a bare\ndone\nrecovered 2\nsite a up\ndisk 0 ok\ndisk 1 ok\nvol log1 64 none off\nplex 0 ACTIVE\nplex 1 ACTIVE\nvol maps 8 none off\nplex 0 ACTIVE\nplex 1 ACTIVE\nvol v 64 none off\nplex 0 ACTIVE\nplex 1 ACTIVE\nrvg primary 1 a head 2 mark consistent session 2\n00\n44\n00\n5a\n6b\n00\ndone 3\n";

// It is found again in a session of its own.
const THIRD: &[u8] =
    b"site a 2 1024\nrecover a\nread a v 4 2\ncrash a 0\nrecover a\nread a v 4 2\n";

const AGAIN: &[u8] =
    b"done\nrecovered 3\nsite a up\ndisk 0 ok\ndisk 1 ok\nvol log1 64 none off\nplex 0 ACTIVE\nplex 1 ACTIVE\nvol maps 8 none off\nplex 0 ACTIVE\nplex 1 ACTIVE\nvol v 64 none off\nplex 0 ACTIVE\nplex 1 ACTIVE\nrvg primary 1 a head 3 mark consistent session 3\n6b\n7c\ndone\nrecovered 3\nsite a up\ndisk 0 ok\ndisk 1 ok\nvol log1 64 none off\nplex 0 ACTIVE\nplex 1 ACTIVE\nvol maps 8 none off\nplex 0 ACTIVE\nplex 1 ACTIVE\nvol v 64 none off\nplex 0 ACTIVE\nplex 1 ACTIVE\nrvg primary 1 a head 3 mark consistent session 4\n6b\n7c\n";

// The runs, one behind the other, each with its replies.
const RUNS: [(&str, &[u8], &[u8]); 3] = [
    ("the group is made", FIRST, MADE),
    ("the group and its log are found", SECOND, FOUND),
    ("they are found again", THIRD, AGAIN),
];

#[test]
fn later_runs_find_the_log(rt: HostRuntime) -> Result<(), Fail> {
    let alloc = rt.alloc();
    remove(&rt);
    let mut words = Vec::new(alloc);
    for word in ["run", "--dir", "."] {
        words.push(String::from_str(alloc, word)?)?;
    }
    let mut count = 0_usize;
    for (name, script, wanted) in RUNS {
        let mut source = MemSource::new(alloc, script, &[])?;
        let mut sink = MemSink::new(alloc, 4096, &[])?;
        let mut racks = fresh_racks(rt, alloc)?;
        let status = vx_main(
            &rt,
            alloc,
            &words,
            &mut source,
            &mut sink,
            &mut racks,
            &OpenGate,
        );
        count = count.wrapping_add(1);
        let is_so = status == Status::Done && sink.written() == wanted;
        if !is_so || count == RUNS.len() {
            remove(&rt);
        }
        assert!(rt; is_so, "{name}");
    }
    Ok(())
}
