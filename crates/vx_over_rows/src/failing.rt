// A script on a replicated volume group over mirrors: each device call fails once, in a run of its own.
use std::alloc::Global;
use std::str::from_utf8;
use std::sync::Wait;
use std::test::Fail;
use std::thread::Threads;
use vx_model::OutOfMemory;
use vx_runs::{Status, answers_with};

// A write, a crash, and two recoveries, each with a read behind it.
const SCRIPT: &[u8] =
    b"site a 2 1024\ndg a init\nvol a l 8 mirrors=2 layout=concat log=none fmr=off rdpol=round\nvol a m 8 mirrors=2 layout=concat log=none fmr=off rdpol=round\nvol a v 16 mirrors=2 layout=concat log=none fmr=off rdpol=round\nrvg a srl=l dcm=m vols=v\nwrite a v 0 1 11\ncrash a 0\nrecover a\nread a v 0 1\nrecover a\nread a v 0 1\n";

// Where no call fails.
const WHOLE: &[u8] =
    b"done\ndone\ndone\ndone\ndone\ndone\ndone 1\ndone\nrecovered 1\nsite a up\ndisk 0 ok\ndisk 1 ok\nvol l 8 none off\nplex 0 ACTIVE\nplex 1 ACTIVE\nvol m 8 none off\nplex 0 ACTIVE\nplex 1 ACTIVE\nvol v 16 none off\nplex 0 ACTIVE\nplex 1 ACTIVE\nrvg primary 1 a head 1 mark consistent session 2\n11\nrecovered 1\nsite a up\ndisk 0 ok\ndisk 1 ok\nvol l 8 none off\nplex 0 ACTIVE\nplex 1 ACTIVE\nvol m 8 none off\nplex 0 ACTIVE\nplex 1 ACTIVE\nvol v 16 none off\nplex 0 ACTIVE\nplex 1 ACTIVE\nrvg primary 1 a head 1 mark consistent session 3\n11\n";

// A write that was done is read, and nothing else is.
fn may_come(text: &str) -> bool {
    let mut place = 0_u64;
    let mut is_done = false;
    let mut is_read = false;
    let mut is_lost = false;
    for line in text.split('\n') {
        if place == 6 && (line == "done" || line == "done 1") {
            is_done = true;
        }
        if line == "11" {
            is_read = true;
        }
        if line == "00" {
            is_lost = true;
        }
        place = place.wrapping_add(1);
    }
    is_done == is_read && !is_lost
}

// Whether the run in which this call fails is answered so.
fn is_borne<H: Threads + Wait + Sync>(
    handle: &H,
    alloc: Global,
    call: u64,
) -> Result<bool, OutOfMemory> {
    let answer = answers_with(handle, alloc, &[call], SCRIPT)?;
    let may = match from_utf8(&answer.text) {
        Ok(text) => may_come(text),
        Err(_) => false,
    };
    Ok(may && answer.status == Status::Done)
}

// More calls than the run makes.
const MANY: u64 = 600;

#[test]
fn each_call_fails_once(rt: HostRuntime) -> Result<(), Fail> {
    let alloc = rt.alloc();
    for call in 1..MANY {
        assert!(rt; is_borne(&rt, alloc, call)?, "call {call} fails");
    }
    let answer = answers_with(&rt, alloc, &[MANY], SCRIPT)?;
    assert!(rt; answer.text.as_slice() == WHOLE);
    Ok(())
}
