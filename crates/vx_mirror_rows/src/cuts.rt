// A fuse of each length before each line on a mirrored volume: whatever it cuts, the site comes up with what was answered as done.
use crate::mirrors::{Kind, LINES, LOGGED, MADE, Mirror, PLAIN, STEPS, push_closing, push_line};
use std::alloc::Global;
use std::str::from_utf8;
use std::sync::Wait;
use std::test::Fail;
use std::thread::Threads;
use vx_model::OutOfMemory;
use vx_runs::{Status, answers};

// The lines, with a fuse behind the first `place` of them.
fn script(
    alloc: Global,
    kind: Kind,
    place: usize,
    calls: u64,
    pick: u64,
) -> Result<String, OutOfMemory> {
    let mut script = String::from_str(alloc, MADE)?;
    let mut count = 0_usize;
    for step in STEPS {
        if count == place {
            let fuse = format!(in alloc; "fuse a {calls} {pick}\n")?;
            script.push_str(&fuse)?;
        }
        push_line(alloc, &mut script, kind, step)?;
        count = count.wrapping_add(1);
    }
    push_closing(alloc, &mut script, kind)?;
    Ok(script)
}

// Whether these are the replies to such a script.
fn may_come(text: &str, kind: Kind, place: usize) -> bool {
    let mut replies = Mirror::new(text, kind);
    let mut may = replies.is_next("done") && replies.is_next("done");
    let mut count = 0_usize;
    for step in STEPS {
        if count == place && !replies.may_fuse() {
            may = false;
        }
        if !replies.may_come(step) {
            may = false;
        }
        count = count.wrapping_add(1);
    }
    may && replies.ends()
}

fn are_right<H: Threads + Wait + Sync>(
    handle: &H,
    alloc: Global,
    kind: Kind,
    place: usize,
    pick: u64,
) -> Result<bool, OutOfMemory> {
    let mut right = true;
    for calls in 0..kind.lengths {
        let script = script(alloc, kind, place, calls, pick)?;
        let answer = answers(handle, alloc, script.as_bytes())?;
        let is_right = match from_utf8(&answer.text) {
            Ok(text) => may_come(text, kind, place),
            Err(_) => false,
        };
        if answer.status != Status::Done || !is_right {
            right = false;
        }
    }
    Ok(right)
}

// Of what is not settled the crash keeps none.
#[test]
fn fuses_that_keep_nothing(rt: HostRuntime) -> Result<(), Fail> {
    let alloc = rt.alloc();
    for place in 0..LINES {
        assert!(rt; are_right(&rt, alloc, PLAIN, place, 0)?);
    }
    Ok(())
}

// It keeps all of it.
#[test]
fn fuses_that_keep_all(rt: HostRuntime) -> Result<(), Fail> {
    let alloc = rt.alloc();
    for place in 0..LINES {
        assert!(rt; are_right(&rt, alloc, PLAIN, place, u64::MAX)?);
    }
    Ok(())
}

// It keeps every other block of it.
#[test]
fn fuses_that_keep_half(rt: HostRuntime) -> Result<(), Fail> {
    let alloc = rt.alloc();
    for place in 0..LINES {
        assert!(rt; are_right(&rt, alloc, PLAIN, place, 0x5555_5555_5555_5555)?);
    }
    Ok(())
}

// The same of a volume with logs.
#[test]
fn logs_are_cut_and_nothing_kept(rt: HostRuntime) -> Result<(), Fail> {
    let alloc = rt.alloc();
    for place in 0..LINES {
        assert!(rt; are_right(&rt, alloc, LOGGED, place, 0)?);
    }
    Ok(())
}

#[test]
fn logs_are_cut_and_all_kept(rt: HostRuntime) -> Result<(), Fail> {
    let alloc = rt.alloc();
    for place in 0..LINES {
        assert!(rt; are_right(&rt, alloc, LOGGED, place, u64::MAX)?);
    }
    Ok(())
}

#[test]
fn logs_are_cut_and_half_kept(rt: HostRuntime) -> Result<(), Fail> {
    let alloc = rt.alloc();
    for place in 0..LINES {
        assert!(rt; are_right(&rt, alloc, LOGGED, place, 0x5555_5555_5555_5555)?);
    }
    Ok(())
}
