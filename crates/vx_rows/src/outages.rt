// A site crashes between any two lines of two writes over a link, or within one of them; then it recovers, and the pair is whole.
use crate::replies::Replies;
use crate::row::{CLOSING, LINES, MADE, Site, lines};
use std::alloc::Global;
use std::str::from_utf8;
use std::test::Fail;
use vx_model::OutOfMemory;
use vx_runs::{Status, answers};

// The lines, with a crash of the site behind the first `place` of them.
fn script_of_crash(
    alloc: Global,
    site: Site,
    place: usize,
    pick: u64,
) -> Result<String, OutOfMemory> {
    let name = site.name();
    let mut script = String::from_str(alloc, MADE)?;
    let mut count = 0_usize;
    for (_, line) in lines() {
        if count == place {
            let crash = format!(in alloc; "crash {name} {pick}\nrecover {name}\n")?;
            script.push_str(&crash)?;
        }
        script.push_str(line)?;
        count = count.wrapping_add(1);
    }
    if count == place {
        let crash = format!(in alloc; "crash {name} {pick}\nrecover {name}\n")?;
        script.push_str(&crash)?;
    }
    script.push_str(CLOSING)?;
    Ok(script)
}

// Whether these are the replies to such a script.
fn are_of_crash(text: &str, site: Site, place: usize) -> bool {
    let mut replies = Replies::new(text, None);
    let mut may = are_made(&mut replies);
    let mut count = 0_usize;
    for (step, _) in lines() {
        if count == place && !replies.crashes(site) {
            may = false;
        }
        if !replies.may_come(step) {
            may = false;
        }
        count = count.wrapping_add(1);
    }
    if count == place && !replies.crashes(site) {
        may = false;
    }
    may && replies.ends()
}

fn are_made(replies: &mut Replies) -> bool {
    replies.is_next("done")
        && replies.is_next("done")
        && replies.is_next("done")
        && replies.is_next("done")
}

// Either site crashes between any two lines, keeping none or all of what is not settled. No write that was answered is lost.
#[test]
fn a_site_crashes_between_any_two_lines(rt: HostRuntime) -> Result<(), Fail> {
    let alloc = rt.alloc();
    for site in [Site::Sender, Site::Receiver] {
        for place in 0..LINES + 1 {
            for pick in [0, u64::MAX] {
                let script = script_of_crash(alloc, site, place, pick)?;
                let answer = answers(&rt, alloc, script.as_bytes())?;
                let name = site.name();
                assert!(rt; answer.status == Status::Done);
                let is_right = match from_utf8(answer.text.as_slice()) {
                    Ok(text) => are_of_crash(text, site, place),
                    Err(_) => false,
                };
                assert!(rt;
                    is_right,
                    "a crash of {name} behind {place} lines, with {pick}"
                );
            }
        }
    }
    Ok(())
}

// The lines under a fuse of the site, and its recovery.
fn script_of_fuse(alloc: Global, site: Site, calls: u64, pick: u64) -> Result<String, OutOfMemory> {
    let name = site.name();
    let mut script = String::from_str(alloc, MADE)?;
    let fuse = format!(in alloc; "fuse {name} {calls} {pick}\n")?;
    script.push_str(&fuse)?;
    for (_, line) in lines() {
        script.push_str(line)?;
    }
    let recover = format!(in alloc; "recover {name}\n")?;
    script.push_str(&recover)?;
    script.push_str(CLOSING)?;
    Ok(script)
}

// Whether the fuse cut a line, where these are the replies to such a script.
fn is_cut_by_fuse(text: &str, site: Site) -> Option<bool> {
    let mut replies = Replies::new(text, Some(site));
    let mut may = are_made(&mut replies) && replies.is_next("done");
    for (step, _) in lines() {
        if !replies.may_come(step) {
            may = false;
        }
    }
    let is_cut = replies.is_down;
    if may && replies.recovers(site) && replies.ends() {
        Some(is_cut)
    } else {
        None
    }
}

// More calls than the lines make at either site.
const MANY: u64 = 40;

// Either site has a fuse of each length, up to one that is never at its end. No write that was answered is lost, and of the one that was cut both
// sites have all or nothing.
#[test]
fn a_fuse_cuts_the_lines_anywhere(rt: HostRuntime) -> Result<(), Fail> {
    let alloc = rt.alloc();
    for site in [Site::Sender, Site::Receiver] {
        for calls in 0..MANY + 1 {
            for pick in [0, u64::MAX] {
                let script = script_of_fuse(alloc, site, calls, pick)?;
                let answer = answers(&rt, alloc, script.as_bytes())?;
                let name = site.name();
                assert!(rt; answer.status == Status::Done);
                let is_cut = match from_utf8(answer.text.as_slice()) {
                    Ok(text) => is_cut_by_fuse(text, site),
                    Err(_) => None,
                };
                assert!(rt;
                    is_cut.is_some(),
                    "a fuse of {name} with {calls} calls and {pick}"
                );
                assert!(rt; calls > 0 || is_cut == Some(true));
                assert!(rt; calls < MANY || is_cut == Some(false));
            }
        }
    }
    Ok(())
}
