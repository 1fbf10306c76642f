// A fuse of each length before each line of two scripts on a volume of two plexes, with both picks.
use std::alloc::Global;
use std::str::from_utf8;
use std::sync::Wait;
use std::test::Fail;
use std::thread::Threads;
use vx_model::OutOfMemory;
use vx_runs::{Status, answers};

// The fuse, and the line that it stands before.
#[derive(Clone, Copy, Drop)]
struct Fuse {
    place: usize,
    calls: u64,
    pick: u64,
}

// More calls than any of the lines makes.
const MANY: u64 = 48;

// A plex is detached under a fuse of the script's own; then a recovery misses a disk.
const DETACH: [&str; 9] = [
    "site a 2 1024\n",
    "dg a init\n",
    "vol a v 64 mirrors=2 layout=concat log=none fmr=off rdpol=round\n",
    "fuse a 4 0\n",
    "plex a v 1 det\n",
    "disk a 0 fail\n",
    "recover a\n",
    "disk a 0 ok\n",
    "recover a\n",
];

// What a fuse before each of these lines is answered.
const AT_DETACH: [&str; 9] = [
    "no 1 unknown a",
    "no 6 down",
    "done",
    "done",
    "done",
    "no 6 down",
    "no 6 down",
    "no 6 down",
    "no 6 down",
];

// A write of which no call passes; then a recovery and the block, as each plex has it.
const WRITE: [&str; 8] = [
    "site a 2 1024\n",
    "dg a init\n",
    "vol a v 256 mirrors=2 layout=concat log=none fmr=off rdpol=round\n",
    "fuse a 0 0\n",
    "write a v 0 1 11\n",
    "recover a\n",
    "read a v 0 1\n",
    "read a v 0 1\n",
];

const AT_WRITE: [&str; 8] = [
    "no 1 unknown a",
    "no 6 down",
    "done",
    "done",
    "done",
    "no 6 down",
    "done",
    "done",
];

// What a recovery says: of no volume, and of each of the two with both plexes, or with the first one alone.
const NO_VOLUME: &str = "recovered\nsite a up\ndisk 0 ok\ndisk 1 ok";

const BOTH: &str =
    "recovered\nsite a up\ndisk 0 ok\ndisk 1 ok\nvol v 64 none off\nplex 0 ACTIVE\nplex 1 ACTIVE";

const FIRST: &str =
    "recovered\nsite a up\ndisk 0 ok\ndisk 1 ok\nvol v 64 none off\nplex 0 ACTIVE\nplex 1 STALE";

const WRITTEN: &str =
    "recovered\nsite a up\ndisk 0 ok\ndisk 1 ok\nvol v 256 none off\nplex 0 ACTIVE\nplex 1 ACTIVE";

const NONE_KEPT: &str =
    "recovered\nsite a up\ndisk 0 ok\ndisk 1 ok\nvol v 256 none off\nplex 0 ACTIVE\nplex 1 ACTIVE\nkept v 0 0";

const ALL_KEPT: &str =
    "recovered\nsite a up\ndisk 0 ok\ndisk 1 ok\nvol v 256 none off\nplex 0 ACTIVE\nplex 1 ACTIVE\nkept v 0 1";

// The lines with the fuse among them.
fn script(alloc: Global, lines: &[&str], fuse: Fuse) -> Result<String, OutOfMemory> {
    let Fuse { place, calls, pick } = fuse;
    let mut script = String::new(alloc);
    let mut count = 0_usize;
    for line in lines {
        if count == place {
            let fuse = format!(in alloc; "fuse a {calls} {pick}\n")?;
            script.push_str(&fuse)?;
        }
        script.push_str(line)?;
        count = count.wrapping_add(1);
    }
    Ok(script)
}

// The text behind this line of it.
fn behind<'a>(text: &'a str, reply: &str) -> Option<&'a str> {
    text.strip_prefix(reply)?.strip_prefix("\n")
}

// Whether the text is these replies, with that of the fuse among them.
fn are(text: &str, place: usize, fuse: &str, replies: &[&str]) -> bool {
    let mut rest = text;
    let mut count = 0_usize;
    for reply in replies {
        if count == place {
            let Some(later) = behind(rest, fuse) else {
                return false;
            };
            rest = later;
        }
        let Some(later) = behind(rest, reply) else {
            return false;
        };
        rest = later;
        count = count.wrapping_add(1);
    }
    rest.is_empty()
}

// The replies to the detach, where the making of the volume and the fuse behind it are answered by `made`, and the detach and the last
// recovery by the two others.
fn detach(made: &'static str, detached: &'static str, last: &'static str) -> [&'static str; 9] {
    [
        "done",
        "done",
        made,
        made,
        detached,
        "done",
        "no 8 missing 0",
        "done",
        last,
    ]
}

// A commit is four calls for each of two disks, and stands where the third of them is kept. Where the making of the volume is cut, it is there
// or not.
fn may_detach(text: &str, fuse: Fuse) -> bool {
    let Fuse { place, calls, pick } = fuse;
    let Some(at) = AT_DETACH.get(place) else {
        return false;
    };
    if place == 4 {
        let detached = if calls < 8 { "no 6 down" } else { "done" };
        let is_kept = calls > 3 || calls == 3 && pick > 0;
        let last = if is_kept { FIRST } else { BOTH };
        return are(text, place, at, &detach("done", detached, last));
    }
    let is_cut = place == 2
        && calls < MANY
        && (are(text, place, at, &detach("no 6 down", "no 6 down", BOTH))
            || are(
                text,
                place,
                at,
                &detach("no 6 down", "no 6 down", NO_VOLUME),
            ));
    is_cut || are(text, place, at, &detach("done", "no 6 down", FIRST))
}

// The replies to the write, where the making of the volume and the fuse behind it are answered by `made`, and the write, the recovery and the
// reads by the three others.
fn write(
    made: &'static str,
    written: &'static str,
    risen: &'static str,
    block: &'static str,
) -> [&'static str; 8] {
    ["done", "done", made, made, written, risen, block, block]
}

// A write is four calls. Where it is cut behind the first one, the block is old or new on both plexes, as the recovery says.
fn may_write(text: &str, fuse: Fuse) -> bool {
    let Fuse { place, calls, .. } = fuse;
    let Some(at) = AT_WRITE.get(place) else {
        return false;
    };
    let is_none = are(
        text,
        place,
        at,
        &write("done", "no 6 down", NONE_KEPT, "00"),
    );
    if place == 2 && calls < MANY {
        let off = "no 6 down";
        let gone = "no 1 unknown v";
        return is_none
            || are(text, place, at, &write(off, off, WRITTEN, "00"))
            || are(text, place, at, &write(off, off, NO_VOLUME, gone));
    }
    if place == 4 && calls >= 4 {
        return are(text, place, at, &write("done", "done", WRITTEN, "11"));
    }
    let is_all = place == 4
        && calls > 0
        && are(text, place, at, &write("done", "no 6 down", ALL_KEPT, "11"));
    is_none || is_all
}

// Whether the replies to the lines of one of the two are right with each fuse before this line.
fn are_right<H: Threads + Wait + Sync>(
    handle: &H,
    alloc: Global,
    lines: &[&str],
    place: usize,
    is_write: bool,
) -> Result<bool, OutOfMemory> {
    let mut right = true;
    for calls in 0..MANY + 1 {
        for pick in [0, u64::MAX] {
            let fuse = Fuse { place, calls, pick };
            let script = script(alloc, lines, fuse)?;
            let answer = answers(handle, alloc, script.as_bytes())?;
            let may = match from_utf8(&answer.text) {
                Ok(text) => {
                    if is_write {
                        may_write(text, fuse)
                    } else {
                        may_detach(text, fuse)
                    }
                }
                Err(_) => false,
            };
            if answer.status != Status::Done || !may {
                right = false;
            }
        }
    }
    Ok(right)
}

#[test]
fn a_detach_is_cut_anywhere(rt: HostRuntime) -> Result<(), Fail> {
    for place in 0..9 {
        assert!(rt; are_right(&rt, rt.alloc(), &DETACH, place, false)?);
    }
    Ok(())
}

#[test]
fn a_write_is_cut_anywhere(rt: HostRuntime) -> Result<(), Fail> {
    for place in 0..8 {
        assert!(rt; are_right(&rt, rt.alloc(), &WRITE, place, true)?);
    }
    Ok(())
}
