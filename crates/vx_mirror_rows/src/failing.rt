// A script on a mirror with maps of missed regions: each device call fails once, in a run of its own.
use std::alloc::Global;
use std::str::from_utf8;
use std::test::Fail;
use vx_model::OutOfMemory;
use vx_runs::{Status, answers_with};

// A plex misses a write, as its disk fails, and is attached by its map; then what a first try left undone is tried again, and the blocks are
// read on each plex.
const SCRIPT: &[u8] =
    b"site a 3 1024\ndg a init\nvol a v 256 mirrors=2 layout=concat log=none fmr=on rdpol=round\nwrite a v 10 1 aa\ndisk a 1 fail\nwrite a v 70 1 bb\ndisk a 1 ok\ndg a deport\ndg a import\nread a v 70 1\nplex a v 0 det\nplex a v 1 att\nvol a w 2000 mirrors=1 layout=concat log=none fmr=off rdpol=round\ndg a import\nplex a v 1 att\nread a v 10 1\nread a v 10 1\nread a v 70 1\nread a v 70 1\n";

// The lines that may be answered otherwise where a call fails.
#[derive(Clone, Copy, Drop)]
struct Replies {
    init: &'static str,
    make: &'static str,
    first: &'static str,
    second: &'static str,
    deport: &'static str,
    import: &'static str,
    read: &'static str,
    detach: &'static str,
    attach: &'static str,
    space: &'static str,
    again: &'static str,
    retry: &'static str,
    old: &'static str,
    new: &'static str,
}

// Two plexes of 256 blocks and a map of two leave 254, 256 and 512 blocks.
const WHOLE: Replies = Replies {
    init: "done",
    make: "done",
    first: "done",
    second: "done",
    deport: "done",
    import: "done",
    read: "bb",
    detach: "no 10 lastplex",
    attach: "done 1",
    space: "no 11 space 2000 1022",
    again: "no 5 role",
    retry: "done 0",
    old: "aa",
    new: "bb",
};

const DEVICES: [&str; 3] = ["no 7 device 0", "no 7 device 1", "no 7 device 2"];

const BLOCKS: [&str; 2] = ["00", "bb"];

// Whether the text is these replies.
fn are(text: &str, replies: &Replies) -> bool {
    let lines = [
        "done",
        replies.init,
        replies.make,
        replies.first,
        "done",
        replies.second,
        "done",
        replies.deport,
        replies.import,
        replies.read,
        replies.detach,
        replies.attach,
        replies.space,
        replies.again,
        replies.retry,
        replies.old,
        replies.old,
        replies.new,
        replies.new,
    ];
    let mut rest = text;
    for line in lines {
        let Some(later) = rest.strip_prefix(line) else {
            return false;
        };
        let Some(later) = later.strip_prefix("\n") else {
            return false;
        };
        rest = later;
    }
    rest.is_empty()
}

// Where nothing is known of the map, all four regions are copied; where the plex missed the first write too, two. An attach that is refused
// leaves its map to the next one.
fn may_attach(text: &str) -> bool {
    for attach in ["done 1", "done 2", "done 4"] {
        if are(text, &Replies { attach, ..WHOLE }) {
            return true;
        }
    }
    for attach in ["no 7 device 0", "no 7 device 1"] {
        let retry = "done 1";
        if are(
            text,
            &Replies {
                attach,
                retry,
                ..WHOLE
            },
        ) {
            return true;
        }
    }
    false
}

// The first plex is read alone, and its disk fails in that.
fn may_read(text: &str) -> bool {
    let read = "no 7 device 0";
    are(text, &Replies { read, ..WHOLE })
}

// No other disk than that of the second plex was held as failed.
fn may_import(text: &str) -> bool {
    let off = "no 6 down";
    for import in ["no 8 missing 0", "no 8 missing 2"] {
        let missed = Replies {
            import,
            read: off,
            detach: off,
            attach: off,
            space: off,
            again: "done",
            retry: "done 1",
            ..WHOLE
        };
        if are(text, &missed) {
            return true;
        }
    }
    false
}

// Both plexes failed the second write, or the one that was left did: the block is old or new on all that go on. A plex that does not is copied
// whole.
fn may_fail_second(text: &str) -> bool {
    for second in ["no 7 device 0", "no 7 device 1"] {
        for block in BLOCKS {
            let both = Replies {
                second,
                read: block,
                detach: "done",
                attach: "done 0",
                new: block,
                ..WHOLE
            };
            let one = Replies {
                detach: WHOLE.detach,
                attach: "done 4",
                ..both
            };
            if are(text, &both) || are(text, &one) {
                return true;
            }
        }
    }
    false
}

// There is no group, or no volume.
fn may_make(text: &str) -> bool {
    let off = "no 6 down";
    let gone = "no 1 unknown v";
    for device in DEVICES {
        let bare = Replies {
            init: device,
            make: off,
            first: gone,
            second: gone,
            deport: off,
            import: "no 5 role",
            read: gone,
            detach: off,
            attach: off,
            space: off,
            again: "no 5 role",
            retry: off,
            old: gone,
            new: gone,
        };
        let empty = Replies {
            make: device,
            first: gone,
            second: gone,
            read: gone,
            detach: gone,
            attach: gone,
            space: "no 11 space 2000 1536",
            retry: gone,
            old: gone,
            new: gone,
            ..WHOLE
        };
        if are(text, &bare) || are(text, &empty) {
            return true;
        }
    }
    false
}

// More calls than the run makes.
const MANY: u64 = 400;

#[test]
fn each_call_fails_once(rt: HostRuntime) -> Result<(), Fail> {
    let alloc = rt.alloc();
    for call in 1..MANY + 1 {
        let answer = answers_with(&rt, alloc, &[call], SCRIPT)?;
        assert!(rt; answer.status == Status::Done);
        let may = match from_utf8(&answer.text) {
            Ok(text) => {
                may_attach(text)
                    || may_read(text)
                    || may_import(text)
                    || may_fail_second(text)
                    || may_make(text)
            }
            Err(_) => false,
        };
        assert!(rt; may, "call {call} fails");
    }
    let answer = answers_with(&rt, alloc, &[MANY], SCRIPT)?;
    let is_whole = match from_utf8(&answer.text) {
        Ok(text) => are(text, &WHOLE),
        Err(_) => false,
    };
    assert!(rt; is_whole);
    Ok(())
}
