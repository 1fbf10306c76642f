// A fuse of each length before one line at a site with a replicated volume group over its group, or before the line that makes that.
use std::test::Fail;
use vx_runs::{Status, answers};

// A script with a fuse in it, and the replies that may come.
#[derive(Clone, Copy, Drop)]
struct Cut {
    name: &'static str,
    // The lines before the fuse, and those behind it. It lets each number of calls pass that is below `lengths`, and `many`: more than the line makes.
    before: &'static str,
    behind: &'static str,
    picks: &'static [u64],
    lengths: u64,
    many: u64,
    // How the replies begin, and each way in which they may go on: the first one where no call passes, and the last one where all do.
    made: &'static str,
    ends: &'static [&'static str],
}

const CUTS: &[Cut] = &[
    // Behind the line a recovery, the line again, a write, a crash, a recovery, and the blocks. There is no replicated volume group behind the cut, and one
    // is made then; or it is there in its second session, and goes on in the third.
    Cut {
        name: "the line is cut anywhere",
        before: "site a 2 1024\ndg a init\nvol a l 8 mirrors=2 layout=concat log=none fmr=off rdpol=round\nvol a m 8 mirrors=2 layout=concat log=none fmr=off rdpol=round\nvol a v 16 mirrors=2 layout=concat log=none fmr=off rdpol=round\nwrite a v 1 1 44\n",
        behind: "rvg a srl=l dcm=m vols=v\nrecover a\nrvg a srl=l dcm=m vols=v\nwrite a v 0 1 11\ncrash a 0\nrecover a\nread a v 0 3\n",
        picks: &[0, u64::MAX],
        lengths: 150,
        many: 150,
        made: "done\ndone\ndone\ndone\ndone\ndone\ndone\n",
        ends: &[
            "no 6 down\nrecovered\nsite a up\ndisk 0 ok\ndisk 1 ok\nvol l 8 none off\nplex 0 ACTIVE\nplex 1 ACTIVE\nvol m 8 none off\nplex 0 ACTIVE\nplex 1 ACTIVE\nvol v 16 none off\nplex 0 ACTIVE\nplex 1 ACTIVE\ndone\ndone 1\ndone\nrecovered 1\nsite a up\ndisk 0 ok\ndisk 1 ok\nvol l 8 none off\nplex 0 ACTIVE\nplex 1 ACTIVE\nvol m 8 none off\nplex 0 ACTIVE\nplex 1 ACTIVE\nvol v 16 none off\nplex 0 ACTIVE\nplex 1 ACTIVE\nrvg primary 1 a head 1 mark consistent session 2\n11\n44\n00\n",
            "no 6 down\nrecovered 0\nsite a up\ndisk 0 ok\ndisk 1 ok\nvol l 8 none off\nplex 0 ACTIVE\nplex 1 ACTIVE\nvol m 8 none off\nplex 0 ACTIVE\nplex 1 ACTIVE\nvol v 16 none off\nplex 0 ACTIVE\nplex 1 ACTIVE\nrvg primary 1 a head 0 mark consistent session 2\nno 2 exists rvg\ndone 1\ndone\nrecovered 1\nsite a up\ndisk 0 ok\ndisk 1 ok\nvol l 8 none off\nplex 0 ACTIVE\nplex 1 ACTIVE\nvol m 8 none off\nplex 0 ACTIVE\nplex 1 ACTIVE\nvol v 16 none off\nplex 0 ACTIVE\nplex 1 ACTIVE\nrvg primary 1 a head 1 mark consistent session 3\n11\n44\n00\n",
            "done\nrecovered 0\nsite a up\ndisk 0 ok\ndisk 1 ok\nvol l 8 none off\nplex 0 ACTIVE\nplex 1 ACTIVE\nvol m 8 none off\nplex 0 ACTIVE\nplex 1 ACTIVE\nvol v 16 none off\nplex 0 ACTIVE\nplex 1 ACTIVE\nrvg primary 1 a head 0 mark consistent session 2\nno 2 exists rvg\ndone 1\ndone\nrecovered 1\nsite a up\ndisk 0 ok\ndisk 1 ok\nvol l 8 none off\nplex 0 ACTIVE\nplex 1 ACTIVE\nvol m 8 none off\nplex 0 ACTIVE\nplex 1 ACTIVE\nvol v 16 none off\nplex 0 ACTIVE\nplex 1 ACTIVE\nrvg primary 1 a head 1 mark consistent session 3\n11\n44\n00\n",
        ],
    },
    // The first write is there, and the second one too where it was done.
    Cut {
        name: "a write is cut anywhere",
        before: "site a 2 1024\ndg a init\nvol a l 8 mirrors=2 layout=concat log=none fmr=off rdpol=round\nvol a m 8 mirrors=2 layout=concat log=none fmr=off rdpol=round\nvol a v 16 mirrors=2 layout=concat log=none fmr=off rdpol=round\nwrite a v 1 1 44\nrvg a srl=l dcm=m vols=v\nwrite a v 0 1 11\n",
        behind: "write a v 0 2 22\nrecover a\nread a v 0 3\n",
        picks: &[0, 1, 2, u64::MAX],
        lengths: 10,
        many: 150,
        made: "done\ndone\ndone\ndone\ndone\ndone\ndone\ndone 1\ndone\n",
        ends: &[
            "no 6 down\nrecovered 1\nsite a up\ndisk 0 ok\ndisk 1 ok\nvol l 8 none off\nplex 0 ACTIVE\nplex 1 ACTIVE\nvol m 8 none off\nplex 0 ACTIVE\nplex 1 ACTIVE\nvol v 16 none off\nplex 0 ACTIVE\nplex 1 ACTIVE\nrvg primary 1 a head 1 mark consistent session 2\n11\n44\n00\n",
            "no 6 down\nrecovered 2\nsite a up\ndisk 0 ok\ndisk 1 ok\nvol l 8 none off\nplex 0 ACTIVE\nplex 1 ACTIVE\nvol m 8 none off\nplex 0 ACTIVE\nplex 1 ACTIVE\nvol v 16 none off\nplex 0 ACTIVE\nplex 1 ACTIVE\nrvg primary 1 a head 2 mark consistent session 2\n22\n22\n00\n",
            "done 2\nrecovered 2\nsite a up\ndisk 0 ok\ndisk 1 ok\nvol l 8 none off\nplex 0 ACTIVE\nplex 1 ACTIVE\nvol m 8 none off\nplex 0 ACTIVE\nplex 1 ACTIVE\nvol v 16 none off\nplex 0 ACTIVE\nplex 1 ACTIVE\nrvg primary 1 a head 2 mark consistent session 2\n22\n22\n00\n",
        ],
    },
    // Both writes are there behind an apply that was cut.
    Cut {
        name: "an apply is cut anywhere",
        before: "site a 2 1024\ndg a init\nvol a l 8 mirrors=2 layout=concat log=none fmr=off rdpol=round\nvol a m 8 mirrors=2 layout=concat log=none fmr=off rdpol=round\nvol a v 16 mirrors=2 layout=concat log=none fmr=off rdpol=round\nrvg a srl=l dcm=m vols=v\nwrite a v 0 1 11\nwrite a v 0 2 22\n",
        behind: "apply a 2\nrecover a\nread a v 0 3\n",
        picks: &[0, 1, 2, u64::MAX],
        lengths: 40,
        many: 40,
        made: "done\ndone\ndone\ndone\ndone\ndone\ndone 1\ndone 2\ndone\n",
        ends: &[
            "no 6 down\nrecovered 2\nsite a up\ndisk 0 ok\ndisk 1 ok\nvol l 8 none off\nplex 0 ACTIVE\nplex 1 ACTIVE\nvol m 8 none off\nplex 0 ACTIVE\nplex 1 ACTIVE\nvol v 16 none off\nplex 0 ACTIVE\nplex 1 ACTIVE\nrvg primary 1 a head 2 mark consistent session 2\n22\n22\n00\n",
            "done 2\nrecovered 2\nsite a up\ndisk 0 ok\ndisk 1 ok\nvol l 8 none off\nplex 0 ACTIVE\nplex 1 ACTIVE\nvol m 8 none off\nplex 0 ACTIVE\nplex 1 ACTIVE\nvol v 16 none off\nplex 0 ACTIVE\nplex 1 ACTIVE\nrvg primary 1 a head 2 mark consistent session 2\n22\n22\n00\n",
        ],
    },
    // Behind a deport that was cut the site comes up again with its write: it crashed. One that was done is no crash, and the site is away.
    Cut {
        name: "a deport is cut anywhere",
        before: "site a 2 1024\ndg a init\nvol a l 8 mirrors=2 layout=concat log=none fmr=off rdpol=round\nvol a m 8 mirrors=2 layout=concat log=none fmr=off rdpol=round\nvol a v 16 mirrors=2 layout=concat log=none fmr=off rdpol=round\nrvg a srl=l dcm=m vols=v\nwrite a v 0 1 11\n",
        behind: "dg a deport\nrecover a\nread a v 0 1\n",
        picks: &[0, 1, 2, u64::MAX],
        lengths: 40,
        many: 40,
        made: "done\ndone\ndone\ndone\ndone\ndone\ndone 1\ndone\n",
        ends: &[
            "no 6 down\nrecovered 1\nsite a up\ndisk 0 ok\ndisk 1 ok\nvol l 8 none off\nplex 0 ACTIVE\nplex 1 ACTIVE\nvol m 8 none off\nplex 0 ACTIVE\nplex 1 ACTIVE\nvol v 16 none off\nplex 0 ACTIVE\nplex 1 ACTIVE\nrvg primary 1 a head 1 mark consistent session 2\n11\n",
            "done\nno 5 role\nno 6 down\n",
        ],
    },
    // The deport was cut: the site is down, and not imported. Or it was done, and the import was cut, before the next session of the log or in it: the
    // site is down. Or both were done.
    Cut {
        name: "an import is cut anywhere",
        before: "site a 2 1024\ndg a init\nvol a l 8 mirrors=2 layout=concat log=none fmr=off rdpol=round\nvol a m 8 mirrors=2 layout=concat log=none fmr=off rdpol=round\nvol a v 16 mirrors=2 layout=concat log=none fmr=off rdpol=round\nrvg a srl=l dcm=m vols=v\nwrite a v 0 1 11\n",
        behind: "dg a deport\ndg a import\nrecover a\nread a v 0 1\n",
        picks: &[0, 1, u64::MAX],
        lengths: 120,
        many: 400,
        made: "done\ndone\ndone\ndone\ndone\ndone\ndone 1\ndone\n",
        ends: &[
            "no 6 down\nno 5 role\nrecovered 1\nsite a up\ndisk 0 ok\ndisk 1 ok\nvol l 8 none off\nplex 0 ACTIVE\nplex 1 ACTIVE\nvol m 8 none off\nplex 0 ACTIVE\nplex 1 ACTIVE\nvol v 16 none off\nplex 0 ACTIVE\nplex 1 ACTIVE\nrvg primary 1 a head 1 mark consistent session 2\n11\n",
            "done\nno 6 down\nrecovered 1\nsite a up\ndisk 0 ok\ndisk 1 ok\nvol l 8 none off\nplex 0 ACTIVE\nplex 1 ACTIVE\nvol m 8 none off\nplex 0 ACTIVE\nplex 1 ACTIVE\nvol v 16 none off\nplex 0 ACTIVE\nplex 1 ACTIVE\nrvg primary 1 a head 1 mark consistent session 2\n11\n",
            "done\nno 6 down\nrecovered 1\nsite a up\ndisk 0 ok\ndisk 1 ok\nvol l 8 none off\nplex 0 ACTIVE\nplex 1 ACTIVE\nvol m 8 none off\nplex 0 ACTIVE\nplex 1 ACTIVE\nvol v 16 none off\nplex 0 ACTIVE\nplex 1 ACTIVE\nrvg primary 1 a head 1 mark consistent session 3\n11\n",
            "done\ndone\nrecovered 1\nsite a up\ndisk 0 ok\ndisk 1 ok\nvol l 8 none off\nplex 0 ACTIVE\nplex 1 ACTIVE\nvol m 8 none off\nplex 0 ACTIVE\nplex 1 ACTIVE\nvol v 16 none off\nplex 0 ACTIVE\nplex 1 ACTIVE\nrvg primary 1 a head 1 mark consistent session 3\n11\n",
        ],
    },
    // The fuse of a halted site runs out in a detach, anywhere: the site has its writes, as they are durable.
    Cut {
        name: "a detach at a halted site is cut anywhere",
        before: "site a 2 1024\ndg a init\nvol a l 8 mirrors=2 layout=concat log=none fmr=off rdpol=round\nvol a m 16 mirrors=2 layout=concat log=none fmr=off rdpol=round\nvol a v 16 mirrors=2 layout=concat log=none fmr=off rdpol=round\nvol a w 8 mirrors=1 layout=concat log=none fmr=off rdpol=round\nrvg a srl=l dcm=m vols=v,w\nwrite a v 0 2 22\napply a 1\nwrite a w 0 1 33\ndisk a 0 fail\napply a 2\ndisk a 0 ok\n",
        behind: "plex a v 1 det\nrecover a\nread a v 0 3\nread a w 0 1\n",
        picks: &[0, u64::MAX],
        lengths: 20,
        many: 30,
        made: "done\ndone\ndone\ndone\ndone\ndone\ndone\ndone 1\ndone 1\ndone 2\ndone\nno 7 device 0\ndone\ndone\n",
        ends: &[
            "no 6 down\nrecovered 2\nsite a up\ndisk 0 ok\ndisk 1 ok\nvol l 8 none off\nplex 0 ACTIVE\nplex 1 ACTIVE\nvol m 16 none off\nplex 0 ACTIVE\nplex 1 ACTIVE\nvol v 16 none off\nplex 0 ACTIVE\nplex 1 ACTIVE\nvol w 8 none off\nplex 0 ACTIVE\nrvg primary 1 a head 2 mark consistent session 2\n22\n22\n00\n33\n",
            "no 6 down\nrecovered 2\nsite a up\ndisk 0 ok\ndisk 1 ok\nvol l 8 none off\nplex 0 ACTIVE\nplex 1 ACTIVE\nvol m 16 none off\nplex 0 ACTIVE\nplex 1 ACTIVE\nvol v 16 none off\nplex 0 ACTIVE\nplex 1 STALE\nvol w 8 none off\nplex 0 ACTIVE\nrvg primary 1 a head 2 mark consistent session 2\n22\n22\n00\n33\n",
            "done\nrecovered 2\nsite a up\ndisk 0 ok\ndisk 1 ok\nvol l 8 none off\nplex 0 ACTIVE\nplex 1 ACTIVE\nvol m 16 none off\nplex 0 ACTIVE\nplex 1 ACTIVE\nvol v 16 none off\nplex 0 ACTIVE\nplex 1 STALE\nvol w 8 none off\nplex 0 ACTIVE\nrvg primary 1 a head 2 mark consistent session 2\n22\n22\n00\n33\n",
        ],
    },
    // The other plex is detached behind an attach only where the first one takes part, and what was written while it did not is read.
    Cut {
        name: "an attach is cut anywhere",
        before: "site a 2 1024\ndg a init\nvol a l 8 mirrors=2 layout=concat log=none fmr=off rdpol=round\nvol a m 8 mirrors=2 layout=concat log=none fmr=off rdpol=round\nvol a v 16 mirrors=2 layout=concat log=none fmr=off rdpol=round\nrvg a srl=l dcm=m vols=v\nplex a v 1 det\nwrite a v 0 2 22\napply a 1\n",
        behind: "plex a v 1 att\nrecover a\nplex a v 0 det\nread a v 0 3\n",
        picks: &[0, u64::MAX],
        lengths: 30,
        many: 30,
        made: "done\ndone\ndone\ndone\ndone\ndone\ndone\ndone 1\ndone 1\ndone\n",
        ends: &[
            "no 6 down\nrecovered 1\nsite a up\ndisk 0 ok\ndisk 1 ok\nvol l 8 none off\nplex 0 ACTIVE\nplex 1 ACTIVE\nvol m 8 none off\nplex 0 ACTIVE\nplex 1 ACTIVE\nvol v 16 none off\nplex 0 ACTIVE\nplex 1 STALE\nrvg primary 1 a head 1 mark consistent session 2\nno 10 lastplex\n22\n22\n00\n",
            "no 6 down\nrecovered 1\nsite a up\ndisk 0 ok\ndisk 1 ok\nvol l 8 none off\nplex 0 ACTIVE\nplex 1 ACTIVE\nvol m 8 none off\nplex 0 ACTIVE\nplex 1 ACTIVE\nvol v 16 none off\nplex 0 ACTIVE\nplex 1 ACTIVE\nrvg primary 1 a head 1 mark consistent session 2\ndone\n22\n22\n00\n",
            "done 1\nrecovered 1\nsite a up\ndisk 0 ok\ndisk 1 ok\nvol l 8 none off\nplex 0 ACTIVE\nplex 1 ACTIVE\nvol m 8 none off\nplex 0 ACTIVE\nplex 1 ACTIVE\nvol v 16 none off\nplex 0 ACTIVE\nplex 1 ACTIVE\nrvg primary 1 a head 1 mark consistent session 2\ndone\n22\n22\n00\n",
        ],
    },
    // The volume is there, or it is not, and the data volume has what was written.
    Cut {
        name: "a volume is cut anywhere",
        before: "site a 2 1024\ndg a init\nvol a l 8 mirrors=2 layout=concat log=none fmr=off rdpol=round\nvol a m 8 mirrors=2 layout=concat log=none fmr=off rdpol=round\nvol a v 16 mirrors=2 layout=concat log=none fmr=off rdpol=round\nrvg a srl=l dcm=m vols=v\nwrite a v 0 2 22\n",
        behind: "vol a w 8 mirrors=2 layout=concat log=none fmr=off rdpol=round\ncrash a 0\nrecover a\nread a w 7 1\nread a v 0 3\n",
        picks: &[0, u64::MAX],
        lengths: 60,
        many: 200,
        made: "done\ndone\ndone\ndone\ndone\ndone\ndone 1\ndone\n",
        ends: &[
            "no 6 down\nno 6 down\nrecovered 1\nsite a up\ndisk 0 ok\ndisk 1 ok\nvol l 8 none off\nplex 0 ACTIVE\nplex 1 ACTIVE\nvol m 8 none off\nplex 0 ACTIVE\nplex 1 ACTIVE\nvol v 16 none off\nplex 0 ACTIVE\nplex 1 ACTIVE\nrvg primary 1 a head 1 mark consistent session 2\nno 1 unknown w\n22\n22\n00\n",
            "no 6 down\nno 6 down\nrecovered 1\nsite a up\ndisk 0 ok\ndisk 1 ok\nvol l 8 none off\nplex 0 ACTIVE\nplex 1 ACTIVE\nvol m 8 none off\nplex 0 ACTIVE\nplex 1 ACTIVE\nvol v 16 none off\nplex 0 ACTIVE\nplex 1 ACTIVE\nvol w 8 none off\nplex 0 ACTIVE\nplex 1 ACTIVE\nrvg primary 1 a head 1 mark consistent session 2\n00\n22\n22\n00\n",
            "done\ndone\nrecovered 1\nsite a up\ndisk 0 ok\ndisk 1 ok\nvol l 8 none off\nplex 0 ACTIVE\nplex 1 ACTIVE\nvol m 8 none off\nplex 0 ACTIVE\nplex 1 ACTIVE\nvol v 16 none off\nplex 0 ACTIVE\nplex 1 ACTIVE\nvol w 8 none off\nplex 0 ACTIVE\nplex 1 ACTIVE\nrvg primary 1 a head 1 mark consistent session 2\n00\n22\n22\n00\n",
        ],
    },
    // A write to a volume that is none of the replicated volume group: the recovery says what is kept of it.
    Cut {
        name: "a write to another volume is cut anywhere",
        before: "site a 2 1024\ndg a init\nvol a l 8 mirrors=2 layout=concat log=none fmr=off rdpol=round\nvol a m 8 mirrors=2 layout=concat log=none fmr=off rdpol=round\nvol a v 16 mirrors=2 layout=concat log=none fmr=off rdpol=round\nvol a w 16 mirrors=2 layout=concat log=none fmr=off rdpol=round\nrvg a srl=l dcm=m vols=v\nwrite a v 0 1 22\n",
        behind: "write a w 0 1 11\nrecover a\nread a w 0 1\nread a v 0 1\nrecover a\nread a w 0 1\n",
        picks: &[0, u64::MAX],
        lengths: 6,
        many: 6,
        made: "done\ndone\ndone\ndone\ndone\ndone\ndone\ndone 1\ndone\n",
        ends: &[
            "no 6 down\nrecovered 1\nsite a up\ndisk 0 ok\ndisk 1 ok\nvol l 8 none off\nplex 0 ACTIVE\nplex 1 ACTIVE\nvol m 8 none off\nplex 0 ACTIVE\nplex 1 ACTIVE\nvol v 16 none off\nplex 0 ACTIVE\nplex 1 ACTIVE\nvol w 16 none off\nplex 0 ACTIVE\nplex 1 ACTIVE\nrvg primary 1 a head 1 mark consistent session 2\nkept w 0 0\n00\n22\nrecovered 1\nsite a up\ndisk 0 ok\ndisk 1 ok\nvol l 8 none off\nplex 0 ACTIVE\nplex 1 ACTIVE\nvol m 8 none off\nplex 0 ACTIVE\nplex 1 ACTIVE\nvol v 16 none off\nplex 0 ACTIVE\nplex 1 ACTIVE\nvol w 16 none off\nplex 0 ACTIVE\nplex 1 ACTIVE\nrvg primary 1 a head 1 mark consistent session 3\n00\n",
            "no 6 down\nrecovered 1\nsite a up\ndisk 0 ok\ndisk 1 ok\nvol l 8 none off\nplex 0 ACTIVE\nplex 1 ACTIVE\nvol m 8 none off\nplex 0 ACTIVE\nplex 1 ACTIVE\nvol v 16 none off\nplex 0 ACTIVE\nplex 1 ACTIVE\nvol w 16 none off\nplex 0 ACTIVE\nplex 1 ACTIVE\nrvg primary 1 a head 1 mark consistent session 2\nkept w 0 1\n11\n22\nrecovered 1\nsite a up\ndisk 0 ok\ndisk 1 ok\nvol l 8 none off\nplex 0 ACTIVE\nplex 1 ACTIVE\nvol m 8 none off\nplex 0 ACTIVE\nplex 1 ACTIVE\nvol v 16 none off\nplex 0 ACTIVE\nplex 1 ACTIVE\nvol w 16 none off\nplex 0 ACTIVE\nplex 1 ACTIVE\nrvg primary 1 a head 1 mark consistent session 3\n11\n",
            "done\nrecovered 1\nsite a up\ndisk 0 ok\ndisk 1 ok\nvol l 8 none off\nplex 0 ACTIVE\nplex 1 ACTIVE\nvol m 8 none off\nplex 0 ACTIVE\nplex 1 ACTIVE\nvol v 16 none off\nplex 0 ACTIVE\nplex 1 ACTIVE\nvol w 16 none off\nplex 0 ACTIVE\nplex 1 ACTIVE\nrvg primary 1 a head 1 mark consistent session 2\n11\n22\nrecovered 1\nsite a up\ndisk 0 ok\ndisk 1 ok\nvol l 8 none off\nplex 0 ACTIVE\nplex 1 ACTIVE\nvol m 8 none off\nplex 0 ACTIVE\nplex 1 ACTIVE\nvol v 16 none off\nplex 0 ACTIVE\nplex 1 ACTIVE\nvol w 16 none off\nplex 0 ACTIVE\nplex 1 ACTIVE\nrvg primary 1 a head 1 mark consistent session 3\n11\n",
        ],
    },
];

// Whether a fuse of so many calls may be answered so.
fn may_come(cut: &Cut, calls: u64, text: &[u8]) -> bool {
    let Some(end) = text.strip_prefix(cut.made.as_bytes()) else {
        return false;
    };
    let mut place = 0_usize;
    for other in cut.ends {
        place = place.wrapping_add(1);
        let is_there = (calls > 0 || place == 1) && (calls < cut.many || place == cut.ends.len());
        if is_there && end == other.as_bytes() {
            return true;
        }
    }
    false
}

#[test]
fn lines_are_cut_anywhere(rt: HostRuntime) -> Result<(), Fail> {
    let alloc = rt.alloc();
    for cut in CUTS {
        let Cut {
            name,
            before,
            behind,
            ..
        } = *cut;
        for pick in cut.picks {
            for length in 0..cut.lengths.wrapping_add(1) {
                let calls = if length < cut.lengths {
                    length
                } else {
                    cut.many
                };
                let script = format!(in alloc; "{before}fuse a {calls} {pick}\n{behind}")?;
                let answer = answers(&rt, alloc, script.as_bytes())?;
                assert!(rt;
                    answer.status == Status::Done && may_come(cut, calls, &answer.text),
                    "{name}, with {calls} calls and {pick}"
                );
            }
        }
    }
    Ok(())
}
