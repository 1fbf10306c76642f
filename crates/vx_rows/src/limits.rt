// The greatest numbers that a script meets, and what has no other row: two groups in a run, and one beside a raw set.
use crate::scripts::Row;
use std::test::Fail;
use vx_runs::{Status, answers};

pub const ROWS: &[Row] = &[
    (
        "a run has at most 8 sites",
        "site a 1 16385\nsite a 1 8\nsite b 1 8\nsite c 1 8\nsite d 1 8\nsite e 1 8\nsite f 1 8\nsite g 1 8\nsite h 1 8\nsite i 1 8\nsite h 1 8\n",
        "no 19 limit blocks 16384\ndone\ndone\ndone\ndone\ndone\ndone\ndone\ndone\nno 19 limit sites 8\nno 2 exists h\n",
    ),
    (
        "a volume has at most 8 plexes",
        "site a 1 1024\ndg a init\nvol a v 1 mirrors=9 layout=concat log=none fmr=off rdpol=round\nvol a v 1 mirrors=0 layout=concat log=none fmr=off rdpol=round\n",
        "done\ndone\nno 19 limit plexes 8\nno 4 size\n",
    ),
    // What one does, and its crash, is nothing to the other.
    (
        "a group stands beside a linked raw set",
        "site a 3 64\nraw a\nsite b 3 64\nraw b\nlink a b synchronous=fail srlprot=fail\nconnect a b\nsite g 2 1024\ndg g init\nvol g v 64 mirrors=2 layout=concat log=none fmr=off rdpol=round\nwrite g v 0 1 55\nwrite a d1 0 1 11\npump a b\ndeliver 2\ndeliver 3\nwait a 1\ncrash a 0\nread g v 0 1\nshow b d1 0 1\ncrash g 0\nread g v 0 1\nshow b d1 0 1\n",
        "done\ndone\ndone\ndone\ndone\ndone sent 1 1\ndone\ndone\ndone\ndone\nlogged 1\ndone sent 2 2\ntaken sent 3 3\ntaken\ndone 1\ndone\n55\n11\ndone\nno 6 down\n11\n",
    ),
];

#[test]
fn a_group_has_at_most_32_volumes(rt: HostRuntime) -> Result<(), Fail> {
    let alloc = rt.alloc();
    let mut script = String::from_str(alloc, "site a 1 1024\ndg a init\n")?;
    let mut wanted = String::from_str(alloc, "done\ndone\n")?;
    for number in 0..33_u64 {
        let line = format!(in alloc;
            "vol a v{number:02} 1 mirrors=1 layout=concat log=none fmr=off rdpol=round\n"
        )?;
        script.push_str(&line)?;
        wanted.push_str(if number < 32 {
            "done\n"
        } else {
            "no 19 limit volumes 32\n"
        })?;
    }
    let answer = answers(&rt, alloc, script.as_bytes())?;
    assert!(rt; answer.is(Status::Done, &wanted));
    Ok(())
}
