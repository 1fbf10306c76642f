// Lines that are wrong, lines that are long, and the last line.
use std::test::Fail;
use vx_runs::{Status, answers};

// What a script shows, its first part, a text that stands so often behind that, its last part, how the run ends, and the replies.
type Long = (
    &'static str,
    &'static str,
    &'static str,
    u64,
    &'static str,
    Status,
    &'static str,
);

const ROWS: &[Long] = &[
    (
        "a command that is not known ends the run",
        "site a 3 64\nfoo\nraw a\n",
        "",
        0,
        "",
        Status::BadLine { line: 2, column: 1 },
        "done\nbad 2 1\n",
    ),
    (
        "a kind that is not built is wrong",
        "site a 3 64\ntakeover a\n",
        "",
        0,
        "",
        Status::BadLine { line: 2, column: 1 },
        "done\nbad 2 1\n",
    ),
    // A link's setting is built where a full log fails writes.
    (
        "a setting that is not built is wrong",
        "site a 3 64\nset a b synchronous=off srlprot=dcm\n",
        "",
        0,
        "",
        Status::BadLine { line: 2, column: 1 },
        "done\nbad 2 1\n",
    ),
    // A setting holds from its line on, over crashes too.
    (
        "a link gets another setting",
        "site a 3 64\nraw a\nsite b 3 64\nraw b\nlink a b synchronous=off srlprot=fail\nconnect a b\nwrite a d1 0 1 11\nset a b synchronous=override srlprot=fail\nwrite a d1 1 1 22\npause a b\nwrite a d1 2 1 33\npump a b\nresume a b\nset a b synchronous=fail srlprot=fail\nrecover a\nwrite a d1 3 1 44\nset a b synchronous=off srlprot=override\n",
        "",
        0,
        "",
        Status::BadLine {
            line: 17,
            column: 1,
        },
        "done\ndone\ndone\ndone\ndone\ndone sent 1 1\ndone 1\ndone\nlogged 2\ndone\ndone 3\nno 23 paused\ndone\ndone\nrecovered 3\nsite a up\nrvg primary 1 a head 3 mark consistent session 2\nlink b attached cut running log net 0 stored 0\nno 14 linkdown b\nbad 17 1\n",
    ),
    (
        "the last line needs no end",
        "site a 3 64\nraw a",
        "",
        0,
        "",
        Status::Done,
        "done\ndone\n",
    ),
    // A line has 4,096 bytes at most.
    (
        "a line of 4,096 bytes is wrong from its first one",
        "",
        "x",
        4096,
        "",
        Status::BadLine { line: 1, column: 1 },
        "bad 1 1\n",
    ),
    (
        "a line of 4,097 bytes ends the run",
        "",
        "x",
        4097,
        "",
        Status::BadLine {
            line: 1,
            column: 4097,
        },
        "bad 1 4097\n",
    ),
    (
        "a long second line is named",
        "site a 3 64\n",
        "x",
        4097,
        "",
        Status::BadLine {
            line: 2,
            column: 4097,
        },
        "done\nbad 2 4097\n",
    ),
    // A line of 4,096 bytes, and the two behind them that end it.
    (
        "the longest line may end with a carriage return",
        "#",
        "x",
        4095,
        "\r\nsite a 3 64\r\n",
        Status::Done,
        "done\n",
    ),
    // Each site has its own, also where both have a volume of one name.
    (
        "a block is put to one of two groups",
        "site a 1 1024\ndg a init\nvol a v 64 mirrors=1 layout=concat log=none fmr=off rdpol=round\nsite b 2 1024\ndg b init\nvol b v 64 mirrors=2 layout=concat log=none fmr=off rdpol=prefer:1\nput b v 1 ",
        "a",
        1024,
        "\nread a v 1 1\nread b v 1 1\nwrite a v 0 1 11\ncrash b 0\nread a v 0 1\nread b v 1 1\n",
        Status::Done,
        "done\ndone\ndone\ndone\ndone\ndone\ndone\n00\naa\ndone\ndone\n11\nno 6 down\n",
    ),
];

#[test]
fn wrong_and_long_lines(rt: HostRuntime) -> Result<(), Fail> {
    let alloc = rt.alloc();
    for (name, first, fill, count, last, status, wanted) in ROWS {
        let mut script = String::from_str(alloc, first)?;
        for _byte in 0..*count {
            script.push_str(fill)?;
        }
        script.push_str(last)?;
        let answer = answers(&rt, alloc, script.as_bytes())?;
        assert!(rt; answer.is(*status, wanted), "{name}");
    }
    Ok(())
}
