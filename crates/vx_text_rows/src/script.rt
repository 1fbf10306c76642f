// Lines that are printed as they stand, and lines that are not read.
use std::alloc::Global;
use std::test::Fail;
use vx_model::Bytes;
use vx_script::{LineErr, parse, print};

// Lines that are printed as they stand, and lines with those that are printed of them.
const LINES: &str = "site a 3 1024
raw a
raw abcdefgh
raw a2345678
disk a 2 fail
disk a 0 ok
crash a 5
fuse a 3 7
recover a
dg a init
dg a deport
dg a import
vol a v1 100 mirrors=2 layout=concat log=none fmr=off rdpol=round
vol a v1 100 mirrors=2 layout=stripe ncol=3 width=16 log=drl fmr=on rdpol=prefer:1
plex a v1 0 det
plex a v1 1 att
rvg a srl=s dcm=d vols=v1
rvg a srl=s dcm=d vols=v1,v2,v3
write a v1 0 16 0f
read a v1 8 2
show a v1 8 2
apply a 10
wait a 18446744073709551615
link a b synchronous=off srlprot=off
link a b synchronous=override srlprot=override
set a b synchronous=fail srlprot=fail
set a b synchronous=fail srlprot=dcm
attach a b
detach a b
pause a b
resume a b
connect a b
cut a b
pump a b
tick a b
deliver 9
settle a b
resync a b
migrate a b
takeover b
failback b a
bunker a c synchronous=off srlprot=autodcm
activate c b
burst a 4
status a
t 1 write v1 0 1 00
t 2 read v1 5
end
  site   a 003  1024  |site a 3 1024
wait a 00000000000000000001|wait a 1
wait a 00000000000000000000|wait a 0
write a v1 0 1 AB|write a v1 0 1 ab
t 01 write v 00 1 cD|t 1 write v 0 1 cd";

// The column of each wrong line.
const WRONG: &[(u64, &str)] = &[
    (1, "nosuch a"),
    (3, "  nosuch a"),
    (1, "Raw a"),
    (1, "snap a b"),
    (4, "raw"),
    (5, "raw\u{20}"),
    (5, "raw A"),
    (5, "raw 1a"),
    (5, "raw abcdefghi"),
    (7, "raw a b"),
    (7, "site a"),
    (8, "site a x 4"),
    (8, "site a -1 4"),
    (10, "site a 3 x"),
    (15, "site a 3 1024 7"),
    (10, "site a 3 100000000000000000000"),
    (10, "site a 3 000000000000000000001"),
    (10, "site a 3 18446744073709551616"),
    (10, "disk a 1 bad"),
    (9, "crash a b"),
    (8, "crash a"),
    (9, "fuse a 1"),
    (6, "dg a gone"),
    (5, "dg a"),
    (51, "vol a v 8 mirrors=1 layout=concat log=none fmr=off"),
    (
        52,
        "vol a v 8 mirrors=1 layout=concat log=none fmr=off rdpol=prefer:",
    ),
    (
        11,
        "vol a v 8 layout=concat mirrors=1 log=none fmr=off rdpol=round",
    ),
    (
        35,
        "vol a v 8 mirrors=1 layout=concat fmr=off log=none rdpol=round",
    ),
    (
        35,
        "vol a v 8 mirrors=1 layout=stripe width=4 ncol=2 log=none fmr=off rdpol=round",
    ),
    (
        35,
        "vol a v 8 mirrors=1 layout=concat ncol=2 width=4 log=none fmr=off rdpol=round",
    ),
    (
        21,
        "vol a v 8 mirrors=1 layout=raid log=none fmr=off rdpol=round",
    ),
    (
        11,
        "vol a v 8 mirrors= layout=concat log=none fmr=off rdpol=round",
    ),
    (12, "plex a v 0 off"),
    (19, "rvg a srl=s dcm=d vols="),
    (19, "rvg a srl=s dcm=d vols=v,,w"),
    (19, "rvg a srl=s dcm=d vols=v, w"),
    (7, "rvg a dcm=d srl=s vols=v"),
    (14, "write a v 0 1"),
    (15, "write a v 0 1 f"),
    (15, "write a v 0 1 fg"),
    (15, "write a v 0 1 fff"),
    (18, "write a v 0 1 ff ack=logged"),
    (11, "put a v 0 00"),
    (10, "put a v 0"),
    (11, "read a v 0"),
    (25, "link a b synchronous=off"),
    (10, "link a b synchronous=on srlprot=off"),
    (10, "link a b srlprot=off synchronous=off"),
    (26, "link a b synchronous=off srlprot=log"),
    (38, "link a b synchronous=off srlprot=off ack=memory"),
    (9, "attach a"),
    (12, "attach a b c"),
    (8, "deliver"),
    (9, "deliver a"),
    (8, "burst a"),
    (3, "t x read v 0"),
    (5, "t 1 erase v 0"),
    (14, "t 1 read v 0 1"),
    (16, "t 1 write v 0 1"),
    (5, "end x"),
    (1, "raw\ta"),
    (5, "raw a\t"),
    (5, "raw a\r"),
];

// Bytes at the front of a line, the byte behind them up to so many bytes, and the column that is wrong, or 0 where there is no line.
const LONG: &[(&str, u8, usize, u64)] = &[
    ("put a v1 3 ", b'0', 1034, 12),
    ("put a v1 3 ", b'0', 1036, 12),
    ("put a v1 3 ", b'g', 1035, 12),
    ("raw a", b' ', 4097, 4097),
    ("# ", b'x', 4097, 4097),
    (" ", b' ', 4097, 4097),
    ("raw a ", b'x', 4096, 7),
    ("", b' ', 0, 0),
    (" ", b' ', 4096, 0),
    ("#", b'x', 4096, 0),
    ("  # raw a", b'x', 9, 0),
];

// What a line prints as: empty where it has no reply.
fn printed(alloc: Global, line: &[u8]) -> Result<Bytes, LineErr> {
    match parse(alloc, line, 7)? {
        Some(line) => match print(alloc, &line) {
            Ok(text) => Ok(text),
            Err(_) => Err(LineErr::OutOfMemory),
        },
        None => Ok(Bytes::new(Vec::new(alloc))),
    }
}

// The column that is wrong in a line, which has this number, or 0 where there is none to be read.
fn wrong_at(alloc: Global, line: &[u8], number: u64) -> Option<u64> {
    match parse(alloc, line, number) {
        Err(LineErr::Bad { line, column }) if line == number => Some(column),
        Ok(None) => Some(0),
        _ => None,
    }
}

// `front`, then `byte` until there are so many bytes.
fn filled(alloc: Global, front: &str, byte: u8, len: usize) -> Result<Vec<u8>, Fail> {
    let mut line = Vec::from_slice(alloc, front.as_bytes())?;
    line.resize(len, byte)?;
    Ok(line)
}

#[test]
fn prints_each_kind(rt: HostRuntime) -> Result<(), Fail> {
    let alloc = rt.alloc();
    for entry in LINES.split('\n') {
        let (line, wanted) = entry.split_once('|').unwrap_or((entry, entry));
        let text = printed(alloc, line.as_bytes())?;
        assert!(rt; text.as_slice() == wanted.as_bytes(), "at {line}");
    }
    for (front, byte, len, wanted, last, count) in [
        ("put a v1 3 ", b'B', 1035, "put a v1 3 ", b'b', 1035),
        ("raw a", b' ', 4096, "raw a", b' ', 5),
    ] {
        let text = printed(alloc, &filled(alloc, front, byte, len)?)?;
        assert!(rt;
            text.as_slice() == filled(alloc, wanted, last, count)?.as_slice(),
            "at {front}"
        );
    }
    Ok(())
}

#[test]
fn finds_the_wrong_word(rt: HostRuntime) -> Result<(), Fail> {
    let alloc = rt.alloc();
    for (column, line) in WRONG {
        assert!(rt;
            wrong_at(alloc, line.as_bytes(), 7) == Some(*column),
            "at {line}"
        );
    }
    for (front, byte, len, column) in LONG {
        let line = filled(alloc, front, *byte, *len)?;
        assert!(rt;
            wrong_at(alloc, &line, 1) == Some(*column),
            "at {front} and {len} bytes"
        );
    }
    Ok(())
}
