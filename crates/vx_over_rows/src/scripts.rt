// Scripts with their replies, which were worked out by hand.
use crate::{applies, deports, imports, lines, open, over_groups, plexes, vols, writes};
use std::test::Fail;
use vx_runs::{Status, answers};

/// What a script shows, the script, and its replies.
pub type Row = (&'static str, &'static str, &'static str);

/// The same, with how the replies begin and how they end.
pub type Part = (&'static str, &'static str, &'static str, &'static str);

/// The same of a script that ends at the line of this number.
pub type Open = (&'static str, &'static str, u64, &'static str);

const ROWS: [&[Row]; 8] = [
    applies::ROWS,
    deports::ROWS,
    imports::ROWS,
    lines::ROWS,
    over_groups::ROWS,
    plexes::ROWS,
    vols::ROWS,
    writes::ROWS,
];

#[test]
fn scripts_are_answered(rt: HostRuntime) -> Result<(), Fail> {
    let alloc = rt.alloc();
    for rows in ROWS {
        for (name, script, wanted) in rows {
            let answer = answers(&rt, alloc, script.as_bytes())?;
            assert!(rt; answer.is(Status::Done, wanted), "{name}");
        }
    }
    for rows in [deports::PARTS, imports::PARTS, lines::PARTS] {
        for (name, script, start, end) in rows {
            let answer = answers(&rt, alloc, script.as_bytes())?;
            let text = answer.text.as_slice();
            let is_so = text.starts_with(start.as_bytes()) && text.ends_with(end.as_bytes());
            assert!(rt; is_so && answer.status == Status::Done, "{name}");
        }
    }
    for (name, script, line, wanted) in open::OPENS {
        let answer = answers(&rt, alloc, script.as_bytes())?;
        let status = Status::BadLine {
            line: *line,
            column: 1,
        };
        assert!(rt; answer.is(status, wanted), "{name}");
    }
    Ok(())
}
