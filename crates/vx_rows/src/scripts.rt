// Scripts that are done, with their replies, which were worked out by hand.
use crate::{
    disks, fuses, groups, halves, limits, lines, links, recovery, statuses, unlinked, words,
};
use std::test::Fail;
use vx_runs::{Status, answers};

/// What a script shows, the script, and its replies.
pub type Row = (&'static str, &'static str, &'static str);

/// The same, with both replies that there may be: as it was before, and as it was to be.
pub type Half = (&'static str, &'static str, &'static str, &'static str);

/// The same, with how the replies begin and how they end.
pub type Part = (&'static str, &'static str, &'static str, &'static str);

const ROWS: [&[Row]; 11] = [
    disks::ROWS,
    fuses::ROWS,
    groups::ROWS,
    halves::ROWS,
    limits::ROWS,
    lines::ROWS,
    links::ROWS,
    recovery::ROWS,
    statuses::ROWS,
    unlinked::ROWS,
    words::ROWS,
];

#[test]
fn scripts_are_answered(rt: HostRuntime) -> Result<(), Fail> {
    let alloc = rt.alloc();
    for rows in ROWS {
        for (name, script, wanted) in rows {
            let answer = answers(&rt, alloc, script.as_bytes())?;
            assert!(rt; answer.is(Status::Done, wanted), "{name}");
        }
    }
    for (name, script, old, new) in halves::HALVES {
        let answer = answers(&rt, alloc, script.as_bytes())?;
        assert!(rt;
            answer.is(Status::Done, old) || answer.is(Status::Done, new),
            "{name}"
        );
    }
    for (name, script, start, end) in groups::PARTS {
        let answer = answers(&rt, alloc, script.as_bytes())?;
        let text = answer.text.as_slice();
        let is_so = text.starts_with(start.as_bytes()) && text.ends_with(end.as_bytes());
        assert!(rt; is_so && answer.status == Status::Done, "{name}");
    }
    Ok(())
}
