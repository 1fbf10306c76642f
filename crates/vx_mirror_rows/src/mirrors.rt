// Lines on a volume of two plexes, and what the replies to them keep to, wherever a fuse cuts one of them.
use std::alloc::Global;
use vx_model::OutOfMemory;

/// What a line asks for. A write has its first block, counted from the first of the five, and what it fills its blocks with.
#[derive(Clone, Copy, Drop)]
pub enum Step {
    Make,
    Write(u64, &'static [&'static str]),
    Detach,
    Attach,
    Deport,
    Import,
}

/// Which volume the lines are on.
#[derive(Clone, Copy, Drop)]
pub struct Kind {
    make: &'static str,
    // Its line in a status.
    shown: &'static str,
    // The first of the five blocks that the lines work on.
    first: u64,
    // What an attach is answered that has to copy what one write of two blocks changed.
    copied: &'static str,
    /// So many lengths of fuses: more than the calls of any of the lines, of which the making of the volume has most.
    pub lengths: u64,
}

/// A volume of one region, without logs.
pub const PLAIN: Kind = Kind {
    make: "vol a v 64 mirrors=2 layout=concat log=none fmr=off rdpol=round\n",
    shown: "vol v 64 none off",
    first: 0,
    copied: "done 1",
    lengths: 24,
};

/// A volume of four regions with both logs. The blocks lie where the first region ends.
pub const LOGGED: Kind = Kind {
    make: "vol a v 256 mirrors=2 layout=concat log=drl fmr=on rdpol=round\n",
    shown: "vol v 256 drl on",
    first: 62,
    copied: "done 2",
    lengths: 48,
};

/// A site whose disks are a group without volumes.
pub const MADE: &str = "site a 2 1024\ndg a init\n";

/// How many lines there are behind it.
pub const LINES: usize = 9;

/// The lines behind it.
pub const STEPS: [Step; LINES] = [
    Step::Make,
    Step::Write(0, &["11", "11"]),
    Step::Detach,
    Step::Write(1, &["22", "22"]),
    Step::Attach,
    Step::Write(3, &["33"]),
    Step::Deport,
    Step::Import,
    Step::Write(2, &["44", "44"]),
];

/// A line behind the others.
pub fn push_line(
    alloc: Global,
    script: &mut String,
    kind: Kind,
    step: Step,
) -> Result<(), OutOfMemory> {
    match step {
        Step::Make => script.push_str(kind.make)?,
        Step::Write(start, bytes) => {
            let block = kind.first.wrapping_add(start);
            let count = bytes.len();
            let fill = bytes.first().copied().unwrap_or("00");
            let line = format!(in alloc; "write a v {block} {count} {fill}\n")?;
            script.push_str(&line)?;
        }
        Step::Detach => script.push_str("plex a v 1 det\n")?,
        Step::Attach => script.push_str("plex a v 1 att\n")?,
        Step::Deport => script.push_str("dg a deport\n")?,
        Step::Import => script.push_str("dg a import\n")?,
    }
    Ok(())
}

/// What brings the site up twice, and shows the blocks both times.
pub fn push_closing(alloc: Global, script: &mut String, kind: Kind) -> Result<(), OutOfMemory> {
    let first = kind.first;
    let closing = format!(in alloc;
        "recover a\nread a v {first} 5\nrecover a\nread a v {first} 5\n"
    )?;
    script.push_str(&closing)?;
    Ok(())
}

/// What is so of a thing, as far as the replies tell it.
#[derive(Clone, Copy, PartialEq, Eq, Drop)]
enum Known {
    Yes,
    No,
    Maybe,
}

/// The replies that are left, and what those before them say.
#[derive(Drop)]
pub struct Mirror<'a> {
    rest: &'a str,
    kind: Kind,
    is_down: bool,
    is_away: bool,
    // Whether there is the volume, and whether its second plex takes part.
    volume: Known,
    second: Known,
    blocks: [&'static str; 5],
    // The write that the fuse cut.
    cut: Option<(u64, &'static [&'static str])>,
}

impl<'a> Mirror<'a> {
    /// The replies to a script.
    pub fn new(text: &'a str, kind: Kind) -> Mirror<'a> {
        Mirror {
            rest: text,
            kind,
            is_down: false,
            is_away: false,
            volume: Known::No,
            second: Known::Yes,
            blocks: ["00"; 5],
            cut: None,
        }
    }

    fn next(&mut self) -> Option<&'a str> {
        let (line, rest) = self.rest.split_once("\n")?;
        self.rest = rest;
        Some(line)
    }

    /// Whether the next reply is this one.
    pub fn is_next(&mut self, wanted: &str) -> bool {
        match self.next() {
            Some(reply) => reply == wanted,
            None => false,
        }
    }

    /// Whether the next reply may come to a line that sets a fuse. A site that was deported is not up.
    pub fn may_fuse(&mut self) -> bool {
        if self.is_away {
            self.is_next("no 6 down")
        } else {
            self.is_next("done")
        }
    }

    /// Whether the next reply may come to this line.
    pub fn may_come(&mut self, step: Step) -> bool {
        let Some(reply) = self.next() else {
            return false;
        };
        if self.is_down {
            return reply == off(step);
        }
        if reply == "no 6 down" {
            self.falls(step);
            return true;
        }
        self.does(step);
        match step {
            Step::Attach => reply == self.kind.copied,
            _ => reply == "done",
        }
    }

    // The fuse ran out in the line: what it was to change may be so or not.
    fn falls(&mut self, step: Step) {
        self.is_down = true;
        match step {
            Step::Make => self.volume = Known::Maybe,
            Step::Detach | Step::Attach => self.second = Known::Maybe,
            Step::Write(start, bytes) => self.cut = Some((start, bytes)),
            Step::Deport | Step::Import => {}
        }
    }

    fn does(&mut self, step: Step) {
        match step {
            Step::Make => self.volume = Known::Yes,
            Step::Detach => self.second = Known::No,
            Step::Attach => self.second = Known::Yes,
            Step::Write(start, bytes) => self.fills(start, bytes),
            Step::Deport => self.is_away = true,
            Step::Import => self.is_away = false,
        }
    }

    fn fills(&mut self, start: u64, bytes: &[&'static str]) {
        let mut place = start;
        for fill in bytes {
            self.fill(place, fill);
            place = place.wrapping_add(1);
        }
    }

    fn fill(&mut self, place: u64, fill: &'static str) {
        if let Some(block) = self.blocks.get_mut(place as usize) {
            *block = fill;
        }
    }

    /// Whether the site comes up twice as it has to, with the same blocks both times. Only the first time it says what is kept of the write that was cut.
    pub fn ends(&mut self) -> bool {
        let rises = self.rises() && self.says_kept() && self.has_blocks();
        rises && self.rises() && self.has_blocks() && self.rest.is_empty()
    }

    // The lines of a recovery up to the last plex. A volume that may not have been made is there or not.
    fn rises(&mut self) -> bool {
        let is_up = self.is_next("recovered")
            && self.is_next("site a up")
            && self.is_next("disk 0 ok")
            && self.is_next("disk 1 ok");
        let is_shown = self.rest.starts_with("vol v ");
        if self.volume == Known::Maybe {
            self.volume = if is_shown { Known::Yes } else { Known::No };
        }
        is_up && is_shown == (self.volume == Known::Yes) && (!is_shown || self.shows_volume())
    }

    fn shows_volume(&mut self) -> bool {
        let is_first = self.is_next(self.kind.shown) && self.is_next("plex 0 ACTIVE");
        let Some(line) = self.next() else {
            return false;
        };
        let is_active = line == "plex 1 ACTIVE";
        let is_stale = line == "plex 1 STALE";
        let may = match self.second {
            Known::Yes => is_active,
            Known::No => is_stale,
            Known::Maybe => is_active || is_stale,
        };
        self.second = if is_active { Known::Yes } else { Known::No };
        is_first && may
    }

    // The digits of the write that was cut, one for each block: 1 where the block has what was to be written.
    fn says_kept(&mut self) -> bool {
        let Some((start, bytes)) = self.cut else {
            return true;
        };
        let Some(line) = self.next() else {
            return false;
        };
        let Some(words) = line.strip_prefix("kept v ") else {
            return false;
        };
        let Some((first, digits)) = words.split_once(" ") else {
            return false;
        };
        let is_first = match first.parse::<u64>() {
            Ok(block) => block == self.kind.first.wrapping_add(start),
            Err(_) => false,
        };
        is_first && self.keeps(start, bytes, digits)
    }

    fn keeps(&mut self, start: u64, bytes: &[&'static str], digits: &str) -> bool {
        let mut place = start;
        let mut left = digits;
        let mut are_digits = true;
        for fill in bytes {
            if let Some(rest) = left.strip_prefix("1") {
                left = rest;
                self.fill(place, fill);
            } else if let Some(rest) = left.strip_prefix("0") {
                left = rest;
            } else {
                are_digits = false;
            }
            place = place.wrapping_add(1);
        }
        are_digits && left.is_empty()
    }

    fn has_blocks(&mut self) -> bool {
        if self.volume == Known::No {
            return self.is_next("no 1 unknown v");
        }
        let mut has_all = true;
        for block in self.blocks {
            if !self.is_next(block) {
                has_all = false;
            }
        }
        has_all
    }
}

// What a line is answered at a site that is down.
fn off(step: Step) -> &'static str {
    match step {
        Step::Import => "no 5 role",
        _ => "no 6 down",
    }
}
