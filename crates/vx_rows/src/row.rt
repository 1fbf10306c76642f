// The lines of two writes over a link, and of what brings both over.

/// One of the two sites.
#[derive(Clone, Copy, PartialEq, Eq, Drop)]
pub enum Site {
    Sender,
    Receiver,
}

impl Site {
    pub fn name(&self) -> &'static str {
        match self {
            Site::Sender => "a",
            Site::Receiver => "b",
        }
    }
}

/// What a line asks for. A write has its place among the writes, and a line on one write or one packet has its number.
#[derive(Clone, Copy, Drop)]
pub enum Step {
    Link,
    Connect,
    Cut,
    Write(usize),
    Wait(u64),
    Pump,
    Deliver(u64),
    Apply,
    Settle,
}

impl Step {
    /// Whether the line is refused while the site is down.
    pub fn needs(&self, site: Site) -> bool {
        match self {
            Step::Link | Step::Settle => true,
            Step::Apply => site == Site::Receiver,
            Step::Deliver(_) => false,
            _ => site == Site::Sender,
        }
    }

    /// Whether the line may write to the disks of the site.
    pub fn writes_to(&self, site: Site) -> bool {
        match self {
            Step::Link | Step::Settle => true,
            Step::Apply => site == Site::Receiver,
            Step::Write(_) | Step::Deliver(_) => site == Site::Sender,
            _ => false,
        }
    }
}

/// Both sites, without a link.
pub const MADE: &str = "site a 3 64\nraw a\nsite b 3 64\nraw b\n";

/// How many lines there are from the link on.
pub const LINES: usize = 23;

/// The lines from the link on. Behind the cut the receiver greets again.
pub fn lines() -> [(Step, &'static str); LINES] {
    [
        (Step::Link, "link a b synchronous=fail srlprot=fail\n"),
        (Step::Connect, "connect a b\n"),
        (Step::Write(0), "write a d1 0 1 11\n"),
        (Step::Wait(1), "wait a 1\n"),
        (Step::Pump, "pump a b\n"),
        (Step::Deliver(2), "deliver 2\n"),
        (Step::Deliver(3), "deliver 3\n"),
        (Step::Wait(1), "wait a 1\n"),
        (Step::Write(1), "write a d1 1 1 22\n"),
        (Step::Cut, "cut a b\n"),
        (Step::Wait(2), "wait a 2\n"),
        (Step::Write(2), "write a d1 2 1 33\n"),
        (Step::Wait(3), "wait a 3\n"),
        (Step::Connect, "connect a b\n"),
        (Step::Deliver(4), "deliver 4\n"),
        (Step::Pump, "pump a b\n"),
        (Step::Deliver(5), "deliver 5\n"),
        (Step::Deliver(6), "deliver 6\n"),
        (Step::Wait(2), "wait a 2\n"),
        (Step::Apply, "apply b 2\n"),
        (Step::Deliver(7), "deliver 7\n"),
        (Step::Deliver(8), "deliver 8\n"),
        (Step::Settle, "settle a b\n"),
    ]
}

/// What makes the pair whole behind a recovery, and shows it.
pub const CLOSING: &str =
    "connect a b\nsettle a b\nread a d1 0 3\nshow b d1 0 3\nwait a 1\nwait a 2\nwait a 3\n";

/// The bytes of the blocks, as the writes fill them.
pub const BYTES: [&str; 3] = ["11", "22", "33"];
