// What can happen to a world, and what is then said.
use crate::DataVolumes;
use vx_model::{Blocks, Name, No, Prot, SyncMode};

/// Which of the events of a `link` line: they follow one another, and each is durable before the next.
#[derive(Clone, Copy, Debug, PartialEq, Eq)]
pub enum LinkPart {
    /// The other site becomes a secondary on the line, inconsistent and with an empty log.
    Joins,
    /// The link is made, in mode Stale.
    Made,
    /// The other site is marked consistent.
    Marked,
    /// The link goes by the log.
    Opened,
}

/// What can happen to a world. Each line of the script that changes a world has a variant, with sites by their numbers.
#[derive(Clone, Copy)]
pub enum Event {
    /// A further site, of which nothing is made yet.
    Site {
        name: Name,
        disks: u32,
        blocks: u64,
    },
    /// A bare site becomes a raw set, and the primary of its first line.
    Raw {
        site: u32,
    },
    /// A bare site becomes a group of disks without volumes, and the primary of its first line. One that is down or deported, and has no
    /// volumes and no log, comes up again in the session that it had.
    Group {
        site: u32,
    },
    /// A group of disks without a replicated volume group gets one, in the session in which it is, and on the line on which it stands. Its
    /// log is empty, and lies in a volume of so many blocks; its data volumes hold what the group noted of them.
    Volumes {
        site: u32,
        log: u64,
        volumes: DataVolumes,
    },
    /// A write to a volume of a primary. `fails` is the disk that failed in it: it is then not known whether the write stands.
    Write {
        site: u32,
        vol: u32,
        start: u64,
        bytes: Blocks,
        fails: Option<u32>,
    },
    Read {
        site: u32,
        vol: u32,
        start: u64,
        count: u32,
    },
    /// The next `count` waiting records are brought into their volumes. At a site where writes arise `reached` is the number up to
    /// which it has applied; it counts as the nearest one from the lesser of `count` and the head to the head.
    Apply {
        site: u32,
        count: u64,
        reached: u64,
    },
    /// What the site's receiver may lack is sent.
    Pump {
        site: u32,
        to: u32,
    },
    /// What was sent counts as lost.
    Tick {
        site: u32,
        to: u32,
    },
    /// A packet is handed to its target, which puts the parts of a message together.
    Deliver {
        packet: u64,
    },
    Connect {
        site: u32,
        to: u32,
    },
    Cut {
        site: u32,
        to: u32,
    },
    Pause {
        site: u32,
        to: u32,
    },
    Resume {
        site: u32,
        to: u32,
    },
    /// The site is asked whether the write of this number is confirmed as its links say.
    Wait {
        site: u32,
        number: u64,
    },
    /// One of the events of a line that links a site to another, with these settings.
    Link {
        site: u32,
        to: u32,
        sync: SyncMode,
        prot: Prot,
        part: LinkPart,
    },
    /// The link has these settings from now on.
    Set {
        site: u32,
        to: u32,
        sync: SyncMode,
        prot: Prot,
    },
    /// The link holds the log from now on, and its mode stays.
    Attach {
        site: u32,
        to: u32,
    },
    /// The link holds no log, and is given up: all regions have to be copied.
    Detach {
        site: u32,
        to: u32,
    },
    /// The site is down. It keeps its first `kept` writes, which counts as the nearest number that a crash may keep.
    Crash {
        site: u32,
        kept: u64,
    },
    /// The site gives its disks up, and keeps what a crash keeps for certain. The fuse of its disks stays set.
    Deport {
        site: u32,
    },
    /// A deported site is down: the fuse of its disks ran out as it was brought up.
    Fall {
        site: u32,
    },
    /// A site that is down or deported comes up in its next session. `fails` is the disk that failed after that session had begun:
    /// the site is then down or deported still.
    Recover {
        site: u32,
        fails: Option<u32>,
    },
    /// A disk fails, and halts the site.
    Fault {
        site: u32,
        disk: u32,
    },
}

/// What is said of an event.
#[derive(Clone, Copy)]
pub enum Said {
    Done,
    /// The write with this number is done, or confirmed, or records are applied up to this number.
    DoneAt(u64),
    /// The write has this number, and a link is to confirm it.
    Logged(u64),
    /// A link has still to confirm the write of this number.
    Pending(u64),
    /// Blocks that were read.
    Got(Blocks),
    /// The packet was taken.
    Taken,
    /// The packet was ignored.
    Ignored,
    /// The site came up with so many writes.
    Recovered(u64),
    Refused(No),
}
