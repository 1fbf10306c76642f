// What is refused, and why.
ghost use Rattle.std.specs.Prelude.{◌≡◌};

use crate::Name;

/// What a refusal names as unknown: a name, or a number that is printed in decimals.
#[derive(Clone, Copy, Debug, PartialEq, Eq)]
pub enum Named {
    Of(Name),
    Number(u64),
}

/// The name of a site, or its number where no site of this run has it.
#[derive(Clone, Copy, Debug, PartialEq, Eq)]
pub enum SiteName {
    Known(Name),
    Number(u32),
}

/// What there is a greatest count of.
#[derive(Clone, Copy, Debug, PartialEq, Eq)]
pub enum Counted {
    Sites,
    Disks,
    Blocks,
    Volumes,
    Plexes,
    Subdisks,
    Links,
    Threads,
    Calls,
    /// A serial, stamp, incarnation, run, generation, record number, replay or freeze id.
    Number,
}

/// A refusal. Its code is the number beside the variant.
#[derive(Clone, Copy, Debug, PartialEq, Eq)]
pub enum No {
    /// 1: no such site, volume, plex, disk, link, packet or write number.
    Unknown {
        what: Named,
    },
    /// 2: the name is taken.
    Exists {
        name: Name,
    },
    /// 3: the blocks end past the volume.
    Range,
    /// 4: a count, length or shape is outside its bounds.
    Size,
    /// 5: the site or volume has not the role that is needed.
    Role,
    /// 6: the site is not up.
    Down,
    /// 7: a call on this disk failed.
    Device {
        disk: u32,
    },
    /// 8: this disk, which the configuration holds as good, could not be read.
    Missing {
        disk: u32,
    },
    /// 9: no readable disk has a configuration, or no block of the log a header.
    NoConfig,
    /// 10: the plex is the volume's last active one.
    LastPlex,
    /// 11: so many blocks are needed in one place, and so many are there.
    Space {
        need: u64,
        have: u64,
    },
    /// 12: the log is full for this link, which says that writes fail then.
    LogFull {
        link: SiteName,
    },
    /// 13: the log is full for this link, which says that writes wait then.
    Stalled {
        link: SiteName,
    },
    /// 14: the link is not attached or not connected.
    LinkDown {
        link: SiteName,
    },
    /// 15: the write of this number is logged and not confirmed.
    Unconfirmed {
        number: u64,
    },
    /// 16: the site is marked inconsistent.
    Inconsistent,
    /// 17: the secondary has stored so many of the writes up to the head.
    Behind {
        stored: u64,
        head: u64,
    },
    /// 18: the link is in a replay.
    Replaying {
        link: SiteName,
    },
    /// 19: a count would pass its greatest value.
    Limit {
        what: Counted,
        most: u64,
    },
    /// 20: a log, map or data write on this disk failed since the last recovery.
    Halted {
        disk: u32,
    },
    /// 21: the secondary needs a number that the bunker no longer holds.
    Gap {
        low: u64,
        need: u64,
    },
    /// 22: the digest that stands in a block and the one computed of it differ.
    Damaged {
        unit: u32,
        block: u64,
        stored: [u8; 32],
        computed: [u8; 32],
    },
    /// 23: the link is paused.
    Paused,
    /// 24: a whole turn of settling changed nothing.
    Unsettled {
        stored: u64,
        head: u64,
    },
    /// 25: a readable label has a version that is not known.
    Format {
        version: u32,
    },
}

/// The refusal of a count that would pass its greatest value.
pub fn limit(what: Counted, most: u64) -> No
    ensures { result ≡ No.Limit what most }
{
    No::Limit { what, most }
}
