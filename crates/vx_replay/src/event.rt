// What happens in a replay at both of its ends, and what then is to be done.
use vx_model::Line;

/// What happens in a replay at the sending end of its link.
#[derive(Clone, Copy, Debug, PartialEq, Eq)]
pub enum PEvent {
    /// A replay with this id is to begin, where the site's last number is `head` and so many regions are marked.
    Begin { id: u64, head: u64, regions: u32 },
    /// The receiver answers: 0 that it begins, 1 that it stored a region, 2 that it has every region. Of a region, whether it is still
    /// marked.
    Ack { id: u64, kind: u8, marked: bool },
    /// A region was read as the site's last number was `head`.
    Read { head: u64 },
    /// The receiver has the records up to this number on disk.
    Stored { number: u64 },
    /// What is to be sent once more is sent.
    Pump,
    /// The sending site comes up again after a crash.
    Restart,
}

/// What is to be done after an event of a replay at the sending end.
#[derive(Clone, Copy, Debug, PartialEq, Eq)]
pub enum PAction {
    Nothing,
    /// The message was ignored.
    Ignored,
    /// The start of the replay is to be sent.
    SendStart,
    /// The end of the copying is to be sent.
    SendDone,
    /// The link goes by the log again, and its map is to be emptied.
    Finished,
}

/// What comes of a replay to the site that receives.
#[derive(Clone, Copy, Debug, PartialEq, Eq)]
pub enum QEvent {
    /// A replay begins behind the record of this number.
    Start {
        line: Line,
        id: u64,
        start: u64,
    },
    /// A region.
    Region {
        line: Line,
        id: u64,
    },
    /// Every region came. The site is consistent from the number `end` on.
    Done {
        line: Line,
        id: u64,
        start: u64,
        end: u64,
    },
}

/// What is to be done after a message of a replay.
#[derive(Clone, Copy, Debug, PartialEq, Eq)]
pub enum QAction {
    /// The message was ignored.
    Ignored,
    /// It was taken before, and is answered again.
    Again,
    /// The waiting records are to be applied first, and then the replay is begun.
    Begin,
    /// The region is to be stored.
    Store,
    /// The log is to be emptied: its next record is the one behind the replay's start.
    Close,
}
