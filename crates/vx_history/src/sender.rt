// What happens to a link at its sending end, and what then is to be done.

/// What happens to a link.
#[derive(Clone, Copy, Debug, PartialEq, Eq)]
pub enum SEvent {
    /// Updates are to be sent.
    Pump,
    /// What was sent counts as lost.
    Tick,
    /// The receiver tells its session, how many records it has received, and how many of them a crash keeps.
    Hello {
        session: u64,
        number: u64,
        stored: u64,
    },
    /// The receiver has this number in memory, in this session.
    NetAck {
        session: u64,
        number: u64,
    },
    /// The receiver has this number on disk.
    DataAck {
        number: u64,
    },
    Connect,
    Cut,
    Pause,
    Resume,
    /// The sending site comes up again after a crash.
    Restart,
}

/// What a link looks at of its site and of a message.
#[derive(Clone, Copy, Debug, PartialEq, Eq)]
pub struct SFacts {
    /// How many of the site's writes are durable.
    pub safe: u64,
    /// Whether the message was sent on the line on which the site stands. Only messages ask for it.
    pub line_ok: bool,
}

/// What is to be done after an event of a link.
#[derive(Clone, Copy, Debug, PartialEq, Eq)]
pub enum Action {
    Nothing,
    /// The message was ignored.
    Ignored,
    /// The message was taken.
    Taken,
    /// The updates with these numbers are to be sent, both ends included.
    Updates { from: u64, to: u64 },
}
