// What sites send, and what they promise.
ghost use Rattle.std.specs.Prelude.{◌≡◌, ◌≤◌, IfOk};
ghost use Rattle.vx_history.specs.Sends.{payload_size as size_of, parts_of as parts};
ghost use Rattle.vx_history.specs.Gatherings.{message_kind as kind, session_of as session, number_of as number};
ghost use Rattle.vx_sites.specs.Messages.{message_of};

use crate::Write;
use std::alloc::Global;
use vx_model::limits::PART_BYTES;
use vx_model::{Line, OutOfMemory};

/// A message. The blocks of a write lie on the heap.
#[derive(Drop)]
pub enum Message {
    Hello {
        session: u64,
        number: u64,
        stored: u64,
    },
    Update {
        number: u64,
        write: Box<Write>,
    },
    NetAck {
        session: u64,
        number: u64,
    },
    DataAck {
        number: u64,
    },
}

impl Message {
    /// A copy.
    pub fn copy(&self, alloc: Global) -> Result<Message, OutOfMemory>
        ensures { IfOk result (λ m. message_of m ≡ message_of self.now) }
    {
        match self {
            Message::Hello {
                session,
                number,
                stored,
            } => Ok(Message::Hello {
                session: *session,
                number: *number,
                stored: *stored,
            }),
            Message::Update { number, write } => Ok(Message::Update {
                number: *number,
                write: Box::new(alloc, **write)?,
            }),
            Message::NetAck { session, number } => Ok(Message::NetAck {
                session: *session,
                number: *number,
            }),
            Message::DataAck { number } => Ok(Message::DataAck { number: *number }),
        }
    }
}

/// A message that a site sends to another, on its line.
#[derive(Drop)]
pub struct Dispatch {
    pub source: u32,
    pub target: u32,
    pub line: Line,
    pub message: Message,
}

/// A packet, which carries one part of a message.
#[derive(Drop)]
pub struct Packet {
    pub source: u32,
    pub target: u32,
    pub line: Line,
    pub message: Message,
    /// The number of the part, the first of which is 0.
    pub part: u32,
}

/// By what a site keeps a promised number: by its disks, or as long as a session lasts.
#[derive(Clone, Copy)]
pub enum Surety {
    Durable,
    InSession(u64),
}

#[derive(Clone, Copy)]
pub struct Promise {
    pub line: Line,
    pub number: u64,
    pub site: usize,
    pub surety: Surety,
}

/// In how many parts a message goes: a packet has 1,024 bytes of it.
pub fn parts_of(message: &Message) -> u32
    ensures { result ≡ parts (message_of message.now) }
{
    ((payload_size(message) + (PART_BYTES - 1)) / PART_BYTES).max(1) as u32
}

/// The kind of a message, as its packets name it.
pub fn kind_of(message: &Message) -> u32
    ensures { result ≡ kind (message_of message.now) }
{
    match message {
        Message::Hello { .. } => 1,
        Message::Update { .. } => 2,
        Message::NetAck { .. } => 3,
        Message::DataAck { .. } => 4,
    }
}

/// The session that the packets of a message name, and 0 where they name none.
pub fn session_of(message: &Message) -> u64
    ensures { result ≡ session (message_of message.now) }
{
    match message {
        Message::Hello { session, .. } | Message::NetAck { session, .. } => *session,
        Message::Update { .. } | Message::DataAck { .. } => 0,
    }
}

/// The number that the packets of a message name.
pub fn number_of(message: &Message) -> u64
    ensures { result ≡ number (message_of message.now) }
{
    match message {
        Message::Hello { number, .. }
        | Message::Update { number, .. }
        | Message::NetAck { number, .. }
        | Message::DataAck { number } => *number,
    }
}

// The bytes of a message behind the header of its packets.
fn payload_size(message: &Message) -> usize
    ensures is { result ≡ size_of (message_of message.now) }
    ensures few { result ≤ 8208 }
{
    match message {
        Message::Hello { .. } => 8,
        Message::Update { write, .. } => 16 + write.as_bytes().len(),
        Message::NetAck { .. } | Message::DataAck { .. } => 0,
    }
}
