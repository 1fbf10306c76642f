// One message in assembly.
ghost use Rattle.std.specs.Prelude.{◌≡◌, Some, None, IfOk};
ghost use Rattle.vx_packet.specs.Assemblies.{parts_before, ReadsMessage, TakesPart};
ghost use Rattle.vx_packet.specs.Packets.{payload_in, IsPacket};

use crate::gathered::Gathered;
use crate::key::Key;
use crate::reading::{read_as, read_message};
use crate::{Message, Part};
use std::alloc::Global;
use std::marker::Model;
use vx_model::OutOfMemory;

/// What taking a part came to.
#[derive(Clone, Copy, Debug, PartialEq, Eq)]
pub enum Taken {
    /// It completed its message.
    Whole,
    /// It is kept, and some other part of its message has not come.
    Kept,
    /// It completed a payload that is none of its kind's. Nothing is in assembly then.
    Bad,
}

/// The one place of assembly. The parts of one message may come in any order, and more than once. A part of another message
/// takes the place for its own.
#[derive(Drop)]
pub struct Assembly {
    key: Option<Key>,
    parts: Gathered,
    // The key of the message that the parts are the whole payload of.
    done: Option<Key>,
}

impl Model for Assembly {
    ghost use Rattle.vx_packet.specs.Assemblies.{Assembled, held_parts, completed_message};
    ghost use Rattle.vx_packet.specs.Assemblies.{HasParts, HasAllParts};

    ghost Value = { Assembled };

    ghost view = { λ a. record { held = held_parts a.key a.parts; whole = completed_message a.done a.parts } };

    ghost invariant = { λ a. HasParts a.key a.parts × HasAllParts a.done a.parts };
}

// Whether a payload is a message under the kind and the fields of a part.
fn is_message(part: &Part, payload: &[u8]) -> bool
    ensures { ReadsMessage part.now.kind part.now.session part.now.number payload.now result }
{
    match read_message(part.kind, part.session, part.number, payload) {
        Some(_message) => true,
        None => false,
    }
}

impl Assembly {
    /// Room for the longest message, and none in assembly.
    pub fn new(alloc: Global) -> Result<Assembly, OutOfMemory>
        ensures none { IfOk result (λ a. a.held ≡ None) }
        ensures whole { IfOk result (λ a. a.whole ≡ None) }
    {
        Ok(Assembly {
            key: None,
            parts: Gathered::new(alloc)?,
            done: None,
        })
    }

    /// Lets go what is in assembly.
    pub fn clear(&mut self)
        ensures none { self.new.held ≡ None }
        ensures whole { self.new.whole ≡ None }
    {
        self.key = None;
        self.done = None;
    }

    // Begins with a message of this key, if it is not in assembly.
    fn begin(&mut self, key: &Key)
        ensures { self.new.held ≡ Some (record { key = key.now; parts = parts_before self.old.held key.now }) }
    {
        let held = match &self.key {
            Some(held) => held.is(key),
            None => false,
        };
        self.done = None;
        if !held {
            self.key = Some(*key);
            self.parts.begin(key.parts);
        }
    }

    /// Takes a part that `decode` gave of these bytes.
    pub fn take(&mut self, bytes: &[u8], part: &Part) -> Taken
        requires { IsPacket bytes.now part.now }
        ensures { TakesPart self.old part.now (payload_in part.now bytes.now) result self.new }
    {
        let key = Key::of(part);
        self.begin(&key);
        self.done = None;
        let end = part.start + part.length as usize;
        self.parts.put(part.part, &bytes[part.start..end]);
        let reads = match self.parts.payload() {
            Some(payload) => is_message(part, payload),
            None => return Taken::Kept,
        };
        self.key = None;
        if reads {
            self.done = Some(key);
            Taken::Whole
        } else {
            Taken::Bad
        }
    }

    /// The message that the last part completed. Its bytes are those that came.
    pub fn message(&self) -> Option<Message<'_>>
        ensures { result ≡ self.now.whole }
    {
        let Some(key) = self.done else {
            return None;
        };
        match self.parts.payload() {
            Some(payload) => read_as(key.kind, key.session, key.number, payload),
            None => None,
        }
    }
}
