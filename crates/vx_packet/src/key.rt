// Which message a part is of.
ghost use Rattle.std.specs.Prelude.{◌≡◌};
ghost use Rattle.vx_packet.specs.Assemblies.{key_in_part, same_part_key};

use crate::Part;
use vx_model::Line;

/// What the parts of one message have in common: its source, kind and line, the session and number fields, and in how many
/// parts it goes.
#[derive(Clone, Copy, Debug, PartialEq, Eq)]
pub struct Key {
    pub source: u32,
    pub kind: u8,
    pub line: Line,
    pub session: u64,
    pub number: u64,
    pub parts: u16,
}

impl Key {
    /// That of a part.
    pub fn of(part: &Part) -> Key
        ensures { result ≡ key_in_part part.now }
    {
        Key {
            source: part.source,
            kind: part.kind,
            line: part.line,
            session: part.session,
            number: part.number,
            parts: part.parts,
        }
    }

    /// Whether it is this key.
    pub fn is(&self, other: &Key) -> bool
        ensures { result ≡ same_part_key self.now other.now }
    {
        self.source == other.source
            && self.kind == other.kind
            && self.line.generation == other.line.generation
            && self.line.origin == other.line.origin
            && self.session == other.session
            && self.number == other.number
            && self.parts == other.parts
    }
}
