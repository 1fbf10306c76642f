// What the definitions of packets and of assembly promise.
ghost use Rattle.std.specs.Prelude.{◌≡◌, ℕ, ◌+◌, ◌<◌, ◌≤◌, List, length, Some, None};
ghost use Rattle.vx_model.specs.declared.limits.TheConstants.{MOST_MAP_BYTES};
ghost use Rattle.vx_packet.specs.Assemblies.{HeldParts, Assembled, TakesPart};
ghost use Rattle.vx_packet.specs.Carried.{CameInPackets, envelope_of};
ghost use Rattle.vx_packet.specs.Messages.{payload_of, count_of_parts, chunk, CanSpellMessage, IsTyped, IsMessage};
ghost use Rattle.vx_packet.specs.Packets.{payload_in, part_numbered, part_packet, IsPacket};
ghost use Rattle.vx_packet.specs.Takings.{key_of_message, HoldsSome, Takings, AreNumbers, Includes, NoneBad, SomeWhole};
ghost use Rattle.vx_packet.specs.declared.assembly.Taken.{Taken};
ghost use Rattle.vx_packet.specs.declared.assembly.Taken.TheVariants.{Kept, Whole};
ghost use Rattle.vx_packet.specs.declared.message.Envelope.{Envelope};
ghost use Rattle.vx_packet.specs.declared.message.Message.{Message};
ghost use Rattle.vx_packet.specs.declared.part.Part.{Part};

/// Bytes carry at most one part, and a payload is at most one message of its kind, of at most 65,544 bytes. A packet is the
/// one of each message whose part and payload it carries, and the packet of a message's part carries that part of its payload.
pub fn one_spelling()
    ensures part { (bytes : List ℕ) (p q : Part) → IsPacket bytes p → IsPacket bytes q → p ≡ q }
    ensures message { (kind session number : ℕ) (payload : List ℕ) (m n : Message) → IsMessage kind session number payload m → IsMessage kind session number payload n → m ≡ n }
    ensures few { (m : Message) → CanSpellMessage m → length (payload_of m) ≤ 8 + MOST_MAP_BYTES }
    ensures packet { (bytes : List ℕ) (e : Envelope) (m : Message) (k : ℕ) → IsPacket bytes (part_numbered e m k) → payload_in (part_numbered e m k) bytes ≡ chunk k (payload_of m) → bytes ≡ part_packet e m k }
    ensures payload { (e : Envelope) (m : Message) (k : ℕ) → payload_in (part_numbered e m k) (part_packet e m k) ≡ chunk k (payload_of m) }
{}

/// The parts of a message may be taken in any order, and any of them again, from where no message or another one is in
/// assembly. None of the answers is `Bad`. Once each part was taken, one of them was `Whole`, and what is whole then is the
/// message. What is kept are parts of it, and not all.
pub fn any_order()
    ensures fresh { (e : Envelope) (m : Message) (a : Assembled) → ((h : HeldParts) → a.held ≡ Some h → h.key ≡ key_of_message e m → ⊥) → HoldsSome e m a }
    ensures none_bad { (e : Envelope) (m : Message) (old new : Assembled) (ks : List ℕ) (ts : List Taken) → CanSpellMessage m → IsTyped m → HoldsSome e m old → AreNumbers (count_of_parts m) ks → Takings e m old ks ts new → NoneBad ts }
    ensures whole { (e : Envelope) (m : Message) (old new : Assembled) (ks : List ℕ) (ts : List Taken) → CanSpellMessage m → IsTyped m → HoldsSome e m old → AreNumbers (count_of_parts m) ks → ((k : ℕ) → k < count_of_parts m → Includes ks k) → Takings e m old ks ts new → SomeWhole ts }
    ensures message { (e : Envelope) (m : Message) (old new : Assembled) (k : ℕ) → CanSpellMessage m → IsTyped m → HoldsSome e m old → k < count_of_parts m → TakesPart old (part_numbered e m k) (chunk k (payload_of m)) Whole new → new.whole ≡ Some m }
    ensures kept { (e : Envelope) (m : Message) (old new : Assembled) (k : ℕ) → CanSpellMessage m → HoldsSome e m old → k < count_of_parts m → TakesPart old (part_numbered e m k) (chunk k (payload_of m)) Kept new → HoldsSome e m new }
{}

/// Where all that an assembly has came in packets, a packet that completes a message is the one of that message and part,
/// with the sites and the line of the part.
pub fn whole_again()
    ensures fresh { (a : Assembled) → a.held ≡ None → CameInPackets a }
    ensures stays { (old new : Assembled) (bytes : List ℕ) (p : Part) (t : Taken) → CameInPackets old → IsPacket bytes p → TakesPart old p (payload_in p bytes) t new → CameInPackets new }
    ensures again { (old new : Assembled) (bytes : List ℕ) (p : Part) (m : Message) → CameInPackets old → IsPacket bytes p → TakesPart old p (payload_in p bytes) Whole new → new.whole ≡ Some m → bytes ≡ part_packet (envelope_of p) m p.part }
{}
