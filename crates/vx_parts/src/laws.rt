// What the world says of packets is what their bytes say.
ghost use Rattle.std.specs.Prelude.{◌≡◌, ℕ, List, Option, map};
ghost use Rattle.vx_history.specs.World.{Message, Gathering};
ghost use Rattle.vx_history.specs.Sends.{parts_of, packet};
ghost use Rattle.std.specs.Option.{is_some};
ghost use Rattle.vx_history.specs.Gatherings.{message_key, came_after, completes};
ghost use Rattle.vx_model.specs.declared.history.Line.{Line};
ghost use Rattle.vx_packet.specs.Assemblies.{HeldParts, parts_after};
ghost use Rattle.vx_packet.specs.Gathering.{all_parts_came};
ghost use Rattle.vx_packet.specs.Packets.{part_numbered};
ghost use Rattle.vx_packet.specs.Messages.{count_of_parts as parts_in_bytes};
ghost use Rattle.vx_parts.specs.Spelling.{spelled_message, key_in_bytes, IsTied};

/// A message of the world goes in as many parts as its payload does, and its parts have the key that their headers name. Where the same
/// parts have come, the same have come with a packet as with its bytes, and it is whole with the one exactly where it is with the other.
pub fn goes_in_parts()
    ensures parts { (m : Message) → parts_in_bytes (spelled_message m) ≡ parts_of m }
    ensures whole { (h : Option HeldParts) (g : Option Gathering) → IsTied h g → (source target : ℕ) (line : Line) (m : Message) (k : ℕ) (payload : List ℕ) → all_parts_came (parts_after h (part_numbered (record { source = source; target = target; line = line }) (spelled_message m) k) payload) ≡ completes g (packet source target line m k) }
    ensures came { (h : Option HeldParts) (g : Option Gathering) → IsTied h g → (source target : ℕ) (line : Line) (m : Message) (k : ℕ) (payload : List ℕ) → map is_some (parts_after h (part_numbered (record { source = source; target = target; line = line }) (spelled_message m) k) payload) ≡ came_after g (packet source target line m k) }
    ensures key { (source target : ℕ) (line : Line) (m : Message) → key_in_bytes source target line m ≡ message_key source line m }
{}
