// Bytes that are put together in the value itself.
ghost use Rattle.std.specs.Prelude.{◌≡◌, ◌≤◌, [], ◌∷◌, length};
ghost use Rattle.vx_config.specs.Pages.{onto};
ghost use Rattle.vx_wire.specs.Fields.{name_bytes};
ghost use Rattle.vx_wire.specs.Numbers.{be_bytes};

use std::marker::Model;
use vx_model::Name;
use vx_model::limits::MOST_CONFIG_BYTES;
use vx_wire::{put_u32, put_u64};

/// Up to 65,024 bytes. Those that are put behind its end are lost. Contracts see the bytes.
#[derive(Drop)]
pub struct Page {
    bytes: [u8; MOST_CONFIG_BYTES],
    len: usize,
}

impl Model for Page {
    ghost use Rattle.std.specs.Prelude.{List, ℕ, take, ◌≤◌};

    ghost Value = { List ℕ };

    ghost view = { λ p. take p.len p.bytes };

    ghost use Rattle.vx_model.specs.declared.limits.TheConstants.{MOST_CONFIG_BYTES};

    ghost invariant = { λ p. p.len ≤ MOST_CONFIG_BYTES };
}

impl Page {
    /// A page without bytes.
    pub fn new() -> Page
        ensures { result ≡ [] }
    {
        Page {
            bytes: [0; MOST_CONFIG_BYTES],
            len: 0,
        }
    }

    /// The bytes of the page.
    pub fn as_slice(&self) -> &[u8]
        ensures bytes { result.now ≡ self.now }
        ensures few { length self.now ≤ MOST_CONFIG_BYTES }
    {
        &self.bytes[..self.len]
    }

    /// Puts a byte behind the others.
    pub fn byte(&mut self, byte: u8)
        ensures { self.new ≡ onto self.old (byte ∷ []) }
    {
        self.text(&[byte]);
    }

    /// Puts bytes behind the others.
    pub fn text(&mut self, text: &[u8])
        ensures { self.new ≡ onto self.old text.now }
    {
        let room = MOST_CONFIG_BYTES - self.len;
        let count = if text.len() < room { text.len() } else { room };
        self.bytes[self.len..self.len + count].copy_from_slice(&text[..count]);
        self.len += count;
    }

    /// Puts a number of one byte behind the others.
    pub fn u8(&mut self, number: u8)
        ensures { self.new ≡ onto self.old (be_bytes 1 number) }
    {
        self.byte(number);
    }

    /// Puts a number of 4 bytes behind the others.
    pub fn u32(&mut self, number: u32)
        ensures { self.new ≡ onto self.old (be_bytes 4 number) }
    {
        let mut bytes = [0; 4];
        put_u32(&mut bytes, 0, number);
        self.text(&bytes);
    }

    /// Puts a number of 8 bytes behind the others.
    pub fn u64(&mut self, number: u64)
        ensures { self.new ≡ onto self.old (be_bytes 8 number) }
    {
        let mut bytes = [0; 8];
        put_u64(&mut bytes, 0, number);
        self.text(&bytes);
    }

    /// Puts a name behind the others.
    pub fn name(&mut self, name: &Name)
        ensures { self.new ≡ onto self.old (name_bytes name.now) }
    {
        let text = name.as_bytes();
        self.byte(text.len() as u8);
        self.text(text);
    }
}
