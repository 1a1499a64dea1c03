//! Keys, and the bytes that they were sent as.
ghost use Rattle.std.specs.Prelude.{◌≡◌};
ghost use Rattle.psg_keys.specs.Names.{goes_on};

use std::alloc::Global;
use std::marker::Model;

/// A key of a terminal, or something else that a terminal sends.
#[derive(Clone, Copy)]
pub enum Key {
    /// A character that is typed. It is no control character.
    Char(char),
    /// A character of a pasted text, which may be any.
    Pasted(char),
    /// Ctrl with this letter from `a` to `z`.
    Control(char),
    /// The key Enter, or Return.
    Enter,
    /// The tabulator.
    Tab,
    /// Shift with Tab.
    BackTab,
    /// The key that deletes the character before the cursor.
    Backspace,
    /// The key Escape, pressed alone.
    Escape,
    /// The arrow up.
    Up,
    /// The arrow down.
    Down,
    /// The arrow to the left.
    Left,
    /// The arrow to the right.
    Right,
    /// To the beginning of a line.
    Home,
    /// To the end of a line.
    End,
    /// The key Insert.
    Insert,
    /// The key that deletes the character after the cursor.
    Delete,
    /// One page up.
    PageUp,
    /// One page down.
    PageDown,
    /// A pasted text begins.
    PasteBegins,
    /// A pasted text is at its end.
    PasteEnds,
    /// The size of the screen. `rows` is at least 2, and `cols` at least 1.
    Size { rows: u32, cols: u32 },
    /// The bytes are no key.
    Unknown,
}

impl Key {
    /// Says whether a paste goes on after this key, where one goes on before it.
    pub fn goes_on(self, pasting: bool) -> bool
        ensures { result ≡ goes_on pasting self }
    {
        match self {
            Key::PasteBegins => true,
            Key::PasteEnds => false,
            _ => pasting,
        }
    }
}

/// A key and the bytes that it was sent as.
#[derive(Drop)]
pub struct Stroke {
    key: Key,
    bytes: Vec<u8>,
}

impl Model for Stroke {
    ghost use Rattle.psg_keys.specs.Reading.{Spelled};

    ghost Value = { Spelled };

    ghost view = { λ s. record { key = s.key; bytes = s.bytes.items } };
}

impl Stroke {
    /// Makes the stroke of a key and its bytes.
    pub(crate) fn new(key: Key, bytes: Vec<u8>) -> Stroke
        ensures key { result.key ≡ key }
        ensures bytes { result.bytes ≡ bytes.items }
    {
        Stroke { key, bytes }
    }

    /// Returns the key.
    pub fn key(&self) -> Key
        ensures { result ≡ self.now.key }
    {
        self.key
    }

    /// Returns the bytes of the key. Those of a sequence that a slow line cut after its escape are without the escape,
    /// which was a key before.
    pub fn bytes(&self) -> &[u8]
        ensures { result.now ≡ self.now.bytes }
    {
        self.bytes.as_slice()
    }
}
