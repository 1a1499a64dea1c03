//! The encodings whose units a column counts.
ghost use Rattle.std.specs.Prelude.{◌≡◌};
ghost use Rattle.psg_documents.specs.Positions.{goes_on, unit};

/// An encoding whose units a column counts.
#[derive(Clone, Copy, Debug, PartialEq, Eq)]
pub enum Encoding {
    /// A unit is a byte.
    Utf8,
    /// A unit has 16 bits: characters above U+FFFF have two.
    Utf16,
    /// A unit is a character.
    Utf32,
}

impl Encoding {
    /// Returns how many units of a column the byte begins.
    pub(crate) fn unit(self, byte: u8) -> usize
        ensures { result ≡ unit self byte }
    {
        match self {
            Encoding::Utf8 => 1,
            Encoding::Utf16 => pair_unit(byte),
            Encoding::Utf32 => if goes_on(byte) { 0 } else { 1 },
        }
    }
}

/// Returns how many units of 16 bits the byte begins.
fn pair_unit(byte: u8) -> usize
    ensures { result ≡ unit Encoding.Utf16 byte }
{
    if goes_on(byte) {
        0
    } else if byte < 240 {
        1
    } else {
        2
    }
}

/// Says whether the byte goes on with a character.
pub(crate) fn goes_on(byte: u8) -> bool
    ensures { result ≡ goes_on byte }
{
    byte >= 128 && byte < 192
}
