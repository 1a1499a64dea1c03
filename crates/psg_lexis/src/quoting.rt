//! How a quoted text is written.
ghost use Rattle.std.specs.Prelude.{◌≡◌, ◌++◌, OnOk, encode_utf8_all, string_bytes};
ghost use Rattle.psg_lexis.specs.Tokens.{escaped};

use std::alloc::AllocError;

/// Writes a character of a quoted text, a quote, a backslash or a line feed as its escape. It fails where memory runs
/// out.
pub fn write_escaped(out: &mut String, ch: char) -> Result<(), AllocError>
    ensures { OnOk result (string_bytes out.new ≡ string_bytes out.old ++ encode_utf8_all (escaped ch)) }
{
    match ch {
        '"' => out.push_str("\\\""),
        '\\' => out.push_str("\\\\"),
        '\n' => out.push_str("\\n"),
        _ => out.push(ch),
    }
}
