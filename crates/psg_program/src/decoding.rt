//! The bytes of a file without their byte order mark.
ghost use Rattle.std.specs.Prelude.{◌≡◌};
ghost use Rattle.psg_program.specs.Decoding.{unmarked as unmarked_of};

/// Returns the bytes without one byte order mark at their beginning.
pub fn unmarked(bytes: &[u8]) -> &[u8]
    ensures { result.now ≡ unmarked_of bytes.now }
{
    match bytes.strip_prefix(&[0xef, 0xbb, 0xbf]) {
        Some(rest) => rest,
        None => bytes,
    }
}
