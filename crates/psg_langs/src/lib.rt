//! Definitions of languages, as texts.
//!
//! ```text
//! let definition = read_definition(alloc, MINI.as_bytes())?;
//! ```
//!
//! What always holds: each text is ASCII, and has fewer than 4,096 bytes.
#![tactic(auto)]

ghost use Rattle.std.specs.Prelude.{◌<◌, length};
ghost use Rattle.std.specs.Str.{IsAscii};

mod named;
mod plain;

pub use named::{MINI, SELF, TINY};
pub use plain::{CONSTS, LEVELS};

/// Shows that each text is ASCII, and has fewer than 4,096 bytes.
pub fn are_short()
    ensures consts { IsAscii CONSTS.now × (length CONSTS.now < 4096) }
    ensures levels { IsAscii LEVELS.now × (length LEVELS.now < 4096) }
    ensures mini { IsAscii MINI.now × (length MINI.now < 4096) }
    ensures itself { IsAscii SELF.now × (length SELF.now < 4096) }
    ensures tiny { IsAscii TINY.now × (length TINY.now < 4096) }
{}
