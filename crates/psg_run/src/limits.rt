//! How long the files and the lines of a run may be. They bound the memory that a run takes before a reply.

/// The most bytes of a definition.
pub const MOST_DEFINITION_BYTES: usize = 1_048_576;

/// The most bytes of a script.
pub const MOST_SCRIPT_BYTES: usize = 4_194_304;

/// The most bytes of a line of a live session.
pub const MOST_LINE_BYTES: usize = 1_048_576;

/// The greatest number for which `gen` makes a script.
pub const MOST_GENERATED: u32 = 1_000;

/// The most bytes of a layout.
pub const MOST_LAYOUT_BYTES: usize = 65_536;

/// The greatest number of columns for which `layout` arranges a program.
pub const MOST_COLUMNS: u32 = 400;

/// The most bytes of a program file.
pub const MOST_PROGRAM_BYTES: usize = 4_194_304;
