//! The outside of a program: named files, an output and an input, by lines or by pieces, as traits whose contracts say
//! what each call may do, and their implementations.
//!
//! A program is generic over those that it needs, and its caller picks:
//!
//! ```text
//! fn show<F: Files, O: Sink>(alloc: Global, files: &mut F, out: &mut O) -> Result<(), Stop> {
//!     let bytes = files.read(alloc, "letter.txt", 4096)?;
//!     Ok(put_all(alloc, out, &bytes)?)
//! }
//!
//! show(rt.alloc(), &mut HostFiles::new(rt.alloc(), &rt), &mut HostSink::new(&rt))?;
//! ```
//!
//! | What it is | Files | Sink |
//! |---|---|---|
//! | the machine's; their content is not known | `HostFiles` | `HostSink` |
//! | in memory, with the numbers of the calls that are to fail; their content is known | `MemFiles` | `MemSink` |
//! | in memory, fails no call; their content is known | `SureFiles` | `SureSink` |
//!
//! | What it is | Input |
//! |---|---|
//! | the lines of a reader, as of standard input; they are known where the reader's bytes are | `ReaderInput` |
//! | in memory, with the numbers of the lines that can't be read; they are known | `MemInput` |
//!
//! | What it is | Pieces |
//! |---|---|
//! | the bytes of a reader, such as standard input; they are known where the reader's bytes are | `ReaderPieces` |
//! | in memory, with the sizes of the pieces and the numbers of the reads that fail; they are known | `MemPieces` |
//!
//! Contracts see files as two values: `holds`, a finite map from the bytes of a name to the bytes of its file, where
//! that is known, and `faults`, a list of entries. They see a sink as `written`, the bytes taken, where that is known,
//! and `faults`, a count. They see an input as `lines`, those still to be given, where they are known, `given`, a
//! count, and `missed`, which has for each read that failed how many lines were given before it. Of an input by pieces
//! they see `left`, the bytes still to be given, where they are known, and `given` and `missed`, which count bytes.
//!
//! What every implementation keeps:
//!
//! - A read, a write or a replacement answers `Failed` exactly where it adds one entry, of its own kind and name, at
//!   the end of `faults`; the entry of a replacement is that of a write. So no failed call of one name excuses another.
//! - A read leaves `holds` as it was, a write all names but its own. What is known once is known from then on. A
//!   replacement is all or nothing: after an `Err` it leaves `holds` as it was.
//! - A put answers `Failed` only where the count rose in that call, and nothing is then taken. The count never falls;
//!   at the last value of a `u64` it counts as risen.
//! - A read of a line answers `Failed` exactly where it adds one entry at the end of `missed`. A line that is too long
//!   is given in part, and the rest of it is passed over.
//! - A read of a piece gives the next bytes, and none only at the end; where they are cut is not said. After an `Err`
//!   no byte is lost, and it answers `Failed` exactly where it adds one entry at the end of `missed`.
//! - `Memory` says that memory ran out, and nothing else: no entry is added and nothing is taken.
#![tactic(auto)]

mod calls;
mod cut;
mod faults;
mod host;
mod input;
mod listed;
mod memory;
mod pieces;
mod reader;
mod replacing;
mod store;
mod stream;
mod sure;
mod tally;
mod whole;
mod world;

pub use cut::MemPieces;
pub use host::{HostFiles, HostSink};
pub use input::Input;
pub use listed::MemInput;
pub use memory::{MemFiles, MemSink};
pub use pieces::Pieces;
pub use reader::ReaderInput;
pub use stream::ReaderPieces;
pub use sure::{SureFiles, SureSink};
pub use whole::put_all;
pub use world::{Files, ReadStop, Sink, WriteStop};
