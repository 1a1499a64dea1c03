//! Frames of the Language Server Protocol, from bytes that are read by pieces.
//!
//! ```text
//! let mut reader = FrameReader::new(alloc);
//! for frame in reader.read(alloc, piece)? {
//!     match frame { Frame::Body(body) => .., Frame::TooLong(size) => .., Frame::Lost => .. }
//! }
//! ```
//!
//! A frame is a header and a body. The header is lines, each of which ends in a line feed with or without a carriage
//! return, up to an empty one; the line `Content-Length` says how many bytes the body has. Its name is in any case, and
//! the last such line counts. The frames do not depend on how the bytes are cut.
//!
//! A header has at most 64 lines, with the empty one, and a line at most 4,096 bytes, with its line feed. Where it has
//! more, or no length, or one of more than 15 digits, nothing after it can be followed. A body of more than 16 MiB is
//! passed over, and the reader reports its length at once.
#![tactic(auto)]

mod headers;
mod laws;
mod reader;

pub use laws::same_frames;
pub use reader::{Frame, FrameReader, framed};
