//! The conversation where the definition is refused: each request gets the line that says so.

use crate::ending::{Ending, read_ending};
use crate::talk::{MOST_PIECE, put_refusal};
use psg_messages::{Fault, Message, message_of, parsed};
use psg_protocol::{Frame, FrameReader};
use psg_world::{Pieces, Sink};
use std::alloc::Global;

/// Refuses the message. Returns the ending, if the server ends with it: at `exit`.
fn refuse_message<O: Sink>(
    alloc: Global,
    line: &str,
    message: &Message<'_>,
    out: &mut O,
) -> Option<Ending> {
    match *message {
        Message::Request {
            id,
            method: _,
            given: _,
        } => put_refusal(alloc, Some(id), Fault::NotInitialized, line, out),
        Message::Note { method, given: _ } => if method == "exit" {
            Some(Ending::Refused)
        } else {
            None
        },
        Message::Answer => None,
        Message::Wrong { id } => put_refusal(alloc, id, Fault::WrongShape, line, out),
    }
}

/// Refuses the frame. Returns the ending, if the server ends with it.
fn refuse_frame<O: Sink>(alloc: Global, line: &str, frame: &Frame, out: &mut O) -> Option<Ending> {
    match frame {
        Frame::Body(body) => match parsed(alloc, body.as_slice()) {
            Ok(Some(value)) => refuse_message(alloc, line, &message_of(&value), out),
            Ok(None) => put_refusal(alloc, None, Fault::NoJson, line, out),
            Err(_) => Some(Ending::Memory),
        },
        Frame::TooLong(_) => put_refusal(alloc, None, Fault::WrongShape, line, out),
        Frame::Lost => match put_refusal(alloc, None, Fault::NoJson, line, out) {
            Some(ending) => Some(ending),
            None => Some(Ending::ReadFault),
        },
    }
}

/// Refuses the frames, one after the other. Returns the ending, if the server ends with one of them.
fn refuse_frames<O: Sink>(
    alloc: Global,
    line: &str,
    frames: &[Frame],
    out: &mut O,
) -> Option<Ending> {
    for frame in frames {
        if let Some(ending) = refuse_frame(alloc, line, frame, out) {
            return Some(ending);
        }
    }
    None
}

/// Refuses the requests of the input until it ends, or the client ends the conversation.
pub fn refuse<I: Pieces, O: Sink>(alloc: Global, line: &str, input: &mut I, out: &mut O) -> Ending {
    let mut reader = FrameReader::new(alloc);
    for _ in 0..u64::MAX {
        let piece = match input.next_piece(alloc, MOST_PIECE) {
            Ok(piece) => piece,
            Err(stop) => return read_ending(stop),
        };
        if piece.is_empty() {
            return Ending::Refused;
        }
        let Ok(frames) = reader.read(alloc, piece.as_slice()) else {
            return Ending::Memory;
        };
        if let Some(ending) = refuse_frames(alloc, line, frames.as_slice(), out) {
            return ending;
        }
    }
    Ending::Refused
}
