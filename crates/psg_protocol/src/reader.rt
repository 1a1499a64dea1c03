//! Frames from bytes that are read by pieces.
ghost use Rattle.std.specs.Prelude.{◌≡◌, ◌+◌, ◌<◌, ◌≤◌, ◌^◌, ◌∷◌, [], IfOk, MatchOption, OnErr, Some, drop, length};
ghost use Rattle.std.specs.Prelude.{map, true};
ghost use Rattle.std.specs.Option.{option_map};
ghost use Rattle.psg_protocol.specs.Frames.{Finds, HasRead, Reads, at_first, body, event_of, first_by, first_of_all};
ghost use Rattle.psg_protocol.specs.Frames.{found};
ghost use Rattle.psg_protocol.specs.Frames.{framed, is_lost, most_body, nothing};

use crate::headers::{Head, head_of};
use std::alloc::{AllocError, Global};
use std::marker::Model;
use std::mem;

/// The most bytes of a body that is read: 16 MiB.
const MOST_BODY: usize = 16_777_216;

/// What is read of the input.
#[derive(Drop)]
pub enum Frame {
    /// The body of a frame.
    Body(Vec<u8>),
    /// The body of a frame has too many bytes, this number, and is passed over.
    TooLong(usize),
    /// No length can be told, so nothing after it can be followed.
    Lost,
}

/// A reader of frames, which keeps the bytes of a frame that is not whole yet.
#[derive(Drop)]
pub struct FrameReader {
    passing: usize,
    kept: Vec<u8>,
    stopped: bool,
}

impl Model for FrameReader {
    ghost use Rattle.psg_protocol.specs.Frames.{Rest};

    ghost Value = { Rest };

    ghost view = { λ r. record { passing = r.passing; bytes = r.kept.items; stopped = r.stopped } };
}

impl FrameReader {
    /// Makes a reader that has read nothing yet. Takes no memory; `alloc` keeps what waits later.
    pub fn new(alloc: Global) -> FrameReader
        ensures { result ≡ at_first }
    {
        FrameReader {
            passing: 0,
            kept: Vec::new(alloc),
            stopped: false,
        }
    }

    /// Reads the next piece of the input, and returns the frames that are whole now, the first one first. After
    /// `Frame::Lost` there are no further ones. Fails only when out of memory, and the reader is then as before. Takes
    /// a step for each byte of the piece, and reads the header of a frame that is not whole again with each piece.
    pub fn read(&mut self, alloc: Global, piece: &[u8]) -> Result<Vec<Frame>, AllocError>
        ensures reads { IfOk result (λ all. HasRead self.old piece.now (map event_of all.items) self.new) }
        ensures memory { OnErr result (self.new ≡ self.old) }
    {
        if self.stopped {
            return Ok(Vec::new(alloc));
        }
        let before = self.kept.len();
        self.kept.extend_from_slice(piece)?;
        match next_frames(alloc, self.passing, self.kept.as_slice()) {
            Ok(found) => Ok(self.keep(alloc, found)),
            Err(error) => {
                self.kept.truncate(before);
                Err(error)
            }
        }
    }

    /// Keeps what is left after what was found, and returns the frames.
    fn keep(&mut self, alloc: Global, found: Found) -> Vec<Frame>
        ensures frames { result.items ≡ found.frames.items }
        ensures passing { self.new.passing ≡ found.passing }
        ensures stopped { self.new.stopped ≡ found.stopped }
        ensures bytes { MatchOption (option_map (λ kept. kept.items) found.kept) (self.new.bytes ≡ self.old.bytes)
            (λ bytes. self.new.bytes ≡ bytes) }
    {
        let old = mem::replace(&mut self.kept, Vec::new(alloc));
        self.kept = newer(found.kept, old);
        self.passing = found.passing;
        self.stopped = found.stopped;
        found.frames
    }
}

/// Returns the bytes that are kept, or the old ones where there are none.
fn newer(kept: Option<Vec<u8>>, old: Vec<u8>) -> Vec<u8>
    ensures { MatchOption (option_map (λ v. v.items) kept) (result.items ≡ old.items) (λ bytes. result.items ≡ bytes) }
{
    kept.unwrap_or(old)
}

/// What is found in a text: its frames, how many bytes after it are to be passed over, and the bytes that are kept, or
/// none where that is the whole text.
#[derive(Drop)]
struct Found {
    frames: Vec<Frame>,
    passing: usize,
    kept: Option<Vec<u8>>,
    stopped: bool,
}

/// Finds the frames of a text, of which that many bytes are passed over.
fn next_frames(alloc: Global, passing: usize, text: &[u8]) -> Result<Found, AllocError>
    ensures { IfOk result (λ all. Finds passing text.now (map event_of all.frames.items)
        all.passing (option_map (λ kept. kept.items) all.kept) all.stopped) }
{
    let mut frames = Vec::new(alloc);
    let mut pass = passing;
    let mut rest = text;
    'frames: while let Some(first) = first_of(alloc, without_front(rest, pass))? {
        rest = without_front(rest, pass);
        pass = first.size;
        let stops = first.is_lost();
        frames.push(first.frame)?;
        if stops {
            return Ok(at_end(alloc, frames));
        }
    }
    let kept = rest_of(alloc, text, without_front(rest, pass))?;
    Ok(Found {
        frames,
        passing: pass.saturating_sub(rest.len()),
        kept,
        stopped: false,
    })
}

/// Returns the text without that many bytes at its front.
#[tactic(auto, using(crate::proofs::TextLaws::drop_past))]
fn without_front(text: &[u8], size: usize) -> &[u8]
    ensures { result.now ≡ drop size text.now }
{
    if size < text.len() {
        return text.split_at(size).1;
    }
    text.split_at(text.len()).1
}

/// Copies the rest of a text, unless it is the whole text.
fn rest_of(alloc: Global, text: &[u8], rest: &[u8]) -> Result<Option<Vec<u8>>, AllocError>
    ensures { IfOk result (λ kept. MatchOption kept (length rest.now ≡ length text.now) (λ v. v.items ≡ rest.now)) }
{
    if rest.len() == text.len() {
        return Ok(None);
    }
    let kept = Vec::from_slice(alloc, rest)?;
    Ok(Some(kept))
}

/// Returns what is found where nothing can be followed any more.
fn at_end(alloc: Global, frames: Vec<Frame>) -> Found
    ensures frames { result.frames.items ≡ frames.items }
    ensures passing { result.passing ≡ 0 }
    ensures kept { option_map (λ kept. kept.items) result.kept ≡ Some [] }
    ensures stopped { result.stopped ≡ true }
{
    Found {
        frames,
        passing: 0,
        kept: Some(Vec::new(alloc)),
        stopped: true,
    }
}

/// A frame, and how many bytes it takes.
#[derive(Drop)]
struct First {
    frame: Frame,
    size: usize,
}

impl First {
    /// Says whether nothing can be followed any more.
    fn is_lost(&self) -> bool
        ensures { result ≡ is_lost (event_of self.now.frame) }
    {
        matches!(self.frame, Frame::Lost)
    }
}

/// Returns what the bytes begin with.
fn first_of(alloc: Global, bytes: &[u8]) -> Result<Option<First>, AllocError>
    ensures { IfOk result (λ first. MatchOption first (first_of_all bytes.now ≡ nothing)
        (λ f. first_of_all bytes.now ≡ found (event_of f.frame) f.size)) }
{
    match head_of(bytes) {
        Head::Waits => Ok(None),
        Head::Lost => Ok(Some(First {
            frame: Frame::Lost,
            size: 0,
        })),
        Head::Whole { size, body } => frame_of(alloc, bytes, size, body),
    }
}

/// Returns the frame of a header of `size` bytes and a body of `body` bytes, if they are there.
#[tactic(auto, using(crate::proofs::LineLaws::whole_long, crate::proofs::LineLaws::whole_short, crate::proofs::LineLaws::whole_there))]
fn frame_of(
    alloc: Global,
    bytes: &[u8],
    size: usize,
    body: usize,
) -> Result<Option<First>, AllocError>
    requires { size + body < 2 ^ 64 }
    ensures { IfOk result (λ first. MatchOption first (first_by bytes.now (Head.Whole size body) ≡ nothing)
        (λ f. first_by bytes.now (Head.Whole size body) ≡ found (event_of f.frame) f.size)) }
{
    let end = size + body;
    if body > MOST_BODY {
        return Ok(Some(First {
            frame: Frame::TooLong(body),
            size: end,
        }));
    }
    if bytes.len() < end {
        return Ok(None);
    }
    let text = Vec::from_slice(alloc, bytes.split_at(size).1.split_at(body).0)?;
    Ok(Some(First {
        frame: Frame::Body(text),
        size: end,
    }))
}

/// Returns the bytes of a frame with this message as its body: a header of one line, and the message. Fails only when
/// out of memory.
pub fn framed(alloc: Global, message: &[u8]) -> Result<Vec<u8>, AllocError>
    ensures bytes { IfOk result (λ all. all.items ≡ framed message.now) }
    ensures reads { IfOk result (λ all. length message.now ≤ most_body
        → Reads 0 all.items (body message.now ∷ []) at_first) }
{
    let all = frame_bytes(alloc, message)?;
    Ok(all)
}

/// Returns the bytes of a frame.
fn frame_bytes(alloc: Global, message: &[u8]) -> Result<Vec<u8>, AllocError>
    ensures { IfOk result (λ all. all.items ≡ framed message.now) }
{
    let size = message.len();
    let header = format!(in alloc; "Content-Length: {size}\r\n\r\n")?;
    let mut bytes = Vec::from_slice(alloc, header.as_bytes())?;
    bytes.extend_from_slice(message)?;
    Ok(bytes)
}
