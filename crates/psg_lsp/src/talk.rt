//! The conversation: frames of the input, and frames that are put.
ghost use Rattle.std.specs.Prelude.{◌≡◌, IfOk, MatchOption, false, map};
ghost use Rattle.std.specs.Io.KnownBytes.{append_known};
ghost use Rattle.std.specs.Option.{option_map};
ghost use Rattle.serde_json.specs.View.{view};
ghost use Rattle.serde_json.specs.Written.{compact_text, has_float};
ghost use Rattle.psg_defcomment.specs.Reading.{IsCommentOf};
ghost use Rattle.psg_grammar.specs.WellFormed.{fixed_words};
ghost use Rattle.psg_grammar.specs.Kinds.{HasKind};
ghost use Rattle.psg_server.specs.declared.judging.Defined.{Defined as Plain};
ghost use Rattle.psg_grammar.specs.declared.types.Kind.{Kind as PlainKind};
ghost use Rattle.psg_messages.specs.Answers.{refusal_of};
ghost use Rattle.psg_protocol.specs.Frames.{body as body_event, event_of, framed as framed_of, lost};
ghost use Rattle.psg_server.specs.Answering.{Answers, Out, out_of};
ghost use Rattle.psg_server.specs.declared.server.Server.{Server as PlainServer};
ghost use Rattle.psg_lsp.specs.Talking.{AreTaken, EndsWith, GoesOn, IsBroken, IsOver, IsPieceTaken, IsPlainOut, IsPut};
ghost use Rattle.psg_lsp.specs.Talking.{IsPutValue, IsTaken, Stops, StopsAtPiece};
ghost use Rattle.psg_lsp.specs.Talking.{StopsWithin, Talks, long_data, place_at};
ghost use Rattle.psg_specimen.specs.Languages.{IsDeclaringPhylum};

use crate::ending::{Ending, read_ending, write_ending};
use psg_grammar::Kind;
use psg_messages::{Fault, refusal};
use psg_protocol::{Frame, FrameReader, framed};
use psg_server::{Defined, Reply, Server};
use psg_terms::Steps;
use psg_world::{Pieces, Sink, put_all};
use serde_json::Value;
use std::alloc::{AllocError, Global};
use std::sync::ledger::Ledger;

/// How many bytes are asked for at once.
pub const MOST_PIECE: usize = 65_536;

/// Returns the bytes of the frame with the value.
fn frame_of(alloc: Global, value: &Value) -> Result<Vec<u8>, AllocError>
    ensures { IfOk result (λ bytes. has_float (view value.now) ≡ false
        → bytes.items ≡ framed_of (compact_text (view value.now))) }
{
    let text = value.to_string(alloc)?;
    let bytes = framed(alloc, text.as_bytes())?;
    Ok(bytes)
}

/// Puts the bytes. Returns the ending where that fails.
fn put_bytes<O: Sink>(alloc: Global, bytes: &[u8], out: &mut O) -> Option<Ending>
    ensures { MatchOption result (O.written out.new ≡ append_known (O.written out.old) bytes.now) (λ e. IsBroken e) }
{
    match put_all(alloc, out, bytes) {
        Ok(()) => None,
        Err(stop) => Some(write_ending(stop)),
    }
}

/// Puts the value as a frame. Returns the ending where that fails.
pub fn put_value<O: Sink>(alloc: Global, value: &Value, out: &mut O) -> Option<Ending>
    ensures { MatchOption result (has_float (view value.now) ≡ false
        → IsPutValue (view value.now) (O.written out.old) (O.written out.new)) (λ e. IsBroken e) }
{
    match frame_of(alloc, value) {
        Ok(bytes) => {
            let done = put_bytes(alloc, bytes.as_slice(), out);
            done
        }
        Err(_) => Some(Ending::Memory),
    }
}

/// Puts the answer to a message that is refused, or a frame that is passed over. Returns the ending where that fails.
pub fn put_refusal<O: Sink>(
    alloc: Global,
    id: Option<&Value>,
    fault: Fault,
    message: &str,
    out: &mut O,
) -> Option<Ending>
    ensures { MatchOption result
        (has_float (refusal_of (option_map (λ i. view i.now) id.entry) fault message.now) ≡ false
        → IsPutValue (refusal_of (option_map (λ i. view i.now) id.entry) fault message.now)
        (O.written out.old) (O.written out.new)) (λ e. IsBroken e) }
{
    match refusal(alloc, id, fault, message) {
        Ok(value) => {
            let done = put_value(alloc, &value, out);
            done
        }
        Err(_) => Some(Ending::Memory),
    }
}

/// Puts what follows from a message. Returns the ending, if the server ends with it.
fn put_reply<O: Sink>(alloc: Global, reply: &Reply, out: &mut O) -> Option<Ending>
    ensures { MatchOption result (IsPlainOut (out_of reply.now)
        → IsPut (out_of reply.now) (O.written out.old) (O.written out.new))
        (λ e. EndsWith (out_of reply.now) (O.written out.old) (O.written out.new) e) }
{
    match reply {
        Reply::Nothing => None,
        Reply::Sent(value) => {
            let done = put_value(alloc, value, out);
            done
        }
        Reply::Ended(status) => Some(Ending::Told(*status)),
    }
}

/// Takes the body of a frame. Returns the ending, if the server ends with it.
fn take_body<O: Sink, L: Ledger>(
    alloc: Global,
    defined: &Defined,
    kind: Kind,
    server: &mut Server,
    body: &[u8],
    out: &mut O,
    steps: &mut Steps<L>,
) -> Option<Ending>
    requires kind { HasKind defined.now.language kind }
    requires fit { IsCommentOf (fixed_words defined.now.language) defined.now.comment }
    requires quiet_kind { IsDeclaringPhylum defined.now.language kind → ⊥ }
    ensures { MatchOption result ((o : Out) × Answers defined.now kind body.now server.old server.new o
        × IsPut o (O.written out.old) (O.written out.new))
        (λ e. Stops defined.now kind server.old (O.written out.old) (O.written out.new) (body_event body.now) e) }
{
    match server.answer(alloc, defined, kind, body, steps) {
        Ok(reply) => {
            let done = put_reply(alloc, &reply, out);
            done
        }
        Err(_) => Some(Ending::Memory),
    }
}

/// Puts the answer to a frame that is too long. Returns the ending where that fails.
fn put_long<O: Sink>(alloc: Global, out: &mut O) -> Option<Ending>
    ensures { MatchOption result (IsPutValue long_data (O.written out.old) (O.written out.new)) (λ e. IsBroken e) }
{
    let done = put_refusal(alloc, None, Fault::WrongShape, "this is too long", out);
    done
}

/// Puts the answer to a frame that has no length, after which nothing can be followed. Returns the ending.
fn put_lost<O: Sink>(alloc: Global, out: &mut O) -> Ending
    ensures { (def : Plain) (kind : PlainKind) (server : PlainServer)
        → Stops def kind server (O.written out.old) (O.written out.new) lost result }
{
    match put_refusal(alloc, None, Fault::NoJson, "this has no length", out) {
        Some(ending) => ending,
        None => Ending::ReadFault,
    }
}

/// Takes a frame. Returns the ending, if the server ends with it.
fn take_frame<O: Sink, L: Ledger>(
    alloc: Global,
    defined: &Defined,
    kind: Kind,
    server: &mut Server,
    frame: &Frame,
    out: &mut O,
    steps: &mut Steps<L>,
) -> Option<Ending>
    requires kind { HasKind defined.now.language kind }
    requires fit { IsCommentOf (fixed_words defined.now.language) defined.now.comment }
    requires quiet_kind { IsDeclaringPhylum defined.now.language kind → ⊥ }
    ensures { MatchOption result
        (IsTaken defined.now kind server.old server.new (O.written out.old) (O.written out.new) (event_of frame.now))
        (λ e. Stops defined.now kind server.old (O.written out.old) (O.written out.new) (event_of frame.now) e) }
{
    match frame {
        Frame::Body(body) => {
            let done = take_body(alloc, defined, kind, server, body.as_slice(), out, steps);
            done
        }
        Frame::TooLong(_) => {
            let done = put_long(alloc, out);
            done
        }
        Frame::Lost => {
            let ending = put_lost(alloc, out);
            Some(ending)
        }
    }
}

/// Takes the frames of a piece, one after the other. Returns the ending, if the server ends with one of them.
fn take_frames<O: Sink, L: Ledger>(
    alloc: Global,
    defined: &Defined,
    kind: Kind,
    server: &mut Server,
    frames: &[Frame],
    out: &mut O,
    steps: &mut Steps<L>,
) -> Option<Ending>
    requires kind { HasKind defined.now.language kind }
    requires fit { IsCommentOf (fixed_words defined.now.language) defined.now.comment }
    requires quiet_kind { IsDeclaringPhylum defined.now.language kind → ⊥ }
    ensures { MatchOption result (AreTaken defined.now kind server.old (O.written out.old) (map event_of frames.now)
        server.new (O.written out.new))
        (λ e.
        StopsWithin defined.now kind server.old (O.written out.old) (O.written out.new) (map event_of frames.now) e) }
{
    for place in 0..frames.len() {
        match take_frame(alloc, defined, kind, server, &frames[place], out, steps) {
            Some(ending) => return Some(ending),
            None => (),
        }
    }
    None
}

/// Takes the frames that are whole with the next piece. Returns the ending, if the server ends with one of them.
fn take_piece<O: Sink, L: Ledger>(
    alloc: Global,
    defined: &Defined,
    kind: Kind,
    server: &mut Server,
    reader: &mut FrameReader,
    piece: &[u8],
    out: &mut O,
    steps: &mut Steps<L>,
) -> Option<Ending>
    requires kind { HasKind defined.now.language kind }
    requires fit { IsCommentOf (fixed_words defined.now.language) defined.now.comment }
    requires quiet_kind { IsDeclaringPhylum defined.now.language kind → ⊥ }
    ensures { MatchOption result
        (IsPieceTaken defined.now kind server.old server.new reader.old reader.new piece.now
        (O.written out.old) (O.written out.new))
        (λ e.
        StopsAtPiece defined.now kind server.old reader.old piece.now (O.written out.old) (O.written out.new) e) }
{
    match reader.read(alloc, piece) {
        Ok(frames) => {
            let done = take_frames(alloc, defined, kind, server, frames.as_slice(), out, steps);
            done
        }
        Err(_) => Some(Ending::Memory),
    }
}

/// Takes the next piece of the input. Returns the ending, if the server ends with it.
fn take_next<I: Pieces, O: Sink, L: Ledger>(
    alloc: Global,
    defined: &Defined,
    kind: Kind,
    server: &mut Server,
    reader: &mut FrameReader,
    input: &mut I,
    out: &mut O,
    steps: &mut Steps<L>,
) -> Option<Ending>
    requires kind { HasKind defined.now.language kind }
    requires fit { IsCommentOf (fixed_words defined.now.language) defined.now.comment }
    requires quiet_kind { IsDeclaringPhylum defined.now.language kind → ⊥ }
    ensures { MatchOption result
        (GoesOn defined.now kind (place_at (I.left input.old) reader.old server.old (O.written out.old))
        (place_at (I.left input.new) reader.new server.new (O.written out.new)))
        (λ e. IsOver defined.now kind (place_at (I.left input.old) reader.old server.old (O.written out.old))
        (I.left input.new) (O.written out.new) e) }
{
    match input.next_piece(alloc, MOST_PIECE) {
        Ok(piece) => {
            if piece.is_empty() {
                return Some(Ending::Told(0));
            }
            let bytes = piece.as_slice();
            let done = take_piece(alloc, defined, kind, server, reader, bytes, out, steps);
            done
        }
        Err(stop) => Some(read_ending(stop)),
    }
}

/// Answers the frames of the input until it ends, or the client ends the conversation. The end of the input is awaited
/// for 2^64 - 1 pieces.
pub fn talk<I: Pieces, O: Sink, L: Ledger>(
    alloc: Global,
    defined: &Defined,
    kind: Kind,
    input: &mut I,
    out: &mut O,
    steps: &mut Steps<L>,
) -> Ending
    requires kind { HasKind defined.now.language kind }
    requires fit { IsCommentOf (fixed_words defined.now.language) defined.now.comment }
    requires quiet_kind { IsDeclaringPhylum defined.now.language kind → ⊥ }
    ensures { Talks defined.now kind (I.left input.old) (I.left input.new) (O.written out.old)
        (O.written out.new) result }
{
    let mut reader = FrameReader::new(alloc);
    let mut server = Server::new(alloc);
    for _turn in 0..u64::MAX {
        match take_next(
            alloc,
            defined,
            kind,
            &mut server,
            &mut reader,
            input,
            out,
            steps,
        ) {
            Some(ending) => return ending,
            None => (),
        }
    }
    Ending::ReadFault
}
