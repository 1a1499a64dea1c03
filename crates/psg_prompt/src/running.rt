//! A run of a prompt: from pieces of an input to the lines that are handed on.
ghost use Rattle.std.specs.Prelude.{◌≡◌, ◌++◌, IfErr, OnErr, OnOk, [], false, true, string_bytes};
ghost use Rattle.std.specs.Io.KnownBytes.{append_known};
ghost use Rattle.psg_keys.specs.Reading.{at_first};
ghost use Rattle.psg_prompt.specs.Prompts.{IsToldOfFirst, after_keys};
ghost use Rattle.psg_prompt.specs.Running as running;
ghost use Rattle.psg_prompt.specs.Running.{HasRun, IsCut, IsOfReading, IsOfWriting, Runs, Writes, scene};
ghost use Rattle.psg_world.specs.Sinks.{TakesFront};

use crate::prompt::Prompt;
use psg_keys::{KeyReader, Stroke};
use psg_world::{Pieces, ReadStop, Sink, WriteStop, put_all};
use std::alloc::{AllocError, Global};

/// How a run ended.
#[derive(Clone, Copy, PartialEq, Eq)]
pub enum Ending {
    /// By a key, or by the end of the input.
    Done,
    /// By a read of the input that failed.
    ReadFault,
    /// By a write that failed.
    WriteFault,
    /// Since memory ran out.
    Memory,
}

/// How many bytes one read may have.
const MOST: usize = 8192;

/// Draws the row, and presses the keys of each piece of the input, until one ends the prompt or the input is at its
/// end. After each piece it writes what is told of its keys, a line each with a mark before it: `>` and bytes for the
/// terminal; `=` and a line that is finished; `-` where the row is left; `.` where keys are waited for. Where memory
/// runs out, what is told of the keys before is written.
pub fn run<P: Pieces, O: Sink>(
    alloc: Global,
    prompt: &mut Prompt,
    input: &mut P,
    out: &mut O,
) -> Ending
    ensures { HasRun (scene prompt.old at_first (P.left input.old)) (O.written out.old) result (O.written out.new) }
{
    let mut text = String::new(alloc);
    match prompt.push_end(alloc, &mut text) {
        Ok(()) => match put(alloc, out, text.as_str()) {
            Ok(()) => turns(alloc, prompt, input, out),
            Err(fault) => fault,
        },
        Err(_) => Ending::Memory,
    }
}

/// Presses the keys of each piece of the input, until one ends the prompt or the input is at its end.
fn turns<P: Pieces, O: Sink>(
    alloc: Global,
    prompt: &mut Prompt,
    input: &mut P,
    out: &mut O,
) -> Ending
    ensures { Writes (O.written out.old) (O.written out.new)
        (Runs 0 (scene prompt.old at_first (P.left input.old)) result) }
{
    let mut reader = KeyReader::new(alloc);
    'turns: for turn in 0..u64::MAX {
        let piece = match input.next_piece(alloc, MOST) {
            Ok(piece) => piece,
            Err(stop) => return ending_of(stop),
        };
        let bytes = piece.as_slice();
        if is_last(bytes) {
            return Ending::Done;
        }
        let strokes = match reader.read(alloc, bytes) {
            Ok(strokes) => strokes,
            Err(_) => return Ending::Memory,
        };
        let keys = strokes.as_slice();
        match answer(alloc, prompt, keys, out) {
            Ok(()) => {}
            Err(ending) => return ending,
        }
        if prompt.is_ended() {
            return Ending::Done;
        }
    }
    Ending::Done
}

/// Presses the keys, and writes what is told of them.
fn answer<O: Sink>(
    alloc: Global,
    prompt: &mut Prompt,
    strokes: &[Stroke],
    out: &mut O,
) -> Result<(), Ending>
    ensures pressed { OnOk result (prompt.new ≡ after_keys prompt.old strokes.now) }
    ensures told { OnOk result (O.written out.new
        ≡ append_known (O.written out.old) (running.answer prompt.old strokes.now)) }
    ensures cut { IfErr result (λ ending. Writes (O.written out.old) (O.written out.new)
        (IsCut prompt.old strokes.now ending)) }
{
    let mut text = String::new(alloc);
    let told = tell(alloc, prompt, strokes, &mut text);
    match put(alloc, out, text.as_str()) {
        Ok(()) => match told {
            Ok(()) => Ok(()),
            Err(_) => Err(Ending::Memory),
        },
        Err(fault) => Err(fault),
    }
}

/// Presses the keys, and adds what is told of them.
fn tell(
    alloc: Global,
    prompt: &mut Prompt,
    strokes: &[Stroke],
    text: &mut String,
) -> Result<(), AllocError>
    ensures pressed { OnOk result (prompt.new ≡ after_keys prompt.old strokes.now) }
    ensures told { OnOk result (string_bytes text.new
        ≡ string_bytes text.old ++ running.answer prompt.old strokes.now) }
    ensures memory { OnErr result (IsToldOfFirst prompt.old strokes.now (string_bytes text.old)
        (string_bytes text.new)) }
{
    prompt.press_all(alloc, strokes, text)?;
    prompt.push_end(alloc, text)?;
    Ok(())
}

/// Returns how a run ends where a read stops.
fn ending_of(stop: ReadStop) -> Ending
    ensures { IsOfReading result }
{
    match stop {
        ReadStop::Failed => Ending::ReadFault,
        ReadStop::Memory => Ending::Memory,
    }
}

/// Says whether the input is at its end.
fn is_last(piece: &[u8]) -> bool
    ensures last { result ≡ true → piece.now ≡ [] }
    ensures more { result ≡ false → piece.now ≡ [] → ⊥ }
{
    piece.is_empty()
}

/// Writes the text.
fn put<O: Sink>(alloc: Global, out: &mut O, text: &str) -> Result<(), Ending>
    ensures all { OnOk result (O.written out.new ≡ append_known (O.written out.old) text.now) }
    ensures front { OnErr result (TakesFront (O.written out.old) text.now (O.written out.new)) }
    ensures fault { IfErr result IsOfWriting }
{
    match put_all(alloc, out, text.as_bytes()) {
        Ok(()) => Ok(()),
        Err(WriteStop::Failed) => Err(Ending::WriteFault),
        Err(WriteStop::Memory) => Err(Ending::Memory),
    }
}
