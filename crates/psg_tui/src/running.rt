//! A run of the editor: from pieces of an input to pictures.
ghost use Rattle.std.specs.Prelude.{◌≡◌, IfErr, IfOk, None, OnErr, OnOk, [], cond, false, true, string_bytes};
ghost use Rattle.std.specs.Io.KnownBytes.{append_known};
ghost use Rattle.std.specs.Option.{option_copied};
ghost use Rattle.psg_canvas.specs.Drawing.{Draws};
ghost use Rattle.psg_keys.specs.Reading.{at_first};
ghost use Rattle.psg_tui.specs.Editing.{IsOfSame};
ghost use Rattle.psg_tui.specs.Running as running;
ghost use Rattle.psg_tui.specs.Running.{AreCut, AreDrawn, HasRun, IsCut, IsDrawn, IsLeft, IsOfWriting, IsPictureOf};
ghost use Rattle.psg_tui.specs.Running.{Runs, Takes, TakesAll, Writes, scene};
ghost use Rattle.psg_tui.specs.Scrolled.{IsScrolled};
ghost use Rattle.psg_tui.specs.Views.{outside};
ghost use Rattle.psg_world.specs.Sinks.{TakesFront};

use crate::tui::Tui;
use psg_canvas::{Picture, draw, enter, leave};
use psg_keys::{Key, KeyReader, Stroke};
use psg_terms::Steps;
use psg_world::{Files, Pieces, ReadStop, Sink, WriteStop, put_all};
use std::alloc::{AllocError, Global};
use std::sync::ledger::Ledger;

/// How a run ended.
#[derive(Clone, Copy, PartialEq, Eq)]
pub enum Ending {
    /// By `q`, or by the end of the input.
    Done,
    /// By a read of the input that failed.
    ReadFault,
    /// By a write that failed.
    WriteFault,
    /// Since memory ran out.
    Memory,
}

/// How many bytes one read may have.
const MOST: usize = 8192;

/// Draws, and presses the keys of the input, until one ends the editor or the input is at its end. All keys of a piece
/// are pressed before a picture is drawn. However it ends, the first screen is shown again, unless the writing failed.
pub fn run<F: Files, P: Pieces, O: Sink, L: Ledger>(
    alloc: Global,
    tui: &mut Tui,
    files: &mut F,
    input: &mut P,
    out: &mut O,
    steps: &mut Steps<L>,
) -> Ending
    ensures ran { HasRun
        (scene tui.old (outside (F.holds files.old) (F.faults files.old)) None at_first (P.left input.old))
        (O.written out.old) result tui.new (outside (F.holds files.new) (F.faults files.new)) (O.written out.new) }
    ensures left { IsLeft result (O.written out.old) (O.written out.new) }
    ensures same { IsOfSame tui.old tui.new }
{
    match put(alloc, out, enter()) {
        Ok(()) => {
            let ending = turns(alloc, tui, files, input, out, steps);
            match put(alloc, out, leave()) {
                Ok(()) => ending,
                Err(fault) => fault,
            }
        }
        Err(fault) => fault,
    }
}

/// Draws, and presses the keys of the input, until one ends the editor or the input is at its end.
fn turns<F: Files, P: Pieces, O: Sink, L: Ledger>(
    alloc: Global,
    tui: &mut Tui,
    files: &mut F,
    input: &mut P,
    out: &mut O,
    steps: &mut Steps<L>,
) -> Ending
    ensures ran { Writes (O.written out.old) (O.written out.new)
        (Runs 0 (scene tui.old (outside (F.holds files.old) (F.faults files.old)) None at_first (P.left input.old))
        result tui.new (outside (F.holds files.new) (F.faults files.new))) }
    ensures same { IsOfSame tui.old tui.new }
{
    let mut reader = KeyReader::new(alloc);
    let mut shown = None;
    'turns: for turn in 0..u64::MAX {
        shown = match drawn(alloc, tui, files, shown, out, steps) {
            Ok(picture) => picture,
            Err(fault) => return fault,
        };
        let piece = match input.next_piece(alloc, MOST) {
            Ok(piece) => piece,
            Err(stop) => return ending_of(stop),
        };
        let bytes = piece.as_slice();
        if is_last(bytes) {
            return Ending::Done;
        }
        let strokes = match reader.read(alloc, bytes) {
            Ok(strokes) => strokes,
            Err(_) => return Ending::Memory,
        };
        let keys = strokes.as_slice();
        shown = left_by(keys, shown);
        press_all(alloc, tui, keys, files, steps);
        if tui.is_ended() {
            return Ending::Done;
        }
    }
    Ending::Done
}

/// Returns how a run ends where a read stops.
fn ending_of(stop: ReadStop) -> Ending
    ensures { running.IsOfReading result }
{
    match stop {
        ReadStop::Failed => Ending::ReadFault,
        ReadStop::Memory => Ending::Memory,
    }
}

/// Says whether the input is at its end.
fn is_last(piece: &[u8]) -> bool
    ensures last { result ≡ true → piece.now ≡ [] }
    ensures more { result ≡ false → piece.now ≡ [] → ⊥ }
{
    piece.is_empty()
}

/// Says whether all is to be drawn again: at Ctrl-L, and where the screen has another size, the terminal may show
/// anything.
fn redraws(strokes: &[Stroke]) -> bool
    ensures { result ≡ running.redraws strokes.now }
{
    for number in 0..strokes.len() {
        let redraws = is_redrawing(strokes[number].key());
        if redraws {
            return true;
        }
    }
    false
}

fn is_redrawing(key: Key) -> bool
    ensures { result ≡ running.is_redrawing key }
{
    match key {
        Key::Control(letter) => letter == 'l',
        Key::Size { .. } => true,
        _ => false,
    }
}

/// Returns what is known to be shown after the keys.
fn left_by(strokes: &[Stroke], shown: Option<Picture>) -> Option<Picture>
    ensures { result ≡ cond (running.redraws strokes.now) None shown }
{
    let redraws = redraws(strokes);
    if redraws { None } else { shown }
}

/// Presses the keys, up to one that ends the editor. Where there is no memory for one, a line says so.
fn press_all<F: Files, L: Ledger>(
    alloc: Global,
    tui: &mut Tui,
    strokes: &[Stroke],
    files: &mut F,
    steps: &mut Steps<L>,
)
    ensures taken { TakesAll strokes.now tui.old (outside (F.holds files.old) (F.faults files.old)) tui.new
        (outside (F.holds files.new) (F.faults files.new)) }
    ensures same { IsOfSame tui.old tui.new }
{
    for number in 0..strokes.len() {
        press_one(alloc, tui, &strokes[number], files, steps);
    }
}

/// Presses the key, unless the editor is at its end. Where there is no memory for it, a line says so.
fn press_one<F: Files, L: Ledger>(
    alloc: Global,
    tui: &mut Tui,
    stroke: &Stroke,
    files: &mut F,
    steps: &mut Steps<L>,
)
    ensures taken { Takes stroke.now tui.old (outside (F.holds files.old) (F.faults files.old)) tui.new
        (outside (F.holds files.new) (F.faults files.new)) }
    ensures same { IsOfSame tui.old tui.new }
{
    if tui.is_ended() {
        return;
    }
    match tui.press(alloc, stroke, files, steps) {
        Ok(()) => {}
        Err(_) => tui.say_no_memory(),
    }
}

/// Draws the editor; asks what takes longer once that is written, and draws again. Returns what is drawn.
fn drawn<F: Files, O: Sink, L: Ledger>(
    alloc: Global,
    tui: &mut Tui,
    files: &mut F,
    shown: Option<Picture>,
    out: &mut O,
    steps: &mut Steps<L>,
) -> Result<Option<Picture>, Ending>
    ensures drawn { IfOk result (λ now. Writes (O.written out.old) (O.written out.new)
        (AreDrawn tui.old tui.new shown now)) }
    ensures cut { IfErr result (λ ending. IsOfWriting ending
        × Writes (O.written out.old) (O.written out.new) (AreCut tui.old tui.new shown)) }
    ensures same { IsOfSame tui.old tui.new }
    ensures files { (F.holds files.new ≡ F.holds files.old) × (F.faults files.new ≡ F.faults files.old) }
{
    let shown = show(alloc, tui, shown, out)?;
    match tui.wonder(alloc, files, steps) {
        Ok(true) => show(alloc, tui, shown, out),
        _ => Ok(shown),
    }
}

/// Writes what turns the old picture into the new one, and returns the new one. Where memory runs out the old one
/// stays.
fn show<O: Sink>(
    alloc: Global,
    tui: &mut Tui,
    shown: Option<Picture>,
    out: &mut O,
) -> Result<Option<Picture>, Ending>
    ensures drawn { IfOk result (λ now. Writes (O.written out.old) (O.written out.new)
        (IsDrawn tui.old tui.new shown now)) }
    ensures cut { IfErr result (λ ending. IsOfWriting ending
        × Writes (O.written out.old) (O.written out.new) (IsCut tui.old tui.new shown)) }
    ensures same { IsOfSame tui.old tui.new }
{
    match next_picture(alloc, tui, shown.as_ref()) {
        Ok((picture, bytes)) => {
            put(alloc, out, bytes.as_str())?;
            Ok(Some(picture))
        }
        Err(_) => Ok(shown),
    }
}

/// Returns the picture of the editor, and the bytes that turn the old one into it.
fn next_picture(
    alloc: Global,
    tui: &mut Tui,
    shown: Option<&Picture>,
) -> Result<(Picture, String), AllocError>
    ensures picture { IfOk result (λ r. IsPictureOf tui.old tui.new r.0) }
    ensures draws { IfOk result (λ r. Draws (option_copied shown.entry) r.0 (string_bytes r.1)) }
    ensures left { IsScrolled tui.old tui.new }
{
    let picture = tui.picture(alloc)?;
    let bytes = draw(alloc, shown, &picture)?;
    Ok((picture, bytes))
}

/// Writes the text.
fn put<O: Sink>(alloc: Global, out: &mut O, text: &str) -> Result<(), Ending>
    ensures all { OnOk result (O.written out.new ≡ append_known (O.written out.old) text.now) }
    ensures front { OnErr result (TakesFront (O.written out.old) text.now (O.written out.new)) }
    ensures fault { IfErr result IsOfWriting }
{
    match put_all(alloc, out, text.as_bytes()) {
        Ok(()) => Ok(()),
        Err(WriteStop::Failed) => Err(Ending::WriteFault),
        Err(WriteStop::Memory) => Err(Ending::Memory),
    }
}
