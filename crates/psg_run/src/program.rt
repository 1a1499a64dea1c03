//! The whole program.
ghost use Rattle.std.specs.Prelude.{ℕ, ◌≡◌, map, string_bytes};
ghost use Rattle.psg_run.specs.Arranging.{ArrangesBy};
ghost use Rattle.psg_run.specs.Editing.{Edits};
ghost use Rattle.psg_run.specs.Promise.{HasNoForm, IsRun, IsRunOf, check as check_of, edit as edit_of};
ghost use Rattle.psg_run.specs.Promise.{layout as layout_of, windows as windows_of};
ghost use Rattle.psg_run.specs.Reading.{Reads, most_script_bytes};
ghost use Rattle.psg_run.specs.Scripts.{script_lines};
ghost use Rattle.psg_run.specs.Wanted.{living};
ghost use Rattle.psg_run.specs.Windowed.{PlaysWindows};
ghost use Rattle.psg_run.specs.Worlds.{Incoming, coming, seen, texts_of};

use crate::arranging::arrange_by;
use crate::explaining::explain_script;
use crate::exporting::export_self;
use crate::formatting::format_file;
use crate::framing::Framing;
use crate::generating::generate;
use crate::limits::MOST_SCRIPT_BYTES;
use crate::linting::lint_file;
use crate::live::talk;
use crate::play::play;
use crate::source::{put_line, read_language, read_within};
use crate::status::Status;
use crate::windows::play_windows;
use crate::words::{Form, form_of};
use psg_session::Session;
use psg_specimen::Language;
use psg_terms::Steps;
use psg_world::{Files, Input, Sink};
use std::alloc::Global;
use std::sync::ledger::Ledger;

/// Reads the script, and plays it on a new session of the language.
fn play_file<F: Files, O: Sink, L: Ledger>(
    alloc: Global,
    language: Language,
    script: &str,
    files: &mut F,
    out: &mut O,
    steps: &mut Steps<L>,
) -> Status
    ensures { (input : Incoming) → Reads script.now most_script_bytes (λ bytes. Edits language (script_lines bytes))
        (seen (F.holds files.old) (F.faults files.old) input steps.old (O.written out.old) (O.faults out.old))
        (seen (F.holds files.new) (F.faults files.new) input steps.new (O.written out.new) (O.faults out.new))
        result }
{
    let bytes = match read_within(alloc, script, MOST_SCRIPT_BYTES, files) {
        Ok(bytes) => bytes,
        Err(status) => return status,
    };
    let Ok(mut session) = Session::new(alloc, language) else {
        return Status::Memory;
    };
    play(alloc, &mut session, bytes.as_slice(), files, out, steps)
}

/// Reads the script and then the layout, plays the script on a new session of the language, and puts what is opened
/// then, arranged for that many columns.
fn arrange_file<F: Files, O: Sink, L: Ledger>(
    alloc: Global,
    language: Language,
    script: &str,
    rules: &str,
    columns: u32,
    files: &mut F,
    out: &mut O,
    steps: &mut Steps<L>,
) -> Status
    ensures { (input : Incoming) → Reads script.now most_script_bytes
        (λ bytes. ArrangesBy language rules.now columns (script_lines bytes))
        (seen (F.holds files.old) (F.faults files.old) input steps.old (O.written out.old) (O.faults out.old))
        (seen (F.holds files.new) (F.faults files.new) input steps.new (O.written out.new) (O.faults out.new))
        result }
{
    let bytes = match read_within(alloc, script, MOST_SCRIPT_BYTES, files) {
        Ok(bytes) => bytes,
        Err(status) => return status,
    };
    arrange_by(
        alloc,
        language,
        bytes.as_slice(),
        rules,
        columns,
        files,
        out,
        steps,
    )
}

/// Says whether the file has an accepted definition: `accepted`, or the line of its first fault.
fn check<F: Files, O: Sink>(alloc: Global, definition: &str, files: &mut F, out: &mut O) -> Status
    ensures { (input : Incoming) (ticks : ℕ) → IsRunOf (check_of definition.now)
        (seen (F.holds files.old) (F.faults files.old) input ticks (O.written out.old) (O.faults out.old))
        (seen (F.holds files.new) (F.faults files.new) input ticks (O.written out.new) (O.faults out.new)) result }
{
    if let Err(status) = read_language(alloc, definition, files, out) {
        return status;
    }
    put_line(alloc, out, "accepted", Status::Done)
}

/// Plays the script on the definition. The order of tests is: the definition is read, its length, whether it is one,
/// whether it is accepted, the script is read, its length, then its lines.
fn edit<F: Files, O: Sink, L: Ledger>(
    alloc: Global,
    definition: &str,
    script: &str,
    files: &mut F,
    out: &mut O,
    steps: &mut Steps<L>,
) -> Status
    ensures { (input : Incoming) → IsRunOf (edit_of definition.now script.now)
        (seen (F.holds files.old) (F.faults files.old) input steps.old (O.written out.old) (O.faults out.old))
        (seen (F.holds files.new) (F.faults files.new) input steps.new (O.written out.new) (O.faults out.new))
        result }
{
    let language = match read_language(alloc, definition, files, out) {
        Ok(language) => language,
        Err(status) => return status,
    };
    play_file(alloc, language, script, files, out, steps)
}

/// Reads the script, and plays it for windows on a new session of the language.
fn play_window_file<F: Files, O: Sink, L: Ledger>(
    alloc: Global,
    language: Language,
    script: &str,
    files: &mut F,
    out: &mut O,
    steps: &mut Steps<L>,
) -> Status
    ensures { (input : Incoming) → Reads script.now most_script_bytes
        (λ bytes. PlaysWindows language (script_lines bytes))
        (seen (F.holds files.old) (F.faults files.old) input steps.old (O.written out.old) (O.faults out.old))
        (seen (F.holds files.new) (F.faults files.new) input steps.new (O.written out.new) (O.faults out.new))
        result }
{
    let bytes = match read_within(alloc, script, MOST_SCRIPT_BYTES, files) {
        Ok(bytes) => bytes,
        Err(status) => return status,
    };
    let Ok(mut session) = Session::new(alloc, language) else {
        return Status::Memory;
    };
    play_windows(alloc, &mut session, bytes.as_slice(), files, out, steps)
}

/// Plays the script on the definition, each line of it for a window. The order of tests is that of `edit`.
fn windows<F: Files, O: Sink, L: Ledger>(
    alloc: Global,
    definition: &str,
    script: &str,
    files: &mut F,
    out: &mut O,
    steps: &mut Steps<L>,
) -> Status
    ensures { (input : Incoming) → IsRunOf (windows_of definition.now script.now)
        (seen (F.holds files.old) (F.faults files.old) input steps.old (O.written out.old) (O.faults out.old))
        (seen (F.holds files.new) (F.faults files.new) input steps.new (O.written out.new) (O.faults out.new))
        result }
{
    let language = match read_language(alloc, definition, files, out) {
        Ok(language) => language,
        Err(status) => return status,
    };
    play_window_file(alloc, language, script, files, out, steps)
}

/// Plays the lines of the input on the definition, with the replies framed or not. The order of tests is: the
/// definition is read, its length, whether it is one, whether it is accepted, then the lines as they are read.
fn live<F: Files, I: Input, O: Sink, L: Ledger>(
    alloc: Global,
    definition: &str,
    framing: Framing,
    files: &mut F,
    input: &mut I,
    out: &mut O,
    steps: &mut Steps<L>,
) -> Status
    ensures { IsRunOf (living framing definition.now)
        (seen (F.holds files.old) (F.faults files.old)
        (coming (I.lines input.old) (I.given input.old) (I.missed input.old))
        steps.old (O.written out.old) (O.faults out.old))
        (seen (F.holds files.new) (F.faults files.new)
        (coming (I.lines input.new) (I.given input.new) (I.missed input.new))
        steps.new (O.written out.new) (O.faults out.new)) result }
{
    let language = match read_language(alloc, definition, files, out) {
        Ok(language) => language,
        Err(status) => return status,
    };
    let Ok(mut session) = Session::new(alloc, language) else {
        return Status::Memory;
    };
    talk(alloc, &mut session, framing, files, input, out, steps)
}

/// Arranges the program of a script by a layout. The order of tests is: the definition is read, its length, whether it
/// is one, whether it is accepted, the script is read, its length, the layout is read, its length, its lines, then the
/// lines of the script.
fn layout<F: Files, O: Sink, L: Ledger>(
    alloc: Global,
    definition: &str,
    script: &str,
    rules: &str,
    columns: u32,
    files: &mut F,
    out: &mut O,
    steps: &mut Steps<L>,
) -> Status
    ensures { (input : Incoming) → IsRunOf (layout_of definition.now script.now rules.now columns)
        (seen (F.holds files.old) (F.faults files.old) input steps.old (O.written out.old) (O.faults out.old))
        (seen (F.holds files.new) (F.faults files.new) input steps.new (O.written out.new) (O.faults out.new))
        result }
{
    let language = match read_language(alloc, definition, files, out) {
        Ok(language) => language,
        Err(status) => return status,
    };
    arrange_file(alloc, language, script, rules, columns, files, out, steps)
}

/// Does what the words say, and returns how that ended; `Status` says when each ending is returned. `check DEF` says in
/// one line whether the file DEF has a definition that is accepted. `edit DEF SCRIPT` plays each line of the file
/// SCRIPT, a command, on an editor of the definition; the replies go to `out`. `live DEF` plays the lines of the input
/// likewise, and puts the reply to each before it reads the next one; `live --framed DEF` puts a line with the number
/// of its lines before each reply. `windows DEF SCRIPT` plays the lines of a file for eight windows, each with a cursor
/// of its own: a line is a digit from 0 to 7, a space and a command. `gen N` plays a script that is made for the number
/// N, from 1 to 1,000, on the language MINI, and writes five lines of the program then. `layout DEF SCRIPT LAY COLS`
/// plays a script as `edit` does, but in silence. Then it writes the opened program, arranged by the file LAY for COLS
/// columns, from 1 to 400, or `none` if nothing is opened. `self SCRIPT OUT` plays a script in silence on the language
/// of definitions, writes the definition that is opened then to the file OUT, and says whether it is accepted. `format
/// DEF KIND FILE` writes the text that the file FILE is to have, which has a program of the kind KIND, and `format DEF
/// KIND FILE --check` says in which line it does not have it first. `explain DEF SCRIPT` plays a script in silence and
/// says why the opened program has no completion: the first node without one, its first step without rows, and why that
/// has none. `steps` counts evaluations of nodes and list suffixes: a command evaluates what is new and what is above
/// it.
pub fn run<F: Files, I: Input, O: Sink, L: Ledger>(
    alloc: Global,
    words: &[String],
    files: &mut F,
    input: &mut I,
    out: &mut O,
    steps: &mut Steps<L>,
) -> Status
    ensures run { IsRun (texts_of words.now)
        (seen (F.holds files.old) (F.faults files.old)
        (coming (I.lines input.old) (I.given input.old) (I.missed input.old))
        steps.old (O.written out.old) (O.faults out.old))
        (seen (F.holds files.new) (F.faults files.new)
        (coming (I.lines input.new) (I.given input.new) (I.missed input.new))
        steps.new (O.written out.new) (O.faults out.new)) result }
    // for words of no form nothing is even read: no call had one of the three
    ensures untouched { HasNoForm (texts_of words.now)
        → (files.new ≡ files.old) × (input.new ≡ input.old) × (out.new ≡ out.old) }
{
    match form_of(words) {
        Some(Form::Check { definition }) => check(alloc, definition, files, out),
        Some(Form::Edit { definition, script }) => {
            edit(alloc, definition, script, files, out, steps)
        }
        Some(Form::Windows { definition, script }) => {
            windows(alloc, definition, script, files, out, steps)
        }
        Some(
            Form::Live {
                definition,
                framing,
            },
        ) => { live(alloc, definition, framing, files, input, out, steps) }
        Some(Form::Gen { number }) => generate(alloc, number, files, out, steps),
        Some(
            Form::Layout {
                definition,
                script,
                rules,
                columns,
            },
        ) => { layout(alloc, definition, script, rules, columns, files, out, steps) }
        Some(Form::Itself { script, file }) => export_self(alloc, script, file, files, out, steps),
        Some(
            Form::Format {
                definition,
                kind,
                program,
                checks,
            },
        ) => { format_file(alloc, definition, kind, program, checks, files, out, steps) }
        Some(
            Form::Lint {
                definition,
                kind,
                program,
            },
        ) => { lint_file(alloc, definition, kind, program, files, out, steps) }
        Some(Form::Explain { definition, script }) => {
            explain_script(alloc, definition, script, files, out, steps)
        }
        None => Status::Words,
    }
}
