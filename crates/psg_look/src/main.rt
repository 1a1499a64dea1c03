//! `psg_look tui DEF KIND ROWS COLS [FILE]`: the editor on the screen, which tools/tui calls. With the word `look` in
//! place of `tui` it writes no files: so the sources are run unproved.
#![tactic(auto)]

ghost use Rattle.std.specs.Prelude.{◌≡◌, ◌<◌, IfSome};
ghost use Rattle.psg_grammar.specs.Fragments.{Fragment};
ghost use Rattle.psg_defcomment.specs.Reading.{IsCommentOf};
ghost use Rattle.psg_grammar.specs.Kinds.{HasKind};
ghost use Rattle.psg_grammar.specs.WellFormed.{fixed_words as fixed_words_of};
ghost use Rattle.psg_session.specs.Sessions.{state_of};
ghost use Rattle.psg_tui.specs.Pressing.{IsOpened};

use psg_defcomment::read_commented;
use psg_grammar::{Definition, Kind, kind_named};
use psg_keeping::{Keeping, Rule};
use psg_lexis::Lexis;
use psg_parse::fixed_words;
use psg_session::Session;
use psg_specimen::{Language, accept};
use psg_terms::{Steps, Txt};
use psg_tui::{Ending, NoProgram, Tui, begin, run};
use psg_world::{Files, HostFiles, HostSink, Pieces, ReaderPieces, Sink, put_all};
use std::alloc::{AllocError, Global};
use std::env;
use std::marker::Brand;
use std::process::ExitCode;
use std::sync::ledger::{Blank, Ledger};

/// The most bytes of a file that is read.
const MOST_BYTES: usize = 16_000_000;

/// The greatest number of rows and of columns.
const MOST_SIZE: u32 = 1000;

/// The words that the program is called with.
#[derive(Clone, Copy)]
struct Words<'a> {
    writes: bool,
    file: &'a str,
    kind: &'a str,
    rows: u32,
    cols: u32,
    program: Option<&'a str>,
}

/// Reads the words.
fn words_of(words: &[String]) -> Option<Words<'_>> {
    let (program, words) = match words {
        [front @ .., program] if front.len() == 5 => (Some(program.as_str()), front),
        _ => (None, words),
    };
    let [form, file, kind, rows, cols] = words else {
        return None;
    };
    let writes = match form.as_str() {
        "tui" => true,
        "look" => false,
        _ => return None,
    };
    let (Ok(rows), Ok(cols)) = (rows.as_str().parse::<u32>(), cols.as_str().parse::<u32>()) else {
        return None;
    };
    Some(Words {
        writes,
        file: file.as_str(),
        kind: kind.as_str(),
        rows: rows.min(MOST_SIZE),
        cols: cols.min(MOST_SIZE),
        program,
    })
}

/// A language, and how its comments are found, if it has any.
#[derive(Drop)]
struct Defined {
    language: Language,
    rule: Option<Rule>,
}

/// Returns how the comments of the language are found, if it has any.
fn rule_of(
    alloc: Global,
    definition: &Definition,
    comment: Option<Txt>,
) -> Result<Option<Rule>, AllocError>
    requires { IsCommentOf (fixed_words_of definition.now) comment }
{
    let Some(token) = comment else {
        return Ok(None);
    };
    let words = fixed_words(alloc, definition)?;
    let lexis = Lexis::new(alloc, words.as_slice())?;
    let rule = Rule::new(lexis, token);
    Ok(Some(rule))
}

/// Reads the definition and accepts it, or returns the status with which the run ends.
fn language_of<F: Files>(alloc: Global, file: &str, files: &mut F) -> Result<Defined, u8> {
    let Ok(bytes) = files.read(alloc, file, MOST_BYTES) else {
        return Err(3);
    };
    let Ok(defined) = read_commented(alloc, bytes.as_slice()) else {
        return Err(6);
    };
    let comment = defined.comment;
    let Ok(rule) = rule_of(alloc, &defined.definition, comment) else {
        return Err(5);
    };
    match accept(alloc, defined.definition) {
        Ok(language) => Ok(Defined { language, rule }),
        Err(_) => Err(7),
    }
}

/// Returns the part of a name after its last slash.
fn base_of(name: &str) -> &str {
    let mut base = name;
    for part in name.split('/') {
        base = part;
    }
    base
}

/// Writes a line, and returns the status for a file that has no program.
fn told<O: Sink>(alloc: Global, file: &str, fault: NoProgram, out: &mut O) -> u8 {
    let line = match fault {
        NoProgram::Memory => return 5,
        NoProgram::Syntax(place, message) => {
            let line = place.line;
            let column = place.column;
            let text = message.as_str();
            format!(in alloc; "{file}:{line}:{column}: error: {text}\n")
        }
        NoProgram::Refused(refusal) => {
            let number = refusal.number();
            format!(in alloc; "{file}: refused {number}\n")
        }
    };
    match line {
        Ok(line) => match put_all(alloc, out, line.as_str().as_bytes()) {
            Ok(()) => 8,
            Err(_) => 4,
        },
        Err(_) => 5,
    }
}

/// Returns the kind of the name, if the language has it.
fn kind_in(language: &Language, name: &str) -> Option<Kind>
    ensures { IfSome result (HasKind language.now) }
{
    let definition = language.definition();
    match kind_named(definition, name) {
        Some(kind) => Some(kind),
        None => None,
    }
}

/// Reads the file of the program without its comments, if it is there.
fn bytes_of<F: Files>(
    alloc: Global,
    program: Option<&str>,
    files: &mut Keeping<F>,
) -> Option<Vec<u8>> {
    match program {
        Some(name) => match files.open(alloc, name, MOST_BYTES) {
            Ok(bytes) => Some(bytes),
            Err(_) => None,
        },
        None => None,
    }
}

/// Returns the name of the file, if there is one.
fn name_of(alloc: Global, program: Option<&str>) -> Result<Option<Txt>, AllocError> {
    match program {
        Some(name) => {
            let name = Txt::copy_of(alloc, name)?;
            Ok(Some(name))
        }
        None => Ok(None),
    }
}

/// Returns the editor of the program in the file, or of a new one, or the status with which the run ends.
fn opened<F: Files, O: Sink, L: Ledger>(
    alloc: Global,
    words: &Words,
    language: Language,
    files: &mut Keeping<F>,
    out: &mut O,
    steps: &mut Steps<L>,
) -> Result<Tui, u8> {
    let Some(kind) = kind_in(&language, words.kind) else {
        return Err(2);
    };
    let bytes = bytes_of(alloc, words.program, files);
    let session = match begin(alloc, language, kind, bytes, files, steps) {
        Ok(session) => session,
        Err(fault) => return Err(told(alloc, words.program.unwrap_or(""), fault, out)),
    };
    match tui_of(alloc, words, session, kind) {
        Ok(tui) => Ok(tui),
        Err(_) => Err(5),
    }
}

/// Returns the editor of the session.
fn tui_of(alloc: Global, words: &Words, session: Session, kind: Kind) -> Result<Tui, AllocError>
    requires { (tree : Fragment) × IsOpened (state_of session.editor) kind tree }
{
    let file = name_of(alloc, words.program)?;
    let title = String::from_str(alloc, base_of(words.file))?;
    let writes = words.writes;
    Tui::new(
        alloc, session, kind, title, file, writes, words.rows, words.cols,
    )
}

/// Runs the editor, and returns the status.
fn answer<F: Files + Drop, P: Pieces, O: Sink, L: Ledger>(
    alloc: Global,
    words: &[String],
    mut files: F,
    input: &mut P,
    out: &mut O,
    ledger: Blank,
) -> u8
    requires name { ledger.name ≡ L.name }
    requires parts { ledger.parts ≡ L.parts }
    requires some { 0 < L.parts }
{
    let Some(words) = words_of(words) else {
        return 2;
    };
    let defined = match language_of(alloc, words.file, &mut files) {
        Ok(defined) => defined,
        Err(status) => return status,
    };
    let mut files = Keeping::new(files, defined.rule);
    let mut steps = Steps::<L>::of(ledger);
    let mut tui = match opened(alloc, &words, defined.language, &mut files, out, &mut steps) {
        Ok(tui) => tui,
        Err(status) => return status,
    };
    match run(alloc, &mut tui, &mut files, input, out, &mut steps) {
        Ending::Done => 0,
        Ending::ReadFault => 3,
        Ending::WriteFault => 4,
        Ending::Memory => 5,
    }
}

fn main(rt: HostRuntime) -> ExitCode {
    let alloc = rt.alloc();
    let Ok(words) = env::args(&rt) else {
        return ExitCode::from(5);
    };
    let Ok(words) = words.skip(1).collect::<Vec<String>>(alloc) else {
        return ExitCode::from(5);
    };
    let files = HostFiles::new(alloc, &rt);
    let mut input = ReaderPieces::new(alloc, rt.reader());
    let mut out = HostSink::new(&rt);
    let status = answer::<_, _, _, Brand>(
        alloc,
        words.as_slice(),
        files,
        &mut input,
        &mut out,
        Blank::new(1),
    );
    ExitCode::from(status)
}
