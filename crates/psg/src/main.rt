//! `psg`: an editor for a small language, from the language's definition.
#![tactic(auto)]

ghost use Rattle.std.specs.Prelude.{◌≡◌, ◌<◌};

use psg_run::{Status, run};
use psg_terms::Steps;
use psg_world::{Files, HostFiles, HostSink, Input, ReaderInput, Sink, WriteStop, put_all};
use std::alloc::Global;
use std::env;
use std::io::ErrorKind;
use std::marker::Brand;
use std::process::ExitCode;
use std::sync::ledger::{Blank, Ledger};

/// What `--help` writes.
const HELP: &str = "psg: editors of small languages, from their definitions

  psg check DEF         says whether the file DEF has the definition of a language: accepted, or the first line
                        with a fault and the number of the fault, or the first condition of the grammar that fails
  psg edit DEF SCRIPT   reads the definition of a language from the file DEF, and runs each line of the file
                        SCRIPT as a command of an editor of it; the replies go to standard output
  psg live DEF          does the same with the lines of standard input; each reply is written before the next line
                        is read; psg live --framed DEF writes before each reply a line with the number of its lines
  psg windows DEF SCRIPT   runs each line of the file SCRIPT for one of eight windows, each with a cursor of its own: a
                        digit from 0 to 7, a space and a command; each line of a reply has the digit in front
  psg gen N             plays a script that is made for the number N, from 1 to 1,000, on a language that the program
                        has, and writes five lines of the program that it builds: nodes, bytes, weight, menu, mark
  psg layout DEF SCRIPT LAY COLS   runs the script in silence, and writes the program then, arranged for COLS columns,
                        from 1 to 400, by the groups and breaks of the file LAY
  psg self SCRIPT OUT   runs the script in silence on the language of definitions, writes the definition that it builds to
                        the file OUT, and says what check says of it
  psg lint DEF KIND FILE   tells what is wrong in the program of the file FILE, of the kind KIND, each thing at its
                        line and column; where nothing is wrong, what is open
  psg format DEF KIND FILE   writes the program of the file FILE, which is of the kind KIND, as it is to be laid out, or
                        where it is no program; with --check at the end, in which line it is not laid out so
  psg explain DEF SCRIPT   runs the script in silence, and says why the program then has no completion: ok, or the first
                        node that goes wrong, its first step without rows, and why each pair of rows makes none
  psg --help            writes this text
  psg --version         writes the version

By the launcher ./psg alone:
  ./psg tui DEF KIND FILE   shows the program of the file on the whole screen, with keys that change it
  ./psg codes           writes what the numbers and names of replies mean; ./psg codes 12 those of one, with an example
  ./psg commands        writes the commands with their replies and refusals
  ./psg help WORD       writes what is known of a word: a form, a command, a number or a name
  ./psg check --warn DEF   says also what is accepted and likely a slip
  ./psg check --all DEF    says the first fault of each line
  ./psg test DEF FILE.. plays the examples of the files on the definition
  ./psg lsp DEF KIND    serves an editor by the Language Server Protocol
  ./psg lint DEF KIND FILE --json   writes what lint tells as JSON
  ./psg format DEF KIND FILE --write   writes the file itself as it is to be laid out
  ./psg sample DEF KIND N SEED   writes N random programs of the kind that are right; with --wrong in front of DEF, each
                        with one place that is wrong
  ./psg grammar DEF     writes a TextMate grammar for an editor's colours; with --vim in front of DEF a syntax file
                        of Vim
  ./psg tree DEF KIND FILE   writes the tree of a program file as JSON
  ./psg --explain WORDS..   says on standard error, in words, what is refused; without the word where that is a terminal
  ./psg --build         proves the program and builds it
  ./psg --compile       compiles it, the editor on the screen and the server without proofs

Commands of a script, one a line; a path is / or /0/1, or . for the node that was changed last:
  new KIND              a new program: a placeholder of the phylum, or an empty list
  refine PATH OP ARGS   the operator, with its names and literals, in place of the placeholder
  insert PATH K OP ARGS the operator as a new element of the list, before place K
  cut PATH              a placeholder, or an empty list, in place of the node
  remove PATH K         the list without the element
  close PATH, reopen PATH   the list finished; unfinished again
  over PATH TEXT        the program that the text spells, in place of the node
  range START END TEXT  the text in place of bytes of the program's text, from START on and before END
  undo, redo            the version before the last change; the one after it
  save NAME PATH        keeps the tree at the path under the name
  paste PATH NAME       the saved tree in place of a placeholder or an empty list; paste PATH K NAME into a list
  keep NAME FILE        writes the saved tree of the name to the file
  fetch FILE            saves the tree that the file keeps, under the name in the file
  show                  the program, and then the mark: ok, or wrong with the paths of what goes wrong
  screen TOP LEFT ROWS COLS   a window of the program's text
  goto PATH             the node is where . is; its kind, its operator and its place in the text
  own PATH              what the node can mean: a line for each value, with its names' entities
  relation PATH         what the node can mean in the completions of the program
  menu PATH             the operators that may replace the placeholder; menu PATH K before place K of the list
  names PATH OP         the names of the program with which the operator may be there; names PATH K OP in a list
  free                  the names that may be declared outside

Exit status: 0 done, 1 the definition is refused, 2 these words have no form, 3 a file or standard input can't be
read, 4 the output can't be written, 5 out of memory, 6 a file is too long, 7 the layout is refused, 8 a line says what
is wrong with the program.
";

/// What `--version` writes.
const VERSION: &str = "psg 0.1.0\n";

/// Writes the text.
fn tell<O: Sink>(alloc: Global, out: &mut O, text: &str) -> Status {
    match put_all(alloc, out, text.as_bytes()) {
        Ok(()) => Status::Done,
        Err(WriteStop::Failed) => Status::WriteFault,
        Err(WriteStop::Memory) => Status::Memory,
    }
}

/// Does what the words after the program's name say.
fn answer<F: Files, I: Input, O: Sink, L: Ledger>(
    alloc: Global,
    words: &[String],
    files: &mut F,
    input: &mut I,
    out: &mut O,
    ledger: Blank,
) -> Status
    requires name { ledger.name ≡ L.name }
    requires parts { ledger.parts ≡ L.parts }
    requires some { 0 < L.parts }
{
    if let [word] = words {
        match word.as_str() {
            "--help" => return tell(alloc, out, HELP),
            "--version" => return tell(alloc, out, VERSION),
            _ => {}
        }
    }
    let mut steps = Steps::<L>::of(ledger);
    run(alloc, words, files, input, out, &mut steps)
}

fn main(rt: HostRuntime) -> ExitCode {
    let alloc = rt.alloc();
    let words = match env::args(&rt) {
        Ok(words) => words.skip(1).collect::<Vec<String>>(alloc),
        // a word that is no text is no word of a form
        Err(error) if error.kind() == ErrorKind::InvalidData => {
            return ExitCode::from(Status::Words.code());
        }
        Err(_) => return ExitCode::from(Status::Memory.code()),
    };
    let Ok(words) = words else {
        return ExitCode::from(Status::Memory.code());
    };
    let mut files = HostFiles::new(alloc, &rt);
    let mut input = ReaderInput::new(alloc, rt.reader());
    let mut out = HostSink::new(&rt);
    let status = answer::<_, _, _, Brand>(
        alloc,
        words.as_slice(),
        &mut files,
        &mut input,
        &mut out,
        Blank::new(1),
    );
    ExitCode::from(status.code())
}
