//! `psg_lsp DEF KIND`: a server of the Language Server Protocol on standard input and output, for the language of the
//! definition in the file DEF. Documents are programs of the phylum or list KIND.
#![tactic(auto)]

ghost use Rattle.std.specs.Prelude.{◌≡◌, ◌<◌};

mod ending;
mod language;
mod refusing;
mod talk;

use ending::Ending;
use language::{Read, kind_of, read_language};
use psg_terms::Steps;
use psg_world::{Files, HostFiles, HostSink, Pieces, ReaderPieces, Sink};
use refusing::refuse;
use std::alloc::Global;
use std::env;
use std::io::ErrorKind;
use std::marker::Brand;
use std::process::ExitCode;
use std::sync::ledger::{Blank, Ledger};
use talk::talk;

/// Serves the language of the definition until the input ends, or the client says so.
fn serve<F: Files, I: Pieces, O: Sink, L: Ledger>(
    alloc: Global,
    definition: &str,
    kind: &str,
    files: &mut F,
    input: &mut I,
    out: &mut O,
    ledger: Blank,
) -> Ending
    requires name { ledger.name ≡ L.name }
    requires parts { ledger.parts ≡ L.parts }
    requires some { 0 < L.parts }
{
    let defined = match read_language(alloc, definition, files) {
        Ok(Read::Served(defined)) => defined,
        Ok(Read::Refused(line)) => return refuse(alloc, line.as_str(), input, out),
        Err(ending) => return ending,
    };
    let kind = match kind_of(&defined.language, kind) {
        Some(kind) => kind,
        None => return Ending::Words,
    };
    let mut steps = Steps::<L>::of(ledger);
    talk(alloc, &defined, kind, input, out, &mut steps)
}

/// Does what the words after the program's name say: the file of a definition, and the name of a phylum or list of it.
fn answer<F: Files, I: Pieces, O: Sink, L: Ledger>(
    alloc: Global,
    words: &[String],
    files: &mut F,
    input: &mut I,
    out: &mut O,
    ledger: Blank,
) -> Ending
    requires name { ledger.name ≡ L.name }
    requires parts { ledger.parts ≡ L.parts }
    requires some { 0 < L.parts }
{
    match words {
        [definition, kind] => serve::<_, _, _, L>(
            alloc,
            definition.as_str(),
            kind.as_str(),
            files,
            input,
            out,
            ledger,
        ),
        _ => Ending::Words,
    }
}

fn main(rt: HostRuntime) -> ExitCode {
    let alloc = rt.alloc();
    let words = match env::args(&rt) {
        Ok(words) => words.skip(1).collect::<Vec<String>>(alloc),
        // a word that is no text is no word of the form
        Err(error) if error.kind() == ErrorKind::InvalidData => {
            return ExitCode::from(Ending::Words.code());
        }
        Err(_) => return ExitCode::from(Ending::Memory.code()),
    };
    let Ok(words) = words else {
        return ExitCode::from(Ending::Memory.code());
    };
    let mut files = HostFiles::new(alloc, &rt);
    let mut input = ReaderPieces::new(alloc, rt.reader());
    let mut out = HostSink::new(&rt);
    let ending = answer::<_, _, _, Brand>(
        alloc,
        words.as_slice(),
        &mut files,
        &mut input,
        &mut out,
        Blank::new(1),
    );
    ExitCode::from(ending.code())
}
