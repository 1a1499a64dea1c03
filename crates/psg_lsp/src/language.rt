//! The language that is served.
ghost use Rattle.std.specs.Prelude.{◌<◌, ◌^◌, IfOk, IfSome, length};
ghost use Rattle.psg_grammar.specs.Kinds.{HasKind};
ghost use Rattle.psg_specimen.specs.Languages.{IsDeclaringPhylum};
ghost use Rattle.psg_specimen.specs.Refusal.{Refuses};
ghost use Rattle.psg_lsp.specs.Serving.{IsServed};

use crate::ending::{Ending, read_ending};
use psg_defcomment::{FileFault, file_fault_text, read_commented};
use psg_grammar::{Kind, kind_named};
use psg_server::Defined;
use psg_specimen::{AcceptFault, Language, Refused, accept, accept_text};
use psg_world::Files;
use std::alloc::{AllocError, Global};

/// The most bytes of a definition.
const MOST_DEFINITION_BYTES: usize = 1_048_576;

/// What a file of a definition is: a language, or the line that says why it is refused.
#[derive(Drop)]
pub enum Read {
    /// The language of the definition, with the token of its comments.
    Served(Defined),
    /// Why the definition is refused, in words.
    Refused(String),
}

/// Returns the line as what was read.
fn told(line: Result<String, AllocError>) -> Result<Read, Ending>
    ensures { IfOk result IsServed }
{
    match line {
        Ok(line) => Ok(Read::Refused(line)),
        Err(_) => Err(Ending::Memory),
    }
}

/// Returns the line that says why the text is no definition.
fn fault_line(alloc: Global, fault: FileFault) -> Result<Read, Ending>
    ensures { IfOk result IsServed }
{
    if let FileFault::Memory = fault {
        return Err(Ending::Memory);
    }
    told(file_fault_text(alloc, &fault))
}

/// Returns the line that says why the definition is not accepted.
fn refused_line(alloc: Global, refused: &Refused) -> Result<Read, Ending>
    requires refuses { Refuses refused.now.definition refused.now.fault }
    ensures { IfOk result IsServed }
{
    if let AcceptFault::Memory = refused.fault {
        return Err(Ending::Memory);
    }
    told(accept_text(alloc, refused))
}

/// Returns what the text is.
fn language_of(alloc: Global, text: &[u8]) -> Result<Read, Ending>
    requires { length text.now < 2 ^ 32 }
    ensures { IfOk result IsServed }
{
    let file = match read_commented(alloc, text) {
        Ok(file) => file,
        Err(fault) => return fault_line(alloc, fault),
    };
    let comment = file.comment;
    match accept(alloc, file.definition) {
        Ok(language) => Ok(Read::Served(Defined { language, comment })),
        Err(refused) => refused_line(alloc, &refused),
    }
}

/// Reads the file of a definition.
pub fn read_language<F: Files>(alloc: Global, file: &str, files: &mut F) -> Result<Read, Ending>
    ensures { IfOk result IsServed }
{
    let bytes = match files.read(alloc, file, MOST_DEFINITION_BYTES) {
        Ok(bytes) => bytes,
        Err(stop) => return Err(read_ending(stop)),
    };
    let text = bytes.as_slice();
    if text.len() > MOST_DEFINITION_BYTES {
        return Err(Ending::TooLong);
    }
    language_of(alloc, text)
}

/// Returns the phylum or list of the name, if there is one and it is none that declares.
pub fn kind_of(language: &Language, name: &str) -> Option<Kind>
    ensures there { IfSome result (HasKind language.now) }
    ensures quiet { IfSome result (λ kind. IsDeclaringPhylum language.now kind → ⊥) }
{
    let kind = match kind_named(language.definition(), name) {
        Some(kind) => kind,
        None => return None,
    };
    if language.is_declaring(kind) {
        return None;
    }
    Some(kind)
}
