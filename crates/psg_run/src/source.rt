//! The files that a run reads, and the definition that bytes are.
ghost use Rattle.std.specs.Prelude.{ℕ, ◌≡◌, ◌<◌, ◌≤◌, ◌+◌, ◌^◌, List, Option, IfOk, IfErr, IfSome, length, vec_len};
ghost use Rattle.psg_specimen.specs.Refusal.{Refuses};
ghost use Rattle.psg_defread.specs.Reading.{Spells};
ghost use Rattle.psg_defcomment.specs.Plain.{plain_of};
ghost use Rattle.psg_defcomment.specs.Reading.{IsCommentOf, IsCommented, comment_of};
ghost use Rattle.psg_defcomment.specs.Refusals.{IsFileFault};
ghost use Rattle.psg_grammar.specs.WellFormed.{fixed_words};
ghost use Rattle.psg_grammar.specs.declared.types.Definition.{Definition as Plain};
ghost use Rattle.psg_run.specs.Endings.{read_status as read_status_of, write_status as write_status_of};
ghost use Rattle.psg_run.specs.Reading.{Defines, IsAccepted, Nowhere, OnDefinition, Reads, most_definition_bytes};
ghost use Rattle.psg_run.specs.Worlds.{Incoming, Puts, World, seen};
ghost use Rattle.psg_session.specs.Exchanges.{Outside};
ghost use Rattle.psg_session.specs.Replies.{feed};
ghost use Rattle.psg_world.specs.Files.{bytes_of};

use crate::limits::MOST_DEFINITION_BYTES;
use crate::status::Status;
use psg_defcomment::{FileFault, file_fault_text, read_commented};
use psg_specimen::{AcceptFault, Language, Refused, accept, accept_text};
use psg_terms::Txt;
use psg_world::{Files, ReadStop, Sink, WriteStop, put_all};
use std::alloc::Global;

/// Returns the status of a run at a read that stopped: a read fault, or out of memory.
pub fn read_status(stop: ReadStop) -> Status
    ensures { result ≡ read_status_of stop }
{
    match stop {
        ReadStop::Failed => Status::ReadFault,
        ReadStop::Memory => Status::Memory,
    }
}

/// Returns the status of a run at a write that stopped: a write fault, or out of memory.
pub fn write_status(stop: WriteStop) -> Status
    ensures { result ≡ write_status_of stop }
{
    match stop {
        WriteStop::Failed => Status::WriteFault,
        WriteStop::Memory => Status::Memory,
    }
}

/// Returns the bytes of the file, if they are at most that many. Otherwise it returns the status with which the run
/// ends.
pub fn read_within<F: Files>(
    alloc: Global,
    file: &str,
    limit: usize,
    files: &mut F,
) -> Result<Vec<u8>, Status>
    requires limit { limit + 1 < 2 ^ 64 }
    ensures bytes { IfOk result (λ bytes. IfSome (F.holds files.old) (λ held. bytes.items ≡ bytes_of held file.now)) }
    ensures short { IfOk result (λ bytes. length bytes.items ≤ limit) }
    ensures holds { IfOk result (λ _. F.holds files.new ≡ F.holds files.old) }
    ensures entries { IfOk result (λ _. F.faults files.new ≡ F.faults files.old) }
    // the run ends here, whatever it would go on with
    ensures err { IfErr result (λ status. (input : Incoming) (ticks : ℕ) (written : Option (List ℕ)) (count : ℕ)
        → Reads file.now limit (λ _. Nowhere) (seen (F.holds files.old) (F.faults files.old) input ticks written count)
        (seen (F.holds files.new) (F.faults files.new) input ticks written count) status) }
{
    let bytes = match files.read(alloc, file, limit) {
        Ok(bytes) => bytes,
        Err(stop) => return Err(read_status(stop)),
    };
    let text = bytes.as_slice();
    if text.len() > limit {
        return Err(Status::TooLong);
    }
    Ok(bytes)
}

/// Puts the line with its line feed, and returns `done` where it was put whole.
pub fn put_line<O: Sink>(alloc: Global, out: &mut O, line: &str, done: Status) -> Status
    ensures { (files : Outside) (input : Incoming) (ticks : ℕ) → Puts (feed line.now) done
        (seen files.held files.entries input ticks (O.written out.old) (O.faults out.old))
        (seen files.held files.entries input ticks (O.written out.new) (O.faults out.new)) result }
{
    let Ok(text) = format!(in alloc; "{line}\n") else {
        return Status::Memory;
    };
    match put_all(alloc, out, text.as_bytes()) {
        Ok(()) => done,
        Err(stop) => write_status(stop),
    }
}

/// A language, and the token of the comments of its program files, if there is one.
#[derive(Drop)]
pub struct Defined {
    /// The language.
    pub language: Language,
    /// The token that begins comments.
    pub comment: Option<Txt>,
}

/// Puts the line that says why the bytes are no definition.
fn end_fault<O: Sink>(alloc: Global, fault: FileFault, out: &mut O) -> Status
    ensures { (bytes : List ℕ) (files : Outside) (input : Incoming) (ticks : ℕ) → IsFileFault bytes fault
        → Defines bytes (λ _. Nowhere)
        (seen files.held files.entries input ticks (O.written out.old) (O.faults out.old))
        (seen files.held files.entries input ticks (O.written out.new) (O.faults out.new)) result }
{
    if let FileFault::Memory = fault {
        return Status::Memory;
    }
    let Ok(line) = file_fault_text(alloc, &fault) else {
        return Status::Memory;
    };
    put_line(alloc, out, line.as_str(), Status::DefinitionRefused)
}

/// Puts the line that says why the definition is not accepted.
fn end_refused<O: Sink>(alloc: Global, refused: &Refused, out: &mut O) -> Status
    requires refuses { Refuses refused.now.definition refused.now.fault }
    ensures { (bytes : List ℕ) (files : Outside) (input : Incoming) (ticks : ℕ)
        → IsCommented bytes refused.now.definition
        → ((other : Plain) → Spells (plain_of bytes) other → other ≡ refused.now.definition)
        → Defines bytes (λ _. Nowhere)
        (seen files.held files.entries input ticks (O.written out.old) (O.faults out.old))
        (seen files.held files.entries input ticks (O.written out.new) (O.faults out.new)) result }
{
    if let AcceptFault::Memory = refused.fault {
        return Status::Memory;
    }
    let Ok(text) = accept_text(alloc, refused) else {
        return Status::Memory;
    };
    put_line(alloc, out, text.as_str(), Status::DefinitionRefused)
}

/// Returns the language of the definition that the text is, with the token of its comments, where it is one and is
/// accepted. Otherwise the line that says why it is refused is put, and the status says how that ended.
pub fn defined_of<O: Sink>(alloc: Global, text: &[u8], out: &mut O) -> Result<Defined, Status>
    requires { length text.now < 2 ^ 32 }
    ensures ok { IfOk result (λ d. IsAccepted text.now d.language) }
    ensures comment { IfOk result (λ d. d.comment ≡ comment_of text.now) }
    ensures fit { IfOk result (λ d. IsCommentOf (fixed_words d.language) d.comment) }
    ensures quiet { IfOk result (λ _. out.new ≡ out.old) }
    ensures err { IfErr result (λ status. (files : Outside) (input : Incoming) (ticks : ℕ)
        → Defines text.now (λ _. Nowhere)
        (seen files.held files.entries input ticks (O.written out.old) (O.faults out.old))
        (seen files.held files.entries input ticks (O.written out.new) (O.faults out.new)) status) }
{
    let file = match read_commented(alloc, text) {
        Ok(file) => file,
        Err(fault) => return Err(end_fault(alloc, fault, out)),
    };
    let comment = file.comment;
    match accept(alloc, file.definition) {
        Ok(language) => Ok(Defined { language, comment }),
        Err(refused) => Err(end_refused(alloc, &refused, out)),
    }
}

/// Returns the language of the definition that the text is, where it is one and is accepted. Otherwise the line that
/// says why it is refused is put, and the status says how that ended.
pub fn language_of<O: Sink>(alloc: Global, text: &[u8], out: &mut O) -> Result<Language, Status>
    requires { length text.now < 2 ^ 32 }
    ensures ok { IfOk result (λ l. IsAccepted text.now l) }
    ensures quiet { IfOk result (λ _. out.new ≡ out.old) }
    ensures err { IfErr result (λ status. (files : Outside) (input : Incoming) (ticks : ℕ)
        → Defines text.now (λ _. Nowhere)
        (seen files.held files.entries input ticks (O.written out.old) (O.faults out.old))
        (seen files.held files.entries input ticks (O.written out.new) (O.faults out.new)) status) }
{
    match defined_of(alloc, text, out) {
        Ok(defined) => Ok(defined.language),
        Err(status) => Err(status),
    }
}

/// Reads the file of a definition, and returns its language, with the token of its comments. The order of tests is that
/// the file is read, its length, whether its bytes are a definition, and whether it is accepted. Where it is not, the
/// status says how the run ends, and the line of the first fault is put.
pub fn read_defined<F: Files, O: Sink>(
    alloc: Global,
    file: &str,
    files: &mut F,
    out: &mut O,
) -> Result<Defined, Status>
    ensures ok { IfOk result (λ d. (bytes : List ℕ)
        × IfSome (F.holds files.old) (λ held. bytes ≡ bytes_of held file.now)
        × (length bytes ≤ most_definition_bytes) × IsAccepted bytes d.language × (d.comment ≡ comment_of bytes)) }
    ensures fit { IfOk result (λ d. IsCommentOf (fixed_words d.language) d.comment) }
    ensures holds { IfOk result (λ _. F.holds files.new ≡ F.holds files.old) }
    ensures entries { IfOk result (λ _. F.faults files.new ≡ F.faults files.old) }
    ensures quiet { IfOk result (λ _. out.new ≡ out.old) }
    // the run ends here, whatever it would go on with
    ensures err { IfErr result (λ status. (input : Incoming) (ticks : ℕ) → OnDefinition file.now (λ _. Nowhere)
        (seen (F.holds files.old) (F.faults files.old) input ticks (O.written out.old) (O.faults out.old))
        (seen (F.holds files.new) (F.faults files.new) input ticks (O.written out.new) (O.faults out.new)) status) }
{
    let bytes = read_within(alloc, file, MOST_DEFINITION_BYTES, files)?;
    let defined = defined_of(alloc, bytes.as_slice(), out)?;
    Ok(defined)
}

/// Reads the file of a definition, and returns its language. The order of tests is that the file is read, its length,
/// whether its bytes are a definition, and whether it is accepted. Where it is not, the status says how the run ends,
/// and the line of the first fault is put.
pub fn read_language<F: Files, O: Sink>(
    alloc: Global,
    file: &str,
    files: &mut F,
    out: &mut O,
) -> Result<Language, Status>
    ensures ok { IfOk result (λ l. (bytes : List ℕ)
        × IfSome (F.holds files.old) (λ held. bytes ≡ bytes_of held file.now)
        × (length bytes ≤ most_definition_bytes) × IsAccepted bytes l) }
    ensures holds { IfOk result (λ _. F.holds files.new ≡ F.holds files.old) }
    ensures entries { IfOk result (λ _. F.faults files.new ≡ F.faults files.old) }
    ensures quiet { IfOk result (λ _. out.new ≡ out.old) }
    // the run ends here, whatever it would go on with
    ensures err { IfErr result (λ status. (input : Incoming) (ticks : ℕ) → OnDefinition file.now (λ _. Nowhere)
        (seen (F.holds files.old) (F.faults files.old) input ticks (O.written out.old) (O.faults out.old))
        (seen (F.holds files.new) (F.faults files.new) input ticks (O.written out.new) (O.faults out.new)) status) }
{
    match read_defined(alloc, file, files, out) {
        Ok(defined) => Ok(defined.language),
        Err(status) => Err(status),
    }
}
