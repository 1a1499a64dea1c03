//! The program that a script builds, arranged by a layout.
ghost use Rattle.std.specs.Prelude.{ℕ, ◌≡◌, ◌<◌, ◌^◌, List, IfErr, IfOk, length, string_bytes};
ghost use Rattle.psg_grammar.specs.Sound.{IsSound};
ghost use Rattle.psg_grammar.specs.WellFormed.{WellFormed};
ghost use Rattle.psg_grammar.specs.declared.types.Definition.{Definition as Plain};
ghost use Rattle.psg_grammar.specs.declared.types.Kind.{Kind};
ghost use Rattle.psg_layout.specs.Arranged.{arranged_in};
ghost use Rattle.psg_layout.specs.Layouts.{IsLayoutFault};
ghost use Rattle.psg_run.specs.Arranging.{Arranges, ArrangesBy, IsReadLayout, ReadsLayout};
ghost use Rattle.psg_run.specs.Arranging.{arranged_text as arranged_text_of};
ghost use Rattle.psg_run.specs.Reading.{Nowhere};
ghost use Rattle.psg_run.specs.Scripts.{script_lines};
ghost use Rattle.psg_run.specs.Worlds.{Incoming, seen};
ghost use Rattle.psg_session.specs.Exchanges.{Outside};
ghost use Rattle.psg_session.specs.Replies.{feed};
ghost use Rattle.psg_session.specs.Sessions.{state_of};

use crate::limits::MOST_LAYOUT_BYTES;
use crate::silent::apply_all;
use crate::source::{put_line, read_within, write_status};
use crate::status::Status;
use psg_grammar::Definition;
use psg_layout::{Layout, LayoutFault, arranged_text, read_layout};
use psg_session::Session;
use psg_specimen::Language;
use psg_terms::Steps;
use psg_tree::Tree;
use psg_world::{Files, Sink, put_all};
use std::alloc::{AllocError, Global};
use std::sync::ledger::Ledger;

/// Puts the line that says why the bytes are no layout.
fn end_fault<O: Sink>(alloc: Global, fault: LayoutFault, out: &mut O) -> Status
    ensures { (def : Plain) (bytes : List ℕ) (files : Outside) (input : Incoming) (ticks : ℕ)
        → IsLayoutFault def bytes fault → ReadsLayout def bytes (λ _. Nowhere)
        (seen files.held files.entries input ticks (O.written out.old) (O.faults out.old))
        (seen files.held files.entries input ticks (O.written out.new) (O.faults out.new)) result }
{
    let LayoutFault::Line { line, code } = fault else {
        return Status::Memory;
    };
    let Ok(text) = format!(in alloc; "layout line {line} code {code}") else {
        return Status::Memory;
    };
    put_line(alloc, out, text.as_str(), Status::LayoutRefused)
}

/// Returns the layout that the bytes are, for the language's operators. If they are none, the line of the first fault
/// is put, and the status says how that ended.
fn layout_of<O: Sink>(
    alloc: Global,
    language: &Language,
    bytes: &[u8],
    out: &mut O,
) -> Result<Layout, Status>
    requires { length bytes.now < 2 ^ 32 }
    ensures ok { IfOk result (IsReadLayout language.now bytes.now) }
    ensures quiet { IfOk result (λ _. out.new ≡ out.old) }
    ensures err { IfErr result (λ status. (files : Outside) (input : Incoming) (ticks : ℕ)
        → ReadsLayout language.now bytes.now (λ _. Nowhere)
        (seen files.held files.entries input ticks (O.written out.old) (O.faults out.old))
        (seen files.held files.entries input ticks (O.written out.new) (O.faults out.new)) status) }
{
    match read_layout(alloc, language.definition(), bytes) {
        Ok(layout) => Ok(layout),
        Err(fault) => Err(end_fault(alloc, fault, out)),
    }
}

/// Writes the tree, arranged by the layout for that many columns, with a line feed.
fn tree_text(
    alloc: Global,
    definition: &Definition,
    tree: &Tree,
    layout: &Layout,
    columns: u32,
) -> Result<String, AllocError>
    requires sound { IsSound definition.now }
    requires formed { (kind : Kind) × WellFormed definition.now tree.now kind }
    ensures { IfOk result (λ text. string_bytes text
        ≡ feed (arranged_in definition.now layout.now columns tree.now).text) }
{
    let mut text = arranged_text(alloc, definition, layout, tree, columns)?;
    text.push_str("\n")?;
    Ok(text)
}

/// Writes the opened fragment, arranged by the layout for that many columns, with a line feed; the line `none`, if
/// nothing is opened.
fn arranged(
    alloc: Global,
    session: &Session,
    layout: &Layout,
    columns: u32,
) -> Result<String, AllocError>
    ensures { IfOk result (λ text. string_bytes text ≡ feed (arranged_text_of session.now.language layout.now columns
        (state_of session.now.editor).opened)) }
{
    match session.note() {
        Some(note) => {
            let definition = session.language().definition();
            let text = tree_text(alloc, definition, note.tree(), layout, columns)?;
            Ok(text)
        }
        None => {
            let text = String::from_str(alloc, "none\n")?;
            Ok(text)
        }
    }
}

/// Plays the script on a new session of the language, puts what is opened then, arranged by the layout, and returns how
/// that ended.
fn tell<F: Files, O: Sink, L: Ledger>(
    alloc: Global,
    language: Language,
    script: &[u8],
    layout: &Layout,
    columns: u32,
    files: &mut F,
    out: &mut O,
    steps: &mut Steps<L>,
) -> Status
    ensures { (input : Incoming) → Arranges language layout.now columns (script_lines script.now)
        (seen (F.holds files.old) (F.faults files.old) input steps.old (O.written out.old) (O.faults out.old))
        (seen (F.holds files.new) (F.faults files.new) input steps.new (O.written out.new) (O.faults out.new))
        result }
{
    let Ok(mut session) = Session::new(alloc, language) else {
        return Status::Memory;
    };
    if let Err(_) = apply_all(alloc, &mut session, script, files, steps) {
        return Status::Memory;
    }
    let Ok(text) = arranged(alloc, &session, layout, columns) else {
        return Status::Memory;
    };
    match put_all(alloc, out, text.as_bytes()) {
        Ok(()) => Status::Done,
        Err(stop) => write_status(stop),
    }
}

/// Reads the layout from its file, plays the script on a new session of the language, and puts what is opened then,
/// arranged for that many columns. The order of tests is: the layout is read, its length, its lines, then those of the
/// script.
pub fn arrange_by<F: Files, O: Sink, L: Ledger>(
    alloc: Global,
    language: Language,
    script: &[u8],
    rules: &str,
    columns: u32,
    files: &mut F,
    out: &mut O,
    steps: &mut Steps<L>,
) -> Status
    ensures { (input : Incoming) → ArrangesBy language rules.now columns (script_lines script.now)
        (seen (F.holds files.old) (F.faults files.old) input steps.old (O.written out.old) (O.faults out.old))
        (seen (F.holds files.new) (F.faults files.new) input steps.new (O.written out.new) (O.faults out.new))
        result }
{
    let bytes = match read_within(alloc, rules, MOST_LAYOUT_BYTES, files) {
        Ok(bytes) => bytes,
        Err(status) => return status,
    };
    let layout = match layout_of(alloc, &language, bytes.as_slice(), out) {
        Ok(layout) => layout,
        Err(refused) => return refused,
    };
    tell(alloc, language, script, &layout, columns, files, out, steps)
}
