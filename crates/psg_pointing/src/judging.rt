//! What is known of a text that is to be a program.
ghost use Rattle.std.specs.Prelude.{ℕ, ◌≡◌, IfNone, IfOk, IfSome, IsUtf8, List, option_copied, true};
ghost use Rattle.psg_asking.specs.Asked.{IsKnown};
ghost use Rattle.psg_cache.specs.Annotated.{tree_in};
ghost use Rattle.psg_cache.specs.Completed.{IsByCompletions};
ghost use Rattle.psg_cache.specs.Notes.{IsFormed, IsNoteFault, IsNoteOf};
ghost use Rattle.psg_grammar.specs.declared.types.Definition.{Definition as PlainDefinition};
ghost use Rattle.psg_grammar.specs.declared.types.Kind.{Kind as PlainKind};
ghost use Rattle.psg_grammar.specs.Fragments.{Fragment};
ghost use Rattle.psg_grammar.specs.Kinds.{HasKind};
ghost use Rattle.psg_grammar.specs.WellFormed.{WellFormed};
ghost use Rattle.psg_keymap.specs.Repairs.{IsAnswer, is_out};
ghost use Rattle.psg_program.specs.Decoding.{unmarked};
ghost use Rattle.psg_program.specs.Programs.{IsProgram, IsProgramFault, IsProgramText, IsReadFrom};
ghost use Rattle.psg_pointing.specs.Judging.{IsJudgement, IsKnownOf, IsLimited, IsNoProgram};
ghost use Rattle.psg_pointing.specs.Judging.{is_memory as is_memory_of};

use psg_asking::{Known, Program as Asked};
use psg_cache::{Note, NoteFault, build};
use psg_grammar::Kind;
use psg_keymap::{Repair, repair_of};
use psg_lexis::Spanned;
use psg_program::{Program, ProgramFault, read_program};
use psg_ranges::{Ranges, ranges_of};
use psg_specimen::Language;
use psg_terms::Steps;
use psg_tree::Tree;
use std::alloc::{AllocError, Global};
use std::sync::ledger::Ledger;

/// What is known of the text of a program.
#[derive(Drop)]
pub struct Judged {
    /// Its tokens.
    pub tokens: Vec<Spanned>,
    /// Where its nodes are among them.
    pub ranges: Ranges,
    /// Its tree, with what is known of it.
    pub note: Note,
    /// Whether it has no completion.
    pub wrong: bool,
    /// Its blamed places, where it is wrong and they are known.
    pub repair: Option<Repair>,
}

/// Returns the program that the text is, if it is one.
fn read<L: Ledger>(
    alloc: Global,
    language: &Language,
    kind: Kind,
    text: &[u8],
    steps: &mut Steps<L>,
) -> Result<Option<Program>, AllocError>
    requires { HasKind language.now kind }
    ensures program { IfOk result (λ o. IfSome o (λ p. IsProgram language.now kind text.now p.tree)) }
    ensures read { IfOk result (λ o. IfSome o (IsReadFrom language.now kind (unmarked text.now))) }
    ensures none { IfOk result (λ o. IfNone o (IsNoProgram language.now kind text.now)) }
{
    match read_program(alloc, language, kind, text, steps) {
        Ok(program) => Ok(Some(program)),
        Err(fault) => {
            check_read(fault)?;
            Ok(None)
        }
    }
}

/// Fails where memory ran out.
fn check_read(fault: ProgramFault) -> Result<(), AllocError>
    ensures { (def : PlainDefinition) (kind : PlainKind) (text : List ℕ) → IsProgramFault def kind text fault
        → IfOk result (λ _. IsNoProgram def kind text) }
{
    let memory = is_memory(&fault);
    drop(fault);
    if memory { Err(AllocError) } else { Ok(()) }
}

/// Says whether memory ran out.
fn is_memory(fault: &ProgramFault) -> bool
    ensures { result ≡ is_memory_of fault.now }
{
    match fault {
        ProgramFault::Syntax(_) => false,
        ProgramFault::Memory => true,
    }
}

/// Notes the tree of a program, unless it passes a limit.
fn noted<L: Ledger>(
    alloc: Global,
    language: &Language,
    tree: &Tree,
    steps: &mut Steps<L>,
) -> Result<Option<Note>, AllocError>
    requires { IsFormed language.now tree.now }
    ensures note { IfOk result (λ o. IfSome o (IsNoteOf language.now tree.now)) }
    ensures good { IfOk result (λ o. IfSome o (IsByCompletions language.now tree.now)) }
    ensures none { IfOk result (λ o. IfNone o (IsLimited language.now tree.now)) }
{
    let parts = language.parts();
    match build(alloc, &parts.definition, &parts.tables, tree, steps) {
        Ok(note) => Ok(Some(note)),
        Err(fault) => {
            check_noted(fault)?;
            Ok(None)
        }
    }
}

/// Fails where memory ran out.
fn check_noted(fault: NoteFault) -> Result<(), AllocError>
    ensures { (def : PlainDefinition) (tree : Fragment) → IsNoteFault def tree fault
        → IfOk result (λ _. IsLimited def tree) }
{
    let memory = is_out(&fault);
    drop(fault);
    if memory { Err(AllocError) } else { Ok(()) }
}

/// Says whether memory ran out.
fn is_out(fault: &NoteFault) -> bool
    ensures { result ≡ is_out fault.now }
{
    match fault {
        NoteFault::Deep => false,
        NoteFault::Big => false,
        NoteFault::Wide { .. } => false,
        NoteFault::Heavy => false,
        NoteFault::Memory => true,
    }
}

/// Finds the blamed places of the tree, if it is wrong.
fn repair_if<L: Ledger>(
    alloc: Global,
    language: &Language,
    wrong: bool,
    tree: &Tree,
    steps: &mut Steps<L>,
) -> Result<Option<Repair>, AllocError>
    requires { IsFormed language.now tree.now }
    ensures { IfOk result (λ repair. wrong ≡ true → IsAnswer language.now tree.now repair) }
{
    if wrong {
        let repair = repair_of(alloc, language, tree, steps)?;
        return Ok(repair);
    }
    Ok(None)
}

/// Returns what is known of a text that is to be a program of the kind. `None` where it is none, and where the program
/// passes a limit of the evaluator.
///
/// `steps` counts the tokens and the evaluations. It fails where memory runs out. It takes a reading of the text and an
/// evaluation of each node, and where the program is wrong the search for its blamed places.
pub fn judge<L: Ledger>(
    alloc: Global,
    language: &Language,
    kind: Kind,
    text: &[u8],
    steps: &mut Steps<L>,
) -> Result<Option<Judged>, AllocError>
    requires { HasKind language.now kind }
    ensures { IfOk result (IsJudgement language.now kind text.now) }
{
    let found = read(alloc, language, kind, text, steps)?;
    match found {
        Some(program) => {
            let judged = judged_of(alloc, language, kind, program, steps)?;
            Ok(judged)
        }
        None => Ok(None),
    }
}

/// Returns what is known of the text that was read as the program. `None` where the program passes a limit of the
/// evaluator.
///
/// `steps` counts the evaluations. It fails where memory runs out. It takes an evaluation of each node, and where the
/// program is wrong the search for its blamed places.
pub fn judged_of<L: Ledger>(
    alloc: Global,
    language: &Language,
    kind: Kind,
    program: Program,
    steps: &mut Steps<L>,
) -> Result<Option<Judged>, AllocError>
    requires { WellFormed language.now program.tree kind }
    ensures known { IfOk result (λ o. (own : List ℕ) → IsUtf8 own → IsProgramText language.now kind own program.tree
        → IsReadFrom language.now kind own program → IsKnownOf language.now kind own o) }
    ensures same { IfOk result (λ o. IfSome o (λ j. (tree_in j.note ≡ program.tree) × (j.tokens ≡ program.tokens))) }
{
    let Program { tree, tokens } = program;
    let found = noted(alloc, language, &tree, steps)?;
    match found {
        Some(note) => {
            let good = note.is_good();
            let wrong = !good;
            let repair = repair_if(alloc, language, wrong, &tree, steps)?;
            let definition = language.definition();
            let ranges = ranges_of(alloc, definition, kind, &tree, tokens.as_slice())?;
            Ok(Some(Judged {
                tokens,
                ranges,
                note,
                wrong,
                repair,
            }))
        }
        None => Ok(None),
    }
}

impl Judged {
    /// Returns the program as it is asked.
    pub fn known<'a>(&'a self, language: &'a Language, kind: Kind) -> Known<'a>
        requires { IsKnown language.now kind self.now.note self.now.wrong self.now.repair }
        ensures known { IsKnown result.program.language.now result.program.kind result.program.note.now result.wrong
            (option_copied result.repair) }
        ensures language { result.program.language.now ≡ language.now }
        ensures kind { result.program.kind ≡ kind }
        ensures note { result.program.note.now ≡ self.now.note }
    {
        let program = Asked {
            language,
            kind,
            note: &self.note,
        };
        Known {
            program,
            wrong: self.wrong,
            repair: self.repair.as_ref(),
        }
    }
}
