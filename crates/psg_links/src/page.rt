//! A text that is read, with the links of its names.
ghost use Rattle.std.specs.Prelude.{ℕ, ◌≡◌, IfOk, List, MatchOption, None};
ghost use Rattle.psg_grammar.specs.declared.types.Kind.{Kind as PlainKind};
ghost use Rattle.psg_grammar.specs.Fragments.{Fragment};
ghost use Rattle.psg_grammar.specs.Kinds.{HasKind};
ghost use Rattle.psg_program.specs.Decoding.{unmarked};
ghost use Rattle.psg_program.specs.Programs.{IsProgram, IsProgramFault, IsReadFrom};
ghost use Rattle.psg_links.specs.Spots.{IsPage};

use crate::link::{Link, links_of};
use psg_grammar::Kind;
use psg_lexis::Spanned;
use psg_program::laws::one_answer;
use psg_program::{Program, ProgramFault, read_program};
use psg_ranges::{Ranges, ranges_of};
use psg_specimen::Language;
use psg_terms::Steps;
use psg_tree::Tree;
use std::alloc::{AllocError, Global};
use std::sync::ledger::Ledger;

/// A program that was read from a text, and the links of its names.
#[derive(Drop)]
pub struct Page {
    /// The tree.
    pub tree: Tree,
    /// The tokens of the text.
    pub tokens: Vec<Spanned>,
    /// Where its nodes are among the tokens.
    pub ranges: Ranges,
    /// The links of its names, in the order of the text.
    pub links: Vec<Link>,
}

/// Says that there is no page where the text is no program.
fn no_page(language: &Language, fault: &ProgramFault) -> Result<Option<Page>, AllocError>
    ensures none { IfOk result (λ page. page ≡ None) }
    ensures fault { IfOk result (λ page. (kind : PlainKind) (bytes : List ℕ) (f : Fragment)
        → IsProgramFault language.now kind bytes fault.now → IsProgram language.now kind bytes f → ⊥) }
{
    let definition = language.definition();
    one_answer(definition);
    match fault {
        ProgramFault::Syntax(_) => Ok(None),
        ProgramFault::Memory => Err(AllocError),
    }
}

/// Returns the page of the program.
fn page_of(
    alloc: Global,
    language: &Language,
    kind: Kind,
    program: Program,
) -> Result<Page, AllocError>
    ensures { IfOk result (λ page. (bytes : List ℕ) → IsProgram language.now kind bytes program.tree
        → IsReadFrom language.now kind (unmarked bytes) program → IsPage language.now kind bytes page) }
{
    let definition = language.definition();
    let ranges = ranges_of(
        alloc,
        definition,
        kind,
        &program.tree,
        program.tokens.as_slice(),
    )?;
    let links = links_of(alloc, definition, &program.tree)?;
    Ok(Page {
        tree: program.tree,
        tokens: program.tokens,
        ranges,
        links,
    })
}

impl Page {
    /// Reads the bytes as a program of the kind, and links its names. There is no page where the bytes are no program.
    /// It fails where memory runs out.
    ///
    /// It costs a reading of the text, a walk over the tree for its names and one over its regions; and for each name
    /// the declarations of the regions around it, from the innermost region on, until the name's key is met.
    pub fn of<L: Ledger>(
        alloc: Global,
        language: &Language,
        kind: Kind,
        bytes: &[u8],
        steps: &mut Steps<L>,
    ) -> Result<Option<Page>, AllocError>
        requires kind { HasKind language.now kind }
        ensures { IfOk result (λ page. MatchOption page
            ((f : Fragment) → IsProgram language.now kind bytes.now f → ⊥) (IsPage language.now kind bytes.now)) }
    {
        match read_program(alloc, language, kind, bytes, steps) {
            Ok(program) => {
                let page = page_of(alloc, language, kind, program)?;
                Ok(Some(page))
            }
            Err(fault) => {
                let none = no_page(language, &fault)?;
                Ok(none)
            }
        }
    }
}
