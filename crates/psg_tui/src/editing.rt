//! What an editor on the screen keeps: the program, the face, and what is known of the program.
ghost use Rattle.std.specs.Prelude.{◌≡◌, ◌↔◌, IfOk, IsTrue, OnErr, OnOk, bytes_eq, not};
ghost use Rattle.std.specs.Option.{option_copied};
ghost use Rattle.psg_asking.specs.Asked.{IsKnown};
ghost use Rattle.psg_asking.specs.Programs.{IsProgram};
ghost use Rattle.psg_cache.specs.Annotated.{tree_in};
ghost use Rattle.psg_face.specs.Moves as moves;
ghost use Rattle.psg_face.specs.Opens as listed;
ghost use Rattle.psg_grammar.specs.declared.types.Kind.{Kind as PlainKind};
ghost use Rattle.psg_grammar.specs.Fragments.{Fragment};
ghost use Rattle.psg_session.specs.Formed.{IsFormedState};
ghost use Rattle.psg_session.specs.Sessions.{state_of};
ghost use Rattle.psg_tui.specs.declared.editing.Aim.TheVariants as aims;
ghost use Rattle.psg_tui.specs.Editing.{IsAsBefore, IsAt, IsEditing, IsKnownMore, IsShown, IsTried};
ghost use Rattle.psg_tui.specs.Pressing.{IsOpened};
ghost use Rattle.psg_tui.specs.Views.{face_of, settled};

use crate::shown::{Shown, find_in, shown_of};
use psg_asking::{Known, Program};
use psg_cache::Note;
use psg_face::{as_far, open_below};
use psg_grammar::Kind;
use psg_keymap::Face;
use psg_session::Session;
use psg_terms::{Steps, Txt};
use psg_tree::{Path, Tree};
use std::alloc::{AllocError, Global};
use std::sync::ledger::Ledger;

/// What an editor on the screen keeps: a session in which a program is opened, a face, and what is known of the
/// program.
#[derive(Drop)]
pub struct Editing {
    pub(crate) session: Session,
    pub(crate) kind: Kind,
    pub(crate) face: Face,
    pub(crate) shown: Shown,
    /// What the first line of the screen says of the language.
    pub(crate) title: String,
    /// The name of the file, where there is one.
    pub(crate) file: Option<Txt>,
    /// The text of the program that the file has, or that it began with.
    pub(crate) written: Txt,
    /// Whether `w` writes files.
    pub(crate) writes: bool,
    /// How many versions there are after the program that the editor began with. Undo does not go back further: before
    /// it is the empty program from which a file was read.
    pub(crate) versions: u64,
    pub(crate) aim: Aim,
}

/// What is chosen after a change of the program.
#[derive(Clone, Copy, PartialEq, Eq)]
pub enum Aim {
    /// The program is printed, and the chosen path leads somewhere.
    Settled,
    /// The chosen path, as far as it leads.
    Far,
    /// The first open place there, else the next one.
    Below,
    /// The same, and the line of text is kept as the latest earlier one.
    Typed,
}

/// Returns what is known of the program that is opened.
pub(crate) fn note_of(session: &Session) -> &Note
    requires { (kind : PlainKind) × (tree : Fragment) × IsOpened (state_of session.now.editor) kind tree }
    ensures { (kind : PlainKind) (tree : Fragment) → IsOpened (state_of session.now.editor) kind tree
        → (tree_in result.now ≡ tree) × IsProgram session.now.language kind result.now }
{
    match session.note() {
        Some(note) => note,
        None => unreachable!(),
    }
}

/// Shows that the program is a tree of its kind.
pub(crate) fn formed(session: &Session)
    ensures { IsFormedState session.now.language (state_of session.now.editor) }
{
    let _language = session.language();
}

/// Says whether the program is printed, and the chosen path leads somewhere.
fn is_settled(aim: Aim) -> bool
    ensures { IsTrue result ↔ (aim ≡ aims.Settled) }
{
    match aim {
        Aim::Settled => true,
        Aim::Far => false,
        Aim::Below => false,
        Aim::Typed => false,
    }
}

/// Returns the first open place at the path, as far as it leads, or below, else the next one.
fn place_below(alloc: Global, tree: &Tree, path: &Path) -> Result<Path, AllocError>
    ensures { IfOk result (λ led. led ≡ listed.open_below tree.now (moves.as_far tree.now path.now)) }
{
    let far = as_far(alloc, tree, path)?;
    let led = open_below(alloc, tree, &far)?;
    Ok(led)
}

/// Chooses a place of the program after a change of it.
fn choose(alloc: Global, tree: &Tree, aim: Aim, face: &mut Face) -> Result<(), AllocError>
    ensures chosen { OnOk result (face_of face.new ≡ settled tree.now aim (face_of face.old)) }
    ensures memory { OnErr result (face_of face.new ≡ face_of face.old) }
{
    match aim {
        Aim::Settled => Ok(()),
        Aim::Far => {
            let far = as_far(alloc, tree, &face.chosen)?;
            face.chosen = far;
            Ok(())
        }
        Aim::Below => {
            let place = place_below(alloc, tree, &face.chosen)?;
            face.chosen = place;
            Ok(())
        }
        Aim::Typed => {
            let place = place_below(alloc, tree, &face.chosen)?;
            face.lines.keep(alloc)?;
            face.chosen = place;
            Ok(())
        }
    }
}

/// Says whether the texts differ.
fn differs(text: &str, other: &str) -> bool
    ensures { result ≡ not (bytes_eq text.now other.now) }
{
    text != other
}

impl Editing {
    /// Says whether the file has another text than the program.
    pub(crate) fn is_changed(&self) -> bool
        ensures { result ≡ not (bytes_eq self.now.written self.now.shown.printed.text) }
    {
        differs(self.written.as_str(), self.shown.printed.text.as_str())
    }

    /// Prints the program and chooses a place of it, where it was changed since.
    pub(crate) fn settle(&mut self, alloc: Global) -> Result<(), AllocError>
        requires { IsEditing self.old }
        ensures settled { OnOk result (self.new.aim ≡ aims.Settled) }
        ensures left { IsAsBefore self.old self.new }
    {
        let settled = is_settled(self.aim);
        if settled {
            return Ok(());
        }
        let note = note_of(&self.session);
        let shown = shown_of(alloc, self.session.language(), note)?;
        choose(alloc, note.tree(), self.aim, &mut self.face)?;
        self.shown = shown;
        self.aim = Aim::Settled;
        Ok(())
    }

    /// Begins a key: what was asked about the chosen place is forgotten.
    pub(crate) fn begin_key(&mut self, alloc: Global) -> Result<(), AllocError>
        requires { IsEditing self.old }
        ensures settled { OnOk result (self.new.aim ≡ aims.Settled) }
        ensures left { IsAsBefore self.old self.new }
        ensures formed { IsFormedState self.old.session.language (state_of self.old.session.editor) }
    {
        formed(&self.session);
        self.settle(alloc)?;
        self.shown.asked = None;
        Ok(())
    }

    /// Looks for the blamed places of a wrong program, where that was not done yet.
    pub(crate) fn find_repair<L: Ledger>(
        &mut self,
        alloc: Global,
        steps: &mut Steps<L>,
    ) -> Result<(), AllocError>
        requires editing { IsEditing self.old }
        requires settled { self.old.aim ≡ aims.Settled }
        ensures tried { OnOk result (IsTried self.new.shown) }
        ensures left { IsKnownMore self.old self.new }
    {
        let note = note_of(&self.session);
        find_in(alloc, self.session.language(), note, &mut self.shown, steps)
    }

    /// Returns the program that is opened, with what is known of its wrong places.
    pub(crate) fn known(&self) -> Known<'_>
        requires editing { IsEditing self.now }
        requires settled { self.now.aim ≡ aims.Settled }
        requires tried { IsTried self.now.shown }
        ensures known { IsKnown result.program.language.now result.program.kind result.program.note.now result.wrong
            (option_copied result.repair) }
        ensures language { result.program.language.now ≡ self.now.session.language }
        ensures kind { result.program.kind ≡ self.now.kind }
        ensures tree { (tree : Fragment) → IsAt self.now tree → tree_in result.program.note.now ≡ tree }
    {
        let program = Program {
            language: self.session.language(),
            kind: self.kind,
            note: note_of(&self.session),
        };
        Known {
            program,
            wrong: self.shown.is_wrong(),
            repair: self.shown.repair.as_ref(),
        }
    }
}
