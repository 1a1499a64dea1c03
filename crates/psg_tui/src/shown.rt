//! What is known of the version of the program that is opened.
ghost use Rattle.std.specs.Prelude.{◌≡◌, ◌&&◌, IfOk, OnOk, not};
ghost use Rattle.psg_cache.specs.Annotated.{tree_in};
ghost use Rattle.psg_cache.specs.Notes.{IsNoteOf};
ghost use Rattle.psg_tui.specs.Editing.{IsShown, IsTried, is_wrong as is_wrong_by};

use crate::colors::parts_of;
use psg_cache::Note;
use psg_keymap::{Repair, repair_of};
use psg_picture::Marks;
use psg_specimen::Language;
use psg_terms::Steps;
use psg_tree::Path;
use psg_unparse::{Printed, unparse};
use std::alloc::{AllocError, Global};
use std::sync::ledger::Ledger;

/// What was asked about the chosen place.
#[derive(Drop)]
pub struct Asked {
    /// What its node can mean, or what the line of text would be answered.
    pub(crate) meaning: String,
    /// What may be put there.
    pub(crate) offers: String,
}

/// What is known of the version of the program that is opened.
#[derive(Drop)]
pub struct Shown {
    pub(crate) printed: Printed,
    /// What is marked in the text.
    pub(crate) marks: Marks,
    /// The culprits; none in a program that has a completion.
    pub(crate) culprits: Vec<Path>,
    /// Whether the blamed places were looked for.
    pub(crate) tried: bool,
    pub(crate) repair: Option<Repair>,
    pub(crate) asked: Option<Asked>,
}

impl Shown {
    /// Says whether the program is wrong.
    pub(crate) fn is_wrong(&self) -> bool
        ensures { result ≡ is_wrong_by self.now.culprits.items }
    {
        let culprits = self.culprits.as_slice();
        culprits.len() != 0
    }

    /// Says whether the blamed places are still to be looked for.
    fn is_due(&self) -> bool
        ensures { result ≡ (not self.now.tried && is_wrong_by self.now.culprits.items) }
    {
        !self.tried && self.is_wrong()
    }
}

/// Prints the program and finds its culprits.
pub(crate) fn shown_of(alloc: Global, language: &Language, note: &Note) -> Result<Shown, AllocError>
    requires { IsNoteOf language.now (tree_in note.now) note.now }
    ensures { IfOk result (IsShown language.now (tree_in note.now)) }
{
    let printed = unparse(alloc, language.definition(), note.tree())?;
    let parts = parts_of(alloc, language.lexis(), printed.text.as_str())?;
    let culprits = note.culprits(alloc)?;
    let marks = Marks {
        parts,
        chosen: (0, 0),
        wrong: Vec::new(alloc),
    };
    Ok(Shown {
        printed,
        marks,
        culprits,
        tried: false,
        repair: None,
        asked: None,
    })
}

/// Looks for the blamed places of a wrong program, where that was not done yet.
pub(crate) fn find_in<L: Ledger>(
    alloc: Global,
    language: &Language,
    note: &Note,
    shown: &mut Shown,
    steps: &mut Steps<L>,
) -> Result<(), AllocError>
    requires noted { IsNoteOf language.now (tree_in note.now) note.now }
    requires shown { IsShown language.now (tree_in note.now) shown.old }
    ensures shown { IsShown language.now (tree_in note.now) shown.new }
    ensures tried { OnOk result (IsTried shown.new) }
{
    let due = shown.is_due();
    if due {
        let found = repair_of(alloc, language, note.tree(), steps)?;
        shown.repair = found;
        shown.tried = true;
        return Ok(());
    }
    Ok(())
}
