//! What is asked about the chosen place after a picture was written.
ghost use Rattle.std.specs.Prelude.{◌≡◌, IfSome};
ghost use Rattle.psg_grammar.specs.Kinds.{HasKind};
ghost use Rattle.psg_tui.specs.declared.editing.Aim.TheVariants as aims;
ghost use Rattle.psg_tui.specs.Editing.{IsAsBefore, IsEditing, IsKnownMore, IsTried};

use crate::editing::{Editing, note_of};
use crate::shown::Asked;
use crate::words::{IN_WRONG, message_text};
use psg_asking::{Done, menu_at, relation_at, tried};
use psg_grammar::{Definition, Kind};
use psg_keymap::{Message, Mode, Seen, Spot, command_of, copied, spot_at};
use psg_keys::Key;
use psg_program::{ProgramFault, read_program};
use psg_session::{Mark, Refusal, Reply};
use psg_terms::Steps;
use psg_tree::{Path, Shape, Tree, at, child_at};
use psg_world::Files;
use std::alloc::{AllocError, Global};
use std::sync::ledger::Ledger;

/// What is said where no program is asked.
const UNKNOWN: &str = "nothing is known of this place: n goes to a wrong one";

/// How many meanings are written in a line.
const MOST_MEANINGS: usize = 3;

impl Editing {
    /// Asks what the picture has no answer to yet: the blamed places of a wrong program; at the chosen place what its
    /// node can mean and what may be put there; while a text is typed, whether it reads. Returns whether something was
    /// asked, so that another picture is due. The program stays as it is.
    #[tactic(auto, using(crate::proofs::EditingLaws::editing_before, crate::proofs::EditingLaws::known_before, crate::proofs::EditingLaws::then_before))]
    pub fn wonder<F: Files, L: Ledger>(
        &mut self,
        alloc: Global,
        files: &mut F,
        steps: &mut Steps<L>,
    ) -> Result<bool, AllocError>
        requires { IsEditing self.old }
        ensures left { IsAsBefore self.old self.new }
        ensures files { (F.holds files.new ≡ F.holds files.old) × (F.faults files.new ≡ F.faults files.old) }
    {
        self.settle(alloc)?;
        if self.shown.asked.is_some() {
            return Ok(false);
        }
        match self.face.mode {
            Mode::Browsing => self.wonder_at(alloc, files, steps),
            Mode::Typing => self.wonder_line(alloc, files, steps),
            _ => Ok(false),
        }
    }

    /// Asks what the chosen place can mean, and what may be put there.
    #[tactic(auto, using(crate::proofs::EditingLaws::editing_known, crate::proofs::TurnLaws::aim_settled, crate::proofs::EditingLaws::known_then, crate::proofs::EditingLaws::with_asked))]
    fn wonder_at<F: Files, L: Ledger>(
        &mut self,
        alloc: Global,
        files: &mut F,
        steps: &mut Steps<L>,
    ) -> Result<bool, AllocError>
        requires editing { IsEditing self.old }
        requires settled { self.old.aim ≡ aims.Settled }
        ensures left { IsKnownMore self.old self.new }
        ensures files { (F.holds files.new ≡ F.holds files.old) × (F.faults files.new ≡ F.faults files.old) }
    {
        self.find_repair(alloc, steps)?;
        let meaning = self.meaning(alloc, files, steps)?;
        let offers = self.offers(alloc, files, steps)?;
        self.shown.asked = Some(Asked { meaning, offers });
        Ok(true)
    }

    /// Asks what the line of text would be answered.
    #[tactic(auto, using(crate::proofs::EditingLaws::editing_known, crate::proofs::TurnLaws::aim_settled, crate::proofs::EditingLaws::known_then, crate::proofs::EditingLaws::with_asked))]
    fn wonder_line<F: Files, L: Ledger>(
        &mut self,
        alloc: Global,
        files: &mut F,
        steps: &mut Steps<L>,
    ) -> Result<bool, AllocError>
        requires editing { IsEditing self.old }
        requires settled { self.old.aim ≡ aims.Settled }
        ensures left { IsKnownMore self.old self.new }
        ensures files { (F.holds files.new ≡ F.holds files.old) × (F.faults files.new ≡ F.faults files.old) }
    {
        self.find_repair(alloc, steps)?;
        let meaning = self.would(alloc, files, steps)?;
        let offers = String::new(alloc);
        self.shown.asked = Some(Asked { meaning, offers });
        Ok(true)
    }

    /// Returns what the chosen node can mean.
    fn meaning<F: Files, L: Ledger>(
        &self,
        alloc: Global,
        files: &mut F,
        steps: &mut Steps<L>,
    ) -> Result<String, AllocError>
        requires editing { IsEditing self.now }
        requires settled { self.now.aim ≡ aims.Settled }
        requires tried { IsTried self.now.shown }
        ensures files { (F.holds files.new ≡ F.holds files.old) × (F.faults files.new ≡ F.faults files.old) }
    {
        let target = copied(alloc, &self.face.chosen)?;
        let spot = Spot {
            target,
            place: None,
        };
        match relation_at(alloc, self.known(), &spot, files, steps)? {
            Some(Ok(lines)) => meaning_text(alloc, lines.as_slice()),
            Some(Err(_)) => Ok(String::new(alloc)),
            None => String::from_str(alloc, UNKNOWN),
        }
    }

    /// Returns what may be put at the chosen place, if it is open.
    fn offers<F: Files, L: Ledger>(
        &self,
        alloc: Global,
        files: &mut F,
        steps: &mut Steps<L>,
    ) -> Result<String, AllocError>
        requires editing { IsEditing self.now }
        requires settled { self.now.aim ≡ aims.Settled }
        requires tried { IsTried self.now.shown }
        ensures files { (F.holds files.new ≡ F.holds files.old) × (F.faults files.new ≡ F.faults files.old) }
    {
        let tree = note_of(&self.session).tree();
        match spot_at(alloc, tree, &self.face.chosen)? {
            Some(spot) if is_open(tree, &self.face.chosen) => {
                match menu_at(alloc, self.known(), &spot, files, steps)? {
                    Some(Ok(offers)) => {
                        offers_text(alloc, offers.as_slice(), self.shown.is_wrong())
                    }
                    Some(Err(_)) => Ok(String::new(alloc)),
                    None => String::from_str(alloc, UNKNOWN),
                }
            }
            _ => Ok(String::new(alloc)),
        }
    }

    /// Returns what the line of text would be answered: that it reads and the mark, or where it does not read and why.
    fn would<F: Files, L: Ledger>(
        &self,
        alloc: Global,
        files: &mut F,
        steps: &mut Steps<L>,
    ) -> Result<String, AllocError>
        requires editing { IsEditing self.now }
        requires settled { self.now.aim ≡ aims.Settled }
        requires tried { IsTried self.now.shown }
        ensures files { (F.holds files.new ≡ F.holds files.old) × (F.faults files.new ≡ F.faults files.old) }
    {
        if self.face.lines.line().chars().is_empty() {
            let words = "type the text of this place; Enter takes it, Escape goes back";
            return String::from_str(alloc, words);
        }
        let text = self.face.line_text(alloc)?;
        match self.fault_of(alloc, text.as_str(), steps)? {
            Some(words) => Ok(words),
            None => self.answer_of(alloc, files, steps),
        }
    }

    /// Returns where the text does not read as what is chosen, and why.
    fn fault_of<L: Ledger>(
        &self,
        alloc: Global,
        text: &str,
        steps: &mut Steps<L>,
    ) -> Result<Option<String>, AllocError>
        requires editing { IsEditing self.now }
    {
        let language = self.session.language();
        let tree = note_of(&self.session).tree();
        match typed_kind(language.definition(), tree, &self.face.chosen) {
            Some(kind) => match read_program(alloc, language, kind, text.as_bytes(), steps) {
                Ok(_) => Ok(None),
                Err(ProgramFault::Memory) => Err(AllocError),
                Err(ProgramFault::Syntax(fault)) => {
                    let words = fault_words(alloc, fault.place.column, fault.message.as_str())?;
                    Ok(Some(words))
                }
            },
            None => Ok(None),
        }
    }

    /// Returns what the plain editor would answer to the line of text.
    fn answer_of<F: Files, L: Ledger>(
        &self,
        alloc: Global,
        files: &mut F,
        steps: &mut Steps<L>,
    ) -> Result<String, AllocError>
        requires editing { IsEditing self.now }
        requires settled { self.now.aim ≡ aims.Settled }
        requires tried { IsTried self.now.shown }
        ensures files { (F.holds files.new ≡ F.holds files.old) × (F.faults files.new ≡ F.faults files.old) }
    {
        let known = self.known();
        let seen = Seen {
            language: self.session.language(),
            tree: known.program.note.tree(),
            printed: &self.shown.printed,
        };
        match command_of(alloc, seen, &self.face, Key::Enter)? {
            Some(due) => {
                let Done { reply, .. } = tried(alloc, known.program, &due.command, files, steps)?;
                reply_words(alloc, reply)
            }
            None => Ok(String::new(alloc)),
        }
    }
}

/// Returns the first meanings as a line.
fn meaning_text(alloc: Global, lines: &[String]) -> Result<String, AllocError> {
    let mut text = String::new(alloc);
    for number in 0..lines.len().min(MOST_MEANINGS) {
        text.push_str(if number == 0 { "value " } else { " or " })?;
        text.push_str(lines[number].as_str())?;
    }
    if lines.len() > MOST_MEANINGS {
        text.push_str(" or ..")?;
    }
    Ok(text)
}

/// Returns the operators that fit as a line.
fn offers_text(alloc: Global, offers: &[String], wrong: bool) -> Result<String, AllocError> {
    let mut text = String::from_str(alloc, "Enter:")?;
    if offers.is_empty() {
        text.push_str(" nothing fits")?;
    }
    for number in 0..offers.len() {
        text.push(' ')?;
        text.push_str(offers[number].as_str())?;
    }
    if wrong {
        write!(&mut text, "   ({IN_WRONG})")?;
    }
    Ok(text)
}

/// Says whether the path leads to a placeholder, or to no node.
fn is_open(tree: &Tree, path: &Path) -> bool {
    match at(tree, path) {
        Some(node) => matches!(node.shape(), Shape::Hole { .. }),
        None => true,
    }
}

/// Returns the kind of a list or of the elements of one.
fn list_kind(definition: &Definition, list: u32) -> Option<Kind> {
    match definition.lists.as_slice().get(list as usize) {
        Some(kind) => Some(Kind::Phylum(kind.element)),
        None => None,
    }
}

/// Returns the kind of the node.
fn node_kind(definition: &Definition, node: &Tree) -> Option<Kind> {
    match node.shape() {
        Shape::Hole { phylum } => Some(Kind::Phylum(*phylum)),
        Shape::List { list, .. } => Some(Kind::List(*list)),
        Shape::Op { op, .. } => match definition.operators.as_slice().get(*op as usize) {
            Some(operator) => Some(Kind::Phylum(operator.phylum)),
            None => None,
        },
    }
}

/// Returns the kind of what is typed: that of the chosen node, or of an element at a `...`.
fn typed_kind(definition: &Definition, tree: &Tree, chosen: &Path) -> Option<Kind>
    ensures { IfSome result (HasKind definition.now) }
{
    let kind = match at(tree, chosen) {
        Some(node) => node_kind(definition, node),
        None => element_kind(definition, tree, chosen),
    };
    match kind {
        Some(kind) => kind_in(definition, kind),
        None => None,
    }
}

/// Returns the kind, if it is one of the definition.
fn kind_in(definition: &Definition, kind: Kind) -> Option<Kind>
    ensures { IfSome result (HasKind definition.now) }
{
    match kind {
        Kind::Phylum(number) => {
            if (number as usize) < definition.phyla.as_slice().len() {
                return Some(Kind::Phylum(number));
            }
            None
        }
        Kind::List(number) => {
            if (number as usize) < definition.lists.as_slice().len() {
                return Some(Kind::List(number));
            }
            None
        }
    }
}

/// Returns the kind of the elements of the list whose `...` is chosen.
fn element_kind(definition: &Definition, tree: &Tree, chosen: &Path) -> Option<Kind> {
    let (_, front) = chosen.steps().split_last()?;
    let mut node = tree;
    for step in front {
        node = child_at(node, *step)?;
    }
    match node.shape() {
        Shape::List { list, .. } => list_kind(definition, *list),
        _ => None,
    }
}

/// Returns where a text does not read, and why.
fn fault_words(alloc: Global, column: usize, message: &str) -> Result<String, AllocError> {
    format!(in alloc; "column {column}: {message}")
}

/// Returns what the reply to a text is in words.
fn reply_words(alloc: Global, reply: Reply) -> Result<String, AllocError> {
    let words = match reply {
        Reply::Marked(Mark::Good) => "reads: the program would be ok",
        Reply::Marked(Mark::Wrong(_)) => "reads: the program would be wrong",
        Reply::Refused(refusal) => return refused_words(alloc, refusal),
        _ => "reads",
    };
    String::from_str(alloc, words)
}

/// Returns what a refusal is in words.
fn refused_words(alloc: Global, refusal: Refusal) -> Result<String, AllocError> {
    message_text(alloc, &Message::Refused(refusal.number()))
}
