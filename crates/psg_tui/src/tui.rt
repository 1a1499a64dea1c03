//! An editor on the screen.
ghost use Rattle.std.specs.Prelude.{◌≡◌, IfOk, OnErr};
ghost use Rattle.psg_grammar.specs.Fragments.{Fragment};
ghost use Rattle.psg_modes.specs.Pages.{key_lines};
ghost use Rattle.psg_session.specs.Sessions.{state_of};
ghost use Rattle.psg_tui.specs.Editing.{IsAsBefore, IsAt, IsOfSame};
ghost use Rattle.psg_tui.specs.Pressing.{IsOpened, Presses};
ghost use Rattle.psg_tui.specs.Scrolled.{IsScrolled};
ghost use Rattle.psg_tui.specs.Showing.{Shows};
ghost use Rattle.psg_tui.specs.Views.{begun, desk_of, outside, said_no_memory, shown_face};

use crate::editing::{Aim, Editing, note_of};
use crate::picture::picture_of;
use crate::shown::shown_of;
use psg_canvas::Picture;
use psg_grammar::Kind;
use psg_keymap::{Face, Message};
use psg_keys::Stroke;
use psg_session::Session;
use psg_terms::{Steps, Txt};
use psg_world::Files;
use std::alloc::{AllocError, Global};
use std::marker::Model;
use std::sync::ledger::Ledger;

/// An editor on the screen: a session in which a program is opened, and a face.
pub struct Tui {
    editing: Editing,
}

// written out, so that it is proved once, and not again in each crate where such a value is let go
impl Drop for Tui {
    fn drop(self) {
        let Tui { editing } = self;
        let _ = editing;
    }
}

impl Model for Tui {
    ghost use Rattle.psg_tui.specs.declared.editing.Editing.{Editing as Kept};
    ghost use Rattle.psg_tui.specs.contracts.editing.Editing as kept_row;
    ghost use Rattle.psg_tui.specs.Editing.{IsEditing};

    ghost Value = { Kept };

    ghost coded = { kept_row.the_row.coded };

    ghost view = { λ t. t.editing };

    ghost invariant = { λ t. IsEditing t.editing };
}

impl Tui {
    /// Makes the editor of a session in which a program of the kind is opened. `title` is what the first line of the
    /// screen says of the language, and `file` the name of the file that has the program. `writes` says whether `w`
    /// writes files. It fails where memory runs out.
    pub fn new(
        alloc: Global,
        session: Session,
        kind: Kind,
        title: String,
        file: Option<Txt>,
        writes: bool,
        rows: u32,
        cols: u32,
    ) -> Result<Tui, AllocError>
        requires { (tree : Fragment) × IsOpened (state_of session.editor) kind tree }
        ensures session { IfOk result (λ t. (t.session ≡ session) × (t.kind ≡ kind)) }
        ensures begun { IfOk result (λ t. (tree : Fragment) → IsAt t tree
            → desk_of tree t ≡ begun session.language tree file writes rows cols) }
    {
        let note = note_of(&session);
        let shown = shown_of(alloc, session.language(), note)?;
        let face = Face::new(alloc, rows, cols)?;
        let written = shown.printed.text.share()?;
        let editing = Editing {
            session,
            kind,
            face,
            shown,
            title,
            file,
            written,
            writes,
            versions: 0,
            aim: Aim::Below,
        };
        let tui = Tui { editing };
        Ok(tui)
    }

    /// Says whether the editor is at its end.
    pub fn is_ended(&self) -> bool
        ensures { result ≡ self.now.face.ended }
    {
        self.editing.face.ended
    }

    /// Says that there was no memory for a key.
    pub fn say_no_memory(&mut self)
        ensures { self.new ≡ said_no_memory self.old }
    {
        self.editing.face.message = Message::NoMemory;
    }

    /// Does what the key says: at most one command of the session, from the table. Fails only when out of memory, and
    /// the session and the face are then as before.
    pub fn press<F: Files, L: Ledger>(
        &mut self,
        alloc: Global,
        stroke: &Stroke,
        files: &mut F,
        steps: &mut Steps<L>,
    ) -> Result<(), AllocError>
        ensures pressed { IfOk result (λ _. (old new : Fragment) × IsAt self.old old × IsAt self.new new
            × Presses self.old.session.language self.old.kind key_lines (desk_of old self.old) (desk_of new self.new)
            (state_of self.old.session.editor) (state_of self.new.session.editor) old new stroke.now
            (outside (F.holds files.old) (F.faults files.old)) (outside (F.holds files.new) (F.faults files.new))) }
        ensures same { IsOfSame self.old self.new }
        ensures memory { OnErr result (IsAsBefore self.old self.new × (F.holds files.new ≡ F.holds files.old)) }
    {
        self.editing.press(alloc, stroke, files, steps)?;
        Ok(())
    }

    /// Asks what the picture has no answer to yet: the blamed places of a wrong program; at the chosen place what its
    /// node can mean and what may be put there; while a text is typed, whether it reads. Returns whether something was
    /// asked, so that another picture is due. The program stays as it is.
    pub fn wonder<F: Files, L: Ledger>(
        &mut self,
        alloc: Global,
        files: &mut F,
        steps: &mut Steps<L>,
    ) -> Result<bool, AllocError>
        ensures left { IsAsBefore self.old self.new }
        ensures files { (F.holds files.new ≡ F.holds files.old) × (F.faults files.new ≡ F.faults files.old) }
    {
        self.editing.wonder(alloc, files, steps)
    }

    /// Returns the picture of the program and the face.
    pub fn picture(&mut self, alloc: Global) -> Result<Picture, AllocError>
        ensures picture { IfOk result (λ p. (tree : Fragment) → IsAt self.old tree
            → Shows self.old.session.language tree (shown_face tree self.old.aim self.old.face)
            (shown_face tree self.new.aim self.new.face) p) }
        ensures left { IsScrolled self.old self.new }
    {
        self.editing.settle(alloc)?;
        let picture = picture_of(alloc, &mut self.editing)?;
        Ok(picture)
    }
}
