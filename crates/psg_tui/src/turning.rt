//! What a key makes of the face that is no command.
ghost use Rattle.std.specs.Prelude.{◌≡◌, IfOk, List, None, OnErr, OnOk, Option, option_map, true, ℕ};
ghost use Rattle.psg_asking.specs.Asked.{IsToldOf, Read, menu_of, names_of, relation_of};
ghost use Rattle.psg_asking.specs.Told.{lines_told, names_told, words_told};
ghost use Rattle.psg_grammar.specs.Fragments.{Fragment};
ghost use Rattle.psg_keymap.specs.Faces.{of_parts};
ghost use Rattle.psg_keymap.specs.Spots as spots;
ghost use Rattle.psg_modes.specs.Pages.{key_lines};
ghost use Rattle.psg_modes.specs.Turning as turning;
ghost use Rattle.psg_modes.specs.Wrong as listed;
ghost use Rattle.psg_tui.specs.declared.editing.Aim.TheVariants as aims;
ghost use Rattle.psg_tui.specs.Editing.{IsAt, IsEditing, IsOfProgram, IsTried, IsUntouched, is_wrong};
ghost use Rattle.psg_tui.specs.Found as found;
ghost use Rattle.psg_tui.specs.Found.{GoesWrong, IsBlamedFound, IsLed, IsWrongFound, seen_of};
ghost use Rattle.psg_tui.specs.Pressing.{Browses, Chooses, Turns, TurnsIn, is_changed};
ghost use Rattle.psg_tui.specs.Pressing.{named_by, offered, related, with_face};
ghost use Rattle.psg_tui.specs.Views.{desk, face_of, outside};

use crate::editing::{Editing, note_of};
use crate::telling::{show_menu, show_rows, told_names};
use psg_asking::{menu_at, names_at, relation_at};
use psg_keymap::{Message, Mode, Repair, Spot, Why, copied, spot_for};
use psg_keys::{Key, Stroke};
use psg_modes::{
    begin_names, browse_key, choose_key, choose_path, is_forward, led, led_by_lines, name_key,
    next_of, page_key, paths_of, place_of, say, say_unknown, take_size, type_key, why_at,
};
use psg_terms::{Steps, Txt};
use psg_tree::{Path, Tree};
use psg_world::Files;
use std::alloc::{AllocError, Global};
use std::sync::ledger::Ledger;

impl Editing {
    /// Does what a key says that is no command.
    #[tactic(auto, using(crate::proofs::TurnLaws::program_same, crate::proofs::TurnLaws::program_face, crate::proofs::TurnLaws::untouched_same, crate::proofs::TurnLaws::untouched_face))]
    pub(crate) fn turn<F: Files, L: Ledger>(
        &mut self,
        alloc: Global,
        stroke: &Stroke,
        files: &mut F,
        steps: &mut Steps<L>,
    ) -> Result<(), AllocError>
        requires editing { IsEditing self.old }
        requires settled { self.old.aim ≡ aims.Settled }
        ensures turned { OnOk result ((tree : Fragment) → IsAt self.old tree
            → Turns self.old.session.language self.old.kind tree key_lines (desk self.old)
            (outside (F.holds files.old) (F.faults files.old)) (outside (F.holds files.new) (F.faults files.new))
            stroke.now stroke.now.key (desk self.new)) }
        ensures program { IsOfProgram self.old self.new }
        ensures aim { self.new.aim ≡ self.old.aim }
        ensures memory { OnErr result (IsUntouched self.old self.new × (F.holds files.new ≡ F.holds files.old)) }
    {
        match stroke.key() {
            Key::Size { rows, cols } => {
                take_size(&mut self.face, rows, cols);
                Ok(())
            }
            Key::Unknown => say_unknown(alloc, &mut self.face, stroke),
            _ => self.turn_mode(alloc, stroke, files, steps),
        }
    }

    /// Does what a key says in the mode of the face.
    #[tactic(auto, using(crate::proofs::TurnLaws::program_same, crate::proofs::TurnLaws::program_face, crate::proofs::TurnLaws::untouched_same, crate::proofs::TurnLaws::untouched_face))]
    fn turn_mode<F: Files, L: Ledger>(
        &mut self,
        alloc: Global,
        stroke: &Stroke,
        files: &mut F,
        steps: &mut Steps<L>,
    ) -> Result<(), AllocError>
        requires editing { IsEditing self.old }
        requires settled { self.old.aim ≡ aims.Settled }
        ensures turned { OnOk result ((tree : Fragment) → IsAt self.old tree
            → TurnsIn self.old.session.language self.old.kind tree key_lines self.old.face.mode (desk self.old)
            (outside (F.holds files.old) (F.faults files.old)) (outside (F.holds files.new) (F.faults files.new))
            stroke.now (desk self.new)) }
        ensures program { IsOfProgram self.old self.new }
        ensures aim { self.new.aim ≡ self.old.aim }
        ensures memory { OnErr result (IsUntouched self.old self.new × (F.holds files.new ≡ F.holds files.old)) }
    {
        let key = stroke.key();
        match self.face.mode {
            Mode::Browsing => self.browse(alloc, stroke, files, steps),
            Mode::Typing => type_key(alloc, &mut self.face, key),
            Mode::Choosing => self.pick(alloc, key, files, steps),
            Mode::Naming => {
                let definition = self.session.language().definition();
                name_key(alloc, definition, &mut self.face, key)
            }
            Mode::Saving => self.save_key(alloc, key, files),
            Mode::Replacing => self.replace_key(alloc, key, files),
            Mode::Paging => {
                page_key(alloc, &mut self.face, key);
                Ok(())
            }
            Mode::Leaving => self.leave_key(alloc, key, files),
        }
    }

    /// Does what a key says while a place is chosen.
    #[tactic(auto, using(crate::proofs::TurnLaws::program_same, crate::proofs::TurnLaws::program_face, crate::proofs::TurnLaws::untouched_same, crate::proofs::TurnLaws::untouched_face))]
    fn browse<F: Files, L: Ledger>(
        &mut self,
        alloc: Global,
        stroke: &Stroke,
        files: &mut F,
        steps: &mut Steps<L>,
    ) -> Result<(), AllocError>
        requires editing { IsEditing self.old }
        requires settled { self.old.aim ≡ aims.Settled }
        ensures browsed { OnOk result ((tree : Fragment) → IsAt self.old tree
            → Browses self.old.session.language self.old.kind tree key_lines (desk self.old)
            (outside (F.holds files.old) (F.faults files.old)) (outside (F.holds files.new) (F.faults files.new))
            stroke.now (desk self.new)) }
        ensures program { IsOfProgram self.old self.new }
        ensures aim { self.new.aim ≡ self.old.aim }
        ensures memory { OnErr result (IsUntouched self.old self.new × (F.holds files.new ≡ F.holds files.old)) }
    {
        match self.led(alloc, stroke.key())? {
            Some(path) => {
                choose_path(&mut self.face, path);
                Ok(())
            }
            None => self.browse_spot(alloc, stroke, files, steps),
        }
    }

    /// Returns the path to which an arrow, Tab or a key of pages leads.
    fn led(&self, alloc: Global, key: Key) -> Result<Option<Path>, AllocError>
        requires editing { IsEditing self.now }
        requires settled { self.now.aim ≡ aims.Settled }
        ensures { IfOk result (λ path. (tree : Fragment) → IsAt self.now tree
            → IsLed self.now.session.language tree (face_of self.now.face) key path) }
    {
        match key {
            Key::PageDown => {
                let path = led_by_lines(alloc, &self.shown.printed, &self.face, true)?;
                Ok(Some(path))
            }
            Key::PageUp => {
                let path = led_by_lines(alloc, &self.shown.printed, &self.face, false)?;
                Ok(Some(path))
            }
            _ => {
                let note = note_of(&self.session);
                let path = led(alloc, note.tree(), &self.face.chosen, key)?;
                Ok(path)
            }
        }
    }

    /// Shows what may be put at a place, where the key asks for that: Enter at a placeholder, at a list, at whose end
    /// it is put, or at a `...`; `i` and `a` at an element of a list, before and after it. The key leads nowhere.
    #[tactic(auto, using(crate::proofs::TurnLaws::program_same, crate::proofs::TurnLaws::program_face, crate::proofs::TurnLaws::untouched_same, crate::proofs::TurnLaws::untouched_face))]
    fn browse_spot<F: Files, L: Ledger>(
        &mut self,
        alloc: Global,
        stroke: &Stroke,
        files: &mut F,
        steps: &mut Steps<L>,
    ) -> Result<(), AllocError>
        requires editing { IsEditing self.old }
        requires settled { self.old.aim ≡ aims.Settled }
        ensures browsed { OnOk result ((tree : Fragment) → IsAt self.old tree
            → IsLed self.old.session.language tree (face_of self.old.face) stroke.now.key None
            → Browses self.old.session.language self.old.kind tree key_lines (desk self.old)
            (outside (F.holds files.old) (F.faults files.old)) (outside (F.holds files.new) (F.faults files.new))
            stroke.now (desk self.new)) }
        ensures program { IsOfProgram self.old self.new }
        ensures aim { self.new.aim ≡ self.old.aim }
        ensures memory { OnErr result (IsUntouched self.old self.new × (F.holds files.new ≡ F.holds files.old)) }
    {
        let note = note_of(&self.session);
        match spot_for(alloc, note.tree(), &self.face.chosen, stroke.key())? {
            Some(spot) => self.offer(alloc, spot, files, steps),
            None => self.browse_own(alloc, stroke, files, steps),
        }
    }

    /// Shows what may be put at the spot.
    #[tactic(auto, using(crate::proofs::EditingLaws::editing_known, crate::proofs::TurnLaws::aim_settled, crate::proofs::TurnLaws::program_known, crate::proofs::TurnLaws::program_after, crate::proofs::TurnLaws::untouched_known, crate::proofs::TurnLaws::untouched_after, crate::proofs::TurnLaws::aim_known))]
    fn offer<F: Files, L: Ledger>(
        &mut self,
        alloc: Global,
        spot: Spot,
        files: &mut F,
        steps: &mut Steps<L>,
    ) -> Result<(), AllocError>
        requires editing { IsEditing self.old }
        requires settled { self.old.aim ≡ aims.Settled }
        ensures offered { OnOk result ((tree : Fragment) → IsAt self.old tree
            → (told : Option Read) × IsToldOf self.old.session.language self.old.kind tree spot menu_of words_told told
            × (desk self.new ≡ with_face (desk self.old)
            (offered (face_of self.old.face) spot told))) }
        ensures program { IsOfProgram self.old self.new }
        ensures aim { self.new.aim ≡ self.old.aim }
        ensures memory { OnErr result (IsUntouched self.old self.new) }
        ensures files { (F.holds files.new ≡ F.holds files.old) × (F.faults files.new ≡ F.faults files.old) }
    {
        self.find_repair(alloc, steps)?;
        let told = menu_at(alloc, self.known(), &spot, files, steps)?;
        show_menu(alloc, &mut self.face, spot, told)?;
        Ok(())
    }

    /// Does what a key says that leads nowhere and asks for no operators.
    #[tactic(auto, using(crate::proofs::TurnLaws::program_same, crate::proofs::TurnLaws::program_face, crate::proofs::TurnLaws::untouched_same, crate::proofs::TurnLaws::untouched_face))]
    fn browse_own<F: Files, L: Ledger>(
        &mut self,
        alloc: Global,
        stroke: &Stroke,
        files: &mut F,
        steps: &mut Steps<L>,
    ) -> Result<(), AllocError>
        requires editing { IsEditing self.old }
        requires settled { self.old.aim ≡ aims.Settled }
        ensures browsed { OnOk result ((tree : Fragment) → IsAt self.old tree
            → IsLed self.old.session.language tree (face_of self.old.face) stroke.now.key None
            → spots.spot_for tree self.old.face.chosen stroke.now.key ≡ None
            → Browses self.old.session.language self.old.kind tree key_lines (desk self.old)
            (outside (F.holds files.old) (F.faults files.old)) (outside (F.holds files.new) (F.faults files.new))
            stroke.now (desk self.new)) }
        ensures program { IsOfProgram self.old self.new }
        ensures aim { self.new.aim ≡ self.old.aim }
        ensures memory { OnErr result (IsUntouched self.old self.new × (F.holds files.new ≡ F.holds files.old)) }
    {
        let key = stroke.key();
        let wrong = is_wrong_key(key);
        if wrong {
            return self.go_wrong(alloc, key, steps);
        }
        let relation = is_letter('r', key);
        if relation {
            return self.show_relation(alloc, files, steps);
        }
        let writes = is_letter('w', key);
        if writes {
            return self.write(alloc, files);
        }
        self.browse_other(alloc, stroke)
    }

    /// Does what a key says of the face alone.
    fn browse_other(&mut self, alloc: Global, stroke: &Stroke) -> Result<(), AllocError>
        requires editing { IsEditing self.old }
        requires settled { self.old.aim ≡ aims.Settled }
        ensures browsed { OnOk result ((tree : Fragment) → IsAt self.old tree → face_of self.new.face
            ≡ turning.browsed self.old.session.language tree (is_changed self.old.session.language tree (desk self.old))
            key_lines (face_of self.old.face) stroke.now.key stroke.now.bytes) }
        ensures left { self.new ≡ record self.old { face = self.new.face } }
        ensures memory { OnErr result (face_of self.new.face ≡ face_of self.old.face) }
    {
        let changed = self.is_changed();
        let tree = note_of(&self.session).tree();
        browse_key(
            alloc,
            tree,
            &self.shown.printed,
            changed,
            &mut self.face,
            stroke,
        )?;
        Ok(())
    }

    /// Does a key while an operator is picked. One with names and literals begins at Enter.
    #[tactic(auto, using(crate::proofs::TurnLaws::program_same, crate::proofs::TurnLaws::program_face, crate::proofs::TurnLaws::untouched_same, crate::proofs::TurnLaws::untouched_face))]
    fn pick<F: Files, L: Ledger>(
        &mut self,
        alloc: Global,
        key: Key,
        files: &mut F,
        steps: &mut Steps<L>,
    ) -> Result<(), AllocError>
        requires editing { IsEditing self.old }
        requires settled { self.old.aim ≡ aims.Settled }
        ensures picked { OnOk result ((tree : Fragment) → IsAt self.old tree
            → Chooses self.old.session.language self.old.kind tree key_lines (face_of self.old.face) key
            (face_of self.new.face)) }
        ensures left { (self.new.file ≡ self.old.file) × (self.new.written ≡ self.old.written) }
        ensures program { IsOfProgram self.old self.new }
        ensures aim { self.new.aim ≡ self.old.aim }
        ensures memory { OnErr result (face_of self.new.face ≡ face_of self.old.face) }
        ensures files { (F.holds files.new ≡ F.holds files.old) × (F.faults files.new ≡ F.faults files.old) }
    {
        match key {
            // one without names and literals is a command
            Key::Enter => match self.face.picked(alloc)? {
                Some(op) => self.begin(alloc, op, files, steps),
                None => Ok(()),
            },
            _ => choose_key(alloc, &mut self.face, key),
        }
    }

    /// Begins the names and literals of an operator.
    #[tactic(auto, using(crate::proofs::EditingLaws::editing_known, crate::proofs::TurnLaws::aim_settled, crate::proofs::TurnLaws::program_known, crate::proofs::TurnLaws::program_after, crate::proofs::TurnLaws::untouched_known, crate::proofs::TurnLaws::untouched_after, crate::proofs::TurnLaws::aim_known))]
    fn begin<F: Files, L: Ledger>(
        &mut self,
        alloc: Global,
        op: Txt,
        files: &mut F,
        steps: &mut Steps<L>,
    ) -> Result<(), AllocError>
        requires editing { IsEditing self.old }
        requires settled { self.old.aim ≡ aims.Settled }
        ensures begun { OnOk result ((tree : Fragment) → IsAt self.old tree
            → (told : Option Read) × IsToldOf self.old.session.language self.old.kind tree
            (record { target = self.old.face.target; place = self.old.face.place }) (names_of op) (names_told tree) told
            × (face_of self.new.face ≡ turning.naming op (named_by told) (face_of self.old.face))) }
        ensures left { (self.new.file ≡ self.old.file) × (self.new.written ≡ self.old.written) }
        ensures program { IsOfProgram self.old self.new }
        ensures aim { self.new.aim ≡ self.old.aim }
        ensures memory { OnErr result (face_of self.new.face ≡ face_of self.old.face) }
        ensures files { (F.holds files.new ≡ F.holds files.old) × (F.faults files.new ≡ F.faults files.old) }
    {
        self.find_repair(alloc, steps)?;
        let target = copied(alloc, &self.face.target)?;
        let spot = Spot {
            target,
            place: self.face.place,
        };
        let name = op.share()?;
        let told = names_at(alloc, self.known(), &spot, name, files, steps)?;
        let names = told_names(alloc, told);
        begin_names(alloc, &mut self.face, op, names)?;
        Ok(())
    }

    /// Chooses the next wrong place, or the one before, and says what is wrong there.
    #[tactic(auto, using(crate::proofs::EditingLaws::editing_known, crate::proofs::TurnLaws::aim_settled, crate::proofs::TurnLaws::program_known, crate::proofs::TurnLaws::program_after, crate::proofs::TurnLaws::untouched_known, crate::proofs::TurnLaws::untouched_after, crate::proofs::TurnLaws::aim_known, crate::proofs::TurnLaws::program_same, crate::proofs::TurnLaws::program_face, crate::proofs::TurnLaws::untouched_same, crate::proofs::TurnLaws::untouched_face))]
    fn go_wrong<L: Ledger>(
        &mut self,
        alloc: Global,
        key: Key,
        steps: &mut Steps<L>,
    ) -> Result<(), AllocError>
        requires editing { IsEditing self.old }
        requires settled { self.old.aim ≡ aims.Settled }
        ensures gone { OnOk result ((tree : Fragment) → IsAt self.old tree
            → GoesWrong self.old.session.language tree (listed.is_forward key) (desk self.old) (desk self.new)) }
        ensures program { IsOfProgram self.old self.new }
        ensures aim { self.new.aim ≡ self.old.aim }
        ensures memory { OnErr result (IsUntouched self.old self.new) }
    {
        let wrong = self.shown.is_wrong();
        if !wrong {
            say(&mut self.face, Message::NothingWrong);
            return Ok(());
        }
        self.find_repair(alloc, steps)?;
        let forward = is_forward(key);
        match self.next_wrong(alloc, forward)? {
            Some((path, why)) => {
                choose_path(&mut self.face, path);
                say(&mut self.face, Message::Wrong(why));
                Ok(())
            }
            None => Ok(()),
        }
    }

    /// Returns the path of the next wrong place, and what is wrong there.
    fn next_wrong(&self, alloc: Global, forward: bool) -> Result<Option<(Path, Why)>, AllocError>
        requires editing { IsEditing self.now }
        requires settled { self.now.aim ≡ aims.Settled }
        requires tried { IsTried self.now.shown }
        requires wrong { is_wrong self.now.shown.culprits.items ≡ true }
        ensures { IfOk result (λ found. (tree : Fragment) → IsAt self.now tree
            → IsWrongFound self.now.session.language tree self.now.face.chosen forward (option_map seen_of found)) }
    {
        match &self.shown.repair {
            Some(repair) => {
                let tree = note_of(&self.session).tree();
                let found = next_blamed(alloc, tree, repair, &self.face.chosen, forward)?;
                Ok(found)
            }
            None => {
                let culprits = self.shown.culprits.as_slice();
                let found = next_culprit(alloc, culprits, &self.face.chosen, forward)?;
                Ok(found)
            }
        }
    }

    /// Shows what the chosen node can mean, on a page.
    #[tactic(auto, using(crate::proofs::EditingLaws::editing_known, crate::proofs::TurnLaws::aim_settled, crate::proofs::TurnLaws::program_known, crate::proofs::TurnLaws::program_after, crate::proofs::TurnLaws::untouched_known, crate::proofs::TurnLaws::untouched_after, crate::proofs::TurnLaws::aim_known))]
    fn show_relation<F: Files, L: Ledger>(
        &mut self,
        alloc: Global,
        files: &mut F,
        steps: &mut Steps<L>,
    ) -> Result<(), AllocError>
        requires editing { IsEditing self.old }
        requires settled { self.old.aim ≡ aims.Settled }
        ensures shown { OnOk result ((tree : Fragment) → IsAt self.old tree
            → (front : List (List ℕ)) × (told : Option Read)
            × IsToldOf self.old.session.language self.old.kind tree
            (record { target = self.old.face.chosen; place = None }) relation_of lines_told told
            × (desk self.new ≡ with_face (desk self.old)
            (related front (face_of self.old.face) told))) }
        ensures program { IsOfProgram self.old self.new }
        ensures aim { self.new.aim ≡ self.old.aim }
        ensures memory { OnErr result (IsUntouched self.old self.new) }
        ensures files { (F.holds files.new ≡ F.holds files.old) × (F.faults files.new ≡ F.faults files.old) }
    {
        self.find_repair(alloc, steps)?;
        let target = copied(alloc, &self.face.chosen)?;
        let spot = Spot {
            target,
            place: None,
        };
        let told = relation_at(alloc, self.known(), &spot, files, steps)?;
        let wrong = self.shown.is_wrong();
        show_rows(alloc, &mut self.face, wrong, told)?;
        Ok(())
    }
}

/// Says whether the key leads to a wrong place.
fn is_wrong_key(key: Key) -> bool
    ensures { result ≡ turning.is_wrong_key key }
{
    match key {
        Key::Char(c) => c == 'n' || c == 'N',
        _ => false,
    }
}

/// Says whether the key is this letter.
fn is_letter(letter: char, key: Key) -> bool
    ensures { result ≡ found.is_letter letter key }
{
    match key {
        Key::Char(c) => c == letter,
        _ => false,
    }
}

/// Returns the path of the next blamed place of the program, and what is wrong there.
fn next_blamed(
    alloc: Global,
    tree: &Tree,
    repair: &Repair,
    chosen: &Path,
    forward: bool,
) -> Result<Option<(Path, Why)>, AllocError>
    ensures { IfOk result (λ found. IsBlamedFound tree.now repair.now.places.items chosen.now forward
        (option_map seen_of found)) }
{
    let places = repair.places.as_slice();
    let paths = paths_of(alloc, places)?;
    match next_of(paths.as_slice(), chosen, forward) {
        Some(path) => match place_of(places, path) {
            Some(place) => {
                let why = why_at(alloc, tree, place)?;
                let path = copied(alloc, path)?;
                Ok(Some((path, why)))
            }
            None => unreachable!(),
        },
        None => Ok(None),
    }
}

/// Returns the path of the next culprit. Its parts do not fit with each other.
fn next_culprit(
    alloc: Global,
    culprits: &[Path],
    chosen: &Path,
    forward: bool,
) -> Result<Option<(Path, Why)>, AllocError>
    ensures { IfOk result (λ found. option_map seen_of found
        ≡ option_map (λ path. (path, of_parts)) (listed.next_of culprits.now chosen.now forward)) }
{
    match next_of(culprits, chosen, forward) {
        Some(path) => {
            let path = copied(alloc, path)?;
            Ok(Some((path, Why::Parts)))
        }
        None => Ok(None),
    }
}
