//! The file of the program.
ghost use Rattle.std.specs.Prelude.{◌≡◌, ◌↔◌, [], IfOk, IsTrue, OnErr, OnOk, false, true};
ghost use Rattle.psg_grammar.specs.Fragments.{Fragment};
ghost use Rattle.psg_keymap.specs.Faces.{typed_text};
ghost use Rattle.psg_keys.specs.declared.key.Key.TheVariants as keys;
ghost use Rattle.psg_modes.specs.Pages.{key_lines};
ghost use Rattle.psg_tui.specs.declared.editing.Aim.TheVariants as aims;
ghost use Rattle.psg_tui.specs.Editing.{IsAt, IsEditing, IsOfProgram, IsUntouched};
ghost use Rattle.psg_tui.specs.Pressing.{IsWritten, Leaves, Replaces, Saves, Writes};
ghost use Rattle.psg_tui.specs.Saving as saving;
ghost use Rattle.psg_tui.specs.Saving.{IsThere, taken};
ghost use Rattle.psg_tui.specs.Views.{desk, face_of, outside};

use crate::editing::{Editing, note_of};
use psg_keymap::{Message, Mode};
use psg_keys::Key;
use psg_modes::{say, type_key};
use psg_program::formatted;
use psg_terms::Txt;
use psg_world::{Files, ReadStop, WriteStop};
use std::alloc::{AllocError, Global};

impl Editing {
    /// Writes the program to its file, or asks for the name of one.
    pub(crate) fn write<F: Files>(&mut self, alloc: Global, files: &mut F) -> Result<(), AllocError>
        requires editing { IsEditing self.old }
        requires settled { self.old.aim ≡ aims.Settled }
        ensures written { OnOk result ((tree : Fragment) → IsAt self.old tree
            → Writes self.old.session.language self.old.kind tree key_lines (desk self.old)
            (outside (F.holds files.old) (F.faults files.old)) (outside (F.holds files.new) (F.faults files.new))
            (desk self.new)) }
        ensures program { IsOfProgram self.old self.new }
        ensures aim { self.new.aim ≡ self.old.aim }
        ensures memory { OnErr result (IsUntouched self.old self.new × (F.holds files.new ≡ F.holds files.old)) }
    {
        let writes = self.writes;
        if !writes {
            self.face.enter(alloc, Mode::Browsing);
            say(&mut self.face, Message::Unproved);
            return Ok(());
        }
        match &self.file {
            Some(file) => {
                let name = file.share()?;
                self.write_to(alloc, name, files)
            }
            None => {
                self.face.enter(alloc, Mode::Saving);
                Ok(())
            }
        }
    }

    /// Writes the program to the file: all of it or nothing.
    fn write_to<F: Files>(
        &mut self,
        alloc: Global,
        name: Txt,
        files: &mut F,
    ) -> Result<(), AllocError>
        requires editing { IsEditing self.old }
        requires settled { self.old.aim ≡ aims.Settled }
        ensures written { OnOk result ((tree : Fragment) → IsAt self.old tree
            → IsWritten self.old.session.language self.old.kind tree key_lines (desk self.old) name
            (outside (F.holds files.old) (F.faults files.old)) (outside (F.holds files.new) (F.faults files.new))
            (desk self.new)) }
        ensures program { IsOfProgram self.old self.new }
        ensures aim { self.new.aim ≡ self.old.aim }
        ensures memory { OnErr result (IsUntouched self.old self.new × (F.holds files.new ≡ F.holds files.old)) }
    {
        let definition = self.session.language().definition();
        let text = formatted(alloc, definition, note_of(&self.session).tree())?;
        let own = self.shown.printed.text.share()?;
        let bytes = text.as_str().as_bytes();
        let place = name.as_str();
        match files.replace(alloc, place, bytes) {
            Ok(()) => {
                self.take_written(alloc, name, own);
                Ok(())
            }
            Err(stop) => match stop {
                WriteStop::Failed => {
                    self.face.enter(alloc, Mode::Browsing);
                    say(&mut self.face, Message::NotWritten);
                    Ok(())
                }
                WriteStop::Memory => Err(AllocError),
            },
        }
    }

    /// Takes that the file has this text of the program.
    fn take_written(&mut self, alloc: Global, name: Txt, text: Txt)
        ensures written { desk self.new ≡ taken self.old name text }
        ensures program { IsOfProgram self.old self.new }
        ensures aim { self.new.aim ≡ self.old.aim }
    {
        self.written = text;
        self.file = Some(name);
        self.face.enter(alloc, Mode::Browsing);
        say(&mut self.face, Message::Written);
    }

    /// Does a key while the name of a file is typed. Where the file is there already, it is asked whether to write over
    /// it.
    pub(crate) fn save_key<F: Files>(
        &mut self,
        alloc: Global,
        key: Key,
        files: &mut F,
    ) -> Result<(), AllocError>
        requires editing { IsEditing self.old }
        requires settled { self.old.aim ≡ aims.Settled }
        ensures saved { OnOk result ((tree : Fragment) → IsAt self.old tree
            → Saves self.old.session.language self.old.kind tree key_lines (desk self.old)
            (outside (F.holds files.old) (F.faults files.old)) (outside (F.holds files.new) (F.faults files.new)) key
            (desk self.new)) }
        ensures program { IsOfProgram self.old self.new }
        ensures aim { self.new.aim ≡ self.old.aim }
        ensures memory { OnErr result (IsUntouched self.old self.new × (F.holds files.new ≡ F.holds files.old)) }
    {
        match key {
            Key::Enter => {
                let name = self.face.line_text(alloc)?;
                self.save(alloc, name, files)
            }
            _ => type_key(alloc, &mut self.face, key),
        }
    }

    /// Writes the program to the file whose name was typed; asks before it writes over one that is there.
    fn save<F: Files>(&mut self, alloc: Global, name: Txt, files: &mut F) -> Result<(), AllocError>
        requires editing { IsEditing self.old }
        requires settled { self.old.aim ≡ aims.Settled }
        requires typed { name ≡ typed_text (face_of self.old.face) }
        ensures saved { OnOk result ((tree : Fragment) → IsAt self.old tree
            → Saves self.old.session.language self.old.kind tree key_lines (desk self.old)
            (outside (F.holds files.old) (F.faults files.old)) (outside (F.holds files.new) (F.faults files.new))
            keys.Enter (desk self.new)) }
        ensures program { IsOfProgram self.old self.new }
        ensures aim { self.new.aim ≡ self.old.aim }
        ensures memory { OnErr result (IsUntouched self.old self.new × (F.holds files.new ≡ F.holds files.old)) }
    {
        let text = name.as_str();
        let empty = is_empty(text);
        if empty {
            self.face.enter(alloc, Mode::Browsing);
            return Ok(());
        }
        let there = is_there(alloc, text, files)?;
        if there {
            self.face.mode = Mode::Replacing;
            return Ok(());
        }
        self.write_to(alloc, name, files)
    }

    /// Writes the program to the file whose name was typed.
    fn write_over<F: Files>(&mut self, alloc: Global, files: &mut F) -> Result<(), AllocError>
        requires editing { IsEditing self.old }
        requires settled { self.old.aim ≡ aims.Settled }
        ensures written { OnOk result ((tree : Fragment) → IsAt self.old tree
            → IsWritten self.old.session.language self.old.kind tree key_lines (desk self.old)
            (typed_text (face_of self.old.face)) (outside (F.holds files.old) (F.faults files.old))
            (outside (F.holds files.new) (F.faults files.new)) (desk self.new)) }
        ensures program { IsOfProgram self.old self.new }
        ensures aim { self.new.aim ≡ self.old.aim }
        ensures memory { OnErr result (IsUntouched self.old self.new × (F.holds files.new ≡ F.holds files.old)) }
    {
        let name = self.face.line_text(alloc)?;
        self.write_to(alloc, name, files)
    }

    /// Writes over the file at `w`; any other key goes back.
    pub(crate) fn replace_key<F: Files>(
        &mut self,
        alloc: Global,
        key: Key,
        files: &mut F,
    ) -> Result<(), AllocError>
        requires editing { IsEditing self.old }
        requires settled { self.old.aim ≡ aims.Settled }
        ensures replaced { OnOk result ((tree : Fragment) → IsAt self.old tree
            → Replaces self.old.session.language self.old.kind tree key_lines (desk self.old)
            (outside (F.holds files.old) (F.faults files.old)) (outside (F.holds files.new) (F.faults files.new)) key
            (desk self.new)) }
        ensures program { IsOfProgram self.old self.new }
        ensures aim { self.new.aim ≡ self.old.aim }
        ensures memory { OnErr result (IsUntouched self.old self.new × (F.holds files.new ≡ F.holds files.old)) }
    {
        let writes = is_char(key, 'w');
        if writes {
            return self.write_over(alloc, files);
        }
        self.face.enter(alloc, Mode::Browsing);
        Ok(())
    }

    /// Ends at `q`, writes at `w`; any other key goes back.
    pub(crate) fn leave_key<F: Files>(
        &mut self,
        alloc: Global,
        key: Key,
        files: &mut F,
    ) -> Result<(), AllocError>
        requires editing { IsEditing self.old }
        requires settled { self.old.aim ≡ aims.Settled }
        ensures left { OnOk result ((tree : Fragment) → IsAt self.old tree
            → Leaves self.old.session.language self.old.kind tree key_lines (desk self.old)
            (outside (F.holds files.old) (F.faults files.old)) (outside (F.holds files.new) (F.faults files.new)) key
            (desk self.new)) }
        ensures program { IsOfProgram self.old self.new }
        ensures aim { self.new.aim ≡ self.old.aim }
        ensures memory { OnErr result (IsUntouched self.old self.new × (F.holds files.new ≡ F.holds files.old)) }
    {
        let ends = ends_at(key);
        if ends {
            self.face.ended = true;
            return Ok(());
        }
        let writes = is_char(key, 'w');
        if writes {
            return self.write(alloc, files);
        }
        self.face.enter(alloc, Mode::Browsing);
        Ok(())
    }
}

/// Says whether the key is this character.
fn is_char(key: Key, letter: char) -> bool
    ensures { result ≡ saving.is_char letter key }
{
    match key {
        Key::Char(c) => c == letter,
        _ => false,
    }
}

/// Says whether the key is Ctrl with this letter.
fn is_control(key: Key, letter: char) -> bool
    ensures { result ≡ saving.is_control letter key }
{
    match key {
        Key::Control(c) => c == letter,
        _ => false,
    }
}

/// Says whether the key ends the editor without writing.
fn ends_at(key: Key) -> bool
    ensures { result ≡ saving.ends_at key }
{
    is_char(key, 'q') || is_control(key, 'c')
}

/// Says whether a text has no bytes.
fn is_empty(text: &str) -> bool
    ensures { IsTrue result ↔ (text.now ≡ []) }
{
    text.is_empty()
}

/// Says whether the file is there and has bytes; one that can't be read counts as not there.
fn is_there<F: Files>(alloc: Global, name: &str, files: &mut F) -> Result<bool, AllocError>
    ensures there { IfOk result (λ there. IsThere (outside (F.holds files.old) (F.faults files.old))
        (outside (F.holds files.new) (F.faults files.new)) name.now there) }
    ensures holds { F.holds files.new ≡ F.holds files.old }
{
    match files.read(alloc, name, 0) {
        Ok(bytes) => {
            let full = has_some(bytes.as_slice());
            Ok(full)
        }
        Err(stop) => match stop {
            ReadStop::Failed => Ok(false),
            ReadStop::Memory => Err(AllocError),
        },
    }
}

/// Says whether there are bytes.
fn has_some(bytes: &[u8]) -> bool
    ensures some { result ≡ true → bytes.now ≡ [] → ⊥ }
    ensures none { result ≡ false → bytes.now ≡ [] }
{
    match bytes.first() {
        Some(_) => true,
        None => false,
    }
}
