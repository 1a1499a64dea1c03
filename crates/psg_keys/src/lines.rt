//! A line of text with the lines that were typed before it.
ghost use Rattle.std.specs.Prelude.{◌≡◌, ◌==◌, ◌+◌, ◌-◌, ◌≤◌, IfOk, OnErr, OnOk, is_some, length, map, unwrap_or};
ghost use Rattle.std.specs.Prelude.{nat_lt, slice_index_or, if◌then◌else◌};
ghost use Rattle.psg_keys.specs.Lines.{lines_after, with_shown, with_kept, with_put, kept_after, at_first_line};

use crate::key::Key;
use crate::line::Line;
use std::alloc::{AllocError, Global};
use std::marker::Model;

/// A line of text with the lines that were typed before it. Up and Down show the earlier ones, which can be changed
/// like the new one; the earlier one itself stays as it was, and Down goes back to the new one.
#[derive(Drop)]
pub struct Lines {
    line: Line,
    earlier: Vec<Vec<char>>,
    shown: usize,
    draft: Vec<char>,
}

impl Model for Lines {
    ghost use Rattle.std.specs.Prelude.{◌≤◌, length, map};
    ghost use Rattle.psg_keys.specs.Lines.{TypedLines};

    ghost Value = { TypedLines };

    ghost view = { λ l. record {
      line = l.line;
      earlier = map (λ text. text.items) l.earlier.items;
      shown = l.shown;
      draft = l.draft.items;
    } };

    ghost invariant = { λ l. l.shown ≤ length l.earlier.items };
}

impl Lines {
    /// Makes an empty line, without lines before it. Takes no memory; `alloc` keeps what is typed later.
    pub fn new(alloc: Global) -> Lines
        ensures { result ≡ at_first_line }
    {
        Lines {
            line: Line::new(alloc),
            earlier: Vec::new(alloc),
            shown: 0,
            draft: Vec::new(alloc),
        }
    }

    /// Returns the line as it is now.
    pub fn line(&self) -> &Line
        ensures { result.now ≡ self.now.line }
    {
        &self.line
    }

    /// Does what the key does, and returns `true`; `false` where the key is none of a line's, which leaves all as it
    /// is. Up shows the earlier line before the one that is shown, and Down the one after it, each with the cursor at
    /// its end. Fails only when out of memory, and all is then as before.
    pub fn press(&mut self, alloc: Global, key: Key) -> Result<bool, AllocError>
        ensures pressed { IfOk result (λ _. self.new ≡ unwrap_or (lines_after self.old key) self.old) }
        ensures taken { IfOk result (λ taken. taken ≡ is_some (lines_after self.old key)) }
        ensures memory { OnErr result (self.new ≡ self.old) }
    {
        match key {
            Key::Up => {
                self.show_earlier(alloc)?;
                Ok(true)
            }
            Key::Down => {
                self.show_later(alloc)?;
                Ok(true)
            }
            _ => self.line.press(key),
        }
    }

    /// Keeps the line as the latest earlier one, unless it is empty, and begins a new one. Fails only when out of
    /// memory, and all is then as before. Copies the line.
    pub fn keep(&mut self, alloc: Global) -> Result<(), AllocError>
        ensures kept { OnOk result (self.new ≡ kept_after self.old) }
        ensures memory { OnErr result (self.new ≡ self.old) }
    {
        push_line(alloc, &mut self.earlier, self.line.chars())?;
        self.shown = self.earlier.len();
        self.line = Line::new(alloc);
        self.draft = Vec::new(alloc);
        Ok(())
    }

    /// Puts these characters in place of the line, with the cursor after the last one. The earlier lines stay. Takes no
    /// memory; `alloc` keeps what is typed later.
    pub fn put(&mut self, alloc: Global, text: Vec<char>)
        ensures { self.new ≡ with_put text.items self.old }
    {
        self.line = Line::of(text);
        self.shown = self.earlier.len();
        self.draft = Vec::new(alloc);
    }

    fn show_earlier(&mut self, alloc: Global) -> Result<(), AllocError>
        ensures shown { OnOk result (self.new
            ≡ (if self.old.shown == 0 then self.old else with_shown (self.old.shown - 1) self.old)) }
        ensures memory { OnErr result (self.new ≡ self.old) }
    {
        if self.shown == 0 {
            Ok(())
        } else {
            self.show(alloc, self.shown - 1)
        }
    }

    fn show_later(&mut self, alloc: Global) -> Result<(), AllocError>
        ensures shown { OnOk result (self.new ≡ (if nat_lt self.old.shown (length self.old.earlier)
            then with_shown (self.old.shown + 1) self.old else self.old)) }
        ensures memory { OnErr result (self.new ≡ self.old) }
    {
        if self.shown < self.earlier.len() {
            self.show(alloc, self.shown + 1)
        } else {
            Ok(())
        }
    }

    /// Shows the earlier line at the place, or the new one after the last of them.
    fn show(&mut self, alloc: Global, place: usize) -> Result<(), AllocError>
        requires within { place ≤ length self.old.earlier }
        ensures shown { OnOk result (self.new ≡ with_shown place self.old) }
        ensures memory { OnErr result (self.new ≡ self.old) }
    {
        let draft = draft_of(
            alloc,
            &self.earlier,
            self.shown,
            &self.draft,
            self.line.chars(),
        )?;
        let text = text_at(alloc, &self.earlier, place, &draft)?;
        self.line = Line::of(text);
        self.shown = place;
        self.draft = draft;
        Ok(())
    }
}

/// Returns the new line: the line that is shown, or the one that was kept while an earlier one is shown.
fn draft_of(
    alloc: Global,
    earlier: &[Vec<char>],
    shown: usize,
    draft: &[char],
    line: &[char],
) -> Result<Vec<char>, AllocError>
    ensures { IfOk result (λ text. text.items
        ≡ (if nat_lt shown (length earlier.now) then draft.now else line.now)) }
{
    Ok(Vec::from_slice(alloc, if shown < earlier.len() { draft } else { line })?)
}

/// Returns the earlier line at the place, or the new one after the last of them.
fn text_at(
    alloc: Global,
    earlier: &[Vec<char>],
    place: usize,
    draft: &[char],
) -> Result<Vec<char>, AllocError>
    ensures { IfOk result (λ text. text.items
        ≡ slice_index_or (map (λ line. line.items) earlier.now) place draft.now) }
{
    match earlier.get(place) {
        Some(text) => Ok(Vec::from_slice(alloc, text.as_slice())?),
        None => Ok(Vec::from_slice(alloc, draft)?),
    }
}

/// Adds a copy of the line at the end, unless it is empty.
fn push_line(alloc: Global, earlier: &mut Vec<Vec<char>>, line: &[char]) -> Result<(), AllocError>
    ensures kept { OnOk result (map (λ text. text.items) earlier.new.items
        ≡ with_kept (map (λ text. text.items) earlier.old.items) line.now) }
    ensures memory { OnErr result (earlier.new.items ≡ earlier.old.items) }
{
    if !line.is_empty() {
        let text = Vec::from_slice(alloc, line)?;
        earlier.push(text)?;
    }
    Ok(())
}
