//! A line of text with its cursor.
ghost use Rattle.std.specs.Prelude.{◌≡◌, ◌++◌, ◌+◌, ◌≤◌, [], IfOk, OnErr, OnOk, is_some, length, min, take, drop};
ghost use Rattle.std.specs.Prelude.{unwrap_or};
ghost use Rattle.std.specs.List.{prefix_len};
ghost use Rattle.psg_keys.specs.Lines.{is_mark, left_of, right_of, to_left, to_right, without_left, without_right};
ghost use Rattle.psg_keys.specs.Lines.{with_char, with_pasted, is_break, is_control, line_after};

use crate::key::Key;
use std::alloc::{AllocError, Global};
use std::marker::Model;
use unicode_width::UnicodeWidthChar;

/// A line of text with its cursor.
#[derive(Drop)]
pub struct Line {
    text: Vec<char>,
    place: usize,
}

impl Model for Line {
    ghost use Rattle.std.specs.Prelude.{◌≤◌, length, take, drop};
    ghost use Rattle.psg_keys.specs.Lines.{Typed};

    ghost Value = { Typed };

    ghost view = { λ l. record { before = take l.place l.text.items; after = drop l.place l.text.items } };

    ghost invariant = { λ l. l.place ≤ length l.text.items };
}

impl Line {
    /// Makes an empty line. Takes no memory; `alloc` keeps what is typed later.
    pub fn new(alloc: Global) -> Line
        ensures before { result.before ≡ [] }
        ensures after { result.after ≡ [] }
    {
        Line {
            text: Vec::new(alloc),
            place: 0,
        }
    }

    /// Makes a line of these characters, with the cursor after the last one.
    pub fn of(text: Vec<char>) -> Line
        ensures before { result.before ≡ text.items }
        ensures after { result.after ≡ [] }
    {
        let place = text.len();
        Line { text, place }
    }

    /// Returns the characters of the line.
    pub fn chars(&self) -> &[char]
        ensures { result.now ≡ self.now.before ++ self.now.after }
    {
        self.text.as_slice()
    }

    /// Returns how many characters are before the cursor.
    pub fn place(&self) -> usize
        ensures { result ≡ length self.now.before }
    {
        self.place
    }

    /// Does what the key does to a line, and returns `true`; `false` where the key is none of a line's, which leaves
    /// the line as it is. Fails only when out of memory, and the line is then as before. Moves the characters after the
    /// cursor at most once.
    pub fn press(&mut self, key: Key) -> Result<bool, AllocError>
        ensures pressed { IfOk result (λ _. self.new ≡ unwrap_or (line_after self.old key) self.old) }
        ensures taken { IfOk result (λ taken. taken ≡ is_some (line_after self.old key)) }
        ensures memory { OnErr result (self.new ≡ self.old) }
    {
        match key {
            Key::Char(c) => self.insert(c)?,
            Key::Pasted(c) => self.paste(c)?,
            Key::Control('u') => self.remove_before(),
            Key::Left => self.go_left(),
            Key::Right => self.go_right(),
            Key::Home => self.go_home(),
            Key::End => self.go_end(),
            Key::Backspace => self.remove_left(),
            Key::Delete => self.remove_right(),
            _ => return Ok(false),
        }
        Ok(true)
    }

    fn insert(&mut self, c: char) -> Result<(), AllocError>
        ensures inserted { OnOk result (self.new ≡ with_char c self.old) }
        ensures memory { OnErr result (self.new ≡ self.old) }
    {
        self.text.insert(self.place, c)?;
        self.place += 1;
        Ok(())
    }

    fn paste(&mut self, c: char) -> Result<(), AllocError>
        ensures pasted { OnOk result (self.new ≡ with_pasted c self.old) }
        ensures memory { OnErr result (self.new ≡ self.old) }
    {
        if is_break(c) {
            self.insert(' ')
        } else if is_control(c) {
            Ok(())
        } else {
            self.insert(c)
        }
    }

    fn go_left(&mut self)
        ensures { self.new ≡ to_left self.old }
    {
        let place = left_of(self.before());
        self.place = place;
    }

    fn go_right(&mut self)
        ensures { self.new ≡ to_right self.old }
    {
        let place = self.right();
        self.place = place;
    }

    fn go_home(&mut self)
        ensures before { self.new.before ≡ [] }
        ensures after { self.new.after ≡ self.old.before ++ self.old.after }
    {
        self.place = 0;
    }

    fn go_end(&mut self)
        ensures before { self.new.before ≡ self.old.before ++ self.old.after }
        ensures after { self.new.after ≡ [] }
    {
        self.place = self.text.len();
    }

    fn remove_left(&mut self)
        ensures { self.new ≡ without_left self.old }
    {
        let from = left_of(self.before());
        let to = self.place;
        remove(&mut self.text, from, to);
        self.place = from;
    }

    fn remove_right(&mut self)
        ensures { self.new ≡ without_right self.old }
    {
        let to = self.right();
        let from = self.place;
        remove(&mut self.text, from, to);
    }

    fn remove_before(&mut self)
        ensures before { self.new.before ≡ [] }
        ensures after { self.new.after ≡ self.old.after }
    {
        let to = self.place;
        remove(&mut self.text, 0, to);
        self.place = 0;
    }

    fn before(&self) -> &[char]
        ensures { result.now ≡ self.now.before }
    {
        self.text.as_slice().split_at(self.place).0
    }

    /// Returns where the cursor is after a step to the right.
    fn right(&self) -> usize
        ensures { result ≡ length self.now.before + min (right_of self.now.after) (length self.now.after) }
    {
        let after = &self.text[self.place..];
        self.place + right_of(after).min(after.len())
    }
}

/// Removes the characters between two places.
fn remove(text: &mut Vec<char>, from: usize, to: usize)
    requires order { from ≤ to }
    requires within { to ≤ length text.old.items }
    ensures { text.new.items ≡ take from text.old.items ++ drop to text.old.items }
{
    let end = shift(text.as_mut_slice(), from, to);
    text.truncate(end);
}

/// Moves the characters from one place on to another one, and returns the place after them.
fn shift(text: &mut [char], from: usize, to: usize) -> usize
    requires order { from ≤ to }
    requires within { to ≤ length text.old }
    ensures within { result ≤ length text.old }
    ensures moved { take result text.new ≡ take from text.old ++ drop to text.old }
{
    let mut place = from;
    'moving: for source in to..text.len() {
        text[place] = text[source];
        place += 1;
    }
    place
}

/// Returns where the cursor is after a step to the left.
fn left_of(before: &[char]) -> usize
    ensures value { result ≡ left_of before.now }
    ensures within { result ≤ length before.now }
{
    let mut rest = before;
    'marks: while let Some((last, front)) = rest.split_last() {
        if !is_mark(*last) {
            return front.len();
        }
        rest = front;
    }
    0
}

/// Returns how many characters a step to the right passes, where there is one.
fn right_of(after: &[char]) -> usize
    ensures { result ≡ right_of after.now }
{
    match after.split_first() {
        Some((_, rest)) => marks(rest) + 1,
        None => 1,
    }
}

/// Returns how many marks the characters begin with.
fn marks(chars: &[char]) -> usize
    ensures value { result ≡ prefix_len is_mark chars.now }
    ensures within { result ≤ length chars.now }
{
    for place in 0..chars.len() {
        if !is_mark(chars[place]) {
            return place;
        }
    }
    chars.len()
}

/// Says whether the character has width 0, so that it is kept together with the one before it.
#[tactic(auto, unfolding(crate::specs::Lines::is_mark))]
fn is_mark(c: char) -> bool
    ensures { result ≡ is_mark c }
{
    c.width().unwrap_or(1) == 0
}

fn is_break(c: char) -> bool
    ensures { result ≡ is_break c }
{
    matches!(c, '\t' | '\n' | '\r')
}

fn is_control(c: char) -> bool
    ensures { result ≡ is_control c }
{
    matches!(c, '\0'..='\x1F' | '\x7F'..='\u{9F}')
}
