//! A prompt, and what keys make of it.
ghost use Rattle.std.specs.Prelude.{◌≡◌, ◌++◌, ◌==◌, ◌&&◌, false, IfOk, OnErr, OnOk, encode_utf8_all, length, reverse};
ghost use Rattle.std.specs.Prelude.{string_bytes, if◌then◌else◌};
ghost use Rattle.psg_keys.specs.Lines.{at_first_line, kept_after};
ghost use Rattle.psg_keys.specs.declared.key.Key.TheVariants as keys;
ghost use Rattle.psg_prompt.specs.Acts.{rub_from};
ghost use Rattle.psg_prompt.specs.declared.act.Act.TheVariants as acts;
ghost use Rattle.psg_prompt.specs.Prompts as prompts;
ghost use Rattle.psg_prompt.specs.Prompts.{after_key, after_keys, changed, completed, drawn_row, leaving};
ghost use Rattle.psg_prompt.specs.Prompts.{listed_words, pressed, pressed_times, remembered, told, told_end};
ghost use Rattle.psg_prompt.specs.Prompts.{told_key, told_keys, typed_all};

use crate::act::{Act, act_of, rub_count};
use crate::completing::Words;
use crate::row::{push_row, reversed};
use psg_keys::{Key, Lines, Stroke};
use std::alloc::{AllocError, Global};
use std::marker::Model;

/// A prompt at which lines are typed.
#[derive(Drop)]
pub struct Prompt {
    words: Words,
    lines: Lines,
    cols: u32,
    tabbed: bool,
    ended: bool,
}

impl Model for Prompt {
    ghost use Rattle.psg_prompt.specs.Prompts.{Prompted};

    ghost Value = { Prompted };

    ghost view = { λ p. record {
      words = p.words;
      lines = p.lines;
      cols = p.cols;
      tabbed = p.tabbed;
      ended = p.ended;
    } };
}

impl Prompt {
    /// Makes a prompt that completes these words, at a terminal of that many columns. No line was typed yet. Takes no
    /// memory; `alloc` keeps what is typed later.
    pub fn new(alloc: Global, words: Words, cols: u32) -> Prompt
        ensures words { result.words ≡ words }
        ensures lines { result.lines ≡ at_first_line }
        ensures cols { result.cols ≡ cols }
        ensures tabbed { result.tabbed ≡ false }
        ensures ended { result.ended ≡ false }
    {
        Prompt {
            words,
            lines: Lines::new(alloc),
            cols,
            tabbed: false,
            ended: false,
        }
    }

    /// Says whether the prompt is at its end.
    pub fn is_ended(&self) -> bool
        ensures { result ≡ self.now.ended }
    {
        self.ended
    }

    /// Takes the lines of a text as earlier lines, without its control characters. Fails only when out of memory.
    pub fn remember(&mut self, alloc: Global, text: &[char]) -> Result<(), AllocError>
        ensures { OnOk result (self.new ≡ prompts.with_lines self.old (remembered text.now self.old.lines)) }
    {
        remember_all(alloc, &mut self.lines, text)?;
        self.tabbed = false;
        Ok(())
    }

    /// Does what the keys do, the first one first, up to one that ends the prompt, and adds what is told of them. Fails
    /// only when out of memory; what was added then is told of the first keys, each of them whole.
    pub fn press_all(
        &mut self,
        alloc: Global,
        strokes: &[Stroke],
        out: &mut String,
    ) -> Result<(), AllocError>
        ensures pressed { OnOk result (self.new ≡ after_keys self.old strokes.now) }
        ensures told { OnOk result (string_bytes out.new ≡ string_bytes out.old ++ told_keys self.old strokes.now) }
        ensures memory { OnErr result (prompts.IsToldOfFirst self.old strokes.now (string_bytes out.old)
            (string_bytes out.new)) }
    {
        for number in 0..strokes.len() {
            self.press(alloc, &strokes[number], out)?;
        }
        Ok(())
    }

    /// Adds what is told after the keys: the row, and that keys are waited for.
    pub fn push_end(&self, alloc: Global, out: &mut String) -> Result<(), AllocError>
        ensures told { OnOk result (string_bytes out.new ≡ string_bytes out.old ++ told_end self.now) }
        ensures memory { OnErr result (string_bytes out.new ≡ string_bytes out.old) }
    {
        let mut text = String::new(alloc);
        if !self.ended {
            self.push_drawn_row(alloc, &mut text)?;
            text.push_str(".\n")?;
        }
        out.push_str(text.as_str())?;
        Ok(())
    }

    /// Does what the key does, and adds what is told of it.
    fn press(&mut self, alloc: Global, stroke: &Stroke, out: &mut String) -> Result<(), AllocError>
        ensures pressed { OnOk result (self.new ≡ after_key self.old stroke.now.key) }
        ensures told { OnOk result (string_bytes out.new
            ≡ string_bytes out.old ++ told_key self.old stroke.now.key) }
        ensures memory { OnErr result (prompts.IsToldOrNot (told_key self.old stroke.now.key) (string_bytes out.old)
            (string_bytes out.new)) }
    {
        if self.is_ended() {
            return Ok(());
        }
        let act = act_of(stroke.key());
        let text = self.told(alloc, act)?;
        out.push_str(text.as_str())?;
        self.change(alloc, act)?;
        Ok(())
    }

    /// Returns what is told of the act.
    fn told(&self, alloc: Global, act: Act) -> Result<String, AllocError>
        ensures { IfOk result (λ text. string_bytes text ≡ told self.now act) }
    {
        let mut text = String::new(alloc);
        match act {
            Act::Finish => self.push_finished(alloc, &mut text)?,
            Act::Forget => self.push_left(alloc, &mut text)?,
            Act::Clear => text.push_str(">\x1B[H\x1B[2J\n")?,
            Act::Complete => self.push_list(alloc, &mut text)?,
            _ => {}
        }
        Ok(text)
    }

    fn push_drawn_row(&self, alloc: Global, out: &mut String) -> Result<(), AllocError>
        ensures { OnOk result (string_bytes out.new ≡ string_bytes out.old ++ drawn_row self.now) }
    {
        out.push_str(">")?;
        push_row(alloc, self.cols, self.lines.line(), out)?;
        out.push_str("\n")?;
        Ok(())
    }

    fn push_finished(&self, alloc: Global, out: &mut String) -> Result<(), AllocError>
        ensures { OnOk result (string_bytes out.new ≡ string_bytes out.old ++ told self.now acts.Finish) }
    {
        self.push_drawn_row(alloc, out)?;
        out.push_str("=")?;
        push_all(out, self.lines.line().chars())?;
        out.push_str("\n")?;
        Ok(())
    }

    fn push_left(&self, alloc: Global, out: &mut String) -> Result<(), AllocError>
        ensures { OnOk result (string_bytes out.new ≡ string_bytes out.old ++ drawn_row self.now ++ leaving) }
    {
        self.push_drawn_row(alloc, out)?;
        out.push_str("-\n")?;
        Ok(())
    }

    /// Writes the words that are possible, where the last key was a Tab that typed nothing, and this one types nothing.
    #[tactic(auto, using(crate::proofs::PromptLaws::listed_so, crate::proofs::PromptLaws::not_listed))]
    fn push_list(&self, alloc: Global, out: &mut String) -> Result<(), AllocError>
        ensures { OnOk result (string_bytes out.new ≡ string_bytes out.old ++ listed_words self.now) }
    {
        let lists = self.lists(alloc)?;
        if lists {
            self.push_words(alloc, out)?;
            return Ok(());
        }
        Ok(())
    }

    /// Writes the words that are possible, below the row.
    fn push_words(&self, alloc: Global, out: &mut String) -> Result<(), AllocError>
        ensures { OnOk result (string_bytes out.new ≡ string_bytes out.old ++ prompts.words_listed self.now) }
    {
        self.push_left(alloc, out)?;
        out.push_str(">")?;
        self.words.push_listing(alloc, self.before(), out)?;
        out.push_str("\n-\n")?;
        Ok(())
    }

    /// Says whether a Tab lists the words now.
    fn lists(&self, alloc: Global) -> Result<bool, AllocError>
        ensures { IfOk result (λ lists. lists ≡ prompts.lists self.now) }
    {
        let text = self.words.completion(alloc, self.before())?;
        Ok(is_both(self.tabbed, text.len() == 0))
    }

    /// Returns the characters before the cursor.
    fn before(&self) -> &[char]
        ensures { result.now ≡ self.now.lines.line.before }
    {
        let line = self.lines.line();
        line.chars().split_at(line.place()).0
    }

    /// Does the act.
    fn change(&mut self, alloc: Global, act: Act) -> Result<(), AllocError>
        ensures { OnOk result (self.new ≡ changed self.old act) }
    {
        match act {
            Act::Complete => return self.complete(alloc),
            Act::End => return self.end_or_delete(alloc),
            Act::Resize(cols) => self.cols = cols,
            Act::Clear => {}
            Act::Finish => self.lines.keep(alloc)?,
            Act::Forget => self.lines.put(alloc, Vec::new(alloc)),
            Act::Cut => self.cut(alloc)?,
            Act::Rub => self.rub(alloc)?,
            Act::Edit(key) => {
                self.lines.press(alloc, key)?;
            }
        }
        self.tabbed = false;
        Ok(())
    }

    /// Ends the prompt where the line is empty, and removes the character after the cursor where it is not.
    fn end_or_delete(&mut self, alloc: Global) -> Result<(), AllocError>
        ensures { OnOk result (self.new ≡ changed self.old acts.End) }
    {
        self.tabbed = false;
        if self.lines.line().chars().len() == 0 {
            self.ended = true;
            return Ok(());
        }
        self.lines.press(alloc, Key::Delete)?;
        Ok(())
    }

    /// Removes what is after the cursor.
    fn cut(&mut self, alloc: Global) -> Result<(), AllocError>
        ensures { OnOk result (self.new ≡ record self.old {
          lines = pressed_times (length self.old.lines.line.after) keys.Delete self.old.lines;
        }) }
    {
        let line = self.lines.line();
        let count = line.chars().len() - line.place();
        press_times(alloc, &mut self.lines, Key::Delete, count)
    }

    /// Removes the last word before the cursor.
    fn rub(&mut self, alloc: Global) -> Result<(), AllocError>
        ensures { OnOk result (self.new ≡ record self.old {
          lines = pressed_times (rub_from false (reverse self.old.lines.line.before)) keys.Backspace self.old.lines;
        }) }
    {
        let back = reversed(alloc, self.before())?;
        let count = rub_count(back.as_slice());
        press_times(alloc, &mut self.lines, Key::Backspace, count)
    }

    /// Completes the word before the cursor.
    fn complete(&mut self, alloc: Global) -> Result<(), AllocError>
        ensures { OnOk result (self.new ≡ completed self.old) }
    {
        let text = self.words.completion(alloc, self.before())?;
        type_all(alloc, &mut self.lines, text.as_slice())?;
        self.tabbed = text.len() == 0;
        Ok(())
    }
}

fn is_both(one: bool, other: bool) -> bool
    ensures { result ≡ (one && other) }
{
    one && other
}

/// Writes the characters.
fn push_all(out: &mut String, chars: &[char]) -> Result<(), AllocError>
    ensures { OnOk result (string_bytes out.new ≡ string_bytes out.old ++ encode_utf8_all chars.now) }
{
    for c in chars {
        out.push(*c)?;
    }
    Ok(())
}

/// Takes the lines of a text as earlier lines.
fn remember_all(alloc: Global, lines: &mut Lines, text: &[char]) -> Result<(), AllocError>
    ensures { OnOk result (lines.new ≡ remembered text.now lines.old) }
{
    for c in text {
        remember_one(alloc, lines, *c)?;
    }
    lines.keep(alloc)
}

/// Takes one character of earlier lines.
fn remember_one(alloc: Global, lines: &mut Lines, c: char) -> Result<(), AllocError>
    ensures { OnOk result (lines.new
        ≡ (if c == 10 then kept_after lines.old else pressed lines.old (keys.Pasted c))) }
{
    if c == '\n' {
        return lines.keep(alloc);
    }
    lines.press(alloc, Key::Pasted(c))?;
    Ok(())
}

/// Presses the key so many times.
fn press_times(alloc: Global, lines: &mut Lines, key: Key, count: usize) -> Result<(), AllocError>
    ensures { OnOk result (lines.new ≡ pressed_times count key lines.old) }
{
    for _turn in 0..count {
        lines.press(alloc, key)?;
    }
    Ok(())
}

/// Types the characters.
fn type_all(alloc: Global, lines: &mut Lines, text: &[char]) -> Result<(), AllocError>
    ensures { OnOk result (lines.new ≡ typed_all text.now lines.old) }
{
    for c in text {
        lines.press(alloc, Key::Char(*c))?;
    }
    Ok(())
}
