//! What a key is for a prompt.
ghost use Rattle.std.specs.Prelude.{◌≡◌, false};
ghost use Rattle.psg_keys.specs.Lines.{is_mark};
ghost use Rattle.psg_prompt.specs.Acts.{act_of, act_of_letter, rub_from};

use psg_keys::Key;
use unicode_width::UnicodeWidthChar;

/// What a key is for a prompt.
#[derive(Clone, Copy)]
pub enum Act {
    /// The key is one of the line.
    Edit(Key),
    /// What is after the cursor is removed.
    Cut,
    /// The last word before the cursor is removed.
    Rub,
    /// The line is finished.
    Finish,
    /// The line is dropped.
    Forget,
    /// The prompt ends where the line is empty; else the character after the cursor is removed.
    End,
    /// The screen is made empty.
    Clear,
    /// The word before the cursor is completed.
    Complete,
    /// The terminal has so many columns.
    Resize(u32),
}

/// Returns what the key is for a prompt.
pub(crate) fn act_of(key: Key) -> Act
    ensures { result ≡ act_of key }
{
    match key {
        Key::Enter => Act::Finish,
        Key::Tab => Act::Complete,
        Key::Control(letter) => act_of_letter(letter),
        Key::Pasted(c) => {
            if c == '\n' || c == '\r' {
                return Act::Finish;
            }
            Act::Edit(key)
        }
        Key::Size { cols, .. } => Act::Resize(cols),
        _ => Act::Edit(key),
    }
}

/// Returns what Ctrl with the letter is.
fn act_of_letter(letter: char) -> Act
    ensures { result ≡ act_of_letter letter }
{
    match letter {
        'a' => Act::Edit(Key::Home),
        'b' => Act::Edit(Key::Left),
        'c' => Act::Forget,
        'd' => Act::End,
        'e' => Act::Edit(Key::End),
        'f' => Act::Edit(Key::Right),
        'j' => Act::Finish,
        'k' => Act::Cut,
        'l' => Act::Clear,
        'n' => Act::Edit(Key::Down),
        'p' => Act::Edit(Key::Up),
        'w' => Act::Rub,
        _ => Act::Edit(Key::Control(letter)),
    }
}

/// Returns how many times Backspace is pressed for the last word and the spaces after it. The characters are those
/// before the cursor, the nearest one first.
pub(crate) fn rub_count(back: &[char]) -> usize
    ensures { result ≡ rub_from false back.now }
{
    let mut count = 0;
    let mut inside = false;
    for place in 0..back.len() {
        let c = back[place];
        if c == ' ' && inside {
            return count;
        }
        inside = c != ' ';
        if c == ' ' || !is_mark(c) {
            count += 1;
        }
    }
    count
}

/// Says whether the character is kept together with the one before it.
#[tactic(auto, unfolding(psg_keys::specs::Lines::is_mark))]
fn is_mark(c: char) -> bool
    ensures { result ≡ is_mark c }
{
    c.width().unwrap_or(1) == 0
}
