//! What is marked in a program's text.
ghost use Rattle.std.specs.Prelude.{◌≡◌, cond, slice_index_or};
ghost use Rattle.psg_picture.specs.Marked as marked;
ghost use Rattle.psg_canvas.specs.declared.style.Color.TheVariants as colors;
ghost use Rattle.psg_picture.specs.declared.marks.Part.TheVariants as parts;

use psg_canvas::{Color, Style};

/// What a byte of a program's text is.
#[derive(Clone, Copy, PartialEq, Eq)]
pub enum Part {
    /// A fixed word, or a byte between two tokens.
    Word,
    /// A name.
    Name,
    /// A number or a quoted text.
    Literal,
    /// An open place: a placeholder, or the `...` of a list.
    Place,
}

/// What is marked in a program's text. Bytes are the first one, and the one after the last.
#[derive(Drop)]
pub struct Marks {
    /// What each byte is; a byte without an entry is that of a word.
    pub parts: Vec<Part>,
    /// The bytes of the chosen place. One without bytes is shown by the character after it on its line, if there is
    /// one.
    pub chosen: (usize, usize),
    /// The bytes of the wrong places.
    pub wrong: Vec<(usize, usize)>,
}

impl Marks {
    /// Returns the style of the character at the byte: reversed where it is chosen, underlined and red where it is
    /// wrong, bold where it is an open place.
    pub(crate) fn style_at(&self, byte: usize) -> Style
        ensures { result ≡ marked.style_at self.now byte }
    {
        let part = part_at(self.parts.as_slice(), byte);
        let wrong = is_in_any(self.wrong.as_slice(), byte);
        Style {
            color: color_at(part, wrong),
            bold: is_place(part),
            underlined: wrong,
            reversed: is_chosen(self.chosen, byte),
        }
    }
}

fn part_at(all: &[Part], byte: usize) -> Part
    ensures { result ≡ slice_index_or all.now byte parts.Word }
{
    match all.get(byte) {
        Some(part) => *part,
        None => Part::Word,
    }
}

fn is_place(part: Part) -> bool
    ensures { result ≡ marked.is_place part }
{
    match part {
        Part::Place => true,
        _ => false,
    }
}

fn color_of(part: Part) -> Color
    ensures { result ≡ marked.color_of part }
{
    match part {
        Part::Word => Color::Own,
        Part::Name => Color::Cyan,
        Part::Literal => Color::Green,
        Part::Place => Color::Yellow,
    }
}

fn color_at(part: Part, wrong: bool) -> Color
    ensures { result ≡ cond wrong colors.Red (marked.color_of part) }
{
    if wrong {
        return Color::Red;
    }
    color_of(part)
}

fn is_chosen(bytes: (usize, usize), byte: usize) -> bool
    ensures { result ≡ marked.is_chosen bytes byte }
{
    byte == bytes.0 || is_in(bytes, byte)
}

fn is_in(bytes: (usize, usize), byte: usize) -> bool
    ensures { result ≡ marked.is_in bytes byte }
{
    bytes.0 <= byte && byte < bytes.1
}

fn is_in_any(all: &[(usize, usize)], byte: usize) -> bool
    ensures { result ≡ marked.is_in_any all.now byte }
{
    let mut rest = all;
    'places: while let Some((first, others)) = rest.split_first() {
        if is_in(*first, byte) {
            return true;
        }
        rest = others;
    }
    false
}
