//! The words of the screen.
use psg_keymap::{Message, Why};
use std::alloc::{AllocError, Global};

/// What is said where the repaired program is asked.
pub(crate) const IN_WRONG: &str = "without the wrong places";

/// Writes what the message says.
pub(crate) fn message_text(alloc: Global, message: &Message) -> Result<String, AllocError> {
    let mut text = String::new(alloc);
    match message {
        Message::Quiet => {}
        Message::Refused(number) => {
            write!(&mut text, "refused {number}: ")?;
            text.push_str(refusal_words(*number))?;
        }
        Message::NoKey => text.push_str("? shows the keys")?,
        Message::Unknown(bytes) => {
            text.push_str("no key:")?;
            for byte in bytes.as_slice() {
                write!(&mut text, " {byte:02x}")?;
            }
        }
        Message::NoMemory => text.push_str("out of memory: nothing was changed")?,
        Message::Kept => text.push_str("kept; p puts it elsewhere")?,
        Message::Written => text.push_str("written")?,
        Message::NotWritten => text.push_str("the file could not be written, and is as it was")?,
        Message::Unproved => text.push_str("only the proved program writes files")?,
        Message::NothingWrong => text.push_str("nothing is wrong")?,
        Message::Wrong(why) => push_why(&mut text, why)?,
    }
    Ok(text)
}

/// Writes what is wrong at a place.
fn push_why(text: &mut String, why: &Why) -> Result<(), AllocError> {
    match why {
        Why::Node => text.push_str("wrong: this does not fit with what is before it"),
        Why::Element => text.push_str("wrong: this element does not fit with what is before it"),
        Why::End => text.push_str("wrong: an element is missing at the end of this list"),
        Why::Name(name) => {
            text.push_str("wrong: the name ")?;
            text.push_str(name.as_str())?;
            text.push_str(" does not fit with what is before it")
        }
        Why::Parts => text.push_str("wrong: the parts of this do not fit with each other"),
    }
}

/// Returns what a refusal of this number means.
fn refusal_words(number: u8) -> &'static str {
    match number {
        1 => "this is no command",
        2 => "no node is there",
        3 => "the node is no placeholder",
        4 => "nothing has this name",
        5 => "this does not fit at this place",
        6 => "these are not the names and literals that it needs",
        7 => "the node is no list with such a place",
        8 => "the program would have too many nodes",
        9 => "the program would be too deep",
        10 => "a step would have too many meanings",
        11 => "all steps together would have too many meanings",
        12 => "no program is left in which this fits",
        13 => "the text can't be read as words",
        14 => "the text does not read as what is wanted here",
        15 => "there is no earlier version",
        16 => "there is no later version",
        17 => "nothing is kept; y keeps a node",
        18 => "the file was not read or written",
        19 => "the file has no program that is kept",
        20 => "there is no such range",
        21 => "a placeholder would not say which names it declares",
        22 => "no program is opened",
        23 => "there is no room to keep one more",
        _ => "it can't be done",
    }
}
