//! The frames around new elements of lists in lists.
use super::notes::noted;
use super::trees::{definition, path, tree};
use psg_cache::Note;
use psg_eval::Frame;
use psg_grammar::Kind;
use std::alloc::{AllocError, Global};
use std::test::Fail;

/// Lists in lists. The value of a list, and of each of its suffixes, has one constructor more than it has elements.
const COUNTED: &str = "psg 1
sort Size = zero next(Size)
phylum Item : Size
list Items : Size of Item \",\" inline fixed
op group : Item = Items
row ?N : ?N
nil Items zero
cell Items next(?N) : ?E ?N
hole Item zero
";

/// Puts the frame: of an operator its number and the slot, of a list how much the relations of the elements before the
/// place weigh, and after a dot that of the rest.
fn put_frame(text: &mut String, frame: &Frame) -> Result<(), AllocError> {
    match frame {
        Frame::Op { op, hot, .. } => write!(text, "; op {op} slot {hot}")?,
        Frame::Elem { list, before, rest } => {
            write!(text, "; list {list}")?;
            for element in before.as_slice() {
                let weight = element.rel().weight();
                write!(text, " {weight}")?;
            }
            let weight = rest.rel().weight();
            write!(text, " . {weight}")?;
        }
    }
    Ok(())
}

/// The frames around a new element before the place of the list at the path, the innermost first.
fn framed(alloc: Global, note: &Note, steps: &str, place: u32) -> Result<String, AllocError> {
    let path = path(alloc, steps)?;
    let mut text = String::new(alloc);
    let found = note.element_frames(alloc, &path, place)?;
    let Some(frames) = found else {
        text.push_str("none")?;
        return Ok(text);
    };
    for frame in frames.as_slice() {
        put_frame(&mut text, frame)?;
    }
    Ok(text)
}

/// The same in a list of a placeholder, a list of two, and a placeholder.
fn answer(alloc: Global, steps: &str, place: u32) -> Result<String, AllocError> {
    let definition = definition(alloc, COUNTED)?;
    let tree = tree(alloc, "[3 ?0 0/1 [2 ?0 ?0 ?0")?;
    match noted(alloc, &definition, &tree, Kind::List(0)) {
        Ok(note) => framed(alloc, &note, steps, place),
        Err(fault) => format!(in alloc; "{fault}"),
    }
}

#[test]
fn frames_of_new_elements(rt: HostRuntime) -> Result<(), Fail> {
    for (steps, place, expected) in [
        // the rest is the list itself
        ("", 0, "; list 0 . 4"),
        ("", 1, "; list 0 1 . 3"),
        // after all elements it is the end
        ("", 3, "; list 0 1 3 1 . 1"),
        ("", 4, "none"),
        // the outer list goes on after the element that the path leaves by
        ("1 0", 0, "; list 0 . 3; op 0 slot 0; list 0 1 . 2"),
        ("1 0", 1, "; list 0 1 . 2; op 0 slot 0; list 0 1 . 2"),
        ("1 0", 2, "; list 0 1 1 . 1; op 0 slot 0; list 0 1 . 2"),
        ("1 0", 3, "none"),
        // an operator and a placeholder are no lists, and nothing is after the last element
        ("1", 0, "none"),
        ("0", 0, "none"),
        ("3", 0, "none"),
    ] {
        let given = answer(rt.alloc(), steps, place)?;
        assert_eq!(rt; given.as_str(), expected, "{steps} {place}");
    }
    Ok(())
}
