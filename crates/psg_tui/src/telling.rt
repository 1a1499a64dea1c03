//! What is shown of the answers to questions.
ghost use Rattle.std.specs.Prelude.{◌≡◌, ◌++◌, IfOk, List, OnErr, OnOk, map, option_map, string_bytes, ℕ};
ghost use Rattle.psg_asking.specs.Told.{read_of};
ghost use Rattle.psg_modes.specs.Turning as turning;
ghost use Rattle.psg_tui.specs.Pressing.{named_by, offered, related};
ghost use Rattle.psg_tui.specs.Unasked.{unasked_lines};
ghost use Rattle.psg_tui.specs.Views.{face_of};

use crate::words::IN_WRONG;
use psg_keymap::{Face, Message, Spot};
use psg_modes::{say, show_offers, show_page};
use psg_session::Refusal;
use std::alloc::{AllocError, Global};

/// The page that is shown where no program is asked.
const UNASKED: &[&str] = &[
    "The program is wrong, and nothing is known of this place.",
    "It is in a wrong part, or the wrong places are too many.",
    "",
    "n goes to a wrong place, and e writes a text in its place.",
];

/// Shows what fits at the spot.
pub(crate) fn show_menu(
    alloc: Global,
    face: &mut Face,
    spot: Spot,
    told: Option<Result<Vec<String>, Refusal>>,
) -> Result<(), AllocError>
    ensures shown { OnOk result (face_of face.new ≡ offered (face_of face.old) spot (option_map read_of told)) }
    ensures memory { OnErr result (face_of face.new ≡ face_of face.old) }
{
    match told {
        Some(read) => {
            show_read(alloc, face, spot, read);
            Ok(())
        }
        None => show_unasked(alloc, face),
    }
}

/// Shows the operators that fit at the spot, or says the refusal.
fn show_read(alloc: Global, face: &mut Face, spot: Spot, read: Result<Vec<String>, Refusal>)
    ensures { face_of face.new ≡ offered (face_of face.old) spot (Some (read_of read)) }
{
    match read {
        Ok(offers) => show_offers(alloc, face, spot, offers),
        Err(refusal) => say(face, Message::Refused(refusal.number())),
    }
}

/// Shows the lines of a relation on a page.
pub(crate) fn show_rows(
    alloc: Global,
    face: &mut Face,
    wrong: bool,
    told: Option<Result<Vec<String>, Refusal>>,
) -> Result<(), AllocError>
    ensures shown { OnOk result ((front : List (List ℕ))
        × (face_of face.new ≡ related front (face_of face.old) (option_map read_of told))) }
    ensures memory { OnErr result (face_of face.new ≡ face_of face.old) }
{
    match told {
        Some(read) => show_lines(alloc, face, wrong, read),
        None => {
            show_unasked(alloc, face)?;
            Ok(())
        }
    }
}

/// Shows the lines on a page, or says the refusal.
fn show_lines(
    alloc: Global,
    face: &mut Face,
    wrong: bool,
    read: Result<Vec<String>, Refusal>,
) -> Result<(), AllocError>
    ensures shown { OnOk result ((front : List (List ℕ))
        × (face_of face.new ≡ related front (face_of face.old) (Some (read_of read)))) }
    ensures memory { OnErr result (face_of face.new ≡ face_of face.old) }
{
    match read {
        Ok(lines) => {
            let page = relation_page(alloc, wrong, lines)?;
            show_page(face, page);
            Ok(())
        }
        Err(refusal) => {
            say(face, Message::Refused(refusal.number()));
            Ok(())
        }
    }
}

/// Returns the names that were given; none where it was refused, and where no program is asked.
pub(crate) fn told_names(alloc: Global, told: Option<Result<Vec<String>, Refusal>>) -> Vec<String>
    ensures { map string_bytes result.items ≡ named_by (option_map read_of told) }
{
    match told {
        Some(Ok(names)) => names,
        Some(Err(_)) => Vec::new(alloc),
        None => Vec::new(alloc),
    }
}

/// Shows that no program is asked.
fn show_unasked(alloc: Global, face: &mut Face) -> Result<(), AllocError>
    ensures shown { OnOk result (face_of face.new ≡ turning.paging unasked_lines (face_of face.old)) }
    ensures memory { OnErr result (face_of face.new ≡ face_of face.old) }
{
    let page = unasked_page(alloc)?;
    show_page(face, page);
    Ok(())
}

/// Returns the page that is shown where no program is asked.
fn unasked_page(alloc: Global) -> Result<Vec<String>, AllocError>
    ensures { IfOk result (λ page. map string_bytes page.items ≡ unasked_lines) }
{
    let page = copies_of(alloc, UNASKED)?;
    Ok(page)
}

/// Returns copies of the lines.
fn copies_of(alloc: Global, words: &[&str]) -> Result<Vec<String>, AllocError>
    ensures { IfOk result (λ lines. map string_bytes lines.items ≡ map (λ word. word.now) words.now) }
{
    let mut lines = Vec::new(alloc);
    for i in 0..words.len() {
        let line = String::from_str(alloc, words[i])?;
        lines.push(line)?;
    }
    Ok(lines)
}

/// Returns the page of a relation.
fn relation_page(alloc: Global, wrong: bool, lines: Vec<String>) -> Result<Vec<String>, AllocError>
    ensures { IfOk result (λ page. (front : List (List ℕ))
        × (map string_bytes page.items ≡ front ++ map string_bytes lines.items)) }
{
    let mut rest = lines;
    let mut page = page_front(alloc, wrong)?;
    page.append(&mut rest)?;
    Ok(page)
}

/// Returns the lines in front of a relation.
fn page_front(alloc: Global, wrong: bool) -> Result<Vec<String>, AllocError> {
    let mut page = Vec::new(alloc);
    let first = "What this can mean in the completions of the program, a row a line:";
    page.push(String::from_str(alloc, first)?)?;
    if wrong {
        page.push(String::from_str(alloc, IN_WRONG)?)?;
    }
    page.push(String::new(alloc))?;
    Ok(page)
}
