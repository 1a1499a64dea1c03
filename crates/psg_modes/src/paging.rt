//! A page of lines that is shown in place of the program.
ghost use Rattle.std.specs.Prelude.{◌≡◌, map, string_bytes, IfOk};
ghost use Rattle.psg_keymap.specs.Views.{face_of};
ghost use Rattle.psg_modes.specs.Pages.{key_lines};
ghost use Rattle.psg_modes.specs.Turning as turning;

use psg_keymap::{Face, Message, Mode};
use psg_keys::Key;
use std::alloc::{AllocError, Global};

/// The rows of the screen that are not the page's.
const OTHER_ROWS: u32 = 5;

/// The lines of the page of keys.
const KEYS: &[&str] = &[
    "arrows            the node above, the first one in it, the one before, the next",
    "Tab, Shift-Tab    the next open place, the one before",
    "Page Down, Up     a screen further down, further up; Home is the whole program",
    "Enter             what may be put here: letters narrow it, arrows pick",
    "i, a              an element before the chosen one, after it",
    "e                 the node as a line of text: Enter takes it, Escape leaves it",
    "o                 the same with an empty line; up shows earlier lines",
    "x, Backspace      the node goes, and its place is open; an open element goes",
    "c                 the list is finished; unfinished again",
    "u, Ctrl-R         undo, redo",
    "y, p              keeps the node; puts it here, or after the chosen element",
    "n, N              the next wrong place and what is wrong, the one before",
    "r                 what the node can mean",
    "w                 writes the file",
    "q                 ends",
    "",
    "?Word is a place that is still open, and ... the end of a list that may go on.",
    "The mark at the top right says whether the program can still be completed.",
];

/// Returns the page of keys. It fails where memory runs out.
pub fn key_page(alloc: Global) -> Result<Vec<String>, AllocError>
    ensures { IfOk result (λ page. map string_bytes page.items ≡ key_lines) }
{
    let page = lines_of(alloc, KEYS)?;
    Ok(page)
}

/// Returns copies of the lines.
fn lines_of(alloc: Global, words: &[&str]) -> Result<Vec<String>, AllocError>
    ensures { IfOk result (λ lines. map string_bytes lines.items ≡ map (λ word. word.now) words.now) }
{
    let mut lines = Vec::new(alloc);
    for i in 0..words.len() {
        let line = String::from_str(alloc, words[i])?;
        lines.push(line)?;
    }
    Ok(lines)
}

/// Shows a page in place of the program. It takes no memory.
pub fn show_page(face: &mut Face, page: Vec<String>)
    ensures { face_of face.new ≡ turning.paging (map string_bytes page.items) (face_of face.old) }
{
    face.page = page;
    face.page_top = 0;
    face.mode = Mode::Paging;
    face.message = Message::Quiet;
}

/// Does a key while a page is shown: arrows and the keys of pages scroll it, any other key leaves it. It takes no
/// memory.
pub fn page_key(alloc: Global, face: &mut Face, key: Key)
    ensures { face_of face.new ≡ turning.paged_key (face_of face.old) key }
{
    match key {
        Key::Up => scroll_up(face, 1),
        Key::Left => scroll_up(face, 1),
        Key::Down => scroll_down(face, 1),
        Key::Right => scroll_down(face, 1),
        Key::PageUp => scroll_up(face, face.rows.saturating_sub(OTHER_ROWS)),
        Key::PageDown => scroll_down(face, face.rows.saturating_sub(OTHER_ROWS)),
        _ => leave_page(alloc, face),
    }
}

/// Goes back to the program.
fn leave_page(alloc: Global, face: &mut Face)
    ensures { face_of face.new ≡ turning.left_page (face_of face.old) }
{
    face.page = Vec::new(alloc);
    face.enter(alloc, Mode::Browsing);
}

/// Scrolls the page up by that many lines.
fn scroll_up(face: &mut Face, step: u32)
    ensures { face_of face.new ≡ turning.scrolled_up (face_of face.old) step }
{
    face.page_top = face.page_top.saturating_sub(step);
}

/// Scrolls the page down by that many lines.
fn scroll_down(face: &mut Face, step: u32)
    ensures { face_of face.new ≡ turning.scrolled_down (face_of face.old) step }
{
    let rows = face.rows.saturating_sub(OTHER_ROWS);
    face.page_top = page_down(face.page_top, step, face.page.as_slice().len(), rows);
}

/// Returns the number of the line that many lines further down, with as many rows filled as there are.
fn page_down(top: u32, step: u32, count: usize, rows: u32) -> u32
    ensures { result ≡ turning.page_down top step count rows }
{
    let most = count.saturating_sub(rows as usize).min(0xffff_ffff);
    let sum = top as usize + step as usize;
    sum.min(most) as u32
}
