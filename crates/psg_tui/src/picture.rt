//! The picture of a program and a face.
ghost use Rattle.std.specs.Prelude.{◌≡◌, ◌↔◌, ◌<◌, ◌≤◌, [], IfOk, IfSome, IsTrue, OnOk, false, option_map, unwrap_or};
ghost use Rattle.std.specs.Option.{option_copied};
ghost use Rattle.psg_grammar.specs.Fragments.{Fragment};
ghost use Rattle.psg_keymap.specs.declared.face.Mode.TheVariants as modes;
ghost use Rattle.psg_keymap.specs.Ranges.{both, bytes_at as bytes_at_of};
ghost use Rattle.psg_picture.specs.Scrolling.{scrolled_of};
ghost use Rattle.psg_tui.specs.declared.editing.Aim.TheVariants as aims;
ghost use Rattle.psg_tui.specs.Editing.{IsAt, IsEditing, IsKnownMore, is_wrong};
ghost use Rattle.psg_tui.specs.Scrolled.{IsScrolled};
ghost use Rattle.psg_tui.specs.Showing as showing;
ghost use Rattle.psg_tui.specs.Showing.{Shows, chosen_bytes, paged_of, programmed_of, unscrolled};
ghost use Rattle.psg_tui.specs.Views.{face_of};

use crate::editing::{Editing, note_of};
use crate::lines::{last_row, mark_row, offers_row, title_row, where_row};
use crate::shown::Shown;
use psg_canvas::Picture;
use psg_keymap::{Face, Message, Mode, bytes_at, span_at};
use psg_keys::Line;
use psg_picture::{Around, Marks, Part, page_picture, program_picture, scrolled};
use psg_places::Place;
use psg_screen::View;
use psg_tree::{Path, Tree};
use psg_unparse::Span;
use std::alloc::{AllocError, Global};

/// Returns the picture. Scrolls the face so that the chosen place is shown.
pub(crate) fn picture_of(alloc: Global, editing: &mut Editing) -> Result<Picture, AllocError>
    requires editing { IsEditing editing.old }
    requires settled { editing.old.aim ≡ aims.Settled }
    ensures picture { IfOk result (λ p. (tree : Fragment) → IsAt editing.old tree
        → Shows editing.old.session.language tree (face_of editing.old.face) (face_of editing.new.face) p) }
    ensures left { IsScrolled editing.old editing.new }
    ensures aim { editing.new.aim ≡ editing.old.aim }
{
    mark(alloc, editing)?;
    let around = around_of(alloc, editing)?;
    let page = is_page(editing.face.mode);
    if page {
        return paged(alloc, &editing.face, &around);
    }
    let picture = programmed(alloc, &mut editing.face, &editing.shown, &around)?;
    Ok(picture)
}

/// Says whether a page is shown.
fn is_page(mode: Mode) -> bool
    ensures { IsTrue result ↔ (mode ≡ modes.Paging) }
{
    match mode {
        Mode::Paging => true,
        Mode::Browsing => false,
        Mode::Typing => false,
        Mode::Choosing => false,
        Mode::Naming => false,
        Mode::Saving => false,
        Mode::Replacing => false,
        Mode::Leaving => false,
    }
}

/// Returns the picture of a page.
fn paged(alloc: Global, face: &Face, around: &Around) -> Result<Picture, AllocError>
    ensures { IfOk result (λ p. p ≡ paged_of (face_of face.now) around.now) }
{
    let line = open_line(face);
    let view = view_of(face);
    let picture = page_picture(
        alloc,
        view,
        around,
        face.page.as_slice(),
        face.page_top,
        line,
    )?;
    Ok(picture)
}

/// Returns the picture of the program. Scrolls the face so that the chosen place is shown.
fn programmed(
    alloc: Global,
    face: &mut Face,
    shown: &Shown,
    around: &Around,
) -> Result<Picture, AllocError>
    ensures picture { IfOk result (λ p. p ≡ programmed_of (face_of face.new) around.now shown.now.printed.text
        shown.now.marks) }
    ensures scrolled { IfOk result (λ _. showing.view_of (face_of face.new)
        ≡ scrolled_of (showing.view_of (face_of face.old)) shown.now.printed.text shown.now.marks.chosen) }
    ensures same { unscrolled (face_of face.new) ≡ unscrolled (face_of face.old) }
{
    let text = shown.printed.text.as_str();
    let view = scrolled(view_of(face), text, shown.marks.chosen);
    let line = open_line(face);
    let picture = program_picture(alloc, view, around, text, &shown.marks, line)?;
    face.top = view.top;
    face.left = view.left;
    Ok(picture)
}

/// Returns the window of the face on the program.
fn view_of(face: &Face) -> View
    ensures { result ≡ showing.view_of (face_of face.now) }
{
    View {
        top: face.top,
        left: face.left,
        rows: face.rows,
        cols: face.cols,
    }
}

/// Returns the line of text, where one is open.
fn open_line(face: &Face) -> Option<&Line>
    ensures { option_copied result ≡ showing.open_line (face_of face.now) }
{
    match face.mode {
        Mode::Browsing => None,
        Mode::Typing => Some(face.lines.line()),
        Mode::Choosing => Some(face.lines.line()),
        Mode::Naming => Some(face.lines.line()),
        Mode::Saving => Some(face.lines.line()),
        Mode::Replacing => None,
        Mode::Paging => None,
        Mode::Leaving => None,
    }
}

/// Returns the words of the lines around the program.
fn around_of(alloc: Global, editing: &Editing) -> Result<Around, AllocError> {
    let title = title_row(alloc, editing)?;
    let mark = mark_row(alloc, editing)?;
    let place = where_row(alloc, editing)?;
    let offers = offers_row(alloc, editing)?;
    let said = last_row(alloc, &editing.face)?;
    Ok(Around {
        title,
        mark,
        place,
        offers,
        said,
    })
}

/// Marks the chosen place and the wrong ones.
fn mark(alloc: Global, editing: &mut Editing) -> Result<(), AllocError>
    requires editing { IsEditing editing.old }
    requires settled { editing.old.aim ≡ aims.Settled }
    ensures chosen { OnOk result ((tree : Fragment) → IsAt editing.old tree → editing.new.shown.marks.chosen
        ≡ chosen_bytes editing.old.session.language tree editing.old.face.chosen) }
    ensures right { OnOk result (is_wrong editing.old.shown.culprits.items ≡ false
        → editing.new.shown.marks.wrong.items ≡ []) }
    ensures printed { editing.new.shown.printed ≡ editing.old.shown.printed }
    ensures left { IsKnownMore editing.old editing.new }
{
    let tree = note_of(&editing.session).tree();
    let chosen = bytes_of(
        tree,
        editing.shown.printed.spans.as_slice(),
        &editing.face.chosen,
    );
    let wrong = wrong_bytes(alloc, &editing.shown, tree)?;
    editing.shown.marks.chosen = chosen;
    editing.shown.marks.wrong = wrong;
    Ok(())
}

/// Returns the bytes of the place at the path; none at the front where it has none.
fn bytes_of(tree: &Tree, spans: &[Span], path: &Path) -> (usize, usize)
    ensures { result ≡ unwrap_or (option_map both (bytes_at_of tree.now spans.now path.now)) (0, 0) }
{
    match bytes_at(tree, spans, path) {
        Some(bytes) => bytes,
        None => (0, 0),
    }
}

/// Returns the bytes of the wrong places: the blamed ones where they are known, else the culprits. A program without
/// culprits has none.
fn wrong_bytes(alloc: Global, shown: &Shown, tree: &Tree) -> Result<Vec<(usize, usize)>, AllocError>
    ensures { is_wrong shown.now.culprits.items ≡ false → IfOk result (λ wrong. wrong.items ≡ []) }
{
    let wrong = shown.is_wrong();
    if wrong {
        return bytes_in(alloc, shown, tree);
    }
    Ok(Vec::new(alloc))
}

/// Returns the bytes of the blamed places where they are known, else of the culprits.
fn bytes_in(alloc: Global, shown: &Shown, tree: &Tree) -> Result<Vec<(usize, usize)>, AllocError> {
    let spans = shown.printed.spans.as_slice();
    match &shown.repair {
        Some(repair) => blamed_bytes(alloc, spans, &shown.marks, tree, repair.places.as_slice()),
        None => culprit_bytes(alloc, spans, shown.culprits.as_slice()),
    }
}

/// Returns the bytes of the blamed places.
fn blamed_bytes(
    alloc: Global,
    spans: &[Span],
    marks: &Marks,
    tree: &Tree,
    places: &[Place],
) -> Result<Vec<(usize, usize)>, AllocError> {
    let mut wrong = Vec::new(alloc);
    for number in 0..places.len() {
        if let Some(bytes) = place_bytes(spans, marks.parts.as_slice(), tree, &places[number]) {
            wrong.push(bytes)?;
        }
    }
    Ok(wrong)
}

/// Returns the bytes of the culprits.
fn culprit_bytes(
    alloc: Global,
    spans: &[Span],
    culprits: &[Path],
) -> Result<Vec<(usize, usize)>, AllocError> {
    let mut wrong = Vec::new(alloc);
    for number in 0..culprits.len() {
        if let Some(bytes) = span_at(spans, culprits[number].steps()) {
            wrong.push(bytes)?;
        }
    }
    Ok(wrong)
}

/// Returns the bytes of a blamed place: those of the node or element, of the last character of a list, or of a name.
fn place_bytes(
    spans: &[Span],
    parts: &[Part],
    tree: &Tree,
    place: &Place,
) -> Option<(usize, usize)> {
    match place {
        Place::Node(path) => bytes_at(tree, spans, path),
        Place::Element(path) => bytes_at(tree, spans, path),
        Place::End(path) => match span_at(spans, path.steps()) {
            Some((_, end)) => Some((end.saturating_sub(1), end.max(1))),
            None => None,
        },
        Place::Name(path, number) => name_bytes(spans, parts, path.steps(), *number),
    }
}

/// Returns the bytes of a name of the node at the steps, by its number among them, from 0: the runs of bytes of
/// names that are the node's own, and not a child's.
fn name_bytes(
    spans: &[Span],
    parts: &[Part],
    steps: &[u32],
    number: usize,
) -> Option<(usize, usize)> {
    let (start, end) = span_at(spans, steps)?;
    let mut left = number;
    let mut byte = start;
    'bytes: while byte < end {
        if let Some(past) = child_end(spans, steps, byte) {
            byte = past;
        } else if is_name_at(parts, byte) {
            let past = name_end(parts, byte + 1, end);
            if left == 0 {
                return Some((byte, past));
            }
            left -= 1;
            byte = past;
        } else {
            byte += 1;
        }
    }
    Some((start, end))
}

fn is_name_at(parts: &[Part], byte: usize) -> bool {
    match parts.get(byte) {
        Some(part) => *part == Part::Name,
        None => false,
    }
}

/// Returns the byte after the bytes of a name that has those from `from` on.
fn name_end(parts: &[Part], from: usize, end: usize) -> usize
    requires { from ≤ end }
    ensures { from ≤ result }
{
    for past in from..end {
        if !is_name_at(parts, past) {
            return past;
        }
    }
    end
}

/// Returns the byte after the child of the node at the steps that begins at this byte, if one does and has bytes.
fn child_end(spans: &[Span], steps: &[u32], byte: usize) -> Option<usize>
    ensures { IfSome result (λ past. byte < past) }
{
    for span in spans {
        if span.start == byte && span.end > byte {
            if let Some((_, front)) = span.path.steps().split_last() {
                if front == steps {
                    return Some(span.end);
                }
            }
        }
    }
    None
}

/// Says whether the message is shown while a line of text is open: a refusal, bytes that are no key, or that there was
/// no memory.
pub(crate) fn is_told(message: &Message) -> bool {
    matches!(
        message,
        Message::Refused(_) | Message::Unknown(_) | Message::NoMemory
    )
}
