//! The lines around the program.
use crate::editing::Editing;
use crate::picture::is_told;
use crate::words::message_text;
use psg_face::is_dots;
use psg_grammar::{Definition, Kind};
use psg_keymap::{Face, Leaf, Mode, leaf_words, leaves_of};
use psg_picture::Piece;
use psg_session::Session;
use psg_tree::{Path, Shape, Tree, at, nodes, phylum_name};
use std::alloc::{AllocError, Global};

/// Returns the part of a name after its last slash.
fn base_of(name: &str) -> &str {
    let mut base = name;
    for part in name.split('/') {
        base = part;
    }
    base
}

/// Returns the mark of the program.
pub(crate) fn mark_row(alloc: Global, editing: &Editing) -> Result<String, AllocError> {
    let wrong = editing.shown.is_wrong();
    String::from_str(alloc, if wrong { "wrong" } else { "ok" })
}

/// Returns the words of the first row.
pub(crate) fn title_row(alloc: Global, editing: &Editing) -> Result<String, AllocError> {
    let definition = editing.session.language().definition();
    let file = match &editing.file {
        Some(file) => base_of(file.as_str()),
        None => "no file yet",
    };
    let changed = if editing.is_changed() { " *" } else { "" };
    let kind = kind_word(definition, editing.kind);
    let count = node_count(&editing.session);
    let title = editing.title.as_str();
    let text = format!(in alloc; " {file}{changed}   {title} {kind}   {count} nodes")?;
    Ok(text)
}

/// Returns the name of the kind.
fn kind_word(definition: &Definition, kind: Kind) -> &str {
    match kind {
        Kind::Phylum(number) => match definition.phyla.as_slice().get(number as usize) {
            Some(phylum) => phylum.name.as_str(),
            None => "",
        },
        Kind::List(number) => match definition.lists.as_slice().get(number as usize) {
            Some(list) => list.name.as_str(),
            None => "",
        },
    }
}

/// Returns how many nodes the program has.
fn node_count(session: &Session) -> u64 {
    match session.note() {
        Some(note) => nodes(note.tree()),
        None => 0,
    }
}

/// Returns where the chosen place is, what it is, and what it can mean.
pub(crate) fn where_row(alloc: Global, editing: &Editing) -> Result<String, AllocError> {
    let mut text = String::new(alloc);
    let Some(note) = editing.session.note() else {
        return Ok(text);
    };
    let definition = editing.session.language().definition();
    push_path(&mut text, &editing.face.chosen)?;
    text.push_str("  ")?;
    push_place(&mut text, definition, note.tree(), &editing.face.chosen)?;
    if editing.face.mode == Mode::Browsing {
        if let Some(asked) = &editing.shown.asked {
            if !asked.meaning.is_empty() {
                text.push_str("   ")?;
                text.push_str(asked.meaning.as_str())?;
            }
        }
    }
    Ok(text)
}

fn push_path(text: &mut String, path: &Path) -> Result<(), AllocError> {
    if path.steps().is_empty() {
        text.push('/')?;
    }
    for step in path.steps() {
        write!(text, "/{step}")?;
    }
    Ok(())
}

/// Writes what is at the path.
fn push_place(
    text: &mut String,
    definition: &Definition,
    tree: &Tree,
    path: &Path,
) -> Result<(), AllocError> {
    match at(tree, path) {
        Some(node) => push_node(text, definition, node),
        None if is_dots(tree, path) => text.push_str("the list goes on here"),
        None => Ok(()),
    }
}

/// Writes what the node is.
fn push_node(text: &mut String, definition: &Definition, node: &Tree) -> Result<(), AllocError> {
    match node.shape() {
        Shape::Hole { phylum } => {
            text.push_str("a place for ")?;
            text.push_str(phylum_name(definition, *phylum))
        }
        Shape::List {
            list,
            elements,
            unfinished,
        } => {
            if let Some(kind) = definition.lists.as_slice().get(*list as usize) {
                text.push_str(kind.name.as_str())?;
            }
            let count = elements.as_slice().len();
            let plural = if count == 1 { "" } else { "s" };
            let end = if *unfinished { ", open" } else { "" };
            write!(text, ", {count} element{plural}{end}")
        }
        Shape::Op { op, .. } => {
            if let Some(operator) = definition.operators.as_slice().get(*op as usize) {
                text.push_str(operator.name.as_str())?;
                text.push_str(", a ")?;
                text.push_str(phylum_name(definition, operator.phylum))?;
            }
            Ok(())
        }
    }
}

fn one(alloc: Global, text: String) -> Result<Vec<Piece>, AllocError> {
    let mut row = Vec::new(alloc);
    row.push(Piece {
        text,
        reversed: false,
    })?;
    Ok(row)
}

/// Returns the row of what may be put at the chosen place, or of what the line of text is for.
pub(crate) fn offers_row(alloc: Global, editing: &Editing) -> Result<Vec<Piece>, AllocError> {
    let face = &editing.face;
    let is_open = matches!(
        face.mode,
        Mode::Typing | Mode::Choosing | Mode::Naming | Mode::Saving
    );
    // while a line is open its own row is taken, so what a key could not do is said here
    if is_open && is_told(&face.message) {
        return one(alloc, message_text(alloc, &face.message)?);
    }
    match face.mode {
        Mode::Choosing => menu_row(alloc, face),
        Mode::Naming => naming_row(alloc, editing),
        Mode::Saving => one(
            alloc,
            String::from_str(alloc, "the name of the file; Escape goes back")?,
        ),
        Mode::Replacing => one(
            alloc,
            String::from_str(
                alloc,
                "this file is there already: w writes over it, any other key goes back",
            )?,
        ),
        Mode::Leaving => one(
            alloc,
            String::from_str(
                alloc,
                "not written: q ends all the same, w writes, any other key goes back",
            )?,
        ),
        Mode::Paging => one(
            alloc,
            String::from_str(alloc, "up and down scroll; any other key goes back")?,
        ),
        Mode::Typing => asked_row(alloc, editing, true),
        Mode::Browsing => asked_row(alloc, editing, false),
    }
}

/// Returns what was asked: of the line of text what it would be answered, else what may be put at the chosen place.
fn asked_row(alloc: Global, editing: &Editing, typing: bool) -> Result<Vec<Piece>, AllocError> {
    let text = match &editing.shown.asked {
        Some(asked) => {
            if typing {
                asked.meaning.as_str()
            } else {
                asked.offers.as_str()
            }
        }
        None => "",
    };
    one(alloc, String::from_str(alloc, text)?)
}

/// Returns the operators from one before the picked one on, which is reversed.
fn menu_row(alloc: Global, face: &Face) -> Result<Vec<Piece>, AllocError> {
    let mut row = Vec::new(alloc);
    let shown = face.shown_offers(alloc)?;
    if shown.is_empty() {
        let words = if face.offers.is_empty() {
            "nothing fits"
        } else {
            "nothing that fits begins with this"
        };
        return one(alloc, String::from_str(alloc, words)?);
    }
    push_offers(alloc, &mut row, shown.as_slice(), face.pick)?;
    Ok(row)
}

/// Puts the offers from one before the picked one on at the end of a row.
fn push_offers(
    alloc: Global,
    row: &mut Vec<Piece>,
    shown: &[&str],
    pick: usize,
) -> Result<(), AllocError> {
    let first = pick.saturating_sub(1);
    for number in first..shown.len() {
        row.push(Piece {
            text: String::from_str(alloc, "  ")?,
            reversed: false,
        })?;
        row.push(Piece {
            text: String::from_str(alloc, shown[number])?,
            reversed: number == pick,
        })?;
    }
    Ok(())
}

/// Returns what is typed of the operator, and the names that fit.
fn naming_row(alloc: Global, editing: &Editing) -> Result<Vec<Piece>, AllocError> {
    let face = &editing.face;
    let Some(op) = &face.operator else {
        return Ok(Vec::new(alloc));
    };
    let definition = editing.session.language().definition();
    let leaves = leaves_of(alloc, definition, op.as_str())?;
    let Some(leaf) = leaves.as_slice().get(face.leaf) else {
        return Ok(Vec::new(alloc));
    };
    let name = op.as_str();
    let words = leaf_words(*leaf);
    let number = face.leaf.saturating_add(1);
    let count = leaves.len();
    let text = if count > 1 {
        format!(in alloc; "{name}: {words} ({number} of {count})")?
    } else {
        format!(in alloc; "{name}: {words}")?
    };
    let mut row = one(alloc, text)?;
    if let Leaf::Name | Leaf::NewName = *leaf {
        let shown = face.shown_offers(alloc)?;
        push_offers(alloc, &mut row, shown.as_slice(), face.pick)?;
    }
    Ok(row)
}

/// Returns what the last line says where no line of text is open.
pub(crate) fn last_row(alloc: Global, face: &Face) -> Result<String, AllocError> {
    message_text(alloc, &face.message)
}
