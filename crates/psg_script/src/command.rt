//! What a line of a script says.
use psg_terms::Txt;
use psg_tree::Path;
use std::alloc::AllocError;
use thiserror::Error;

/// A node of the fragment: the one of the cursor, or the one at a path.
#[derive(Drop)]
pub enum Where {
    /// The node of the cursor, written `.`.
    Cursor,
    /// The node at the path from the top, written with a `/` before each step.
    At(Path),
}

/// A command, as its line gives it. Names, operators and files are kept as they are written and not looked up.
#[derive(Drop)]
pub enum Command {
    /// Opens a new program of a phylum or a list.
    New {
        phylum: Txt,
    },
    /// Moves the cursor to a node.
    Goto {
        at: Where,
    },
    /// Puts an operator in place of a placeholder. `args` are the operator's names and literals, as they are written.
    Refine {
        at: Where,
        op: Txt,
        args: Txt,
    },
    /// Puts an operator into a list, before the place counted from 0.
    Insert {
        at: Where,
        place: u32,
        op: Txt,
        args: Txt,
    },
    /// Puts a placeholder in place of a node.
    Cut {
        at: Where,
    },
    /// Takes the element at a place, counted from 0, out of a list.
    Remove {
        at: Where,
        place: u32,
    },
    /// Finishes a list.
    Close {
        at: Where,
    },
    /// Makes a list unfinished.
    Reopen {
        at: Where,
    },
    /// Puts the tree that a text spells in place of a node.
    Over {
        at: Where,
        text: Txt,
    },
    /// Puts a text in place of the bytes of the printed program from `start` up to `end`.
    Range {
        start: u32,
        end: u32,
        text: Txt,
    },
    /// Writes the program.
    Show,
    /// Writes a window of the program: `rows` lines from line `top` on and `cols` columns from column `left` on, both
    /// counted from 0.
    Screen {
        top: u32,
        left: u32,
        rows: u32,
        cols: u32,
    },
    /// Says what a node can mean in the completions of the program.
    Relation {
        at: Where,
    },
    /// Says what a node can mean by itself.
    Own {
        at: Where,
    },
    /// Lists the operators that may fill a placeholder or, with a place, that may be put into a list.
    Menu {
        at: Where,
        place: Option<u32>,
    },
    /// Lists the names with which an operator may fill a placeholder or, with a place, may be put into a list.
    Names {
        at: Where,
        place: Option<u32>,
        op: Txt,
    },
    /// Lists the names that are declared nowhere.
    Free,
    /// Goes back to the earlier version.
    Undo,
    /// Goes on to the later version.
    Redo,
    /// Saves the tree at a node under a name.
    Save {
        name: Txt,
        at: Where,
    },
    /// Puts a saved tree in place of a placeholder or an empty list or, with a place, into a list.
    Paste {
        at: Where,
        place: Option<u32>,
        name: Txt,
    },
    /// Writes a saved tree to a file.
    Keep {
        name: Txt,
        file: Txt,
    },
    /// Saves the tree that a file keeps.
    Fetch {
        file: Txt,
    },
}

/// The reason why a line gave no command.
#[derive(Debug, Drop, Error)]
pub enum CommandFault {
    /// The line isn't UTF-8.
    #[error("the line is not text")]
    NotText,
    /// The line is a text and has none of the forms of a command.
    #[error("the line has none of the forms of a command")]
    Form,
    /// There was no room for the command.
    #[error("out of memory")]
    Memory,
}
