//! The lines of a definition, each as one of its forms, with the names that are in it.
use crate::terms::LineTerm;
use crate::trees::LineTree;
use psg_grammar::Level;
use psg_terms::{Seq, SortDecl, Txt};

/// An item of an operator's line.
#[derive(Drop)]
pub enum LineItem {
    /// A fixed word, without its quotes.
    Word(Txt),
    /// The name of a phylum or list.
    Slot(Txt),
    /// A name position of the space; the first space has the empty name too.
    Refers(Txt),
    /// A name position that declares a name of the space.
    Declares(Txt),
    /// A number literal.
    Number,
    /// A text literal.
    Text,
    /// A layout mark: one space is printed here.
    Space,
    /// A layout mark: nothing is printed here, or one space where the tokens would glue.
    Tight,
    /// A layout mark: a new line begins here.
    Line,
    /// A layout mark: the lines from here on are indented by two more spaces.
    In,
    /// A layout mark: it closes the innermost `In` that is open, if there is one.
    Out,
}

/// A line of a definition.
#[derive(Drop)]
pub enum Line {
    /// A sort with its constructors.
    Sort(SortDecl),
    /// A space of names; that of an entity line has the empty name.
    Space {
        name: Txt,
        sort: Txt,
    },
    /// A phylum with the sort of its values; `bracketed` says that its trees may be in brackets.
    Phylum {
        name: Txt,
        sort: Txt,
        bracketed: bool,
    },
    /// A list with the sort of its values and the phylum of its elements. `lines` says that each element is on a line
    /// of its own, `unfinished` that the list may be unfinished.
    List {
        name: Txt,
        sort: Txt,
        element: Txt,
        separator: Txt,
        lines: bool,
        unfinished: bool,
    },
    /// An operator of the phylum with its items.
    Operator {
        name: Txt,
        phylum: Txt,
        scope: bool,
        level: Level,
        items: Seq<LineItem>,
    },
    /// A row of the operator above: the value, and a term for each slot and name position.
    Row {
        head: LineTerm,
        columns: Seq<LineTerm>,
    },
    /// The value of the list without elements.
    Nil {
        list: Txt,
        term: LineTerm,
    },
    /// The value of the list with an element and the rest after it, and the values of these two.
    Cell {
        list: Txt,
        term: LineTerm,
        element: LineTerm,
        rest: LineTerm,
    },
    /// A hole row; without a specimen its cases are on lines of their own.
    Hole {
        kind: Txt,
        term: LineTerm,
        specimen: Option<LineTree>,
    },
    /// A case of the hole row above.
    Case {
        term: LineTerm,
        specimen: LineTree,
    },
    /// A declare row of the space; without a name it is the first one.
    Declare {
        space: Txt,
        list: Txt,
        entity: LineTerm,
        value: LineTerm,
        specimen: LineTree,
    },
}
