//! What a definition is made of.
use psg_terms::{Seq, Signature, SortId, Term, Txt};

/// A phylum or a list, by its number.
#[derive(Clone, Copy, Debug, PartialEq, Eq)]
pub enum Kind {
    /// A phylum, by its number from 0.
    Phylum(u32),
    /// A list, by its number from 0.
    List(u32),
}

/// A class of trees with a sort.
#[derive(Drop)]
pub struct Phylum {
    /// The name of the phylum.
    pub name: Txt,
    /// The sort of the values of its trees.
    pub sort: SortId,
    /// Whether a text may have `(` and `)` around a tree of the phylum.
    pub bracketed: bool,
}

/// How an operator binds.
#[derive(Clone, Copy, Debug, PartialEq, Eq)]
pub enum Level {
    /// An operator without a level. It binds most.
    Plain,
    /// A prefix operator, which ends in a slot of its own phylum, with its level from 1 to 9. A greater level binds
    /// more.
    Prefix(u8),
    /// A postfix operator, which begins with a slot of its own phylum, with its level from 1 to 9.
    Postfix(u8),
    /// An infix operator of which two in a row are grouped from the left, with its level from 1 to 9.
    InfixLeft(u8),
    /// An infix operator of which two in a row are grouped from the right, with its level from 1 to 9.
    InfixRight(u8),
    /// An infix operator of which two in a row need brackets, with its level from 1 to 9.
    InfixNone(u8),
}

/// A part of an operator's form.
#[derive(Drop)]
pub enum Item {
    /// A fixed word, which is one token.
    Word(Txt),
    /// A place for a tree of the kind.
    Slot(Kind),
    /// A place for a name that the operator uses, in the space of this number.
    Refers(u32),
    /// A place for a name that the operator declares, in the space of this number.
    Declares(u32),
    /// A place for a number below 2^128.
    Number,
    /// A place for a text in quotes.
    Text,
    /// A layout mark: one space, also beside `Tight`. Without a mark there is one space between two tokens.
    Space,
    /// A layout mark: nothing, or one space where the two tokens would run together.
    Tight,
    /// A layout mark: a new line, indented by two spaces for each open `In`.
    Line,
    /// A layout mark: the beginning of one more step of indentation.
    In,
    /// A layout mark: the end of the last step of indentation.
    Out,
}

/// The term of the node, and one for each slot and each name position.
#[derive(Drop)]
pub struct Row {
    /// The value of the operator's tree, or of the list.
    pub head: Term,
    /// The terms of the parts. In a row of an operator they are the values of the slots and the entities of the names,
    /// in the order of the items; in a cell row they are the value of the element and that of the rest of the list.
    pub columns: Seq<Term>,
}

/// A form of trees of a phylum.
#[derive(Drop)]
pub struct Operator {
    /// The name of the operator.
    pub name: Txt,
    /// The number of its phylum.
    pub phylum: u32,
    /// How strongly it binds in a text.
    pub level: Level,
    /// Whether it begins a region of its own, which has all its parts.
    pub scope: bool,
    /// What its text is made of, in order.
    pub items: Seq<Item>,
    /// The rows of which a legal tree has one, in order.
    pub rows: Seq<Row>,
}

/// A kind of lists.
#[derive(Drop)]
pub struct ListKind {
    /// The name of the list.
    pub name: Txt,
    /// The sort of the values of its trees.
    pub sort: SortId,
    /// The number of the phylum of its elements.
    pub element: u32,
    /// The word between two elements in a text.
    pub separator: Txt,
    /// Whether the text has each element on a line of its own.
    pub lines: bool,
    /// Whether a tree of it may be unfinished.
    pub unfinished: bool,
    /// The values of the list without elements, in order.
    pub nil_rows: Seq<Term>,
    /// The rows of an element with the rest of its list, in order.
    pub cell_rows: Seq<Row>,
}

/// A place of a specimen that may take any tree with the values of the term.
#[derive(Drop)]
pub struct SpecimenHole {
    /// The kind of the trees that fit the place.
    pub kind: Kind,
    /// The term with whose values a tree fits.
    pub term: Term,
}

/// A part of an operator of a specimen.
#[cycle(specimen)]
#[derive(Drop)]
pub enum SpecimenPart {
    /// A tree for a slot.
    Sub(Specimen),
    /// A name for a name position. It is kept without the `$` of the definition file.
    Name(Txt),
    /// A number.
    Number(u128),
    /// A text, without its quotes.
    Text(Txt),
}

/// A tree that shows that values are taken.
#[cycle(specimen)]
#[derive(Drop)]
pub enum Specimen {
    /// An operator by its number, with a part for each slot, name and literal, in the order of the items.
    Op {
        op: u32,
        parts: Seq<SpecimenPart>,
    },
    /// A list by its number, with its elements in order. Where it has a rest, any list with the values of the rest may
    /// follow the elements.
    List {
        list: u32,
        elements: Seq<Specimen>,
        rest: Option<SpecimenHole>,
    },
    /// A place that may take any tree with the values of its term.
    Hole(SpecimenHole),
}

/// A part of a hole row's values, with a tree that shows them.
#[derive(Drop)]
pub struct Case {
    /// The values that the case shows.
    pub term: Term,
    /// The tree that takes them.
    pub specimen: Specimen,
}

/// The values that a placeholder may take.
#[derive(Drop)]
pub struct HoleRow {
    /// The phylum or list of the placeholder or of the unfinished end.
    pub kind: Kind,
    /// The term with whose values the placeholder can be filled.
    pub term: Term,
    /// The cases, in order. In an accepted definition they have all values of the term together.
    pub cases: Seq<Case>,
}

/// A space of names, with the sort of their entities.
#[derive(Drop)]
pub struct Space {
    /// The name of the space. It is empty in a definition of version 1.
    pub name: Txt,
    /// The sort of the entities of its names.
    pub sort: SortId,
}

/// An element that declares any name with the entities of the term.
#[derive(Drop)]
pub struct DeclareRow {
    /// The number of the space.
    pub space: u32,
    /// The number of the list whose unfinished end may still declare.
    pub list: u32,
    /// The entity that the name may have.
    pub term: Term,
    /// The value of the element.
    pub value: Term,
    /// The element. It has the name `it` where it declares.
    pub specimen: Specimen,
}

/// A language.
#[derive(Drop)]
pub struct Definition {
    /// The version of the definition file: 1 or 2.
    pub version: u32,
    /// The sorts and constructors.
    pub signature: Signature,
    /// The spaces of names, by number.
    pub spaces: Seq<Space>,
    /// The phyla, by number.
    pub phyla: Seq<Phylum>,
    /// The kinds of lists, by number.
    pub lists: Seq<ListKind>,
    /// The operators, by number.
    pub operators: Seq<Operator>,
    /// The hole rows, in order.
    pub hole_rows: Seq<HoleRow>,
    /// The declare rows, in order.
    pub declare_rows: Seq<DeclareRow>,
}
