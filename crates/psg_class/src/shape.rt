//! Operators as the grammar sees them: slots, and tokens by the numbers of their terminals.
ghost use Rattle.std.specs.Prelude.{◌≡◌, IfOk, map};
ghost use Rattle.psg_class.specs.Numbers.{IsConsistent};
ghost use Rattle.psg_class.specs.Shapes.{part_of, parts_of, shape_of};

use crate::vocabulary::{NAME, NUMBER, TEXT, Vocabulary};
use psg_grammar::{Item, Kind, Level, Operator};
use psg_terms::Seq;
use std::alloc::{AllocError, Global};

/// An item that is no mark for the layout.
#[derive(Clone, Copy)]
pub(crate) enum Part {
    Token(usize),
    Slot(Kind),
}

/// An operator.
#[derive(Drop)]
pub(crate) struct Shape {
    pub(crate) phylum: u32,
    pub(crate) level: Level,
    pub(crate) parts: Seq<Part>,
}

/// Returns the shapes of the operators. It looks up each of their words once.
pub(crate) fn read_shapes(
    alloc: Global,
    vocabulary: &Vocabulary,
    operators: &[Operator],
) -> Result<Vec<Shape>, AllocError>
    requires { IsConsistent vocabulary.now }
    ensures { IfOk result (λ v. v.items ≡ map (shape_of vocabulary.now.base vocabulary.now.words.items) operators.now) }
{
    let mut made = Vec::with_capacity(alloc, operators.len())?;
    for operator in operators {
        made.push(Shape {
            phylum: operator.phylum,
            level: operator.level,
            parts: read_parts(alloc, vocabulary, operator.items.as_slice())?,
        })?;
    }
    Ok(made)
}

fn read_parts(
    alloc: Global,
    vocabulary: &Vocabulary,
    items: &[Item],
) -> Result<Seq<Part>, AllocError>
    requires { IsConsistent vocabulary.now }
    ensures { IfOk result (λ s. s ≡ parts_of vocabulary.now.base vocabulary.now.words.items items.now) }
{
    let mut made = Vec::with_capacity(alloc, items.len())?;
    for item in items {
        if let Some(part) = read_part(vocabulary, item) {
            made.push(part)?;
        }
    }
    Ok(Seq::of(made))
}

fn read_part(vocabulary: &Vocabulary, item: &Item) -> Option<Part>
    requires { IsConsistent vocabulary.now }
    ensures { result ≡ part_of vocabulary.now.base vocabulary.now.words.items item.now }
{
    match item {
        Item::Slot(kind) => Some(Part::Slot(*kind)),
        Item::Word(word) => match vocabulary.number(word.as_str()) {
            Some(number) => Some(Part::Token(number)),
            None => None,
        },
        Item::Refers(_) | Item::Declares(_) => Some(Part::Token(NAME)),
        Item::Number => Some(Part::Token(NUMBER)),
        Item::Text => Some(Part::Token(TEXT)),
        _ => None,
    }
}
