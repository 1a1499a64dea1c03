//! Parts of lines as texts, each after one space.
ghost use Rattle.std.specs.Prelude.{◌≡◌, ◌++◌, ◌∷◌, [], cond, OnOk, string_bytes};
ghost use Rattle.std.specs.List.{flat_map};
ghost use Rattle.psg_lexis.specs.Tokens.{quoted};
ghost use Rattle.psg_deflines.specs.WrittenTerms.{term_parts};
ghost use Rattle.psg_deflines.specs.WrittenTrees.{place_parts, quoted_part, tree_parts};
ghost use Rattle.psg_deflines.specs.LineTexts.{behind, closing, ending_parts, mark_at, part_parts};

use crate::terms::{LineTerm, TermShape};
use crate::trees::{LinePart, LinePlace, LineTree, TreeShape};
use psg_lexis::write_escaped;
use std::alloc::AllocError;

/// Writes one part.
pub fn write_word(out: &mut String, word: &str) -> Result<(), AllocError>
    ensures { OnOk result (string_bytes out.new ≡ string_bytes out.old ++ behind (word.now ∷ [])) }
{
    out.push_str(" ")?;
    out.push_str(word)
}

/// Writes one part, or nothing.
pub fn write_if(out: &mut String, wanted: bool, word: &str) -> Result<(), AllocError>
    ensures { OnOk result (string_bytes out.new
        ≡ string_bytes out.old ++ behind (cond wanted (word.now ∷ []) [])) }
{
    if wanted {
        write_word(out, word)?;
    }
    Ok(())
}

/// Writes a text in quotes.
pub fn write_quoted(out: &mut String, contents: &str) -> Result<(), AllocError>
    ensures { OnOk result (string_bytes out.new
        ≡ string_bytes out.old ++ behind (quoted_part contents.now ∷ [])) }
{
    out.push_str(" \"")?;
    for ch in contents.chars() {
        write_escaped(out, ch)?;
    }
    out.push_str("\"")
}

/// Writes what is before the element of the number, from 0: the bracket, or a comma.
pub fn write_mark(out: &mut String, bracket: &str, number: usize) -> Result<(), AllocError>
    ensures { OnOk result (string_bytes out.new
        ≡ string_bytes out.old ++ behind (mark_at bracket.now number ∷ [])) }
{
    write_word(out, if number == 0 { bracket } else { "," })
}

/// Writes the closing bracket after the elements, where there are any.
pub fn write_closing(out: &mut String, count: usize) -> Result<(), AllocError>
    ensures { OnOk result (string_bytes out.new ≡ string_bytes out.old ++ behind (closing count)) }
{
    if count > 0 {
        write_word(out, ")")?;
    }
    Ok(())
}

/// Writes a term.
pub fn write_term(out: &mut String, term: &LineTerm) -> Result<(), AllocError>
    ensures { OnOk result (string_bytes out.new ≡ string_bytes out.old ++ behind (term_parts term.now)) }
{
    match &term.shape {
        TermShape::Variable(name) => {
            out.push_str(" ?")?;
            out.push_str(name.as_str())
        }
        TermShape::Named { name, args } => {
            write_word(out, name.as_str())?;
            let args = args.as_slice();
            for i in 0..args.len() {
                write_mark(out, "(", i)?;
                write_term(out, &args[i])?;
            }
            write_closing(out, args.len())
        }
    }
}

/// Writes a place that takes any tree.
fn write_place(out: &mut String, place: &LinePlace) -> Result<(), AllocError>
    ensures { OnOk result (string_bytes out.new
        ≡ string_bytes out.old ++ behind (place_parts place.now.kind place.now.term)) }
{
    out.push_str(" hole ( ")?;
    out.push_str(place.kind.as_str())?;
    out.push_str(" ,")?;
    write_term(out, &place.term)?;
    out.push_str(" )")
}

/// Writes what follows the elements of a list.
fn write_ending(out: &mut String, rest: &Option<LinePlace>) -> Result<(), AllocError>
    ensures { OnOk result (string_bytes out.new ≡ string_bytes out.old ++ behind (ending_parts rest.now)) }
{
    if let Some(place) = rest {
        write_word(out, "|")?;
        write_place(out, place)?;
    }
    write_word(out, "]")
}

/// Writes a part of an operator.
#[cycle(write_tree)]
fn write_part(out: &mut String, part: &LinePart) -> Result<(), AllocError>
    ensures { OnOk result (string_bytes out.new ≡ string_bytes out.old ++ behind (part_parts part.now)) }
{
    match part {
        LinePart::Tree(tree) => write_tree(out, tree),
        LinePart::Name(name) => {
            out.push_str(" $")?;
            out.push_str(name.as_str())
        }
        LinePart::Number(digits) => write_word(out, digits.as_str()),
        LinePart::Text(contents) => write_quoted(out, contents.as_str()),
    }
}

/// Writes a specimen.
#[cycle(write_tree)]
pub fn write_tree(out: &mut String, tree: &LineTree) -> Result<(), AllocError>
    ensures { OnOk result (string_bytes out.new ≡ string_bytes out.old ++ behind (tree_parts tree.now)) }
{
    match &tree.shape {
        TreeShape::Operator { name, parts } => {
            write_word(out, name.as_str())?;
            let parts = parts.as_slice();
            for i in 0..parts.len() {
                write_mark(out, "(", i)?;
                write_part(out, &parts[i])?;
            }
            write_closing(out, parts.len())
        }
        TreeShape::List { elements, rest } => {
            let elements = elements.as_slice();
            write_if(out, elements.is_empty(), "[")?;
            for i in 0..elements.len() {
                write_mark(out, "[", i)?;
                write_tree(out, &elements[i])?;
            }
            write_ending(out, rest)
        }
        TreeShape::Place(place) => write_place(out, place),
    }
}
