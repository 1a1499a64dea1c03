//! The largest trees that have a note, and one step more.
use super::notes::{noted, told};
use super::trees::{definition, tree};
use psg_grammar::Kind;
use std::alloc::{AllocError, Global};
use std::test::Fail;

/// Lists in lists: each placeholder, list end and list suffix has one constructor.
const NESTED: &str = "psg 1
sort Type = int bool
phylum Num : Type
list Nums : Type of Num \",\" inline fixed
op nest : Num = Nums
row int : int
nil Nums int
cell Nums int : int int
hole Num int
";

/// Puts the piece the given number of times, each after the separator.
fn put_pieces(
    text: &mut String,
    separator: &str,
    piece: &str,
    count: usize,
) -> Result<(), AllocError> {
    for _ in 0..count {
        text.push_str(separator)?;
        text.push_str(piece)?;
    }
    Ok(())
}

/// The piece the given number of times and once more, with commas between.
fn repeated(alloc: Global, piece: &str, more: usize) -> Result<String, AllocError> {
    let mut text = String::new(alloc);
    text.push_str(piece)?;
    put_pieces(&mut text, ",", piece, more)?;
    Ok(text)
}

/// The note of the words' tree in the language, or why there is none.
fn answer(alloc: Global, language: &str, words: &str) -> Result<String, AllocError> {
    let definition = definition(alloc, language)?;
    let tree = tree(alloc, words)?;
    match noted(alloc, &definition, &tree, Kind::List(0)) {
        Ok(note) => told(alloc, &note),
        Err(fault) => format!(in alloc; "{fault}"),
    }
}

/// A list of five lists of placeholders: four of 4,000, and one of the given number.
fn five_lists(alloc: Global, last: usize) -> Result<String, AllocError> {
    let mut words = String::new(alloc);
    words.push_str("[5")?;
    for _ in 0..4 {
        words.push_str(" 0/1 [4000")?;
        put_pieces(&mut words, " ", "?0", 4_000)?;
    }
    let head = format!(in alloc; " 0/1 [{last}")?;
    words.push_str(head.as_str())?;
    put_pieces(&mut words, " ", "?0", last)?;
    Ok(words)
}

/// A list has one node beside its elements, and so has the operator over it.
#[test]
fn the_largest_tree_and_one_node_more(rt: HostRuntime) -> Result<(), Fail> {
    for (last, expected) in [
        // 20,000 nodes: 6 suffixes of the outer list, 5 operators, 19,994 suffixes and 19,989 placeholders
        (3_989, "good 39994"),
        (3_990, "the tree is too big"),
    ] {
        let words = five_lists(rt.alloc(), last)?;
        let given = answer(rt.alloc(), NESTED, words.as_str())?;
        assert_eq!(rt; given.as_str(), expected, "{last}");
    }
    Ok(())
}

/// A language with an operator `e` whose value is one constructor, an operator `o` whose value has 128 times 128, and
/// an operator `w` over a part, whose value is one.
fn boxes(alloc: Global) -> Result<String, AllocError> {
    let bits = repeated(alloc, "Bit", 126)?;
    let fewer_bits = repeated(alloc, "Bit", 125)?;
    let lines = repeated(alloc, "Line", 127)?;
    let line = repeated(alloc, "a", 126)?;
    let shorter_line = repeated(alloc, "a", 125)?;
    let full_line = format!(in alloc; "r({line})")?;
    let full_lines = repeated(alloc, full_line.as_str(), 126)?;
    format!(in alloc;
        "psg 1
sort Unit = ok
sort Bit = a b
sort Line = r({bits}) q({fewer_bits})
sort Box = x({lines}) y
phylum P : Box
list Ps : Unit of P \";\" inline fixed
op e : P = \"e\"
row y
op o : P = \"o\"
row x({full_lines},q({shorter_line}))
op w : P = \"w\" P
row y : ?B
nil Ps ok
cell Ps ok : ?B ok
hole P y by e
"
    )
}

/// A list of 244 large elements, of the given number of `e`, and of the given number of `w` over `e`.
fn heavy_list(alloc: Global, small: usize, over: usize) -> Result<String, AllocError> {
    let count = 244usize.saturating_add(small).saturating_add(over);
    let mut words = format!(in alloc; "[{count}")?;
    put_pieces(&mut words, " ", "1/0", 244)?;
    put_pieces(&mut words, " ", "0/0", small)?;
    put_pieces(&mut words, " ", "2/1 0/0", over)?;
    Ok(words)
}

/// The large elements have 3,997,696 constructors together, each other operator has one, and so has each suffix of the
/// list: one for each element, and one for the end.
#[test]
fn the_heaviest_tree_and_one_constructor_more(rt: HostRuntime) -> Result<(), Fail> {
    let language = boxes(rt.alloc())?;
    for (small, over, expected) in [
        (1_028, 1, "good 4000000"),
        (
            1_027,
            2,
            "the relations of the nodes are too large together",
        ),
    ] {
        let words = heavy_list(rt.alloc(), small, over)?;
        let given = answer(rt.alloc(), language.as_str(), words.as_str())?;
        assert_eq!(rt; given.as_str(), expected, "{small} {over}");
    }
    Ok(())
}
