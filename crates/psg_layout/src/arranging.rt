//! Arranging a tree.
ghost use Rattle.std.specs.Prelude.{◌≡◌, IfOk, None, map, string_bytes};
ghost use Rattle.std.specs.List.{AllByRecursion};
ghost use Rattle.psg_grammar.specs.Sound.{IsSound};
ghost use Rattle.psg_grammar.specs.WellFormed.{WellFormed, fixed_words};
ghost use Rattle.psg_grammar.specs.declared.types.Kind.{Kind};
ghost use Rattle.psg_lexis.specs.Tokens.{IsFixedWord};
ghost use Rattle.psg_class.specs.Class.{IsClass};
ghost use Rattle.psg_unparse.specs.Rows.{row};
ghost use Rattle.psg_unparse.specs.Spaced.{AreSpaced, text_in};
ghost use Rattle.psg_layout.specs.Arranged.{arranged_in, arranged_puts};
ghost use Rattle.psg_layout.specs.Laws.{ReadsBackArranged};
ghost use Rattle.psg_layout.specs.Sheets.{extents};
ghost use Rattle.psg_layout.specs.Walking.{span_by};

use crate::deciding::Plan;
use crate::layout::Layout;
use crate::nodes::{Node, spans_of};
use crate::rules::Rules;
use crate::sheet::{Extent, Sheet};
use crate::walk::write_whole;
use psg_grammar::Definition;
use psg_terms::Txt;
use psg_tree::{Tree, nodes};
use psg_unparse::Printed;
use std::alloc::{AllocError, Global};

/// What was made of a tree: the nodes of its plain text, the arranged text, and the bytes of its tokens.
#[derive(Drop)]
struct Made {
    nodes: Vec<Node>,
    out: String,
    tokens: Vec<Extent>,
}

/// Writes the tree twice: its plain text, whose nodes it keeps, and then the arranged text.
fn write_both(
    alloc: Global,
    definition: &Definition,
    layout: &Layout,
    tree: &Tree,
    cols: u32,
) -> Result<Made, AllocError>
    requires sound { IsSound definition.now }
    requires formed { (kind : Kind) × WellFormed definition.now tree.now kind }
    ensures text { IfOk result (λ m. string_bytes m.out
        ≡ text_in (arranged_puts definition.now layout.now cols tree.now)) }
    ensures tokens { IfOk result (λ m. m.tokens.items
        ≡ extents 0 (arranged_puts definition.now layout.now cols tree.now)) }
    ensures spans { IfOk result (λ m. map (span_by (arranged_puts definition.now layout.now cols tree.now))
        m.nodes.items
        ≡ (arranged_in definition.now layout.now cols tree.now).spans) }
{
    let rules = Rules::of(alloc, layout)?;
    let reading = Plan {
        definition,
        rules: &rules,
        plain: &[],
        text: "",
        tokens: &[],
        cols,
        counts: false,
    };
    let plain = write_whole(alloc, &reading, true, nodes(tree) as usize, tree)?;
    let plan = Plan {
        definition,
        rules: &rules,
        plain: plain.nodes.as_slice(),
        text: plain.sheet.out.as_str(),
        tokens: plain.sheet.tokens.as_slice(),
        cols,
        counts: true,
    };
    let made = write_whole(alloc, &plan, false, 0, tree)?;
    let Sheet { out, tokens, .. } = made.sheet;
    Ok(Made {
        nodes: plain.nodes,
        out,
        tokens,
    })
}

/// Arranges the tree for the columns: returns its text, and the spans of its nodes.
///
/// If a node's operator is a group and its plain text has no line feed and fits on its line, the node is written as
/// plain text, with all in it. Otherwise each of its break items begins a line, indented two spaces more than the line
/// on which the node begins. A break item without a token breaks nothing. The plain text is that of `psg_unparse`.
///
/// The tokens of the text are those of the tree, and gaps keep them apart (`spaced`). So the text of a printable tree
/// reads back as the tree (`back`). A span has the bytes from the first token of a node to the end of its last one.
///
/// It returns out of memory also where 32 bits do not count the children of a node, and where 64 bits do not count the
/// columns. It walks over the tree twice: first it writes the plain text and keeps how wide its nodes are, then it
/// writes the arranged text, in which a group that fits is copied from the plain one. It takes time linear in both
/// texts and in the paths of the nodes, and calls itself once for each level of the tree.
pub fn arrange(
    alloc: Global,
    definition: &Definition,
    layout: &Layout,
    tree: &Tree,
    cols: u32,
) -> Result<Printed, AllocError>
    requires sound { IsSound definition.now }
    requires formed { (kind : Kind) × WellFormed definition.now tree.now kind }
    ensures arranged { IfOk result (λ printed. printed ≡ arranged_in definition.now layout.now cols tree.now) }
    ensures spaced { IfOk result (λ _. AreSpaced None (row definition.now tree.now)
        (arranged_puts definition.now layout.now cols tree.now)) }
    ensures back { IfOk result (λ _. IsClass definition.now
        → AllByRecursion IsFixedWord (fixed_words definition.now)
        → ReadsBackArranged definition.now layout.now cols tree.now) }
{
    let made = write_both(alloc, definition, layout, tree, cols)?;
    let spans = spans_of(alloc, made.nodes, made.tokens.as_slice(), made.out.len())?;
    let text = Txt::of(alloc, made.out)?;
    Ok(Printed { text, spans })
}

/// Arranges the tree for the columns, as `arrange` does, and returns its text alone. The cost is linear in the text and
/// in the plain text.
pub fn arranged_text(
    alloc: Global,
    definition: &Definition,
    layout: &Layout,
    tree: &Tree,
    cols: u32,
) -> Result<String, AllocError>
    requires sound { IsSound definition.now }
    requires formed { (kind : Kind) × WellFormed definition.now tree.now kind }
    ensures { IfOk result (λ text. string_bytes text ≡ (arranged_in definition.now layout.now cols tree.now).text) }
{
    let made = write_both(alloc, definition, layout, tree, cols)?;
    Ok(made.out)
}
