//! Reading a layout.
ghost use Rattle.std.specs.Prelude.{◌≡◌, ◌<◌, ◌≤◌, ◌==◌, cond, ◌+◌, ◌^◌, ◌∷◌, ◌++◌, [], ℕ, List, Some};
ghost use Rattle.std.specs.Prelude.{count_by, length, take, map, IfErr, IfOk, OnOk};
ghost use Rattle.std.specs.Bool.{Decides};
ghost use Rattle.std.specs.Str.Lines.{lines};
ghost use Rattle.psg_deflines.specs.Refusals.{line_feeds};
ghost use Rattle.psg_grammar.specs.Kinds.{op_name_of};
ghost use Rattle.psg_grammar.specs.Lookups.{operator_at};
ghost use Rattle.psg_grammar.specs.Sound.{IsSound};
ghost use Rattle.psg_grammar.specs.declared.types.Definition.{Definition as PlainDefinition};
ghost use Rattle.psg_layout.specs.Arranged as arranged;
ghost use Rattle.psg_layout.specs.Layouts.{AreLayout, HasItem, IsLayoutFault, IsLayoutOf, LayoutRefusal, op_of};
ghost use Rattle.psg_layout.specs.Layouts.{Rule as PlainRule};
ghost use Rattle.psg_layout.specs.Layouts as layouts;
ghost use Rattle.psg_layout.specs.Reading.{IsLineFault, IsLineRead, IsRead, has_rule, items_in, test_of};
ghost use Rattle.psg_layout.specs.Rules.{said};
ghost use Rattle.psg_layout.specs.declared.layout.Layout.{Layout as PlainLayout};

use crate::layout::{Layout, LayoutFault};
use crate::rule::{Rule, is_skipped, rule_of};
use crate::rules::Rules;
use crate::writing::after;
use psg_grammar::{Definition, Item, op_named};
use psg_terms::Seq;
use std::alloc::{AllocError, Global};

/// The first test that a line fails.
#[derive(Clone, Copy)]
pub(crate) enum Failed {
    /// The line has neither form.
    Form,
    /// There is no operator of the name.
    Unknown,
    /// The operator has no item of the number, or it is the first one.
    Place,
    /// The line is there twice.
    Repeated,
}

/// Returns the code of the test.
fn code_of(failed: Failed) -> u32
    ensures { result ≡ layouts.code_of (test_of failed) }
{
    match failed {
        Failed::Form => 2,
        Failed::Unknown => 5,
        Failed::Place => 7,
        Failed::Repeated => 4,
    }
}

/// Says whether the item is no layout mark.
fn is_counted(item: &Item) -> bool
    ensures { result ≡ arranged.is_counted item.now }
{
    !matches!(
        item,
        Item::Space | Item::Tight | Item::Line | Item::In | Item::Out
    )
}

/// Returns how many items there are, without layout marks.
fn counted(items: &[Item]) -> usize
    ensures { result ≡ count_by arranged.is_counted items.now }
{
    items.iter().filter(|item| is_counted(item)).count()
}

/// Returns how many items the operator has, without layout marks.
fn items_of(definition: &Definition, op: u32) -> usize
    ensures { result ≡ items_in (operator_at definition.now op) }
{
    match definition.operators.as_slice().get(op as usize) {
        Some(operator) => counted(operator.items.as_slice()),
        None => 0,
    }
}

/// Says whether the number is that of one of that many items, which is not the first one.
fn is_item(place: u32, count: usize) -> bool
    ensures { Decides result ((1 ≤ place) × (place < count)) }
{
    1 <= place && (place as usize) < count
}

/// Says whether a break is before an item that the operator has, and which is not its first one.
fn has_item(definition: &Definition, op: u32, rule: &Rule<'_>) -> bool
    requires sound { IsSound definition.now }
    requires named { op_name_of definition.now op ≡ Some (op_of (said rule.now)) }
    ensures { Decides result (HasItem definition.now (said rule.now)) }
{
    match rule {
        Rule::Group(_) => true,
        Rule::Break(_, place) => is_item(*place, items_of(definition, op)),
    }
}

/// The lines that were read.
#[derive(Drop)]
pub(crate) struct Read {
    pub(crate) groups: Vec<u32>,
    pub(crate) breaks: Vec<(u32, u32)>,
    pub(crate) rules: Rules,
}

impl Read {
    /// Begins to read.
    fn new(alloc: Global) -> Read
        ensures { (def : PlainDefinition) → IsRead def result [] }
    {
        Read {
            groups: Vec::new(alloc),
            breaks: Vec::new(alloc),
            rules: Rules::new(alloc),
        }
    }

    /// Says whether the line of the operator was read before.
    fn has(&self, op: u32, rule: &Rule<'_>) -> bool
        ensures { result ≡ has_rule self.now op (said rule.now) }
    {
        match rule {
            Rule::Group(_) => self.rules.is_group(op),
            Rule::Break(_, place) => self.rules.is_break(op, *place),
        }
    }

    /// Keeps the line of the operator.
    fn put(&mut self, op: u32, rule: &Rule<'_>) -> Result<(), AllocError>
        ensures { OnOk result ((def : PlainDefinition) (rules : List PlainRule) → IsRead def self.old rules
            → op_name_of def op ≡ Some (op_of (said rule.now))
            → IsRead def self.new (rules ++ said rule.now ∷ [])) }
    {
        match rule {
            Rule::Group(_) => {
                self.groups.push(op)?;
                self.rules.put_group(op)?;
                Ok(())
            }
            Rule::Break(_, place) => {
                self.breaks.push((op, *place))?;
                self.rules.put_break((op, *place))?;
                Ok(())
            }
        }
    }

    /// Reads what a line says. It returns the first test that the line fails, if it fails one.
    fn read_rule(
        &mut self,
        definition: &Definition,
        rule: &Rule<'_>,
    ) -> Result<Option<Failed>, AllocError>
        requires { IsSound definition.now }
        ensures { IfOk result (λ found. (line : List ℕ) → layouts.SpellsRule line (said rule.now)
            → IsLineRead definition.now line self.old self.new found) }
    {
        let Some(op) = op_named(definition, rule.op()) else {
            return Ok(Some(Failed::Unknown));
        };
        if !has_item(definition, op, rule) {
            return Ok(Some(Failed::Place));
        }
        if self.has(op, rule) {
            return Ok(Some(Failed::Repeated));
        }
        self.put(op, rule)?;
        Ok(None)
    }

    /// Reads a line. It returns the first test that the line fails, if it fails one.
    fn read(&mut self, definition: &Definition, line: &str) -> Result<Option<Failed>, AllocError>
        requires { IsSound definition.now }
        ensures { IfOk result (IsLineRead definition.now line.now self.old self.new) }
    {
        if is_skipped(line) {
            return Ok(None);
        }
        match rule_of(line) {
            Some(rule) => {
                let found = self.read_rule(definition, &rule)?;
                Ok(found)
            }
            None => Ok(Some(Failed::Form)),
        }
    }
}

/// Returns the lines of a text, each without its line feed and one carriage return in front of it.
fn text_lines<'a>(alloc: Global, text: &'a str) -> Result<Vec<&'a str>, AllocError>
    ensures { IfOk result (λ v. map (λ t. t.now) v.items ≡ lines text.now) }
{
    text.lines().collect(alloc)
}

/// Returns the number of the line after the byte.
fn next_line(line: u32, byte: u8) -> Result<u32, AllocError>
    ensures { IfOk result (λ next. next ≡ line + cond (byte == 10) 1 0) }
{
    if byte == b'\n' {
        let next = after(line)?;
        Ok(next)
    } else {
        Ok(line)
    }
}

/// Returns the number of the line after the line feeds of the bytes.
fn line_after(bytes: &[u8]) -> Result<u32, AllocError>
    ensures { IfOk result (λ line. line ≡ line_feeds bytes.now + 1) }
{
    let mut line: u32 = 1;
    for byte in bytes {
        line = next_line(line, *byte)?;
    }
    Ok(line)
}

/// Returns the fault of bytes of which the longest beginning that is UTF-8 has `valid` bytes.
fn not_text(bytes: &[u8], valid: usize) -> Result<LayoutFault, AllocError>
    requires { valid < length bytes.now }
    ensures { IfOk result (λ fault. fault ≡ LayoutFault.Line (line_feeds (take valid bytes.now) + 1) 1) }
{
    let (before, _) = bytes.split_at(valid);
    let line = line_after(before)?;
    Ok(LayoutFault::Line { line, code: 1 })
}

/// Reads the lines of a layout.
fn read_lines(alloc: Global, definition: &Definition, texts: &[&str]) -> Result<Layout, LayoutFault>
    requires { IsSound definition.now }
    ensures ok { IfOk result (AreLayout definition.now (map (λ t. t.now) texts.now)) }
    ensures err { IfErr result (IsLineFault definition.now (map (λ t. t.now) texts.now)) }
{
    let mut read = Read::new(alloc);
    let mut line: u32 = 1;
    for text in texts {
        let found = read.read(definition, text)?;
        match found {
            Some(failed) => {
                let code = code_of(failed);
                return Err(LayoutFault::Line { line, code });
            }
            None => {}
        }
        line = after(line)?;
    }
    let Read { groups, breaks, .. } = read;
    Ok(Layout {
        groups: Seq::of(groups),
        breaks: Seq::of(breaks),
    })
}

/// Reads a layout of the language's operators. Its lines are `group OP` and `break OP ITEM`, with spaces between the
/// words. Empty lines and those that begin with `#` are skipped.
///
/// A fault is the first one. Bytes that are not UTF-8 are first, then lines in order; on a line the tests 2, 5, 7, 4 in
/// this order. `Memory` is returned when memory runs out, at any time. It takes time linear in the bytes and, for each
/// line, in the operators of the definition.
pub fn read_layout(
    alloc: Global,
    definition: &Definition,
    bytes: &[u8],
) -> Result<Layout, LayoutFault>
    requires few { length bytes.now < 2 ^ 32 }
    requires sound { IsSound definition.now }
    ensures ok { IfOk result (IsLayoutOf definition.now bytes.now) }
    ensures only { IfOk result
        (λ read. (other : PlainLayout) → IsLayoutOf definition.now bytes.now other → other ≡ read) }
    ensures faultless { IfOk result (λ _. (line code : ℕ) → LayoutRefusal definition.now bytes.now line code → ⊥) }
    ensures err { IfErr result (IsLayoutFault definition.now bytes.now) }
{
    let text = match str::from_utf8(bytes) {
        Ok(text) => text,
        Err(fault) => {
            let refused = not_text(bytes, fault.valid_up_to())?;
            return Err(refused);
        }
    };
    let texts = text_lines(alloc, text)?;
    let layout = read_lines(alloc, definition, texts.as_slice())?;
    Ok(layout)
}
