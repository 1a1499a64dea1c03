//! What evaluations begin with. It depends on no tree, so it is made once for a definition.
ghost use Rattle.std.specs.Prelude.{◌≡◌, ◌<◌, ◌∷◌, [], false, IfOk, IfSome, Ok as InOk, Some};
ghost use Rattle.std.specs.Prelude.{length, option_copied, slice_get, true};
ghost use Rattle.psg_grammar.specs.declared.types.Definition.{Definition as Language};
ghost use Rattle.psg_grammar.specs.declared.types.Operator.{Operator as OfGrammar};
ghost use Rattle.psg_grammar.specs.Fragments.{ending, hole};
ghost use Rattle.psg_grammar.specs.Sound.{IsOperator, IsSound};
ghost use Rattle.psg_eval.specs.SpaceTables.{AreDeclaringSpaces};
ghost use Rattle.psg_eval.specs.Starts.{AreHoleStarts, AreListStarts, AreOperatorStarts, AreStarts, IsCellBegun};
ghost use Rattle.psg_eval.specs.Starts.{IsListStart, IsNamed, IsOperatorStart, IsOwnBegun, IsTreeStart};
ghost use Rattle.psg_eval.specs.Summaries.{AreSpacesOfList, are_names, slot_kinds};

use crate::cell::cell_start;
use crate::leaves::{closed_end, open_end, placeholder};
use crate::node::node;
use crate::own::{first_step, item_places};
use crate::partial::Partial;
use crate::summary::{EvalFault, Summary};
use psg_grammar::{Definition, Operator, name_positions, slots};
use psg_relation::RelFault;
use psg_scope::{Header, NameCol, Names};
use psg_terms::{Seq, Txt};
use std::alloc::{AllocError, Global};

/// What the evaluations of an operator's nodes begin with, where it is the same for all names.
#[derive(Drop)]
pub(crate) enum OperatorStart {
    /// It is made by each evaluation: there are two names or more, or it is too large.
    Unknown,
    /// The summary of the node: there are no names and no slots.
    Whole(Summary),
    /// The operator without children: there are no names.
    Bare(Partial),
    /// The operator without children: there is one name.
    Named(NamedStart),
}

/// An operator with one name position and without children, under some name.
#[derive(Drop)]
pub(crate) struct NamedStart {
    space: u32,
    declared: bool,
    bare: Partial,
}

/// What the evaluations of a list's parts begin with.
#[derive(Drop)]
pub(crate) struct ListStart {
    /// The summary of the end of an unfinished list.
    pub(crate) unfinished: Option<Summary>,
    /// The summary of the end of a finished list.
    pub(crate) finished: Option<Summary>,
    /// The cell without its two children.
    pub(crate) cell: Option<Partial>,
}

/// What the evaluations of a definition's trees begin with. What is too large for a relation is not there.
#[derive(Drop)]
pub(crate) struct Starts {
    /// The summaries of placeholders, by phylum.
    pub(crate) holes: Vec<Option<Summary>>,
    pub(crate) lists: Vec<ListStart>,
    pub(crate) operators: Vec<OperatorStart>,
    /// What is known of an operator that is not there.
    pub(crate) unknown: OperatorStart,
}

/// Returns the summary, if no step was too large.
fn kept(made: Result<Summary, EvalFault>) -> Result<Option<Summary>, AllocError>
    ensures { IfOk result (λ o. IfSome o (λ s. made ≡ InOk s)) }
{
    match made {
        Ok(summary) => Ok(Some(summary)),
        Err(EvalFault::Wide { step: _ }) => Ok(None),
        Err(EvalFault::Memory) => Err(AllocError),
    }
}

/// Returns what is known of the node without children, if that is not too large.
fn begun(made: Result<Partial, RelFault>) -> Result<Option<Partial>, AllocError>
    ensures { IfOk result (λ o. IfSome o (λ p. made ≡ InOk p)) }
{
    match made {
        Ok(partial) => Ok(Some(partial)),
        Err(RelFault::Wide) => Ok(None),
        Err(RelFault::Memory) => Err(AllocError),
    }
}

/// Returns the summaries of placeholders.
fn hole_starts(alloc: Global, definition: &Definition) -> Result<Vec<Option<Summary>>, AllocError>
    requires { IsSound definition.now }
    ensures { IfOk result (λ made. AreHoleStarts definition.now made.items) }
{
    let count = definition.phyla.as_slice().len();
    let mut made = Vec::with_capacity(alloc, count)?;
    for phylum in 0..count {
        let answer = placeholder(alloc, definition, phylum as u32);
        let summary = kept(answer)?;
        made.push(summary)?;
    }
    Ok(made)
}

/// Returns the spaces in which the list's elements declare. `spaces` has those of each phylum.
pub(crate) fn spaces_of<'a>(definition: &Definition, spaces: &'a [Vec<u32>], list: u32) -> &'a [u32]
    requires sound { IsSound definition.now }
    requires spaces { AreDeclaringSpaces definition.now spaces.now }
    requires there { list < length definition.now.lists }
    ensures { AreSpacesOfList definition.now list result.now }
{
    let kind = &definition.lists.as_slice()[list as usize];
    spaces[kind.element as usize].as_slice()
}

/// Returns what the evaluations of the list's parts begin with. `spaces` has the spaces in which each phylum declares.
fn list_start(
    alloc: Global,
    definition: &Definition,
    spaces: &[Vec<u32>],
    list: u32,
) -> Result<ListStart, AllocError>
    requires sound { IsSound definition.now }
    requires spaces { AreDeclaringSpaces definition.now spaces.now }
    requires there { list < length definition.now.lists }
    ensures { IfOk result (IsListStart definition.now list) }
{
    let own = spaces_of(definition, spaces, list);
    let open = open_end(alloc, definition, own, list);
    let unfinished = kept(open)?;
    let closed = closed_end(alloc, definition, list);
    let finished = kept(closed)?;
    let start = cell_start(alloc, definition, list);
    let cell = begun(start)?;
    Ok(ListStart {
        unfinished,
        finished,
        cell,
    })
}

/// Returns what the evaluations of lists begin with.
fn list_starts(
    alloc: Global,
    definition: &Definition,
    spaces: &[Vec<u32>],
) -> Result<Vec<ListStart>, AllocError>
    requires sound { IsSound definition.now }
    requires spaces { AreDeclaringSpaces definition.now spaces.now }
    ensures { IfOk result (λ made. AreListStarts definition.now made.items) }
{
    let count = definition.lists.as_slice().len();
    let mut made = Vec::with_capacity(alloc, count)?;
    for list in 0..count {
        let start = list_start(alloc, definition, spaces, list as u32)?;
        made.push(start)?;
    }
    Ok(made)
}

/// Returns the summary of the node of an operator without names and slots, if no step is too large.
fn whole_start(
    alloc: Global,
    definition: &Definition,
    operator: &Operator,
) -> Result<OperatorStart, AllocError>
    requires sound { IsSound definition.now }
    requires operator { IsOperator definition.now operator.now }
    requires names { length (are_names definition.now operator.now.items) ≡ 0 }
    requires slots { slot_kinds definition.now operator.now.items ≡ [] }
    ensures { IfOk result (IsOperatorStart definition.now operator.now) }
{
    let unknown = OperatorStart::Unknown;
    let made = node(alloc, definition, &unknown, operator, &[], &[]);
    let whole = kept(made)?;
    match whole {
        Some(summary) => Ok(OperatorStart::Whole(summary)),
        None => Ok(OperatorStart::Unknown),
    }
}

/// Returns the operator without children, if it has no names and is not too large.
fn bare_start(
    alloc: Global,
    definition: &Definition,
    operator: &Operator,
) -> Result<OperatorStart, AllocError>
    requires operator { IsOperator definition.now operator.now }
    requires names { length (are_names definition.now operator.now.items) ≡ 0 }
    ensures { IfOk result (IsOperatorStart definition.now operator.now) }
{
    let made = first_step(alloc, definition, operator, &[]);
    let first = begun(made)?;
    match first {
        Some(bare) => Ok(OperatorStart::Bare(bare)),
        None => Ok(OperatorStart::Unknown),
    }
}

/// Returns a list of one name, the empty one.
fn some_name(alloc: Global) -> Result<Vec<Txt>, AllocError>
    ensures { IfOk result (λ names. length names.items ≡ 1) }
{
    let mut names = Vec::with_capacity(alloc, 1)?;
    let name = Txt::copy_of(alloc, "")?;
    names.push(name)?;
    Ok(names)
}

/// Returns the operator without children, if it has one name and is not too large.
fn named_start(
    alloc: Global,
    definition: &Definition,
    operator: &Operator,
) -> Result<OperatorStart, AllocError>
    requires operator { IsOperator definition.now operator.now }
    requires names { length (are_names definition.now operator.now.items) ≡ 1 }
    ensures { IfOk result (IsOperatorStart definition.now operator.now) }
{
    let some = some_name(alloc)?;
    let names = some.as_slice();
    let found = item_places(alloc, operator.items.as_slice(), names)?;
    let positions = found.positions.as_slice();
    if positions.is_empty() {
        return Ok(OperatorStart::Unknown);
    }
    let position = &positions[0];
    let space = position.space;
    let declared = position.declared;
    let made = first_step(alloc, definition, operator, names);
    let first = begun(made)?;
    match first {
        Some(bare) => Ok(OperatorStart::Named(NamedStart {
            space,
            declared,
            bare,
        })),
        None => Ok(OperatorStart::Unknown),
    }
}

/// Returns what the evaluations of the operator's nodes begin with, if it is the same for all names.
fn operator_start(
    alloc: Global,
    definition: &Definition,
    operator: &Operator,
) -> Result<OperatorStart, AllocError>
    requires sound { IsSound definition.now }
    requires operator { IsOperator definition.now operator.now }
    ensures { IfOk result (IsOperatorStart definition.now operator.now) }
{
    let names = name_positions(operator);
    if names > 1 {
        return Ok(OperatorStart::Unknown);
    }
    if names == 1 {
        return named_start(alloc, definition, operator);
    }
    if slots(operator) == 0 {
        return whole_start(alloc, definition, operator);
    }
    bare_start(alloc, definition, operator)
}

/// Returns what the evaluations of operators' nodes begin with.
fn operator_starts(alloc: Global, definition: &Definition) -> Result<Vec<OperatorStart>, AllocError>
    requires { IsSound definition.now }
    ensures { IfOk result (λ made. AreOperatorStarts definition.now made.items) }
{
    let operators = definition.operators.as_slice();
    let mut made = Vec::with_capacity(alloc, operators.len())?;
    for op in 0..operators.len() {
        let start = operator_start(alloc, definition, &operators[op])?;
        made.push(start)?;
    }
    Ok(made)
}

impl NamedStart {
    /// Returns the operator under this name, without children.
    pub(crate) fn under(&self, alloc: Global, name: &Txt) -> Result<Partial, AllocError>
        ensures { IfOk result (λ p. (def : Language) (op : OfGrammar) → IsNamed def op self.now
            → IsOwnBegun def op (name.now ∷ []) p) }
    {
        let header = header_of_name(alloc, self.space, name, self.declared)?;
        let rel = self.bare.rel.share(alloc)?;
        Ok(Partial {
            header,
            seen: 0,
            wanted: self.bare.wanted,
            rel,
        })
    }
}

/// Returns the header of one position.
fn header_of_name(
    alloc: Global,
    space: u32,
    name: &Txt,
    declared: bool,
) -> Result<Header, AllocError>
    ensures { IfOk result (λ h. h ≡ record {
      names = record { space = space; name = name.now; declared = declared } ∷ [];
      unfinished = [];
      twice = false;
    }) }
{
    let mut names = Vec::with_capacity(alloc, 1)?;
    let name = name.share()?;
    names.push(NameCol {
        space,
        name,
        declared,
    })?;
    Ok(Header {
        names: Names::of(alloc, names)?,
        unfinished: Seq::of(Vec::new(alloc)),
        twice: false,
    })
}

/// Returns the summary at the place, if it is there.
fn kept_at(entries: &[Option<Summary>], number: u32) -> Option<&Summary>
    ensures { IfSome (option_copied result) (λ s. slice_get entries.now number ≡ Some (Some s)) }
{
    let place = number as usize;
    if place >= entries.len() {
        return None;
    }
    entries[place].as_ref()
}

/// Returns what is known of the operator at the place, if it is there.
fn start_at(entries: &[OperatorStart], number: u32) -> Option<&OperatorStart>
    ensures { IfSome (option_copied result) (λ s. slice_get entries.now number ≡ Some s) }
{
    let place = number as usize;
    if place >= entries.len() {
        return None;
    }
    Some(&entries[place])
}

/// Returns `one` where `here` holds, else `other`.
fn either<'a>(
    here: bool,
    one: &'a Option<Summary>,
    other: &'a Option<Summary>,
) -> &'a Option<Summary>
    ensures here { here ≡ true → result.now ≡ one.now }
    ensures other { here ≡ false → result.now ≡ other.now }
{
    if here { one } else { other }
}

impl ListStart {
    /// Returns the summary of the list's end, if it is there.
    fn end(&self, unfinished: bool) -> Option<&Summary>
        ensures unfinished { unfinished ≡ true → option_copied result ≡ self.now.unfinished }
        ensures finished { unfinished ≡ false → option_copied result ≡ self.now.finished }
    {
        either(unfinished, &self.unfinished, &self.finished).as_ref()
    }
}

impl Starts {
    /// Makes nothing, so that each evaluation makes what it begins with.
    pub(crate) fn none(alloc: Global) -> Starts
        ensures { (def : Language) → AreStarts def result }
    {
        let holes = Vec::new(alloc);
        let lists = Vec::new(alloc);
        let operators = Vec::new(alloc);
        Starts {
            holes,
            lists,
            operators,
            unknown: OperatorStart::Unknown,
        }
    }

    /// Makes what the evaluations of the definition's trees begin with. `spaces` has the spaces in which each phylum
    /// declares.
    pub(crate) fn of(
        alloc: Global,
        definition: &Definition,
        spaces: &[Vec<u32>],
    ) -> Result<Starts, AllocError>
        requires sound { IsSound definition.now }
        requires spaces { AreDeclaringSpaces definition.now spaces.now }
        ensures { IfOk result (AreStarts definition.now) }
    {
        let holes = hole_starts(alloc, definition)?;
        let lists = list_starts(alloc, definition, spaces)?;
        let operators = operator_starts(alloc, definition)?;
        Ok(Starts {
            holes,
            lists,
            operators,
            unknown: OperatorStart::Unknown,
        })
    }

    /// Returns the summary of a placeholder of the phylum, if it is there.
    pub(crate) fn hole(&self, phylum: u32) -> Option<&Summary>
        ensures { (def : Language) → AreStarts def self.now
            → IfSome (option_copied result) (IsTreeStart def (hole phylum)) }
    {
        kept_at(self.holes.as_slice(), phylum)
    }

    /// Returns what is there of the list.
    fn list(&self, list: u32) -> Option<&ListStart>
        ensures { (def : Language) → AreStarts def self.now → IfSome (option_copied result) (IsListStart def list) }
    {
        let lists = self.lists.as_slice();
        let place = list as usize;
        if place >= lists.len() {
            return None;
        }
        Some(&lists[place])
    }

    /// Returns the summary of the list's end, if it is there.
    pub(crate) fn end(&self, list: u32, unfinished: bool) -> Option<&Summary>
        ensures { (def : Language) → AreStarts def self.now
            → IfSome (option_copied result) (IsTreeStart def (ending list unfinished)) }
    {
        match self.list(list) {
            Some(start) => start.end(unfinished),
            None => None,
        }
    }

    /// Returns the list's cell without its children, if it is there.
    pub(crate) fn cell(&self, list: u32) -> Option<&Partial>
        ensures { (def : Language) → AreStarts def self.now → IfSome (option_copied result) (IsCellBegun def list) }
    {
        match self.list(list) {
            Some(start) => start.cell.as_ref(),
            None => None,
        }
    }

    /// Returns what the evaluations of the operator's nodes begin with.
    pub(crate) fn operator(&self, op: u32) -> &OperatorStart
        ensures { (def : Language) (operator : OfGrammar) → AreStarts def self.now
            → slice_get def.operators op ≡ Some operator → IsOperatorStart def operator result.now }
    {
        match start_at(self.operators.as_slice(), op) {
            Some(found) => found,
            None => &self.unknown,
        }
    }
}
