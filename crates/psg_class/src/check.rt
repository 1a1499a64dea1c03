//! The check of the grammar class, condition by condition.
ghost use Rattle.std.specs.Prelude.{◌≡◌, ◌⊎◌, ◌+◌, IfErr, IfOk, OnOk, length};
ghost use Rattle.psg_grammar.specs.Sound.{IsSound};
ghost use Rattle.psg_class.specs.Checks.{HasShapes, IsFirstOf, IsRead, Refuses};
ghost use Rattle.psg_class.specs.Class.{Holds2, Holds4, Holds6, IsClass, SameFirst, SameLed};
ghost use Rattle.psg_class.specs.Numbers.{IsVocabulary};
ghost use Rattle.psg_class.specs.Only.{HasOnlyTrees};

use crate::behind::{Sets, led_follows, list_end};
use crate::failing::{first_failing, lead_cells, led_cells};
use crate::fault::ClassFault;
use crate::forms::{first_bare, first_misfit, first_mixed, first_not_starting};
use crate::grid::{Cell, repeated};
use crate::shape::{Shape, read_shapes};
use crate::vocabulary::{Vocabulary, terminal_text};
use psg_grammar::Definition;
use std::alloc::{AllocError, Global};

/// Checks that the definition is of the grammar class, in which a list of tokens has at most one tree of a kind. An
/// error names the first of eight conditions that fails, the first operator, phylum or list for which it fails, and of
/// its tokens the first one; or it says that memory ran out.
///
/// The terminals are numbered and the sets of them are one table, with a row for what begins each kind, what can follow
/// it, and what its led operators go on with. Each cell that is set is passed on once, to each row that has all of its
/// row, and one walk over all columns of all those pairs of rows then finds nothing left. `Memory` is returned also
/// where a table would have more than 2^30 cells.
pub fn class_check(alloc: Global, definition: &Definition) -> Result<(), ClassFault>
    requires { IsSound definition.now }
    ensures class { OnOk result (IsClass definition.now) }
    // no list of tokens has two trees
    ensures only { OnOk result (HasOnlyTrees definition.now) }
    ensures refusal { IfErr result (Refuses definition.now) }
{
    let vocabulary = Vocabulary::of(alloc, definition)?;
    let shapes = read_shapes(alloc, &vocabulary, definition.operators.as_slice())?;
    check_all(alloc, definition, &vocabulary, shapes.as_slice())?;
    Ok(())
}

fn check_all(
    alloc: Global,
    definition: &Definition,
    vocabulary: &Vocabulary,
    shapes: &[Shape],
) -> Result<(), ClassFault>
    requires vocabulary { IsVocabulary definition.now vocabulary.now }
    requires read { IsRead definition.now vocabulary.now.words.items shapes.now }
    ensures class { OnOk result (IsClass definition.now) }
    ensures refusal { IfErr result (Refuses definition.now) }
{
    check_forms(definition, shapes)?;
    check_levels(alloc, definition, shapes)?;
    check_begins(alloc, definition, vocabulary, shapes)?;
    check_behind(alloc, definition, vocabulary, shapes)
}

fn check_forms(definition: &Definition, shapes: &[Shape]) -> Result<(), ClassFault>
    requires { HasShapes definition.now shapes.now }
    ensures holds { OnOk result (Holds2 definition.now) }
    ensures refusal { IfErr result (Refuses definition.now) }
{
    if let Some(number) = first_not_starting(shapes) {
        return Err(ClassFault::NoFirst(number as u32));
    }
    if let Some(number) = first_misfit(shapes) {
        return Err(ClassFault::Form(number as u32));
    }
    Ok(())
}

fn check_levels(alloc: Global, definition: &Definition, shapes: &[Shape]) -> Result<(), ClassFault>
    requires shapes { HasShapes definition.now shapes.now }
    requires before { Holds2 definition.now }
    ensures holds { OnOk result (Holds4 definition.now) }
    ensures refusal { IfErr result (Refuses definition.now) }
{
    let phyla = definition.phyla.as_slice();
    if let Some(phylum) = first_bare(alloc, phyla, shapes)? {
        return Err(ClassFault::NoBracket(phylum as u32));
    }
    if let Some((phylum, level)) = first_mixed(alloc, phyla.len(), shapes)? {
        return Err(ClassFault::MixedLevel(phylum as u32, level as u8));
    }
    Ok(())
}

fn check_begins(
    alloc: Global,
    definition: &Definition,
    vocabulary: &Vocabulary,
    shapes: &[Shape],
) -> Result<(), ClassFault>
    requires vocabulary { IsVocabulary definition.now vocabulary.now }
    requires read { IsRead definition.now vocabulary.now.words.items shapes.now }
    requires before { Holds4 definition.now }
    ensures holds { OnOk result (Holds6 definition.now) }
    ensures refusal { IfErr result (Refuses definition.now) }
{
    let phyla = definition.phyla.as_slice();
    if let Some((phylum, column)) = same_first(alloc, definition, vocabulary, shapes)? {
        let token = terminal_text(alloc, vocabulary, phyla, column)?;
        return Err(ClassFault::SameFirst(phylum as u32, token));
    }
    if let Some((phylum, column)) = same_led(alloc, definition, vocabulary, shapes)? {
        let token = terminal_text(alloc, vocabulary, phyla, column)?;
        return Err(ClassFault::SameLed(phylum as u32, token));
    }
    Ok(())
}

fn same_first(
    alloc: Global,
    definition: &Definition,
    vocabulary: &Vocabulary,
    shapes: &[Shape],
) -> Result<Option<(usize, usize)>, AllocError>
    requires vocabulary { IsVocabulary definition.now vocabulary.now }
    requires read { IsRead definition.now vocabulary.now.words.items shapes.now }
    ensures { IfOk result
        (IsFirstOf definition.now vocabulary.now.words.items (SameFirst definition.now) (length definition.now.phyla)) }
{
    let phyla = definition.phyla.as_slice();
    let opening = vocabulary.known("(");
    let cells = lead_cells(alloc, shapes, phyla, opening)?;
    let width = vocabulary.width()?;
    let twice = repeated(alloc, phyla.len(), width, cells.as_slice())?;
    Ok(first_failing(vocabulary, &twice))
}

fn same_led(
    alloc: Global,
    definition: &Definition,
    vocabulary: &Vocabulary,
    shapes: &[Shape],
) -> Result<Option<(usize, usize)>, AllocError>
    requires vocabulary { IsVocabulary definition.now vocabulary.now }
    requires read { IsRead definition.now vocabulary.now.words.items shapes.now }
    ensures { IfOk result
        (IsFirstOf definition.now vocabulary.now.words.items (SameLed definition.now) (length definition.now.phyla)) }
{
    let phyla = definition.phyla.as_slice();
    let cells = led_cells(alloc, shapes)?;
    let width = vocabulary.width()?;
    let twice = repeated(alloc, phyla.len(), width, cells.as_slice())?;
    Ok(first_failing(vocabulary, &twice))
}

fn check_behind(
    alloc: Global,
    definition: &Definition,
    vocabulary: &Vocabulary,
    shapes: &[Shape],
) -> Result<(), ClassFault>
    requires vocabulary { IsVocabulary definition.now vocabulary.now }
    requires read { IsRead definition.now vocabulary.now.words.items shapes.now }
    requires before { Holds6 definition.now }
    ensures class { OnOk result (IsClass definition.now) }
    ensures refusal { IfErr result (Refuses definition.now) }
{
    let phyla = definition.phyla.as_slice();
    let sets = Sets::of(alloc, definition, vocabulary, shapes)?;
    if let Some((operator, column)) = led_follows(definition, vocabulary, shapes, &sets) {
        let token = terminal_text(alloc, vocabulary, phyla, column)?;
        return Err(ClassFault::LedFollows(operator as u32, token));
    }
    if let Some((list, column)) = list_end(definition, vocabulary, &sets) {
        let token = terminal_text(alloc, vocabulary, phyla, column)?;
        return Err(ClassFault::ListEnd(list as u32, token));
    }
    Ok(())
}
