//! What can follow trees, and the conditions on it.
ghost use Rattle.std.specs.Prelude.{◌≡◌, ◌+◌, IfOk, length, map, vec_len};
ghost use Rattle.psg_grammar.specs.Sound.{IsSound};
ghost use Rattle.psg_class.specs.Checks.{AreHoles, AreSets, has_none, IsFirstOf, IsRead, separator_number};
ghost use Rattle.psg_class.specs.Class.{LedFollows, ListEnd};
ghost use Rattle.psg_class.specs.Numbers.{IsConsistent, IsVocabulary};

use crate::failing::{first_end, first_led};
use crate::grid::Grid;
use crate::shape::Shape;
use crate::sources::{Numbers, Rows, sets};
use crate::vocabulary::Vocabulary;
use psg_grammar::{Definition, ListKind, declaring};
use std::alloc::{AllocError, Global};

/// The sets of terminals of a definition, and the numbers of the separators of its lists.
#[derive(Drop)]
pub(crate) struct Sets {
    pub(crate) rows: Rows,
    pub(crate) separators: Vec<usize>,
    pub(crate) grid: Grid,
}

impl Sets {
    pub(crate) fn of(
        alloc: Global,
        definition: &Definition,
        vocabulary: &Vocabulary,
        shapes: &[Shape],
    ) -> Result<Sets, AllocError>
        requires vocabulary { IsVocabulary definition.now vocabulary.now }
        requires read { IsRead definition.now vocabulary.now.words.items shapes.now }
        ensures { IfOk result (AreSets definition.now vocabulary.now.words.items
            (vocabulary.now.base + length vocabulary.now.words.items)) }
    {
        let phyla = definition.phyla.as_slice();
        let lists = definition.lists.as_slice();
        let width = vocabulary.width()?;
        let rows = Rows::of(phyla.len(), lists.len());
        let holes = hole_flags(alloc, definition)?;
        let separators = separator_numbers(alloc, vocabulary, lists)?;
        let numbers = Numbers {
            holes: holes.as_slice(),
            separators: separators.as_slice(),
            opening: vocabulary.known("("),
            closing: vocabulary.known(")"),
        };
        let grid = sets(alloc, width, &rows, shapes, phyla, lists, numbers)?;
        Ok(Sets {
            rows,
            separators,
            grid,
        })
    }
}

/// Says of each phylum whether it has placeholders: it has some where it declares in no space.
fn hole_flags(alloc: Global, definition: &Definition) -> Result<Vec<bool>, AllocError>
    requires { IsSound definition.now }
    ensures { IfOk result (λ v. AreHoles definition.now v.items) }
{
    let found = declaring(alloc, definition)?;
    let flags = empty_flags(alloc, found.as_slice())?;
    Ok(flags)
}

fn empty_flags(alloc: Global, found: &[Vec<u32>]) -> Result<Vec<bool>, AllocError>
    ensures { IfOk result (λ v. v.items ≡ map has_none found.now) }
{
    let mut flags = Vec::with_capacity(alloc, found.len())?;
    for spaces in found {
        flags.push(spaces.as_slice().len() == 0)?;
    }
    Ok(flags)
}

fn separator_numbers(
    alloc: Global,
    vocabulary: &Vocabulary,
    lists: &[ListKind],
) -> Result<Vec<usize>, AllocError>
    requires { IsConsistent vocabulary.now }
    ensures { IfOk result
        (λ v. v.items ≡ map (separator_number vocabulary.now.base vocabulary.now.words.items) lists.now) }
{
    let mut numbers = Vec::with_capacity(alloc, lists.len())?;
    for list in lists {
        numbers.push(separator_number(vocabulary, list))?;
    }
    Ok(numbers)
}

fn separator_number(vocabulary: &Vocabulary, list: &ListKind) -> usize
    requires { IsConsistent vocabulary.now }
    ensures { result ≡ separator_number vocabulary.now.base vocabulary.now.words.items list.now }
{
    match vocabulary.number(list.separator.as_str()) {
        Some(number) => number,
        None => 0,
    }
}

/// Returns the first led operator whose second token can follow its phylum, with the number of that token.
pub(crate) fn led_follows(
    definition: &Definition,
    vocabulary: &Vocabulary,
    shapes: &[Shape],
    sets: &Sets,
) -> Option<(usize, usize)>
    requires vocabulary { IsVocabulary definition.now vocabulary.now }
    requires read { IsRead definition.now vocabulary.now.words.items shapes.now }
    requires sets { AreSets definition.now vocabulary.now.words.items
        (vocabulary.now.base + length vocabulary.now.words.items) sets.now }
    ensures { IsFirstOf definition.now vocabulary.now.words.items (LedFollows definition.now)
        (length definition.now.operators) result }
{
    first_led(shapes, &sets.rows, &sets.grid)
}

/// Returns the first list that its separator, or a terminal that begins the list, can follow, with the number of the
/// first such terminal.
pub(crate) fn list_end(
    definition: &Definition,
    vocabulary: &Vocabulary,
    sets: &Sets,
) -> Option<(usize, usize)>
    requires sound { IsSound definition.now }
    requires vocabulary { IsVocabulary definition.now vocabulary.now }
    requires sets { AreSets definition.now vocabulary.now.words.items
        (vocabulary.now.base + length vocabulary.now.words.items) sets.now }
    ensures { IsFirstOf definition.now vocabulary.now.words.items (ListEnd definition.now)
        (length definition.now.lists) result }
{
    first_end(
        vocabulary,
        &sets.rows,
        &sets.grid,
        sets.separators.as_slice(),
    )
}
