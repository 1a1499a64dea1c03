//! A definition, and in which spaces its phyla declare.
ghost use Rattle.std.specs.Prelude.{◌≡◌};
ghost use Rattle.psg_places.specs.Openings.{has_spaces as has_spaces_of};
ghost use Rattle.psg_places.specs.Places as places;
ghost use Rattle.psg_known.specs.Knowns.{IsKnown};

use psg_grammar::Definition;

/// A definition, and in which spaces its phyla declare.
#[derive(Clone, Copy)]
pub struct Known<'a> {
    /// The definition.
    pub definition: &'a Definition,
    /// For each phylum the spaces in which it declares.
    pub spaces: &'a [Vec<u32>],
}

/// Says whether the table has a space for the phylum.
fn has_spaces(spaces: &[Vec<u32>], phylum: u32) -> bool
    ensures { result ≡ has_spaces_of spaces.now phylum }
{
    match spaces.get(phylum as usize) {
        Some(own) => !own.as_slice().is_empty(),
        None => false,
    }
}

/// Says whether trees of the phylum declare.
pub fn declares(known: Known, phylum: u32) -> bool
    requires known { IsKnown known }
    ensures { result ≡ places.declares known.entry.definition.now phylum }
{
    has_spaces(known.spaces, phylum)
}
