//! Laws of completions.
ghost use Rattle.std.specs.Prelude.{ℕ, Bool, List};
ghost use Rattle.psg_terms.specs.Names.{Name};
ghost use Rattle.psg_grammar.specs.declared.types.Kind.{Kind};
ghost use Rattle.psg_grammar.specs.Fragments.{Fragment};
ghost use Rattle.psg_keymap.specs.declared.spots.Spot.{Spot};
ghost use Rattle.psg_completing.specs.declared.offering.Entry.{Entry};
ghost use Rattle.psg_completing.specs.Each.{AreEach, entry_operators};
ghost use Rattle.psg_completing.specs.Offering.{AreOffered};

use psg_grammar::Definition;

/// States that where operators are offered each of them that the language has gets an entry or more, in their order,
/// and that no entry is of another operator.
pub fn offers_all(definition: &Definition)
    ensures { (kind : Kind) (tree : Fragment) (spot : Spot) (least : ℕ) (sample : Name) (prefix : List ℕ)
        (ops : List Name) (entries : List Entry) (more : Bool)
        → AreOffered definition.now kind tree spot least sample prefix ops entries more
        → AreEach definition.now ops (entry_operators entries) }
{
    let _same = definition;
}
