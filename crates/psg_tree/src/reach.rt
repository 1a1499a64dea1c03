//! Whether a declaring position can be reached from a phylum.
//!
//! The phyla found on the way are kept in a chain on the stack, so the search takes no memory from an allocator.
ghost use Rattle.std.specs.Prelude.{◌≡◌, ◌↔◌, ℕ, IsTrue, IsSome, IfSome, slice_get};
ghost use Rattle.psg_grammar.specs.Declaring.{Declares};
ghost use Rattle.psg_grammar.specs.declared.types.Kind.TheVariants as kinds;
ghost use Rattle.psg_tree.specs.Reaching as reaching;

use psg_grammar::{Definition, Item, Kind, Operator};

/// The phyla found so far, the last one first.
#[derive(Clone, Copy)]
enum PhylumChain<'a> {
    Only(u32),
    More(u32, &'a PhylumChain<'a>),
}

impl PhylumChain<'_> {
    /// Says whether the phylum was found.
    fn has(&self, phylum: u32) -> bool
        ensures { result ≡ reaching.is_in phylum (reaching.chain_phyla self.now) }
    {
        match self {
            PhylumChain::Only(first) => *first == phylum,
            PhylumChain::More(last, before) => *last == phylum || before.has(phylum),
        }
    }
}

/// What is one step away from the phyla found.
#[derive(Clone, Copy)]
enum Step {
    /// A declaring position.
    Declares,
    /// A phylum that is not found yet.
    To(u32),
    /// Nothing new.
    Closed,
}

/// Returns the phylum whose trees are at places of the kind.
fn phylum_of(definition: &Definition, kind: Kind) -> Option<u32>
    ensures { result ≡ reaching.phylum_of definition.now kind }
{
    match kind {
        Kind::Phylum(phylum) => Some(phylum),
        Kind::List(list) => match definition.lists.as_slice().get(list as usize) {
            None => None,
            Some(kind) => Some(kind.element),
        },
    }
}

/// Returns the step to a place of the kind.
fn kind_step(definition: &Definition, kind: Kind, found: &PhylumChain) -> Step
    ensures { reaching.IsKindStep definition.now (reaching.chain_phyla found.now) kind result }
{
    match phylum_of(definition, kind) {
        None => Step::Closed,
        Some(phylum) => {
            if found.has(phylum) {
                Step::Closed
            } else {
                Step::To(phylum)
            }
        }
    }
}

/// Returns the step that an item makes.
fn item_step(definition: &Definition, item: &Item, found: &PhylumChain) -> Step
    ensures { reaching.IsItemStep definition.now (reaching.chain_phyla found.now) item.now result }
{
    match item {
        Item::Declares(_) => Step::Declares,
        Item::Slot(kind) => kind_step(definition, *kind, found),
        _ => Step::Closed,
    }
}

/// Returns the first step that one of the items makes.
fn items_step(definition: &Definition, items: &[Item], found: &PhylumChain) -> Step
    ensures { reaching.IsItemsStep definition.now (reaching.chain_phyla found.now) items.now result }
{
    for item in items {
        match item_step(definition, item, found) {
            Step::Closed => {}
            step => return step,
        }
    }
    Step::Closed
}

/// Returns the first step that an operator of a phylum found makes, scope operators aside.
fn operators_step(definition: &Definition, operators: &[Operator], found: &PhylumChain) -> Step
    ensures { reaching.IsOperatorsStep definition.now (reaching.chain_phyla found.now) operators.now result }
{
    for operator in operators {
        if !operator.scope && found.has(operator.phylum) {
            match items_step(definition, operator.items.as_slice(), found) {
                Step::Closed => {}
                step => return step,
            }
        }
    }
    Step::Closed
}

/// Says whether a declaring position can be reached from one of the phyla found.
fn reaches(definition: &Definition, found: &PhylumChain) -> bool
    ensures { IsTrue result ↔ reaching.AnyDeclare definition.now (reaching.chain_phyla found.now) }
{
    match operators_step(definition, definition.operators.as_slice(), found) {
        Step::Declares => true,
        Step::Closed => false,
        Step::To(phylum) => reaches(definition, &PhylumChain::More(phylum, &*found)),
    }
}

/// Says whether a declaring position can be reached from the phylum without passing a scope operator. For each phylum
/// that can be reached it goes once over all operators, and looks up the phylum of each slot among those found.
pub fn declares(definition: &Definition, phylum: u32) -> bool
    ensures { IsTrue result ↔ reaching.PhylumDeclares definition.now phylum }
{
    reaches(definition, &PhylumChain::Only(phylum))
}
