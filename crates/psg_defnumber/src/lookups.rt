//! What names mean in a definition.
ghost use Rattle.std.specs.Prelude.{◌≡◌, ◌<◌, ℕ, IsTrue, Some, is_some, length, slice_get};
ghost use Rattle.psg_terms.specs.Names.{is_among};
ghost use Rattle.psg_terms.specs.Signature.{Symbol};
ghost use Rattle.psg_terms.specs.Kept.{numbers_of};
ghost use Rattle.psg_grammar.specs.declared.types.Kind.TheVariants as kinds;
ghost use Rattle.psg_grammar.specs.Sound.{HasKindSort, HasSpaceSort};
ghost use Rattle.psg_defcheck.specs.Checks.{IsKindAt};
ghost use Rattle.psg_defcheck.specs.Meanings.{KnowsSpace};
ghost use Rattle.psg_defcheck.specs.Scopes.{is_kind, is_list, is_phylum, list_names, operator_declared, phylum_names};
ghost use Rattle.psg_defcheck.specs.Scopes.{constructor_declared, sort_names};
ghost use Rattle.psg_defnumber.specs.Declaring.{HasConstructors, HasNames, IsSpaceAt};
ghost use Rattle.psg_defnumber.specs.Growing.{Lasts};
ghost use Rattle.psg_defnumber.specs.Numbers.{IsOperatorNamed};

use psg_defcheck::CheckedLines;
use psg_grammar::{Definition, Kind, ListKind, Operator, Phylum};
use psg_terms::{ConId, Constructor, Signature, SortId, Txt};

/// Returns the number of the sort of the name.
pub fn sort_named(checked: &CheckedLines, name: &Txt) -> SortId
    requires { IsTrue (is_among (sort_names checked.now) name.now) }
    ensures { slice_get (sort_names checked.now) result.0 ≡ Some name.now }
{
    let number = checked.sort(name.as_str());
    SortId(number)
}

/// Returns the constructor at the position.
fn constructor_at(sig: &Signature, place: usize) -> ConId
    requires { place < length sig.now.symbols }
    ensures { result.0 ≡ place }
{
    if place < sig.constructors() as usize {
        ConId(place as u32)
    } else {
        unreachable!()
    }
}

/// Returns the constructor of the name with its number.
pub fn constructor_named<'d>(
    sig: &'d Signature,
    checked: &CheckedLines,
    name: &Txt,
) -> (ConId, &'d Constructor)
    requires there { IsTrue (is_some (constructor_declared checked.now name.now)) }
    requires constructors { HasConstructors checked.now sig.now }
    ensures { (s : Symbol) × (slice_get sig.now.symbols result.0.0 ≡ Some s) × (s.name ≡ name.now)
        × (s.arguments ≡ numbers_of result.1.now.args) }
{
    let place = checked.constructor(name.as_str());
    let con = constructor_at(sig, place);
    let own = sig.constructor(con);
    (con, own)
}

/// Returns the number of the phylum of the name.
pub fn phylum_named(checked: &CheckedLines, name: &Txt) -> u32
    requires { IsTrue (is_phylum checked.now name.now) }
    ensures { slice_get (phylum_names checked.now) result ≡ Some name.now }
{
    let number = checked.phylum(name.as_str());
    number
}

/// Returns the number of the list of the name.
pub fn list_named(checked: &CheckedLines, name: &Txt) -> u32
    requires { IsTrue (is_list checked.now name.now) }
    ensures { slice_get (list_names checked.now) result ≡ Some name.now }
{
    let number = checked.list(name.as_str());
    number
}

/// Returns the phylum or list of the name.
pub fn kind_named(checked: &CheckedLines, name: &Txt) -> Kind
    requires { IsTrue (is_kind checked.now name.now) }
    ensures { IsKindAt checked.now name.now result }
{
    let kind = checked.kind(name.as_str());
    kind
}

/// Returns the operator of the name, with its number.
pub fn operator_named<'d>(
    definition: &'d Definition,
    checked: &CheckedLines,
    name: &Txt,
) -> (u32, &'d Operator)
    requires there { IsTrue (is_some (operator_declared checked.now name.now)) }
    requires names { HasNames checked.now definition.now }
    ensures { Lasts definition.now (λ full. IsOperatorNamed full name.now result.0 result.1.now) }
{
    let operators = definition.operators.as_slice();
    let number = checked.operator(name.as_str());
    let own = &operators[number as usize];
    (number, own)
}

/// Returns the number of the space of the name. Without a name it is the first one.
pub fn space_named(checked: &CheckedLines, name: &Txt) -> u32
    requires { KnowsSpace checked.now name.now }
    ensures { IsSpaceAt checked.now name.now result }
{
    let name = name.as_str();
    if name.is_empty() {
        return 0;
    }
    let number = checked.space(name);
    number
}

/// Returns the item at the position.
fn at<T>(items: &[T], place: u32) -> &T
    requires { place < length items.now }
    ensures { slice_get items.now place ≡ Some result.now }
{
    &items[place as usize]
}

/// Returns the sort of the values of a phylum.
pub fn phylum_sort(definition: &Definition, phylum: u32) -> SortId
    requires { (s : ℕ) × HasKindSort definition.now (kinds.Phylum phylum) s }
    ensures { Lasts definition.now (λ full. HasKindSort full (kinds.Phylum phylum) result.0) }
{
    let own = at(definition.phyla.as_slice(), phylum);
    own.sort
}

/// Returns the list of the number.
pub fn list_at(definition: &Definition, list: u32) -> &ListKind
    requires { list < length definition.now.lists }
    ensures { slice_get definition.now.lists list ≡ Some result.now }
{
    let own = at(definition.lists.as_slice(), list);
    own
}

/// Returns the sort of the values of a kind.
pub fn kind_sort(definition: &Definition, kind: Kind) -> SortId
    requires { (s : ℕ) × HasKindSort definition.now kind s }
    ensures { Lasts definition.now (λ full. HasKindSort full kind result.0) }
{
    match kind {
        Kind::Phylum(phylum) => {
            let sort = phylum_sort(definition, phylum);
            sort
        }
        Kind::List(list) => {
            let own = list_at(definition, list);
            own.sort
        }
    }
}

/// Returns the sort of the entities of a space.
pub fn space_sort(definition: &Definition, space: u32) -> SortId
    requires { (s : ℕ) × HasSpaceSort definition.now space s }
    ensures { Lasts definition.now (λ full. HasSpaceSort full space result.0) }
{
    let own = at(definition.spaces.as_slice(), space);
    own.sort
}
