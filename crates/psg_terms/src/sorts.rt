//! Sorts and constructors by number.
ghost use Rattle.std.specs.Prelude.{◌≡◌, ◌<◌, ◌^◌, length, slice_get, map, Some, IfOk, IfErr, false, ℕ, vec_len};
ghost use Rattle.psg_terms.specs.Names.{has_twice};
ghost use Rattle.psg_terms.specs.Kept.{number_in, numbers_of, symbols_of};
ghost use Rattle.psg_terms.specs.Marks.{con_numbers};
ghost use Rattle.psg_terms.specs.Signature.{Symbol, AreClosed, constructors_of, only_constructor};
ghost use Rattle.psg_terms.specs.Declarations.{constructor_names, IsSpelled};
ghost use Rattle.psg_terms.specs.Refusals.{IsRefused, MayRefuse};
ghost use Rattle.psg_terms.specs.Lacks.{MayLack};
ghost use Rattle.psg_terms.specs.declared.declare.SigFault.{SigFault as Fault};

use crate::declare::{SigFault, SortDecl, Spelling, spell};
use crate::ground::{first_unmarked, first_wide, inhabited, made_by, sole_of};
use crate::seq::{Seq, Txt};
use std::alloc::Global;
use std::marker::Model;

/// The number of a sort.
#[derive(Clone, Copy, Debug, PartialEq, Eq, Hash)]
pub struct SortId(pub u32);

/// The number of a constructor.
#[derive(Clone, Copy, Debug, PartialEq, Eq)]
pub struct ConId(pub u32);

/// A constructor with the sorts of its arguments.
#[derive(Drop)]
pub struct Constructor {
    /// The name of the constructor.
    pub name: Txt,
    /// The sorts of its arguments, in order. A constant has none.
    pub args: Seq<SortId>,
}

/// A constructor with the sort that it makes.
#[derive(Drop)]
pub struct Declared {
    /// The constructor.
    pub constructor: Constructor,
    /// The sort that the constructor makes.
    pub sort: SortId,
}

/// The sorts and constructors of a language. Sorts are numbered in order from 0, and constructors from 0 through all
/// sorts in order. Every sort has a term without variables, and either its only constructor is a constant or it has
/// two constructors or more.
#[derive(Drop)]
pub struct Signature {
    sorts: Seq<Txt>,
    declared: Seq<Declared>,
    /// The constructors of each sort, in order.
    made: Seq<Seq<ConId>>,
}

impl Model for Signature {
    ghost use Rattle.psg_terms.specs.Signature.{Signature as Plain};

    ghost Value = { Plain };

    ghost use Rattle.psg_terms.specs.Kept.{symbols_of};
    ghost use Rattle.psg_terms.specs.Keeping.{IsKept};

    ghost view = { λ s. record { sorts = s.sorts; symbols = symbols_of s.declared } };

    ghost invariant = { λ s. IsKept s.sorts s.declared s.made };
}

impl Signature {
    ghost use Rattle.psg_terms.specs.Sound.{IsSound};

    /// Makes the signature that is written. It reads each name once, and finds the sorts that have terms without
    /// variables in at most as many passes as there are sorts, each of which reads each argument once.
    ///
    /// What is wrong is looked for in the order of the faults, and each over the sorts in order: a name that occurs
    /// twice, an argument that names no sort, a sort without a term without variables, a sort whose only constructor
    /// has arguments. `Memory` is returned when memory runs out, at any time.
    pub fn new(alloc: Global, sorts: Vec<SortDecl>) -> Result<Signature, SigFault>
        requires few_sorts { vec_len sorts < 2 ^ 32 }
        requires few_constructors { length (constructor_names sorts.items) < 2 ^ 32 }
        ensures ok { IfOk result (IsSpelled sorts.items) }
        ensures none { IfOk result (λ _. (fault : Fault) → IsRefused sorts.items fault → ⊥) }
        ensures err { IfErr result (MayRefuse sorts.items) }
    {
        let spelling = spell(alloc, sorts.as_slice())?;
        let signature = accept(alloc, spelling)?;
        signature.sound();
        Ok(signature)
    }

    /// Shows that every sort has a ground term, and is one constant or has a choice.
    pub fn sound(&self)
        ensures { IsSound self.now }
    {
        let _ = &self.sorts;
    }

    /// Returns how many sorts there are.
    pub fn sorts(&self) -> u32
        ensures { result ≡ length self.now.sorts }
    {
        self.sorts.as_slice().len() as u32
    }

    /// Returns how many constructors there are.
    pub fn constructors(&self) -> u32
        ensures { result ≡ length self.now.symbols }
    {
        self.declared.as_slice().len() as u32
    }

    /// Returns the name of a sort.
    pub fn sort_name(&self, sort: SortId) -> &str
        requires { sort.0 < length self.now.sorts }
        ensures { slice_get self.now.sorts sort.0 ≡ Some result.now }
    {
        self.sorts.as_slice()[sort.0 as usize].as_str()
    }

    /// Returns the constructors of a sort, in order.
    pub fn constructors_of(&self, sort: SortId) -> &[ConId]
        requires { sort.0 < length self.now.sorts }
        ensures { con_numbers result.now ≡ constructors_of self.now sort.0 }
    {
        self.made.as_slice()[sort.0 as usize].as_slice()
    }

    /// Returns a constructor, with its name and the sorts of its arguments.
    pub fn constructor(&self, con: ConId) -> &Constructor
        requires { con.0 < length self.now.symbols }
        ensures { (s : ℕ) × (slice_get self.now.symbols con.0
            ≡ Some (record { name = result.now.name; arguments = numbers_of result.now.args; sort = s })) }
    {
        &self.declared.as_slice()[con.0 as usize].constructor
    }

    /// Returns the sort that a constructor makes.
    pub fn sort_of(&self, con: ConId) -> SortId
        requires { con.0 < length self.now.symbols }
        ensures { (s : Symbol) × (slice_get self.now.symbols con.0 ≡ Some s) × (s.sort ≡ result.0) }
    {
        self.declared.as_slice()[con.0 as usize].sort
    }

    /// Returns the constructor of a sort that has one alone.
    pub fn constant_of(&self, sort: SortId) -> Option<ConId>
        ensures { number_in result ≡ only_constructor self.now sort.0 }
    {
        match self.made.as_slice().get(sort.0 as usize) {
            Some(ids) => sole_of(ids.as_slice()),
            None => None,
        }
    }
}

/// Returns the signature of these sorts and constructors, if each sort has terms enough.
fn accept(alloc: Global, spelling: Spelling) -> Result<Signature, SigFault>
    requires few_sorts { length spelling.names.items < 2 ^ 32 }
    requires few_constructors { length spelling.declared.items < 2 ^ 32 }
    requires sort_names { has_twice spelling.names.items ≡ false }
    requires constructor_names { has_twice (map (λ (s : Symbol). s.name) (symbols_of spelling.declared.items)) ≡ false }
    requires closed { AreClosed (record { sorts = spelling.names.items; symbols = symbols_of spelling.declared.items })
        (symbols_of spelling.declared.items) }
    ensures ok { IfOk result (λ s. s
        ≡ record { sorts = spelling.names.items; symbols = symbols_of spelling.declared.items }) }
    ensures err { IfErr result (MayLack
        (record { sorts = spelling.names.items; symbols = symbols_of spelling.declared.items })) }
{
    let Spelling { names, declared } = spelling;
    let marks = inhabited(alloc, names.len(), declared.as_slice())?;
    if let Some(s) = first_unmarked(marks.as_slice()) {
        return Err(SigFault::NoGround(SortId(s as u32)));
    }
    let made = made_by(alloc, names.len(), declared.as_slice())?;
    if let Some(s) = first_wide(made.as_slice(), declared.as_slice()) {
        return Err(SigFault::OneWide(SortId(s as u32)));
    }
    Ok(Signature {
        sorts: Seq::of(names),
        declared: Seq::of(declared),
        made: Seq::of(made),
    })
}
