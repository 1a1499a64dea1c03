//! Lines without a fault, with the positions of the names that they declare.
ghost use Rattle.std.specs.Prelude.{◌≡◌, ◌<◌, ◌^◌, ◌+◌, IfErr, IfOk, IfSome, IsTrue, length, List, ℕ, [], Some};
ghost use Rattle.std.specs.Prelude.{is_some, slice_get};
ghost use Rattle.std.specs.List.{AllByRecursion};
ghost use Rattle.psg_terms.specs.Names.{is_among};
ghost use Rattle.psg_deflines.specs.Entries.{AreEntries, IsPlain, written};
ghost use Rattle.psg_defcheck.specs.Scopes as scopes;
ghost use Rattle.psg_defcheck.specs.Faults.{ArePassed};
ghost use Rattle.psg_defcheck.specs.Checks.{IsCheckFault, IsKindAt};
ghost use Rattle.psg_defcheck.specs.NameSets.{has, listed};

use crate::above::Above;
use crate::checking::line_fault;
use crate::ground::inhabited;
use crate::names::Names;
use crate::scope::Scope;
use psg_deflines::{DefFault, Line, ReadFault};
use psg_grammar::Kind;
use std::alloc::Global;
use std::marker::Model;

/// The lines of a file of which none has a fault, with the position of each name that they declare. Contracts see the
/// lines.
#[derive(Drop)]
pub struct CheckedLines<'a> {
    entries: &'a [Option<Line>],
    names: Above<'a>,
}

impl<'a> Model for CheckedLines<'a> {
    ghost use Rattle.std.specs.Prelude.{List};
    ghost use Rattle.psg_deflines.specs.Entries.{written};
    ghost use Rattle.psg_deflines.specs.declared.lines.Line.{Line};
    ghost use Rattle.psg_defcheck.specs.Checks.{AreChecked};
    ghost use Rattle.psg_deflines.specs.contracts.lines.Line as line;
    ghost use Rattle.std.specs.Coded.{codes};

    ghost Value = { List Line };

    ghost coded = { Prim.hlevel (codes, line.the_row.coded) };

    ghost view = { λ c. written c.entries.now };

    ghost invariant = { λ c. AreChecked c.entries.now c.names };
}

/// Returns the position of a name that is among them.
fn place(names: &Names, name: &str) -> usize
    requires { IsTrue (has names.now name.now) }
    ensures { slice_get (listed names.now) result ≡ Some name.now }
{
    match names.place(name) {
        Some(place) => place,
        None => unreachable!(),
    }
}

/// Returns the position of a name, if it is among fewer than 2^32.
fn found(names: &Names, name: &str) -> Option<u32>
    requires { length (listed names.now) < 2 ^ 32 }
    ensures there { is_some result ≡ has names.now name.now }
    ensures place { IfSome result (λ p. slice_get (listed names.now) p ≡ Some name.now) }
{
    match names.place(name) {
        None => None,
        Some(place) => Some(place as u32),
    }
}

/// Returns the position of a name that is among fewer than 2^32.
fn number(names: &Names, name: &str) -> u32
    requires few { length (listed names.now) < 2 ^ 32 }
    requires there { IsTrue (has names.now name.now) }
    ensures { slice_get (listed names.now) result ≡ Some name.now }
{
    match found(names, name) {
        Some(number) => number,
        None => unreachable!(),
    }
}

impl<'a> CheckedLines<'a> {
    /// Tests the meaning of each line among the entries. `Def` has the first line that fails a test, with the first
    /// test that it fails: a name that was declared before, a name that no line declares as what may be there, a wrong
    /// number, a wrong sort or kind, a name position or a declare line where the file declares no space, a sort without
    /// a ground term, and a sort whose only constructor has arguments. `Memory` is returned when memory runs out. The
    /// entries are those of the texts after the head, so the first one is line 2. Terms and specimens are nested at
    /// most 32 deep, as far as the stack has to go.
    ///
    /// It makes its tables in one walk, and tests each line in one walk over it, with a look-up in a table for each
    /// name. Which sorts have ground terms is found once, in rounds over the lines of sorts: as many as sorts wait for
    /// each other, plus two.
    pub fn of(alloc: Global, entries: &'a [Option<Line>]) -> Result<CheckedLines<'a>, ReadFault>
        requires few { length entries.now + 2 < 2 ^ 32 }
        requires entries { (texts : List (List ℕ)) × AreEntries [] texts entries.now }
        requires plain { (version : ℕ) × AllByRecursion (IsPlain version) (written entries.now) }
        ensures ok { IfOk result (λ c. c ≡ written entries.now) }
        ensures passed { IfOk result (λ c. ArePassed c [] c) }
        ensures err { IfErr result (IsCheckFault entries.now) }
    {
        let scope = Scope::of(alloc, entries)?;
        let marks = inhabited(alloc, &scope)?;
        let mut names = Above::nothing(alloc);
        for i in 0..entries.len() {
            if let Some(line) = &entries[i] {
                if let Some(code) = line_fault(alloc, &scope, &marks, &names, line)? {
                    let line = i as u32 + 2;
                    return Err(ReadFault::Def(DefFault { line, code }));
                }
                names.add(line)?;
            }
        }
        Ok(CheckedLines { entries, names })
    }

    /// Returns the entries.
    pub fn entries(&self) -> &'a [Option<Line>]
        ensures lines { written result.now ≡ self.now }
        ensures passed { ArePassed self.now [] self.now }
    {
        self.entries
    }

    /// Returns the position of a sort among the sorts. It is one look-up.
    pub fn sort(&self, name: &str) -> u32
        requires { IsTrue (is_among (scopes.sort_names self.now) name.now) }
        ensures { slice_get (scopes.sort_names self.now) result ≡ Some name.now }
    {
        number(&self.names.sorts, name)
    }

    /// Returns the position of a constructor among those of all sorts. It is one look-up.
    pub fn constructor(&self, name: &str) -> usize
        requires { IsTrue (is_some (scopes.constructor_declared self.now name.now)) }
        ensures { slice_get (scopes.constructor_names self.now) result ≡ Some name.now }
    {
        place(&self.names.constructors, name)
    }

    /// Returns the position of a phylum among the phyla. It is one look-up.
    pub fn phylum(&self, name: &str) -> u32
        requires { IsTrue (scopes.is_phylum self.now name.now) }
        ensures { slice_get (scopes.phylum_names self.now) result ≡ Some name.now }
    {
        number(&self.names.phyla, name)
    }

    /// Returns the position of a list among the lists. It is one look-up.
    pub fn list(&self, name: &str) -> u32
        requires { IsTrue (scopes.is_list self.now name.now) }
        ensures { slice_get (scopes.list_names self.now) result ≡ Some name.now }
    {
        number(&self.names.lists, name)
    }

    /// Returns the phylum or list of the name. It is one look-up for a phylum and two for a list.
    pub fn kind(&self, name: &str) -> Kind
        requires { IsTrue (scopes.is_kind self.now name.now) }
        ensures { IsKindAt self.now name.now result }
    {
        match found(&self.names.phyla, name) {
            Some(phylum) => Kind::Phylum(phylum),
            None => {
                let list = number(&self.names.lists, name);
                Kind::List(list)
            }
        }
    }

    /// Returns the position of an operator among the operators. It is one look-up.
    pub fn operator(&self, name: &str) -> u32
        requires { IsTrue (is_some (scopes.operator_declared self.now name.now)) }
        ensures { slice_get (scopes.operator_names self.now) result ≡ Some name.now }
    {
        number(&self.names.operators, name)
    }

    /// Returns the position of a space among the spaces. It is one look-up.
    pub fn space(&self, name: &str) -> u32
        requires { IsTrue (is_some (scopes.space_declared self.now name.now)) }
        ensures { slice_get (scopes.space_names self.now) result ≡ Some name.now }
    {
        number(&self.names.spaces, name)
    }
}
