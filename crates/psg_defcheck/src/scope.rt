//! What names mean in a file.
ghost use Rattle.std.specs.Prelude.{◌≡◌, List, ℕ, IfOk, IsTrue, is_some};
ghost use Rattle.std.specs.Option.{option_map};
ghost use Rattle.psg_terms.specs.Names.{is_among};
ghost use Rattle.psg_deflines.specs.Entries.{written};
ghost use Rattle.psg_defcheck.specs.Scopes as scopes;
ghost use Rattle.psg_defcheck.specs.Tables.{constructor_told, kind_told, name_told, operator_told, sort_told};

use crate::tables::{DeclaredConstructor, Kind, Operator, Tables};
use psg_deflines::Line;
use psg_terms::SortDecl;
use std::alloc::{AllocError, Global};
use std::marker::Model;

/// The lines of a file with tables of what they declare. Contracts see the lines.
#[derive(Drop)]
pub struct Scope<'a> {
    entries: &'a [Option<Line>],
    tables: Tables<'a>,
}

impl<'a> Model for Scope<'a> {
    ghost use Rattle.std.specs.Prelude.{List};
    ghost use Rattle.psg_deflines.specs.Entries.{written};
    ghost use Rattle.psg_deflines.specs.declared.lines.Line.{Line};
    ghost use Rattle.psg_defcheck.specs.Tables.{AreTables};
    ghost use Rattle.psg_deflines.specs.contracts.lines.Line as line;
    ghost use Rattle.std.specs.Coded.{codes};

    ghost Value = { List Line };

    ghost coded = { Prim.hlevel (codes, line.the_row.coded) };

    ghost view = { λ s. written s.entries.now };

    ghost invariant = { λ s. AreTables (written s.entries.now) s.tables };
}

impl<'a> Scope<'a> {
    /// Makes the scope of the lines among the entries. It takes time linear in their names.
    pub fn of(alloc: Global, entries: &'a [Option<Line>]) -> Result<Scope<'a>, AllocError>
        ensures { IfOk result (λ s. s ≡ written entries.now) }
    {
        let tables = Tables::of(alloc, entries)?;
        Ok(Scope { entries, tables })
    }

    /// Returns the entries.
    pub fn entries(&self) -> &'a [Option<Line>]
        ensures { written result.now ≡ self.now }
    {
        self.entries
    }

    /// Returns the first line of the sort, if there is one.
    pub fn sort(&self, name: &str) -> Option<&'a SortDecl>
        ensures { option_map sort_told result ≡ scopes.sort_declared self.now name.now }
    {
        self.tables.sorts.get(name).copied()
    }

    /// Returns the first declaration of the constructor, if there is one.
    pub fn constructor(&self, name: &str) -> Option<DeclaredConstructor<'a>>
        ensures { option_map constructor_told result ≡ scopes.constructor_declared self.now name.now }
    {
        self.tables.constructors.get(name).copied()
    }

    /// Returns the first line of the phylum or list, if there is one.
    pub fn kind(&self, name: &str) -> Option<Kind<'a>>
        ensures { option_map kind_told result ≡ scopes.kind_declared self.now name.now }
    {
        self.tables.kinds.get(name).copied()
    }

    /// Returns the first line of the operator, if there is one.
    pub fn operator(&self, name: &str) -> Option<Operator<'a>>
        ensures { option_map operator_told result ≡ scopes.operator_declared self.now name.now }
    {
        self.tables.operators.get(name).copied()
    }

    /// Returns the sort of the first space, if there is one.
    pub fn entity(&self) -> Option<&'a str>
        ensures { option_map name_told result ≡ scopes.entity_sort self.now }
    {
        self.tables.entity
    }

    /// Returns the sort of the first line of the space, if there is one.
    pub fn space(&self, name: &str) -> Option<&'a str>
        ensures { option_map name_told result ≡ scopes.space_declared self.now name.now }
    {
        self.tables.spaces.get(name).copied()
    }

    /// Returns the sort of a space; the empty name means the first one.
    fn space_sort(&self, name: &str) -> Option<&'a str>
        ensures { option_map name_told result ≡ scopes.space_sort self.now name.now }
    {
        if name.is_empty() {
            self.entity()
        } else {
            self.space(name)
        }
    }

    /// Says whether a line declares the sort.
    pub fn is_sort(&self, name: &str) -> bool
        ensures { result ≡ is_among (scopes.sort_names self.now) name.now }
    {
        self.sort(name).is_some()
    }

    /// Says whether a line declares the constructor.
    pub fn is_constructor(&self, name: &str) -> bool
        ensures { result ≡ is_some (scopes.constructor_declared self.now name.now) }
    {
        self.constructor(name).is_some()
    }

    /// Says whether a line declares the operator.
    pub fn is_operator(&self, name: &str) -> bool
        ensures { result ≡ is_some (scopes.operator_declared self.now name.now) }
    {
        self.operator(name).is_some()
    }

    /// Says whether the name is a phylum's or a list's.
    pub fn is_kind(&self, name: &str) -> bool
        ensures { result ≡ scopes.is_kind self.now name.now }
    {
        self.kind(name).is_some()
    }

    /// Says whether the name is a phylum's.
    pub fn is_phylum(&self, name: &str) -> bool
        ensures { result ≡ scopes.is_phylum self.now name.now }
    {
        match self.kind(name) {
            Some(Kind::Phylum { .. }) => true,
            _ => false,
        }
    }

    /// Says whether the name is a list's.
    pub fn is_list(&self, name: &str) -> bool
        ensures { result ≡ scopes.is_list self.now name.now }
    {
        match self.kind(name) {
            Some(Kind::List { .. }) => true,
            _ => false,
        }
    }

    /// Returns the sort, where a line declares it.
    pub fn sort_place(&self, name: &'a str) -> Option<&'a str>
        ensures { option_map name_told result ≡ scopes.sort_place self.now name.now }
    {
        if self.is_sort(name) { Some(name) } else { None }
    }

    /// Returns the phylum or list, where a line declares it.
    pub fn kind_place(&self, name: &'a str) -> Option<&'a str>
        ensures { option_map name_told result ≡ scopes.kind_place self.now name.now }
    {
        if self.is_kind(name) { Some(name) } else { None }
    }

    /// Returns the phylum, where a line declares it.
    pub fn phylum_place(&self, name: &'a str) -> Option<&'a str>
        ensures { option_map name_told result ≡ scopes.phylum_place self.now name.now }
    {
        if self.is_phylum(name) {
            Some(name)
        } else {
            None
        }
    }

    /// Returns the sort of the values of a phylum or list; `None` where no line declares the kind or its sort.
    pub fn value_place(&self, name: &str) -> Option<&'a str>
        ensures { option_map name_told result ≡ scopes.value_place self.now name.now }
    {
        match self.kind(name)? {
            Kind::Phylum { sort } => self.sort_place(sort),
            Kind::List { sort, .. } => self.sort_place(sort),
        }
    }

    /// Returns the phylum of the elements of a list; `None` where no line declares the list or the phylum.
    pub fn element_place(&self, name: &str) -> Option<&'a str>
        ensures { option_map name_told result ≡ scopes.element_place self.now name.now }
    {
        match self.kind(name)? {
            Kind::Phylum { .. } => None,
            Kind::List { element, .. } => self.phylum_place(element),
        }
    }

    /// Returns the sort of the entities of a space; `None` where no line declares the space or the sort.
    pub fn entity_place(&self, space: &str) -> Option<&'a str>
        ensures { option_map name_told result ≡ scopes.entity_place self.now space.now }
    {
        let sort = self.space_sort(space)?;
        self.sort_place(sort)
    }
}
