//! Plain types of a language definition, and what can be asked of one.
//!
//! The shortest useful call is `kind_named(&definition, "Exp")`: the number of a phylum or list by its name. The
//! definitions that other crates' contracts cite are in `specs/`: fragments and their regions, legal trees, fillings,
//! open judgements, relations and the steps in which they are made, sizes, paths and insertions.
//!
//! Numbers of phyla, lists, operators, spaces and rows are places in the definition, from 0. A definition is sound
//! where all of them are in range, no name occurs twice and each term is of the sort that its place wants; calls that
//! look up by name and `declaring` have this as their condition. A phylum declares in a space where a declaring
//! position of the space can be reached from it without passing a scope operator.
#![tactic(auto)]

pub mod kinds;
pub mod laws;
pub mod levels;
pub mod limits;
pub mod spaces;
pub mod types;

pub use kinds::{kind_name, kind_named, kind_sort, op_named, same_kind};
pub use levels::{is_part, least_first, least_last, least_level, name_positions, op_level, slots};
pub use limits::{MOST_BRACKETS, MOST_DEPTH, MOST_ELEMENTS, MOST_NODES, MOST_WEIGHTS};
pub use spaces::declaring;
pub use types::{
    Case, DeclareRow, Definition, HoleRow, Item, Kind, Level, ListKind, Operator, Phylum, Row,
    Space, Specimen, SpecimenHole, SpecimenPart,
};
