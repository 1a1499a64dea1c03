//! Why a command or a line is refused.
ghost use Rattle.std.specs.Prelude.{◌≡◌};
ghost use Rattle.psg_session.specs.Refusals.{number_of};

/// The reason why a command or a line is refused.
#[derive(Clone, Copy, Debug, PartialEq, Eq)]
pub enum Refusal {
    /// The line is none of a command that the editor has.
    NoCommand,
    /// No node is at the path.
    NoNode,
    /// The node is no placeholder.
    NotHole,
    /// Nothing has the name.
    Unknown,
    /// The operator is of another phylum than the one that is wanted.
    OtherPhylum,
    /// The arguments are not the names and literals of the operator.
    BadArguments,
    /// The node is no list with such a place.
    NoPlace,
    /// The tree would have too many nodes, or a list too many elements.
    TooBig,
    /// The tree would be too deep.
    TooDeep,
    /// The relation of a step would be too large.
    TooWide,
    /// The relations of all steps would be too large together.
    TooHeavy,
    /// The tree would not be good.
    Inadmissible,
    /// The text has no tokens.
    NoTokens,
    /// The text has no tree.
    NoTree,
    /// There is no earlier version.
    NothingEarlier,
    /// There is no later version.
    NothingLater,
    /// No saved fragment has the name.
    NoFragment,
    /// The file was not read or not written.
    ShelfFault,
    /// The file has no fragment.
    KeptUnreadable,
    /// There is no such range.
    NoRange,
    /// A placeholder would not say which names it declares.
    NoPlaceholder,
    /// No fragment is opened.
    NothingOpened,
    /// There is no room for one more saved fragment.
    ShelfFull,
}

impl Refusal {
    /// Returns the number that the reply has.
    pub fn number(self) -> u8
        ensures { result ≡ number_of self }
    {
        match self {
            Refusal::NoCommand => 1,
            Refusal::NoNode => 2,
            Refusal::NotHole => 3,
            Refusal::Unknown => 4,
            Refusal::OtherPhylum => 5,
            Refusal::BadArguments => 6,
            Refusal::NoPlace => 7,
            Refusal::TooBig => 8,
            Refusal::TooDeep => 9,
            Refusal::TooWide => 10,
            Refusal::TooHeavy => 11,
            Refusal::Inadmissible => 12,
            Refusal::NoTokens => 13,
            Refusal::NoTree => 14,
            Refusal::NothingEarlier => 15,
            Refusal::NothingLater => 16,
            Refusal::NoFragment => 17,
            Refusal::ShelfFault => 18,
            Refusal::KeptUnreadable => 19,
            Refusal::NoRange => 20,
            Refusal::NoPlaceholder => 21,
            Refusal::NothingOpened => 22,
            Refusal::ShelfFull => 23,
        }
    }
}
