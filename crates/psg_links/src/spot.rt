//! Where the names of a text are.
ghost use Rattle.std.specs.Prelude.{◌≡◌};
ghost use Rattle.std.specs.Option.{option_copied};
ghost use Rattle.psg_ranges.specs.Forests.{Forest, ranges_in};
ghost use Rattle.psg_links.specs.Spots as spots;

use psg_lexis::Spanned;
use psg_ranges::{Range, Ranges};
use psg_uses::names::Written;

/// The bytes of a text that a name takes, from `start` up to `end`, and whether it declares. Bytes count after a byte
/// order mark.
#[derive(Drop)]
pub struct Spot {
    /// The byte offset of its first byte.
    pub start: usize,
    /// The byte offset after its last byte.
    pub end: usize,
    /// Whether it declares.
    pub declares: bool,
}

/// Tokens, and where the nodes of their tree are among them.
#[derive(Clone, Copy)]
pub(crate) struct Sheet<'a> {
    pub(crate) tokens: &'a [Spanned],
    pub(crate) ranges: &'a Ranges,
}

/// Returns the number of the token that is the name of the number of the node.
fn name_token(range: Option<&Range>, number: usize) -> Option<usize>
    ensures { result ≡ spots.name_token (option_copied range.entry) number }
{
    match range {
        Some(own) => own.names.as_slice().get(number).copied(),
        None => None,
    }
}

/// Returns the token of the number, if there is one.
fn token_at(tokens: &[Spanned], number: Option<usize>) -> Option<&Spanned>
    ensures { option_copied result ≡ spots.token_at tokens.now number }
{
    match number {
        Some(own) => tokens.get(own),
        None => None,
    }
}

/// Returns the bytes of the token, if there is one.
fn spot_with(declares: bool, token: Option<&Spanned>) -> Option<Spot>
    ensures { result ≡ spots.spot_with declares (option_copied token.entry) }
{
    match token {
        Some(own) => Some(Spot {
            start: own.start,
            end: own.end,
            declares,
        }),
        None => None,
    }
}

/// Returns where the name is. It walks along the path of the name, and over the nodes beside those on it.
pub(crate) fn spot_of(sheet: Sheet<'_>, declares: bool, name: &Written) -> Option<Spot>
    ensures { (f : Forest) → ranges_in f ≡ sheet.entry.ranges.now.nodes
        → result ≡ spots.spot_of sheet.entry.tokens.now f declares name.now }
{
    let range = sheet.ranges.at(name.path.steps());
    let number = name_token(range, name.number);
    let token = token_at(sheet.tokens, number);
    spot_with(declares, token)
}

/// Says whether the byte is in the spot, or at one of its ends.
pub(crate) fn covers(byte: usize, spot: &Option<Spot>) -> bool
    ensures { result ≡ spots.covers byte spot.now }
{
    match spot {
        Some(own) => own.start <= byte && byte <= own.end,
        None => false,
    }
}
