//! What does not grow where columns go.
ghost use Rattle.psg_relation.specs.Fewer.{FewerColumns};

use psg_terms::Signature;

/// States that a relation of columns, each of which is kept once, is within the limit where the rows that have the
/// columns are.
pub fn fewer_columns(sig: &Signature)
    ensures { FewerColumns sig.now }
{
    sig.sound();
}
