//! A law of reports, as the contract of a call that does nothing.
ghost use Rattle.psg_lint.specs.Reports.{IsFineExactly};

use psg_specimen::Language;

/// States that a report has no error exactly where the bytes are a program of the kind, within the limits, that has a
/// completion. The call has no cost.
pub fn fine_exactly(language: &Language)
    ensures { IsFineExactly language.now }
{
    let _own = language.definition();
}
