//! Laws of summaries, as contracts of calls that do nothing.
ghost use Rattle.psg_eval.specs.Reporting.{IsReportMade};

use psg_grammar::Definition;

/// States what `with_report` and `climb` make together: where the frames are those of a node in a fragment, the summary
/// of the node with its value observed climbs to one whose rows are the reported relation. Its second column has the
/// values of that node. The call has no cost.
pub fn report_made(_definition: &Definition)
    ensures { IsReportMade _definition.now }
{}
