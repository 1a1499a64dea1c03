//! Laws of comments, as contracts of calls that do nothing.
//!
//! A text has its comments in one way. And where a text is printed again with its comments, the printed text has the
//! same tokens as without them, and says the same comments in the same order, each after as many tokens.
#![tactic(auto)]

ghost use Rattle.psg_comment_laws.specs.Laws.{HasOneReading, KeepsAll, LosesNone, PrintsOnce};
ghost use Rattle.psg_comment_laws.specs.Programs.{LosesNoneOfPrograms, StaysProgram};
ghost use Rattle.psg_comments.specs.Fitting.{IsFit};
ghost use Rattle.psg_grammar.specs.WellFormed.{fixed_words};

use psg_grammar::Definition;
use psg_terms::Txt;

/// States that a text has its comments in one way, for these fixed words of a language and this token of comments: no
/// text has two lists of comments, nor two texts without them. The call has no cost.
pub fn one_reading(words: &[Txt], token: &str)
    requires fit { IsFit words.now token.now }
    ensures { HasOneReading words.now token.now }
{}

/// States that a printed text with comments beside its tokens keeps them: its tokens are those of the printed text,
/// and its comments say the same in the same order, each after as many tokens. The comments are those of any text that
/// has no more tokens than the printed one, if round brackets are not counted. The call has no cost.
pub fn keeps_all(words: &[Txt], token: &str)
    requires fit { IsFit words.now token.now }
    ensures { KeepsAll words.now token.now }
{}

/// States that no printed text loses comments of a text that has no more tokens, if round brackets are not counted. So
/// of the two texts that `with_comments` may return, the text as it was is never the one. The call has no cost.
pub fn loses_none(words: &[Txt], token: &str)
    requires fit { IsFit words.now token.now }
    ensures { LosesNone words.now token.now }
{}

/// States that what was printed with comments stays as it is where it is printed again: with its own comments, beside
/// the same printed text, it is the same text. The call has no cost.
pub fn prints_once(words: &[Txt], token: &str)
    requires fit { IsFit words.now token.now }
    ensures { PrintsOnce words.now token.now }
{}

/// States that no printed text of a program loses the program's comments, where it reads as the same tree as the text
/// without them. Both texts have as many tokens, if round brackets are not counted. The call has no cost.
pub fn programs_lose_none(definition: &Definition, token: &str)
    requires fit { IsFit (fixed_words definition.now) token.now }
    ensures { LosesNoneOfPrograms definition.now token.now }
{}

/// States that the printed text of a program with the program's comments is this program: without its comments it
/// reads as the same tree, with brackets nested as deep as in the printed text. With `prints_once`, to print a program
/// twice is to print it once. The call has no cost.
pub fn programs_stay(definition: &Definition, token: &str)
    requires fit { IsFit (fixed_words definition.now) token.now }
    ensures { StaysProgram definition.now token.now }
{}
