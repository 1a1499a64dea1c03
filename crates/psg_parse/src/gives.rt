//! What a finished tree is given to.
ghost use Rattle.std.specs.Prelude.{◌≡◌, ℕ, List, IfOk, length};
ghost use Rattle.psg_grammar.specs.Fragments.{Fragment};
ghost use Rattle.psg_grammar.specs.WellFormed.{fixed_words};
ghost use Rattle.psg_class.specs.Class.{IsClass};
ghost use Rattle.psg_class.specs.Machine.{Frame as Plain};
ghost use Rattle.psg_class.specs.Texts.{tokens_of};
ghost use Rattle.psg_parse.specs.Standing.{IsTree};
ghost use Rattle.psg_parse.specs.States.{giving, IsStack, Steps};
ghost use Rattle.psg_parse.specs.Work.{Advances, stack_work};

use crate::lists::tail;
use crate::seen::see;
use crate::standing::Grown;
use crate::state::{Frame, Mode, State, Step};
use crate::steps::is_fixed;
use psg_grammar::Definition;
use psg_lexis::{Lexis, Spanned};
use std::alloc::{AllocError, Global};

/// Gives a finished tree to what waits for it. Where nothing waits, the tree is the result, or no tree is where tokens
/// are left.
pub(crate) fn give<'a>(
    alloc: Global,
    definition: &'a Definition,
    lexis: &Lexis,
    tree: Grown,
    stack: Vec<Frame<'a>>,
    rest: &'a [Spanned],
) -> Result<Step<'a>, AllocError>
    requires class { IsClass definition.now }
    requires words { lexis.now ≡ fixed_words definition.now }
    ensures leads { IfOk result (λ s. (st : List Plain) (f : Fragment) (n : ℕ) → IsStack stack.entry.items st
        → IsTree tree f n → Steps definition.now (giving f n) st (tokens_of rest.now) s) }
    ensures advances { IfOk result (Advances (length rest.now) (stack_work stack.entry.items)) }
{
    let mut stack = stack;
    let Some(frame) = stack.pop() else {
        if rest.is_empty() {
            return Ok(Step::Done(tree));
        }
        return Ok(Step::NoTree);
    };
    match frame {
        Frame::Grow {
            phylum,
            least,
            level,
        } => Ok(Step::Go(State {
            mode: Mode::Grow {
                phylum,
                least,
                tree,
                level,
            },
            stack,
            rest,
        })),
        Frame::Parts {
            operator,
            built,
            more,
        } => {
            let built = built.with_child(tree)?;
            Ok(Step::Go(State {
                mode: Mode::Parts {
                    operator,
                    built,
                    more,
                },
                stack,
                rest,
            }))
        }
        Frame::Close => {
            let Some((spanned, others)) = rest.split_first() else {
                return Ok(Step::NoTree);
            };
            if !is_fixed(see(definition, lexis, &spanned.token), ")") {
                return Ok(Step::NoTree);
            }
            let tree = tree.close();
            Ok(Step::Go(State {
                mode: Mode::Give { tree },
                stack,
                rest: others,
            }))
        }
        Frame::List { list, listed } => {
            let listed = listed.with_element(tree)?;
            tail(alloc, definition, lexis, list, listed, stack, rest)
        }
    }
}
