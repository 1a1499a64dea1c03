//! Why a definition is not of the grammar class.
ghost use Rattle.std.specs.Prelude.{◌≡◌, ◌<◌, IfOk, length, string_bytes};
ghost use Rattle.psg_class.specs.Refusal.{fault_text, IsOf, list_text, operator_text};
ghost use Rattle.psg_class.specs.Refusal.{phylum_text, refused, refused_with};

use psg_grammar::Definition;
use std::alloc::{AllocError, AllocFailed, Global};
use thiserror::Error;

/// The condition that fails, with the number of the operator, phylum or list for which it fails, and the token as it is
/// written: a fixed word as it is, `name`, `number` or `text`, a placeholder as `?P`, or `...`.
#[derive(Debug, Drop, Error)]
pub enum ClassFault {
    /// The operator begins neither with a token nor with a slot of its own phylum and then a token.
    #[error("operator {0} begins with no token")]
    NoFirst(u32),
    /// The operator's items are not of its form.
    #[error("operator {0} has another form than its level says")]
    Form(u32),
    /// A slot of the phylum asks for a level above that of one of its operators, and the phylum has no brackets.
    #[error("phylum {0} needs brackets")]
    NoBracket(u32),
    /// Two operators of the phylum have this level and different forms.
    #[error("phylum {0} mixes forms at level {1}")]
    MixedLevel(u32, u8),
    /// Two operators of the phylum, or one and its bracket, begin with the token.
    #[error("two forms of phylum {0} begin with `{1}`")]
    SameFirst(u32, String),
    /// Two operators of the phylum that begin with a slot go on with the token.
    #[error("two operators of phylum {0} go on with `{1}`")]
    SameLed(u32, String),
    /// The operator begins with a slot and goes on with the token, which can follow a tree of its phylum.
    #[error("`{1}` of operator {0} can stand behind its phylum")]
    LedFollows(u32, String),
    /// A list goes on or begins with the token, which can also follow it.
    #[error("list {0} goes on or begins with `{1}`, which can also stand behind it")]
    ListEnd(u32, String),
    /// Memory ran out.
    #[error("out of memory")]
    Memory,
}

impl From<AllocError> for ClassFault {
    ghost use Rattle.std.specs.Prelude.{◌≡◌};
    ghost use Rattle.psg_class.specs.declared.fault.ClassFault.TheVariants.{Memory};

    ghost from_gives = { λ _ e. e ≡ Memory };

    fn from(_error: AllocError) -> ClassFault {
        ClassFault::Memory
    }
}

impl<T: Drop> From<AllocFailed<T>> for ClassFault {
    ghost use Rattle.std.specs.Prelude.{◌≡◌};
    ghost use Rattle.psg_class.specs.declared.fault.ClassFault.TheVariants.{Memory};

    ghost from_gives = { λ _ e. e ≡ Memory };

    fn from(_error: AllocFailed<T>) -> ClassFault {
        ClassFault::Memory
    }
}

/// Returns the text of a refusal, as `refused MixedLevel Exp 3`: the condition, the name of the thing, and the level or
/// the token. The fault is one of the definition, and not that memory ran out.
pub fn class_text(
    alloc: Global,
    definition: &Definition,
    fault: &ClassFault,
) -> Result<String, AllocError>
    requires { IsOf definition.now fault.now }
    ensures { IfOk result (λ t. string_bytes t ≡ fault_text definition.now fault.now) }
{
    match fault {
        ClassFault::NoFirst(n) => refused(alloc, "NoFirst", operator_name(definition, *n)),
        ClassFault::Form(n) => refused(alloc, "Form", operator_name(definition, *n)),
        ClassFault::NoBracket(p) => refused(alloc, "NoBracket", phylum_name(definition, *p)),
        ClassFault::MixedLevel(p, level) => {
            let mut text = refused(alloc, "MixedLevel", phylum_name(definition, *p))?;
            write!(text, " {level}")?;
            Ok(text)
        }
        ClassFault::SameFirst(p, token) => {
            let name = phylum_name(definition, *p);
            refused_with(alloc, "SameFirst", name, token.as_str())
        }
        ClassFault::SameLed(p, token) => {
            let name = phylum_name(definition, *p);
            refused_with(alloc, "SameLed", name, token.as_str())
        }
        ClassFault::LedFollows(n, token) => {
            let name = operator_name(definition, *n);
            refused_with(alloc, "LedFollows", name, token.as_str())
        }
        ClassFault::ListEnd(l, token) => {
            let name = list_name(definition, *l);
            refused_with(alloc, "ListEnd", name, token.as_str())
        }
        ClassFault::Memory => Ok(String::new(alloc)),
    }
}

fn operator_name(definition: &Definition, operator: u32) -> &str
    requires { operator < length definition.now.operators }
    ensures { result.now ≡ operator_text definition.now operator }
{
    let operators = definition.operators.as_slice();
    operators[operator as usize].name.as_str()
}

fn phylum_name(definition: &Definition, phylum: u32) -> &str
    requires { phylum < length definition.now.phyla }
    ensures { result.now ≡ phylum_text definition.now phylum }
{
    let phyla = definition.phyla.as_slice();
    phyla[phylum as usize].name.as_str()
}

fn list_name(definition: &Definition, list: u32) -> &str
    requires { list < length definition.now.lists }
    ensures { result.now ≡ list_text definition.now list }
{
    let lists = definition.lists.as_slice();
    lists[list as usize].name.as_str()
}

fn refused(alloc: Global, condition: &str, name: &str) -> Result<String, AllocError>
    ensures { IfOk result (λ t. string_bytes t ≡ refused condition.now name.now) }
{
    let mut text = String::from_str(alloc, "refused ")?;
    text.push_str(condition)?;
    text.push_str(" ")?;
    text.push_str(name)?;
    Ok(text)
}

fn refused_with(
    alloc: Global,
    condition: &str,
    name: &str,
    last: &str,
) -> Result<String, AllocError>
    ensures { IfOk result (λ t. string_bytes t ≡ refused_with condition.now name.now last.now) }
{
    let mut text = refused(alloc, condition, name)?;
    text.push_str(" ")?;
    text.push_str(last)?;
    Ok(text)
}
