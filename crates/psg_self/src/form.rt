//! The operators of the language of definitions.
ghost use Rattle.std.specs.Prelude.{◌≡◌};
ghost use Rattle.psg_self.specs.SelfLanguage.{form_at};

/// What an operator of the language of definitions represents.
#[derive(Clone, Copy)]
pub enum Form {
    /// The line of a sort.
    SortLine,
    /// The line of a phylum.
    PhylumLine,
    /// The line of a phylum whose trees may be in brackets.
    BracketedLine,
    /// The line of an operator with the lines of its rows.
    OperatorLine,
    /// The line of a hole row.
    HoleLine,
    /// A constructor of a sort.
    Constructor,
    /// The sort of an argument.
    Argument,
    /// No level.
    Plain,
    /// The level of a prefix operator.
    Prefix,
    /// The level of a postfix operator.
    Postfix,
    /// The level of an infix operator that is grouped from the left.
    InfixLeft,
    /// The level of an infix operator that is grouped from the right.
    InfixRight,
    /// The level of an infix operator that is not grouped.
    InfixNone,
    /// A fixed word.
    Word,
    /// A slot.
    Slot,
    /// The layout mark `space`.
    Space,
    /// The layout mark `tight`.
    Tight,
    /// The layout mark `line`.
    Line,
    /// The layout mark `in`.
    In,
    /// The layout mark `out`.
    Out,
    /// A row.
    Row,
    /// A constructor with its arguments.
    Applied,
    /// A variable.
    Variable,
    /// An operator with its parts.
    Specimen,
}

/// The forms of the operators, in the order in which the language declares these.
const FORMS: [Form; 24] = [
    Form::SortLine,
    Form::PhylumLine,
    Form::BracketedLine,
    Form::OperatorLine,
    Form::HoleLine,
    Form::Constructor,
    Form::Argument,
    Form::Plain,
    Form::Prefix,
    Form::Postfix,
    Form::InfixLeft,
    Form::InfixRight,
    Form::InfixNone,
    Form::Word,
    Form::Slot,
    Form::Space,
    Form::Tight,
    Form::Line,
    Form::In,
    Form::Out,
    Form::Row,
    Form::Applied,
    Form::Variable,
    Form::Specimen,
];

/// Returns the form of the operator of this number, or `None` where the language has no such operator.
pub fn form_at(op: u32) -> Option<Form>
    ensures { result ≡ form_at op }
{
    match FORMS.get(op as usize) {
        Some(form) => Some(*form),
        None => None,
    }
}
