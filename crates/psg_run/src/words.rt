//! What the words of a run ask for.
ghost use Rattle.std.specs.Prelude.{◌≡◌, ◌∷◌, [], MatchOption, codes};
ghost use Rattle.psg_terms.specs.Names.{Name};
ghost use Rattle.psg_run.specs.Promise.{HasNoForm};
ghost use Rattle.psg_run.specs.Wanted.{IsWanted};
ghost use Rattle.psg_run.specs.Worlds.{texts_of};

use crate::framing::Framing;
use crate::limits::{MOST_COLUMNS, MOST_GENERATED};
use psg_script::read_up_to;

/// A form of words.
#[derive(Drop)]
pub enum Form<'a> {
    /// `check DEF`
    Check {
        definition: &'a str,
    },
    /// `edit DEF SCRIPT`
    Edit {
        definition: &'a str,
        script: &'a str,
    },
    /// `live DEF`, and where replies are framed `live --framed DEF`
    Live {
        definition: &'a str,
        framing: Framing,
    },
    /// `windows DEF SCRIPT`
    Windows {
        definition: &'a str,
        script: &'a str,
    },
    /// `gen N`
    Gen {
        number: u32,
    },
    /// `layout DEF SCRIPT LAY COLS`
    Layout {
        definition: &'a str,
        script: &'a str,
        rules: &'a str,
        columns: u32,
    },
    /// `self SCRIPT OUT`
    Itself {
        script: &'a str,
        file: &'a str,
    },
    /// `lint DEF KIND FILE`
    Lint {
        definition: &'a str,
        kind: &'a str,
        program: &'a str,
    },
    /// `format DEF KIND FILE`, and where it only checks `format DEF KIND FILE --check`
    Format {
        definition: &'a str,
        kind: &'a str,
        program: &'a str,
        checks: bool,
    },
    /// `explain DEF SCRIPT`
    Explain {
        definition: &'a str,
        script: &'a str,
    },
}

/// What `gen` asks for with this word.
fn of_number<'a>(word: &str) -> Option<Form<'a>>
    ensures { (form : Name) → form ≡ codes "gen" → MatchOption result (HasNoForm (form ∷ word.now ∷ []))
        (IsWanted (form ∷ word.now ∷ [])) }
{
    match read_up_to(MOST_GENERATED, word) {
        Some(number) => Some(Form::Gen { number }),
        None => None,
    }
}

/// What two words ask for.
fn of_two<'a>(form: &str, word: &'a str) -> Option<Form<'a>>
    ensures { MatchOption result (HasNoForm (form.now ∷ word.now ∷ []))
        (IsWanted (form.now ∷ word.now ∷ [])) }
{
    if form == "check" {
        Some(Form::Check { definition: word })
    } else if form == "live" {
        Some(Form::Live {
            definition: word,
            framing: Framing::Plain,
        })
    } else if form == "gen" {
        of_number(word)
    } else {
        None
    }
}

/// What `live` asks for with a word before the file.
fn of_framed<'a>(word: &str, definition: &'a str) -> Option<Form<'a>>
    ensures { (form : Name) → form ≡ codes "live"
        → MatchOption result (HasNoForm (form ∷ word.now ∷ definition.now ∷ []))
        (IsWanted (form ∷ word.now ∷ definition.now ∷ [])) }
{
    if word == "--framed" {
        Some(Form::Live {
            definition,
            framing: Framing::Framed,
        })
    } else {
        None
    }
}

/// What three words ask for.
fn of_three<'a>(form: &str, first: &'a str, second: &'a str) -> Option<Form<'a>>
    ensures { MatchOption result (HasNoForm (form.now ∷ first.now ∷ second.now ∷ []))
        (IsWanted (form.now ∷ first.now ∷ second.now ∷ [])) }
{
    if form == "edit" {
        Some(Form::Edit {
            definition: first,
            script: second,
        })
    } else if form == "windows" {
        Some(Form::Windows {
            definition: first,
            script: second,
        })
    } else if form == "self" {
        Some(Form::Itself {
            script: first,
            file: second,
        })
    } else if form == "explain" {
        Some(Form::Explain {
            definition: first,
            script: second,
        })
    } else if form == "live" {
        of_framed(first, second)
    } else {
        None
    }
}

/// What four words ask for.
fn of_four<'a>(form: &str, definition: &'a str, kind: &'a str, program: &'a str) -> Option<Form<'a>>
    ensures { MatchOption result (HasNoForm (form.now ∷ definition.now ∷ kind.now ∷ program.now ∷ []))
        (IsWanted (form.now ∷ definition.now ∷ kind.now ∷ program.now ∷ [])) }
{
    if form == "format" {
        Some(Form::Format {
            definition,
            kind,
            program,
            checks: false,
        })
    } else if form == "lint" {
        Some(Form::Lint {
            definition,
            kind,
            program,
        })
    } else {
        None
    }
}

/// What `format` asks for with a word after the file.
fn of_check<'a>(
    definition: &'a str,
    kind: &'a str,
    program: &'a str,
    last: &str,
) -> Option<Form<'a>>
    ensures { (form : Name) → form ≡ codes "format"
        → MatchOption result (HasNoForm (form ∷ definition.now ∷ kind.now ∷ program.now ∷ last.now ∷ []))
        (IsWanted (form ∷ definition.now ∷ kind.now ∷ program.now ∷ last.now ∷ [])) }
{
    if last == "--check" {
        Some(Form::Format {
            definition,
            kind,
            program,
            checks: true,
        })
    } else {
        None
    }
}

/// What `layout` asks for with these words.
fn of_columns<'a>(
    definition: &'a str,
    script: &'a str,
    rules: &'a str,
    columns: &str,
) -> Option<Form<'a>>
    ensures { (form : Name) → form ≡ codes "layout"
        → MatchOption result (HasNoForm (form ∷ definition.now ∷ script.now ∷ rules.now ∷ columns.now ∷ []))
        (IsWanted (form ∷ definition.now ∷ script.now ∷ rules.now ∷ columns.now ∷ [])) }
{
    match read_up_to(MOST_COLUMNS, columns) {
        Some(columns) => Some(Form::Layout {
            definition,
            script,
            rules,
            columns,
        }),
        None => None,
    }
}

/// What five words ask for.
fn of_five<'a>(
    form: &str,
    first: &'a str,
    second: &'a str,
    third: &'a str,
    last: &str,
) -> Option<Form<'a>>
    ensures { MatchOption result (HasNoForm (form.now ∷ first.now ∷ second.now ∷ third.now ∷ last.now ∷ []))
        (IsWanted (form.now ∷ first.now ∷ second.now ∷ third.now ∷ last.now ∷ [])) }
{
    if form == "layout" {
        of_columns(first, second, third, last)
    } else if form == "format" {
        of_check(first, second, third, last)
    } else {
        None
    }
}

/// Returns what the words after the program's name ask for, or none where they have no form.
pub fn form_of(words: &[String]) -> Option<Form<'_>>
    ensures { MatchOption result (HasNoForm (texts_of words.now)) (IsWanted (texts_of words.now)) }
{
    match words {
        [form, definition] => of_two(form.as_str(), definition.as_str()),
        [form, definition, script] => {
            of_three(form.as_str(), definition.as_str(), script.as_str())
        }
        [form, first, second, third] => of_four(
            form.as_str(),
            first.as_str(),
            second.as_str(),
            third.as_str(),
        ),
        [form, first, second, third, last] => of_five(
            form.as_str(),
            first.as_str(),
            second.as_str(),
            third.as_str(),
            last.as_str(),
        ),
        _ => None,
    }
}
