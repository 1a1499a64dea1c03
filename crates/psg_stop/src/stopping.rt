//! Where a list of tokens stops being the beginning of a tree, and what may be there.
ghost use Rattle.std.specs.Prelude.{◌≡◌, ◌↔◌, ◌≤◌, ◌++◌, ◌∷◌, [], IfOk, OnOk, length, true, take};
ghost use Rattle.psg_class.specs.Class.{IsClass};
ghost use Rattle.psg_class.specs.Terminals.{a_name, terminal_of, word};
ghost use Rattle.psg_class.specs.Texts.{tokens_of};
ghost use Rattle.psg_parse.specs.Onward.{IsEndable};
ghost use Rattle.psg_parse.specs.Stops.{Begins, IsStop, MayEnd, StopsAt};
ghost use Rattle.psg_parse.specs.Tables.{IsParseTable};
ghost use Rattle.psg_stop.specs.Wanted.{AreWanted, GoesWith, IsAsked, wanted_terminal, wanted_terminals};

use crate::naming::free_name;
use crate::wanted::{Wanted, candidates, token_of};
use psg_grammar::Definition;
use psg_lexis::{Spanned, Token};
use psg_parse::{Goal, ParseTable, reach};
use psg_terms::Txt;
use std::alloc::{AllocError, Global};

/// The stop of a list of tokens, and what may be there.
#[derive(Debug, Drop)]
pub struct Stop {
    /// The number of the first token that no tree goes on with, or how many there are.
    pub tokens: usize,
    /// Which tokens go on with those in front of the stop. A fixed word may be in the list twice.
    pub wanted: Vec<Wanted>,
    /// Whether those in front of the stop are a whole tree.
    pub may_end: bool,
}

/// Returns how many of the first tokens may begin a tree of the goal's kind and level, as `psg_parse::reach` does, and
/// what may follow them: each kind of token with which they begin a tree, and whether they are one. It serves to say
/// what is wrong where `psg_parse::parse` returns `NoTree`.
///
/// What may follow them is exact where all that the definition has can be ended and the kind has a tree of the level.
/// Whether they are a tree is exact for every definition. It fails where memory runs out. It reads the tokens in front
/// of the stop once for each fixed word and each phylum of the definition, and eight times more.
pub fn find_stop(
    alloc: Global,
    definition: &Definition,
    table: &ParseTable,
    goal: Goal,
    tokens: &[Spanned],
) -> Result<Stop, AllocError>
    requires class { IsClass definition.now }
    requires table { IsParseTable definition.now table.now }
    ensures inside { IfOk result (λ s. s.tokens ≤ length tokens.now) }
    ensures stops { IfOk result (λ s. StopsAt definition.now goal.kind goal.least (tokens_of tokens.now) s.tokens) }
    ensures stop { IfOk result (λ s. IsEndable definition.now → Begins definition.now goal.kind goal.least []
        → IsStop definition.now goal.kind goal.least (tokens_of tokens.now) s.tokens) }
    ensures ends { IfOk result (λ s. (s.may_end ≡ true)
        ↔ MayEnd definition.now goal.kind goal.least (take s.tokens (tokens_of tokens.now))) }
    ensures wanted { IfOk result (λ s. IsEndable definition.now → Begins definition.now goal.kind goal.least []
        → AreWanted definition.now goal.kind goal.least (take s.tokens (tokens_of tokens.now))
        (wanted_terminals s.wanted.items)) }
{
    let front = reach(alloc, definition, table, goal, tokens)?;
    let taken = &tokens[..front.tokens];
    let own = reach(alloc, definition, table, goal, taken)?;
    let wanted = wanted_after(alloc, definition, table, goal, taken)?;
    Ok(Stop {
        tokens: front.tokens,
        wanted,
        may_end: own.whole,
    })
}

/// Returns what may follow the tokens.
fn wanted_after(
    alloc: Global,
    definition: &Definition,
    table: &ParseTable,
    goal: Goal,
    tokens: &[Spanned],
) -> Result<Vec<Wanted>, AllocError>
    requires class { IsClass definition.now }
    requires table { IsParseTable definition.now table.now }
    ensures { IfOk result (λ wanted. IsEndable definition.now
        → Begins definition.now goal.kind goal.least (tokens_of tokens.now)
        → AreWanted definition.now goal.kind goal.least (tokens_of tokens.now) (wanted_terminals wanted.items)) }
{
    let name = free_name(alloc, definition)?;
    let all = candidates(alloc, definition)?;
    let mut wanted = Vec::new(alloc);
    for candidate in all.as_slice() {
        ask(
            alloc,
            definition,
            table,
            goal,
            tokens,
            &name,
            candidate,
            &mut wanted,
        )?;
    }
    Ok(wanted)
}

/// Adds the kind of token, if it goes on with the tokens. The name is a word that is not fixed.
fn ask(
    alloc: Global,
    definition: &Definition,
    table: &ParseTable,
    goal: Goal,
    tokens: &[Spanned],
    name: &Txt,
    candidate: &Wanted,
    wanted: &mut Vec<Wanted>,
) -> Result<(), AllocError>
    requires class { IsClass definition.now }
    requires table { IsParseTable definition.now table.now }
    requires name { terminal_of definition.now (word name.now) ≡ a_name }
    ensures { OnOk result (IsEndable definition.now
        → Begins definition.now goal.kind goal.least (tokens_of tokens.now)
        → IsAsked definition.now goal.kind goal.least (tokens_of tokens.now) (wanted_terminal candidate.now)
        (wanted_terminals wanted.old.items) (wanted_terminals wanted.new.items)) }
{
    let found = token_of(alloc, definition, table, name, candidate)?;
    let Some(token) = found else {
        return Ok(());
    };
    let goes = goes_on(alloc, definition, table, goal, tokens, token)?;
    if !goes {
        return Ok(());
    }
    let one = candidate.share()?;
    wanted.push(one)?;
    Ok(())
}

/// Says whether the tokens and then this one begin a tree.
fn goes_on(
    alloc: Global,
    definition: &Definition,
    table: &ParseTable,
    goal: Goal,
    tokens: &[Spanned],
    token: Token,
) -> Result<bool, AllocError>
    requires class { IsClass definition.now }
    requires table { IsParseTable definition.now table.now }
    ensures { IfOk result (λ goes. IsEndable definition.now
        → Begins definition.now goal.kind goal.least (tokens_of tokens.now)
        → (goes ≡ true) ↔ GoesWith definition.now goal.kind goal.least (tokens_of tokens.now)
        (terminal_of definition.now token)) }
{
    let row = with_token(alloc, tokens, token)?;
    let front = reach(alloc, definition, table, goal, row.as_slice())?;
    let reached = front.tokens;
    let count = tokens.len();
    if reached > count {
        return Ok(true);
    }
    Ok(false)
}

/// Returns the tokens with one more, whose texts are shared.
fn with_token(alloc: Global, tokens: &[Spanned], token: Token) -> Result<Vec<Spanned>, AllocError>
    ensures { IfOk result (λ row. tokens_of row.items ≡ tokens_of tokens.now ++ token ∷ []) }
{
    let mut row = copied(alloc, tokens)?;
    row.push(Spanned {
        token,
        start: 0,
        end: 0,
    })?;
    Ok(row)
}

/// Returns the same tokens, whose texts are shared.
fn copied(alloc: Global, tokens: &[Spanned]) -> Result<Vec<Spanned>, AllocError>
    ensures { IfOk result (λ row. tokens_of row.items ≡ tokens_of tokens.now) }
{
    let mut row = Vec::new(alloc);
    for spanned in tokens {
        let token = shared(&spanned.token)?;
        row.push(Spanned {
            token,
            start: spanned.start,
            end: spanned.end,
        })?;
    }
    Ok(row)
}

fn shared(token: &Token) -> Result<Token, AllocError>
    ensures { IfOk result (λ same. same ≡ token.now) }
{
    Ok(match token {
        Token::Word(text) => Token::Word(text.share()?),
        Token::Number(value) => Token::Number(*value),
        Token::Text(text) => Token::Text(text.share()?),
        Token::Solo(byte) => Token::Solo(*byte),
        Token::Symbol(text) => Token::Symbol(text.share()?),
        Token::Hole(name) => Token::Hole(name.share()?),
        Token::More => Token::More,
    })
}
