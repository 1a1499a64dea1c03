//! What each byte of a printed text is.
use psg_lexis::{LexFault, Lexis, Spanned, Token, lex};
use psg_picture::Part;
use std::alloc::{AllocError, Global};

/// Returns what the token is.
fn part_of(lexis: &Lexis, token: &Token) -> Part {
    match token {
        Token::Word(word) => {
            if lexis.reserved(word.as_str()) {
                Part::Word
            } else {
                Part::Name
            }
        }
        Token::Number(_) => Part::Literal,
        Token::Text(_) => Part::Literal,
        Token::Hole(_) => Part::Place,
        Token::More => Part::Place,
        _ => Part::Word,
    }
}

/// Returns what each byte of a text is. A text without tokens has words alone.
pub(crate) fn parts_of(alloc: Global, lexis: &Lexis, text: &str) -> Result<Vec<Part>, AllocError> {
    let mut parts = vec![in alloc; Part::Word; text.len()]?;
    let tokens = match lex(alloc, lexis, text) {
        Ok(tokens) => tokens,
        Err(LexFault::Memory) => return Err(AllocError),
        Err(_) => return Ok(parts),
    };
    for spanned in tokens.as_slice() {
        let Spanned { token, start, end } = spanned;
        let part = part_of(lexis, token);
        for byte in *start..*end {
            if let Some(old) = parts.get_mut(byte) {
                *old = part;
            }
        }
    }
    Ok(parts)
}
