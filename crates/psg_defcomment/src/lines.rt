//! Lines that name a token of comments.

use psg_terms::Txt;

/// A line that names a token of comments.
#[derive(Drop)]
pub struct Named {
    /// The number of the line, from 1.
    pub line: usize,
    /// The token that it names.
    pub token: Txt,
}
