//! What a step back or forward hands out.

/// The answer of a step.
#[derive(Debug, PartialEq, Eq, Drop)]
pub enum Undone<T> {
    /// The step was made: this value is now the current one.
    Moved(T),
    /// Nothing is kept in that direction: the current value is given back.
    Nothing(T),
}
