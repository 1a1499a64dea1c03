//! The law of wrong places, as the contract of a call that does nothing.
ghost use Rattle.std.specs.Prelude.{◌≡◌, [], Bool, List, MatchOption};
ghost use Rattle.psg_grammar.specs.Paths.{Path};
ghost use Rattle.psg_modes.specs.Wrong as wrong;

/// Shows that the next of the paths is the nearest one that is further on in the order of the text, and, where none is
/// further on, the first of all; and that the one before is so in the other direction. There is none only of no paths.
pub fn next_is_near()
    ensures { (paths : List Path) (from : Path) (forward : Bool)
        → MatchOption (wrong.next_of paths from forward) (paths ≡ []) (wrong.IsNext forward paths from) }
{}
