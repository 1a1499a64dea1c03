//! The law of pieces, as the contract of a call that does nothing.
ghost use Rattle.std.specs.Prelude.{◌≡◌, List, ℕ};
ghost use Rattle.psg_keys.specs.Reading.{Spelled, Waiting, EndInNoEscape, HasReadAll, at_first, joined};

/// Shows that the keys, and what waits after them, do not depend on how the bytes are cut, where no piece ends in an
/// escape.
pub fn same_keys()
    ensures keys { (pieces others : List (List ℕ)) (given told : List Spelled) (new last : Waiting)
        → EndInNoEscape pieces → EndInNoEscape others → joined pieces ≡ joined others
        → HasReadAll at_first pieces given new → HasReadAll at_first others told last → given ≡ told }
    ensures waiting { (pieces others : List (List ℕ)) (given told : List Spelled) (new last : Waiting)
        → EndInNoEscape pieces → EndInNoEscape others → joined pieces ≡ joined others
        → HasReadAll at_first pieces given new → HasReadAll at_first others told last → new ≡ last }
{}
