//! The laws of frames, as the contract of a call that does nothing.
ghost use Rattle.std.specs.Prelude.{◌≡◌, ◌≤◌, ◌<◌, ◌↔◌, ◌++◌, ◌∷◌, ℕ, List, Some, length};
ghost use Rattle.psg_protocol.specs.HeaderLines.{HasLength, IsHeader};
ghost use Rattle.psg_protocol.specs.Headers.{most_lines, number_of, trimmed};
ghost use Rattle.psg_protocol.specs.Frames.{Event, HasReadAll, Reads, Rest, at_first, body, framed, joined, most_body};

/// Shows that pieces have the frames of all their bytes, that these do not depend on how the bytes are cut, and that a
/// message after a header, or after the one that `framed` writes, is read as it is, whatever is after it.
pub fn same_frames()
    ensures frames { (pieces : List (List ℕ)) (events : List Event) (new : Rest) → HasReadAll at_first pieces events new
        → Reads 0 (joined pieces) events new }
    ensures cuts { (pieces others : List (List ℕ)) (events told : List Event) (new last : Rest)
        → joined pieces ≡ joined others
        → HasReadAll at_first pieces events new → HasReadAll at_first others told last
        → (events ≡ told) × (new ≡ last) }
    ensures headers { (texts : List (List ℕ)) (bytes message more value : List ℕ) (events : List Event) (rest : Rest)
        → IsHeader texts bytes → length texts < most_lines → HasLength texts value
        → number_of (trimmed value) ≡ Some (length message) → length message ≤ most_body
        → (Reads 0 (bytes ++ message ++ more) (body message ∷ events) rest ↔ Reads 0 more events rest) }
    ensures framed { (message more : List ℕ) (events : List Event) (rest : Rest) → length message ≤ most_body
        → (Reads 0 (framed message ++ more) (body message ∷ events) rest ↔ Reads 0 more events rest) }
{}
