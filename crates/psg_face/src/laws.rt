//! The law of moves, as the contract of a call that does nothing.
ghost use Rattle.std.specs.Prelude.{◌≡◌, true};
ghost use Rattle.psg_grammar.specs.Fragments.{Fragment};
ghost use Rattle.psg_grammar.specs.Paths.{Path};
ghost use Rattle.psg_face.specs.Moves as moves;

/// Shows that the arrows lead from a chosen path to a chosen path, and that what is left of any path is one.
pub fn moves_lead()
    ensures child { (f : Fragment) (path : Path) → moves.leads f path ≡ true
        → moves.leads f (moves.to_child f path) ≡ true }
    ensures next { (f : Fragment) (path : Path) → moves.leads f path ≡ true
        → moves.leads f (moves.to_next f path) ≡ true }
    ensures previous { (f : Fragment) (path : Path) → moves.leads f path ≡ true
        → moves.leads f (moves.to_previous path) ≡ true }
    ensures parent { (f : Fragment) (path : Path) → moves.leads f path ≡ true
        → moves.leads f (moves.parent_of path) ≡ true }
    ensures far { (f : Fragment) (path : Path) → moves.leads f (moves.as_far f path) ≡ true }
{}
