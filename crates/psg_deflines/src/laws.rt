//! A law of the lines of a file, as the contract of a call that does nothing.
ghost use Rattle.std.specs.Prelude.{◌≡◌, List, ℕ};
ghost use Rattle.psg_deflines.specs.Forms.{SpellsLine};
ghost use Rattle.psg_deflines.specs.declared.lines.Line.{Line};

/// States that a text spells one line at most. It does nothing at run time.
pub fn one_line()
    ensures { (text : List ℕ) (a b : Line) → SpellsLine text a → SpellsLine text b → a ≡ b }
{}
