//! Laws of what lines mean together.
ghost use Rattle.psg_defnumber.specs.Once.{OneNumbering};
ghost use Rattle.psg_defnumber.specs.Soundness.{NumberedIsSound, WordsAreTokens};

/// States that lines are together one definition at most. It does nothing at run time.
pub fn one_numbering()
    ensures { OneNumbering }
{}

/// States that a definition that the lines of a file of fewer than 2^32 bytes are together is sound. It does nothing at
/// run time.
pub fn numbered_is_sound()
    ensures { NumberedIsSound }
{}

/// States that each fixed word and each separator of such a definition is one token. It does nothing at run time.
pub fn words_are_tokens()
    ensures { WordsAreTokens }
{}
