//! A law of exported texts, as the contract of a call that does nothing.
ghost use Rattle.std.specs.Prelude.{ℕ, List};
ghost use Rattle.psg_grammar.specs.declared.types.Definition.{Definition};
ghost use Rattle.psg_grammar.specs.declared.types.Kind.TheVariants as kinds;
ghost use Rattle.psg_grammar.specs.Fragments.{Fragment};
ghost use Rattle.psg_grammar.specs.WellFormed.{WellFormed, IsComplete};
ghost use Rattle.psg_defread.specs.Reading.{IsReadAs};
ghost use Rattle.psg_self.specs.SelfLanguage.{IsSelf};
ghost use Rattle.psg_self.specs.Export.{exported};
ghost use Rattle.psg_self.specs.Says.{Says};

use psg_deflines::laws::one_line;

/// States that the exported text of a program without placeholders and unfinished lists is read as a definition only
/// where the program says it. It does nothing at run time.
pub fn only_says()
    ensures { (def : Definition) (f : Fragment) → IsSelf def → WellFormed def f (kinds.List 0) → IsComplete f
        → (read : Definition) → IsReadAs (exported f) read → Says f read }
{
    one_line();
}

/// States that the exported text of a program without placeholders and unfinished lists is read as any definition that
/// the program says, where some bytes spell it without a fault. It does nothing at run time.
pub fn says_is_read()
    ensures { (def : Definition) (f : Fragment) → IsSelf def → WellFormed def f (kinds.List 0) → IsComplete f
        → (read : Definition) → Says f read
        → (bytes : List ℕ) → IsReadAs bytes read → IsReadAs (exported f) read }
{
    one_line();
}
