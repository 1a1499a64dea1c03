//! A law of definition files, as the contract of a call that does nothing.
ghost use Rattle.std.specs.Prelude.{◌≡◌, List, ℕ};
ghost use Rattle.psg_deflines.specs.declared.fault.DefFault.{DefFault};
ghost use Rattle.psg_defread.specs.Refusals.{Refusal};

use psg_deflines::laws::one_line;

/// States that a file is refused with one fault at most. So where it has a fault, the reader answers with it or with
/// out of memory. It does nothing at run time.
pub fn one_fault()
    ensures { (bytes : List ℕ) (f g : DefFault) → Refusal bytes f → Refusal bytes g → f ≡ g }
{
    one_line();
}
