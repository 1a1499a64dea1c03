//! Languages without names and lists.

/// A language of numbers and truth values, sums and comparisons, by words in brackets. Its terms are constants.
pub const CONSTS: &str = "psg 1
sort Type = int bool
phylum Exp : Type
op zero : Exp = \"zero\"
row int
op tru : Exp = \"true\"
row bool
op plus : Exp = \"(\" Exp \"+\" Exp \")\"
row int : int int
op same : Exp = \"same\" \"(\" Exp \",\" Exp \")\"
row bool : int int
row bool : bool bool
hole Exp int by zero
hole Exp bool by tru
";

/// A language of numbers and truth values, with operators of all five level forms: prefix, postfix, and infix to the
/// left, to the right and to neither side. It belongs to the grammar class, and each placeholder has a number and a
/// truth value.
pub const LEVELS: &str = "psg 1
sort Type = int bool
phylum Exp : Type bracketed
op num : Exp = number
row int
op yes : Exp = \"yes\"
row bool
op no : Exp = \"no\"
row bool
op choose : Exp = \"if\" Exp \"then\" Exp \"else\" Exp \"fi\"
row int : bool int int
row bool : bool bool bool
op or : Exp infixr 1 = Exp \"or\" Exp
row bool : bool bool
op and : Exp infixr 2 = Exp \"and\" Exp
row bool : bool bool
op not : Exp prefix 3 = \"not\" Exp
row bool : bool
op less : Exp infix 4 = Exp \"<\" Exp
row bool : int int
op plus : Exp infixl 5 = Exp \"+\" Exp
row int : int int
op minus : Exp infixl 5 = Exp \"-\" Exp
row int : int int
op times : Exp infixl 6 = Exp \"*\" Exp
row int : int int
op negative : Exp prefix 7 = \"-\" tight Exp
row int : int
op power : Exp infixr 8 = Exp tight \"^\" tight Exp
row int : int int
op factorial : Exp postfix 9 = Exp tight \"!\"
row int : int
hole Exp int by num(0)
hole Exp bool by yes
";
