//! Languages of trees at random, and what their texts are made of.
use super::random::Rules;

/// Operators whose values have variables, several rows, a variable that is there twice, and rows that can only fit by a
/// term that contains itself. Each variable of a row is of its head or has one of two terms, so no choice is left out.
pub(super) const TERMS: &str = "psg 1
sort Bit = a b
sort Type = int list(Type) pair(Type,Type) tag(Bit,Type)
phylum Exp : Type
phylum Count : Type
op zero : Exp = \"zero\"
row int
op any : Exp = \"any\"
row ?T
op nil : Exp = \"nil\"
row list(?T)
op some : Exp = \"some\"
row int
row list(?T)
row list(int)
op odd : Exp = \"odd\"
row pair(?A,list(?A))
op none : Exp = \"none\"
op cons : Exp = \"cons\" \"(\" Exp \",\" Exp \")\"
row list(?T) : ?T list(?T)
op pair : Exp = \"pair\" \"(\" Exp \",\" Exp \")\"
row pair(?A,?B) : ?A ?B
op plus : Exp = \"plus\" \"(\" Exp \",\" Exp \")\"
row int : int int
row list(?T) : list(?T) list(?T)
op same : Exp = \"same\" \"(\" Exp \",\" Exp \")\"
row ?T : ?T ?T
op take : Exp = \"take\" \"(\" Exp \",\" Count \")\"
row ?T : list(?T) int
row list(?T) : list(?T) list(int)
op twin : Exp = \"twin\" \"(\" Exp \")\"
row ?T : pair(?T,?T)
op swap : Exp = \"swap\" \"(\" Exp \")\"
row pair(?B,?A) : pair(?A,?B)
op mark : Exp = \"mark\" \"(\" Exp \")\"
row tag(?X,?T) : ?T
op left : Exp = \"left\" \"(\" Exp \")\"
row tag(a,?T) : tag(?X,?T)
op bare : Exp = \"bare\" \"(\" Exp \")\"
row ?T : tag(?X,?T)
row int : int
op one : Count = \"one\"
row int
op each : Count = \"each\" \"(\" Exp \")\"
row int : int
row list(?T) : list(?T)
hole Exp ?T by any
hole Count int by one
hole Count list(?T) by each(nil)
";

/// Names that are declared in regions of their own, by scope operators with names and by lists that may go on. Each
/// entity is one of two terms.
pub(super) const SCOPES: &str = "psg 1
sort Unit = ok
sort Type = int bool
entity Type
phylum Stat : Unit
phylum Exp : Type
phylum Decl : Unit
list Decls : Unit of Decl \";\" inline unfinished
list Stats : Unit of Stat \";\" inline unfinished
op set : Stat = refers \"=\" Exp
row ok : ?T ?T
op block : Stat scope = \"begin\" Decls \"do\" Stats \"end\"
row ok : ok ok
op each : Stat scope = \"each\" declares \"do\" Stats \"end\"
row ok : int ok
op test : Stat scope = \"test\" refers \"do\" Stats \"end\"
row ok : bool ok
op ref : Exp = refers
row ?T : ?T
op num : Exp = number
row int
op tru : Exp = \"true\"
row bool
op same : Exp = \"same\" \"(\" Exp \",\" Exp \")\"
row bool : ?T ?T
op ints : Decl = \"int\" declares
row ok : int
op some : Decl = \"some\" declares
row ok : int
row ok : bool
op new : Decl = \"new\" declares \"=\" Exp
row ok : ?T ?T
nil Decls ok
cell Decls ok : ok ok
nil Stats ok
cell Stats ok : ok ok
hole Stat ok by block([],[])
hole Exp ?T by ref($a)
hole Decl ok by some($a)
hole Decls ok by []
hole Stats ok by []
declare Decls ?T : ok by new($it,ref($a))
";

pub(super) const TERM_TEXTS: Rules = &[
    (
        "Exp",
        &[
            &["?Exp"],
            &["?Exp"],
            &["zero"],
            &["any"],
            &["nil"],
            &["some"],
            &["odd"],
            &["odd"],
            &["none"],
            &["cons", "(", "Exp", ",", "Exp", ")"],
            &["pair", "(", "Exp", ",", "Exp", ")"],
            &["plus", "(", "Exp", ",", "Exp", ")"],
            &["same", "(", "Exp", ",", "Exp", ")"],
            &["take", "(", "Exp", ",", "Count", ")"],
            &["twin", "(", "Exp", ")"],
            &["swap", "(", "Exp", ")"],
            &["mark", "(", "Exp", ")"],
            &["left", "(", "Exp", ")"],
            &["bare", "(", "Exp", ")"],
        ],
    ),
    (
        "Count",
        &[&["?Count"], &["one"], &["each", "(", "Exp", ")"]],
    ),
];

pub(super) const SCOPE_TEXTS: Rules = &[
    (
        "Stat",
        &[
            &["Name", "=", "Exp"],
            &["Name", "=", "Exp"],
            &["?Stat"],
            &["begin", "Decls", "do", "Stats", "end"],
            &["begin", "Decls", "do", "Stats", "end"],
            &["each", "Name", "do", "Stats", "end"],
            &["test", "Name", "do", "Stats", "end"],
        ],
    ),
    (
        "Stats",
        &[
            &["Stat"],
            &["Stat", ";", "Stat"],
            &["Stat", ";", "Stat", ";", "Stat"],
            &["Stat", ";", "..."],
            &[],
        ],
    ),
    (
        "Decls",
        &[
            &[],
            &["..."],
            &["Decl"],
            &["Decl", ";", "Decl"],
            &["Decl", ";", "..."],
        ],
    ),
    (
        "Decl",
        &[
            &["int", "Name"],
            &["some", "Name"],
            &["new", "Name", "=", "Exp"],
        ],
    ),
    (
        "Exp",
        &[
            &["Name"],
            &["Name"],
            &["1"],
            &["true"],
            &["?Exp"],
            &["same", "(", "Exp", ",", "Exp", ")"],
        ],
    ),
    ("Name", &[&["a"], &["b"]]),
];

pub(super) const MINI_TEXTS: Rules = &[
    (
        "Stat",
        &[
            &["skip"],
            &["?Stat"],
            &["Name", ":=", "Exp"],
            &["Name", ":=", "Exp"],
            &["call", "Name", "(", "Args", ")"],
            &["while", "Exp", "do", "Stats", "od"],
            &["begin", "Decls", "do", "Stats", "end"],
            &["begin", "Decls", "do", "Stats", "end"],
        ],
    ),
    (
        "Exp",
        &[
            &["Name"],
            &["Name"],
            &["?Exp"],
            &["1"],
            &["true"],
            &["(", "Exp", "+", "Exp", ")"],
            &["(", "Exp", "&", "Exp", ")"],
            &["(", "Exp", "=", "Exp", ")"],
            &["not", "Exp"],
            &["Name", "[", "Exp", "]"],
        ],
    ),
    (
        "Stats",
        &[
            &[],
            &["Stat"],
            &["Stat", ";", "Stat"],
            &["Stat", ";", "Stat"],
            &["Stat", ";", "..."],
        ],
    ),
    (
        "Decls",
        &[
            &[],
            &["Decl"],
            &["Decl"],
            &["Decl", ";", "Decl"],
            &["..."],
            &["Decl", ";", "..."],
        ],
    ),
    (
        "Decl",
        &[
            &["var", "Name", ":", "TypeX"],
            &["var", "Name", ":", "TypeX"],
            &["type", "Name", "=", "TypeX"],
            &["proc", "Name", "(", "Params", ")", "Stat"],
        ],
    ),
    ("Params", &[&[], &["Param"], &["Param", ",", "Param"]]),
    ("Param", &[&["Name", ":", "TypeX"]]),
    (
        "Args",
        &[
            &[],
            &["Exp"],
            &["Exp", ",", "Exp"],
            &["..."],
            &["Exp", ",", "..."],
        ],
    ),
    (
        "TypeX",
        &[
            &["int"],
            &["bool"],
            &["?TypeX"],
            &["Name"],
            &["array", "TypeX"],
        ],
    ),
    ("Name", &[&["a"], &["b"]]),
];
