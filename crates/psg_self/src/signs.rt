//! What the language of definitions is known by: its phyla, lists and operators.
use psg_grammar::Kind;

/// An item of an operator, as it is expected.
#[derive(Clone, Copy)]
pub enum Sign {
    /// The fixed word.
    Word(&'static str),
    /// A slot of the kind.
    Slot(Kind),
    /// A name that is used, in the space of this number.
    Refers(u32),
    /// A name that is declared, in the space of this number.
    Declares(u32),
    /// A number.
    Number,
    /// A text.
    Text,
    /// The layout mark `tight`.
    Tight,
}

/// An operator, as it is expected.
#[derive(Clone, Copy)]
pub struct Wanted {
    /// The name.
    pub name: &'static str,
    /// The number of the phylum.
    pub phylum: u32,
    /// The items, in order.
    pub items: &'static [Sign],
}

/// The phyla, in order.
pub const PHYLA: &[&str] = &["Line", "Con", "Arg", "Level", "Item", "Row", "Term", "Spec"];

/// The lists, in order, each with the number of the phylum of its elements.
pub const LISTS: &[(&str, u32)] = &[
    ("Lines", 0),
    ("Cons", 1),
    ("Args", 2),
    ("Items", 4),
    ("Rows", 5),
    ("Terms", 6),
    ("Specs", 7),
];

/// The operators, in order.
pub const OPERATORS: &[Wanted] = &[
    Wanted {
        name: "sortline",
        phylum: 0,
        items: &[
            Sign::Word("sort"),
            Sign::Declares(0),
            Sign::Word("="),
            Sign::Slot(Kind::List(1)),
        ],
    },
    Wanted {
        name: "phyline",
        phylum: 0,
        items: &[
            Sign::Word("phylum"),
            Sign::Declares(2),
            Sign::Word(":"),
            Sign::Refers(0),
        ],
    },
    Wanted {
        name: "brkline",
        phylum: 0,
        items: &[
            Sign::Word("bracketed"),
            Sign::Declares(2),
            Sign::Word(":"),
            Sign::Refers(0),
        ],
    },
    Wanted {
        name: "opline",
        phylum: 0,
        items: &[
            Sign::Word("op"),
            Sign::Declares(3),
            Sign::Word(":"),
            Sign::Refers(2),
            Sign::Slot(Kind::Phylum(3)),
            Sign::Word("="),
            Sign::Slot(Kind::List(3)),
            Sign::Word("rows"),
            Sign::Slot(Kind::List(4)),
        ],
    },
    Wanted {
        name: "holeline",
        phylum: 0,
        items: &[
            Sign::Word("hole"),
            Sign::Refers(2),
            Sign::Slot(Kind::Phylum(6)),
            Sign::Word("by"),
            Sign::Slot(Kind::Phylum(7)),
        ],
    },
    Wanted {
        name: "con",
        phylum: 1,
        items: &[
            Sign::Declares(1),
            Sign::Tight,
            Sign::Word("("),
            Sign::Tight,
            Sign::Slot(Kind::List(2)),
            Sign::Tight,
            Sign::Word(")"),
        ],
    },
    Wanted {
        name: "arg",
        phylum: 2,
        items: &[Sign::Refers(0)],
    },
    Wanted {
        name: "lplain",
        phylum: 3,
        items: &[Sign::Word("plain")],
    },
    Wanted {
        name: "lpre",
        phylum: 3,
        items: &[Sign::Word("prefix"), Sign::Number],
    },
    Wanted {
        name: "lpost",
        phylum: 3,
        items: &[Sign::Word("postfix"), Sign::Number],
    },
    Wanted {
        name: "linl",
        phylum: 3,
        items: &[Sign::Word("infixl"), Sign::Number],
    },
    Wanted {
        name: "linr",
        phylum: 3,
        items: &[Sign::Word("infixr"), Sign::Number],
    },
    Wanted {
        name: "linn",
        phylum: 3,
        items: &[Sign::Word("infix"), Sign::Number],
    },
    Wanted {
        name: "iword",
        phylum: 4,
        items: &[Sign::Text],
    },
    Wanted {
        name: "islot",
        phylum: 4,
        items: &[Sign::Refers(2)],
    },
    Wanted {
        name: "ispace",
        phylum: 4,
        items: &[Sign::Word("space")],
    },
    Wanted {
        name: "itight",
        phylum: 4,
        items: &[Sign::Word("tight")],
    },
    Wanted {
        name: "iline",
        phylum: 4,
        items: &[Sign::Word("line")],
    },
    Wanted {
        name: "iin",
        phylum: 4,
        items: &[Sign::Word("in")],
    },
    Wanted {
        name: "iout",
        phylum: 4,
        items: &[Sign::Word("out")],
    },
    Wanted {
        name: "rowline",
        phylum: 5,
        items: &[
            Sign::Word("row"),
            Sign::Slot(Kind::Phylum(6)),
            Sign::Word(":"),
            Sign::Slot(Kind::List(5)),
        ],
    },
    Wanted {
        name: "tcon",
        phylum: 6,
        items: &[
            Sign::Refers(1),
            Sign::Tight,
            Sign::Word("("),
            Sign::Tight,
            Sign::Slot(Kind::List(5)),
            Sign::Tight,
            Sign::Word(")"),
        ],
    },
    Wanted {
        name: "tvar",
        phylum: 6,
        items: &[Sign::Word("%"), Sign::Tight, Sign::Refers(4)],
    },
    Wanted {
        name: "spec",
        phylum: 7,
        items: &[
            Sign::Refers(3),
            Sign::Tight,
            Sign::Word("("),
            Sign::Tight,
            Sign::Slot(Kind::List(6)),
            Sign::Tight,
            Sign::Word(")"),
        ],
    },
];
