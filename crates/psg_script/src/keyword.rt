//! The first words of lines.
ghost use Rattle.std.specs.Prelude.{◌≡◌, IfNone, IfSome};
ghost use Rattle.psg_script.specs.Keywords.{keyword_of};

use crate::command::Command;

/// The first word of a command's line, one for each command.
#[derive(Clone, Copy, Debug, PartialEq, Eq)]
pub enum Keyword {
    /// The word `new`.
    New,
    /// The word `goto`.
    Goto,
    /// The word `refine`.
    Refine,
    /// The word `insert`.
    Insert,
    /// The word `cut`.
    Cut,
    /// The word `remove`.
    Remove,
    /// The word `close`.
    Close,
    /// The word `reopen`.
    Reopen,
    /// The word `over`.
    Over,
    /// The word `range`.
    Range,
    /// The word `show`.
    Show,
    /// The word `screen`.
    Screen,
    /// The word `relation`.
    Relation,
    /// The word `own`.
    Own,
    /// The word `menu`.
    Menu,
    /// The word `names`.
    Names,
    /// The word `free`.
    Free,
    /// The word `undo`.
    Undo,
    /// The word `redo`.
    Redo,
    /// The word `save`.
    Save,
    /// The word `paste`.
    Paste,
    /// The word `keep`.
    Keep,
    /// The word `fetch`.
    Fetch,
}

impl Keyword {
    ghost use Rattle.psg_script.specs.Keywords.{keyword_text};
    ghost use Rattle.psg_script.specs.declared.keyword.Keyword.{Keyword};

    /// Returns the keyword that is written as this word, or `None` where there is none.
    pub fn of(word: &str) -> Option<Keyword>
        ensures some { IfSome result (λ k. word.now ≡ keyword_text k) }
        ensures none { IfNone result ((k : Keyword) → word.now ≡ keyword_text k → ⊥) }
    {
        Some(match word {
            "new" => Keyword::New,
            "goto" => Keyword::Goto,
            "refine" => Keyword::Refine,
            "insert" => Keyword::Insert,
            "cut" => Keyword::Cut,
            "remove" => Keyword::Remove,
            "close" => Keyword::Close,
            "reopen" => Keyword::Reopen,
            "over" => Keyword::Over,
            "range" => Keyword::Range,
            "show" => Keyword::Show,
            "screen" => Keyword::Screen,
            "relation" => Keyword::Relation,
            "own" => Keyword::Own,
            "menu" => Keyword::Menu,
            "names" => Keyword::Names,
            "free" => Keyword::Free,
            "undo" => Keyword::Undo,
            "redo" => Keyword::Redo,
            "save" => Keyword::Save,
            "paste" => Keyword::Paste,
            "keep" => Keyword::Keep,
            "fetch" => Keyword::Fetch,
            _ => return None,
        })
    }

    /// Returns the word that the keyword is written as.
    pub fn text(self) -> &'static str
        ensures { result.now ≡ keyword_text self }
    {
        match self {
            Keyword::New => "new",
            Keyword::Goto => "goto",
            Keyword::Refine => "refine",
            Keyword::Insert => "insert",
            Keyword::Cut => "cut",
            Keyword::Remove => "remove",
            Keyword::Close => "close",
            Keyword::Reopen => "reopen",
            Keyword::Over => "over",
            Keyword::Range => "range",
            Keyword::Show => "show",
            Keyword::Screen => "screen",
            Keyword::Relation => "relation",
            Keyword::Own => "own",
            Keyword::Menu => "menu",
            Keyword::Names => "names",
            Keyword::Free => "free",
            Keyword::Undo => "undo",
            Keyword::Redo => "redo",
            Keyword::Save => "save",
            Keyword::Paste => "paste",
            Keyword::Keep => "keep",
            Keyword::Fetch => "fetch",
        }
    }
}

/// Returns the keyword of a command.
pub fn keyword_of(command: &Command) -> Keyword
    ensures { result ≡ keyword_of command.now }
{
    match command {
        Command::New { .. } => Keyword::New,
        Command::Goto { .. } => Keyword::Goto,
        Command::Refine { .. } => Keyword::Refine,
        Command::Insert { .. } => Keyword::Insert,
        Command::Cut { .. } => Keyword::Cut,
        Command::Remove { .. } => Keyword::Remove,
        Command::Close { .. } => Keyword::Close,
        Command::Reopen { .. } => Keyword::Reopen,
        Command::Over { .. } => Keyword::Over,
        Command::Range { .. } => Keyword::Range,
        Command::Show => Keyword::Show,
        Command::Screen { .. } => Keyword::Screen,
        Command::Relation { .. } => Keyword::Relation,
        Command::Own { .. } => Keyword::Own,
        Command::Menu { .. } => Keyword::Menu,
        Command::Names { .. } => Keyword::Names,
        Command::Free => Keyword::Free,
        Command::Undo => Keyword::Undo,
        Command::Redo => Keyword::Redo,
        Command::Save { .. } => Keyword::Save,
        Command::Paste { .. } => Keyword::Paste,
        Command::Keep { .. } => Keyword::Keep,
        Command::Fetch { .. } => Keyword::Fetch,
    }
}
