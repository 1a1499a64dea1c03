//! The operators of a definition by the tokens that they begin or go on with.
ghost use Rattle.std.specs.Prelude.{◌≡◌, ◌≤◌, None, OnOk, length};
ghost use Rattle.psg_class.specs.Places.{solid};
ghost use Rattle.psg_grammar.specs.Levels.{is_mark};
ghost use Rattle.psg_class.specs.Terminals.{Terminal};
ghost use Rattle.psg_parse.specs.Lookups.{IsBare, opener, Puts};
ghost use Rattle.psg_parse.specs.Seen.{terminal_seen};

use crate::seen::Seen;
use psg_grammar::Item;
use std::alloc::{AllocError, Global};
use std::collections::HashMap;

/// The operators of one phylum by the terminal at one of their places.
#[derive(Drop)]
pub(crate) struct Openers {
    pub(crate) words: HashMap<String, u32>,
    pub(crate) name: Option<u32>,
    pub(crate) number: Option<u32>,
    pub(crate) text: Option<u32>,
}

impl Openers {
    pub(crate) fn new(alloc: Global) -> Openers
        ensures { (terminal : Terminal) → opener result terminal ≡ None }
    {
        Openers {
            words: HashMap::new(alloc),
            name: None,
            number: None,
            text: None,
        }
    }

    /// Puts the operator in at the terminal of the item. At a slot and a mark for the layout it changes nothing.
    pub(crate) fn put(&mut self, alloc: Global, item: &Item, op: u32) -> Result<(), AllocError>
        ensures { OnOk result (Puts self.old item.now op self.new) }
    {
        match item {
            Item::Word(word) => {
                let key = String::from_str(alloc, word.as_str())?;
                self.words.insert(key, op)?;
            }
            Item::Refers(_) | Item::Declares(_) => self.name = Some(op),
            Item::Number => self.number = Some(op),
            Item::Text => self.text = Some(op),
            _ => {}
        }
        Ok(())
    }

    /// Returns the operator of the terminal.
    pub(crate) fn find(&self, seen: Seen) -> Option<u32>
        ensures { result ≡ opener self.now (terminal_seen seen.entry) }
    {
        match seen {
            Seen::Fixed(word) => self.words.get(word).copied(),
            Seen::Name => self.name,
            Seen::Number => self.number,
            Seen::Text => self.text,
            _ => None,
        }
    }
}

/// Returns the items from the first one on that is no mark for the layout.
pub(crate) fn without_marks<'a>(items: &'a [Item]) -> &'a [Item]
    ensures same { solid result.now ≡ solid items.now }
    ensures short { length result.now ≤ length items.now }
    ensures bare { IsBare result.now }
{
    let mut left = items;
    while let Some((first, others)) = left.split_first() {
        if !is_mark(first) {
            break;
        }
        left = others;
    }
    left
}

fn is_mark(item: &Item) -> bool
    ensures { result ≡ is_mark item.now }
{
    matches!(
        item,
        Item::Space | Item::Tight | Item::Line | Item::In | Item::Out
    )
}
