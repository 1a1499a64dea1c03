//! Laws of names and links, each as the contract of a call that does nothing.
ghost use Rattle.psg_links.specs.Agreeing.{LinksAgree, NamesAgree};

use psg_grammar::Definition;

/// States that the names of a tree that declare are its declared names, and that the others are its used ones. The call
/// has no cost.
pub fn names_agree(_definition: &Definition)
    ensures { NamesAgree _definition.now }
{}

/// States that a name that no unfinished list around it may still declare is linked to a declaration exactly where it
/// is declared. So the names that are linked to the outside are those that nothing declares. The call has no cost.
pub fn links_agree(_definition: &Definition)
    ensures { LinksAgree _definition.now }
{}
