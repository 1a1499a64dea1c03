//! Edits of trees of sums, numbers, texts and lists of them, and the abstract texts of what they give.
use super::trees::{path, sums, tree};
use psg_grammar::Definition;
use psg_tree::{
    Path, Tree, TreeFault, abstract_text, at, depth, insert, nodes, remove, replace, set_unfinished,
};
use std::alloc::{AllocError, Global};
use std::test::Fail;

/// What is done at a node.
#[derive(Clone, Copy)]
enum Edit<'a> {
    /// It is found.
    Find,
    /// The tree of the text is put in its place.
    Replace(&'a str),
    /// The tree of the text becomes one more element before the place.
    Insert(u32, &'a str),
    /// The element of the place is taken out.
    Remove(u32),
    /// The list is finished.
    Finish,
}

fn edited(alloc: Global, old: &Tree, path: &Path, edit: Edit) -> Result<Tree, TreeFault> {
    match edit {
        Edit::Find => match at(old, path) {
            Some(found) => Ok(found.share()?),
            None => Err(TreeFault::NoNode),
        },
        Edit::Replace(text) => {
            let new = tree(alloc, text)?;
            replace(alloc, old, path, &new)
        }
        Edit::Insert(place, text) => {
            let new = tree(alloc, text)?;
            insert(alloc, old, path, place, &new)
        }
        Edit::Remove(place) => remove(alloc, old, path, place),
        Edit::Finish => set_unfinished(alloc, old, path, false),
    }
}

/// The abstract text of a tree, how many nodes it has and how deep it is.
fn told(alloc: Global, definition: &Definition, tree: &Tree) -> Result<String, AllocError> {
    let text = abstract_text(alloc, definition, tree)?;
    let (nodes, depth) = (nodes(tree), depth(tree));
    format!(in alloc; "{text} {nodes} {depth}")
}

/// What the edit gives at the path, or why it gives nothing.
fn answer(alloc: Global, old: &str, steps: &str, edit: Edit) -> Result<String, AllocError> {
    let definition = sums(alloc)?;
    let old = tree(alloc, old)?;
    let path = path(alloc, steps)?;
    match edited(alloc, &old, &path, edit) {
        Ok(new) => told(alloc, &definition, &new),
        Err(fault) => format!(in alloc; "{fault}"),
    }
}

const SUM: &str = "0/2 ?0 ?0";

const PAIR: &str = "[2.. 1/1 #1 ?0";

#[test]
fn operators(rt: HostRuntime) -> Result<(), Fail> {
    for (old, steps, edit, expected) in [
        (SUM, "", Edit::Find, "plus(?Exp,?Exp) 3 2"),
        (SUM, "1", Edit::Find, "?Exp 1 1"),
        (SUM, "1", Edit::Insert(0, SUM), "the node is no list"),
        (SUM, "2", Edit::Find, "the path leads to no node"),
        (SUM, "2", Edit::Replace(SUM), "the path leads to no node"),
        (
            "0/2 ?0 0/2 ?0 ?0",
            "1 0",
            Edit::Replace("1/1 #7"),
            "plus(?Exp,plus(num(7),?Exp)) 5 3",
        ),
        // the escapes of a text
        (
            "2/2 \"a\"b\\c\nd変 'x",
            "",
            Edit::Find,
            "lit(\"a\\\"b\\\\c\\nd変\",x) 1 1",
        ),
        // an operator that the language does not have has no name
        ("9/0", "", Edit::Find, " 1 1"),
    ] {
        let found = answer(rt.alloc(), old, steps, edit)?;
        assert_eq!(rt; found.as_str(), expected);
    }
    Ok(())
}

#[test]
fn lists(rt: HostRuntime) -> Result<(), Fail> {
    for (old, edit, expected) in [
        (PAIR, Edit::Find, "[num(1),?Exp|...] 3 2"),
        (
            PAIR,
            Edit::Insert(1, "1/1 #2"),
            "[num(1),num(2),?Exp|...] 4 2",
        ),
        (PAIR, Edit::Finish, "[num(1),?Exp] 3 2"),
        ("[2 1/1 #1 ?0", Edit::Remove(1), "[num(1)] 2 2"),
        (
            PAIR,
            Edit::Insert(2, "1/1 #3"),
            "[num(1),?Exp,num(3)|...] 4 2",
        ),
        (
            PAIR,
            Edit::Insert(3, "1/1 #3"),
            "the list has no such place",
        ),
        (PAIR, Edit::Remove(2), "the list has no such place"),
        // lists without elements
        ("[0..", Edit::Find, "[|...] 1 1"),
        ("[0..", Edit::Finish, "[] 1 1"),
    ] {
        let found = answer(rt.alloc(), old, "", edit)?;
        assert_eq!(rt; found.as_str(), expected);
    }
    Ok(())
}
