//! Which trees are of which kind.
use super::trees::{sums, tree};
use psg_grammar::Kind;
use psg_tree::well_formed;
use std::test::Fail;

#[test]
fn kinds_of_trees(rt: HostRuntime) -> Result<(), Fail> {
    let definition = sums(rt.alloc())?;
    for (text, kind, expected) in [
        // sums have two expressions
        ("0/2 1/1 #7 ?0", Kind::Phylum(0), true),
        ("0/1 ?0", Kind::Phylum(0), false),
        // numbers are no slots
        ("0/2 ?0 #7", Kind::Phylum(0), false),
        // expressions are no lists, and none of another phylum
        ("1/1 #7", Kind::Phylum(0), true),
        ("1/1 #7", Kind::Phylum(1), false),
        ("1/1 #7", Kind::List(0), false),
    ] {
        let tree = tree(rt.alloc(), text)?;
        assert!(rt; well_formed(&definition, &tree, kind) == expected, "{text}");
    }
    Ok(())
}
