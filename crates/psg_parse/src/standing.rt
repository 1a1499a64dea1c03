//! Trees that are read, kept only within the limits of depth and brackets.
//!
//! Each of the types represents a plain fragment and how deep its brackets nest. Past a limit it holds no tree, so the
//! parser goes on in constant work for each token and with no more memory than its stack takes.
ghost use Rattle.std.specs.Prelude.{◌≡◌, ◌+◌, ◌∷◌, [], ℕ, List, IfOk, max, min, suc};
ghost use Rattle.psg_grammar.specs.Fragments.{Fragment, ending, hole, operator, with_child};
ghost use Rattle.psg_class.specs.Machine.{behind_all, taken};
ghost use Rattle.psg_parse.specs.Standing.{AreElements, IsPartly, IsTree, with_some};

use psg_grammar::Item;
use psg_lexis::Token;
use psg_terms::Seq;
use psg_tree::{Part, Shape, Tree};
use std::alloc::{AllocError, Global};

/// A depth one above the limit, or any greater one.
const TOO_DEEP: u32 = 201;

/// A nesting one above the limit, or any greater one.
const TOO_NESTED: u32 = 401;

/// A finished tree.
#[derive(Drop)]
pub(crate) struct Grown {
    pub(crate) tree: Option<Tree>,
    pub(crate) depth: u32,
    pub(crate) nesting: u32,
}

/// An operator's tree, of which some parts were read.
#[derive(Drop)]
pub(crate) struct Built {
    pub(crate) op: u32,
    pub(crate) parts: Option<Seq<Part>>,
    pub(crate) depth: u32,
    pub(crate) nesting: u32,
}

/// The elements of a list that were read.
#[derive(Drop)]
pub(crate) struct Listed {
    pub(crate) elements: Option<Seq<Tree>>,
    pub(crate) depth: u32,
    pub(crate) nesting: u32,
}

impl Grown {
    /// Returns the placeholder of a phylum.
    pub(crate) fn hole(alloc: Global, phylum: u32) -> Result<Grown, AllocError>
        ensures { IfOk result (λ g. IsTree g (hole phylum) 0) }
    {
        Ok(Grown {
            tree: Some(Tree::new(alloc, Shape::Hole { phylum })?),
            depth: 1,
            nesting: 0,
        })
    }

    /// Returns the same tree in brackets.
    pub(crate) fn close(self) -> Grown
        ensures { (f : Fragment) (d : ℕ) → IsTree self f d → IsTree result f (suc d) }
    {
        let Grown {
            tree,
            depth,
            nesting,
        } = self;
        if nesting < 400 {
            return Grown {
                tree,
                depth,
                nesting: nesting + 1,
            };
        }
        Grown {
            tree: None,
            depth,
            nesting: TOO_NESTED,
        }
    }
}

impl Built {
    /// Returns the operator without parts.
    pub(crate) fn new(alloc: Global, op: u32) -> Built
        ensures { IsPartly result (operator op) 0 }
    {
        Built {
            op,
            parts: Some(Seq::of(Vec::new(alloc))),
            depth: 1,
            nesting: 0,
        }
    }

    /// Returns the tree with one more child.
    pub(crate) fn with_child(self, child: Grown) -> Result<Built, AllocError>
        ensures { IfOk result (λ b. (f t : Fragment) (d e : ℕ) → IsPartly self f d → IsTree child t e
            → IsPartly b (with_child f t) (max d e)) }
    {
        let Built {
            op,
            parts,
            depth,
            nesting,
        } = self;
        let Grown {
            tree,
            depth: below,
            nesting: inside,
        } = child;
        let depth = depth.max(deeper(below));
        let nesting = nesting.max(inside);
        let (Some(parts), Some(tree)) = (parts, tree) else {
            return Ok(Built {
                op,
                parts: None,
                depth,
                nesting,
            });
        };
        if depth == TOO_DEEP {
            return Ok(Built {
                op,
                parts: None,
                depth,
                nesting,
            });
        }
        let mut parts = parts;
        parts.push(Part::Sub(tree))?;
        Ok(Built {
            op,
            parts: Some(parts),
            depth,
            nesting,
        })
    }

    /// Returns the tree with the part that the item takes of the token.
    pub(crate) fn with_token(self, item: &Item, token: &Token) -> Result<Built, AllocError>
        ensures { IfOk result (λ b. (f : Fragment) (d : ℕ) → IsPartly self f d
            → IsPartly b (taken item.now token.now f) d) }
    {
        let Built {
            op,
            parts,
            depth,
            nesting,
        } = self;
        let Some(parts) = parts else {
            return Ok(Built {
                op,
                parts: None,
                depth,
                nesting,
            });
        };
        let Some(part) = taken_part(item, token)? else {
            return Ok(Built {
                op,
                parts: Some(parts),
                depth,
                nesting,
            });
        };
        let mut parts = parts;
        parts.push(part)?;
        Ok(Built {
            op,
            parts: Some(parts),
            depth,
            nesting,
        })
    }

    /// Returns the tree, with all its parts.
    pub(crate) fn finish(self, alloc: Global) -> Result<Grown, AllocError>
        ensures { IfOk result (λ g. (f : Fragment) (d : ℕ) → IsPartly self f d → IsTree g f d) }
    {
        let Built {
            op,
            parts,
            depth,
            nesting,
        } = self;
        let Some(parts) = parts else {
            return Ok(Grown {
                tree: None,
                depth,
                nesting,
            });
        };
        Ok(Grown {
            tree: Some(Tree::new(alloc, Shape::Op { op, parts })?),
            depth,
            nesting,
        })
    }
}

impl Listed {
    /// Returns a list without elements.
    pub(crate) fn new(alloc: Global) -> Listed
        ensures { AreElements result [] 0 }
    {
        Listed {
            elements: Some(Seq::of(Vec::new(alloc))),
            depth: 1,
            nesting: 0,
        }
    }

    /// Returns the list with one more element.
    pub(crate) fn with_element(self, element: Grown) -> Result<Listed, AllocError>
        ensures { IfOk result (λ l. (before : List Fragment) (e : Fragment) (d n : ℕ) → AreElements self before d
            → IsTree element e n → AreElements l (e ∷ before) (max d n)) }
    {
        let Listed {
            elements,
            depth,
            nesting,
        } = self;
        let Grown {
            tree,
            depth: below,
            nesting: inside,
        } = element;
        let depth = depth.max(deeper(below));
        let nesting = nesting.max(inside);
        let (Some(elements), Some(tree)) = (elements, tree) else {
            return Ok(Listed {
                elements: None,
                depth,
                nesting,
            });
        };
        if depth == TOO_DEEP {
            return Ok(Listed {
                elements: None,
                depth,
                nesting,
            });
        }
        let mut elements = elements;
        elements.push(tree)?;
        Ok(Listed {
            elements: Some(elements),
            depth,
            nesting,
        })
    }

    /// Returns the list of these elements.
    pub(crate) fn finish(
        self,
        alloc: Global,
        list: u32,
        unfinished: bool,
    ) -> Result<Grown, AllocError>
        ensures { IfOk result (λ g. (before : List Fragment) (d : ℕ) → AreElements self before d
            → IsTree g (behind_all list before (ending list unfinished)) d) }
    {
        let Listed {
            elements,
            depth,
            nesting,
        } = self;
        let Some(elements) = elements else {
            return Ok(Grown {
                tree: None,
                depth,
                nesting,
            });
        };
        Ok(Grown {
            tree: Some(Tree::new(
                alloc,
                Shape::List {
                    list,
                    elements,
                    unfinished,
                },
            )?),
            depth,
            nesting,
        })
    }
}

/// Returns the depth of a node above one of this depth.
fn deeper(depth: u32) -> u32
    ensures { result ≡ min (depth + 1) 201 }
{
    if depth < TOO_DEEP {
        depth + 1
    } else {
        TOO_DEEP
    }
}

/// Returns the part that the item takes of the token, if it takes one.
fn taken_part(item: &Item, token: &Token) -> Result<Option<Part>, AllocError>
    ensures { IfOk result (λ part. (f : Fragment) → with_some f part ≡ taken item.now token.now f) }
{
    match item {
        Item::Refers(_) | Item::Declares(_) => {
            let Token::Word(text) = token else {
                return Ok(None);
            };
            let name = text.share()?;
            Ok(Some(Part::Name(name)))
        }
        Item::Number => {
            let Token::Number(value) = token else {
                return Ok(None);
            };
            Ok(Some(Part::Number(*value)))
        }
        Item::Text => {
            let Token::Text(text) = token else {
                return Ok(None);
            };
            let text = text.share()?;
            Ok(Some(Part::Text(text)))
        }
        _ => Ok(None),
    }
}
