//! Definitions that are written and read back.
use psg_defread::{definition_text, read_definition};
use psg_langs::{CONSTS, LEVELS, MINI, TINY};
use std::alloc::{AllocError, Global};
use std::test::Fail;

/// Lines in another order, with other spaces and other names of variables.
const SPELLED: &str = "psg 1
# a language
hole Ex ?x by leaf
hole Es ?z
op leaf:Ex=\"leaf\"
row ?q
case int by [lit(\"a\\\"\\\\\\n\",340282366920938463463374607431768211455)|hole(Es,int)]
case ?w by  [leaf , hole(Ex,?v)]
list Es:Ty of Ex\",\"inline fixed
cell Es ?rest : ?first?rest

op def:Ex scope prefix 7=\"def\"declares tight Ex
row ?b:?a ?b
op lit:Ex=text number
row int
row arr(?one,arr(int,?two))
declare Es ?e:?f by def($it,hole(Ex,?f))
nil Es int
entity Ty
phylum Ex:Ty bracketed
sort Ty=int arr(Ty,Ty)
";

/// How the definition is written.
const WRITTEN: &str = "psg 1
sort Ty = int arr ( Ty , Ty )
entity Ty
phylum Ex : Ty bracketed
list Es : Ty of Ex \",\" inline fixed
op leaf : Ex = \"leaf\"
row ?1
op def : Ex scope prefix 7 = \"def\" declares tight Ex
row ?1 : ?2 ?1
op lit : Ex = text number
row int
row arr ( ?1 , arr ( int , ?2 ) )
nil Es int
cell Es ?1 : ?2 ?1
hole Ex ?1
case ?1 by leaf
hole Es ?1
case int by [ lit ( \"a\\\"\\\\\\n\" , 340282366920938463463374607431768211455 ) | hole ( Es , int ) ]
case ?1 by [ leaf , hole ( Ex , ?2 ) ]
declare Es ?1 : ?2 by def ( $it , hole ( Ex , ?2 ) )
";

/// A definition of version 2 with two spaces; the name of the first one is left out.
const SPACES: &str = "psg 2
declare@lab Is ok:ok by m($it)
op m:I=\"m\"declares@lab
row ok:ok
op r:E=refers
row ?T:?T
space val:Ty
space lab:U
sort U=ok
sort Ty=int bool
list Is:U of I\";\"lines unfinished
phylum E:Ty
phylum I:U
";

/// How it is written.
const SPACES_WRITTEN: &str = "psg 2
sort U = ok
sort Ty = int bool
space val : Ty
space lab : U
phylum E : Ty
phylum I : U
list Is : U of I \";\" lines unfinished
op m : I = \"m\" declares@lab
row ok : ok
op r : E = refers@val
row ?1 : ?1
declare@lab Is ok : ok by m ( $it )
";

/// Definitions, and how they are written.
const DEFINITIONS: &[(&str, &str)] = &[
    (SPELLED, WRITTEN),
    (WRITTEN, WRITTEN),
    ("psg 1", "psg 1\n"),
    (SPACES, SPACES_WRITTEN),
    (SPACES_WRITTEN, SPACES_WRITTEN),
    ("psg 2", "psg 2\n"),
];

/// The text of the definition that a text spells.
fn written(alloc: Global, text: &str) -> Result<String, AllocError> {
    if text.len() >= 65_536 {
        return Err(AllocError);
    }
    match read_definition(alloc, text.as_bytes()) {
        Ok(definition) => Ok(definition_text(alloc, &definition)?),
        Err(_) => Err(AllocError),
    }
}

#[test]
fn definitions_are_written(rt: HostRuntime) -> Result<(), Fail> {
    for (text, expected) in DEFINITIONS {
        let found = written(rt.alloc(), text)?;
        assert_eq!(rt; found.as_str(), *expected);
    }
    Ok(())
}

#[test]
fn languages_stay(rt: HostRuntime) -> Result<(), Fail> {
    for text in [CONSTS, LEVELS, MINI, TINY] {
        let found = written(rt.alloc(), text)?;
        let again = written(rt.alloc(), found.as_str())?;
        assert_eq!(rt; again.as_str(), found.as_str());
    }
    Ok(())
}
