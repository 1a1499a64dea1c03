//! Two spaces of names, and more pairs of rows than are looked at.
use super::says;
use std::alloc::{AllocError, Global};
use std::test::Fail;

/// A language with values and labels.
const SPACES: &str =
    "psg 2\nspace val : Ty\nspace lab : Unit\nsort Unit = ok\nsort Ty = int bool\nphylum Exp : Ty\n\
    phylum Item : Unit\nlist Items : Unit of Item \";\" lines unfinished\nop blk : Item scope = \"{\" Items \"}\"\n\
    row ok : ok\nop let : Item = \"let\" declares@val \"=\" Exp\nrow ok : ?T ?T\nop mark : Item = \"mark\" declares@lab\n\
    row ok : ok\nop jump : Item = \"jump\" refers@lab\nrow ok : ok\nop ref : Exp = refers\nrow ?T : ?T\n\
    op one : Exp = \"one\"\nrow int\nop yes : Exp = \"yes\"\nrow bool\nnil Items ok\ncell Items ok : ok ok\n\
    hole Exp ?T by ref($a)\nhole Item ok by mark($a)\nhole Items ok by []\ndeclare@val Items int : ok by let($it,one)\n\
    declare@val Items bool : ok by let($it,yes)\ndeclare@lab Items ok : ok by mark($it)\n";

/// Forty values.
const VALUES: &str = "ca cb cc cd ce cf cg ch ci cj ck cl cm cn co cp cq cr cs ct \
    da db dc dd de df dg dh di dj dk dl dm dn do dp dq dr ds dt";

/// Adds a line for each of the values.
fn add_lines(alloc: Global, text: &mut String, front: &str, back: &str) -> Result<(), AllocError> {
    for value in VALUES.split(' ') {
        text.push_str(format!(in alloc; "{front} {value}{back}\n")?.as_str())?;
    }
    Ok(())
}

/// Returns a language in which `e` has any of the values, `n` none of them, and `t` wants the same first and third, and
/// the same second and fourth ones.
fn many_rows(alloc: Global) -> Result<String, AllocError> {
    let mut text = String::from_str(alloc, "psg 1\nsort Unit = ok\nsort Ty = none ")?;
    text.push_str(VALUES)?;
    text.push_str("\nphylum E : Ty\nphylum P : Unit\nop e : E = \"e\"\n")?;
    add_lines(alloc, &mut text, "row", "")?;
    text.push_str(
        "op n : E = \"n\"\nrow none\nop t : P = \"t\" E \",\" E \",\" E \",\" E\nrow ok : ?A ?B ?A ?B\n",
    )?;
    text.push_str("op nop : P = \"nop\"\nrow ok\n")?;
    add_lines(alloc, &mut text, "hole E", " by e")?;
    text.push_str("hole E none by n\nhole P ok by nop\n")?;
    Ok(text)
}

#[test]
fn spaces(rt: HostRuntime) -> Result<(), Fail> {
    let values = "new Items\nover / { let x = one ; let x = yes }\n";
    says(&rt, rt.alloc(), SPACES, values, "twice /0/0 0 x\nchecked\n")?;
    let labels = "new Items\nover / mark y ; let y = one ; mark y\n";
    says(&rt, rt.alloc(), SPACES, labels, "twice / 1 y\nchecked\n")?;
    says(
        &rt,
        rt.alloc(),
        SPACES,
        "new Items\nover / mark y ; let y = one\n",
        "ok\n",
    )?;
    Ok(())
}

/// The steps of `t e , e , e , n` are made of 40, 1,600, 64,000 and 40 pairs of rows.
#[test]
fn too_many_pairs(rt: HostRuntime) -> Result<(), Fail> {
    let definition = many_rows(rt.alloc())?;
    says(
        &rt,
        rt.alloc(),
        definition.as_str(),
        "new P\nover / t e , e , e , n\n",
        "long\n",
    )?;
    says(
        &rt,
        rt.alloc(),
        definition.as_str(),
        "new P\nover / t e , e , e , e\n",
        "ok\n",
    )?;
    Ok(())
}
