//! Wrong trees of MINI and of small definitions.
use super::says;
use psg_langs::MINI;
use std::test::Fail;

/// The kind of the tree, its text, and what is said of it.
const MINI_ROWS: &[(&str, &str, &str)] = &[
    (
        "Exp",
        "true + 1",
        "culprit / step 1\npair 0 0 clash int = bool\nchecked\n",
    ),
    (
        "Exp",
        "x = x[1]",
        "culprit / step 2\npair 0 0 circle ?2 = arr(?2)\nchecked\n",
    ),
    ("Exp", "1", "ok\n"),
    (
        "Stat",
        "begin var x : int ; var x : int do end",
        "twice /0 0 x\nchecked\n",
    ),
    (
        "Exp",
        "1 & true",
        "culprit / step 1\npair 0 0 clash arr(?1) = int\npair 1 0 clash bool = int\nchecked\n",
    ),
    (
        "Exp",
        "1 + true",
        "culprit / step 2\npair 0 0 clash int = bool\nchecked\n",
    ),
    (
        "Stats",
        "x := 1 ; x := true",
        "culprit / cell 0 step 2\npair 0 0 clash int = bool\nchecked\n",
    ),
    (
        "Exp",
        "(true + 1) = (2 & 3)",
        "culprit /0 step 1\npair 0 0 clash int = bool\nchecked\n",
    ),
    (
        "Stat",
        "begin var x : int do x := true end",
        "culprit / step 2\npair 0 0 clash int = bool\nchecked\n",
    ),
    (
        "Stat",
        "begin var x : int do begin ... do x := true end end",
        "ok\n",
    ),
    (
        "Stat",
        "x := x[1]",
        "culprit / step 1\npair 0 0 circle ?2 = arr(?2)\nchecked\n",
    ),
    (
        "Stat",
        "begin type t = array t do end",
        "culprit /0/0 step 1\npair 0 0 circle ?2 = arr(?2)\nchecked\n",
    ),
    (
        "Exp",
        "x[x]",
        "culprit / step 2\npair 0 0 clash arr(?1) = int\nchecked\n",
    ),
    (
        "Stat",
        "begin var y : int ; var x : int ; var y : int ; var x : int do x := true end",
        "twice /0 0 x\nchecked\n",
    ),
];

#[test]
fn mini(rt: HostRuntime) -> Result<(), Fail> {
    for row in MINI_ROWS {
        let script = format!(in rt.alloc(); "new {}\nover / {}\n", row.0, row.1)?;
        says(&rt, rt.alloc(), MINI, script.as_str(), row.2)?;
    }
    Ok(())
}

#[test]
fn scripts(rt: HostRuntime) -> Result<(), Fail> {
    says(&rt, rt.alloc(), MINI, "", "none\n")?;
    says(&rt, rt.alloc(), MINI, "over / 1\n", "none\n")?;
    let undone = "new Exp\nover / true + 1\nover / 1 & 2\nundo\n";
    let first = "culprit / step 1\npair 0 0 clash int = bool\nchecked\n";
    says(&rt, rt.alloc(), MINI, undone, first)?;
    Ok(())
}

/// Two name positions of one operator, with two rows that ask for two values of them.
const SWAP: &str = "psg 2\nspace val : Ty\nsort Unit = ok\nsort Ty = int bool\nphylum S : Unit\n\
    op swap : S = refers@val \"<>\" refers@val\nrow ok : int bool\nrow ok : bool int\nop nop : S = \"nop\"\nrow ok\n\
    hole S ok by nop\n";

/// A list without rows for cells.
const BARE: &str = "psg 2\nsort Unit = ok\nsort Ty = int bool\nphylum S : Ty\nphylum B : Unit\n\
    list Ss : Ty of S \",\" inline fixed\nlist Ts : Ty of S \";\" inline fixed\nop a : S = \"a\"\nrow int\n\
    op b : S = \"b\"\nrow bool\nop blk : B = \"{\" Ss \"}\"\nrow ok : ?T\nop bla : B = \"[\" Ts \"]\"\nrow ok : int\n\
    op stop : B = \"stop\"\nrow ok\nnil Ss int\nnil Ts int\nnil Ts bool\ncell Ts ?T : ?T ?T\nhole S int by a\n\
    hole S bool by b\nhole B ok by stop\nhole Ss int by []\nhole Ts int by []\nhole Ts bool by []\n";

/// An operator without rows.
const NO_ROWS: &str =
    "psg 1\nsort S = s\nphylum S : S\nop a : S = \"a\"\nrow s\nop b : S = \"b\"\nhole S s by a\n";

#[test]
fn small_definitions(rt: HostRuntime) -> Result<(), Fail> {
    let script = "new S\nover / x <> x\n";
    let both = "culprit / step 0\nrow 0 clash int = bool\nrow 1 clash bool = int\nchecked\n";
    says(&rt, rt.alloc(), SWAP, script, both)?;
    let cells = "new B\nover / { a , b }\n";
    says(
        &rt,
        rt.alloc(),
        BARE,
        cells,
        "culprit /0 cell 1 step 0\nchecked\n",
    )?;
    says(
        &rt,
        rt.alloc(),
        NO_ROWS,
        "new S\nover / b\n",
        "culprit / step 0\nchecked\n",
    )?;
    Ok(())
}
