//! One climb for all names that an operator is tried with, as long as they do not differ.
ghost use Rattle.std.specs.Prelude.{◌≡◌, ◌+◌, ◌*◌, ◌≤◌, ◌<◌, ◌||◌, ◌∷◌, ◌++◌, [], ℕ, true, false, List};
ghost use Rattle.std.specs.Prelude.{Option, Some, length, slice_get, replicate, IfOk, IfSome};
ghost use Rattle.std.specs.List.{AllByRecursion};
ghost use Rattle.psg_terms.specs.Names.{is_among};
ghost use Rattle.psg_terms.specs.Relations.{IsIn};
ghost use Rattle.psg_grammar.specs.declared.types.Definition.{Definition as Language};
ghost use Rattle.psg_grammar.specs.declared.types.Kind.{Kind as PlainKind};
ghost use Rattle.psg_grammar.specs.Sound.{IsSound};
ghost use Rattle.psg_grammar.specs.declared.types.Kind.TheVariants.{List as OfList};
ghost use Rattle.psg_eval.specs.declared.frame.Frame.TheVariants.{Elem as InList};
ghost use Rattle.psg_eval.specs.declared.summary.SummaryParts.{SummaryParts};
ghost use Rattle.psg_eval.specs.Frames.{CanClimb, rungs, rungs_in};
ghost use Rattle.psg_eval.specs.Starts.{AreTables};
ghost use Rattle.psg_eval.specs.Summaries.{IsSummary};
ghost use Rattle.psg_menu.specs.Sharing.{AreApart, CanRaise, CanRise, IsLevel, IsLevelAnswer, IsMove};
ghost use Rattle.psg_menu.specs.Sharing.{IsPut, IsRaised, IsRaisedFrom, IsUsual, IsWithin};
ghost use Rattle.psg_menu.specs.Sharing.{Reaches, Rise, TakesRise, has_key, meets, rise_of};
ghost use Rattle.psg_menu.specs.Sharing.{rises_in, rises_of, some_has_key};

use crate::entries::{Entries, Entry, Moves};
use psg_eval::climbing::raised_operator;
use psg_eval::renaming::renamed;
use psg_eval::{EvalFault, FocusFault, Frame, Summary, Tables, asked};
use psg_grammar::Definition;
use psg_scope::Header;
use psg_terms::{Steps, Txt};
use std::alloc::{AllocError, Global};
use std::sync::ledger::Ledger;

/// One evaluation on the way up.
#[derive(Clone, Copy)]
enum Rung<'a> {
    /// Of an operator, whose child of the number `hot` is known.
    Node {
        op: u32,
        names: &'a [Txt],
        children: &'a [Summary],
        hot: u32,
    },
    /// Of a list, whose first element is known.
    First {
        list: u32,
        rest: &'a Summary,
    },
    /// Of a list, whose rest is known.
    Before {
        list: u32,
        element: &'a Summary,
    },
}

/// Says whether a key of the header has the name.
fn has_key(header: &Header, name: &Txt) -> bool
    ensures { result ≡ has_key header.now name.now }
{
    let names = header.names.as_slice();
    for place in 0..names.len() {
        let key = &names[place];
        if key.name.same(name) {
            return true;
        }
    }
    false
}

/// Says whether one of the names is this one.
fn has_name(names: &[Txt], name: &Txt) -> bool
    ensures { result ≡ is_among names.now name.now }
{
    for place in 0..names.len() {
        let other = &names[place];
        if other.same(name) {
            return true;
        }
    }
    false
}

/// Says whether a key of one of the summaries has the name.
fn some_has_key(summaries: &[Summary], name: &Txt) -> bool
    ensures { result ≡ some_has_key summaries.now name.now }
{
    for place in 0..summaries.len() {
        let summary = &summaries[place];
        let header = summary.header();
        if has_key(header, name) {
            return true;
        }
    }
    false
}

/// Says whether one of the two holds.
fn is_either(one: bool, other: bool) -> bool
    ensures { result ≡ (one || other) }
{
    one || other
}

/// Says whether the name is one of the node's own, or that of a key of its children. The summary of the child on the
/// way is not used, and may have any keys.
fn meets(rung: Rung, name: &Txt) -> bool
    ensures { result ≡ meets (rise_of rung.entry) name.now }
{
    match rung {
        Rung::Node {
            names,
            children,
            ..
        } => {
            let own = has_name(names, name);
            let beside = some_has_key(children, name);
            is_either(own, beside)
        }
        Rung::First { rest, .. } => {
            let header = rest.header();
            has_key(header, name)
        }
        Rung::Before { element, .. } => {
            let header = element.header();
            has_key(header, name)
        }
    }
}

/// Makes the summary of the rung's node from that of its child.
fn raise<L: Ledger>(
    alloc: Global,
    definition: &Definition,
    tables: &Tables,
    rung: Rung,
    own: &Summary,
    steps: &mut Steps<L>,
) -> Result<Summary, EvalFault>
    requires sound { IsSound definition.now }
    requires tables { AreTables definition.now tables.now }
    requires takes { (above : PlainKind) × TakesRise definition.now (rise_of rung) own.now above }
    ensures answer { IsRaised definition.now (rise_of rung.entry) own.now result }
    ensures summary { IfOk result (IsSummary definition.now) }
    ensures kind { IfOk result (λ s. (above : PlainKind) → TakesRise definition.now (rise_of rung.entry) own.now above
        → s.kind ≡ above) }
    ensures seen { IfOk result (λ s. s.seen ≡ own.now.seen) }
    ensures ticks { steps.new ≤ steps.old + 1 }
{
    match rung {
        Rung::Node {
            op,
            names,
            children,
            hot,
        } => raised_operator(alloc, definition, op, names, children, hot, own, steps),
        Rung::First { list, rest } => tables.eval_cell(alloc, definition, list, own, rest, steps),
        Rung::Before { list, element } => tables.eval_cell(
            alloc, definition, list, element, own, steps,
        ),
    }
}

/// What does not change from one candidate to the next.
#[derive(Clone, Copy)]
struct Way<'a> {
    definition: &'a Definition,
    tables: &'a Tables,
    /// The proxy, a name for all candidates.
    star: &'a Txt,
    rung: Rung<'a>,
    /// Whether the rung's node has that name already.
    met: bool,
}

/// Says whether the candidate with the entry goes on under its own name.
fn parts(way: Way, name: &Txt, old: &Entry) -> bool
    requires met { way.met ≡ meets (rise_of way.rung) way.star.now }
    ensures parts { result ≡ true → old.now.shared ≡ true }
    ensures shares { result ≡ false → old.now.shared ≡ true
        → (meets (rise_of way.entry.rung) name.now ≡ false)
        × (meets (rise_of way.entry.rung) way.entry.star.now ≡ false) }
{
    if !old.shared {
        return false;
    }
    if way.met {
        return true;
    }
    meets(way.rung, name)
}

/// Returns the place above the rung of the summary that is made of this one.
fn raised_entry<L: Ledger>(
    alloc: Global,
    way: Way,
    own: &Summary,
    shared: bool,
    above: &mut Entries,
    steps: &mut Steps<L>,
) -> Result<usize, FocusFault>
    requires sound { IsSound way.definition.now }
    requires tables { AreTables way.definition.now way.tables.now }
    requires usual { (kind up : PlainKind) × CanRise way.definition.now (rise_of way.rung) kind up
        × IsUsual way.definition.now kind own.now }
    ensures raised { IsPut way.entry.definition.now (rise_of way.entry.rung) own.now shared above.new.all.items result }
    ensures others { IfOk result (λ _. (k : ℕ) (e : Entry) → slice_get above.old.all.items k ≡ Some e
        → slice_get above.new.all.items k ≡ Some e) }
    ensures usual { (kind up : PlainKind) → CanRise way.entry.definition.now (rise_of way.entry.rung) kind up
        → IsUsual way.entry.definition.now kind own.now
        → AllByRecursion (λ (e : Entry). IsUsual way.entry.definition.now up e.own) above.old.all.items
        → IfOk result (λ _. AllByRecursion (λ (e : Entry). IsUsual way.entry.definition.now up e.own)
        above.new.all.items) }
    ensures ticks { steps.new ≤ steps.old + 1 }
{
    let made = raise(alloc, way.definition, way.tables, way.rung, own, steps);
    let next = asked(made)?;
    let to = above.put(alloc, next, shared)?;
    Ok(to)
}

/// Returns the place above the rung of the summary that a candidate has at this place below it.
fn raised_from<L: Ledger>(
    alloc: Global,
    way: Way,
    name: &Txt,
    below: &[Entry],
    place: usize,
    above: &mut Entries,
    moves: &mut Moves,
    steps: &mut Steps<L>,
) -> Result<usize, FocusFault>
    requires sound { IsSound way.definition.now }
    requires tables { AreTables way.definition.now way.tables.now }
    requires place { place < length below.now }
    requires usual { (kind up : PlainKind) × CanRise way.definition.now (rise_of way.rung) kind up
        × AllByRecursion (λ (e : Entry). IsUsual way.definition.now kind e.own) below.now }
    requires met { way.met ≡ meets (rise_of way.rung) way.star.now }
    requires moves { AllByRecursion
        (IsMove way.definition.now (rise_of way.rung) below.now above.old.all.items) moves.old.all.items }
    ensures raised { (old : Entry) → slice_get below.now place ≡ Some old
        → IsRaisedFrom way.entry.definition.now
        (rise_of way.entry.rung) way.entry.star.now name.now old above.new.all.items result }
    ensures others { IfOk result (λ _. (k : ℕ) (e : Entry) → slice_get above.old.all.items k ≡ Some e
        → slice_get above.new.all.items k ≡ Some e) }
    ensures usual { (kind up : PlainKind) → CanRise way.entry.definition.now (rise_of way.entry.rung) kind up
        → AllByRecursion (λ (e : Entry). IsUsual way.entry.definition.now kind e.own) below.now
        → AllByRecursion (λ (e : Entry). IsUsual way.entry.definition.now up e.own) above.old.all.items
        → IfOk result (λ _. AllByRecursion (λ (e : Entry). IsUsual way.entry.definition.now up e.own)
        above.new.all.items) }
    ensures moves { IfOk result (λ _. AllByRecursion
        (IsMove way.entry.definition.now (rise_of way.entry.rung) below.now above.new.all.items) moves.new.all.items) }
    ensures ticks { steps.new ≤ steps.old + 1 }
{
    let old = &below[place];
    if parts(way, name, old) {
        // This cannot be: each key of a shared summary is the star or a name that is met on the way, and a candidate
        // that was met there went on under its own name before. It is not proved.
        if has_key(old.own.header(), name) {
            return Err(FocusFault::Memory);
        }
        let own = renamed(alloc, way.definition, &old.own, way.star, name)?;
        let apart = raised_entry(alloc, way, &own, false, above, steps)?;
        return Ok(apart);
    }
    if let Some(before) = moves.found(place) {
        return Ok(before);
    }
    let to = raised_entry(alloc, way, &old.own, old.shared, above, steps)?;
    moves.add(place, to)?;
    Ok(to)
}

/// The summaries at a node of the way, and for each candidate the place of its own.
#[derive(Drop)]
pub(crate) struct Level {
    pub(crate) entries: Vec<Entry>,
    pub(crate) places: Vec<usize>,
}

/// Makes the level above the rung.
fn next_level<L: Ledger>(
    alloc: Global,
    way: Way,
    candidates: &[Txt],
    level: &Level,
    steps: &mut Steps<L>,
) -> Result<Level, FocusFault>
    requires sound { IsSound way.definition.now }
    requires tables { AreTables way.definition.now way.tables.now }
    requires met { way.met ≡ meets (rise_of way.rung) way.star.now }
    requires level { (o : ℕ) × (below : List SummaryParts) × (done : List Rise) × (kind up : PlainKind)
        × AreApart below way.star.now candidates.now
        × CanRise way.definition.now (rise_of way.rung) kind up
        × IsLevel way.definition.now o below way.star.now done kind candidates.now level.now }
    ensures level { (o : ℕ) (below : List SummaryParts) (done : List Rise) (kind up : PlainKind)
        → AreApart below way.entry.star.now candidates.now
        → CanRise way.entry.definition.now (rise_of way.entry.rung) kind up
        → IsLevel way.entry.definition.now o below way.entry.star.now done kind candidates.now level.now
        → IsLevelAnswer way.entry.definition.now o below way.entry.star.now candidates.now
        (rise_of way.entry.rung ∷ done) up result }
    ensures ticks { steps.new ≤ steps.old + length candidates.now }
{
    let below = level.entries.as_slice();
    let old = level.places.as_slice();
    let mut entries = Entries::new(alloc);
    let mut moves = Moves::new(alloc, below.len())?;
    let mut places = Vec::with_capacity(alloc, candidates.len())?;
    for i in 0..candidates.len() {
        let name = &candidates[i];
        let place = old[i];
        let to = raised_from(
            alloc,
            way,
            name,
            below,
            place,
            &mut entries,
            &mut moves,
            steps,
        )?;
        places.push(to)?;
    }
    Ok(Level {
        entries: entries.all,
        places,
    })
}

/// Makes the level above one rung.
fn over_rung<L: Ledger>(
    alloc: Global,
    definition: &Definition,
    tables: &Tables,
    star: &Txt,
    candidates: &[Txt],
    rung: Rung,
    level: &Level,
    steps: &mut Steps<L>,
) -> Result<Level, FocusFault>
    requires sound { IsSound definition.now }
    requires tables { AreTables definition.now tables.now }
    requires level { (o : ℕ) × (below : List SummaryParts) × (done : List Rise) × (kind up : PlainKind)
        × AreApart below star.now candidates.now
        × CanRise definition.now (rise_of rung) kind up
        × IsLevel definition.now o below star.now done kind candidates.now level.now }
    ensures level { (o : ℕ) (below : List SummaryParts) (done : List Rise) (kind up : PlainKind)
        → AreApart below star.now candidates.now
        → CanRise definition.now (rise_of rung.entry) kind up
        → IsLevel definition.now o below star.now done kind candidates.now level.now
        → IsLevelAnswer definition.now o below star.now candidates.now (rise_of rung.entry ∷ done) up result }
    ensures ticks { steps.new ≤ steps.old + length candidates.now }
{
    let met = meets(rung, star);
    let way = Way {
        definition,
        tables,
        star,
        rung,
        met,
    };
    next_level(alloc, way, candidates, level, steps)
}

/// Makes the level of a list from that of an element.
fn over_list<L: Ledger>(
    alloc: Global,
    definition: &Definition,
    tables: &Tables,
    star: &Txt,
    candidates: &[Txt],
    list: u32,
    before: &[Summary],
    rest: &Summary,
    level: &Level,
    steps: &mut Steps<L>,
) -> Result<Level, FocusFault>
    requires sound { IsSound definition.now }
    requires tables { AreTables definition.now tables.now }
    requires level { (o : ℕ) × (below : List SummaryParts) × (done : List Rise) × (kind : PlainKind)
        × AreApart below star.now candidates.now
        × CanRaise definition.now (InList list before.now rest.now) kind (OfList list)
        × IsLevel definition.now o below star.now done kind candidates.now level.now }
    ensures level { (o : ℕ) (below : List SummaryParts) (done : List Rise) (kind : PlainKind)
        → AreApart below star.now candidates.now
        → CanRaise definition.now (InList list before.now rest.now) kind (OfList list)
        → IsLevel definition.now o below star.now done kind candidates.now level.now
        → IsLevelAnswer definition.now o below star.now candidates.now
        (rises_in (InList list before.now rest.now) ++ done) (OfList list) result }
    ensures ticks { steps.new ≤ steps.old + length candidates.now * (length before.now + 1) }
{
    let rung = Rung::First { list, rest };
    let first = over_rung(
        alloc, definition, tables, star, candidates, rung, level, steps,
    )?;
    let mut whole = first;
    let mut left = before;
    while let Some((element, front)) = left.split_last() {
        let rung = Rung::Before { list, element };
        let next = over_rung(
            alloc, definition, tables, star, candidates, rung, &whole, steps,
        )?;
        whole = next;
        left = front;
    }
    Ok(whole)
}

/// Makes the level above one frame.
fn over_frame<L: Ledger>(
    alloc: Global,
    definition: &Definition,
    tables: &Tables,
    star: &Txt,
    candidates: &[Txt],
    frame: &Frame,
    level: &Level,
    steps: &mut Steps<L>,
) -> Result<Level, FocusFault>
    requires sound { IsSound definition.now }
    requires tables { AreTables definition.now tables.now }
    requires level { (o : ℕ) × (below : List SummaryParts) × (done : List Rise) × (kind up : PlainKind)
        × AreApart below star.now candidates.now
        × CanRaise definition.now frame.now kind up
        × IsLevel definition.now o below star.now done kind candidates.now level.now }
    ensures level { (o : ℕ) (below : List SummaryParts) (done : List Rise) (kind up : PlainKind)
        → AreApart below star.now candidates.now
        → CanRaise definition.now frame.now kind up
        → IsLevel definition.now o below star.now done kind candidates.now level.now
        → IsLevelAnswer definition.now o below star.now candidates.now (rises_in frame.now ++ done) up result }
    ensures ticks { steps.new ≤ steps.old + length candidates.now * rungs_in frame.now }
{
    match frame {
        Frame::Op {
            op,
            names,
            children,
            hot,
        } => {
            let rung = Rung::Node {
                op: *op,
                names: names.as_slice(),
                children: children.as_slice(),
                hot: *hot,
            };
            over_rung(
                alloc, definition, tables, star, candidates, rung, level, steps,
            )
        }
        Frame::Elem { list, before, rest } => {
            let front = before.as_slice();
            over_list(
                alloc, definition, tables, star, candidates, *list, front, rest, level, steps,
            )
        }
    }
}

/// Makes the first level, in which all candidates share one summary.
fn first_level(alloc: Global, own: Summary, count: usize) -> Result<Level, AllocError>
    ensures entries { IfOk result (λ level. level.entries.items ≡ record { own = own; shared = true } ∷ []) }
    ensures places { IfOk result (λ level. level.places.items ≡ replicate count 0) }
{
    let mut entries = Vec::new(alloc);
    entries.push(Entry { own, shared: true })?;
    let mut places = Vec::with_capacity(alloc, count)?;
    for _ in 0..count {
        places.push(0)?;
    }
    Ok(Level { entries, places })
}

/// Returns the summaries of the whole fragment with the candidates at the place of the frames, from that of the tree
/// there under the proxy for them all. Each frame's rungs are evaluated once for all candidates that share a summary,
/// and once for each other summary.
pub(crate) fn climbed_together<L: Ledger>(
    alloc: Global,
    definition: &Definition,
    tables: &Tables,
    frames: &[Frame],
    star: &Txt,
    candidates: &[Txt],
    own: Summary,
    steps: &mut Steps<L>,
) -> Result<Level, FocusFault>
    requires sound { IsSound definition.now }
    requires tables { AreTables definition.now tables.now }
    requires own { (o : ℕ) × (below : List SummaryParts) × (kind : PlainKind) × AreApart below star.now candidates.now
        × CanClimb definition.now frames.now kind
        × IsUsual definition.now kind own × Reaches definition.now o below star.now [] own
        × IsWithin definition.now o below star.now [] }
    ensures level { (o : ℕ) (below : List SummaryParts) (kind : PlainKind) → AreApart below star.now candidates.now
        → CanClimb definition.now frames.now kind
        → IsUsual definition.now kind own → Reaches definition.now o below star.now [] own
        → IsWithin definition.now o below star.now []
        → (top : PlainKind)
        × IsLevelAnswer definition.now o below star.now candidates.now (rises_of frames.now) top result }
    ensures ticks { steps.new ≤ steps.old + length candidates.now * rungs frames.now }
{
    let first = first_level(alloc, own, candidates.len())?;
    let mut whole = first;
    let mut left = frames;
    while let Some((frame, more)) = left.split_first() {
        let next = over_frame(
            alloc, definition, tables, star, candidates, frame, &whole, steps,
        )?;
        whole = next;
        left = more;
    }
    Ok(whole)
}
