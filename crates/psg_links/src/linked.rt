//! What is said of the name at a byte.
ghost use Rattle.std.specs.Prelude.{◌≡◌, ◌++◌, [], IfOk, MatchOption, None, OnOk};
ghost use Rattle.std.specs.Prelude.{Some, cond, false, option_to_list, true};
ghost use Rattle.psg_ranges.specs.Forests.{Forest, ranges_in};
ghost use Rattle.psg_links.specs.Spots as spots;
ghost use Rattle.psg_links.specs.Spots.{IsCovering, IsLinkedAt, declared_spot, link_spot};

use crate::link::Link;
use crate::page::Page;
use crate::spot::{Sheet, Spot, covers, spot_of};
use psg_uses::names::Written;
use std::alloc::{AllocError, Global};

/// A name of a text, with its declaration and the names that are together with it.
#[derive(Drop)]
pub struct Linked {
    /// Where the name is.
    pub own: Spot,
    /// Where the declaration is that it is linked to; there is none where it is linked to the outside.
    pub declaration: Option<Spot>,
    /// Where all names are that are together with it, it among them, in the order of the text.
    pub together: Vec<Spot>,
}

/// Returns the tokens of the page with the ranges of its nodes.
fn sheet_of(page: &Page) -> Sheet<'_>
    ensures tokens { result.tokens.now ≡ page.now.tokens.items }
    ensures ranges { result.ranges.now ≡ page.now.ranges }
{
    Sheet {
        tokens: page.tokens.as_slice(),
        ranges: &page.ranges,
    }
}

/// Returns where the name of the link is.
fn spot_of_link(sheet: Sheet<'_>, link: &Link) -> Option<Spot>
    ensures { (f : Forest) → ranges_in f ≡ sheet.entry.ranges.now.nodes
        → result ≡ link_spot sheet.entry.tokens.now f link.now }
{
    spot_of(sheet, link.declares, &link.name)
}

/// Returns where the declaration is, if there is one.
fn spot_of_declared(sheet: Sheet<'_>, declaration: &Option<Written>) -> Option<Spot>
    ensures { (f : Forest) → ranges_in f ≡ sheet.entry.ranges.now.nodes
        → result ≡ declared_spot sheet.entry.tokens.now f declaration.now }
{
    match declaration {
        Some(name) => spot_of(sheet, true, name),
        None => None,
    }
}

/// Returns the spot, if it covers the byte.
fn covering(byte: usize, spot: Option<Spot>) -> Option<Spot>
    ensures { MatchOption result (spots.covers byte spot ≡ false)
        (λ s. (spots.covers byte spot ≡ true) × (spot ≡ Some s)) }
{
    let so = covers(byte, &spot);
    if so { spot } else { None }
}

/// Returns the first link of a name that covers the byte, and where the name is, if there is one. Two names do not
/// touch.
fn first_covering<'a>(sheet: Sheet<'_>, links: &'a [Link], byte: usize) -> Option<(&'a Link, Spot)>
    ensures { (f : Forest) → ranges_in f ≡ sheet.entry.ranges.now.nodes
        → MatchOption result (spots.link_at sheet.entry.tokens.now f byte links.now ≡ None)
        (λ found. IsCovering sheet.entry.tokens.now f byte links.now found.0.now found.1) }
{
    for place in 0..links.len() {
        let link = &links[place];
        let spot = spot_of_link(sheet, link);
        if let Some(own) = covering(byte, spot) {
            return Some((link, own));
        }
    }
    None
}

/// Adds the spot, if there is one and it is wanted.
fn push_spot(found: &mut Vec<Spot>, wanted: bool, spot: Option<Spot>) -> Result<(), AllocError>
    ensures { OnOk result (found.new.items ≡ found.old.items ++ cond wanted (option_to_list spot) []) }
{
    if !wanted {
        return Ok(());
    }
    match spot {
        Some(own) => {
            found.push(own)?;
            Ok(())
        }
        None => Ok(()),
    }
}

/// Returns where all names are that are together with the name.
fn spots_of(
    alloc: Global,
    sheet: Sheet<'_>,
    links: &[Link],
    own: &Link,
) -> Result<Vec<Spot>, AllocError>
    ensures { IfOk result (λ found. (f : Forest) → ranges_in f ≡ sheet.entry.ranges.now.nodes
        → found.items ≡ spots.spots_of sheet.entry.tokens.now f own.now links.now) }
{
    let mut found = Vec::new(alloc);
    for place in 0..links.len() {
        let link = &links[place];
        let together = own.is_together(link);
        let spot = spot_of_link(sheet, link);
        push_spot(&mut found, together, spot)?;
    }
    Ok(found)
}

impl Page {
    /// Returns the link of the name that covers the byte, at its ends too, and where the name is, if there is one. For
    /// each name it walks along its path, and over the nodes beside those on it.
    pub(crate) fn covering(&self, byte: usize) -> Option<(&Link, Spot)>
        ensures { (f : Forest) → ranges_in f ≡ self.now.ranges.nodes
            → MatchOption result (spots.link_at self.now.tokens.items f byte self.now.links.items ≡ None)
            (λ found. IsCovering self.now.tokens.items f byte self.now.links.items found.0.now found.1) }
    {
        let sheet = sheet_of(self);
        let links = self.links.as_slice();
        first_covering(sheet, links, byte)
    }

    /// Returns where all names are that are together with the name of the link, in the order of the text.
    pub(crate) fn together(&self, alloc: Global, link: &Link) -> Result<Vec<Spot>, AllocError>
        ensures { IfOk result (λ found. (f : Forest) → ranges_in f ≡ self.now.ranges.nodes
            → found.items ≡ spots.spots_of self.now.tokens.items f link.now self.now.links.items) }
    {
        let sheet = sheet_of(self);
        let links = self.links.as_slice();
        let found = spots_of(alloc, sheet, links, link)?;
        Ok(found)
    }

    /// Returns where the name at the byte is, where its declaration is, and where the names are that are together with
    /// it. There is nothing where no name covers the byte. It fails where memory runs out. For each name it walks along
    /// its path, and over the nodes beside those on it.
    pub fn link_at(&self, alloc: Global, byte: usize) -> Result<Option<Linked>, AllocError>
        ensures { IfOk result (λ found. (f : Forest) → ranges_in f ≡ self.now.ranges.nodes
            → IsLinkedAt self.now.tokens.items f self.now.links.items byte found) }
    {
        let Some((link, own)) = self.covering(byte) else {
            return Ok(None);
        };
        let sheet = sheet_of(self);
        let declaration = spot_of_declared(sheet, &link.declaration);
        let together = self.together(alloc, link)?;
        Ok(Some(Linked {
            own,
            declaration,
            together,
        }))
    }
}
