//! Two stores that take the same calls: their tickets and views agree.
ghost use Rattle.std.specs.Prelude.{◌≡◌, IsTrue};
ghost use Rattle.nw_codec.specs.declared.block.Block.{Block};
ghost use Rattle.nw_model.specs.View.{HasBlock};
ghost use Rattle.nw_store.specs.Journal.{origin_of};
ghost use Rattle.nw_store.specs.Lock.{parts_of_a_ledger};

use super::asking::Ask;
use super::chains::{Link, link_over};
use super::late::{CERTIFIED, STORED};
use super::scripts::{Row, play_script};
use super::tasks::Crew;
use super::*;
use nw_causal::agree;
use nw_store::{Agreement, NoMemory, Opening, View};
use samples::four;
use std::marker::Brand;

/// Session 0 writes three blocks of round 0 and one with them as parents, certifies all four, and opens a causal read of the last one.
const RUN: [Row; 9] = [
    Row(0, 0, Ask::Write, STORED),
    Row(0, 1, Ask::Write, STORED),
    Row(0, 2, Ask::Write, STORED),
    Row(0, 3, Ask::Write, STORED),
    Row(0, 0, Ask::Certify, CERTIFIED),
    Row(0, 1, Ask::Certify, CERTIFIED),
    Row(0, 2, Ask::Certify, CERTIFIED),
    Row(0, 3, Ask::Certify, CERTIFIED),
    Row(0, 3, Ask::Open, "Ready"),
];

/// The four blocks of `RUN`, each with a certificate of members 0, 1 and 2.
fn links_of(alloc: Global, under: &Shared<Committee>) -> Result<Vec<Link>, Fail> {
    let mut links = Vec::new(alloc);
    let mut parents = Vec::new(alloc);
    for author in 0..3 {
        let link = link_over(alloc, under, author, 0, &[])?;
        parents.push(link.block.digest())?;
        links.push(link)?;
    }
    links.push(link_over(alloc, under, 0, 1, &parents)?)?;
    Ok(links)
}

/// The ticket that a new session of the store gets from the rows of `RUN`.
fn opened_of<L: Home, R: Wait>(
    rt: &R,
    alloc: Global,
    store: &Store<DemoScheme, L>,
    crew: &Crew,
) -> Result<Ticket<DemoScheme>, Fail> {
    let mut sessions = vec![in alloc; store.session(rt, alloc)?]?;
    let opened = play_script(rt, alloc, store, sessions.as_mut_slice(), crew, &RUN);
    drop(sessions);
    Ok(opened?.ok_or("a ticket is opened")?)
}

/// The ticket that a new session of a new store over the book gets from the rows of `RUN`.
fn opened_in<L: Home, R: Wait>(
    rt: &R,
    alloc: Global,
    opening: Opening<DemoScheme>,
    book: Book<DemoScheme>,
    crew: &Crew,
) -> Result<Ticket<DemoScheme>, Fail>
    requires log { opening.log ≡ L.log }
    requires ledger { (opening.ledger ≡ L.name) × (L.parts ≡ parts_of_a_ledger) }
    requires origin { origin_of book ≡ L.origin }
{
    match Store::<DemoScheme, L>::over(opening, book) {
        Ok(store) => {
            let opened = opened_of(rt, alloc, &store, crew);
            drop(store);
            opened
        }
        Err(book) => {
            drop(book);
            Err(Fail::from("the book has events"))
        }
    }
}

/// The ticket that a new session of a new store with this committee gets from the rows of `RUN`.
fn opened<R: Wait>(
    rt: &R,
    alloc: Global,
    under: &Shared<Committee>,
    crew: &Crew,
) -> Result<Ticket<DemoScheme>, Fail> {
    let opening = Opening::new(alloc)?;
    let book = Book::new(alloc, under.try_clone()?, LIMITS)?;
    opened_in::<Brand, R>(rt, alloc, opening, book, crew)
}

/// Whether the view has a block under the digest, at or above the view's floor.
fn is_there(view: &View, digest: Digest) -> bool
    ensures { IsTrue result → (b : Block) × HasBlock view.now.frozen digest b }
{
    match view.get(&digest) {
        Some(block) => view.floor() <= block.get().round,
        None => false,
    }
}

/// Whether the views of both tickets agree for the digest of the first.
fn views_agree(
    alloc: Global,
    one: &Ticket<DemoScheme>,
    other: &Ticket<DemoScheme>,
) -> Result<bool, NoMemory> {
    let (one, other, digest) = (one.view(), other.view(), one.digest());
    if one.floor() == other.floor() && is_there(one, digest) && is_there(other, digest) {
        Ok(matches!(agree(alloc, one, other, digest)?, Agreement::Same))
    } else {
        Ok(false)
    }
}

/// Whether both tickets are for one digest and agree.
fn tickets_agree(
    alloc: Global,
    one: &Ticket<DemoScheme>,
    other: &Ticket<DemoScheme>,
) -> Result<bool, NoMemory> {
    if one.digest() == other.digest() && one.view().floor() == other.view().floor() {
        Ok(matches!(one.agree(alloc, other)?, Agreement::Same))
    } else {
        Ok(false)
    }
}

/// Whether the views of two stores with this committee agree, and whether the tickets do.
fn both_agree<R: Wait>(
    rt: &R,
    alloc: Global,
    under: &Shared<Committee>,
) -> Result<[bool; 2], Fail> {
    let crew = Crew::new(links_of(alloc, under)?, Vec::new(alloc), LIMITS);
    let one = opened(rt, alloc, under, &crew)?;
    let other = opened(rt, alloc, under, &crew)?;
    let views = views_agree(alloc, &one, &other);
    let tickets = tickets_agree(alloc, &one, &other);
    drop(one);
    drop(other);
    drop(crew);
    Ok([views?, tickets?])
}

#[test]
fn two_stores_agree(rt: HostRuntime) -> Result<(), Fail> {
    for is_weighted in [false, true] {
        let under = four(rt.alloc(), is_weighted)?;
        let agree = both_agree(&rt, rt.alloc(), &under);
        drop(under);
        assert_eq!(rt; agree?, [true; 2]);
    }
    Ok(())
}
