//! Tickets of causal reads, and the lists of their walks.
ghost use Rattle.std.specs.Prelude.{◌≡◌, ◌∷◌, [], pos, IfOk, OnErr, true, false};
ghost use Rattle.nw_book.specs.Ticket.{IsAgreed, IsListOf, TicketView};
ghost use Rattle.nw_c.specs.Tickets.{Agrees, AreComparable, AreCompared, HasBlocks, HasNoBlockAt, HaveOneScope, IsAbout, IsBlockAt, IsWalkOf};
ghost use Rattle.nw_c.specs.Kinds.{IsUnchanged, HoldsList, HoldsTicket};
ghost use Rattle.nw_c.specs.Codes.{IsFirstUnmet};
ghost use Rattle.nw_c.specs.declared.codes.TheConstants.{ABSENT, CLOSED, DONE, NOT_COMPARABLE, NO_MEMORY, OPEN, OTHER_KIND};

use crate::codes::{ABSENT, CLOSED, DONE, NO_MEMORY, NOT_COMPARABLE, OPEN, OTHER_KIND};
use crate::content::Content;
use crate::handle::{AnswerHandle, BlockHandle, ListHandle, put};
use crate::hashed::HashedBlock;
use crate::plain::CDigest;
use nw_book::Ticket;
use nw_causal::Agreement;
use nw_digest::{NoMemory, Sequence};
use nw_ed25519::Ed25519;
use std::alloc::Global;

/// Writes the digest that the ticket is for, and the garbage round at the call that gave the ticket.
#[unsafe(no_mangle)]
pub extern "C" fn nw_ticket_scope(
    ticket: &mut AnswerHandle,
    digest: &mut CDigest,
    garbage_round: &mut u64,
) -> i32
    ensures about { result ≡ pos 0 → IsAbout ticket.old.value digest.new garbage_round.new }
    ensures same { IsUnchanged ticket.old ticket.new }
    ensures unchanged { (result ≡ pos 0 → ⊥) → (digest.new ≡ digest.old) × (garbage_round.new ≡ garbage_round.old) }
    ensures code { IsFirstUnmet
        ((CLOSED, ticket.old.held ≡ true) ∷ (OTHER_KIND, HoldsTicket ticket.old.value) ∷ [])
        (DONE ∷ []) result }
{
    if !ticket.is_open() {
        return CLOSED;
    }
    match ticket.lend() {
        Content::Ticket(ticket) => {
            *digest = CDigest::of(&ticket.digest());
            *garbage_round = ticket.view().floor().get();
            DONE
        }
        _ => OTHER_KIND,
    }
}

/// Tells what a comparison found: writes to `out` whether the lists are equal. Returns `NO_MEMORY` if it found nothing.
fn tell(found: Result<Agreement, NoMemory>, out: &mut bool) -> i32
    ensures told { IfOk found (λ agreement. (result ≡ pos 0)
        × ((one other : TicketView) → IsAgreed one other agreement → AreCompared one other out.new)) }
    ensures refused { OnErr found ((result ≡ NO_MEMORY) × (out.new ≡ out.old)) }
{
    match found {
        Ok(Agreement::Same) => {
            *out = true;
            DONE
        }
        Ok(Agreement::Collision { .. }) => {
            *out = false;
            DONE
        }
        Err(_) => NO_MEMORY,
    }
}

/// Compares the lists of both tickets. Returns `NOT_COMPARABLE` if they have different digests or garbage rounds.
fn compare(alloc: Global, one: &Ticket<Ed25519>, other: &Ticket<Ed25519>, out: &mut bool) -> i32
    ensures compared { result ≡ pos 0 → AreCompared one.now other.now out.new }
    ensures unchanged { (result ≡ pos 0 → ⊥) → out.new ≡ out.old }
    ensures code { IsFirstUnmet ((NOT_COMPARABLE, HaveOneScope one.now other.now) ∷ []) (DONE ∷ NO_MEMORY ∷ []) result }
{
    if one.digest() != other.digest() || one.view().floor() != other.view().floor() {
        return NOT_COMPARABLE;
    }
    tell(one.agree(alloc, other), out)
}

/// Compares the lists of both tickets, and writes whether they are equal. The tickets may come from two stores. If the lists differ, two
/// different blocks have the same digest. Returns `NW_NOT_COMPARABLE` if the tickets have different digests or garbage rounds.
#[unsafe(no_mangle)]
pub extern "C" fn nw_ticket_agree(
    alloc: Global,
    ticket: &mut AnswerHandle,
    other: &mut AnswerHandle,
    out: &mut bool,
) -> i32
    ensures agrees { result ≡ pos 0 → Agrees ticket.old.value other.old.value out.new }
    ensures same { IsUnchanged ticket.old ticket.new }
    ensures other { IsUnchanged other.old other.new }
    ensures unchanged { (result ≡ pos 0 → ⊥) → out.new ≡ out.old }
    ensures code { IsFirstUnmet
        ((CLOSED, (ticket.old.held ≡ true) × (other.old.held ≡ true)) ∷ (OTHER_KIND, HoldsTicket ticket.old.value × HoldsTicket other.old.value) ∷ (NOT_COMPARABLE, AreComparable ticket.old.value other.old.value) ∷ [])
        (DONE ∷ NO_MEMORY ∷ []) result }
{
    if !ticket.is_open() || !other.is_open() {
        return CLOSED;
    }
    let Content::Ticket(ticket) = ticket.lend() else {
        return OTHER_KIND;
    };
    let Content::Ticket(other) = other.lend() else {
        return OTHER_KIND;
    };
    compare(alloc, ticket, other, out)
}

/// The list of the ticket, with an owner of each block.
fn walked(alloc: Global, ticket: &Ticket<Ed25519>) -> Result<Vec<HashedBlock>, NoMemory>
    ensures { IfOk result (λ list. IsListOf ticket.now list.items) }
{
    let lent = ticket.walk_lent(alloc)?;
    let mut list = Vec::with_capacity(alloc, lent.len())?;
    for ancestor in lent {
        list.push(HashedBlock::new(*ancestor.digest, ancestor.block.try_clone()?))?;
    }
    Ok(list)
}

/// Walks the ticket and opens the list of its block and all ancestors from the garbage round on. The list is as of the call that gave the
/// ticket, and ascends by round and author. A ticket can be walked any number of times, at any time, without a lock.
#[unsafe(no_mangle)]
pub extern "C" fn nw_ticket_walk(
    alloc: Global,
    ticket: &mut AnswerHandle,
    out: &mut ListHandle,
) -> i32
    ensures list { result ≡ pos 0 → IsWalkOf ticket.old.value out.new.value }
    ensures same { IsUnchanged ticket.old ticket.new }
    ensures unchanged { (result ≡ pos 0 → ⊥) → IsUnchanged out.old out.new }
    ensures opened { result ≡ pos 0 → out.new.held ≡ true }
    ensures code { IsFirstUnmet
        ((CLOSED, ticket.old.held ≡ true) ∷ (OPEN, out.old.held ≡ false) ∷ (OTHER_KIND, HoldsTicket ticket.old.value) ∷ [])
        (DONE ∷ NO_MEMORY ∷ []) result }
{
    if !ticket.is_open() {
        return CLOSED;
    }
    if out.is_open() {
        return OPEN;
    }
    match ticket.lend() {
        Content::Ticket(ticket) => match walked(alloc, ticket) {
            Ok(blocks) => put(alloc, out, Content::List(Sequence::new(blocks))),
            Err(_) => NO_MEMORY,
        },
        _ => OTHER_KIND,
    }
}

/// Writes how many blocks the list has.
#[unsafe(no_mangle)]
pub extern "C" fn nw_list_len(list: &mut ListHandle, out: &mut usize) -> i32
    ensures len { result ≡ pos 0 → HasBlocks list.old.value out.new }
    ensures same { IsUnchanged list.old list.new }
    ensures unchanged { (result ≡ pos 0 → ⊥) → out.new ≡ out.old }
    ensures code { IsFirstUnmet
        ((CLOSED, list.old.held ≡ true) ∷ (OTHER_KIND, HoldsList list.old.value) ∷ [])
        (DONE ∷ []) result }
{
    if !list.is_open() {
        return CLOSED;
    }
    match list.lend() {
        Content::List(blocks) => {
            *out = blocks.as_slice().len();
            DONE
        }
        _ => OTHER_KIND,
    }
}

/// Opens a handle of the block at the index, counted from 0. Returns `NW_ABSENT` if the list has no such block.
#[unsafe(no_mangle)]
pub extern "C" fn nw_list_block(
    alloc: Global,
    list: &mut ListHandle,
    index: usize,
    out: &mut BlockHandle,
) -> i32
    ensures block { result ≡ pos 0 → IsBlockAt list.old.value index out.new.value }
    ensures same { IsUnchanged list.old list.new }
    ensures unchanged { (result ≡ pos 0 → ⊥) → IsUnchanged out.old out.new }
    ensures opened { result ≡ pos 0 → out.new.held ≡ true }
    ensures absent { result ≡ ABSENT → HasNoBlockAt list.old.value index }
    ensures code { IsFirstUnmet
        ((CLOSED, list.old.held ≡ true) ∷ (OPEN, out.old.held ≡ false) ∷ (OTHER_KIND, HoldsList list.old.value) ∷ [])
        (DONE ∷ ABSENT ∷ NO_MEMORY ∷ []) result }
{
    if !list.is_open() {
        return CLOSED;
    }
    if out.is_open() {
        return OPEN;
    }
    match list.lend() {
        Content::List(blocks) => match blocks.as_slice().get(index) {
            Some(block) => match block.try_clone() {
                Ok(block) => put(alloc, out, Content::Block(block)),
                Err(_) => NO_MEMORY,
            },
            None => ABSENT,
        },
        _ => OTHER_KIND,
    }
}
