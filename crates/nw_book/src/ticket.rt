//! Tickets: opened causal reads, which are walked later.
ghost use Rattle.std.specs.Prelude.{◌≡◌, IfOk};
ghost use Rattle.nw_model.specs.Step.{IsReply};
ghost use Rattle.nw_model.specs.View.{Shows};
ghost use Rattle.nw_model.specs.declared.call.Call.TheVariants as Call;
ghost use Rattle.nw_model.specs.declared.reply.Reply.TheVariants as Reply;
ghost use Rattle.nw_causal.specs.Looked.{blocks};
ghost use Rattle.nw_history.specs.Story.{bounds_of, state_of};
ghost use Rattle.nw_book.specs.Ticket.{AreWellFormed, HaveTheirDigests, IsAgreed, IsTicket, IsTicketWith};

use nw_causal::{Agreement, Ancestor, agree, walk, walk_lent};
use nw_codec::Block;
use nw_digest::{Digest, NoMemory, Shared};
use nw_generation::View;
use nw_history::Front;
use nw_sig::Scheme;
use std::alloc::Global;
use std::marker::Model;

/// An opened causal read. It may be walked at any time, any number of times. Every walk gives the causal list as of the step that opened
/// the read, whatever was called since. Contracts see the digest and the front.
#[derive(Drop)]
pub struct Ticket<S: Scheme> {
    digest: Digest,
    front: Front<S>,
    view: View,
}

impl<S: Scheme> Model for Ticket<S> {
    ghost use Rattle.nw_book.specs.Ticket.{TicketView, IsTicketWith};

    ghost Value = { TicketView };

    ghost use Rattle.std.specs.Coded.{codes};
    ghost use Rattle.nw_model.specs.State.{coded_state};

    ghost coded = { Prim.hlevel (codes, coded_state) };

    ghost view = { λ t. record { digest = t.digest; front = t.front } };

    ghost invariant = { λ t.
        IsTicketWith S.accepts (record { digest = t.digest; front = t.front }) t.view.frozen };
}

impl<S: Scheme> Ticket<S> {
    /// The ticket for the digest and the front, with a view of the complete blocks after the front.
    pub(crate) fn new(digest: Digest, front: Front<S>, view: View) -> Ticket<S>
        requires { IsTicketWith S.accepts (record { digest = digest; front = front }) view.frozen }
        ensures { result ≡ record { digest = digest; front = front } }
    {
        Ticket {
            digest,
            front,
            view,
        }
    }

    /// The digest of the causal read.
    pub fn digest(&self) -> Digest
        ensures digest { result ≡ self.now.digest }
        ensures ticket { IsTicket S.accepts self.now }
    {
        self.digest
    }

    /// The history up to and including the call that opened the read.
    pub fn front(&self) -> &Front<S>
        ensures front { result.now ≡ self.now.front }
        ensures ticket { IsTicket S.accepts self.now }
    {
        &self.front
    }

    /// The view of the blocks that are complete after the front.
    pub fn view(&self) -> &View
        ensures shows { Shows result.now.frozen (state_of self.now.front) }
        ensures floor { result.now.frozen.floor ≡ (state_of self.now.front).floor }
        ensures ticket { IsTicket S.accepts self.now }
    {
        &self.view
    }

    /// The causal list of the digest after the front, strictly ascending by round and author.
    ///
    /// `NoMemory`: an allocation failed. A later walk may succeed.
    pub fn walk(&self, alloc: Global) -> Result<Vec<Shared<Block>>, NoMemory>
        ensures list { IfOk result (λ blocks. IsReply (bounds_of self.now.front.limits)
            (state_of self.now.front) (Call.Causal self.now.digest) (Reply.List blocks.items)) }
        ensures ticket { IsTicket S.accepts self.now }
    {
        walk(alloc, &self.view, self.digest)
    }

    /// The same list, with the digest of each block. Each is well formed under the store's committee. The ticket lends both, so it
    /// takes no owner of a block.
    ///
    /// `NoMemory`: an allocation failed. A later walk may succeed.
    pub fn walk_lent(&self, alloc: Global) -> Result<Vec<Ancestor<'_>>, NoMemory>
        ensures list { IfOk result (λ walked. IsReply (bounds_of self.now.front.limits)
            (state_of self.now.front) (Call.Causal self.now.digest) (Reply.List (blocks walked.items))) }
        ensures digests { IfOk result (λ walked. HaveTheirDigests walked.items) }
        ensures well_formed { IfOk result
            (λ walked. AreWellFormed S.accepts self.now.front.committee walked.items) }
        ensures ticket { IsTicket S.accepts self.now }
    {
        walk_lent(alloc, &self.view, &self.digest)
    }

    /// Compares the lists of two tickets for one digest, which may come from two books. Their fronts must leave the same garbage round.
    ///
    /// Returns `Same` if the lists are equal. Otherwise it returns `Collision` with two different blocks under one digest: `one` is held
    /// after this ticket's front, and `other` after the other ticket's.
    ///
    /// `NoMemory`: an allocation failed. A later call may succeed.
    pub fn agree(&self, alloc: Global, other: &Ticket<S>) -> Result<Agreement, NoMemory>
        requires digests { self.now.digest ≡ other.now.digest }
        requires floors { (state_of self.now.front).floor ≡ (state_of other.now.front).floor }
        ensures agreed { IfOk result (λ agreement. IsAgreed self.now other.now agreement) }
    {
        agree(alloc, &self.view, &other.view, self.digest)
    }
}
