//! Answers to calls.
ghost use Rattle.std.specs.Prelude.{◌≡◌, ◌≢◌, ◌-◌, Some, IfSome, IsNone, length, slice_get};
ghost use Rattle.nw_codec.specs.declared.block.Block.{Block};
ghost use Rattle.nw_codec.specs.declared.certificate.Certificate.{Certificate};
ghost use Rattle.nw_model.specs.Checks.{digest_of, IsWellFormed, IsValid};

use crate::Entry;
use nw_codec::{Block, Certificate};
use nw_digest::{Digest, Shared};
use nw_history::Front;
use nw_model::{Call, Reply};
use nw_sig::Scheme;
use std::marker::Model;

/// The answer to a call that gets no ticket: the front that ends with the call. Its reply is never `Ready`. Contracts see the
/// call's event and the front.
#[derive(Drop)]
pub struct Done<S: Scheme> {
    entry: Entry<S>,
}

impl<S: Scheme> Model for Done<S> {
    ghost use Rattle.std.specs.Prelude.{◌≢◌};
    ghost use Rattle.std.specs.Coded.{codes};
    ghost use Rattle.nw_model.specs.State.{coded_state};
    ghost use Rattle.nw_model.specs.declared.reply.Reply.TheVariants as Reply;
    ghost use Rattle.nw_book.specs.Answer.{AnswerView};

    ghost Value = { AnswerView };

    ghost coded = { Prim.hlevel (codes, coded_state) };

    ghost view = { λ d. d.entry };

    ghost invariant = { λ d. d.entry.event.reply ≢ Reply.Ready };
}

impl<S: Scheme> Done<S> {
    /// The answer with this entry.
    pub(crate) fn of(entry: Entry<S>) -> Done<S>
        requires { entry.event.reply ≢ Reply.Ready }
        ensures { result ≡ entry }
    {
        Done { entry }
    }

    /// The answered call, as the history records it ([`Call::record`]).
    pub fn call(&self) -> &Call
        ensures call { result.now ≡ self.now.event.call }
        ensures last { slice_get self.now.front.events (length self.now.front.events - 1)
            ≡ Some self.now.event }
    {
        self.entry.call()
    }

    /// The reply to the call. It is never `Ready`: a causal read with that reply gets a ticket.
    pub fn reply(&self) -> &Reply
        ensures reply { result.now ≡ self.now.event.reply }
        ensures not_ready { result.now ≢ Reply.Ready }
    {
        self.entry.reply()
    }

    /// The block that a read found, with its digest. It is well formed under the store's committee. `None` if the call is no read, or the read
    /// found no block.
    pub fn found(&self) -> Option<(Digest, &Shared<Block>)>
        ensures found { IfSome result (λ found. (self.now.event.reply ≡ Reply.Read (Some found.1.now))
            × (found.0 ≡ digest_of found.1.now)) }
        ensures well_formed { IfSome result
            (λ found. IsWellFormed S.accepts self.now.front.committee found.1.now) }
        ensures none { IsNone result → (b : Block) → self.now.event.reply ≢ Reply.Read (Some b) }
    {
        let block = self.read_block()?;
        match self.entry.call() {
            Call::Read(digest) => Some((*digest, block)),
            _ => unreachable!(),
        }
    }

    /// The block in the reply to a read, if there is one.
    fn read_block(&self) -> Option<&Shared<Block>>
        ensures found { IfSome result
            (λ block. self.now.event.reply ≡ Reply.Read (Some block.now)) }
        ensures none { IsNone result → (b : Block) → self.now.event.reply ≢ Reply.Read (Some b) }
    {
        match self.entry.reply() {
            Reply::Read(Some(block)) => Some(block),
            _ => None,
        }
    }

    /// The certificate that a call for a certificate found. It is valid under the store's committee. `None` if it is another call, or found no
    /// certificate.
    pub fn certificate(&self) -> Option<&Shared<Certificate>>
        ensures found { IfSome result
            (λ found. self.now.event.reply ≡ Reply.Certificate (Some found.now)) }
        ensures valid { IfSome result
            (λ found. IsValid S.accepts self.now.front.committee found.now) }
        ensures none { IsNone result → (c : Certificate) → self.now.event.reply ≢ Reply.Certificate (Some c) }
    {
        match self.entry.reply() {
            Reply::Certificate(Some(certificate)) => Some(certificate),
            _ => None,
        }
    }

    /// The history up to and including the call.
    pub fn front(&self) -> &Front<S>
        ensures { result.now ≡ self.now.front }
    {
        self.entry.front()
    }
}
