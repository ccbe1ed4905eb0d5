//! Encodes bodies and messages.
ghost use Rattle.std.specs.Prelude.{◌≡◌, ◌↔◌, ◌++◌, ◌<◌, ◌≤◌, ◌+◌, ◌*◌, ℕ, []};
ghost use Rattle.std.specs.Prelude.{IfOk, OnOk, IsErrOf, All, List, length, take, drop};
ghost use Rattle.std.specs.List.{flat_map};
ghost use Rattle.std.specs.Int.{to_be_bytes};
ghost use Rattle.sha2.specs.Sha256.{sha256};
ghost use Rattle.nw_codec.specs.Grammar.{body, message, parent_bytes};
ghost use Rattle.nw_codec.specs.Fits.{Fits, MessageFits, block_size, body_size};
ghost use Rattle.nw_codec.specs.Typed.{IsRef, IsBlock, IsMessage};
ghost use Rattle.nw_codec.specs.Spelled.{Spells};

mod certificate;
mod sink;

use crate::limits::{BLOCK_TAG, VERSION};
use crate::{Block, EncodeError, Message, Ref, Signature};
use nw_digest::{Digest, NoMemory};
use sha2::Sha256;
use sink::{Filled, Sink};
use std::alloc::Global;

fn put_parents<S: Sink>(sink: &mut S, parents: &[Ref]) -> Result<(), S::Refusal>
    requires { 34 * length parents.now ≤ S.room sink.old }
    ensures text { OnOk result ((before text : List ℕ) → S.holds sink.old before text
        → S.holds sink.new before (text ++ flat_map parent_bytes parents.now)) }
    ensures room { OnOk result (S.room sink.old ≤ S.room sink.new + 34 * length parents.now) }
    ensures place { S.place sink.new ≡ S.place sink.old }
    ensures typed { OnOk result (All IsRef parents.now) }
{
    for parent in parents {
        sink.put(&parent.author.to_be_bytes())?;
        sink.put(&parent.digest.0)?;
    }
    Ok(())
}

/// Writes the body of the block, field by field.
#[tactic(auto, unfolding(crate::specs::Grammar::body))]
fn put_body<S: Sink>(sink: &mut S, block: &Block) -> Result<(), S::Refusal>
    requires fits { Fits block.now }
    requires room { body_size block.now ≤ S.room sink.old }
    ensures text { OnOk result
        ((before text : List ℕ) → S.holds sink.old before text → S.holds sink.new before (text ++ body block.now)) }
    ensures room { OnOk result (S.room sink.old ≤ S.room sink.new + body_size block.now) }
    ensures place { S.place sink.new ≡ S.place sink.old }
    ensures typed { OnOk result (IsBlock block.now) }
{
    let parents = block.parents.as_slice();
    sink.put(&[VERSION])?;
    sink.put(&block.author.to_be_bytes())?;
    sink.put(&block.round.get().to_be_bytes()[2..])?;
    sink.put(&(parents.len() as u16).to_be_bytes())?;
    put_parents(sink, parents)?;
    sink.put(&(block.transactions.len() as u16).to_be_bytes())?;
    sink.put(block.transactions.text())
}

/// Writes the message of the block with this signature.
fn put_block<S: Sink>(sink: &mut S, block: &Block, signature: &Signature) -> Result<(), S::Refusal>
    requires fits { Fits block.now }
    requires room { block_size block.now ≤ S.room sink.old }
    ensures text { OnOk result ((before : List ℕ) → S.holds sink.old before []
        → S.holds sink.new before (message (Message.Block block.now signature.now))) }
    ensures place { S.place sink.new ≡ S.place sink.old }
    ensures typed { OnOk result (IsMessage (Message.Block block.now signature.now)) }
{
    sink.put(&[BLOCK_TAG])?;
    put_body(sink, block)?;
    sink.put(&signature.0)
}

/// The SHA-256 digest of the block's body. The block must fit (`Block::fits`). It hashes the body field by field, and makes no
/// allocation.
pub fn block_digest(block: &Block) -> Digest
    requires { Fits block.now }
    ensures { result.0 ≡ sha256 (body block.now) }
{
    let mut hasher = <Sha256 as sha2::Digest>::new();
    match put_body(&mut hasher, block) {
        Ok(()) => Digest(sha2::Digest::finalize(hasher)),
        Err(never) => match never {},
    }
}

impl Block {
    /// The encoding of its body. The block must fit (`Block::fits`). `NoMemory` if the allocation fails.
    pub fn body(&self, alloc: Global) -> Result<Vec<u8>, NoMemory>
        requires { Fits self.now }
        ensures text { IfOk result (λ v. v.items ≡ body self.now) }
        ensures size { IfOk result (λ v. length v.items ≡ body_size self.now) }
    {
        let mut bytes = Vec::with_capacity(alloc, self.body_size())?;
        put_body(&mut bytes, self)?;
        Ok(bytes)
    }

    /// The text of its message, with this signature. The block must fit (`Block::fits`). `NoMemory` if the allocation fails.
    pub fn message(&self, alloc: Global, signature: &Signature) -> Result<Vec<u8>, NoMemory>
        requires { Fits self.now }
        ensures { IfOk result (λ v. Spells v.items (Message.Block self.now signature.now)) }
    {
        let mut text = Vec::with_capacity(alloc, self.message_size())?;
        put_block(&mut text, self, signature)?;
        Ok(text)
    }

    /// Writes its body to the front of the buffer, and leaves the rest as it was. The block must fit (`Block::fits`), and the
    /// buffer must have at least `Block::body_size` bytes. It makes no allocation.
    pub fn write_body(&self, buffer: &mut [u8])
        requires fits { Fits self.now }
        requires room { body_size self.now ≤ length buffer.old }
        ensures text { take (body_size self.now) buffer.new ≡ body self.now }
        ensures rest { drop (body_size self.now) buffer.new ≡ drop (body_size self.now) buffer.old }
    {
        let mut buffer = Filled { buffer, filled: 0 };
        let Ok(()) = put_body(&mut buffer, self);
    }

    /// Writes the text of its message, with this signature, to the front of the buffer, and leaves the rest as it was. The block
    /// must fit (`Block::fits`), and the buffer must have at least `Block::message_size` bytes. It makes no allocation.
    pub fn write_message(&self, signature: &Signature, buffer: &mut [u8])
        requires fits { Fits self.now }
        requires room { block_size self.now ≤ length buffer.old }
        ensures text { Spells (take (block_size self.now) buffer.new) (Message.Block self.now signature.now) }
        ensures rest { drop (block_size self.now) buffer.new ≡ drop (block_size self.now) buffer.old }
    {
        let mut buffer = Filled { buffer, filled: 0 };
        let Ok(()) = put_block(&mut buffer, self, signature);
    }
}

/// The encoding of the block's body. Fails with `OverLimit` exactly when the block does not fit (`Block::fits`), and with
/// `NoMemory` if the allocation fails.
pub fn encode_body(alloc: Global, block: &Block) -> Result<Vec<u8>, EncodeError>
    ensures text { IfOk result (λ v. v.items ≡ body block.now) }
    ensures fits { OnOk result (Fits block.now) }
    ensures over_limit { IsErrOf result EncodeError.OverLimit ↔ (Fits block.now → ⊥) }
{
    if !block.fits() {
        return Err(EncodeError::OverLimit);
    }
    Ok(block.body(alloc)?)
}

/// The text of the message. Fails with `OverLimit` exactly when the message does not fit (`Message::fits`), and with `NoMemory` if
/// the allocation fails.
pub fn encode_message(alloc: Global, message: &Message) -> Result<Vec<u8>, EncodeError>
    ensures spells { IfOk result (λ v. Spells v.items message.now) }
    ensures over_limit { IsErrOf result EncodeError.OverLimit ↔ (MessageFits message.now → ⊥) }
{
    if !message.fits() {
        return Err(EncodeError::OverLimit);
    }
    let text = match message {
        Message::Block { block, signature } => block.message(alloc, signature),
        Message::Certificate(certificate) => certificate.message(alloc),
        Message::Vote(vote) => vote.message(alloc),
    };
    Ok(text?)
}
