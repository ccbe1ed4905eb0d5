//! A slow store over ordered maps.
ghost use Rattle.std.specs.Prelude.{◌≡◌, ◌≢◌, ◌≤◌};
ghost use Rattle.std.specs.Prelude.{IfOk, OnOk, OnErr, IsNone, None, IsTrue, true, false};
ghost use Rattle.std.specs.Option.{option_copied};
ghost use Rattle.std.specs.BTreeMap.{get, insert_entry, IsUnchanged};
ghost use Rattle.std.specs.FinMap as map;
ghost use Rattle.nw_digest.specs.Order.{digest_cmp, slot_cmp};
ghost use Rattle.nw_model.specs.State.{opening};
ghost use Rattle.nw_model.specs.Step.{IsReply, after};

mod causal;
mod certificates;
mod collection;
mod copies;
mod maps;
mod missing;
mod sameness;
mod writes;

pub use maps::Maps;
use nw_codec::{Block, Certificate};
use nw_digest::{Digest, NoMemory, Round, Shared};
use nw_model::{Call, CertifyReply, CollectReply, Reply, WriteReply};
use std::alloc::Global;
use std::collections::BTreeMap;
use std::collections::btree_map::Entry;
use std::marker::Model;

/// A slow store over ordered maps, in memory only. Contracts see its state and its bounds.
#[derive(Drop)]
pub struct Plain {
    blocks: BTreeMap<Digest, Shared<Block>>,
    certificates: BTreeMap<Digest, Shared<Certificate>>,
    firsts: BTreeMap<(Round, u16), Digest>,
    /// The certified digest of each round and author.
    certified: BTreeMap<(Round, u16), Digest>,
    floor: Round,
    /// The largest number of held blocks, and separately of certificates.
    limit: u32,
    window: u32,
    alloc: Global,
}

impl Model for Plain {
    ghost use Rattle.std.specs.FinMap as map;
    ghost use Rattle.nw_model.specs.Sound.{IsSoundWithIndex};
    ghost use Rattle.nw_model.specs.Step.{BoundedState, coded_bounded_state};

    ghost Value = { BoundedState };

    ghost coded = { coded_bounded_state };

    ghost view = { λ p. record {
      bounds = record { blocks = p.limit; window = p.window };
      state = record {
        blocks = map.from_entries p.blocks.entries;
        certificates = map.from_entries p.certificates.entries;
        firsts = map.from_entries p.firsts.entries;
        floor = p.floor;
      };
    } };

    ghost invariant = { λ p. IsSoundWithIndex
        (record {
          blocks = map.from_entries p.blocks.entries;
          certificates = map.from_entries p.certificates.entries;
          firsts = map.from_entries p.firsts.entries;
          floor = p.floor;
        })
        (map.from_entries p.certified.entries) };
}

impl Plain {
    /// An empty store with garbage round 0. Allocates nothing.
    ///
    /// The store holds at most `blocks` blocks and `blocks` certificates. It accepts those of `window` rounds from the garbage round on.
    pub fn new(alloc: Global, blocks: u32, window: u32) -> Plain
        ensures { result ≡ record {
          bounds = record { blocks = blocks; window = window };
          state = opening;
        } }
    {
        Plain {
            blocks: BTreeMap::new(alloc),
            certificates: BTreeMap::new(alloc),
            firsts: BTreeMap::new(alloc),
            certified: BTreeMap::new(alloc),
            floor: Round::ZERO,
            limit: blocks,
            window,
            alloc,
        }
    }

    /// Takes the step of the call and returns its reply. A causal read of a complete digest gets its list, never `Ready`.
    ///
    /// `NoMemory` if allocation fails. Then the store is unchanged.
    pub fn call(&mut self, call: &Call) -> Result<Reply, NoMemory>
        ensures reply { IfOk result
            (λ reply. IsReply self.old.bounds self.old.state call.now reply) }
        ensures listed { IfOk result (λ reply. reply ≢ Reply.Ready) }
        ensures state { OnOk result
            (self.new.state ≡ after self.old.bounds self.old.state call.now) }
        ensures bounds { self.new.bounds ≡ self.old.bounds }
        ensures unchanged { OnErr result (self.new ≡ self.old) }
    {
        let reply = self.reply(call)?;
        match (call, &reply) {
            (Call::Write(digest, block), Reply::Write(WriteReply::Stored { vote })) => {
                self.store(*digest, block.try_clone()?, *vote)?;
            }
            (Call::Certify(certificate), Reply::Certify(CertifyReply::Certified)) => {
                self.certify(certificate.try_clone()?)?;
            }
            (Call::Collect(round), Reply::Collect(CollectReply::Raised { .. })) => {
                self.raise(*round);
            }
            _ => {}
        }
        Ok(reply)
    }

    /// The reply that the call would get now. A causal read of a complete digest would get its list, never `Ready`.
    fn reply(&self, call: &Call) -> Result<Reply, NoMemory>
        ensures reply { IfOk result (IsReply self.now.bounds self.now.state call.now) }
        ensures listed { IfOk result (λ reply. reply ≢ Reply.Ready) }
    {
        match call {
            Call::Write(digest, block) => {
                Ok(Reply::Write(self.write_reply(digest, block.get())))
            }
            Call::Certify(certificate) => {
                let subject = certificate.get().subject();
                Ok(Reply::Certify(self.asked_certify_reply(&subject)))
            }
            Call::Certificate(digest) => Ok(Reply::Certificate(self.read_certificate(digest)?)),
            Call::Read(digest) => Ok(Reply::Read(self.read(digest)?)),
            Call::Causal(digest) => self.causal_reply(*digest),
            Call::Collect(round) => Ok(Reply::Collect(self.collect_reply(*round))),
            Call::Missing(most) => Ok(Reply::Missing(self.first_wanted(*most)?)),
            Call::MissingOf(digest) => Ok(Reply::MissingOf(self.missing_of(digest)?)),
            Call::Status => Ok(Reply::Status(self.counts()?)),
            Call::AskWrite(subject) => Ok(Reply::Write(self.asked_write_reply(subject))),
            Call::AskCertify(subject) => Ok(Reply::Certify(self.asked_certify_reply(subject))),
        }
    }

    /// The block that is held under the digest, if there is one.
    fn read(&self, digest: &Digest) -> Result<Option<Shared<Block>>, NoMemory>
        ensures { IfOk result (λ found. found ≡ map.get self.now.state.blocks digest.now) }
    {
        match self.blocks.get(digest) {
            None => Ok(None),
            Some(block) => Ok(Some(block.try_clone()?)),
        }
    }

    /// The garbage round.
    pub(crate) fn floor(&self) -> Round
        ensures { result ≡ self.now.state.floor }
    {
        self.floor
    }

    /// The block that is held under the digest, if there is one.
    pub(crate) fn block(&self, digest: &Digest) -> Option<&Block>
        ensures { option_copied result ≡ map.get self.now.state.blocks digest.now }
    {
        match self.blocks.get(digest) {
            None => None,
            Some(block) => Some(block.get()),
        }
    }

    /// The certificate that is kept for the digest, if there is one.
    pub(crate) fn certificate(&self, digest: &Digest) -> Option<&Certificate>
        ensures { option_copied result ≡ map.get self.now.state.certificates digest.now }
    {
        match self.certificates.get(digest) {
            None => None,
            Some(certificate) => Some(certificate.get()),
        }
    }

    /// The first digest of the round and author, if there is one.
    pub(crate) fn first(&self, round: Round, author: u16) -> Option<Digest>
        ensures { result ≡ map.get self.now.state.firsts (round, author) }
    {
        self.firsts.get(&(round, author)).copied()
    }

    fn block_count(&self) -> usize
        ensures { result ≡ map.len self.now.state.blocks }
    {
        self.blocks.len()
    }
}

/// Adds the value under the digest, and the digest under the slot. `NoMemory` if allocation fails. Then both maps are unchanged.
fn insert_both<T: Drop>(
    held: &mut BTreeMap<Digest, T>,
    digest: Digest,
    value: T,
    slots: &mut BTreeMap<(Round, u16), Digest>,
    slot: (Round, u16),
) -> Result<(), NoMemory>
    requires { IsNone (get slot_cmp slots.old slot) }
    ensures both { OnOk result
        ((held.new.entries ≡ insert_entry digest_cmp held.old.entries digest value)
        × (slots.new.entries ≡ insert_entry slot_cmp slots.old.entries slot digest)) }
    ensures same_held { OnErr result (IsUnchanged held.old held.new) }
    ensures same_slots { OnErr result (IsUnchanged slots.old slots.new) }
{
    match slots.entry(slot)? {
        Entry::Occupied(_) => unreachable!(),
        Entry::Vacant(place) => {
            held.insert(digest, value)?;
            place.insert_entry(digest);
            Ok(())
        }
    }
}
