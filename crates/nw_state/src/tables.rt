//! The blocks, certificates and slots of one state.
ghost use Rattle.std.specs.Prelude.{◌≡◌, ◌↔◌, ◌≤◌};
ghost use Rattle.std.specs.Prelude.{IfOk, OnOk, OnErr, IfSome, IsSome, IsNone, Some, None, IsTrue, false, not};
ghost use Rattle.std.specs.Prelude.{is_some};
ghost use Rattle.std.specs.Option.{option_copied, option_map};
ghost use Rattle.std.specs.Ordering.{nat_cmp};
ghost use Rattle.std.specs.FinMap as map;
ghost use Rattle.nw_digest.specs.declared.digest.Digest.{Digest};
ghost use Rattle.nw_model.specs.State.{opening, block_slot, certificate_slot};
ghost use Rattle.nw_model.specs.Sound.{IsSound};
ghost use Rattle.nw_model.specs.Look.{HasDigest, IsNewest};
ghost use Rattle.nw_model.specs.Missing.{ListsExactly};
ghost use Rattle.nw_state.specs.Standing.{Stands, IsMet, name_of};
ghost use Rattle.nw_model.specs.Step.{certified_digest, has_other_slot, other_first, with_block};
ghost use Rattle.nw_model.specs.Step.{with_certificate};

mod collection;
mod copies;
mod dropping;
mod replies;

use nw_codec::{Block, Certificate};
use nw_digest::{Digest, NoMemory, Round, Shared};
use nw_model::Wanted;
use nw_rounds::Rounds;
use nw_trie::DigestMap;
use std::alloc::Global;
use std::marker::Model;

/// The blocks, certificates and slots of one state, with the bounds of a store. Contracts see the state and the bounds.
#[derive(Drop)]
pub struct StateTables {
    blocks: DigestMap<Shared<Block>, Global>,
    certificates: DigestMap<Shared<Certificate>, Global>,
    /// The first and the certified digest of each round and author.
    slots: Rounds<Global>,
    floor: Round,
    /// The largest number of held blocks, and separately of certificates.
    limit: u32,
    window: u32,
    alloc: Global,
}

impl Model for StateTables {
    ghost use Rattle.nw_model.specs.Step.{BoundedState, coded_bounded_state};
    ghost use Rattle.nw_state.specs.StateTables.{AreStateTables, state_of};

    ghost Value = { BoundedState };

    ghost coded = { coded_bounded_state };

    ghost view = { λ h. record {
      bounds = record { blocks = h.limit; window = h.window };
      state = state_of h.blocks h.certificates h.slots h.floor;
    } };

    ghost invariant = { λ h. AreStateTables h.blocks h.certificates h.slots h.floor };
}

impl StateTables {
    /// The opening state: three empty maps, and garbage round 0. Allocates nothing.
    ///
    /// The bounds are `blocks` blocks and `blocks` certificates, of `window` rounds from the garbage round on.
    pub fn new(alloc: Global, blocks: u32, window: u32) -> StateTables
        ensures { result ≡ record {
          bounds = record { blocks = blocks; window = window };
          state = opening;
        } }
    {
        StateTables {
            blocks: DigestMap::new_in(alloc),
            certificates: DigestMap::new_in(alloc),
            slots: Rounds::new_in(alloc),
            floor: Round::ZERO,
            limit: blocks,
            window,
            alloc,
        }
    }

    /// The garbage round.
    pub fn floor(&self) -> Round
        ensures { result ≡ self.now.state.floor }
    {
        self.floor
    }

    /// The block that is held under the digest, if there is one.
    pub fn block(&self, digest: &Digest) -> Option<&Shared<Block>>
        ensures value { option_copied result ≡ map.get self.now.state.blocks digest.now }
        ensures sound { IsSound self.now.state }
    {
        self.blocks.get(digest)
    }

    /// Whether a block is held under the digest.
    pub fn holds(&self, digest: &Digest) -> bool
        ensures { result ≡ is_some (map.get self.now.state.blocks digest.now) }
    {
        self.block(digest).is_some()
    }

    /// The certificate that is kept for the digest, if there is one.
    pub fn certificate(&self, digest: &Digest) -> Option<&Shared<Certificate>>
        ensures value { option_copied result ≡ map.get self.now.state.certificates digest.now }
        ensures sound { IsSound self.now.state }
    {
        self.certificates.get(digest)
    }

    /// The first digest of the round and author, if there is one. Its block is held.
    pub fn first(&self, round: Round, author: u16) -> Option<Digest>
        ensures value { result ≡ map.get self.now.state.firsts (round, author) }
        ensures held { IfSome result (λ digest. IsSome (map.get self.now.state.blocks digest)) }
    {
        self.slots.first(round, author)
    }

    /// The certified digest of the round and author, if there is one.
    pub fn certified(&self, round: Round, author: u16) -> Option<Digest>
        ensures value { result ≡ certified_digest self.now.state (round, author) }
        ensures sound { IsSound self.now.state }
    {
        self.slots.certified(round, author)
    }

    /// The newest round with a first or a certified digest, or the garbage round if none is newer. Allocates nothing.
    pub fn newest(&self) -> Round
        ensures { IsNewest self.now.state result }
    {
        self.slots.newest(self.floor)
    }

    /// The authors with a first or a certified digest in the round, ascending. `NoMemory` if allocation fails.
    pub fn authors(&self, alloc: Global, round: Round) -> Result<Vec<u16>, NoMemory>
        ensures { IfOk result
            (λ authors. ListsExactly nat_cmp (λ author. HasDigest self.now.state (round, author)) authors.items) }
    {
        self.slots.authors(alloc, round)
    }

    /// How many blocks are held.
    pub fn blocks(&self) -> usize
        ensures { result ≡ map.len self.now.state.blocks }
    {
        self.blocks.len()
    }

    /// How many certificates are kept.
    pub fn certificates(&self) -> usize
        ensures count { result ≡ map.len self.now.state.certificates }
        ensures sound { IsSound self.now.state }
    {
        self.certificates.len()
    }

    /// The name of the block under the digest: its round, author and digest. `None` if the digest does not stand, that is, if its
    /// block is not held or it is not certified. If the digest is not certified, this takes one lookup.
    pub fn standing(&self, digest: &Digest) -> Option<Wanted>
        ensures stands { IsSome result ↔ Stands self.now.state digest.now }
        ensures name { IfSome result (λ name. Some name
            ≡ option_map (name_of digest.now) (map.get self.now.state.blocks digest.now)) }
        ensures sound { IsSound self.now.state }
    {
        let _certificate = self.certificate(digest)?;
        self.name(*digest)
    }

    /// Whether the wanted digest stands, with a block of the wanted round and author. It looks up the slot, and the block only if the
    /// digest is not the first of its slot.
    pub fn is_met(&self, wanted: &Wanted) -> bool
        ensures { IsTrue result ↔ IsMet self.now.state wanted.now }
    {
        let (round, author) = (wanted.round, wanted.author);
        self.slots.certified(round, author) == Some(wanted.digest)
            && (self.slots.first(round, author) == Some(wanted.digest)
                || self.holds(&wanted.digest))
    }

    /// The name of the block that is held under the digest, if there is one: its round, author and digest.
    pub fn name(&self, digest: Digest) -> Option<Wanted>
        ensures { result ≡ option_map (name_of digest) (map.get self.now.state.blocks digest) }
    {
        let block = self.block(&digest)?.get();
        Some(Wanted {
            round: block.round,
            author: block.author,
            digest,
        })
    }

    /// Adds the block under the digest, for a write whose reply is `Stored` with this vote. If `vote` is set, the digest becomes the
    /// first of the block's slot.
    ///
    /// `NoMemory` if allocation fails. Then nothing changes.
    pub fn put_block(
        &mut self,
        digest: Digest,
        block: Shared<Block>,
        vote: bool,
    ) -> Result<(), NoMemory>
        requires absent { IsNone (map.get self.old.state.blocks digest) }
        requires first { vote ≡ not (is_some (map.get self.old.state.firsts (block_slot block))) }
        requires alone { other_first self.old.state digest (block_slot block) ≡ None }
        requires misfit { has_other_slot certificate_slot (map.get self.old.state.certificates digest)
            (block_slot block) ≡ false }
        requires kept { self.old.state.floor ≤ block.round }
        ensures state { OnOk result (self.new.state ≡ with_block self.old.state digest block vote) }
        ensures bounds { self.new.bounds ≡ self.old.bounds }
        ensures unchanged { OnErr result (self.new ≡ self.old) }
    {
        let held = block.get();
        let (round, author) = (held.round, held.author);
        self.blocks.put(digest, block)?;
        if vote {
            if let Err(refused) = self.slots.put_first(round, author, digest) {
                let _block = self.blocks.remove(&digest);
                return Err(refused);
            }
        }
        Ok(())
    }

    /// Adds a certificate whose reply is `Certified`.
    ///
    /// `NoMemory` if allocation fails. Then nothing changes.
    pub fn put_certificate(&mut self, certificate: Shared<Certificate>) -> Result<(), NoMemory>
        requires absent { IsNone (map.get self.old.state.certificates certificate.digest) }
        requires open { certified_digest self.old.state (certificate_slot certificate) ≡ None }
        requires misfit { has_other_slot block_slot (map.get self.old.state.blocks certificate.digest)
            (certificate_slot certificate) ≡ false }
        requires kept { self.old.state.floor ≤ certificate.round }
        ensures state { OnOk result (self.new.state ≡ with_certificate self.old.state certificate) }
        ensures bounds { self.new.bounds ≡ self.old.bounds }
        ensures unchanged { OnErr result (self.new ≡ self.old) }
    {
        let kept = certificate.get();
        let digest = kept.digest;
        let (round, author) = (kept.round, kept.author);
        self.certificates.put(digest, certificate)?;
        if let Err(refused) = self.slots.put_certified(round, author, digest) {
            let _certificate = self.certificates.remove(&digest);
            return Err(refused);
        }
        Ok(())
    }
}
