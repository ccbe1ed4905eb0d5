//! The tables of a store.
ghost use Rattle.std.specs.Prelude.{◌≡◌, ◌↔◌, IfOk, IsTrue};
ghost use Rattle.std.specs.FinMap as map;
ghost use Rattle.nw_model.specs.State.{opening};
ghost use Rattle.nw_model.specs.Paths.{IsComplete};
ghost use Rattle.nw_model.specs.Sound.{IsSound};
ghost use Rattle.nw_model.specs.Missing.{AreCounts};

mod calls;
mod causal;
mod look;
mod missing;
mod taking;

use crate::completions::is_ready;
use crate::waits::Waits;
use nw_codec::{Block, Certificate};
use nw_digest::{Digest, NoMemory, Shared};
use nw_generation::Generations;
use nw_model::Counts;
use nw_plain::Plain;
use nw_state::StateTables;
use std::alloc::Global;
use std::marker::Model;

/// The bounds of the tables.
#[derive(Clone, Copy, Debug, PartialEq, Eq)]
pub struct DagLimits {
    /// The largest number of held blocks, and separately of certificates.
    pub blocks: u32,
    /// The number of rounds, from the garbage round on, whose blocks and certificates are accepted.
    pub window: u32,
}

/// The tables of a store: its state, the missing parents, and the frozen blocks, all in memory. Contracts see the state and the bounds.
#[derive(Drop)]
pub struct Dag {
    held: StateTables,
    waits: Waits,
    /// The frozen blocks: those that were complete at the last freeze.
    generations: Generations,
}

impl Model for Dag {
    ghost use Rattle.nw_model.specs.Step.{BoundedState, coded_bounded_state};
    ghost use Rattle.nw_dag.specs.Frozen.{IsDag};

    ghost Value = { BoundedState };

    ghost coded = { coded_bounded_state };

    ghost view = { λ d. d.held };

    ghost invariant = { λ d. IsDag d.held.state d.waits.missing.unmet d.waits.missing.lacking
        d.waits.completions.fresh.items d.waits.completions.pending d.generations.blocks };
}

impl Dag {
    /// An empty store with garbage round 0. Allocates nothing.
    pub fn new(alloc: Global, limits: DagLimits) -> Dag
        ensures { result ≡ record {
          bounds = record { blocks = limits.blocks; window = limits.window };
          state = opening;
        } }
    {
        Dag {
            held: StateTables::new(alloc, limits.blocks, limits.window),
            waits: Waits::new(alloc),
            generations: Generations::new(alloc),
        }
    }

    /// Whether the digest is complete: it stands, and each ancestor above the garbage round has all its references satisfied. It looks
    /// up no other digest.
    pub fn is_complete(&self, digest: &Digest) -> bool
        ensures complete { IsTrue result ↔ IsComplete self.now.state digest.now }
        ensures sound { IsTrue result → IsSound self.now.state }
    {
        is_ready(&self.held, &self.waits.missing, *digest)
    }

    /// A plain store with the same state and the same bounds, which shares the blocks and certificates. The cost grows with the number of
    /// blocks and certificates, and with nothing else.
    ///
    /// `NoMemory` if allocation fails.
    pub fn copy(&self, alloc: Global) -> Result<Plain, NoMemory>
        ensures { IfOk result (λ plain. plain ≡ self.now) }
    {
        self.held.copy(alloc)
    }

    /// The block that is held under the digest, if there is one. `NoMemory` if it has too many owners.
    pub fn read(&self, digest: &Digest) -> Result<Option<Shared<Block>>, NoMemory>
        ensures { IfOk result (λ found. found ≡ map.get self.now.state.blocks digest.now) }
    {
        self.held.block(digest).map(Shared::try_clone).transpose()
    }

    /// The certificate that is kept for the digest, if there is one. `NoMemory` if it has too many owners.
    pub fn certificate(&self, digest: &Digest) -> Result<Option<Shared<Certificate>>, NoMemory>
        ensures { IfOk result (λ found. found ≡ map.get self.now.state.certificates digest.now) }
    {
        self.held
            .certificate(digest)
            .map(Shared::try_clone)
            .transpose()
    }

    /// The garbage round, and how many blocks, certificates, complete blocks and wanted parents there are. Allocates nothing, and
    /// visits no blocks.
    pub fn status(&self) -> Counts
        ensures { AreCounts self.now.state result }
    {
        Counts {
            floor: self.held.floor(),
            blocks: self.held.blocks() as u64,
            certificates: self.held.certificates() as u64,
            complete: (self.held.blocks() - self.waits.completions.pending) as u64,
            wanted: self.waits.missing.count() as u64,
        }
    }
}
