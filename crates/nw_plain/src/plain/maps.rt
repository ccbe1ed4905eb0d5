//! Stores that are made of whole maps.
ghost use Rattle.std.specs.Prelude.{◌≡◌};
ghost use Rattle.std.specs.FinMap as map;
ghost use Rattle.nw_model.specs.Sound.{IsSoundWithIndex};
ghost use Rattle.nw_plain.specs.Maps.{state_of};

use super::Plain;
use nw_codec::{Block, Certificate};
use nw_digest::{Digest, Round, Shared};
use std::alloc::Global;
use std::collections::BTreeMap;

/// The maps of a store, with its garbage round.
#[derive(Drop)]
pub struct Maps {
    /// The held blocks.
    pub blocks: BTreeMap<Digest, Shared<Block>>,
    /// The certificates.
    pub certificates: BTreeMap<Digest, Shared<Certificate>>,
    /// The first digest of each round and author.
    pub firsts: BTreeMap<(Round, u16), Digest>,
    /// The certified digest of each round and author.
    pub certified: BTreeMap<(Round, u16), Digest>,
    /// The garbage round.
    pub floor: Round,
}

impl Plain {
    /// The store with these maps, which holds at most `blocks` blocks and `blocks` certificates, and accepts those of `window` rounds from
    /// the garbage round on. Allocates nothing.
    pub fn of_maps(alloc: Global, maps: Maps, blocks: u32, window: u32) -> Plain
        requires { IsSoundWithIndex (state_of maps) (map.from_entries maps.certified.entries) }
        ensures { result ≡ record {
          bounds = record { blocks = blocks; window = window };
          state = state_of maps;
        } }
    {
        Plain {
            blocks: maps.blocks,
            certificates: maps.certificates,
            firsts: maps.firsts,
            certified: maps.certified,
            floor: maps.floor,
            limit: blocks,
            window,
            alloc,
        }
    }
}
