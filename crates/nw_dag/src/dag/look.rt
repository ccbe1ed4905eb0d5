//! Looks at slots and at rounds.
ghost use Rattle.std.specs.Prelude.{IfOk, IfSome, IsSome};
ghost use Rattle.std.specs.FinMap as map;
ghost use Rattle.nw_model.specs.Look.{AreLooks, AreMissed, IsLook, TellsSatisfied};

use super::Dag;
use crate::completions::lacks_nothing;
use nw_digest::{Digest, NoMemory, Round};
use nw_model::Look;
use std::alloc::Global;

impl Dag {
    /// What the state has in the slot of this round and author. Allocates nothing.
    pub fn look(&self, round: Round, author: u16) -> Look
        ensures look { IsLook self.now.state (round, author) result }
        ensures satisfied { TellsSatisfied self.now.state (round, author) result }
    {
        let certified = self.held.certified(round, author);
        let (stands, complete) = match certified {
            None => (false, false),
            Some(digest) => {
                let stands = self.held.holds(&digest);
                let complete = stands && lacks_nothing(&self.waits.missing, digest);
                (stands, complete)
            }
        };
        let first = self.held.first(round, author);
        Look {
            floor: self.held.floor(),
            newest: self.held.newest(),
            first,
            missing: self.missed(first),
            certified,
            stands,
            complete,
        }
    }

    /// How many parents the block of this first digest misses. 0 if there is none. Allocates nothing.
    fn missed(&self, first: Option<Digest>) -> usize
        requires { IfSome first (λ digest. IsSome (map.get self.now.state.blocks digest)) }
        ensures { AreMissed self.now.state first result }
    {
        match first {
            None => 0,
            Some(digest) => self.waits.missing.unmet_count(digest),
        }
    }

    /// The looks at the slots of the round that have a first or a certified digest, each with its author, ascending. `NoMemory` if
    /// allocation fails.
    pub fn look_round(&self, alloc: Global, round: Round) -> Result<Vec<(u16, Look)>, NoMemory>
        ensures { IfOk result (λ looks. AreLooks self.now.state round looks.items) }
    {
        let authors = self.held.authors(alloc, round)?;
        let mut looks = Vec::with_capacity(alloc, authors.len())?;
        for author in authors.as_slice() {
            looks.push((*author, self.look(round, *author)))?;
        }
        Ok(looks)
    }
}
