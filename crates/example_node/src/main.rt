//! A single-threaded node that checks a committee's messages, stores them, and reads blocks causally.
//!
//! Each line of standard input is a message in hex, or `causal` and a digest in hex. For each message the node prints the result, and
//! for each causal read the listed blocks. docs/EMBEDDING.md explains the program.
//!
//! The program ends with status 1 at the first line of another form and at the first refused call. It does so too if reading, writing or an
//! allocation fails. After 1,024 calls the history is full, and the next call is refused.
#![tactic(auto)]

ghost use Rattle.std.specs.Prelude.{◌≡◌};
ghost use Rattle.nw_history.specs.Story.{first_origin};
ghost use Rattle.nw_store.specs.Lock.{parts_of_a_ledger};

use anyhow::Result;
use hex::FromHex;
use nw_check::{Checked, CheckedBlock, check_message};
use nw_committee::Key;
use nw_ed25519::Ed25519;
use nw_model::WriteReply;
use nw_store::{
    Block, Committee, Digest, Done, Home, Limits, Opening, Reply, Round, Session, Shared, Store,
};
use std::alloc::Global;
use std::marker::Brand;
use std::str;
use std::sync::Wait;

/// The public keys of the members, each of weight 1.
const KEYS: [&str; 4] = [
    "7d86cdd0b5134f6030148ac1e2869d98d0aabbd3aae6065d5ef7905fc8e146ab",
    "686083025d813ae5196605c3d6691a7859a236713f3dbf47ef251cf2ef18b9c1",
    "2286b8047a033c1b937dbb6cea7fc048f8fa988a7060ddf7f0a2ea8ac6dc53bc",
    "42930ead3e8b13f9d5e6e79f0f50e7bba38ef82c78216f97216043d57d372de9",
];

const LIMITS: Limits = Limits {
    blocks: 1024,
    events: 1024,
    window: 64,
    sessions: 1,
};

fn main(rt: HostRuntime) -> Result<()> {
    open(&rt, rt.alloc())
}

/// Makes the committee and an opening, and runs the node on a new store.
fn open<R: Wait + Input + Print>(rt: &R, alloc: Global) -> Result<()> {
    let mut keys = Vec::new(alloc);
    for key in KEYS {
        keys.push(Key(<[u8; 32] as FromHex>::from_hex(key)?))?;
    }
    let committee = Shared::new(alloc, Committee::new(alloc, keys)?)?;
    let shared = committee.try_clone()?;
    let opening = Opening::new(alloc)?;
    run::<Brand, R>(rt, alloc, &shared, opening, committee, LIMITS)
}

/// Opens the store named by `L`, and runs the node on it.
fn run<L: Home, R: Wait + Input + Print>(
    rt: &R,
    alloc: Global,
    shared: &Shared<Committee>,
    opening: Opening<Ed25519>,
    committee: Shared<Committee>,
    limits: Limits,
) -> Result<()>
    requires log { opening.log ≡ L.log }
    requires ledger { (opening.ledger ≡ L.name) × (L.parts ≡ parts_of_a_ledger) }
    requires origin { first_origin committee limits ≡ L.origin }
{
    let store = Store::<Ed25519, L>::new(alloc, opening, committee, limits)?;
    let outcome = match store.session(rt, alloc) {
        Ok(session) => Node {
            rt,
            alloc,
            committee: shared,
            store: &store,
            session,
        }
        .handle_lines(),
        Err(refused) => Err(refused.into()),
    };
    drop(store);
    outcome
}

/// A store and its one session, which makes all calls.
#[derive(Drop)]
struct Node<'a, L: Home, R> {
    rt: &'a R,
    alloc: Global,
    committee: &'a Shared<Committee>,
    store: &'a Store<Ed25519, L>,
    session: Session<Ed25519, L>,
}

impl<'a, L: Home, R: Wait + Input + Print> Node<'a, L, R> {
    /// Handles each line of the input.
    fn handle_lines(mut self) -> Result<()> {
        for line in self.rt.lines(self.alloc) {
            let line = line?;
            match line.as_str().strip_prefix("causal ") {
                Some(digest) => self.read(Digest(<[u8; 32] as FromHex>::from_hex(digest)?))?,
                None => self.handle_message(line.as_str())?,
            }
        }
        Ok(())
    }

    /// Checks a message without the store's lock. Then stores its block or certificate, and prints the result.
    fn handle_message(&mut self, line: &str) -> Result<()> {
        let text = hex::decode(self.alloc, line)?;
        match check_message(self.alloc, self.committee, text.as_slice())? {
            Checked::Block(block) => {
                let done = self
                    .store
                    .write(self.rt, self.alloc, &mut self.session, &block)?;
                self.print_write(&block, &done)
            }
            Checked::Cert(certificate) => {
                let done = self
                    .store
                    .certify(self.rt, self.alloc, &mut self.session, &certificate)?;
                self.print_reply(certificate.digest(), &done)
            }
            Checked::Vote(vote) => Ok(println!(self.rt; "a vote by member {}", vote.signer)?),
            Checked::BadText(fault) => Ok(println!(self.rt; "refused: {fault}")?),
            Checked::BadBlock(fault) => Ok(println!(self.rt; "refused: {fault}")?),
            Checked::BadCert(fault) => Ok(println!(self.rt; "refused: {fault}")?),
        }
    }

    /// Prints the store's reply to a write, or that the block gets the vote.
    fn print_write(&self, block: &CheckedBlock<Ed25519>, done: &Done<Ed25519>) -> Result<()> {
        match done.reply() {
            // A validator signs `text_of_vote` here, and sends the vote. If a parent is missing, it looks again when the parent comes.
            Reply::Write(WriteReply::Stored { vote: true })
                if self.has_parents(block.block().get()) => {
                let digest = hex::encode(self.alloc, block.digest().0)?;
                Ok(println!(self.rt; "vote for {digest}")?)
            }
            _ => self.print_reply(block.digest(), done),
        }
    }

    /// Whether each parent of the block is stored and certified. Blocks of the garbage round need no parents.
    fn has_parents(&self, block: &Block) -> bool {
        let Some(round) = block.round.get().checked_sub(1).and_then(Round::new) else {
            return true;
        };
        for parent in block.parents.as_slice() {
            let look = self.store.look(self.rt, round, parent.author);
            if look.floor < block.round && (look.certified != Some(parent.digest) || !look.stands) {
                return false;
            }
        }
        true
    }

    /// Prints the store's reply.
    fn print_reply(&self, digest: Digest, done: &Done<Ed25519>) -> Result<()> {
        let digest = hex::encode(self.alloc, digest.0)?;
        let reply = done.reply();
        Ok(println!(self.rt; "{digest}: {reply:?}")?)
    }

    /// Reads the digest causally, and prints the listed blocks, or the reply if there is no ticket.
    fn read(&mut self, digest: Digest) -> Result<()> {
        match self
            .store
            .open_causal(self.rt, self.alloc, &mut self.session, digest)?
        {
            Err(done) => self.print_reply(digest, &done),
            Ok(ticket) => {
                for block in ticket.walk(self.alloc)? {
                    self.print_block(block.get())?;
                }
                Ok(())
            }
        }
    }

    /// Prints the slot and the transactions of a block.
    fn print_block(&self, block: &Block) -> Result<()> {
        print!(self.rt; "round {}, author {}:", block.round.get(), block.author)?;
        for transaction in block.transactions.iter() {
            print!(self.rt; " {:?}", str::from_utf8(transaction).unwrap_or("bytes"))?;
        }
        Ok(println!(self.rt)?)
    }
}
