//! The named blocks and their messages.

use crate::bindings::Bindings;
use crate::fault::LineFault;
use crate::members::block_message;
use crate::words::{empty_line, named, refused};
use nw_check::{Checked, check_message};
use nw_codec::{Block, EncodeError, Transactions};
use nw_digest::Digest;
use nw_script::{BlockLine, Name};
use nw_sig::DemoScheme;
use std::alloc::Global;
use std::fmt::Write;

impl<'a> Bindings<'a> {
    /// Binds the name of the line to its block, and returns the line that says so. The name stays free if the block is over a limit. `Bad` if the name is bound or the name
    /// of a parent is not. `NoMemory` if an allocation fails.
    pub fn block(&mut self, alloc: Global, line: &BlockLine<'a>) -> Result<String, LineFault> {
        let name = line.name;
        if self.names.has(name) {
            return Err(LineFault::Bad);
        }
        let block = self.block_of(alloc, line)?;
        if !block.fits() {
            drop(block);
            return refused(alloc, name, "over limit");
        }
        let body = block.body_size();
        self.names.bind(name, block)?;
        let mut line = empty_line(alloc)?;
        write!(line, "block {name} {body}")?;
        Ok(line)
    }

    fn block_of(&self, alloc: Global, line: &BlockLine<'a>) -> Result<Block, LineFault> {
        Ok(Block {
            author: line.author,
            round: line.round,
            parents: self.names.references(alloc, &line.parents)?,
            transactions: transactions_of(alloc, &line.transactions)?,
        })
    }

    /// The line with the body of the block in hex. `Bad` if the name is not bound, `NoMemory` if an allocation fails.
    pub fn body_in_hex(&self, alloc: Global, name: Name<'a>) -> Result<String, LineFault> {
        let text = self.named_block(name)?.block().body(alloc)?;
        in_hex(alloc, name, text.as_slice())
    }

    /// The line with the digest of the block in hex. `Bad` if the name is not bound, `NoMemory` if an allocation fails.
    pub fn digest_in_hex(&self, alloc: Global, name: Name<'a>) -> Result<String, LineFault> {
        let Digest(bytes) = self.digest_of(name)?;
        in_hex(alloc, name, bytes.as_slice())
    }

    /// Encodes the message of the named block, and returns the result of its check. The given member signs it, or its author if none is
    /// given. `Bad` if the name is not bound, `NoMemory` if an allocation fails.
    pub fn checked_block(
        &self,
        alloc: Global,
        name: Name<'a>,
        signer: Option<u16>,
    ) -> Result<Checked<DemoScheme>, LineFault> {
        let named = self.named_block(name)?;
        let signer = signer.unwrap_or(named.block().author);
        let text = block_message(alloc, signer, &named.digest(), named.block())?;
        Ok(check_message(alloc, &self.committee, &text)?)
    }
}

fn in_hex(alloc: Global, name: Name<'_>, bytes: &[u8]) -> Result<String, LineFault> {
    let hex = hex::encode(alloc, bytes)?;
    named(alloc, name, hex.as_str())
}

// The words as transactions of a block. A word has at most 64 bytes, so each is within the limit.
fn transactions_of(alloc: Global, words: &[&str]) -> Result<Transactions, EncodeError> {
    let mut transactions = Transactions::new(alloc);
    for word in words {
        transactions.push(word.as_bytes())?;
    }
    Ok(transactions)
}
