//! Tests Ed25519: the standard's vectors, edge cases, and messages signed by OpenSSL, from their bytes to a causal read.
//!
//! It is also a program: for each input line `key message signature`, in hex with `-` for an empty message, it prints whether the signature
//! is accepted, `yes` or `no`. It prepares a key that two lines in a row have. It ends with status 1 at a line of another form, and if
//! reading, writing or an allocation fails. bench/ed25519.py made its `stdin` and `stdout`. No crate uses it.
#![tactic(auto)]

#[cfg(test)]
mod tests;

use anyhow::{Result, bail};
use hex::FromHex;
use nw_codec::Signature;
use nw_committee::Key;
use nw_ed25519::{Ed25519, PreparedBase, PreparedKey};
use nw_sig::Scheme;
use std::alloc::Global;

fn main(rt: HostRuntime) -> Result<()> {
    let mut verifier = Verifier {
        alloc: rt.alloc(),
        base: PreparedBase::new(rt.alloc())?,
        key: Key([0; 32]),
        prepared: None,
    };
    for line in rt.lines(rt.alloc()) {
        let accepted = verifier.accepts(line?.as_str())?;
        println!(rt; "{}", if accepted { "yes" } else { "no" })?;
    }
    Ok(())
}

/// The key of the line before, which is prepared if two lines in a row had it.
#[derive(Drop)]
struct Verifier {
    alloc: Global,
    base: PreparedBase,
    key: Key,
    prepared: Option<PreparedKey>,
}

impl Verifier {
    /// Whether the signature of the line is accepted.
    fn accepts(&mut self, line: &str) -> Result<bool> {
        let mut words = line.split(' ');
        let (Some(key), Some(message), Some(signature), None) = (
            words.next(),
            words.next(),
            words.next(),
            words.next(),
        ) else {
            bail!("a line has three words");
        };
        let message = hex::decode(self.alloc, if message == "-" { "" } else { message })?;
        let signature = Signature(<[u8; 64] as FromHex>::from_hex(signature)?);
        self.prepare(Key(<[u8; 32] as FromHex>::from_hex(key)?))?;
        Ok(match &self.prepared {
            Some(prepared) => prepared.verify(&self.base, message.as_slice(), &signature),
            None => Ed25519::verify(&self.key, message.as_slice(), &signature),
        })
    }

    /// Takes the key of the next line.
    fn prepare(&mut self, key: Key) -> Result<()> {
        if self.key != key {
            self.key = key;
            self.prepared = None;
        } else if self.prepared.is_none() {
            self.prepared = Some(PreparedKey::of(self.alloc, key)?);
        }
        Ok(())
    }
}
