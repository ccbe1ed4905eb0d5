mod edges;
mod signed;
mod standard;

use hex::{FromHex, FromHexError};
use nw_check::Verifier;
use nw_codec::Signature;
use nw_committee::{Committee, Key, Member};
use nw_digest::Shared;
use nw_ed25519::Ed25519;
use nw_prepared::PreparedCommittee;
use nw_sig::Scheme;
use std::alloc::Global;
use std::test::Fail;

/// A key, a message and a signature (R and S) in hex, and whether the signature is accepted.
struct Case {
    key: &'static str,
    message: &'static str,
    r: &'static str,
    s: &'static str,
    accepted: bool,
}

/// R of the first case whose result is wrong, if there is one: by the scheme, or by a prepared committee that has all keys.
fn first_wrong(alloc: Global, cases: &[Case]) -> Result<Option<&'static str>, Fail> {
    let keys = keys_of(alloc, cases)?;
    let prepared = prepared(alloc, &keys)?;
    for case in cases {
        let key = key_of(case.key)?;
        let number = u16::try_from(keys.iter().position(|it| *it == key).unwrap_or(0))?;
        if !is_right(alloc, case, &key, &prepared, number)? {
            return Ok(Some(case.r));
        }
    }
    Ok(None)
}

/// Whether the key gives the result of the case, prepared and not.
fn is_right(
    alloc: Global,
    case: &Case,
    key: &Key,
    prepared: &PreparedCommittee,
    number: u16,
) -> Result<bool, Fail> {
    let message = hex::decode(alloc, case.message)?;
    let mut bytes = [0; 64];
    hex::decode_to_slice(case.r, &mut bytes[..32])?;
    hex::decode_to_slice(case.s, &mut bytes[32..])?;
    let signature = Signature(bytes);
    let prepared = prepared.is_signed_by(number, message.as_slice(), &signature);
    let accepted = Ed25519::verify(key, message.as_slice(), &signature);
    Ok(accepted == case.accepted && prepared == case.accepted)
}

/// The key with these digits.
fn key_of(digits: &str) -> Result<Key, FromHexError> {
    Ok(Key(<[u8; 32] as FromHex>::from_hex(digits)?))
}

/// The keys of the cases, each once.
fn keys_of(alloc: Global, cases: &[Case]) -> Result<Vec<Key>, Fail> {
    let mut keys = Vec::new(alloc);
    for case in cases {
        let key = key_of(case.key)?;
        if !keys.contains(&key) {
            keys.push(key)?;
        }
    }
    Ok(keys)
}

/// The prepared committee of members with these keys.
fn prepared(alloc: Global, keys: &[Key]) -> Result<PreparedCommittee, Fail> {
    let members = keys
        .iter()
        .map(|key| Member {
            key: *key,
            weight: 1,
        })
        .collect(alloc)?;
    let committee = Committee::weighted(members)?;
    Ok(PreparedCommittee::new(alloc, Shared::new(alloc, committee)?)?)
}
