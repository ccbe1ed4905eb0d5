//! Examples of the tables: a trie, a map, slots, and wanted parents.
use super::*;
use nw_model::Wanted;
use nw_rounds::Rounds;
use nw_trie::{DigestMap, Trie};
use nw_waiting::Waiting;

/// Inserts the value. If memory runs out, inserts the value that the first attempt returned.
fn insert(trie: &mut Trie<u64, Global>, key: Digest, value: u64) -> Result<Option<u64>, NoMemory> {
    retry!((NoMemory, value), trie.insert(key, value)).map_err(|_refused| NoMemory)
}

/// Whether the trie has exactly these entries, in order.
fn has(trie: &Trie<u64, Global>, entries: &[(Digest, u64)]) -> bool {
    for ((key, value), entry) in trie.iter().zip(entries) {
        if (*key, *value) != *entry {
            return false;
        }
    }
    trie.len() == entries.len()
}

#[test]
fn a_trie_of_three_keys(rt: HostRuntime) {
    let (k1, k2, k3) = (digest(0, 0), digest(0, 1), digest(128, 0));
    let mut trie = Trie::new_in(rt.alloc());
    for (key, value) in [(k1, 1), (k2, 2), (k3, 3)] {
        assert_eq!(rt; insert(&mut trie, key, value), Ok(None));
    }
    assert_eq!(rt; insert(&mut trie, k1, 9), Ok(Some(1)));
    assert!(rt; has(&trie, &[(k1, 9), (k2, 2), (k3, 3)]));
    assert_eq!(rt; trie.remove(&k2), Some(2));
    assert_eq!(rt; trie.len(), 2);
}

#[test]
fn a_map_of_three_keys(rt: HostRuntime) {
    let (k1, k2, k3) = (digest(0, 0), digest(0, 1), digest(128, 0));
    let mut map = DigestMap::new_in(rt.alloc());
    for (key, value) in [(k1, 1), (k2, 2), (k3, 3), (k1, 9)] {
        assert_eq!(rt; retry!(NoMemory, map.put(key, value)), Ok(()));
    }
    assert_eq!(rt; map.len(), 3);
    for (key, value) in [(k1, 9), (k2, 2), (k3, 3)] {
        assert_eq!(rt; map.get(&key).copied(), Some(value));
        assert_eq!(rt; map.remove(&key), Some(value));
    }
    assert_eq!(rt; map.len(), 0);
}

/// Makes the digest the first of round 3 and the author. Returns `false` if there is one already.
pub(super) fn put_first(
    rounds: &mut Rounds<Global>,
    author: u16,
    digest: Digest,
) -> Result<bool, NoMemory> {
    if rounds.first(round(3), author).is_some() {
        return Ok(false);
    }
    retry!(NoMemory, rounds.put_first(round(3), author, digest))?;
    Ok(true)
}

/// Certifies the digest for round 3 and the author. Returns `false` if one is certified already.
pub(super) fn put_certified(
    rounds: &mut Rounds<Global>,
    author: u16,
    digest: Digest,
) -> Result<bool, NoMemory> {
    if rounds.certified(round(3), author).is_some() {
        return Ok(false);
    }
    retry!(NoMemory, rounds.put_certified(round(3), author, digest))?;
    Ok(true)
}

/// The digests of round 3, ascending: the first and the certified digest of each of its authors.
fn digests_of_round(rounds: &Rounds<Global>, alloc: Global) -> Result<Vec<Digest>, NoMemory> {
    let mut digests = Vec::with_capacity(alloc, 4)?;
    for author in rounds.authors(alloc, round(3))? {
        digests.extend(rounds.first(round(3), author))?;
        digests.extend(rounds.certified(round(3), author))?;
    }
    digests.sort()?;
    Ok(digests)
}

/// Whether round 3 has exactly these authors and digests, and all rounds up to it together have these digests.
fn is_listed(
    rounds: &Rounds<Global>,
    alloc: Global,
    authors: &[u16],
    digests: &[Digest],
) -> Result<bool, NoMemory> {
    let by = retry!(NoMemory, rounds.authors(alloc, round(3)))?;
    let own = retry!(NoMemory, digests_of_round(rounds, alloc))?;
    let lower = retry!(NoMemory, rounds.digests_up_to(alloc, round(3)))?;
    Ok(by.as_slice() == authors && [own.as_slice(), lower.as_slice()] == [digests; 2])
}

#[test]
fn slots(rt: HostRuntime) {
    let (x, y) = (digest(7, 0), digest(8, 0));
    let mut rounds = Rounds::new_in(rt.alloc());
    assert_eq!(rt; put_first(&mut rounds, 1, x), Ok(true));
    assert_eq!(rt; put_certified(&mut rounds, 1, y), Ok(true));
    let found = [
        rounds.first(round(3), 1),
        rounds.certified(round(3), 1),
        rounds.first(round(3), 2),
    ];
    assert_eq!(rt; found, [Some(x), Some(y), None]);
}

#[test]
fn slots_of_a_round_and_below_it(rt: HostRuntime) {
    let [d1, d2, d3] = [1, 2, 3].map(|first| digest(first, 0));
    let mut rounds = Rounds::new_in(rt.alloc());
    assert_eq!(rt; put_first(&mut rounds, 1, d2), Ok(true));
    assert_eq!(rt; put_first(&mut rounds, 2, d1), Ok(true));
    assert_eq!(rt; put_certified(&mut rounds, 1, d3), Ok(true));
    assert_eq!(rt;
        is_listed(&rounds, rt.alloc(), &[1, 2], &[d1, d2, d3]),
        Ok(true)
    );
    rounds.drop_below(round(4));
    assert_eq!(rt; is_listed(&rounds, rt.alloc(), &[], &[]), Ok(true));
    assert_eq!(rt; rounds.first(round(3), 1), None);
}

/// A wanted parent of round 0 and the author, whose digest begins with this byte.
pub(super) fn wanted(author: u16, first: u8) -> Wanted {
    Wanted {
        round: Round::ZERO,
        author,
        digest: digest(first, 0),
    }
}

/// Adds two wanted parents of two holders, with three calls. Returns the first wanted parent.
pub(super) fn want_thrice(
    waiting: &mut Waiting<Global>,
    alloc: Global,
) -> Result<Vec<Wanted>, NoMemory> {
    let (u, v, h1, h2) = (wanted(0, 1), wanted(1, 2), digest(8, 0), digest(9, 0));
    retry!(NoMemory, waiting.want(u, h1))?;
    retry!(NoMemory, waiting.want(v, h1))?;
    retry!(NoMemory, waiting.want(u, h2))?;
    retry!(NoMemory, waiting.first_wanted(alloc, 1))
}

/// The number of wanted parents, and how many each holder is missing.
pub(super) fn missing_counts(waiting: &Waiting<Global>) -> [usize; 3] {
    [
        waiting.count(),
        waiting.lacks(digest(8, 0)),
        waiting.lacks(digest(9, 0)),
    ]
}

#[test]
fn holders_of_a_wanted_parent(rt: HostRuntime) {
    let mut waiting = Waiting::new_in(rt.alloc());
    let first = want_thrice(&mut waiting, rt.alloc()).expect(&rt, "allocation succeeds");
    assert_eq!(rt; first.as_slice(), [wanted(0, 1)].as_slice());
    assert_eq!(rt; missing_counts(&waiting), [2, 2, 1]);
    let holders = waiting.satisfy(&wanted(0, 1));
    assert_eq!(rt; holders.as_slice(), [digest(8, 0), digest(9, 0)].as_slice());
    assert_eq!(rt; missing_counts(&waiting), [1, 1, 0]);
    let missing = waiting.unwant(digest(8, 0));
    assert_eq!(rt; missing.as_slice(), [wanted(1, 2)].as_slice());
    assert_eq!(rt; missing_counts(&waiting), [0, 0, 0]);
    let last = retry!(NoMemory, waiting.first_wanted(rt.alloc(), 5));
    assert!(rt; last.is_ok_and(|wanted| wanted.is_empty()));
}
