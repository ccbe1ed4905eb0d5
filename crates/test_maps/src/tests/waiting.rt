//! Wanted parents and the holders that are missing them.
use super::*;
use nw_model::Wanted;
use nw_waiting::Waiting;
use std::collections::BTreeSet;

/// Wanted parents, each with a holder that is missing it.
type Pairs = BTreeSet<(Wanted, Digest)>;

/// The wanted parents of the pairs, ascending and each once.
fn wanted_in(alloc: Global, pairs: &Pairs) -> Result<Vec<Wanted>, NoMemory> {
    let mut wanted = BTreeSet::new(alloc);
    for pair in pairs {
        wanted.insert(pair.0)?;
    }
    Ok(wanted.into_iter().collect(alloc)?)
}

/// Satisfies the parent in both. Returns whether both had the same holders.
fn satisfy_in_both(
    alloc: Global,
    waiting: &mut Waiting<Global>,
    pairs: &mut Pairs,
    wanted: Wanted,
) -> Result<bool, NoMemory> {
    let mut expected = Vec::new(alloc);
    for pair in pairs.iter() {
        if pair.0 == wanted {
            expected.push(pair.1)?;
        }
    }
    let mut holders = waiting.satisfy(&wanted);
    holders.sort()?;
    pairs.retain(|pair| pair.0 != wanted);
    Ok(holders.as_slice() == expected.as_slice())
}

/// Removes the missing parents of the holder from both. Returns whether both had the same.
fn unwant_in_both(
    alloc: Global,
    waiting: &mut Waiting<Global>,
    pairs: &mut Pairs,
    holder: Digest,
) -> Result<bool, NoMemory> {
    let mut expected = Vec::new(alloc);
    for pair in pairs.iter() {
        if pair.1 == holder {
            expected.push(pair.0)?;
        }
    }
    let mut missing = waiting.unwant(holder);
    missing.sort()?;
    pairs.retain(|pair| pair.1 != holder);
    Ok(missing.as_slice() == expected.as_slice())
}

/// Whether both have the same first wanted parents, and the same numbers of wanted parents and of the holder's missing ones.
fn are_same(
    alloc: Global,
    waiting: &Waiting<Global>,
    pairs: &Pairs,
    holder: Digest,
    most: u16,
) -> Result<bool, NoMemory> {
    let missing = pairs.iter().filter(|pair| pair.1 == holder).count();
    let mut expected = wanted_in(alloc, pairs)?;
    let count = expected.len();
    expected.truncate(usize::from(most));
    Ok(
        waiting.first_wanted(alloc, most)?.as_slice() == expected.as_slice()
            && waiting.count() == count
            && waiting.lacks(holder) == missing,
    )
}

/// One of 64 wanted parents, and one of 8 holders.
fn random_pair(word: u32) -> Result<(Wanted, Digest), NoMemory> {
    let wanted = Wanted {
        round: round(u64::from(word % 8))?,
        author: (word / 8 % 2) as u16,
        digest: digest((word / 16 % 4) as u8, 0),
    };
    Ok((wanted, digest((word / 64 % 8) as u8, 0)))
}

/// Takes the step that the word selects. Returns whether the answers are equal.
fn step(
    alloc: Global,
    waiting: &mut Waiting<Global>,
    pairs: &mut Pairs,
    word: u32,
) -> Result<bool, NoMemory> {
    let (wanted, holder) = random_pair(word)?;
    let mut answered = true;
    match word / 512 % 64 {
        0 => answered = unwant_in_both(alloc, waiting, pairs, holder)?,
        1..9 => answered = satisfy_in_both(alloc, waiting, pairs, wanted)?,
        _ => {
            waiting.want(wanted, holder)?;
            pairs.insert((wanted, holder))?;
        }
    }
    let most = (word / 32_768 % 32) as u16;
    let is_wanted = pairs.iter().any(|pair| pair.0 == wanted);
    answered &= waiting.is_wanted(&wanted) == is_wanted;
    Ok(answered && are_same(alloc, waiting, pairs, holder, most)?)
}

#[test]
fn wanted_parents_match_an_ordered_set_over_random_steps(rt: HostRuntime) {
    let mut waiting = Waiting::new_in(rt.alloc());
    let mut pairs = BTreeSet::new(rt.alloc());
    let mut random = Pcg32::new(1, 1);
    for _ in 0..4_000 {
        let word = random.next_word();
        let same = step(rt.alloc(), &mut waiting, &mut pairs, word);
        assert!(rt; matches!(same, Ok(true)));
    }
}
