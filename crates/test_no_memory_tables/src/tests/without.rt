//! Calls that allocate nothing. They are made while all allocations fail.
use super::dags::{ROOM, certificate_of};
use super::plains::{first_eight, has_four};
use super::tables::{missing_counts, put_certified, put_first, want_thrice, wanted};
use super::views::frozen;
use super::*;
use nw_dag::Dag;
use nw_plain::{Base, Plain};
use nw_rounds::Rounds;
use nw_trie::{DigestMap, Trie};
use nw_waiting::Waiting;
use samples::{Blocks, older, shared_block, view_of_both};

/// Whether an insertion of `newer` replaces the trie's block of round 0 and author 0.
fn is_replaced(trie: &mut Blocks, newer: Shared<Block>) -> bool {
    match trie.insert(name(0, 0), newer) {
        Ok(Some(old)) => old.get().round == Round::ZERO,
        _ => false,
    }
}

/// The number of entries that the trie's iterator gives.
fn listed_in(trie: &Blocks) -> usize {
    let mut count = 0_usize;
    for (_digest, _block) in trie.iter() {
        count = count.saturating_add(1);
    }
    count
}

/// Whether the calls that read a trie of three blocks are right. Its first block must be of round 1.
fn is_read(trie: &Blocks) -> bool {
    let first = trie.get(&name(0, 0));
    let is_newer = first.is_some_and(|first| first.get().round == round(1));
    let listed = listed_in(trie) == 3 && trie.len() == 3 && !trie.is_empty();
    is_newer && listed && trie.get(&name(1, 0)).is_none()
}

/// Whether a trie of three blocks gives access to one, removes it, and drops the one below round 1.
fn is_thinned(trie: &mut Blocks) -> bool {
    let (second, third) = (name(0, 1), name(0, 2));
    let lent = trie.get_mut(&second).is_some();
    let removed = trie.remove(&second).is_some() && trie.remove(&second).is_none();
    let dropped = trie.retain_rounds(round(1)) == 1 && trie.get(&third).is_none();
    lent && removed && dropped && trie.len() == 1
}

/// Whether a trie's calls allocate nothing, except the insertion of a new key.
fn tries_pass(alloc: Global) -> Result<bool, NoMemory> {
    let mut trie = retry!(NoMemory, older(alloc, 3, b"x"))?;
    let newer = retry!(
        NoMemory,
        shared_block(alloc, (round(1), 0), Vec::new(alloc), b"y")
    )?;
    fail_allocations(alloc);
    let are_right = is_replaced(&mut trie, newer)
        && is_read(&trie)
        && is_thinned(&mut trie)
        && Trie::<u64, Global>::new_in(alloc).is_empty();
    allow_allocations(alloc);
    Ok(are_right)
}

/// Whether a map's calls allocate nothing, except the insertion of a new key.
fn maps_pass(alloc: Global) -> Result<bool, NoMemory> {
    let (present, absent) = (digest(1, 0), digest(2, 0));
    let mut map = DigestMap::new_in(alloc);
    retry!(NoMemory, map.put(present, 1))?;
    fail_allocations(alloc);
    let replaced = map.put(present, 2).is_ok();
    let read = map.get(&present) == Some(&2) && map.get(&absent).is_none() && map.len() == 1;
    let removed = map.remove(&present) == Some(2) && map.remove(&present).is_none();
    let is_new = DigestMap::<u64, Global>::new_in(alloc).len() == 0;
    allow_allocations(alloc);
    Ok(replaced && read && removed && is_new && map.len() == 0)
}

/// The first and the certified digest of round 3 and author 1.
fn slots_of(rounds: &Rounds<Global>) -> [Option<Digest>; 2] {
    [rounds.first(round(3), 1), rounds.certified(round(3), 1)]
}

/// Whether slots are read and dropped without an allocation.
fn slots_pass(alloc: Global) -> Result<bool, NoMemory> {
    let mut rounds = Rounds::new_in(alloc);
    let are_new = put_first(&mut rounds, 1, digest(1, 0))?
        && put_certified(&mut rounds, 1, digest(2, 0))?;
    fail_allocations(alloc);
    let before = slots_of(&rounds);
    rounds.drop_below(round(4));
    let after = slots_of(&rounds);
    let none = slots_of(&Rounds::new_in(alloc));
    allow_allocations(alloc);
    let is_right = before == [Some(digest(1, 0)), Some(digest(2, 0))] && after == [None, None];
    Ok(are_new && is_right && none == after)
}

/// Whether wanted parents are counted, satisfied and removed without an allocation.
fn holders_pass(alloc: Global) -> Result<bool, NoMemory> {
    let mut waiting = Waiting::new_in(alloc);
    want_thrice(&mut waiting, alloc)?;
    fail_allocations(alloc);
    let before = missing_counts(&waiting);
    let satisfied = waiting.satisfy(&wanted(0, 1)).len();
    let missing = waiting.unwant(digest(8, 0)).len();
    let left = (waiting.count(), Waiting::new_in(alloc).count());
    allow_allocations(alloc);
    Ok(before == [2, 2, 1] && satisfied == 2 && missing == 1 && left == (0, 0))
}

/// A view without generations.
fn view_of_none(alloc: Global, floor: Round) -> View {
    let generations = Vec::new(alloc);
    View::new(generations, floor)
}

/// Whether views are made and read without an allocation.
fn views_pass(alloc: Global) -> Result<bool, NoMemory> {
    let view = retry!(NoMemory, view_of_both(alloc, b"x", round(1)))?;
    let generation = frozen(alloc, retry!(NoMemory, older(alloc, 3, b"x"))?)?;
    fail_allocations(alloc);
    let is_read = view.get(&name(1, 0)).is_some()
        && view.descent().get(None, &name(1, 0)).is_some()
        && (view.floor(), view.parts()) == (round(1), 2);
    let is_found = generation.get(None, &name(0, 2)).is_some();
    let none = view_of_none(alloc, Round::ZERO);
    let is_empty = none.get(&name(1, 0)).is_none() && none.parts() == 0;
    allow_allocations(alloc);
    Ok(is_read && is_found && is_empty)
}

/// A `Dag` with one certified block.
fn store_of_one(alloc: Global) -> Result<Dag, NoMemory> {
    let mut dag = Dag::new(alloc, ROOM);
    let only = shared_block(alloc, (Round::ZERO, 0), Vec::new(alloc), b"x")?;
    dag.write(digest(1, 0), &only)?;
    dag.certify(&certificate_of(alloc, digest(1, 0), (Round::ZERO, 0))?)?;
    Ok(dag)
}

/// Whether a `Dag` is made and gives its status without an allocation.
fn dags_pass(alloc: Global) -> Result<bool, NoMemory> {
    let dag = retry!(NoMemory, store_of_one(alloc))?;
    fail_allocations(alloc);
    let (status, none) = (dag.status(), Dag::new(alloc, ROOM).status());
    let is_complete = dag.is_complete(&digest(1, 0)) && !dag.is_complete(&digest(2, 0));
    allow_allocations(alloc);
    Ok((status.blocks, status.complete, none.blocks) == (1, 1, 0) && is_complete)
}

/// Whether a base of four certified blocks is made, and its entries are found, without an allocation.
fn full_bases_pass(alloc: Global) -> Result<bool, NoMemory> {
    let plain = first_eight(alloc)?;
    fail_allocations(alloc);
    let has_four = has_four(&Base::of(plain));
    allow_allocations(alloc);
    Ok(has_four)
}

/// Whether plain stores and bases are made, and bases read, without an allocation.
fn bases_pass(alloc: Global) -> bool {
    fail_allocations(alloc);
    let base = Base::of(Plain::new(alloc, 64, 64));
    let is_read = base.is_opening()
        && base.floor() == Round::ZERO
        && base.block(&name(0, 0)).is_none()
        && base.certificate(&name(0, 0)).is_none()
        && base.first(Round::ZERO, 0).is_none()
        && base.is_same(&base);
    allow_allocations(alloc);
    is_read
}

#[test]
fn calls_without_allocation(rt: HostRuntime) {
    let alloc = rt.alloc();
    assert_eq!(rt; tries_pass(alloc), Ok(true));
    assert_eq!(rt; maps_pass(alloc), Ok(true));
    assert_eq!(rt; slots_pass(alloc), Ok(true));
    assert_eq!(rt; holders_pass(alloc), Ok(true));
    assert_eq!(rt; views_pass(alloc), Ok(true));
    assert_eq!(rt; dags_pass(alloc), Ok(true));
    assert!(rt; bases_pass(alloc));
    assert_eq!(rt; full_bases_pass(alloc), Ok(true));
}
