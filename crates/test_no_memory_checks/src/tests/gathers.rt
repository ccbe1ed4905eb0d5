//! Gathering votes.
use super::committees::members;
use super::*;
use nw_check::{Counted, FinishFault, Gather, GatherFault, StartFault};
use nw_codec::Vote;
use nw_digest::Digest;
use nw_sig::DemoScheme;
use samples::fallible::vote;

/// Adds the vote of this signer.
fn add(
    gather: &mut Gather<DemoScheme>,
    four: &Committee,
    signer: u16,
) -> Result<Counted, GatherFault> {
    let vote = vote(four, VOTED, SLOT, signer);
    retry!(GatherFault::NoMemory, gather.add(&vote))
}

/// Asks the gatherer for its certificate. Returns whether the signers are 0, 1 and 2.
fn finished(alloc: Global, gather: &Gather<DemoScheme>) -> Result<bool, FinishFault> {
    let checked = retry!(FinishFault::NoMemory, gather.finish(alloc))?;
    let has_three = match checked.certificate().get().votes.as_slice() {
        [one, two, three] => [one.signer, two.signer, three.signer] == [0, 1, 2],
        _ => false,
    };
    drop(checked);
    Ok(has_three)
}

/// The results of `add` for each of five votes, each with the result of `finish` after it.
type Gathered = [(Result<Counted, GatherFault>, Result<bool, FinishFault>); 5];

/// A new gatherer.
fn gatherer(alloc: Global, four: &Shared<Committee>) -> Result<Gather<DemoScheme>, StartFault> {
    retry!(
        StartFault::NoMemory,
        Gather::new(alloc, four, VOTED, Round::ZERO, 0)
    )
}

/// The results of a new gatherer for votes of these signers.
fn gathered(
    alloc: Global,
    four: &Shared<Committee>,
    signers: [u16; 5],
) -> Result<Gathered, StartFault> {
    let mut gather = gatherer(alloc, four)?;
    let answers = signers.map(|signer| {
        let counted = add(&mut gather, four.get(), signer);
        (counted, finished(alloc, &gather))
    });
    drop(gather);
    Ok(answers)
}

/// The committee of four, made from members of weight 1.
fn weighted_four(alloc: Global) -> Result<Shared<Committee>, NoMemory> {
    match Committee::weighted(members(alloc, &[1; 4], 3)?) {
        Ok(four) => Shared::new(alloc, four),
        Err(_) => Err(NoMemory),
    }
}

#[test]
fn votes_are_gathered_to_a_quorum(rt: HostRuntime) -> Result<(), Fail> {
    let wanted = [
        (Ok(Counted::Counted), Err(FinishFault::FewVotes)),
        (Ok(Counted::Counted), Err(FinishFault::FewVotes)),
        (Err(GatherFault::Repeated), Err(FinishFault::FewVotes)),
        (Ok(Counted::Quorum), Ok(true)),
        (Err(GatherFault::Signer), Ok(true)),
    ];
    for is_weighted in [false, true] {
        let four = match is_weighted {
            false => four(rt.alloc())?,
            true => retry!(NoMemory, weighted_four(rt.alloc()))?,
        };
        let answers = gathered(rt.alloc(), &four, [0, 1, 1, 2, 9]);
        drop(four);
        assert_eq!(rt; answers?, wanted);
    }
    Ok(())
}

/// Votes that do not count after that of member 0. Three are for another digest, another round and another author. The others are a
/// second vote of member 0, a vote of no member, and a vote of member 2 with the signature of member 1.
fn uncounted(four: &Committee) -> [Vote; 6] {
    let (other, later) = (Digest([8; 32]), Round::new(1).unwrap_or(Round::ZERO));
    let mut forged = vote(four, VOTED, SLOT, 1);
    forged.signer = 2;
    [
        vote(four, other, SLOT, 0),
        vote(four, VOTED, (later, 0), 1),
        vote(four, VOTED, (Round::ZERO, 1), 1),
        vote(four, VOTED, SLOT, 0),
        vote(four, VOTED, SLOT, 4),
        forged,
    ]
}

/// Faults of `add` for six votes, of `finish`, and of `new`.
type Refused = (
    [Option<GatherFault>; 6],
    Option<FinishFault>,
    Option<StartFault>,
);

/// The faults of a gatherer that counted the vote of member 0, and of a new one for a block whose author is no member, while all
/// allocations fail.
fn refused_votes(alloc: Global, four: &Shared<Committee>) -> Result<Refused, Fail> {
    let mut gather = gatherer(alloc, four)?;
    let counted = add(&mut gather, four.get(), 0);
    let votes = uncounted(four.get());
    fail_allocations(alloc);
    let faults = votes.map(|vote| gather.add(&vote).err());
    let unfinished = gather.finish(alloc).err();
    let unstarted = Gather::<DemoScheme>::new(alloc, four, VOTED, Round::ZERO, 4).err();
    allow_allocations(alloc);
    drop(gather);
    counted?;
    Ok((faults, unfinished, unstarted))
}

#[test]
fn each_bad_vote_gets_its_fault(rt: HostRuntime) -> Result<(), Fail> {
    let four = four(rt.alloc())?;
    let refused = refused_votes(rt.alloc(), &four);
    drop(four);
    let (faults, unfinished, unstarted) = refused?;
    let wanted = [
        GatherFault::OtherBlock,
        GatherFault::OtherBlock,
        GatherFault::OtherBlock,
        GatherFault::Repeated,
        GatherFault::Signer,
        GatherFault::Signature,
    ];
    assert_eq!(rt; faults, wanted.map(Some));
    assert_eq!(rt; unfinished, Some(FinishFault::FewVotes));
    assert_eq!(rt; unstarted, Some(StartFault::Author));
    Ok(())
}
