//! Gathering votes into a certificate.
ghost use Rattle.std.specs.Prelude.{◌≡◌, ◌^◌, ◌∷◌, ◌<◌, [], pos, true, false};
ghost use Rattle.nw_ed25519.specs.Accepts.{accepts};
ghost use Rattle.nw_check.specs.declared.fault.GatherFault.{GatherFault as Fault};
ghost use Rattle.nw_c.specs.Committees.{LacksMember};
ghost use Rattle.nw_c.specs.Gathers.{HasFewVotes, IsCertificateOf, IsCountedIn, IsNewGather, IsNotCounted};
ghost use Rattle.nw_c.specs.Kinds.{IsUnchanged, HoldsCommittee, HoldsGather, HoldsVote};
ghost use Rattle.nw_c.specs.Codes.{IsFirstUnmet, gather_code};
ghost use Rattle.nw_c.specs.declared.codes.TheConstants.{BAD_ROUND, BAD_SIGNATURE, CLOSED, DONE, FEW_VOTES, NO_MEMBER, NO_MEMORY, OPEN, OTHER_BLOCK, OTHER_KIND, REPEATED};

use crate::codes::{
    BAD_ROUND, CLOSED, DONE, FEW_VOTES, NO_MEMBER, NO_MEMORY, OPEN, OTHER_KIND, code_of_vote,
};
use crate::content::Content;
use crate::handle::{CheckedHandle, CommitteeHandle, GatherHandle, put};
use crate::plain::CSubject;
use nw_check::{Checked, Counted, FinishFault, StartFault};
use nw_prepared::PreparedGather;
use std::alloc::Global;

/// Starts to gather votes for the block of this subject. Returns `NW_BAD_ROUND` if the round is not below 2^48, and `NW_NO_MEMBER` if the
/// author is not a member.
#[unsafe(no_mangle)]
pub extern "C" fn nw_gather_new(
    alloc: Global,
    committee: &mut CommitteeHandle,
    subject: &CSubject,
    out: &mut GatherHandle,
) -> i32
    ensures new { result ≡ pos 0 → IsNewGather committee.old.value subject.now out.new.value }
    ensures same { IsUnchanged committee.old committee.new }
    ensures unchanged { (result ≡ pos 0 → ⊥) → IsUnchanged out.old out.new }
    ensures opened { result ≡ pos 0 → out.new.held ≡ true }
    ensures code { IsFirstUnmet
        ((CLOSED, committee.old.held ≡ true) ∷ (OPEN, out.old.held ≡ false) ∷ (OTHER_KIND, HoldsCommittee committee.old.value) ∷ (BAD_ROUND, subject.now.round < 2 ^ 48) ∷ (NO_MEMBER, LacksMember committee.old.value subject.now.author → ⊥) ∷ [])
        (DONE ∷ NO_MEMORY ∷ []) result }
{
    if !committee.is_open() {
        return CLOSED;
    }
    if out.is_open() {
        return OPEN;
    }
    let Content::Committee(members) = committee.lend() else {
        return OTHER_KIND;
    };
    let Some(subject) = subject.get() else {
        return BAD_ROUND;
    };
    match PreparedGather::new(
        alloc,
        members,
        subject.digest,
        subject.round,
        subject.author,
    ) {
        Ok(gather) => put(alloc, out, Content::Gather(gather)),
        Err(StartFault::Author) => NO_MEMBER,
        Err(StartFault::NoMemory) => NO_MEMORY,
    }
}

/// Checks the signature of the vote and counts the vote. Writes to `quorum` whether the counted votes reach the quorum. Refuses a vote with the
/// first of `NW_OTHER_BLOCK`, `NW_REPEATED`, `NW_NO_MEMBER`, `NW_BAD_SIGNATURE` and `NW_NO_MEMORY` that applies, and then changes nothing.
/// Returns `NW_OTHER_KIND` if the checked text is not a vote.
#[unsafe(no_mangle)]
pub extern "C" fn nw_gather_add(
    gather: &mut GatherHandle,
    vote: &mut CheckedHandle,
    quorum: &mut bool,
) -> i32
    ensures counted { result ≡ pos 0 → IsCountedIn accepts gather.old.value vote.old.value
        gather.new.value quorum.new }
    ensures refused { (why : Fault) → result ≡ gather_code why
        → IsNotCounted accepts gather.old.value vote.old.value why }
    ensures unchanged { (result ≡ pos 0 → ⊥) → IsUnchanged gather.old gather.new }
    ensures same { IsUnchanged vote.old vote.new }
    ensures stays { gather.new.held ≡ gather.old.held }
    ensures out { (result ≡ pos 0 → ⊥) → quorum.new ≡ quorum.old }
    ensures code { IsFirstUnmet
        ((CLOSED, (gather.old.held ≡ true) × (vote.old.held ≡ true)) ∷ (OTHER_KIND, HoldsGather gather.old.value × HoldsVote vote.old.value) ∷ [])
        (DONE ∷ OTHER_BLOCK ∷ REPEATED ∷ NO_MEMBER ∷ BAD_SIGNATURE ∷ NO_MEMORY ∷ []) result }
{
    if !gather.is_open() || !vote.is_open() {
        return CLOSED;
    }
    match (gather.lend(), vote.lend()) {
        (Content::Gather(gather), Content::Checked(Checked::Vote(vote))) => match gather.add(vote) {
            Ok(counted) => {
                *quorum = counted == Counted::Quorum;
                DONE
            }
            Err(why) => code_of_vote(why),
        },
        _ => OTHER_KIND,
    }
}

/// Makes the certificate of the counted votes and opens a handle of it, as a checked text. Returns `NW_FEW_VOTES` if the votes do not reach
/// the quorum. More votes can be added afterwards.
#[unsafe(no_mangle)]
pub extern "C" fn nw_gather_certificate(
    alloc: Global,
    gather: &mut GatherHandle,
    out: &mut CheckedHandle,
) -> i32
    ensures certificate { result ≡ pos 0 → IsCertificateOf gather.old.value out.new.value }
    ensures same { IsUnchanged gather.old gather.new }
    ensures unchanged { (result ≡ pos 0 → ⊥) → IsUnchanged out.old out.new }
    ensures opened { result ≡ pos 0 → out.new.held ≡ true }
    ensures code { IsFirstUnmet
        ((CLOSED, gather.old.held ≡ true) ∷ (OPEN, out.old.held ≡ false) ∷ (OTHER_KIND, HoldsGather gather.old.value) ∷ (FEW_VOTES, HasFewVotes gather.old.value → ⊥) ∷ [])
        (DONE ∷ NO_MEMORY ∷ []) result }
{
    if !gather.is_open() {
        return CLOSED;
    }
    if out.is_open() {
        return OPEN;
    }
    match gather.lend() {
        Content::Gather(gather) => match gather.finish(alloc) {
            Ok(certificate) => put(alloc, out, Content::Checked(Checked::Cert(certificate))),
            Err(FinishFault::FewVotes) => FEW_VOTES,
            Err(FinishFault::NoMemory) => NO_MEMORY,
        },
        _ => OTHER_KIND,
    }
}
