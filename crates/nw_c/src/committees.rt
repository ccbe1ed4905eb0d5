//! Making and reading committees.
ghost use Rattle.std.specs.Prelude.{◌≡◌, ◌∷◌, [], pos, map, IfOk, IfErr, true, false};
ghost use Rattle.nw_committee.specs.Committee.{IsCommittee as IsValid};
ghost use Rattle.nw_c.specs.Committees.{AreOneCommittee, HasMember, HasQuorum, HasSize, IsCommitteeOf, LacksMember, member_in};
ghost use Rattle.nw_c.specs.Kinds.{IsUnchanged, HoldsCommittee};
ghost use Rattle.nw_c.specs.Codes.{IsFirstUnmet, IsOneOf};
ghost use Rattle.nw_c.specs.declared.codes.TheConstants.{ABSENT, BAD_COMMITTEE, CLOSED, DONE, NO_MEMORY, OPEN, OTHER_KIND};
ghost use Rattle.nw_c.specs.declared.content.Content.TheVariants as kind;

use crate::codes::{ABSENT, BAD_COMMITTEE, CLOSED, DONE, NO_MEMORY, OPEN, OTHER_KIND};
use crate::content::Content;
use crate::handle::{CommitteeHandle, Handle, put};
use nw_committee::{Committee, Key, MAX_MEMBERS, Member};
use nw_digest::{NoMemory, Shared};
use nw_prepared::PreparedCommittee;
use std::alloc::Global;

/// A member of a committee: an Ed25519 public key of 32 bytes and a weight from 1 to 1,000,000.
#[repr(C)]
#[derive(Clone, Copy)]
pub struct CMember {
    pub key: [u8; 32],
    pub weight: u32,
}

/// The members in the caller's array.
fn members_of(alloc: Global, listed: &[CMember]) -> Result<Vec<Member>, NoMemory>
    ensures { IfOk result (λ members. members.items ≡ map member_in listed.now) }
{
    Ok(
        listed
            .iter()
            .map(|member| Member {
                key: Key(member.key),
                weight: member.weight,
            })
            .collect(alloc)?,
    )
}

/// The committee of these members. The error is the code to return.
fn committee_of(alloc: Global, listed: &[CMember]) -> Result<Shared<Committee>, i32>
    ensures made { IfOk result (λ committee. committee ≡ map member_in listed.now) }
    ensures named { IfErr result (IsOneOf (NO_MEMORY ∷ BAD_COMMITTEE ∷ [])) }
    ensures bad_committee { IfErr result
        (λ why. why ≡ BAD_COMMITTEE → IsValid (map member_in listed.now) → ⊥) }
{
    // Before anything is copied.
    if listed.len() > MAX_MEMBERS {
        return Err(BAD_COMMITTEE);
    }
    let Ok(members) = members_of(alloc, listed) else {
        return Err(NO_MEMORY);
    };
    let Ok(committee) = Committee::weighted(members) else {
        return Err(BAD_COMMITTEE);
    };
    match Shared::new(alloc, committee) {
        Ok(committee) => Ok(committee),
        Err(_) => Err(NO_MEMORY),
    }
}

/// Prepares the committee, and opens a closed handle with it. If memory runs out, the handle stays closed.
pub(crate) fn put_prepared(alloc: Global, out: &mut Handle, committee: Shared<Committee>) -> i32
    requires { out.old.held ≡ false }
    ensures held { result ≡ pos 0 → out.new.held ≡ true }
    ensures value { result ≡ pos 0 → out.new.value ≡ kind.Committee committee }
    ensures unchanged { (result ≡ pos 0 → ⊥) → IsUnchanged out.old out.new }
    ensures refused { (result ≡ pos 0 → ⊥) → result ≡ NO_MEMORY }
{
    match prepared(alloc, committee) {
        Ok(prepared) => put(alloc, out, Content::Committee(prepared)),
        Err(_) => NO_MEMORY,
    }
}

/// The committee with prepared keys, to be shared.
fn prepared(
    alloc: Global,
    committee: Shared<Committee>,
) -> Result<Shared<PreparedCommittee>, NoMemory>
    ensures { IfOk result (λ prepared. prepared ≡ committee) }
{
    Shared::new(alloc, PreparedCommittee::new(alloc, committee)?)
}

/// Makes a committee of 1 to 100 members. A member's number is its index in the array. Returns `NW_BAD_COMMITTEE` if there are too few or
/// too many members, a weight is out of range, or a key is repeated.
///
/// It prepares the members' keys, with which checks and gatherings take less than half the time. This costs 24 KiB of memory for each member
/// and 384 KiB once, and 20 to 40 ms for 100 members. All handles of `nw_committee_share` have the same prepared keys.
#[unsafe(no_mangle)]
pub extern "C" fn nw_committee_new(
    alloc: Global,
    members: &[CMember],
    out: &mut CommitteeHandle,
) -> i32
    ensures made { result ≡ pos 0 → IsCommitteeOf members.now out.new.value }
    ensures unchanged { (result ≡ pos 0 → ⊥) → IsUnchanged out.old out.new }
    ensures opened { result ≡ pos 0 → out.new.held ≡ true }
    ensures bad_committee { result ≡ BAD_COMMITTEE → IsValid (map member_in members.now) → ⊥ }
    ensures code { IsFirstUnmet ((OPEN, out.old.held ≡ false) ∷ []) (DONE ∷ NO_MEMORY ∷ BAD_COMMITTEE ∷ []) result }
{
    if out.is_open() {
        return OPEN;
    }
    match committee_of(alloc, members) {
        Ok(committee) => put_prepared(alloc, out, committee),
        Err(why) => why,
    }
}

/// Opens a second handle of the committee, which another thread can use. Both handles share the members.
#[unsafe(no_mangle)]
pub extern "C" fn nw_committee_share(
    alloc: Global,
    committee: &mut CommitteeHandle,
    out: &mut CommitteeHandle,
) -> i32
    ensures shared { result ≡ pos 0 → AreOneCommittee committee.old.value out.new.value }
    ensures same { IsUnchanged committee.old committee.new }
    ensures unchanged { (result ≡ pos 0 → ⊥) → IsUnchanged out.old out.new }
    ensures opened { result ≡ pos 0 → out.new.held ≡ true }
    ensures code { IsFirstUnmet
        ((CLOSED, committee.old.held ≡ true) ∷ (OPEN, out.old.held ≡ false) ∷ (OTHER_KIND, HoldsCommittee committee.old.value) ∷ [])
        (DONE ∷ NO_MEMORY ∷ []) result }
{
    if !committee.is_open() {
        return CLOSED;
    }
    if out.is_open() {
        return OPEN;
    }
    match committee.lend() {
        Content::Committee(members) => match members.try_clone() {
            Ok(members) => put(alloc, out, Content::Committee(members)),
            Err(_) => NO_MEMORY,
        },
        _ => OTHER_KIND,
    }
}

/// Writes the number of members.
#[unsafe(no_mangle)]
pub extern "C" fn nw_committee_size(committee: &mut CommitteeHandle, out: &mut usize) -> i32
    ensures size { result ≡ pos 0 → HasSize committee.old.value out.new }
    ensures same { IsUnchanged committee.old committee.new }
    ensures unchanged { (result ≡ pos 0 → ⊥) → out.new ≡ out.old }
    ensures code { IsFirstUnmet
        ((CLOSED, committee.old.held ≡ true) ∷ (OTHER_KIND, HoldsCommittee committee.old.value) ∷ [])
        (DONE ∷ []) result }
{
    if !committee.is_open() {
        return CLOSED;
    }
    match committee.lend() {
        Content::Committee(members) => {
            *out = members.get().committee().get().size();
            DONE
        }
        _ => OTHER_KIND,
    }
}

/// Writes the key and the weight of the member with this number. Returns `NW_ABSENT` if there is no such member.
#[unsafe(no_mangle)]
pub extern "C" fn nw_committee_member(
    committee: &mut CommitteeHandle,
    number: u16,
    out: &mut CMember,
) -> i32
    ensures member { result ≡ pos 0 → HasMember committee.old.value number out.new }
    ensures same { IsUnchanged committee.old committee.new }
    ensures unchanged { (result ≡ pos 0 → ⊥) → out.new ≡ out.old }
    ensures code { IsFirstUnmet
        ((CLOSED, committee.old.held ≡ true) ∷ (OTHER_KIND, HoldsCommittee committee.old.value) ∷ (ABSENT, LacksMember committee.old.value number → ⊥) ∷ [])
        (DONE ∷ []) result }
{
    if !committee.is_open() {
        return CLOSED;
    }
    let Content::Committee(members) = committee.lend() else {
        return OTHER_KIND;
    };
    let members = members.get().committee().get();
    match (members.key(number), members.weight(number)) {
        (Some(key), Some(weight)) => {
            *out = CMember { key: key.0, weight };
            DONE
        }
        _ => ABSENT,
    }
}

/// Writes the quorum: the least weight that is more than two thirds of the total weight.
#[unsafe(no_mangle)]
pub extern "C" fn nw_committee_quorum(committee: &mut CommitteeHandle, out: &mut u32) -> i32
    ensures quorum { result ≡ pos 0 → HasQuorum committee.old.value out.new }
    ensures same { IsUnchanged committee.old committee.new }
    ensures unchanged { (result ≡ pos 0 → ⊥) → out.new ≡ out.old }
    ensures code { IsFirstUnmet
        ((CLOSED, committee.old.held ≡ true) ∷ (OTHER_KIND, HoldsCommittee committee.old.value) ∷ [])
        (DONE ∷ []) result }
{
    if !committee.is_open() {
        return CLOSED;
    }
    match committee.lend() {
        Content::Committee(members) => {
            *out = members.get().committee().get().quorum();
            DONE
        }
        _ => OTHER_KIND,
    }
}
