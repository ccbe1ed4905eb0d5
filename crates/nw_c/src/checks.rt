//! Decoding and checking texts.
ghost use Rattle.std.specs.Prelude.{◌≡◌, ◌∷◌, ◌≤◌, [], pos, take, true, length, slice_get, IfSome, IsNone, Some, None, false};
ghost use Rattle.nw_codec.specs.Fits.{signers};
ghost use Rattle.nw_ed25519.specs.Accepts.{accepts};
ghost use Rattle.nw_c.specs.Checks.{HasNoSignerAt, HasSignerAt, IsBlockOf, IsCheckOf, IsSpelledBy, EncodesMessageOf};
ghost use Rattle.nw_c.specs.Kinds.{HoldsMessage, IsUnchanged, HoldsChecked, HoldsCheckedBlock, HoldsCheckedCert, HoldsCommittee};
ghost use Rattle.nw_c.specs.Plain.{IsTooLong};
ghost use Rattle.nw_c.specs.Codes.{IsFirstUnmet};
ghost use Rattle.nw_c.specs.declared.codes.TheConstants.{ABSENT, CLOSED, DONE, NO_MEMORY, OPEN, OTHER_KIND, SMALL};

use crate::codes::{ABSENT, CLOSED, DONE, NO_MEMORY, OPEN, OTHER_KIND};
use crate::content::Content;
use crate::handle::{BlockHandle, CheckedHandle, CommitteeHandle, put};
use crate::hashed::HashedBlock;
use crate::messages::{CMessage, message_of};
use crate::texts::{hand_out_block, hand_out_certificate, hand_out_vote};
use nw_check::{Checked, CheckedCert, check_message_by};
use nw_ed25519::Ed25519;
use std::alloc::Global;

/// Decodes the text and checks its message under the committee. It also returns `NW_DONE` for a text that is not a message, and for a block
/// or certificate that breaks a rule. `nw_checked_kind` says what the text is.
#[unsafe(no_mangle)]
pub extern "C" fn nw_check(
    alloc: Global,
    committee: &mut CommitteeHandle,
    text: &[u8],
    out: &mut CheckedHandle,
) -> i32
    ensures checked { result ≡ pos 0 → IsCheckOf accepts committee.old.value text.now out.new.value }
    ensures same { IsUnchanged committee.old committee.new }
    ensures unchanged { (result ≡ pos 0 → ⊥) → IsUnchanged out.old out.new }
    ensures opened { result ≡ pos 0 → out.new.held ≡ true }
    ensures code { IsFirstUnmet
        ((CLOSED, committee.old.held ≡ true) ∷ (OPEN, out.old.held ≡ false) ∷ (OTHER_KIND, HoldsCommittee committee.old.value) ∷ [])
        (DONE ∷ NO_MEMORY ∷ []) result }
{
    if !committee.is_open() {
        return CLOSED;
    }
    if out.is_open() {
        return OPEN;
    }
    match committee.lend() {
        Content::Committee(members) => {
            let members = members.get();
            match check_message_by::<Ed25519, _>(alloc, members.committee(), members, text) {
                Ok(checked) => put(alloc, out, Content::Checked(checked)),
                Err(_) => NO_MEMORY,
            }
        }
        _ => OTHER_KIND,
    }
}

/// Writes what the checked text is: a block, a certificate, a vote, or the first rule that it breaks.
#[unsafe(no_mangle)]
pub extern "C" fn nw_checked_kind(checked: &mut CheckedHandle, out: &mut CMessage) -> i32
    ensures told { result ≡ pos 0 → EncodesMessageOf checked.old.value out.new }
    ensures same { IsUnchanged checked.old checked.new }
    ensures unchanged { (result ≡ pos 0 → ⊥) → out.new ≡ out.old }
    ensures code { IsFirstUnmet
        ((CLOSED, checked.old.held ≡ true) ∷ (OTHER_KIND, HoldsChecked checked.old.value) ∷ [])
        (DONE ∷ []) result }
{
    if !checked.is_open() {
        return CLOSED;
    }
    match checked.lend() {
        Content::Checked(checked) => {
            *out = message_of(checked);
            DONE
        }
        _ => OTHER_KIND,
    }
}

/// Opens a handle of the checked block. Returns `NW_OTHER_KIND` if the text is no well-formed block.
#[unsafe(no_mangle)]
pub extern "C" fn nw_checked_block(
    alloc: Global,
    checked: &mut CheckedHandle,
    out: &mut BlockHandle,
) -> i32
    ensures block { result ≡ pos 0 → IsBlockOf checked.old.value out.new.value }
    ensures same { IsUnchanged checked.old checked.new }
    ensures unchanged { (result ≡ pos 0 → ⊥) → IsUnchanged out.old out.new }
    ensures opened { result ≡ pos 0 → out.new.held ≡ true }
    ensures code { IsFirstUnmet
        ((CLOSED, checked.old.held ≡ true) ∷ (OPEN, out.old.held ≡ false) ∷ (OTHER_KIND, HoldsCheckedBlock checked.old.value) ∷ [])
        (DONE ∷ NO_MEMORY ∷ []) result }
{
    if !checked.is_open() {
        return CLOSED;
    }
    if out.is_open() {
        return OPEN;
    }
    match checked.lend() {
        Content::Checked(Checked::Block(checked)) => match checked.block().try_clone() {
            Ok(block) => {
                let block = HashedBlock::new(checked.digest(), block);
                put(alloc, out, Content::Block(block))
            }
            Err(_) => NO_MEMORY,
        },
        _ => OTHER_KIND,
    }
}

/// Writes the message of the checked block, certificate or vote, which can be sent to other members. Writes its size to `needed`. Returns
/// `NW_SMALL` if the buffer is smaller, and `NW_OTHER_KIND` if the text is neither a well-formed block, nor a valid certificate, nor a vote. It
/// needs no memory.
#[unsafe(no_mangle)]
pub extern "C" fn nw_checked_message(
    checked: &mut CheckedHandle,
    buffer: &mut [u8],
    needed: &mut usize,
) -> i32
    ensures message { result ≡ pos 0 → IsSpelledBy checked.old.value (take needed.new buffer.new) }
    ensures same { IsUnchanged checked.old checked.new }
    ensures small { result ≡ SMALL → IsTooLong (IsSpelledBy checked.old.value) (length buffer.old) needed.new }
    ensures unchanged { (result ≡ pos 0 → ⊥) → buffer.new ≡ buffer.old }
    ensures needed { (result ≡ pos 0 → ⊥) → (result ≡ SMALL → ⊥) → needed.new ≡ needed.old }
    ensures code { IsFirstUnmet
        ((CLOSED, checked.old.held ≡ true) ∷ (OTHER_KIND, HoldsMessage checked.old.value) ∷ (SMALL, needed.new ≤ length buffer.old) ∷ [])
        (DONE ∷ []) result }
{
    if !checked.is_open() {
        return CLOSED;
    }
    let Content::Checked(checked) = checked.lend() else {
        return OTHER_KIND;
    };
    match checked {
        Checked::Block(checked) => {
            let (block, signature) = (checked.block().get(), checked.signature());
            hand_out_block(block, &signature, buffer, needed)
        }
        Checked::Cert(checked) => {
            hand_out_certificate(checked.certificate().get(), buffer, needed)
        }
        Checked::Vote(vote) => hand_out_vote(vote, buffer, needed),
        _ => OTHER_KIND,
    }
}

/// The number of the certificate's signer at the index.
fn signer_at(certificate: &CheckedCert<Ed25519>, index: usize) -> Option<u16>
    ensures found { IfSome result
        (λ signer. slice_get (signers certificate.now.certificate.votes) index ≡ Some signer) }
    ensures none { IsNone result → slice_get certificate.now.certificate.votes index ≡ None }
{
    let votes = certificate.certificate().get().votes.as_slice();
    match votes.get(index) {
        Some(seal) => Some(seal.signer),
        None => None,
    }
}

/// Writes the number of the signer at the index, counted from 0, of the checked certificate. Signers ascend. Returns `NW_ABSENT` if the
/// certificate has no such signer, and `NW_OTHER_KIND` if the text is not a valid certificate.
#[unsafe(no_mangle)]
pub extern "C" fn nw_checked_signer(checked: &mut CheckedHandle, index: usize, out: &mut u16) -> i32
    ensures signer { result ≡ pos 0 → HasSignerAt checked.old.value index out.new }
    ensures same { IsUnchanged checked.old checked.new }
    ensures absent { result ≡ ABSENT → HasNoSignerAt checked.old.value index }
    ensures unchanged { (result ≡ pos 0 → ⊥) → out.new ≡ out.old }
    ensures code { IsFirstUnmet
        ((CLOSED, checked.old.held ≡ true) ∷ (OTHER_KIND, HoldsCheckedCert checked.old.value) ∷ [])
        (DONE ∷ ABSENT ∷ []) result }
{
    if !checked.is_open() {
        return CLOSED;
    }
    match checked.lend() {
        Content::Checked(Checked::Cert(certificate)) => match signer_at(certificate, index) {
            Some(signer) => {
                *out = signer;
                DONE
            }
            None => ABSENT,
        },
        _ => OTHER_KIND,
    }
}
