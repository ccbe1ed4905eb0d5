//! The replies that answers have: blocks, certificates, missing parents and counts.
ghost use Rattle.std.specs.Prelude.{◌≡◌, ◌∷◌, ◌≤◌, [], pos, take, true, length, None, false};
ghost use Rattle.nw_model.specs.declared.reply.Reply.TheVariants as Reply;
ghost use Rattle.nw_c.specs.Answers.{AnswersCertificate, AnswersMissing, AnswersRead, AnswersStatus, HasNoMissingAt, HasReply, EncodesCertificate, FindsBlock, IsMissingAt, EncodesStatus};
ghost use Rattle.nw_c.specs.Kinds.{IsUnchanged};
ghost use Rattle.nw_c.specs.Plain.{IsTooLong};
ghost use Rattle.nw_c.specs.Codes.{IsFirstUnmet};
ghost use Rattle.nw_c.specs.declared.content.Content.TheVariants as kind;
ghost use Rattle.nw_c.specs.declared.codes.TheConstants.{ABSENT, CLOSED, DONE, NO_MEMORY, OPEN, OTHER_KIND, SMALL};

use crate::codes::{ABSENT, CLOSED, DONE, NO_MEMORY, OPEN, OTHER_KIND};
use crate::content::Content;
use crate::handle::{AnswerHandle, BlockHandle, put};
use crate::hashed::HashedBlock;
use crate::plain::CSubject;
use crate::texts::hand_out_certificate;
use nw_codec::Subject;
use nw_model::Reply;
use std::alloc::Global;

/// The counts of a store: its garbage round, and how many blocks, certificates, complete blocks and missing parents (`wanted`) it has.
#[repr(C)]
#[derive(Clone, Copy)]
pub struct CStatus {
    pub garbage_round: u64,
    pub blocks: u64,
    pub certificates: u64,
    pub complete: u64,
    pub wanted: u64,
}

/// Makes room for an answer. Make it before the call, so that a call that was taken never runs out of memory for its answer. The room can
/// be used again: a new answer replaces the old one. A refused call leaves the old one in place.
#[unsafe(no_mangle)]
pub extern "C" fn nw_answer_new(alloc: Global, out: &mut AnswerHandle) -> i32
    ensures made { result ≡ pos 0 → out.new.value ≡ kind.Room }
    ensures unchanged { (result ≡ pos 0 → ⊥) → IsUnchanged out.old out.new }
    ensures opened { result ≡ pos 0 → out.new.held ≡ true }
    ensures code { IsFirstUnmet ((OPEN, out.old.held ≡ false) ∷ []) (DONE ∷ NO_MEMORY ∷ []) result }
{
    if out.is_open() {
        return OPEN;
    }
    put(alloc, out, Content::Room)
}

/// Opens a handle of the block that a read found. Returns `NW_ABSENT` if the read found none, and `NW_OTHER_KIND` if the answer is not to a
/// read.
#[unsafe(no_mangle)]
pub extern "C" fn nw_answer_block(
    alloc: Global,
    answer: &mut AnswerHandle,
    out: &mut BlockHandle,
) -> i32
    ensures found { result ≡ pos 0 → FindsBlock answer.old.value out.new.value }
    ensures same { IsUnchanged answer.old answer.new }
    ensures unchanged { (result ≡ pos 0 → ⊥) → IsUnchanged out.old out.new }
    ensures opened { result ≡ pos 0 → out.new.held ≡ true }
    ensures absent { result ≡ ABSENT → HasReply answer.old.value (Reply.Read None) }
    ensures code { IsFirstUnmet
        ((CLOSED, answer.old.held ≡ true) ∷ (OPEN, out.old.held ≡ false) ∷ (OTHER_KIND, AnswersRead answer.old.value) ∷ [])
        (DONE ∷ ABSENT ∷ NO_MEMORY ∷ []) result }
{
    if !answer.is_open() {
        return CLOSED;
    }
    if out.is_open() {
        return OPEN;
    }
    match answer.lend() {
        Content::Answer(done) => match (done.found(), done.reply()) {
            (Some((digest, block)), _) => match block.try_clone() {
                Ok(block) => put(alloc, out, Content::Block(HashedBlock::new(digest, block))),
                Err(_) => NO_MEMORY,
            },
            (None, Reply::Read(None)) => ABSENT,
            _ => OTHER_KIND,
        },
        _ => OTHER_KIND,
    }
}

/// Writes the message of the certificate that a call for a certificate found. Writes its size to `needed`. Returns `NW_SMALL` if the buffer
/// is smaller, `NW_ABSENT` if the call found no certificate, and `NW_OTHER_KIND` if the answer is to another call. It needs no memory.
#[unsafe(no_mangle)]
pub extern "C" fn nw_answer_message(
    answer: &mut AnswerHandle,
    buffer: &mut [u8],
    needed: &mut usize,
) -> i32
    ensures certificate { result ≡ pos 0
        → EncodesCertificate answer.old.value (take needed.new buffer.new) }
    ensures same { IsUnchanged answer.old answer.new }
    ensures small { result ≡ SMALL → IsTooLong (EncodesCertificate answer.old.value) (length buffer.old) needed.new }
    ensures unchanged { (result ≡ pos 0 → ⊥) → buffer.new ≡ buffer.old }
    ensures needed { (result ≡ pos 0 → ⊥) → (result ≡ SMALL → ⊥) → needed.new ≡ needed.old }
    ensures absent { result ≡ ABSENT → HasReply answer.old.value (Reply.Certificate None) }
    ensures code { IsFirstUnmet
        ((CLOSED, answer.old.held ≡ true) ∷ (OTHER_KIND, AnswersCertificate answer.old.value) ∷ (ABSENT, HasReply answer.old.value (Reply.Certificate None) → ⊥) ∷ (SMALL, needed.new ≤ length buffer.old) ∷ [])
        (DONE ∷ []) result }
{
    if !answer.is_open() {
        return CLOSED;
    }
    match answer.lend() {
        Content::Answer(done) => match (done.certificate(), done.reply()) {
            (Some(certificate), _) => hand_out_certificate(certificate.get(), buffer, needed),
            (None, Reply::Certificate(None)) => ABSENT,
            _ => OTHER_KIND,
        },
        _ => OTHER_KIND,
    }
}

/// Writes one of the parents that a call for missing parents listed, of all blocks or of one. `index` counts from 0. Returns `NW_ABSENT` if
/// the list has no parent at that index, and `NW_OTHER_KIND` if the answer is to another call or lists nothing because the block is not
/// stored.
#[unsafe(no_mangle)]
pub extern "C" fn nw_answer_missing(
    answer: &mut AnswerHandle,
    index: usize,
    out: &mut CSubject,
) -> i32
    ensures missing { result ≡ pos 0 → IsMissingAt answer.old.value index out.new }
    ensures same { IsUnchanged answer.old answer.new }
    ensures absent { result ≡ ABSENT → HasNoMissingAt answer.old.value index }
    ensures unchanged { (result ≡ pos 0 → ⊥) → out.new ≡ out.old }
    ensures other_kind { result ≡ OTHER_KIND → AnswersMissing answer.old.value → ⊥ }
    ensures code { IsFirstUnmet ((CLOSED, answer.old.held ≡ true) ∷ []) (DONE ∷ OTHER_KIND ∷ ABSENT ∷ []) result }
{
    if !answer.is_open() {
        return CLOSED;
    }
    match answer.lend() {
        Content::Answer(done) => match done.reply() {
            Reply::Missing(missing) | Reply::MissingOf(Some(missing)) => match missing
                .as_slice()
                .get(index)
            {
                Some(wanted) => {
                    *out = CSubject::of(&Subject {
                        digest: wanted.digest,
                        round: wanted.round,
                        author: wanted.author,
                    });
                    DONE
                }
                None => ABSENT,
            },
            _ => OTHER_KIND,
        },
        _ => OTHER_KIND,
    }
}

/// Writes the counts of a call for the status. Returns `NW_OTHER_KIND` if the answer is to another call.
#[unsafe(no_mangle)]
pub extern "C" fn nw_answer_status(answer: &mut AnswerHandle, out: &mut CStatus) -> i32
    ensures status { result ≡ pos 0 → EncodesStatus answer.old.value out.new }
    ensures same { IsUnchanged answer.old answer.new }
    ensures unchanged { (result ≡ pos 0 → ⊥) → out.new ≡ out.old }
    ensures code { IsFirstUnmet
        ((CLOSED, answer.old.held ≡ true) ∷ (OTHER_KIND, AnswersStatus answer.old.value) ∷ [])
        (DONE ∷ []) result }
{
    if !answer.is_open() {
        return CLOSED;
    }
    match answer.lend() {
        Content::Answer(done) => match done.reply() {
            Reply::Status(counts) => {
                *out = CStatus {
                    garbage_round: counts.floor.get(),
                    blocks: counts.blocks,
                    certificates: counts.certificates,
                    complete: counts.complete,
                    wanted: counts.wanted,
                };
                DONE
            }
            _ => OTHER_KIND,
        },
        _ => OTHER_KIND,
    }
}
