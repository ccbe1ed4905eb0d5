//! Replies as C sees them.
ghost use Rattle.std.specs.Prelude.{◌≡◌, ◌∷◌, [], pos, true};
ghost use Rattle.nw_model.specs.declared.reply.Reply.TheVariants as Reply;
ghost use Rattle.nw_c.specs.Replies.{EncodesReply, EncodesReplyTo};
ghost use Rattle.nw_c.specs.Kinds.{HoldsReply, IsUnchanged};
ghost use Rattle.nw_c.specs.Codes.{IsFirstUnmet};
ghost use Rattle.nw_c.specs.declared.codes.TheConstants.{CLOSED, DONE, OTHER_KIND};

use crate::codes::{CLOSED, DONE, OTHER_KIND};
use crate::content::Content;
use crate::handle::AnswerHandle;
use crate::plain::{CTagged, named, numbered, plain};
use nw_model::{CausalReply, CertifyReply, CollectReply, Reply, WriteReply};

/// Write: the block is now stored, and it is the first of its round and author. Vote for it once all its parents are
/// stored and certified (`nw_session_missing_of`). A block of the garbage round needs no parents.
pub(crate) const STORED_VOTE: i32 = 201;
/// Write: the block is now stored, without a vote: another block of its round and author came first, but this one is certified.
pub(crate) const STORED: i32 = 202;
/// Write: the same block is already stored.
pub(crate) const HELD: i32 = 203;
/// Write: another block is stored under the digest.
pub(crate) const CLASH: i32 = 204;
/// Write: not stored, because another block of this round and author came first. `digest` is the digest of that block. Drop the
/// block, and fetch it if its own digest is certified.
pub(crate) const EQUIVOCATES: i32 = 205;
/// Certificate: it is now stored.
pub(crate) const CERTIFIED: i32 = 206;
/// Certificate: the digest is already certified for the same round and author.
pub(crate) const ALREADY: i32 = 207;
/// Certificate: another digest is certified for the round and author. `digest` is that digest.
pub(crate) const CONFLICT: i32 = 208;
/// Write or certificate: the round is below the garbage round. `number` is the garbage round.
pub(crate) const COLLECTED: i32 = 209;
/// Write or certificate: the round is at or above the garbage round plus the window. Drop it, and fetch it after a collection.
pub(crate) const TOO_FAR: i32 = 210;
/// Write or certificate: a stored block or certificate of this digest has another round or author.
pub(crate) const MISFIT: i32 = 211;
/// Write or certificate: the store has reached its limit on blocks or on certificates. Drop it, and fetch it after a collection.
pub(crate) const FULL: i32 = 212;
/// Read or call for a certificate: it was found.
pub(crate) const FOUND: i32 = 213;
/// Read, causal read, call for a certificate or for the missing parents of a block: no block or certificate of this digest is stored.
pub(crate) const UNKNOWN: i32 = 214;
/// Causal read: the digest is not certified.
pub(crate) const UNCERTIFIED: i32 = 215;
/// Causal read: an ancestor has a parent that is not stored and certified with the named author and the preceding round.
pub(crate) const INCOMPLETE: i32 = 216;
/// Causal read: the answer is a ticket, whose list can be walked.
pub(crate) const READY: i32 = 217;
/// Collection: the garbage round was raised, and `number` blocks were dropped.
pub(crate) const RAISED: i32 = 218;
/// Collection: the garbage round was already as high. `number` is the garbage round.
pub(crate) const NOT_HIGHER: i32 = 219;
/// Call for missing parents: `number` of them are listed.
pub(crate) const MISSING: i32 = 220;
/// Call for the status.
pub(crate) const STATUS: i32 = 221;

/// The reply to a write as C sees it.
fn write_told(reply: WriteReply) -> CTagged
    ensures { EncodesReplyTo (Reply.Write reply) result }
{
    match reply {
        WriteReply::Collected(round) => numbered(COLLECTED, round.get()),
        WriteReply::TooFar => plain(TOO_FAR),
        WriteReply::Held => plain(HELD),
        WriteReply::Clash => plain(CLASH),
        WriteReply::Misfit => plain(MISFIT),
        WriteReply::Equivocates(first) => named(EQUIVOCATES, &first),
        WriteReply::Full => plain(FULL),
        WriteReply::Stored { vote: true } => plain(STORED_VOTE),
        WriteReply::Stored { vote: false } => plain(STORED),
    }
}

/// The reply to a certificate as C sees it.
fn certify_told(reply: CertifyReply) -> CTagged
    ensures { EncodesReplyTo (Reply.Certify reply) result }
{
    match reply {
        CertifyReply::Collected(round) => numbered(COLLECTED, round.get()),
        CertifyReply::TooFar => plain(TOO_FAR),
        CertifyReply::Already => plain(ALREADY),
        CertifyReply::Misfit => plain(MISFIT),
        CertifyReply::Conflict(other) => named(CONFLICT, &other),
        CertifyReply::Full => plain(FULL),
        CertifyReply::Certified => plain(CERTIFIED),
    }
}

/// Any reply as C sees it.
pub(crate) fn reply_told(reply: &Reply) -> CTagged
    ensures { EncodesReplyTo reply.now result }
{
    match reply {
        Reply::Write(reply) => write_told(*reply),
        Reply::Certify(reply) => certify_told(*reply),
        Reply::Certificate(Some(_)) | Reply::Read(Some(_)) => plain(FOUND),
        Reply::Certificate(None) | Reply::Read(None) | Reply::MissingOf(None) => plain(UNKNOWN),
        Reply::Causal(CausalReply::Unknown) => plain(UNKNOWN),
        Reply::Causal(CausalReply::Uncertified) => plain(UNCERTIFIED),
        Reply::Causal(CausalReply::Incomplete) => plain(INCOMPLETE),
        Reply::Ready | Reply::List(_) => plain(READY),
        Reply::Collect(CollectReply::NotHigher(round)) => numbered(NOT_HIGHER, round.get()),
        Reply::Collect(CollectReply::Raised { dropped }) => numbered(RAISED, *dropped),
        Reply::Missing(missing) | Reply::MissingOf(Some(missing)) => {
            numbered(MISSING, missing.as_slice().len() as u64)
        }
        Reply::Status(_) => plain(STATUS),
    }
}

/// Writes the reply of the answer. The reply of a ticket is `NW_READY`. Returns `NW_OTHER_KIND` for a history, and for room without an
/// answer.
#[unsafe(no_mangle)]
pub extern "C" fn nw_answer_reply(answer: &mut AnswerHandle, out: &mut CTagged) -> i32
    ensures reply { result ≡ pos 0 → EncodesReply answer.old.value out.new }
    ensures same { IsUnchanged answer.old answer.new }
    ensures unchanged { (result ≡ pos 0 → ⊥) → out.new ≡ out.old }
    ensures code { IsFirstUnmet
        ((CLOSED, answer.old.held ≡ true) ∷ (OTHER_KIND, HoldsReply answer.old.value) ∷ [])
        (DONE ∷ []) result }
{
    if !answer.is_open() {
        return CLOSED;
    }
    match answer.lend() {
        Content::Answer(done) => {
            *out = reply_told(done.reply());
            DONE
        }
        Content::Ticket(_) => {
            *out = plain(READY);
            DONE
        }
        _ => OTHER_KIND,
    }
}
