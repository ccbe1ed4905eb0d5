//! The codes that the functions return.
ghost use Rattle.std.specs.Prelude.{◌≡◌, ◌∷◌, [], pos};
ghost use Rattle.nw_c.specs.Codes.{IsOneOf, gather_code, step_code};

use nw_book::NoStep;
use nw_check::GatherFault;

/// Success.
pub(crate) const DONE: i32 = 0;
/// Out of memory. Nothing changed but what sessions know.
pub(crate) const NO_MEMORY: i32 = 1;
/// A handle that must be open is closed.
pub(crate) const CLOSED: i32 = 2;
/// A handle that must be closed is open.
pub(crate) const OPEN: i32 = 3;
/// A handle holds a value of another kind than the function takes.
pub(crate) const OTHER_KIND: i32 = 4;
/// The members do not form a committee. There are none or more than 100, a weight is not 1 to 1,000,000, or a key is repeated.
pub(crate) const BAD_COMMITTEE: i32 = 5;
/// A limit is outside its range.
pub(crate) const BAD_LIMITS: i32 = 6;
/// The call is out of turn. No function returns this code, because a session numbers its own calls.
pub(crate) const OUT_OF_TURN: i32 = 7;
/// The block or certificate was checked under another committee than the store's.
pub(crate) const OTHER_COMMITTEE: i32 = 8;
/// The history has reached its limit on events.
pub(crate) const HISTORY_FULL: i32 = 9;
/// A round is not below 2^48.
pub(crate) const BAD_ROUND: i32 = 10;
/// A buffer or an array is too small. Only the needed size was written.
pub(crate) const SMALL: i32 = 11;
/// There is nothing at the index, or there is no such value.
pub(crate) const ABSENT: i32 = 12;
/// The new block breaks a limit of the format, its parents do not ascend strictly, or its sizes do not add up.
pub(crate) const OVER_LIMIT: i32 = 13;
/// The author or signer is not a member of the committee.
pub(crate) const NO_MEMBER: i32 = 14;
/// The vote is for another digest, round or author.
pub(crate) const OTHER_BLOCK: i32 = 15;
/// A vote of the same signer was already counted.
pub(crate) const REPEATED: i32 = 16;
/// The signature is not the signer's.
pub(crate) const BAD_SIGNATURE: i32 = 17;
/// The counted votes do not reach the quorum.
pub(crate) const FEW_VOTES: i32 = 18;
/// The two tickets have different digests or garbage rounds, so their lists cannot be compared.
pub(crate) const NOT_COMPARABLE: i32 = 19;
/// Another thread has the lock of the store. Nothing changed but what sessions know. Call again.
pub(crate) const BUSY: i32 = 20;
/// The store has made as many sessions as its limit allows.
pub(crate) const TOO_MANY_SESSIONS: i32 = 21;
/// The history is no prefix of the history of the session's run.
pub(crate) const OTHER_HISTORY: i32 = 22;
/// The sessions are not all sessions of one store, in the order of their numbers.
pub(crate) const UNSETTLED: i32 = 23;
/// The run of the session has ended. Nothing changed but what sessions know. Renew the session.
pub(crate) const ENDED: i32 = 24;

/// The code of a refused step.
pub(crate) fn code_of_step(why: NoStep) -> i32
    ensures { result ≡ step_code why }
{
    match why {
        NoStep::OutOfTurn => OUT_OF_TURN,
        NoStep::OtherCommittee => OTHER_COMMITTEE,
        NoStep::HistoryFull => HISTORY_FULL,
        NoStep::NoMemory => NO_MEMORY,
    }
}

/// The code of a vote that is not counted.
pub(crate) fn code_of_vote(why: GatherFault) -> i32
    ensures code { result ≡ gather_code why }
    ensures named { IsOneOf (OTHER_BLOCK ∷ REPEATED ∷ NO_MEMBER ∷ BAD_SIGNATURE ∷ NO_MEMORY ∷ []) result }
{
    match why {
        GatherFault::OtherBlock => OTHER_BLOCK,
        GatherFault::Repeated => REPEATED,
        GatherFault::Signer => NO_MEMBER,
        GatherFault::Signature => BAD_SIGNATURE,
        GatherFault::NoMemory => NO_MEMORY,
    }
}
