//! Settlement: the journals of all sessions together are the history.
ghost use Rattle.std.specs.Prelude.{◌≡◌, ◌+◌, ◌^◌, ◌<◌, IfOk, IfErr, OnOk, length, map, All};
ghost use Rattle.std.specs.List.{Contains};
ghost use Rattle.nw_book.specs.Journal.{IsHistoryOf, KnowsAll, origin_of};
ghost use Rattle.nw_book.specs.Settled.{AreSettled};
ghost use Rattle.nw_shared_store.specs.Recorded.{AreRecorded};
ghost use Rattle.nw_shared_store.specs.Settlement.{AreApart, AreParts, AreUnsettled, HasFound, IsApart, IsNoFirst, IsPart, StillKnow, kept};

use crate::{Refusal, SharedSession};
use nw_book::Front;
use nw_sig::Scheme;
use thiserror::Error;

/// Why sessions do not settle.
#[derive(Clone, Copy, Debug, PartialEq, Eq, Error)]
pub enum SettleFault {
    /// The store of the first session made another number of sessions than were given, or none was given.
    #[error("{given} sessions were given")]
    Unfinished {
        /// The number of sessions that were given.
        given: usize,
    },
    /// The session at this place has another id than its place, or the history of its run is another one than that of the first session's run.
    #[error("session {session} is of another store, or has another number")]
    Differs {
        /// The place.
        session: u16,
    },
    /// The history of a session's store could not be read.
    #[error("{0}")]
    Refused(Refusal),
}

/// Settles the sessions, which must be all that one store made, in the order of their ids, while none of them makes a call. All must be of the
/// present run. Returns the run's history: it is an interleaving of the journals of these sessions, and each front in a journal is a prefix of it.
///
/// The sessions can go on. Each reads the history of its own store under the lock, and all these histories are compared. For each
/// session, the cost grows with the number of events and with the base.
pub fn settle<S: Scheme>(sessions: &mut [SharedSession<S>]) -> Result<Front<S>, SettleFault>
    ensures settled { IfOk result
        (λ history. AreSettled history (map (λ s. s.journal) sessions.new)) }
    ensures of_store { IfOk result (λ history.
        All (λ s. IsHistoryOf S.accepts (origin_of s.first) history) sessions.new) }
    ensures recorded { IfOk result (λ history. AreRecorded history.events) }
    ensures know { IfOk result (λ history. All (λ s. Contains s.journal.known history) sessions.new) }
    ensures knew { StillKnow sessions.old sessions.new }
    ensures refused { IfErr result (AreUnsettled S.accepts sessions.old sessions.new) }
    ensures same { map kept sessions.new ≡ map kept sessions.old }
{
    let given = sessions.len();
    let Some((first, others)) = sessions.split_first_mut() else {
        return Err(SettleFault::Unfinished { given });
    };
    let history = first_history(first, given)?;
    compare(others, 1, &history)?;
    Ok(history)
}

/// The history of the session's store, which must have made this number of sessions. The session must have the id 0.
fn first_history<S: Scheme>(
    session: &mut SharedSession<S>,
    given: usize,
) -> Result<Front<S>, SettleFault>
    ensures part { IfOk result (λ history. IsPart S.accepts 0 history session.new) }
    ensures found { IfOk result (λ history. HasFound S.accepts session.old session.new history given) }
    ensures below { IfOk result (λ history. All (λ e. e.session < given) history.events) }
    ensures refused { IfErr result (IsNoFirst S.accepts given session.old session.new) }
    ensures few { OnOk result (given < 2 ^ 16) }
    ensures knew { KnowsAll session.new.journal.known session.old.journal.known }
    ensures same { kept session.new ≡ kept session.old }
{
    match session.history() {
        Err(why) => Err(SettleFault::Refused(why)),
        Ok((history, made)) => {
            if usize::from(made) != given {
                return Err(SettleFault::Unfinished { given });
            }
            if session.id() != 0 {
                return Err(SettleFault::Differs { session: 0 });
            }
            Ok(history)
        }
    }
}

/// Compares the history of each session's store with this one. The sessions must have the ids `from`, `from + 1`, ..
fn compare<S: Scheme>(
    sessions: &mut [SharedSession<S>],
    from: u16,
    history: &Front<S>,
) -> Result<(), SettleFault>
    requires { from + length sessions.old < 2 ^ 16 }
    ensures parts { OnOk result (AreParts S.accepts from history.now sessions.new) }
    ensures refused { IfErr result (AreApart S.accepts from history.now sessions.old sessions.new) }
    ensures knew { StillKnow sessions.old sessions.new }
    ensures same { map kept sessions.new ≡ map kept sessions.old }
{
    match sessions.split_first_mut() {
        None => Ok(()),
        Some((first, rest)) => {
            compare_one(first, from, history)?;
            compare(rest, from + 1, history)
        }
    }
}

/// Compares the history of the session's store with this one. The session must have this id.
fn compare_one<S: Scheme>(
    session: &mut SharedSession<S>,
    id: u16,
    history: &Front<S>,
) -> Result<(), SettleFault>
    ensures part { OnOk result (IsPart S.accepts id history.now session.new) }
    ensures refused { IfErr result (IsApart S.accepts id history.now session.old session.new) }
    ensures knew { KnowsAll session.new.journal.known session.old.journal.known }
    ensures same { kept session.new ≡ kept session.old }
{
    match session.history() {
        Err(why) => Err(SettleFault::Refused(why)),
        Ok((now, _)) => {
            if session.id() != id || now.len() != history.len() || !now.is_prefix_of(history) {
                return Err(SettleFault::Differs { session: id });
            }
            Ok(())
        }
    }
}
