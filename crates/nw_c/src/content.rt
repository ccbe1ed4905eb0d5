//! The contents of handles.
ghost use Rattle.std.specs.Prelude.{◌≡◌, ◌∷◌, [], pos, true, false};
ghost use Rattle.nw_c.specs.Kinds.{HoldsRoom, IsUnchanged};
ghost use Rattle.nw_c.specs.Codes.{IsFirstUnmet};
ghost use Rattle.nw_c.specs.declared.codes.TheConstants.{CLOSED, DONE, OTHER_KIND};

use crate::codes::{CLOSED, DONE, OTHER_KIND};
use crate::given::Given;
use crate::handle::Handle;
use crate::hashed::HashedBlock;
use nw_book::{Done, Ticket};
use nw_check::Checked;
use nw_digest::{Sequence, Shared};
use nw_ed25519::Ed25519;
use nw_history::Front;
use nw_prepared::{PreparedCommittee, PreparedGather};
use nw_shared_store::{SharedSession, SharedStore};

/// The content of a handle. It has one variant for each kind of handle.
#[derive(Drop)]
pub enum Content {
    /// Room for an answer, made before the call.
    Room,
    /// Members with weights and prepared keys.
    Committee(Shared<PreparedCommittee>),
    /// The result of decoding and checking a text.
    Checked(Checked<Ed25519>),
    /// The votes for one block.
    Gather(PreparedGather),
    /// The answer to a call.
    Answer(Done<Ed25519>),
    /// A ticket, which can be walked at any time.
    Ticket(Ticket<Ed25519>),
    /// The list of blocks of a walk.
    List(Sequence<HashedBlock>),
    /// A block.
    Block(HashedBlock),
    /// One owner of a store.
    Store(SharedStore<Ed25519>),
    /// A session of a store.
    Session(SharedSession<Ed25519>),
    /// The history of a run: a note, the last history of an ended run, or what sessions settled on.
    History(Front<Ed25519>),
    /// The sessions that are given to a settlement, in order.
    Settlement(Given),
}

/// Whether an answer may replace this content: it is room, an answer, a ticket or a history.
fn is_room(content: &Content) -> bool
    ensures room { result ≡ true → HoldsRoom content.now }
    ensures other { result ≡ false → HoldsRoom content.now → ⊥ }
{
    matches!(
        content,
        Content::Room | Content::Answer(_) | Content::Ticket(_) | Content::History(_)
    )
}

/// Tests the handles of a call whose answer replaces the content of `answer`: `CLOSED` if one of them is closed, `OTHER_KIND` if an answer may
/// not replace this content, and otherwise `DONE`.
pub(crate) fn code_of_room(other: &mut Handle, answer: &mut Handle) -> i32
    ensures same { other.new ≡ other.old }
    ensures answer { IsUnchanged answer.old answer.new }
    ensures fits { result ≡ pos 0 → (other.old.held ≡ true) × (answer.old.held ≡ true) × HoldsRoom answer.old.value }
    ensures code { IsFirstUnmet
        ((CLOSED, (other.old.held ≡ true) × (answer.old.held ≡ true)) ∷ (OTHER_KIND, HoldsRoom answer.old.value) ∷ [])
        (DONE ∷ []) result }
{
    if !other.is_open() || !answer.is_open() {
        return CLOSED;
    }
    if !is_room(answer.lend()) {
        return OTHER_KIND;
    }
    DONE
}
