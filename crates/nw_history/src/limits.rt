//! The limits of a book.
ghost use Rattle.std.specs.Prelude.{◌≡◌, ◌↔◌, IsTrue};
ghost use Rattle.nw_history.specs.Limits.{AreInRange};

/// The maximum of `Limits::blocks`.
pub const MAX_BLOCKS: u32 = 65_536;
/// The maximum of `Limits::events`.
pub const MAX_EVENTS: u32 = 65_536;
/// The maximum of `Limits::window`.
pub const MAX_WINDOW: u32 = 4_096;
/// The maximum of `Limits::sessions`.
pub const MAX_SESSIONS: u32 = 256;

/// The limits of a book.
#[derive(Clone, Copy, Debug, PartialEq, Eq)]
pub struct Limits {
    /// The maximum number of held blocks, and also that of certificates: 1 to `MAX_BLOCKS`.
    pub blocks: u32,
    /// The maximum number of events of the history: 1 to `MAX_EVENTS`.
    pub events: u32,
    /// The number of rounds, from the garbage round on, whose blocks and certificates are accepted: 1 to `MAX_WINDOW`.
    pub window: u32,
    /// The maximum number of sessions: 1 to `MAX_SESSIONS`.
    pub sessions: u32,
}

impl Limits {
    /// Whether each limit is in its range.
    pub fn are_in_range(&self) -> bool
        ensures { IsTrue result ↔ AreInRange self.now }
    {
        (1..=MAX_BLOCKS).contains(&self.blocks)
            && (1..=MAX_EVENTS).contains(&self.events)
            && (1..=MAX_WINDOW).contains(&self.window)
            && (1..=MAX_SESSIONS).contains(&self.sessions)
    }

    /// Whether each limit is equal to that of the other.
    pub(crate) fn is_same(&self, other: &Limits) -> bool
        ensures { IsTrue result ↔ self.now ≡ other.now }
    {
        self == other
    }
}
