//! The two kinds of digests that a slot can have.

/// The kind of a slot's digest.
#[derive(Clone, Copy, Debug, PartialEq, Eq, PartialOrd, Ord)]
pub enum DigestKind {
    /// The first digest.
    First,
    /// The certified digest.
    Certified,
}
