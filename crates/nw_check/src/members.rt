//! Membership in a committee.
ghost use Rattle.std.specs.Prelude.{◌↔◌, map, All, IsTrue};
ghost use Rattle.nw_committee.specs.Committee.{IsCommittee};
ghost use Rattle.nw_model.specs.Checks.{IsMember};

use nw_committee::{Committee, Numbered};

/// Whether the committee has a member with this number.
pub(crate) fn is_member(committee: &Committee, number: u16) -> bool
    ensures member { IsTrue result ↔ IsMember committee.now number }
    ensures committee { IsCommittee committee.now }
{
    usize::from(number) < committee.size()
}

/// Whether the number of each value is that of a member.
pub(crate) fn are_members<T: Numbered>(committee: &Committee, listed: &[T]) -> bool
    ensures { IsTrue result ↔ All (IsMember committee.now) (map T.number_of listed.now) }
{
    for one in listed {
        if !is_member(committee, one.number()) {
            return false;
        }
    }
    true
}
