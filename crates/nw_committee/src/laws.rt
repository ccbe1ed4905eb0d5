//! Laws of the quorum. Each law is the contract of a function with an empty body, and is proved.
ghost use Rattle.nw_committee.specs.Laws.{EqualMembersHaveTheClassicQuorum, QuorumsIntersect};

/// 3f + 1 members of weight 1 have the quorum 2f + 1.
pub fn equal_members_have_the_classic_quorum()
    ensures { EqualMembersHaveTheClassicQuorum }
{}

/// Any two lists of members that reach the quorum share members whose weights add up to more than a third of the total.
pub fn quorums_intersect()
    ensures { QuorumsIntersect }
{}
