//! The laws that the definitions satisfy. Each law is the proved contract of a function that does nothing.
ghost use Rattle.nw_model.specs.Laws.{
  CompleteDigestsHaveOneCausalList,
  CausalListsContainThoseOfTheirBlocks,
  LegalHistoriesLeaveSoundStates,
  BeginningsOfLegalHistoriesAreLegal,
  LegalHistoriesVoteOnce,
  ViewsShowTheAncestors,
  FirstsOfABaseGetNoVote,
  BlocksWithTheirParentsMissNone,
  CausalListsStay,
  CausalListsReachQuorums,
  ReadsAgree,
};
ghost use Rattle.nw_model.specs.Step.{StepIsAFunction, RecordedCallsTakeTheSameStep};

/// Two replies to the same call in the same state are equal, except that one may be `Ready` and the other the list.
pub fn step_is_a_function()
    ensures { StepIsAFunction }
{}

/// The call that a history records in place of a call has the same reply, and leaves the same state.
pub fn recorded_calls_take_the_same_step()
    ensures { RecordedCallsTakeTheSameStep }
{}

/// Every legal history leaves a sound state, whatever its base. So in this state at most one digest is certified for a round and
/// author.
pub fn legal_histories_leave_sound_states()
    ensures { LegalHistoriesLeaveSoundStates }
{}

/// The first events of a legal history are a legal history. So each law holds at every moment of a history.
pub fn beginnings_of_legal_histories_are_legal()
    ensures { BeginningsOfLegalHistoriesAreLegal }
{}

/// If a view shows a state with no blocks below its garbage round, each complete block has the same ancestors in both.
pub fn views_show_the_ancestors()
    ensures { ViewsShowTheAncestors }
{}

/// In a sound state, a complete digest has exactly one causal list.
pub fn complete_digests_have_one_causal_list()
    ensures { CompleteDigestsHaveOneCausalList }
{}

/// Each block in the causal list of a complete digest is complete, and its own causal list is contained in that list.
pub fn causal_lists_contain_those_of_their_blocks()
    ensures { CausalListsContainThoseOfTheirBlocks }
{}

/// At most one event of a legal history votes for a round and author.
pub fn legal_histories_vote_once()
    ensures { LegalHistoriesVoteOnce }
{}

/// If a slot has a first digest in the base of a legal history, it gets no vote in that history.
pub fn firsts_of_a_base_get_no_vote()
    ensures { FirstsOfABaseGetNoVote }
{}

/// The reply to `MissingOf` for a held block is an empty list exactly when all references of the block are satisfied, or the block is not
/// above the garbage round.
pub fn blocks_with_their_parents_miss_none()
    ensures { BlocksWithTheirParentsMissNone }
{}

/// A complete block stays complete in a legal history until the garbage round is above its round. Until then its causal list loses
/// only the blocks below the garbage round.
pub fn causal_lists_stay()
    ensures { CausalListsStay }
{}

/// After a legal history, take the causal list of a complete block. In each round from the garbage round up to the round before
/// the block's, the authors of the listed blocks reach the quorum.
pub fn causal_lists_reach_quorums()
    ensures { CausalListsReachQuorums }
{}

/// Two reads of a digest in a legal history give the same block, with one exception. If a collection between them raised the
/// garbage round above the first block's round, they may give two different blocks with the same digest.
pub fn reads_agree()
    ensures { ReadsAgree }
{}
