//! Makes the same calls on a `Dag` and a `Plain`, and compares their replies.
use super::*;
use nw_model::{Call, Reply};
use nw_plain::Plain;

/// A `Dag` and a `Plain` after the same calls.
#[derive(Drop)]
pub(super) struct Both {
    pub(super) dag: Dag,
    pub(super) plain: Plain,
}

impl Both {
    /// Two empty stores with these bounds.
    pub(super) fn new(alloc: Global, blocks: u32, window: u32) -> Both {
        Both {
            dag: Dag::new(alloc, DagLimits { blocks, window }),
            plain: Plain::new(alloc, blocks, window),
        }
    }

    /// Makes the call on both stores. Returns the reply, or `None` if the replies differ.
    pub(super) fn call(&mut self, alloc: Global, call: &Call) -> Result<Option<Reply>, NoMemory> {
        let expected = self.plain.call(call)?;
        match self.dag_replies(alloc, call, &expected) {
            Ok(true) => Ok(Some(expected)),
            Ok(false) => Ok(None),
            Err(refused) => Err(refused),
        }
    }

    /// Makes the call on the `Dag`. Returns whether it foretells the reply and then gives it, and it is the expected one. For `Ready`, it
    /// compares a walk with the expected list.
    fn dag_replies(
        &mut self,
        alloc: Global,
        call: &Call,
        expected: &Reply,
    ) -> Result<bool, NoMemory> {
        let foretold = self.dag.reply(alloc, call)?;
        let answered = asked(&mut self.dag, alloc, call)?;
        match (call, &answered, expected) {
            (Call::Causal(digest), Reply::Ready, Reply::List(blocks)) => {
                self.lists(alloc, *digest, blocks.as_slice())
            }
            _ => Ok(is_same(&foretold, expected) && is_same(&answered, expected)),
        }
    }

    /// Whether a walk from the digest, in a new view, lists exactly these blocks.
    fn lists(
        &mut self,
        alloc: Global,
        digest: Digest,
        blocks: &[Shared<Block>],
    ) -> Result<bool, NoMemory> {
        match self.dag.freeze_for(alloc, digest)? {
            Ok(view) => Ok(walked(alloc, &view, digest)?.as_slice() == blocks),
            Err(_refusal) => Ok(false),
        }
    }
}

/// The reply of the `Dag` to the call: for one that may change the state, by the call's own function.
fn asked(dag: &mut Dag, alloc: Global, call: &Call) -> Result<Reply, NoMemory> {
    Ok(match call {
        Call::Write(digest, block) => Reply::Write(dag.write(*digest, block)?),
        Call::Certify(certificate) => Reply::Certify(dag.certify(certificate)?),
        Call::Collect(round) => Reply::Collect(dag.collect(*round)?),
        _ => dag.reply(alloc, call)?,
    })
}

/// Whether the replies are equal. For lists it is always `false`.
fn is_same(one: &Reply, other: &Reply) -> bool {
    match (one, other) {
        (Reply::Write(one), Reply::Write(other)) => one == other,
        (Reply::Certify(one), Reply::Certify(other)) => one == other,
        (Reply::Certificate(one), Reply::Certificate(other)) => one == other,
        (Reply::Read(one), Reply::Read(other)) => one == other,
        (Reply::Causal(one), Reply::Causal(other)) => one == other,
        (Reply::Ready, Reply::Ready) => true,
        (Reply::Collect(one), Reply::Collect(other)) => one == other,
        (Reply::Missing(one), Reply::Missing(other)) => one == other,
        (Reply::MissingOf(one), Reply::MissingOf(other)) => one == other,
        (Reply::Status(one), Reply::Status(other)) => one == other,
        _ => false,
    }
}
