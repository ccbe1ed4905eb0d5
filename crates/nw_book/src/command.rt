//! Commands: calls with checked values.
ghost use Rattle.std.specs.Prelude.{◌≡◌, List, IfOk};
ghost use Rattle.std.specs.Option.{option_copied};
ghost use Rattle.nw_committee.specs.declared.member.Member.{Member};
ghost use Rattle.nw_model.specs.History.{IsAdmitted};
ghost use Rattle.nw_book.specs.Command.{IsNoCausalRead, call_of, committee_of};
ghost use Rattle.nw_book.specs.Turn.{MatchesCommittee};

use nw_check::{CheckedBlock, CheckedCert};
use nw_committee::Committee;
use nw_digest::{Digest, NoMemory, Round};
use nw_model::Call;
use nw_sig::Scheme;

/// A call of a session, other than a causal read. It borrows its checked block or certificate, which carries the committee of its check.
#[derive(Drop)]
pub enum Command<'a, S: Scheme> {
    /// Store the block under its digest.
    Write(&'a CheckedBlock<S>),
    /// Keep the certificate for its digest.
    Certify(&'a CheckedCert<S>),
    /// Read the certificate for the digest.
    Certificate(Digest),
    /// Read the block under the digest.
    Read(Digest),
    /// Raise the garbage round to this round, and drop all entries of lower rounds.
    Collect(Round),
    /// Read the first wanted parents by round, author and digest: this many, or all if there are fewer.
    Missing(u16),
    /// Read the missing parents of the block under the digest, by round, author and digest.
    MissingOf(Digest),
    /// Read the garbage round, and the numbers of blocks, certificates, complete blocks and wanted parents.
    Status,
}

impl<S: Scheme> Command<'_, S> {
    /// The call of this command. It shares ownership of the command's block or certificate.
    ///
    /// `NoMemory`: an allocation failed.
    pub fn call(&self) -> Result<Call, NoMemory>
        ensures call { IfOk result (λ call. call ≡ call_of self.now) }
        ensures no_read { IfOk result IsNoCausalRead }
        ensures admitted { (members : List Member) → MatchesCommittee members (committee_of self.now)
            → IsAdmitted S.accepts members (call_of self.now) }
    {
        match self {
            Command::Write(checked) => {
                Ok(Call::Write(checked.digest(), checked.block().try_clone()?))
            }
            Command::Certify(checked) => Ok(Call::Certify(checked.certificate().try_clone()?)),
            Command::Certificate(digest) => Ok(Call::Certificate(*digest)),
            Command::Read(digest) => Ok(Call::Read(*digest)),
            Command::Collect(round) => Ok(Call::Collect(*round)),
            Command::Missing(most) => Ok(Call::Missing(*most)),
            Command::MissingOf(digest) => Ok(Call::MissingOf(*digest)),
            Command::Status => Ok(Call::Status),
        }
    }

    /// The committee under which the block or certificate was checked, or `None` if the command has neither.
    pub fn committee(&self) -> Option<&Committee>
        ensures { option_copied result ≡ committee_of self.now }
    {
        match self {
            Command::Write(checked) => Some(checked.committee().get()),
            Command::Certify(checked) => Some(checked.committee().get()),
            Command::Certificate(_) | Command::Read(_) | Command::MissingOf(_) => None,
            Command::Collect(_) | Command::Missing(_) | Command::Status => None,
        }
    }
}
