use nw_check::{BlockFault, CertFault, Checked, check_message};
use nw_committee::Committee;
use nw_decode::DecodeError;
use nw_digest::{NoMemory, Round, Shared};
use nw_sig::DemoScheme;
use samples::fallible::Slot;
use samples::{committee, four};
use std::alloc::Global;
use std::test::Fail;

mod altered;
mod digests;
mod errors;
mod lanes;
mod lengths;
mod limits;
mod lines;
mod messages;
mod peeks;
mod signatures;
mod signed;
mod threads;
mod votes;

/// The slot of the certificates in `votes`.
const SLOT: Slot = (Round::ZERO, 0);

/// The result of a check, without the checked value.
#[derive(Clone, Copy, PartialEq)]
enum Found {
    Block,
    Cert,
    Vote,
    BadText(DecodeError),
    BadBlock(BlockFault),
    BadCert(CertFault),
}

/// The result of the check, without the checked value.
fn found_in(checked: &Checked<DemoScheme>) -> Found {
    match checked {
        Checked::Block(_) => Found::Block,
        Checked::Cert(_) => Found::Cert,
        Checked::Vote(_) => Found::Vote,
        Checked::BadText(fault) => Found::BadText(*fault),
        Checked::BadBlock(fault) => Found::BadBlock(*fault),
        Checked::BadCert(fault) => Found::BadCert(*fault),
    }
}

/// The result of checking the text under the committee.
fn judge(alloc: Global, committee: &Shared<Committee>, text: &[u8]) -> Result<Found, NoMemory> {
    Ok(found_in(&check_message(alloc, committee, text)?))
}
