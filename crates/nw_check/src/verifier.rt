//! Who verifies the signatures of a committee's members.
ghost use Rattle.std.specs.Prelude.{◌↔◌, List, IsTrue, MatchOption, All};
ghost use Rattle.nw_codec.specs.Typed.{IsSignature};
ghost use Rattle.nw_committee.specs.declared.member.Member.{Member};
ghost use Rattle.nw_model.specs.Checks.{IsSignedBy, IsSealOf};
ghost use Rattle.nw_check.specs.Seals.{IsFirstBad};

use nw_codec::{Certificate, Signature};
use nw_committee::Committee;
use nw_digest::note_bytes;
use nw_sig::{Scheme, text_of_vote};

/// A value that verifies the signatures of a committee's members by the scheme `S`. A committee itself does, by `Scheme::verify`. A value
/// that prepares the members' keys once can be faster.
pub trait Verifier<S: Scheme> {
    /// The members.
    ghost members: { Self → List Member };

    /// Whether the scheme accepts the signature of the text under the key of the member with this number. Allocates nothing.
    fn is_signed_by(&self, number: u16, text: &[u8], signature: &Signature) -> bool
        ensures { IsTrue result ↔ IsSignedBy S.accepts (members self.now) number text.now signature.now };

    /// The signer of the first vote with a bad signature, or `None` if there is no such vote. A verifier that verifies votes together may
    /// be faster than this body, which verifies one after another. Allocates nothing.
    fn first_bad_signer(&self, certificate: &Certificate) -> Option<u16>
        ensures { MatchOption result
            (All (IsSealOf S.accepts (members self.now) certificate.now) certificate.now.votes)
            (IsFirstBad (IsSealOf S.accepts (members self.now) certificate.now) certificate.now.votes) }
    {
        let text = text_of_vote(&certificate.subject());
        for seal in certificate.votes.as_slice() {
            if !self.is_signed_by(seal.signer, &text, &seal.signature) {
                return Some(seal.signer);
            }
        }
        None
    }
}

impl<S: Scheme> Verifier<S> for Committee {
    ghost members = { λ committee. committee };

    fn is_signed_by(&self, number: u16, text: &[u8], signature: &Signature) -> bool {
        note_size(signature);
        match self.key(number) {
            Some(key) => S::verify(key, text, signature),
            None => false,
        }
    }
}

/// Tells the prover that a signature has 64 bytes. Definitions see it as a list of any length.
pub fn note_size(signature: &Signature)
    ensures { IsSignature signature.now }
{
    note_bytes(&signature.0);
}
