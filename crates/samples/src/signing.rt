//! Signatures and votes of members.
ghost use Rattle.std.specs.Prelude.{IfSome};
ghost use Rattle.nw_codec.specs.Fits.{Fits};

use nw_codec::{Block, Seal, Signature, Subject, block_digest};
use nw_committee::{Committee, Key};
use nw_digest::{Digest, Round};
use nw_sig::{DemoSigner, Signer, text_of_block, text_of_vote};

/// The member's signature of the text. If there is no such member, the key is 32 zero bytes.
fn sign(committee: &Committee, member: u16, text: &[u8]) -> Signature {
    let key = committee.key(member).copied().unwrap_or(Key([0; 32]));
    DemoSigner::new(key).sign(text)
}

/// The signer's signature of the block, or `None` if the block does not fit.
pub fn signature(committee: &Committee, block: &Block, signer: u16) -> Option<Signature>
    ensures { IfSome result (λ _. Fits block.now) }
{
    if !block.fits() {
        return None;
    }
    Some(sign(committee, signer, &text_of_block(&block_digest(block))))
}

/// The signer's vote for the digest, round and author, as a certificate contains it.
pub fn seal(committee: &Committee, digest: Digest, round: Round, author: u16, signer: u16) -> Seal {
    let signature = sign(
        committee,
        signer,
        &text_of_vote(&Subject {
            digest,
            round,
            author,
        }),
    );
    Seal { signer, signature }
}
