//! Names the kinds of replies.
use nw_model::{CausalReply, CertifyReply, CollectReply, Reply, WriteReply};

/// The number of kinds of replies that have a name here.
pub(super) const REPLIES: usize = 30;

pub(super) fn words(reply: &Reply) -> &'static str {
    match reply {
        Reply::Write(reply) => words_of_write(reply),
        Reply::Certify(reply) => words_of_certify(reply),
        Reply::Certificate(None) => "no certificate",
        Reply::Certificate(Some(_)) => "certificate",
        Reply::Read(None) => "no block",
        Reply::Read(Some(_)) => "block",
        Reply::Causal(reply) => words_of_causal(reply),
        Reply::Ready | Reply::List(_) => "list",
        Reply::Collect(CollectReply::NotHigher(_)) => "not higher",
        Reply::Collect(CollectReply::Raised { .. }) => "raised",
        Reply::Missing(_) => "missing",
        Reply::MissingOf(None) => "missing of no block",
        Reply::MissingOf(Some(_)) => "missing of a block",
        Reply::Status(_) => "status",
    }
}

fn words_of_write(reply: &WriteReply) -> &'static str {
    match reply {
        WriteReply::Collected(_) => "write below the floor",
        WriteReply::TooFar => "write too far",
        WriteReply::Held => "held",
        WriteReply::Clash => "clash",
        WriteReply::Misfit => "write misfit",
        WriteReply::Equivocates(_) => "equivocates",
        WriteReply::Full => "write full",
        WriteReply::Stored { vote: true } => "stored vote",
        WriteReply::Stored { vote: false } => "stored",
    }
}

fn words_of_certify(reply: &CertifyReply) -> &'static str {
    match reply {
        CertifyReply::Collected(_) => "certificate below the floor",
        CertifyReply::TooFar => "certificate too far",
        CertifyReply::Already => "already",
        CertifyReply::Misfit => "certificate misfit",
        CertifyReply::Conflict(_) => "conflict",
        CertifyReply::Full => "certificate full",
        CertifyReply::Certified => "certified",
    }
}

fn words_of_causal(reply: &CausalReply) -> &'static str {
    match reply {
        CausalReply::Unknown => "unknown",
        CausalReply::Uncertified => "uncertified",
        CausalReply::Incomplete => "incomplete",
    }
}
