//! Words that no script prints. They need two blocks with one digest, a vote signed with another member's key, or a settlement with
//! a stray id, which no program gets.
use nw_check::CertFault;
use nw_digest::Shared;
use nw_interpreter::{Bindings, committee, refused};
use nw_model::{CertifyReply, Reply, WriteReply};
use nw_play::PlayFault;
use nw_script::{CommitteeLine, Name};
use std::alloc::Global;
use std::test::Fail;

/// Replies to calls about the block `a`, and the line that a script prints for each.
const REPLIES: [(Reply, &str); 3] = [
    (Reply::Write(WriteReply::Clash), "a clash"),
    (Reply::Write(WriteReply::Misfit), "a misfit"),
    (Reply::Certify(CertifyReply::Misfit), "a misfit"),
];

/// Faults of the certificate of the block `a`, and the line that a script prints for each.
const REFUSED: [(CertFault, &str); 2] = [
    (CertFault::Signature { signer: 0 }, "a refused signature 0"),
    (
        CertFault::Signature { signer: 65_535 },
        "a refused signature 65535",
    ),
];

/// Bindings with one member and no names.
fn bindings_of_one_member(alloc: Global) -> Result<Bindings<'static>, Fail> {
    let one = committee(alloc, &CommitteeLine::Equal { members: 1 }).ok();
    Ok(Bindings::new(alloc, Shared::new(alloc, one.ok_or("a committee of one")?)?))
}

#[test]
fn replies_that_no_script_gets_have_their_words(rt: HostRuntime) -> Result<(), Fail> {
    let alloc = rt.alloc();
    let name = Name::new("a").ok_or("a letter is a name")?;
    let bindings = bindings_of_one_member(alloc)?;
    for (reply, prints) in REPLIES {
        let line = bindings.line_of(alloc, Some(name), &reply).ok();
        assert_eq!(rt; line.as_deref(), Some(prints));
    }
    for (fault, prints) in REFUSED {
        let line = refused(alloc, name, fault).ok();
        assert_eq!(rt; line.as_deref(), Some(prints));
    }
    Ok(())
}

/// Members of a committee of one hundred, and the last two bytes of the key of each. The other 30 bytes are zeros.
const KEYS: [(u16, [u8; 2]); 4] = [(0, [0, 0]), (1, [0, 1]), (2, [0, 2]), (99, [0, 99])];

/// The bytes of the member's key in the committee of this line, if there is such a member.
fn key_of(alloc: Global, line: &CommitteeLine, member: u16) -> Result<Option<[u8; 32]>, Fail> {
    let members = committee(alloc, line).ok().ok_or("there is a committee")?;
    Ok(members.key(member).map(|key| key.0))
}

#[test]
fn members_have_the_keys_of_their_numbers(rt: HostRuntime) -> Result<(), Fail> {
    let alloc = rt.alloc();
    let lines = [
        CommitteeLine::Equal { members: 100 },
        CommitteeLine::Weighted {
            weights: vec![in alloc; 1; 100]?,
        },
    ];
    for line in &lines {
        for (member, end) in KEYS {
            let mut bytes = [0; 32];
            bytes[30] = end[0];
            bytes[31] = end[1];
            assert_eq!(rt; key_of(alloc, line, member)?, Some(bytes), "{member}");
        }
        assert_eq!(rt; key_of(alloc, line, 100)?, None);
    }
    Ok(())
}

/// The text of each fault. Those of a bad line and of sessions that differ are printed.
const FAULTS: [(PlayFault, &str); 6] = [
    (PlayFault::Read, "the script can't be read"),
    (PlayFault::Write, "the answers can't be written"),
    (PlayFault::TooLong, "the script is too long"),
    (PlayFault::BadLine { line: 7 }, "line 7 bad"),
    (PlayFault::NoMemory, "out of memory"),
    (PlayFault::Differs { session: 3 }, "differs 3 0"),
];

#[test]
fn each_fault_of_a_play_has_its_words(rt: HostRuntime) -> Result<(), Fail> {
    for (fault, words) in FAULTS {
        let text = format!(in rt.alloc(); "{fault}")?;
        assert_eq!(rt; text.as_str(), words);
    }
    Ok(())
}
