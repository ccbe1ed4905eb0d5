//! Parsing the lines of a script.
use nw_script::{BlockLine, CommitteeLine, Line, LineFault, Request, parse_line};
use std::alloc::{AllocError, Global};
use std::test::Fail;

// Lines of each kind, with the smallest and the largest numbers that they take, and a description of each parsed line.
const LINES: [(&str, &str); 34] = [
    ("", "skipped"),
    ("# a comment", "skipped"),
    ("committee v1 4", "4 equal members"),
    ("committee v2 3,1,1,1", "members of weights [3, 1, 1, 1]"),
    ("committee v2 -", "members of weights []"),
    (
        "limits 16 0 4 4294967295",
        "LimitsLine { blocks: 16, events: 0, window: 4, sessions: 4294967295 }",
    ),
    (
        "block b 65535 281474976710655 a0,a1 x,y",
        "block b of 65535 in 281474976710655 over a0 a1 with [\"x\", \"y\"]",
    ),
    ("block a 0 0 - -", "block a of 0 in 0 over with []"),
    ("body a", "body of a"),
    ("digest a", "digest of a"),
    ("hash abc", "hash \"abc\""),
    ("hash -", "hash \"\""),
    ("write a", "write a by None"),
    ("write a 65535", "write a by Some(65535)"),
    ("read a", "read a"),
    ("certify a 2,0,2", "certify a by [2, 0, 2]"),
    ("valid a -", "valid a by []"),
    ("gather a 0,1,1,2,9", "gather a by [0, 1, 1, 2, 9]"),
    ("certificate a", "certificate of a"),
    ("causal a", "causal a"),
    ("open t a", "open t of a"),
    ("walk t", "walk t"),
    ("collect 281474976710655", "collect 281474976710655"),
    ("missing 65535", "missing 65535"),
    ("missing-of a", "missing of a"),
    ("status", "status"),
    (
        "look 281474976710655 65535",
        "look in 281474976710655 at 65535",
    ),
    ("look-round 281474976710655", "look in 281474976710655"),
    ("compact", "compact"),
    ("session 65535", "session 65535"),
    ("settle", "settle"),
    ("reopen", "reopen"),
    ("read abcdefghijklmno1", "read abcdefghijklmno1"),
    (
        "hash 0123456789012345678901234567890123456789012345678901234567890123",
        "hash \"0123456789012345678901234567890123456789012345678901234567890123\"",
    ),
];

// Bad lines, and what each shows.
const BAD: [(&str, &str); 33] = [
    ("a request with a word too few", "read"),
    ("a request with a word too many", "read a a"),
    ("two spaces", "read  a"),
    ("a space at the end", "read a "),
    ("an unknown request", "frob a"),
    ("a committee of another kind", "committee v3 1"),
    ("a committee of 01", "committee v1 01"),
    ("a committee of 2^32", "committee v1 4294967296"),
    ("a committee without weights", "committee v2"),
    ("weights that end in a comma", "committee v2 1,"),
    ("a weight of 2^32", "committee v2 4294967296"),
    ("an empty list of weights", "committee v2 "),
    ("a dash among weights", "committee v2 1,-"),
    ("a signer over 65535", "write a 65536"),
    ("a signer that is a name", "write a b"),
    ("two signers", "write a 0 1"),
    ("a signer that is an empty word", "write a "),
    ("valid without signers", "valid a"),
    ("valid with an empty word among its signers", "valid a 0,,1"),
    ("gather without signers", "gather a"),
    ("gather of a name that is none", "gather 1 0"),
    ("a collection of no round", "collect 281474976710656"),
    ("more missing than 65535", "missing 65536"),
    ("a word after status", "status 0"),
    ("a look at no round", "look 281474976710656 0"),
    ("a look at an author over 65535", "look 0 65536"),
    ("a look at a round with an author", "look-round 0 0"),
    ("a word after compact", "compact t"),
    ("a session over 65535", "session 65536"),
    ("a session that is a name", "session a"),
    ("a word after settle", "settle 0"),
    ("a word after reopen", "reopen a"),
    ("a byte over 127", "read \u{e9}"),
];

/// The description of a block's line.
fn describe_block(alloc: Global, block: &BlockLine<'_>) -> Result<String, AllocError> {
    let (name, author, round) = (block.name, block.author, block.round.get());
    let mut text = format!(in alloc; "block {name} of {author} in {round} over")?;
    for parent in &block.parents {
        text.push(' ')?;
        text.push_str(parent.as_str())?;
    }
    text.push_str(&format!(in alloc; " with {:?}", block.transactions)?)?;
    Ok(text)
}

/// The description of a request.
fn describe_request(alloc: Global, request: &Request<'_>) -> Result<String, AllocError> {
    match request {
        Request::Block(block) => describe_block(alloc, block),
        Request::Body(name) => format!(in alloc; "body of {name}"),
        Request::Digest(name) => format!(in alloc; "digest of {name}"),
        Request::Hash(word) => format!(in alloc; "hash {word:?}"),
        Request::Write { name, signer } => format!(in alloc; "write {name} by {signer:?}"),
        Request::Read(name) => format!(in alloc; "read {name}"),
        Request::Certify { name, signers } => format!(in alloc; "certify {name} by {signers:?}"),
        Request::Valid { name, signers } => format!(in alloc; "valid {name} by {signers:?}"),
        Request::Gather { name, signers } => format!(in alloc; "gather {name} by {signers:?}"),
        Request::Certificate(name) => format!(in alloc; "certificate of {name}"),
        Request::Causal(name) => format!(in alloc; "causal {name}"),
        Request::Open { ticket, name } => format!(in alloc; "open {ticket} of {name}"),
        Request::Walk(ticket) => format!(in alloc; "walk {ticket}"),
        Request::Collect(round) => format!(in alloc; "collect {}", round.get()),
        Request::Missing(most) => format!(in alloc; "missing {most}"),
        Request::MissingOf(name) => format!(in alloc; "missing of {name}"),
        Request::Status => format!(in alloc; "status"),
        Request::Look { round, author } => format!(in alloc; "look in {} at {author}", round.get()),
        Request::LookRound(round) => format!(in alloc; "look in {}", round.get()),
        Request::Compact => format!(in alloc; "compact"),
        Request::Session(id) => format!(in alloc; "session {id}"),
    }
}

/// The description of a parsed line.
fn describe(alloc: Global, line: &Line<'_>) -> Result<String, AllocError> {
    match line {
        Line::Skipped => format!(in alloc; "skipped"),
        Line::Committee(CommitteeLine::Equal { members }) => {
            format!(in alloc; "{members} equal members")
        }
        Line::Committee(CommitteeLine::Weighted { weights }) => {
            format!(in alloc; "members of weights {weights:?}")
        }
        Line::Limits(limits) => format!(in alloc; "{limits:?}"),
        Line::Settle => format!(in alloc; "settle"),
        Line::Reopen => format!(in alloc; "reopen"),
        Line::Request(request) => describe_request(alloc, request),
    }
}

#[test]
fn each_kind_of_line_is_read(rt: HostRuntime) -> Result<(), Fail> {
    for (line, wanted) in &LINES {
        let read = parse_line(rt.alloc(), line.as_bytes())?;
        assert!(rt; describe(rt.alloc(), &read)?.as_str() == *wanted, "{line}");
    }
    Ok(())
}

#[test]
fn lines_outside_the_grammar_are_bad(rt: HostRuntime) {
    for (shows, line) in &BAD {
        let fault = parse_line(rt.alloc(), line.as_bytes()).err();
        assert!(rt; fault == Some(LineFault::Bad), "{shows}");
    }
}

#[test]
fn bytes_that_are_not_ascii_are_bad_in_a_word_and_in_a_comment(rt: HostRuntime) {
    for line in [b"read \xff", b"hash \xff", b"# no \xff"] {
        let fault = parse_line(rt.alloc(), line.as_slice()).err();
        assert!(rt; fault == Some(LineFault::Bad));
    }
}
