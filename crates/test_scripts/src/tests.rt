use nw_play::{PlayFault, play};
use std::alloc::Global;
use std::io::{self, ErrorKind, Read, Write};
use std::sync::Wait;
use std::test::Fail;

mod loads;
mod words;

/// A block is read back: a script, and what it prints.
const SCRIPT: &[u8] = b"committee v1 1\nblock a 0 0 - x\nwrite a\nread a\n";

const PRINTS: &[u8] = b"block a 18\na stored vote\na found 18\n";

/// A reader that is interrupted `interruptions` times, then gives one byte at a time, fails after `left` bytes, and counts its reads.
#[derive(Drop)]
struct Drip<'a> {
    rest: &'a [u8],
    interruptions: usize,
    left: usize,
    reads: usize,
}

impl Read for Drip<'_> {
    fn read(&mut self, buf: &mut [u8]) -> io::Result<usize> {
        self.reads = self.reads.saturating_add(1);
        if self.interruptions > 0 {
            self.interruptions -= 1;
            return Err(io::Error::from(ErrorKind::Interrupted));
        }
        if self.left == 0 {
            return Err(io::Error::other("dry"));
        }
        self.left -= 1;
        match self.rest.split_first() {
            Some((byte, rest)) if !buf.is_empty() => {
                buf[0] = *byte;
                self.rest = rest;
                Ok(1)
            }
            _ => Ok(0),
        }
    }
}

/// A writer that allocates nothing, takes `lines` lines and then fails, and counts its failures.
#[derive(Drop)]
struct Page {
    bytes: [u8; 512],
    used: usize,
    lines: usize,
    failed: usize,
}

impl Write for Page {
    fn write(&mut self, buf: &[u8]) -> io::Result<usize> {
        if self.lines == 0 {
            self.failed = self.failed.saturating_add(1);
            return Err(io::Error::other("full"));
        }
        let Some(room) = self.bytes.get_mut(self.used..) else {
            return Ok(0);
        };
        let mut count = buf.len().min(room.len());
        if let Some(end) = buf[..count].iter().position(|byte| *byte == b'\n') {
            count = end + 1;
            self.lines -= 1;
        }
        room[..count].copy_from_slice(&buf[..count]);
        self.used += count;
        Ok(count)
    }

    fn flush(&mut self) -> io::Result<()> {
        Ok(())
    }
}

/// An empty page that takes this number of lines.
fn empty_page(lines: usize) -> Page {
    Page {
        bytes: [0; 512],
        used: 0,
        lines,
        failed: 0,
    }
}

/// The outcome of a play, and the numbers of reads, of bytes written, and of failed writes.
type Found = (Result<(), PlayFault>, [usize; 3]);

/// Plays the script from a `Drip` with these interruptions and bytes, to a page that takes this number of lines.
fn played<R: Wait>(
    rt: &R,
    alloc: Global,
    script: &[u8],
    [interruptions, left, lines]: [usize; 3],
) -> (Found, Page) {
    let mut reader = Drip {
        rest: script,
        interruptions,
        left,
        reads: 0,
    };
    let mut page = empty_page(lines);
    let outcome = play(rt, alloc, &mut reader, &mut page);
    ((outcome, [reader.reads, page.used, page.failed]), page)
}

#[test]
fn readers_and_writers_fail(rt: HostRuntime) {
    for (shows, left, lines, outcome, counts) in [
        ("one byte at a time", 99, 9, Ok(()), [47, 36, 0]),
        ("after 10 bytes", 10, 9, Err(PlayFault::Read), [11, 0, 0]),
        ("at line 2", 99, 1, Err(PlayFault::Write), [47, 11, 1]),
    ] {
        let (found, page) = played(&rt, rt.alloc(), SCRIPT, [0, left, lines]);
        assert_eq!(rt; found, (outcome, counts), "{shows}");
        assert_eq!(rt;
            page.bytes.get(..page.used),
            PRINTS.get(..page.used),
            "{shows}"
        );
    }
}

// The script takes 47 reads, and a reader is asked at most 1,048,577 times.
#[test]
fn interrupted_reads_are_repeated_and_counted(rt: HostRuntime) {
    for (interruptions, outcome, counts) in [
        (3, Ok(()), [50, 36, 0]),
        (1_048_530, Ok(()), [1_048_577, 36, 0]),
        (1_048_531, Err(PlayFault::TooLong), [1_048_577, 0, 0]),
    ] {
        let limits = [interruptions, usize::MAX, 9];
        let (found, page) = played(&rt, rt.alloc(), SCRIPT, limits);
        assert_eq!(rt; found, (outcome, counts), "{interruptions}");
        assert_eq!(rt; page.bytes.get(..page.used), PRINTS.get(..page.used));
    }
}

// The answers take more than the 8,192 bytes that the player's writer keeps.
#[test]
fn many_answers_are_printed_once_and_in_order(rt: HostRuntime) -> Result<(), Fail> {
    let alloc = rt.alloc();
    let (mut script, mut prints) = (SCRIPT.to_vec(alloc)?, PRINTS.to_vec(alloc)?);
    for number in 0..2000 {
        script.extend_from_slice(format!(in alloc; "block b{number} 0 0 - x\n")?.as_bytes())?;
        prints.extend_from_slice(format!(in alloc; "block b{number} 18\n")?.as_bytes())?;
    }
    let mut printed = Vec::new(alloc);
    assert_eq!(rt; play(&rt, alloc, script.as_slice(), &mut printed), Ok(()));
    assert_eq!(rt; printed.as_slice(), prints.as_slice());
    let mut page = empty_page(9);
    let played = play(&rt, alloc, script.as_slice(), &mut page);
    assert_eq!(rt; (played, page.failed), (Err(PlayFault::Write), 1));
    Ok(())
}

#[test]
fn the_longest_script_is_played_and_a_longer_one_is_not(rt: HostRuntime) -> Result<(), Fail> {
    let script = vec![in rt.alloc(); b'\n'; 2_000_000]?;
    let longest = PlayFault::BadLine { line: 1_048_577 };
    let cases: [(usize, PlayFault, &[u8]); 3] = [
        (1_048_576, longest, b"line 1048577 bad\n"),
        (1_048_577, PlayFault::TooLong, b""),
        (2_000_000, PlayFault::TooLong, b""),
    ];
    for (length, fault, prints) in cases {
        let part = script.get(..length).ok_or("the script is shorter")?;
        let (found, page) = played(&rt, rt.alloc(), part, [0, usize::MAX, 9]);
        let counts = [1_048_577, prints.len(), 0];
        assert_eq!(rt; found, (Err(fault), counts), "{length}");
        assert_eq!(rt; page.bytes.get(..page.used), Some(prints), "{length}");
    }
    Ok(())
}

/// A ticket is walked after its blocks were collected: a script, and what it prints.
const LATE: &[u8] = b"committee v1 4
block a0 0 0 - -
block a1 1 0 - -
block a2 2 0 - -
block b 0 1 a0,a1,a2 -
write a0
write a1
write a2
write b
certify a0 0,1,2
certify a1 0,1,2
certify a2 0,1,2
certify b 0,1,2
open t b
collect 2
walk t
read b
causal b
";

const LATE_PRINTS: &[u8] = b"block a0 13
block a1 13
block a2 13
block b 115
a0 stored vote
a1 stored vote
a2 stored vote
b stored vote
a0 certified
a1 certified
a2 certified
b certified
t ready
raised 4
t causal a0 a1 a2 b
b unknown
b unknown
";

// `rt try --test --fail-alloc N` makes the Nth allocation fail. Only that one fails, so the next play prints everything.
#[test]
fn a_failed_allocation_ends_a_play_after_its_first_answers_but_not_the_next(rt: HostRuntime) {
    let mut page = empty_page(99);
    let played = play(&rt, rt.alloc(), LATE, &mut page);
    let printed = page.bytes.get(..page.used).unwrap_or(&[]);
    assert!(rt; LATE_PRINTS.starts_with(printed));
    if played.is_err() {
        assert_eq!(rt; played, Err(PlayFault::NoMemory));
        page = empty_page(99);
        assert_eq!(rt; play(&rt, rt.alloc(), LATE, &mut page), Ok(()));
    }
    assert_eq!(rt; page.bytes.get(..page.used), Some(LATE_PRINTS));
}
