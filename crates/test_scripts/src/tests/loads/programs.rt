//! The output and the exit status of a program that runs loads.
use nw_load::{LoadFault, print_outcome, run};
use std::alloc::Global;
use std::io::{self, Write};
use std::test::Fail;

/// The arguments of the program, what it prints, and its exit status.
const LOADS: [(&str, &str, u8); 20] = [
    ("load 1 1", "node 0 events 3 last 1\n", 0),
    ("load 1 2", "node 0 events 6 last 2\n", 0),
    (
        "load 4 3",
        "node 0 events 27 last 9\nnode 1 events 27 last 9\nnode 2 events 27 last 9\nnode 3 events 27 last 9\n",
        0,
    ),
    ("load 0 1", "load refused nodes\n", 3),
    ("load 2 1", "load refused nodes\n", 3),
    ("load 3 1", "load refused nodes\n", 3),
    ("load 17 1", "load refused nodes\n", 3),
    ("load 19 1", "load refused nodes\n", 3),
    ("load 4294967295 1", "load refused nodes\n", 3),
    ("load 2 33", "load refused nodes\n", 3),
    ("load 1 0", "load refused rounds\n", 3),
    ("load 1 33", "load refused rounds\n", 3),
    ("load 1 4294967295", "load refused rounds\n", 3),
    ("load x 1", "", 2),
    ("load 1", "", 2),
    ("load 1 1 1", "", 2),
    ("load 01 1", "", 2),
    ("load 1 4294967296", "", 2),
    ("load +1 1", "", 2),
    ("play 1 1", "", 2),
];

/// The words of the line.
fn words_of(alloc: Global, line: &str) -> Result<Vec<String>, Fail> {
    let mut words = Vec::new(alloc);
    for word in line.split(' ') {
        words.push(String::from_str(alloc, word)?)?;
    }
    Ok(words)
}

#[test]
fn loads_and_refused_loads(rt: HostRuntime) -> Result<(), Fail> {
    for (line, prints, status) in LOADS {
        let words = words_of(rt.alloc(), line)?;
        let mut out = Vec::new(rt.alloc());
        assert_eq!(rt; run(&rt, rt.alloc(), &words, &mut out), status, "{line}");
        assert_eq!(rt; out.as_slice(), prints.as_bytes(), "{line}");
    }
    Ok(())
}

/// Faults of loads, and the line that each prints.
const REFUSED: [(LoadFault, &str); 7] = [
    (LoadFault::BadNodes, "load refused nodes\n"),
    (LoadFault::BadRounds, "load refused rounds\n"),
    (LoadFault::NoMemory, "load refused memory\n"),
    (LoadFault::Spawn, "load refused spawn\n"),
    (LoadFault::GateShut, "load refused gate\n"),
    (
        LoadFault::Causal { node: 3, round: 2 },
        "load refused causal\n",
    ),
    (LoadFault::Unsettled { node: 3 }, "load refused unsettled\n"),
];

#[test]
fn each_refusal_of_a_load_has_its_word_and_status_3(rt: HostRuntime) {
    for (fault, prints) in REFUSED {
        let mut out = Vec::new(rt.alloc());
        let outcome = Err(fault);
        assert_eq!(rt; print_outcome(&outcome, &mut out), 3, "{prints}");
        assert_eq!(rt; out.as_slice(), prints.as_bytes());
    }
}

/// A writer that takes nothing.
#[derive(Drop)]
struct Shut;

impl Write for Shut {
    fn write(&mut self, _buf: &[u8]) -> io::Result<usize> {
        Err(io::Error::other("shut"))
    }

    fn flush(&mut self) -> io::Result<()> {
        Err(io::Error::other("shut"))
    }
}

#[test]
fn a_report_that_cannot_be_written_has_status_1(rt: HostRuntime) -> Result<(), Fail> {
    for line in ["load 1 1", "load 2 1"] {
        let words = words_of(rt.alloc(), line)?;
        assert_eq!(rt; run(&rt, rt.alloc(), &words, &mut Shut), 1, "{line}");
    }
    Ok(())
}
