//! Which calls fail, and how the script ends.
use ifmap_client_script::{Outcome, run_script};
use ifmap_elem::Text;
use ifmap_http::Wire;
use ifmap_io::{MemoryLink, MemorySink, MemorySource};
use ifmap_meta::ClientName;
use std::alloc::{AllocError as NoMemory, Global};

const NEW: &str = "<i:newSession xmlns:i='http://www.trustedcomputinggroup.org/2010/IFMAP/2'/>";

// A script, which calls of its source, of the sink and of the first link fail, and how it ends.
type Case = (
    &'static str,
    &'static [u64],
    &'static [u64],
    &'static [u64],
    Outcome,
);

static CASES: [Case; 7] = [
    ("set s\n", &[0], &[], &[], Outcome::ReadFault),
    ("set s\n", &[1], &[], &[], Outcome::ReadFault),
    // A line that was taken is at fault before the next read fails.
    ("x\n", &[1], &[], &[], Outcome::BadLine { line: 1 }),
    ("set s\n", &[], &[0], &[], Outcome::WriteFault),
    ("set s\n", &[], &[1], &[], Outcome::WriteFault),
    (NEW, &[], &[], &[0], Outcome::LinkFault),
    (NEW, &[], &[], &[2], Outcome::LinkFault),
];

// A link that has nothing left, and fails at these calls.
fn link_of(alloc: Global, fails: &[u64]) -> Result<MemoryLink, NoMemory> {
    let fails = fails.to_vec(alloc)?;
    Ok(MemoryLink::new(Vec::new(alloc), Vec::new(alloc), fails))
}

fn outcome_of(alloc: Global, case: &Case) -> Result<Outcome, NoMemory> {
    let (script, source, sink, link, _) = case;
    let mut source = MemorySource::new(script.as_bytes().to_vec(alloc)?, source.to_vec(alloc)?);
    let mut sink = MemorySink::new(Vec::new(alloc), sink.to_vec(alloc)?);
    let mut first = Wire::new(alloc, link_of(alloc, link)?);
    let mut second = Wire::new(alloc, link_of(alloc, &[])?);
    let client = ClientName::new(Text::from_str(alloc, "c1")?).ok_or(NoMemory)?;
    let host = Text::from_str(alloc, "h")?;
    Ok(run_script(
        alloc,
        &client,
        &host,
        &mut source,
        &mut sink,
        &mut first,
        &mut second,
    ))
}

#[test]
fn faults_end_a_script(rt: HostRuntime) {
    for (number, case) in CASES.iter().enumerate() {
        assert_eq!(rt; outcome_of(rt.alloc(), case), Ok(case.4), "case {number}");
    }
}
