//! Servers whose doors have no link.
use crate::servers::{serve, stand_of};
use std::alloc::{AllocError as NoMemory, Global};
use std::collections::VecDeque;
use std::sync::Wait;
use std::test::Fail;
use std::thread::Threads;

const USAGE: &str = "usage: mapd replay | drill KEY COUNT | serve ADDRESS WORKERS\n";

// How many doors there are for two workers, the status, and what is written.
static CASES: [(usize, u8, &str); 2] = [(2, 0, ""), (1, 2, USAGE)];

fn is_as_told<R: Threads + Wait + Sync>(
    rt: &R,
    alloc: Global,
    case: &(usize, u8, &str),
) -> Result<bool, NoMemory> {
    let mut stands = Vec::new(alloc);
    for _ in 0..case.0 {
        stands.push(stand_of(alloc, VecDeque::new(alloc))?)?;
    }
    let (status, written) = serve(rt, alloc, "2", 0, stands.as_mut_slice())?;
    Ok(status == case.1 && written.as_slice() == case.2.as_bytes())
}

#[test]
fn a_server_has_as_many_doors_as_workers(rt: HostRuntime) -> Result<(), Fail> {
    for case in &CASES {
        assert!(rt; is_as_told(&rt, rt.alloc(), case)?, "{} doors", case.0);
    }
    Ok(())
}
