//! What a core keeps. The patterns name every field: with another one this does not compile.
use ifmap_core::{Parts, Standing};
use ifmap_delta::Subscription;
use ifmap_elem::{Many, Text};
use ifmap_graph::Graph;
use ifmap_ident::Identifier;
use ifmap_region::Region;
use ifmap_search::Search;
use ifmap_session::Sessions;
use indexmap::IndexMap;
use std::alloc::{AllocError as NoMemory, Global};
use std::test::Fail;

// The search for what is said of a device alone.
fn search(alloc: Global) -> Result<Search, NoMemory> {
    let name = Text(String::from_str(alloc, "d")?);
    Ok(Search {
        start: Identifier::Device { name },
        match_links: None,
        max_depth: 2,
        max_size: 100_000,
        result_filter: None,
        terminal: Many(Vec::new(alloc)),
    })
}

// A subscription that stands.
fn make_standing(alloc: Global) -> Result<Standing, NoMemory> {
    let region = Region {
        start: 7,
        max_depth: 2,
        marks: IndexMap::new(alloc),
    };
    let subscription = Subscription {
        search: search(alloc)?,
        region,
        size: 237,
    };
    let name = Text(String::from_str(alloc, "s")?);
    Ok(Standing {
        serial: 1,
        name,
        subscription,
    })
}

// The numbers in what stands, field by field.
fn take_apart(standing: Standing) -> (u64, usize, u64, u64, u32, usize) {
    let Standing {
        serial,
        name,
        subscription,
    } = standing;
    let Subscription {
        search: _,
        region,
        size,
    } = subscription;
    let Region {
        start,
        max_depth,
        marks,
    } = region;
    (serial, name.len(), size, start, max_depth, marks.len())
}

// How many subscriptions stand beside a graph and sessions.
fn count_parts(parts: Parts) -> usize {
    let Parts {
        graph: _,
        sessions: _,
        standing,
    } = parts;
    standing.len()
}

#[test]
fn no_other_field(rt: HostRuntime) -> Result<(), Fail> {
    let alloc = rt.alloc();
    let parts = Parts {
        graph: Graph::new(alloc),
        sessions: Sessions::new(alloc),
        standing: Vec::new(alloc),
    };
    assert_eq!(rt; count_parts(parts), 0);
    assert_eq!(rt; take_apart(make_standing(alloc)?), (1, 1, 237, 7, 2, 0));
    Ok(())
}
