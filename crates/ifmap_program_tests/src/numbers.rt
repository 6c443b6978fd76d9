//! What is in use after events: identifiers that are no longer are let go of.
use crate::asks::{Counts, ask};
use ifmap_core::{Core, SESSION_SECONDS};
use std::test::Fail;

// A client, what it asks, and the identifiers, links and found entries after it.
type Row = (&'static str, &'static str, u64, u64, usize);

// c1 publishes on two links; c2 subscribes to an identifier that both have. Then c1's session ends, and
// c2 deletes the subscription. What c2 publishes there later is found.
static FREED: [Row; 8] = [
    ("c1", "<i:newSession/>", 0, 0, 0),
    ("c2", "<i:newSession/>", 0, 0, 0),
    (
        "c1",
        "<i:publish session-id='1-00000000-0000-0000-0000-000000000001'><update><mac-address value='00:00:5e:00:53:01'/><mac-address value='00:00:5e:00:53:02'/><metadata><m:role ifmap-cardinality='singleValue'/></metadata></update><update><mac-address value='00:00:5e:00:53:01'/><ip-address type='IPv4' value='192.0.2.7'/><metadata><m:role ifmap-cardinality='singleValue'/></metadata></update></i:publish>",
        3,
        2,
        0,
    ),
    (
        "c2",
        "<i:subscribe session-id='2-00000000-0000-0000-0000-000000000001'><update name='s'><mac-address value='00:00:5e:00:53:01'/></update></i:subscribe>",
        3,
        2,
        0,
    ),
    (
        "c1",
        "<i:endSession session-id='1-00000000-0000-0000-0000-000000000001'/>",
        1,
        0,
        0,
    ),
    (
        "c2",
        "<i:subscribe session-id='2-00000000-0000-0000-0000-000000000001'><delete name='s'/></i:subscribe>",
        0,
        0,
        0,
    ),
    (
        "c2",
        "<i:publish session-id='2-00000000-0000-0000-0000-000000000001'><update><mac-address value='00:00:5e:00:53:01'/><metadata><m:role ifmap-cardinality='singleValue'/></metadata></update></i:publish>",
        1,
        0,
        0,
    ),
    (
        "c2",
        "<i:search session-id='2-00000000-0000-0000-0000-000000000001'><mac-address value='00:00:5e:00:53:01'/></i:search>",
        1,
        0,
        1,
    ),
];

#[test]
fn numbers_are_freed(rt: HostRuntime) -> Result<(), Fail> {
    let mut core = Core::new(rt.alloc(), SESSION_SECONDS);
    for (client, inner, identifiers, links, found) in FREED {
        let counts = ask(rt.alloc(), &mut core, client, inner)?;
        let due = Counts {
            identifiers,
            links,
            found,
        };
        assert_eq!(rt; counts, due, "{inner}");
    }
    Ok(())
}
