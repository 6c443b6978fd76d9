//! What stands on places, as a plain list.
use ifmap_fresh_tests::places::Place;
use ifmap_meta::Life;

// A place, with how its item is written.
pub(crate) struct Spot {
    pub(crate) place: Place,
    pub(crate) written: &'static str,
}

// A type of metadata.
pub(crate) struct Sort {
    pub(crate) name: &'static str,
    pub(crate) cardinality: &'static str,
}

pub(crate) static SPOTS: [Spot; 6] = [
    Spot {
        place: Place::At(1),
        written: "<mac-address value='00:00:5e:00:53:01'/>",
    },
    Spot {
        place: Place::At(2),
        written: "<mac-address value='00:00:5e:00:53:02'/>",
    },
    Spot {
        place: Place::At(3),
        written: "<mac-address value='00:00:5e:00:53:03'/>",
    },
    Spot {
        place: Place::Link(1, 2),
        written: "<mac-address value='00:00:5e:00:53:02'/><mac-address value='00:00:5e:00:53:01'/>",
    },
    Spot {
        place: Place::Link(1, 3),
        written: "<mac-address value='00:00:5e:00:53:01'/><mac-address value='00:00:5e:00:53:03'/>",
    },
    Spot {
        place: Place::Link(2, 3),
        written: "<mac-address value='00:00:5e:00:53:03'/><mac-address value='00:00:5e:00:53:02'/>",
    },
];

static SORTS: [Sort; 3] = [
    Sort {
        name: "a",
        cardinality: "singleValue",
    },
    Sort {
        name: "a",
        cardinality: "multiValue",
    },
    Sort {
        name: "b",
        cardinality: "multiValue",
    },
];

static CLIENTS: [&str; 2] = ["c1", "c2"];

static TEXTS: [&str; 80] = [
    "00", "01", "02", "03", "04", "05", "06", "07", "08", "09", "10", "11", "12", "13", "14", "15",
    "16", "17", "18", "19", "20", "21", "22", "23", "24", "25", "26", "27", "28", "29", "30", "31",
    "32", "33", "34", "35", "36", "37", "38", "39", "40", "41", "42", "43", "44", "45", "46", "47",
    "48", "49", "50", "51", "52", "53", "54", "55", "56", "57", "58", "59", "60", "61", "62", "63",
    "64", "65", "66", "67", "68", "69", "70", "71", "72", "73", "74", "75", "76", "77", "78", "79",
];

// The moments 1000000000 to 1000000002.
static TIMES: [&str; 3] = [
    "2001-09-09T01:46:40Z",
    "2001-09-09T01:46:41Z",
    "2001-09-09T01:46:42Z",
];

pub(crate) fn spot_at(number: usize) -> &'static Spot {
    &SPOTS[number % 6]
}

pub(crate) fn sort_at(number: usize) -> &'static Sort {
    &SORTS[number % 3]
}

pub(crate) fn client_at(number: usize) -> &'static str {
    CLIENTS[number % 2]
}

pub(crate) fn text_at(number: usize) -> &'static str {
    TEXTS[number % 80]
}

pub(crate) fn time_at(number: usize) -> &'static str {
    TIMES[number % 3]
}

// The serial of a client's session.
pub(crate) fn serial_of(client: usize) -> u64 {
    if client == 0 { 1 } else { 2 }
}

// What is stored: all by its place in a table but for its lifetime.
#[derive(Clone, Copy)]
pub(crate) struct Fact {
    pub(crate) spot: usize,
    pub(crate) sort: usize,
    pub(crate) client: usize,
    pub(crate) time: usize,
    pub(crate) text: usize,
    pub(crate) life: Life,
}

pub(crate) fn count_at(facts: &[Fact], spot: usize) -> usize {
    let mut count = 0usize;
    for fact in facts {
        if fact.spot == spot {
            count = count.wrapping_add(1);
        }
    }
    count
}

fn names(place: Place, address: u8) -> bool {
    match place {
        Place::At(one) => one == address,
        Place::Link(one, other) => one == address || other == address,
    }
}

// Whether an address stands in a place that carries something.
fn is_used(facts: &[Fact], address: u8) -> bool {
    for fact in facts {
        if names(spot_at(fact.spot).place, address) {
            return true;
        }
    }
    false
}

// How many addresses stand in places that carry something.
pub(crate) fn count_addresses(facts: &[Fact]) -> u64 {
    let mut count = 0u64;
    for address in 1u8..4 {
        if is_used(facts, address) {
            count = count.wrapping_add(1);
        }
    }
    count
}

fn is_link(place: Place) -> bool {
    match place {
        Place::At(_) => false,
        Place::Link(_, _) => true,
    }
}

// Whether a place is a link that names an address, or any where that is 0.
fn is_link_of(place: Place, address: u8) -> bool {
    is_link(place) && (address == 0 || names(place, address))
}

// How many links that name an address carry something, or how many of all where that is 0.
pub(crate) fn count_links(facts: &[Fact], address: u8) -> u64 {
    let mut count = 0u64;
    for spot in 0..6 {
        if count_at(facts, spot) > 0 && is_link_of(spot_at(spot).place, address) {
            count = count.wrapping_add(1);
        }
    }
    count
}
