//! IPv4, IPv6 and MAC addresses as texts: which address a text is, the one canonical text of each
//! address, how two of these texts compare, and how long they are, without making them.
#![tactic(auto)]

mod digits;
pub mod ip_v4;
pub mod ip_v6;
pub mod laws;
pub mod mac_addresses;

pub use ip_v4::{ip_v4_len, ip_v4_of, ip_v4_order, push_ip_v4};
pub use ip_v6::{ip_v6_len, ip_v6_of, ip_v6_order, push_ip_v6};
pub use mac_addresses::{mac_address_len, mac_address_of, mac_address_order, push_mac_address};
