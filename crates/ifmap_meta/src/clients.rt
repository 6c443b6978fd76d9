//! The names of clients.
ghost use Rattle.std.specs.Prelude.{◌≡◌, ◌==◌, ◌↔◌, IsSome, IfSome, IsTrue};
ghost use Rattle.std.specs.Cmp.{partial_order_from_own_ties};
ghost use Rattle.std.specs.Cmp.Lexicographic.{pointwise, slice_cmp};
ghost use Rattle.std.specs.Cmp.Rules.{comparing};
ghost use Rattle.std.specs.List.{list_all};
ghost use Rattle.std.specs.Ordering.{nat_cmp, as_partial_cmp};
ghost use Rattle.std.proofs.Common.{rules};
ghost use Rattle.ifmap_meta.specs.ClientNames.{IsClientName, is_client_byte};

use ifmap_elem::{Copied, Equals, Text};
use std::alloc::{AllocError as NoMemory, Global};
use std::cmp::Ordering;
use std::marker::Model;

/// The name of a client, which is its publisher id too: 1 to 40 ASCII letters, digits, full stops,
/// low lines and hyphens. Contracts see its bytes.
#[derive(Debug, Drop)]
pub struct ClientName(Text);

impl Model for ClientName {
    ghost use Rattle.std.specs.Prelude.{List, ℕ};
    ghost use Rattle.ifmap_meta.specs.ClientNames.{IsClientName};

    ghost Value = { List ℕ };

    ghost view = { λ name. name.0 };

    ghost invariant = { λ name. IsClientName name.0 };
}

impl ClientName {
    /// The text as a name; `None` exactly where it is none. It takes no memory.
    pub fn new(text: Text) -> Option<ClientName>
        ensures some { IsSome result ↔ IsClientName text }
        ensures text { IfSome result (λ name. name ≡ text) }
    {
        if is_client_name(text.as_str()) {
            Some(ClientName(text))
        } else {
            None
        }
    }

    /// The name's text. It takes no memory.
    pub fn text(&self) -> &Text
        ensures text { result.now ≡ self.now }
        ensures form { IsClientName self.now }
    {
        &self.0
    }
}

impl Copied for ClientName {
    fn copy(&self, alloc: Global) -> Result<Self, NoMemory> {
        Ok(ClientName(self.0.copy(alloc)?))
    }
}

impl Equals for ClientName {
    fn equals(&self, other: &ClientName) -> bool {
        self.0.equals(&other.0)
    }
}

impl PartialEq for ClientName {
    ghost eq = { pointwise ◌==◌ };

    ghost laws = { Prim.search (comparing, rules) };

    fn eq(&self, other: &ClientName) -> bool {
        self.0 == other.0
    }
}

impl Eq for ClientName {
    ghost laws = { Prim.search (comparing, rules) };
}

/// By the bytes.
impl Ord for ClientName {
    ghost cmp = { slice_cmp nat_cmp };

    ghost total = { Prim.search (comparing, rules) };

    ghost matches_partial_cmp = { Prim.search (comparing, rules) };

    ghost matches_eq = { Prim.search (comparing, rules) };

    fn cmp(&self, other: &ClientName) -> Ordering {
        self.0.cmp(&other.0)
    }
}

impl PartialOrd for ClientName {
    ghost partial_cmp = { as_partial_cmp (slice_cmp nat_cmp) };

    ghost laws = { partial_order_from_own_ties (Prim.search (comparing, rules))
        (Prim.search (comparing, rules)) };

    fn partial_cmp(&self, other: &ClientName) -> Option<Ordering> {
        Some(self.cmp(other))
    }
}

// The most bytes of a client's name.
const LONGEST_CLIENT_NAME: usize = 40;

fn is_client_name(text: &str) -> bool
    ensures { IsTrue result ↔ IsClientName text.now }
{
    1 <= text.len() && text.len() <= LONGEST_CLIENT_NAME && are_client_bytes(text.as_bytes())
}

fn are_client_bytes(bytes: &[u8]) -> bool
    ensures { result ≡ list_all is_client_byte bytes.now }
{
    bytes.iter().all(|b| is_client_byte(*b))
}

fn is_client_byte(b: u8) -> bool
    ensures { result ≡ is_client_byte b }
{
    b.is_ascii_alphanumeric() || matches!(b, b'.' | b'_' | b'-')
}
