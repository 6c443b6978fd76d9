//! What the words of the program ask for.
ghost use Rattle.std.specs.Prelude.{◌≡◌, ℕ, List, true, IfNone, IfOk, IfSome, map, string_bytes};
ghost use Rattle.ifmap_http.specs.ifmap_heads.Messages.{is_visible};
ghost use Rattle.mapc.specs.Destinations.{AreHostAndClient, IsAskable, AreAddressAndName};

use ifmap_elem::Text;
use ifmap_meta::ClientName;
use ifmap_words::two_words;
use std::alloc::{AllocError as NoMemory, Global};

/// Whom to connect to, and as which client.
#[derive(Debug, Drop)]
pub struct Destination {
    /// An address with its port, as posts name their host: visible ASCII characters.
    pub host: Text,
    pub client: ClientName,
    pub ghost visible: { is_visible host ≡ true },
}

/// The destination that the words ask for, `ADDRESS NAME`; `None` exactly where they ask for none.
pub fn destination_of(alloc: Global, words: &[String]) -> Result<Option<Destination>, NoMemory>
    ensures some { IfOk result (λ found. IfSome found (λ to.
        AreAddressAndName (map string_bytes words.now) to.host to.client)) }
    ensures none { IfOk result (λ found. IfNone found ((host client : List ℕ)
        → AreAddressAndName (map string_bytes words.now) host client → ⊥)) }
{
    let Some(pair) = two_words(alloc, "mapc", words)? else {
        return Ok(None);
    };
    destination_in(alloc, pair.first, pair.second)
}

// The destination with that address and that name.
fn destination_in(alloc: Global, address: &str, name: &str) -> Result<Option<Destination>, NoMemory>
    ensures some { IfOk result (λ found. IfSome found (λ to.
        AreHostAndClient address.now name.now to.host to.client)) }
    ensures none { IfOk result (λ found. IfNone found (IsAskable address.now name.now → ⊥)) }
{
    if address.is_empty() || !is_visible(address) {
        return Ok(None);
    }
    let Some(client) = ClientName::new(Text::from_str(alloc, name)?) else {
        return Ok(None);
    };
    let host = Text::from_str(alloc, address)?;
    Ok(Some(Destination { host, client }))
}

// The text has visible ASCII characters alone.
fn is_visible(text: &str) -> bool
    ensures { result ≡ is_visible text.now }
{
    text.as_bytes().iter().all(|b| b.is_ascii_graphic())
}
