//! What posts come to: bodies are read, and what they mean is asked.
ghost use Rattle.std.specs.Prelude.{◌≡◌, ◌≤◌, ◌⊎◌, IfOk, length};
ghost use Rattle.ifmap_http.specs.ifmap_heads.Limits.{longest_post};
ghost use Rattle.ifmap_dialogue.specs.declared.findings.Finding.TheVariants as the_finding;
ghost use Rattle.ifmap_dialogue.specs.Findings.{FindsPost, refusal_reply};

use crate::desks::{Desk, Gate};
use crate::findings::Finding;
use crate::post_asks::{Asker, ask_request};
use crate::settings::Setting;
use ifmap_elem::{Many, Text};
use ifmap_ident::Code;
use ifmap_io::Clock;
use ifmap_machine::{Refusal, Reply, bodies_mean_fit_requests, read_request};
use ifmap_meta::ClientName;
use rand_chacha::ChaCha20Rng;
use std::alloc::{AllocError as NoMemory, Global};

// What comes of a body that the client posts.
pub(crate) fn consult<K: Desk, C: Clock, G: Gate>(
    setting: &Setting<'_, C>,
    desk: &mut K,
    words: &mut ChaCha20Rng,
    gate: &mut G,
    client: ClientName,
    body: &Many<u8>,
) -> Finding
    requires short { length body.now ≤ longest_post }
    ensures { FindsPost (C.gives setting.now.clock.now) (K.seen desk.old) (K.seen desk.new)
        (record { client = client; body = body.now; words = words.old; after = words.new })
        result }
{
    bodies_mean_fit_requests();
    let asker = Asker {
        client,
        bytes: body.len() as u32,
    };
    match read_request(setting.alloc, body.as_slice()) {
        Ok(request) => ask_request(setting, desk, words, gate, asker, request),
        Err(Refusal::Named(code)) => refuse(setting.alloc, code),
        Err(Refusal::Unreadable) => Finding::Unreadable,
        Err(Refusal::NoMemory) => Finding::NoMemory,
    }
}

// A body with a defect of this code comes to its refusal.
fn refuse(alloc: Global, code: Code) -> Finding
    ensures { (result ≡ the_finding.Replied (refusal_reply code))
        ⊎ (result ≡ the_finding.NoMemory) }
{
    match refusal_of(alloc, code) {
        Ok(reply) => Finding::Replied(reply),
        Err(_) => Finding::NoMemory,
    }
}

// The refusal with this code.
fn refusal_of(alloc: Global, code: Code) -> Result<Reply, NoMemory>
    ensures { IfOk result (λ reply. reply ≡ refusal_reply code) }
{
    let note = Text::from_str(alloc, code.name())?;
    Ok(Reply::Error { code, note })
}
