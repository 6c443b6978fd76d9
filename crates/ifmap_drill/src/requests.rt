//! The requests of a drill.
ghost use Rattle.std.specs.Prelude.{◌≡◌, ◌<◌, ◌∷◌, [], IfOk};
ghost use Rattle.ifmap_requests.specs.declared.requests.Request.TheVariants as the_request;
ghost use Rattle.ifmap_drill.specs.Extent.{client_count};
ghost use Rattle.ifmap_drill.specs.Requests.{delete_of, request_by, drill_search, subscription_of, update_of};

use crate::parts::{address, draw_link, link_metadata};
use crate::tasks::Task;
use ifmap_elem::{Many, Text};
use ifmap_ident::Item;
use ifmap_requests::{PublishOp, Request, SubscribeOp};
use ifmap_search::Search;
use rand_pcg::Lcg128Xsl64;
use std::alloc::{AllocError as NoMemory, Global};

// The most bytes of the result of a search.
const LARGEST_RESULT: u64 = 1_000_000;

// How far the own addresses of clients are apart.
const ADDRESS_DISTANCE: u64 = 100;

// Within how many links of the client's own address a subscription is.
const SUBSCRIPTION_DEPTH: u32 = 20;

/// The request of a task, for a client with this number and session.
pub fn request_by(
    alloc: Global,
    task: Task,
    client: u32,
    session: Text,
    draws: &mut Lcg128Xsl64,
) -> Result<Request, NoMemory>
    requires { client < client_count }
    ensures { IfOk result (λ request.
        (request, draws.new) ≡ request_by task client session draws.old) }
{
    match task {
        Task::Begin => Ok(Request::NewSession { limit: None }),
        Task::Subscribe => subscribe_request(alloc, client, session),
        Task::Update => {
            let op = update_of(alloc, draw_link(alloc, draws))?;
            publish_request(alloc, session, op)
        }
        Task::Delete => {
            let op = delete_of(draw_link(alloc, draws));
            publish_request(alloc, session, op)
        }
        Task::Search => Ok(Request::Search {
            session,
            search: search_near(alloc, client, 1),
        }),
        Task::Poll => Ok(Request::Poll { session }),
        Task::Renew => Ok(Request::RenewSession { session }),
    }
}

// That a link carries the drill's element.
fn update_of(alloc: Global, item: Item) -> Result<PublishOp, NoMemory>
    ensures { IfOk result (λ op. op ≡ update_of item) }
{
    let mut elements = Many::new(alloc);
    elements.push(link_metadata(alloc)?)?;
    Ok(PublishOp::Update {
        item,
        elements,
        forever: false,
    })
}

// That a link carries nothing.
fn delete_of(item: Item) -> PublishOp
    ensures { result ≡ delete_of item }
{
    PublishOp::Delete { item, filter: None }
}

// A publish of one operation.
fn publish_request(alloc: Global, session: Text, op: PublishOp) -> Result<Request, NoMemory>
    ensures { IfOk result (λ request. request ≡ the_request.Publish session (op ∷ [])) }
{
    let mut ops = Many::new(alloc);
    ops.push(op)?;
    Ok(Request::Publish { session, ops })
}

// A subscription to what is within so many links.
fn subscribe_request(alloc: Global, client: u32, session: Text) -> Result<Request, NoMemory>
    requires { client < client_count }
    ensures { IfOk result (λ request.
        request ≡ the_request.Subscribe session (subscription_of client ∷ [])) }
{
    let name = Text::from_str(alloc, "s")?;
    let mut ops = Many::new(alloc);
    ops.push(SubscribeOp::Update {
        name,
        search: search_near(alloc, client, SUBSCRIPTION_DEPTH),
    })?;
    Ok(Request::Subscribe { session, ops })
}

// What is within so many links of a client's own address.
fn search_near(alloc: Global, client: u32, depth: u32) -> Search
    requires { client < client_count }
    ensures { result ≡ drill_search client depth }
{
    Search {
        start: address(alloc, u64::from(client) * ADDRESS_DISTANCE),
        match_links: None,
        max_depth: depth,
        max_size: LARGEST_RESULT,
        result_filter: None,
        terminal: Many::new(alloc),
    }
}
