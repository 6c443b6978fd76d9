//! A session with its queue, whose size is kept.
ghost use Rattle.std.specs.Prelude.{◌≡◌, ◌+◌, ◌-◌, ◌^◌, ◌≤◌, [], filter, length, min, not, sum_by, vec_capacity, vec_len, OnErr, OnOk, IfOk};
ghost use Rattle.ifmap_search.specs.Sizes.{queue_size};
ghost use Rattle.ifmap_session.specs.Seats.{counted_size};
ghost use Rattle.ifmap_session.specs.Sessions.{is_named, with_error, with_item, with_last, without_items, without_name};

use ifmap_elem::{Equals, Many, Text};
use ifmap_io::Moment;
use ifmap_meta::ClientName;
use ifmap_search::{PollItem, poll_size};
use std::alloc::{AllocError as NoMemory, Global};
use std::marker::Model;
use std::mem;

/// A live session. Contracts see it beside the room of its queue.
#[derive(Drop)]
pub struct LiveSession {
    serial: u64,
    id: Text,
    client: ClientName,
    limit: u32,
    last: Moment,
    queue: Vec<PollItem>,
    // The sum of the sizes of what is queued.
    size: u128,
}

impl Model for LiveSession {
    ghost use Rattle.std.specs.Prelude.{◌≡◌, ◌-◌, sum_by, vec_capacity, vec_len};
    ghost use Rattle.std.specs.Coded.{codes};
    ghost use Rattle.ifmap_search.specs.contracts.results.PollItem as the_poll_item;
    ghost use Rattle.ifmap_session.specs.Seats.{Seat, counted_size};

    ghost Value = { Seat };

    ghost coded = { Prim.hlevel (codes, the_poll_item.the_row.coded) };

    ghost view = { λ k. record {
      session = record {
        serial = k.serial;
        id = k.id;
        client = k.client;
        limit = k.limit;
        last = k.last;
        queue = k.queue.items;
      };
      spare = vec_capacity k.queue - vec_len k.queue;
    } };

    ghost invariant = { λ k. k.size ≡ sum_by counted_size k.queue.items };
}

impl LiveSession {
    /// A session with nothing to tell. It takes no memory.
    pub fn new(
        alloc: Global,
        serial: u64,
        id: Text,
        client: ClientName,
        limit: u32,
        last: Moment,
    ) -> LiveSession
        ensures { result.session ≡ record {
          serial = serial;
          id = id;
          client = client;
          limit = limit;
          last = last;
          queue = [];
        } }
    {
        LiveSession {
            serial,
            id,
            client,
            limit,
            last,
            queue: Vec::new(alloc),
            size: 0,
        }
    }

    /// Its id.
    pub fn id(&self) -> &Text
        ensures { result.now ≡ self.now.session.id }
    {
        &self.id
    }

    /// The name of its client.
    pub fn client(&self) -> &ClientName
        ensures { result.now ≡ self.now.session.client }
    {
        &self.client
    }

    /// The moment of the last accepted request.
    pub fn last(&self) -> Moment
        ensures { result ≡ self.now.session.last }
    {
        self.last
    }

    /// The size of the queue in bytes, at most 2^64 - 1, and its limit.
    pub fn size(&self) -> (u64, u32)
        ensures size { result.0 ≡ min (queue_size self.now.session.queue) (2 ^ 64 - 1) }
        ensures limit { result.1 ≡ self.now.session.limit }
    {
        (self.size.min(u64::MAX as u128) as u64, self.limit)
    }

    /// The size of what is queued of the subscription of that name, at most 2^64 - 1.
    pub fn size_of_name(&self, name: &Text) -> u64
        ensures { result ≡ min (queue_size (filter (is_named name.now) self.now.session.queue))
            (2 ^ 64 - 1) }
    {
        named_size(&self.queue, name)
    }

    /// Keeps that moment as that of the last accepted request.
    pub fn renew(&mut self, moment: Moment)
        ensures session { self.new.session ≡ with_last moment self.old.session }
        ensures spare { self.new.spare ≡ self.old.spare }
    {
        self.last = moment;
    }

    /// Makes room for `n` items more. The one error is want of memory, which leaves the queue.
    pub fn reserve(&mut self, n: u64) -> Result<(), NoMemory>
        ensures session { self.new.session ≡ self.old.session }
        ensures ok { OnOk result (n ≤ self.new.spare) }
        ensures kept { self.old.spare ≤ self.new.spare }
    {
        self.queue.reserve(n as usize)
    }

    /// Queues an item. It takes no memory.
    pub fn push(&mut self, item: PollItem)
        requires { 1 ≤ self.old.spare }
        ensures session { self.new.session ≡ with_item item self.old.session }
        ensures spare { self.new.spare + 1 ≡ self.old.spare }
    {
        self.size += poll_size(&item) as u128;
        self.queue.push_reserved(item);
    }

    /// Queues an item in place of all. It takes no memory.
    pub fn overflow(&mut self, error: PollItem)
        requires { 1 ≤ self.old.spare + length self.old.session.queue }
        ensures session { self.new.session ≡ with_error error self.old.session }
        ensures spare { self.new.spare + 1 ≡ self.old.spare + length self.old.session.queue }
    {
        self.size = poll_size(&error) as u128;
        self.queue.clear();
        self.queue.push_reserved(error);
    }

    /// Drops what is queued of the subscription of that name.
    pub fn drop_name(&mut self, name: &Text)
        ensures session { self.new.session ≡ without_name name.now self.old.session }
        ensures spare { self.old.spare ≤ self.new.spare }
    {
        self.size -= size_of_named(&self.queue, name);
        retain_others(&mut self.queue, name);
    }

    /// Hands out what is queued; the queue is empty then, and has no room. It takes no memory.
    pub fn take_all(&mut self) -> Many<PollItem>
        ensures items { result ≡ self.old.session.queue }
        ensures session { self.new.session ≡ without_items self.old.session }
        ensures spare { self.new.spare ≡ 0 }
    {
        let empty = Vec::new(*self.queue.allocator());
        self.size = 0;
        Many(mem::replace(&mut self.queue, empty))
    }
}

/// The size of those items that tell of the subscription of that name, at most 2^64 - 1. It takes no
/// memory.
pub fn named_size(items: &[PollItem], name: &Text) -> u64
    ensures { result ≡ min (queue_size (filter (is_named name.now) items.now)) (2 ^ 64 - 1) }
{
    size_of_named(items, name).min(u64::MAX as u128) as u64
}

// The sum of the sizes of what is queued of the subscription of that name.
fn size_of_named(queue: &[PollItem], name: &Text) -> u128
    ensures { result ≡ sum_by counted_size (filter (is_named name.now) queue.now) }
{
    let mut size = 0u128;
    for item in queue {
        if is_named(item, name) {
            size += poll_size(item) as u128;
        }
    }
    size
}

// Drops what is queued of the subscription of that name.
fn retain_others(queue: &mut Vec<PollItem>, name: &Text)
    ensures items { queue.new.items
        ≡ filter (λ item. not (is_named name.now item)) queue.old.items }
    ensures len { vec_len queue.new ≤ vec_len queue.old }
    ensures capacity { vec_capacity queue.new ≡ vec_capacity queue.old }
{
    queue.retain(|item| !is_named(item, name));
}

// Whether the item tells of the subscription of that name.
fn is_named(item: &PollItem, name: &Text) -> bool
    ensures { result ≡ is_named name.now item.now }
{
    match item {
        PollItem::Search { name: own, .. } => own == name,
        PollItem::Update { name: own, .. } => own == name,
        PollItem::Delete { name: own, .. } => own == name,
        PollItem::Notify { name: own, .. } => own == name,
        PollItem::Error {
            name: Some(own),
            ..
        } => own == name,
        PollItem::Error { name: None, .. } => false,
    }
}
