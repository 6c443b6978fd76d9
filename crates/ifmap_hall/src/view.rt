//! What a pass knows. No value of these types but `Terms` is ever made: contracts speak of them.
use crate::machine::Machine;
use std::collections::LinkedList;
use std::snapshot::Snapshot;

/// What a hall was begun with.
#[derive(Drop)]
pub struct Terms<M> {
    /// The state of the machine before any entry.
    pub opening: Snapshot<M>,
    /// What the entries that a book keeps beside its base may weigh at most, in bytes.
    pub limit: u64,
    /// What one event may weigh at most, in bytes.
    pub heaviest: u64,
}

/// All entries since the opening state, and how many of them, the oldest, a base had taken in.
pub struct HallHistory<E> {
    /// The entries, the oldest first, each the number of a pass and an event.
    pub log: LinkedList<(u64, E)>,
    /// How many of them were in the base.
    pub from: u64,
}

/// What a pass is seen as.
pub struct HallView<M: Machine> {
    /// What its hall was begun with.
    pub terms: Terms<M>,
    /// Whether it is the first pass of its hall and was never split from.
    pub lone: bool,
    /// The history as the pass has seen it.
    pub history: HallHistory<M::Event>,
    /// The places of its own entries and of those of the passes that it took in, rising.
    pub mine: LinkedList<u64>,
    /// The events of its own entries, each with its reply.
    pub said: LinkedList<(M::Event, M::Reply)>,
    /// How many turns it has passed on.
    pub turns: u64,
}

/// How far a seat is with its turn.
pub enum Stage<E> {
    /// It has no ticket.
    Idle,
    /// It has drawn this ticket.
    Waits { ticket: u64 },
    /// Its ticket is served, and it took the book, which had this history.
    Holds { ticket: u64, taken: HallHistory<E> },
}

/// What a seat of the hall's table knows.
pub struct SeatView<M: Machine> {
    /// What the pass of the seat is seen as.
    pub view: HallView<M>,
    /// Its parts of the right to draw tickets. With none it is spent: its pass was joined to
    /// another.
    pub parts: u64,
    /// How far it is with its turn.
    pub stage: Stage<M::Event>,
    /// The shorter history of the two that the last join put together.
    pub joined: HallHistory<M::Event>,
}
