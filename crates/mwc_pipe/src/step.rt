//! The steps of a pipe, and what it answers.
use std::fmt::Debug;
use thiserror::Error;

/// A step of a pipe.
#[derive(Clone, Copy, Debug, Eq, PartialEq)]
pub enum Step<T> {
    /// Put this item in.
    Put(T),
    /// Take the oldest item out.
    Take,
    /// Close the pipe.
    Close,
}

/// What a pipe replies to a step.
#[derive(Clone, Copy, Debug, Eq, PartialEq)]
pub enum Reply<T> {
    /// To a put: the item is in.
    Accepted,
    /// To a put: there is no room.
    Full,
    /// To a put: there was a close.
    Closed,
    /// To a take: the oldest item.
    Item(T),
    /// To a take: nothing is inside.
    Empty,
    /// To a take: nothing is inside, and there was a close.
    Ended,
    /// To a close: it is the first.
    First,
    /// To a close: there was one before.
    Again,
}

/// What a take from a pipe gives.
#[derive(Debug, Drop, Eq, PartialEq)]
pub enum Taken<T> {
    /// The oldest item.
    Item(T),
    /// Nothing is inside, and the pipe is open.
    Empty,
    /// Nothing is inside, and the pipe is closed: nothing will ever be.
    Ended,
}

/// Why a put was refused, with the item that is handed back.
///
/// The reasons are checked in this order.
#[derive(Debug, Drop, Eq, Error, PartialEq)]
#[error_bound(T: Debug)]
pub enum Refused<T> {
    /// There was a close.
    #[error("the pipe is closed")]
    Closed(T),
    /// There is no room.
    #[error("the pipe is full")]
    Full(T),
    /// A growth was refused.
    #[error("out of memory")]
    Memory(T),
}
