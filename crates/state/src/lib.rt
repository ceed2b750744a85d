// What a session holds, what a request carries, and what a call answers.
#![tactic(auto)]

use crate::refusal::Refusal;
use path::RawPath;
use tables::{Clipboard, Dossier, Grant, Names, Value};

pub mod entries;
pub mod refusal;
pub mod signatures;

// The agreements that one user has signed, bit n for number n.
#[derive(Clone, Copy)]
pub struct Agreements {
    pub signed: u32,
}

// Who a message was logged for, and which.
#[derive(Clone, Copy)]
pub struct Entry {
    pub user: u8,
    pub message: u8,
}

#[derive(Clone, Copy)]
pub struct Log {
    pub entries: [Entry; 256],
    pub count: usize,
}

// Two open dossiers, one clipboard, one row of agreements for each user, one log.
#[derive(Clone, Copy)]
pub struct Session {
    pub one: Dossier,
    pub two: Dossier,
    pub clipboard: Clipboard,
    pub signatures: [Agreements; 64],
    pub log: Log,
}

// A guarded request with all its operands: those that only other requests use aren't looked at.
#[derive(Clone, Copy)]
pub struct Request {
    pub number: u8,
    pub dossier: u8,
    pub role: u8,
    pub user: u8,
    pub time: i64,
    pub path: RawPath,
    pub name: u16,
    pub value: Value,
    pub permission: Grant,
}

// What a call that is not refused answers: done; the names on a node and its child count; a value; how many bytes were written.
#[derive(Clone, Copy)]
pub enum Reply {
    Done,
    Contents(Names, usize),
    ValueRead(Value),
    Wrote(usize),
}

pub type Answer = Result<Reply, Refusal>;

#[derive(Clone, Copy)]
pub struct Stepped {
    pub session: Session,
    pub answer: Answer,
}

// The two dossiers after a call on them, and its answer.
#[derive(Clone, Copy)]
pub struct DossiersOut {
    pub one: Dossier,
    pub two: Dossier,
    pub answer: Answer,
}
