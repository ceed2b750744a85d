// What the examples ask of a session: each call leaves a sound one.
ghost use Rattle.state.specs.View.{SessionSound};

use crate::show::answered;
use grants::Subject;
use path::RawPath;
use session::{start, via_renew, via_request};
use state::{Answer, Request, Session, Stepped};
use tables::{Grant, Span, Value};

// ---- sessions

pub fn fresh() -> Session
    ensures { SessionSound result }
{
    start()
}

pub fn renewed(s: Session, n: u8, owner: u8) -> Stepped
    requires { SessionSound s }
    ensures { SessionSound result.session }
{
    via_renew(s, n, owner)
}

pub fn asked(s: Session, r: Request) -> Stepped
    requires { SessionSound s }
    ensures { SessionSound result.session }
{
    via_request(s, r, b"")
}

// What a request leaves.
pub fn after(s: Session, r: Request) -> Session
    requires { SessionSound s }
    ensures { SessionSound result }
{
    asked(s, r).session
}

// What a request is answered.
pub fn answer(s: Session, r: Request) -> Answer
    requires { SessionSound s }
{
    asked(s, r).answer
}

// The words before what a request is answered, and that.
pub fn told(rt: &impl Print, before: &[u8], s: Session, r: Request)
    requires { SessionSound s }
{
    answered(rt, before, answer(s, r), b"granted");
}

// ---- who asks, and where

// User 1, who owns the root of a fresh session.
pub fn owner() -> Subject {
    Subject {
        role: 1,
        user: 1,
        time: 0,
    }
}

// User 3 in role 2, who owns nothing, at time 5.
pub fn other() -> Subject {
    Subject {
        role: 2,
        user: 3,
        time: 5,
    }
}

pub fn at(len: u8, steps: [u8; 6]) -> RawPath {
    RawPath { len, steps }
}

pub fn top() -> RawPath {
    at(0, [0; 6])
}

// Child k of the root.
pub fn place(k: u8) -> RawPath {
    at(1, [k, 0, 0, 0, 0, 0])
}

// ---- requests on dossier 1

// A request that uses no permission operand.
pub fn request(number: u8, who: Subject, path: RawPath) -> Request {
    on_permission(number, who, path, during(0, 0, 0))
}

pub fn on_permission(number: u8, who: Subject, path: RawPath, g: Grant) -> Request {
    Request {
        number,
        dossier: 1,
        role: who.role,
        user: who.user,
        time: who.time,
        path,
        name: 0,
        value: Value::Whole(0),
        permission: g,
    }
}

// The owner's request for a permission on the root.
pub fn permit(g: Grant) -> Request {
    on_permission(14, owner(), top(), g)
}

// The owner's request for an empty node.
pub fn add(path: RawPath) -> Request {
    request(3, owner(), path)
}

// A permission 0..10 for any user, with messages and no agreements.
pub fn during(role: u8, action: u8, messages: u32) -> Grant {
    let span = Span { first: 0, last: 10 };
    Grant {
        role,
        action,
        user: 0,
        span,
        messages,
        agreements: 0,
    }
}
