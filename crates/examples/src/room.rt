// Examples 11 and 12: the bounds on depth, nodes and log entries.
ghost use Rattle.state.specs.View.{SessionSound};

use crate::calls::{
    add, after, answer, asked, at, during, fresh, other, owner, permit, place, request, told, top,
};
use crate::show::{answered, number, text};
use path::RawPath;
use state::{Request, Session};

// ---- example 11: of the nodes 1, 1.1, 1.1.1 and 1.1.1.1 the first is copied, so that three steps stand below the top

pub fn example11(rt: &impl Print) {
    let s = after(chain(fresh()), request(5, owner(), place(1)));
    text(
        rt,
        b"11. A branch with node paths of 3 steps below its top: paste ",
    );
    told(rt, b"at depth 3 ", s, paste(at(3, [1, 1, 2, 0, 0, 0])));
    told(rt, b", at 4 ", s, paste(at(4, [1, 1, 1, 2, 0, 0])));
    text(rt, b".\n");
}

fn chain(s: Session) -> Session
    requires { SessionSound s }
    ensures { SessionSound result }
{
    let mut t = s;
    for n in 1..5 {
        t = after(t, add(at(n, [1, 1, 1, 1, 0, 0])));
    }
    t
}

fn paste(path: RawPath) -> Request {
    request(7, owner(), path)
}

// ---- example 12

pub fn example12(rt: &impl Print) {
    text(rt, b"12. Node ");
    nodes(rt, crowded(fresh()));
    text(rt, b". Entry ");
    entries(rt, busy(after(fresh(), permit(during(2, 1, 1)))));
    text(rt, b".\n");
}

// The root is node 1, its children 1 to 32 are the nodes 2 to 33, and those of the node at 1 come next.
fn seat(n: u8) -> RawPath {
    if n < 2 {
        return top();
    }
    if n < 34 {
        return place(n - 1);
    }
    at(2, [1, n - 33, 0, 0, 0, 0])
}

// A session whose dossier has 63 nodes.
fn crowded(s: Session) -> Session
    requires { SessionSound s }
    ensures { SessionSound result }
{
    let mut t = s;
    for n in 2..64 {
        t = after(t, add(seat(n)));
    }
    t
}

// The next node's number and answer, and those of the one after it.
fn nodes(rt: &impl Print, s: Session)
    requires { SessionSound s }
{
    let o = asked(s, add(seat(64)));
    let t = o.session;
    next(rt, held_nodes(s));
    answered(rt, b" ", o.answer, b"is added");
    text(rt, b"; node ");
    next(rt, held_nodes(t));
    answered(rt, b" ", answer(t, add(seat(65))), b"is added");
}

fn held_nodes(s: Session) -> usize {
    s.one.nodes.count
}

// A read of the root by user 3, which logs one message.
fn noted() -> Request {
    request(1, other(), top())
}

// A session whose log has 255 entries.
fn busy(s: Session) -> Session
    requires { SessionSound s }
    ensures { SessionSound result }
{
    let mut t = s;
    for _ in 0..255 {
        t = after(t, noted());
    }
    t
}

// The next entry's number and answer, and those of the one after it.
fn entries(rt: &impl Print, s: Session)
    requires { SessionSound s }
{
    let o = asked(s, noted());
    let t = o.session;
    next(rt, held_entries(s));
    answered(rt, b" ", o.answer, b"is logged");
    text(rt, b"; ");
    next(rt, held_entries(t));
    answered(rt, b" ", answer(t, noted()), b"is logged");
}

fn held_entries(s: Session) -> usize {
    s.log.count
}

// The number after n, which is at most the log's bound.
fn next(rt: &impl Print, n: usize) {
    if 256 < n {
        text(rt, b"over");
        return;
    }
    number(rt, n as u64 + 1);
}
