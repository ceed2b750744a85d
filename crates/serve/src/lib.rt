// Calls made on a session, each with its answer written. The session goes through every call by value.
#![tactic(auto)]

ghost use Rattle.state.specs.View.{SessionSound};
ghost use Rattle.std.specs.Counts.{IsPrefixLen};

use answers::line::Line;
use answers::{put_answer, put_asked, put_stored};
use ask::dossier_ask;
use files::{image_in, stored};
use lines::calls::Call;
use lines::forms::Kind;
use lines::whys::{Why, put_bad};
use parse::numbers::read4;
use session::{
    start, via_load, via_renew, via_request, via_save, via_save_clipboard, via_sign, via_take_log,
};
use show::{say, show};
use state::refusal::Refusal;
use state::{Answer, Reply, Request, Session, Stepped};
use std::rt::Files;

// ---- what is written

fn say_answer(rt: &impl Print, a: Answer, lent: &[u8], out: &mut Line) {
    out.clear();
    put_answer(out, a, lent);
    say(rt, out);
}

pub fn say_bad(rt: &impl Print, number: u64, why: Why, out: &mut Line) {
    out.clear();
    put_bad(out, number, why);
    say(rt, out);
}

// ---- the calls: each leaves a sound session

pub fn fresh() -> Session
    ensures { SessionSound result }
{
    start()
}

pub fn requested(s: Session, r: Request, image: &[u8]) -> Stepped
    requires { SessionSound s }
    ensures { SessionSound result.session }
{
    via_request(s, r, image)
}

pub fn renewed(s: Session, n: u8, owner: u8) -> Stepped
    requires { SessionSound s }
    ensures { SessionSound result.session }
{
    via_renew(s, n, owner)
}

fn loaded(s: Session, n: u8, image: &[u8]) -> Stepped
    requires { SessionSound s }
    ensures { SessionSound result.session }
{
    via_load(s, n, image)
}

pub fn signed(s: Session, user: u8, agreement: u8) -> Stepped
    requires { SessionSound s }
    ensures { SessionSound result.session }
{
    via_sign(s, user, agreement)
}

fn log_taken(s: Session, out: &mut [u8]) -> Stepped
    requires { SessionSound s }
    ensures { SessionSound result.session }
{
    via_take_log(s, out)
}

// ---- calls that leave a session

// The answer is written, and the session handed on.
pub fn answered(rt: &impl Print, o: Stepped, lent: &[u8], out: &mut Line) -> Session
    requires { SessionSound o.session }
    ensures { SessionSound result }
{
    say_answer(rt, o.answer, lent, out);
    o.session
}

pub fn start_again(rt: &impl Print, out: &mut Line) -> Session
    ensures { SessionSound result }
{
    say_answer(rt, Ok(Reply::Done), b"", out);
    fresh()
}

// The call that an image goes with: a load, else a request.
fn called(s: Session, c: Call, image: &[u8]) -> Stepped
    requires { SessionSound s }
    ensures { SessionSound result.session }
{
    match c.kind {
        Kind::Load => loaded(s, c.request.dossier, image),
        _ => requested(s, c.request, image),
    }
}

// A load, or a request with an image. A word that is left out is empty, which reads as no bytes.
pub fn call_image(
    rt: &(impl Files + Print),
    s: Session,
    c: Call,
    number: u64,
    image: &mut [u8],
    out: &mut Line,
) -> Session
    requires { SessionSound s }
    ensures { SessionSound result }
{
    match image_in(rt, c.word, image) {
        Ok(len) => {
            let o = called(s, c, image.get(..len).unwrap_or_default());
            answered(rt, o, b"", out)
        }
        Err(why) => {
            say_bad(rt, number, why, out);
            s
        }
    }
}

pub fn take_log(rt: &impl Print, s: Session, c: Call, lent: &mut [u8], out: &mut Line) -> Session
    requires { SessionSound s }
    ensures { SessionSound result }
{
    let n = room_in(c.room, lent);
    let o = log_taken(s, &mut lent[..n]);
    answered(rt, o, lent, out)
}

// ---- calls that look at the session

// What a call lends of the buffer: a room is never more than there is.
fn room_in(room: usize, lent: &[u8]) -> usize
    ensures { IsPrefixLen result lent.now }
{
    room.min(lent.len())
}

pub fn save(rt: &impl Print, s: Session, c: Call, lent: &mut [u8], out: &mut Line)
    requires { SessionSound s }
{
    let n = room_in(c.room, lent);
    let a = via_save(s, c.request.dossier, &mut lent[..n]);
    say_answer(rt, a, lent, out);
}

pub fn save_clipboard(rt: &impl Print, s: Session, c: Call, lent: &mut [u8], out: &mut Line)
    requires { SessionSound s }
{
    let n = room_in(c.room, lent);
    let a = via_save_clipboard(s, &mut lent[..n]);
    say_answer(rt, a, lent, out);
}

// What save answers, written to a file.
pub fn store(
    rt: &(impl Files + Print),
    s: Session,
    c: Call,
    number: u64,
    lent: &mut [u8],
    out: &mut Line,
)
    requires { SessionSound s }
{
    let n = room_in(c.room, lent);
    let a = via_save(s, c.request.dossier, &mut lent[..n]);
    let Ok(Reply::Wrote(size)) = a else {
        say_answer(rt, a, lent, out);
        return;
    };
    match stored(rt, c.word, lent.get(..size).unwrap_or_default()) {
        Ok(()) => {
            out.clear();
            put_stored(out, size);
            say(rt, out);
        }
        Err(why) => say_bad(rt, number, why, out),
    }
}

pub fn show_dossier(rt: &impl Print, s: &Session, n: u8, out: &mut Line) {
    match n {
        1 => show(rt, &s.one, out),
        2 => show(rt, &s.two, out),
        _ => say_answer(rt, Err(Refusal::BadOperand), b"", out),
    }
}

// ---- a decision on an image

// The number in four bytes of the eight that an ask writes.
fn four_at(b: &[u8], at: usize) -> u32 {
    if b.len() < 8 || 4 < at {
        return 0;
    }
    read4(b, at)
}

fn decision(c: Call, image: &[u8], lent: &mut [u8]) -> u32 {
    let r = c.request;
    let t = r.path.steps;
    dossier_ask(
        image, r.role, r.user, r.time, r.path.len, t[0], t[1], t[2], t[3], t[4], t[5], r.name,
        c.action, lent,
    )
}

pub fn ask_image(
    rt: &(impl Files + Print),
    c: Call,
    number: u64,
    image: &mut [u8],
    lent: &mut [u8],
    out: &mut Line,
) {
    match image_in(rt, c.word, image) {
        Ok(len) => {
            let n = room_in(c.room, lent);
            let d = decision(c, image.get(..len).unwrap_or_default(), &mut lent[..n]);
            out.clear();
            put_asked(out, d, four_at(lent, 0), four_at(lent, 4));
            say(rt, out);
        }
        Err(why) => say_bad(rt, number, why, out),
    }
}
