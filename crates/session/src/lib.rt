// The calls of a host over its one session. Each takes the parts that it uses out of the session, calls by value and stores back what came out.
// What a call promises is the model's step on the whole session. A `via_` function takes the session by value, lends it to the call, and hands it back: for programs.
#![tactic(auto)]

ghost use Rattle.std.specs.Prelude.{◌≡◌};
ghost use Rattle.model.specs.Things as things;
ghost use Rattle.model.specs.Run as run;
ghost use Rattle.state.specs.View.{session_of, SessionSound, view_request};
ghost use Rattle.state.specs.Calls.{buffer_after, stepped_of, Steps, Writes};

use crate::parts::{perform, place};
use enforce::{as_branch, stays};
use state::{Answer, Request, Session, Stepped};

mod parts;

// A fresh session.
pub fn start() -> Session
    ensures { result ≡ session_of things.fresh }
{
    unguarded::start()
}

// A guarded request. The image is request 17's; no other looks at it.
pub fn request(s: &mut Session, r: Request, image: &[u8]) -> Answer
    requires { SessionSound s.old }
    ensures { Steps s.old (run.request (view_request r) image.now) result s.new }
{
    if stays(r) {
        return perform(s, r);
    }
    let held = as_branch(r, image)?;
    place(s, r, held)
}

// Make dossier n new with an owner.
pub fn renew(s: &mut Session, n: u8, owner: u8) -> Answer
    requires { SessionSound s.old }
    ensures { Steps s.old (run.new n owner) result s.new }
{
    let o = unguarded::renewed(s.one, s.two, n, owner);
    s.one = o.one;
    s.two = o.two;
    o.answer
}

// Load an image as dossier n.
pub fn load(s: &mut Session, n: u8, image: &[u8]) -> Answer
    requires { SessionSound s.old }
    ensures { Steps s.old (run.load n image.now) result s.new }
{
    let o = unguarded::loaded(s.one, s.two, n, image);
    s.one = o.one;
    s.two = o.two;
    o.answer
}

// Save dossier n into a lent buffer.
pub fn save(s: &Session, n: u8, out: &mut [u8]) -> Answer
    requires { SessionSound s.now }
    ensures { Writes s.now (run.save n out.old) result out.new }
{
    unguarded::saved(s.one, s.two, n, out)
}

// Save the clipboard into a lent buffer.
pub fn save_clipboard(s: &Session, out: &mut [u8]) -> Answer
    requires { SessionSound s.now }
    ensures { Writes s.now (run.save_clipboard out.old) result out.new }
{
    unguarded::clipboard_saved(s.clipboard, out)
}

// Sign an agreement.
pub fn sign(s: &mut Session, user: u8, agreement: u8) -> Answer
    requires { SessionSound s.old }
    ensures { Steps s.old (run.sign user agreement) result s.new }
{
    let out = state::signatures::signed(s.signatures, user, agreement);
    let rows = out.signatures;
    s.signatures = rows;
    out.answer
}

// Take the log into a lent buffer.
pub fn take_log(s: &mut Session, out: &mut [u8]) -> Answer
    requires { SessionSound s.old }
    ensures { Steps s.old (run.take_log out.old) result s.new
        × (out.new ≡ buffer_after s.old (run.take_log out.old)) }
{
    let o = state::entries::taken(s.log, out);
    s.log = o.log;
    o.answer
}

// ---- by value

pub fn via_request(s: Session, r: Request, image: &[u8]) -> Stepped
    requires { SessionSound s }
    ensures { result ≡ stepped_of s (run.request (view_request r) image.now) }
{
    let mut t = s;
    let a = request(&mut t, r, image);
    Stepped {
        session: t,
        answer: a,
    }
}

pub fn via_renew(s: Session, n: u8, owner: u8) -> Stepped
    requires { SessionSound s }
    ensures { result ≡ stepped_of s (run.new n owner) }
{
    let mut t = s;
    let a = renew(&mut t, n, owner);
    Stepped {
        session: t,
        answer: a,
    }
}

pub fn via_load(s: Session, n: u8, image: &[u8]) -> Stepped
    requires { SessionSound s }
    ensures { result ≡ stepped_of s (run.load n image.now) }
{
    let mut t = s;
    let a = load(&mut t, n, image);
    Stepped {
        session: t,
        answer: a,
    }
}

pub fn via_save(s: Session, n: u8, out: &mut [u8]) -> Answer
    requires { SessionSound s }
    ensures { Writes s (run.save n out.old) result out.new }
{
    save(&s, n, out)
}

pub fn via_save_clipboard(s: Session, out: &mut [u8]) -> Answer
    requires { SessionSound s }
    ensures { Writes s (run.save_clipboard out.old) result out.new }
{
    save_clipboard(&s, out)
}

pub fn via_sign(s: Session, user: u8, agreement: u8) -> Stepped
    requires { SessionSound s }
    ensures { result ≡ stepped_of s (run.sign user agreement) }
{
    let mut t = s;
    let a = sign(&mut t, user, agreement);
    Stepped {
        session: t,
        answer: a,
    }
}

pub fn via_take_log(s: Session, out: &mut [u8]) -> Stepped
    requires { SessionSound s }
    ensures { (result ≡ stepped_of s (run.take_log out.old))
        × (out.new ≡ buffer_after s (run.take_log out.old)) }
{
    let mut t = s;
    let a = take_log(&mut t, out);
    Stepped {
        session: t,
        answer: a,
    }
}
