// A line's call is made on the session. The session goes through every call by value.
ghost use Rattle.state.specs.View.{SessionSound};

use answers::line::Line;
use lines::calls::{Call, call_in};
use lines::forms::Kind;
use lines::whys::Why;
use serve::{
    answered, ask_image, call_image, renewed, requested, save, save_clipboard, say_bad,
    show_dossier, signed, start_again, store, take_log,
};
use show::helping::help;
use state::Session;
use std::rt::Files;

// The calls that leave the session as it is.
fn look(
    rt: &(impl Files + Print),
    s: Session,
    c: Call,
    number: u64,
    image: &mut [u8],
    lent: &mut [u8],
    out: &mut Line,
)
    requires { SessionSound s }
{
    match c.kind {
        Kind::Save => save(rt, s, c, lent, out),
        Kind::Clipboard => save_clipboard(rt, s, c, lent, out),
        Kind::Ask => ask_image(rt, c, number, image, lent, out),
        Kind::Store => store(rt, s, c, number, lent, out),
        Kind::Show => show_dossier(rt, &s, c.request.dossier, out),
        _ => help(rt),
    }
}

fn make_call(
    rt: &(impl Files + Print),
    s: Session,
    c: Call,
    number: u64,
    image: &mut [u8],
    lent: &mut [u8],
    out: &mut Line,
) -> Session
    requires { SessionSound s }
    ensures { SessionSound result }
{
    let r = c.request;
    match c.kind {
        Kind::Request(17) | Kind::AnyRequest | Kind::Load => {
            call_image(rt, s, c, number, image, out)
        }
        Kind::Request(_) => answered(rt, requested(s, r, b""), b"", out),
        Kind::Start => start_again(rt, out),
        Kind::New => answered(rt, renewed(s, r.dossier, r.user), b"", out),
        Kind::Sign => answered(rt, signed(s, r.user, c.agreement), b"", out),
        Kind::Log => take_log(rt, s, c, lent, out),
        _ => {
            look(rt, s, c, number, image, lent, out);
            s
        }
    }
}

// A line without its end: nothing for an empty one and for a comment, else its call is made.
pub fn answer_line(
    rt: &(impl Files + Print),
    s: Session,
    number: u64,
    line: Result<&[u8], Why>,
    image: &mut [u8; 65536],
    lent: &mut [u8; 32768],
    out: &mut Line,
) -> Session
    requires { SessionSound s }
    ensures { SessionSound result }
{
    let call = match line {
        Ok([] | [b'#', ..]) => return s,
        Ok(words) => call_in(words),
        Err(why) => Err(why),
    };
    match call {
        Ok(c) => make_call(rt, s, c, number, image, lent, out),
        Err(why) => {
            say_bad(rt, number, why, out);
            s
        }
    }
}
