// Examples 8, 9 and 13: a new dossier, a place that is tested before access, and an operand that is tested before the place.
ghost use Rattle.state.specs.View.{SessionSound};

use crate::calls::{
    add, after, answer, asked, fresh, other, owner, place, renewed, request, told, top,
};
use crate::show;
use crate::show::{answered, text};
use grants::Subject;
use path::RawPath;
use session::via_save;
use state::{Answer, Session};

// ---- example 8

pub fn example8(rt: &impl Print) {
    let o = renewed(fresh(), 1, 5);
    let mut bytes = [255u8; 64];
    let a = via_save(o.session, 1, &mut bytes);
    text(rt, b"8. New dossier, owner 5: image ");
    show::image(rt, a, &bytes);
    text(rt, b".\n");
}

// ---- example 9

pub fn example9(rt: &impl Print) {
    let s = after(after(fresh(), add(place(1))), add(place(2)));
    let o = asked(s, add(place(3)));
    show::children(rt, b"9. Root with ", children(s));
    answered(rt, b": add at 3 ", o.answer, b"granted");
    told(rt, b" to the owner, at 4 ", s, add(place(4)));
    show::children(rt, b"; ", children(o.session));
    text(rt, b" afterwards.\n");
}

fn children(s: Session) -> Answer
    requires { SessionSound s }
{
    answer(s, request(1, owner(), top()))
}

// ---- example 13: nothing at the empty path can be added, nothing is at 1, the clipboard is empty, and only the owner reads the root

pub fn example13(rt: &impl Print) {
    let s = fresh();
    told(rt, b"13. Blank user: ", s, request(1, blank(), top()));
    text(rt, b", before anything else");
    before_place(rt, s);
    before_access(rt, s);
    text(rt, b".\n");
}

// Refusals 2 and 3.
fn before_place(rt: &impl Print, s: Session)
    requires { SessionSound s }
{
    both(rt, b": user 3 ", s, 3, top());
    both(rt, b"; user 3 ", s, 1, place(1));
}

// Refusals 5 and 6.
fn before_access(rt: &impl Print, s: Session)
    requires { SessionSound s }
{
    both(rt, b"; user 3 ", s, 7, place(1));
    both(rt, b"; user 3 ", s, 1, top());
}

fn both(rt: &impl Print, before: &[u8], s: Session, number: u8, path: RawPath)
    requires { SessionSound s }
{
    told(rt, before, s, request(number, other(), path));
    told(rt, b", blank ", s, request(number, blank(), path));
}

fn blank() -> Subject {
    Subject {
        role: 2,
        user: 0,
        time: 5,
    }
}
