// Examples 4 and 5: which permissions clash.
use crate::show::{either, text};
use tables::{Grant, Span};

pub fn example4(rt: &impl Print) {
    text(
        rt,
        b"4. Intervals -5..0 and 0..9 with the same role, object, action and any user: ",
    );
    either(rt, clash(0, early(), 0, late()), b"clash", b"none");
    text(rt, b". -5..-1 and 0..9: ");
    either(rt, clash(0, before(), 0, late()), b"clash", b"none");
    text(rt, b".\n");
}

pub fn example5(rt: &impl Print) {
    text(
        rt,
        b"5. The first pair of 4, but user 3 only against user 4 only: ",
    );
    either(rt, clash(3, early(), 4, late()), b"clash", b"no clash");
    text(rt, b"; user 3 against any: ");
    either(rt, clash(3, early(), 0, late()), b"clash", b"no clash");
    text(rt, b".\n");
}

fn early() -> Span {
    Span { first: -5, last: 0 }
}

fn before() -> Span {
    Span {
        first: -5,
        last: -1,
    }
}

fn late() -> Span {
    Span { first: 0, last: 9 }
}

// Of read permissions in role 1 on one object, for one user each or for any (0).
fn clash(user: u8, span: Span, user2: u8, span2: Span) -> bool {
    grants::clash(read(user, span), read(user2, span2))
}

fn read(user: u8, span: Span) -> Grant {
    Grant {
        role: 1,
        action: 1,
        user,
        span,
        messages: 0,
        agreements: 0,
    }
}
