// Examples 6, 7 and 10: what permissions on the root let user 3 do, in role 2.
ghost use Rattle.state.specs.View.{SessionSound};

use crate::calls::{
    after, during, fresh, on_permission, other, owner, permit, place, request, told, top,
};
use crate::show::text;
use grants::Subject;
use state::Session;

// ---- example 6

pub fn example6(rt: &impl Print) {
    let s = permitted(fresh(), 1);
    read(rt, b"6. Permission 0..10: time -1 ", s, -1);
    read(rt, b", 0 ", s, 0);
    read(rt, b", 10 ", s, 10);
    read(rt, b", 11 ", s, 11);
    text(rt, b".\n");
}

fn read(rt: &impl Print, before: &[u8], s: Session, time: i64)
    requires { SessionSound s }
{
    let who = Subject {
        role: 2,
        user: 3,
        time,
    };
    told(rt, before, s, request(1, who, top()));
}

// ---- example 7: of role 2, a read permission covers and a delegate permission grants

pub fn example7(rt: &impl Print) {
    let covered = permitted(fresh(), 1);
    let granted = permitted(fresh(), 4);
    let both = permitted(covered, 4);
    delegate(rt, b"7. Delegating to one's own role: ", both, 2);
    delegate(rt, b", when granted and covered; to another role ", both, 3);
    delegate(rt, b"; not covered, ", granted, 2);
    delegate(rt, b"; not granted, ", covered, 2);
    text(rt, b".\n");
}

// Read of the root, handed on to a role.
fn delegate(rt: &impl Print, before: &[u8], s: Session, role: u8)
    requires { SessionSound s }
{
    told(
        rt,
        before,
        s,
        on_permission(16, other(), top(), during(role, 1, 0)),
    );
}

// ---- example 10

pub fn example10(rt: &impl Print) {
    let s = permitted(fresh(), 2);
    let t = permitted(s, 1);
    change(
        rt,
        b"10. Change permission without read, not the owner: change ",
        s,
        other(),
    );
    change(rt, b"; with read ", t, other());
    change(rt, b"; the owner ", s, owner());
    text(rt, b".\n");
}

fn change(rt: &impl Print, before: &[u8], s: Session, who: Subject)
    requires { SessionSound s }
{
    told(rt, before, s, request(3, who, place(1)));
}

// ---- the permission

// A permission 0..10 on the root for any user in role 2, from its owner.
fn permitted(s: Session, action: u8) -> Session
    requires { SessionSound s }
    ensures { SessionSound result }
{
    after(s, permit(during(2, action, 0)))
}
