// Nodes, attributes and permissions looked up: there and not there.
ghost use Rattle.path.specs.View.{PathSound};
ghost use Rattle.tables.specs.View.{NodesSound, AttributesSound, PermissionsSound};

use crate::fill::{at, grant, place, top};
use crate::show::text;
use crate::{fill, show};
use lookups::{attribute_in, count_on, holds_in, names_in, owner_in};
use path::Path;
use tables::{Attributes, Grant, Names, Nodes, Permissions, Span};

pub fn lookups(rt: &impl Print, n: Nodes, a: Attributes, q: Permissions)
    requires { NodesSound n × AttributesSound a × PermissionsSound q }
{
    text(rt, b"4. lookups\n");
    nodes(rt, n);
    names(rt, a, top());
    names(rt, a, place(16));
    attributes(rt, a);
    permissions(rt, q);
    other_permissions(rt, q);
}

// ---- nodes

fn nodes(rt: &impl Print, t: Nodes)
    requires { NodesSound t }
{
    node(rt, t, top());
    node(rt, t, at(6, [1, 1, 1, 1, 1, 1]));
    node(rt, t, at(2, [2, 26, 0, 0, 0, 0]));
    node(rt, t, at(2, [2, 27, 0, 0, 0, 0]));
    node(rt, t, at(2, [3, 1, 0, 0, 0, 0]));
}

fn node(rt: &impl Print, t: Nodes, p: Path)
    requires { NodesSound t × PathSound p }
{
    text(rt, b"node ");
    show::address(rt, p);
    match owner_in(t, p) {
        None => text(rt, b" absent\n"),
        Some(u) => show::line(rt, b" owner ", u as usize),
    }
}

// ---- attributes

// The names on a node that has at most 16.
fn names(rt: &impl Print, t: Attributes, p: Path)
    requires { AttributesSound t × PathSound p }
{
    text(rt, b"names on ");
    show::address(rt, p);
    text(rt, b":");
    if 16 < count_on(t, p) {
        return;
    }
    listed(rt, names_in(t, p));
    text(rt, b"\n");
}

fn listed(rt: &impl Print, l: Names) {
    for name in l.names.iter().take(l.count) {
        let _ = print!(rt; " {name}");
    }
}

fn attributes(rt: &impl Print, t: Attributes)
    requires { AttributesSound t }
{
    attribute(rt, t, top(), 84);
    attribute(rt, t, top(), 99);
    attribute(rt, t, top(), 101);
    attribute(rt, t, place(15), 85);
    attribute(rt, t, place(16), 85);
}

fn attribute(rt: &impl Print, t: Attributes, p: Path, name: u16)
    requires { AttributesSound t × PathSound p }
{
    text(rt, b"attribute ");
    show::address(rt, p);
    let _ = print!(rt; " {name}");
    match attribute_in(t, p, name) {
        None => text(rt, b" absent\n"),
        Some(found) => {
            let _ = print!(rt; " owner {} ", found.owner);
            show::value(rt, found.value);
            text(rt, b"\n");
        }
    }
}

// ---- permissions

// The read permission of role 2 on the root, one with another agreement, another end.
fn permissions(rt: &impl Print, t: Permissions)
    requires { PermissionsSound t }
{
    let s = Span { first: 0, last: 10 };
    permission(rt, t, top(), 0, grant(2, 1, 0, s, 18, 1));
    permission(rt, t, top(), 0, grant(2, 1, 0, s, 18, 3));
    permission(
        rt,
        t,
        top(),
        0,
        grant(2, 1, 0, Span { first: 0, last: 11 }, 18, 1),
    );
}

// At another path, under another name, and the one that is held there.
fn other_permissions(rt: &impl Print, t: Permissions)
    requires { PermissionsSound t }
{
    let s = Span { first: 0, last: 10 };
    permission(rt, t, place(3), 0, grant(2, 1, 0, s, 18, 1));
    permission(rt, t, top(), 85, grant(2, 1, 0, s, 18, 1));
    permission(
        rt,
        t,
        top(),
        85,
        grant(2, 1, 0, fill::always(), 66, u32::MAX),
    );
}

fn permission(rt: &impl Print, t: Permissions, p: Path, name: u16, g: Grant)
    requires { PermissionsSound t × PathSound p }
{
    text(rt, b"permission ");
    show::address(rt, p);
    let _ = print!(rt; " {name} ");
    show::terms(rt, g);
    show::either(rt, holds_in(t, p, name, g), b": held\n", b": not held\n");
}
