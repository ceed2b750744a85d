// Three tables filled to their bounds. Nothing is put in before it was asked for, and nothing in the order in which it comes out.
ghost use Rattle.std.specs.Prelude.{◌≤◌, ◌<◌};
ghost use Rattle.path.specs.View.{PathSound};
ghost use Rattle.tables.specs.View.{NodesSound, AttributesSound, PermissionsSound, DossierFits};

use grants::{clash, clash_in};
use lookups::{attribute_in, owner_in};
use path::{Path, RawPath};
use tables::{
    Attribute, Attributes, Dossier, Grant, Node, Nodes, Permission, Permissions, Span, Value,
};

// ---- paths

// A host's bytes as a path; bytes that are none give the root's.
pub fn at(len: u8, steps: [u8; 6]) -> Path
    ensures { PathSound result }
{
    let p = RawPath { len, steps };
    if !path::is_valid(p) {
        return path::root();
    }
    path::path_of(p)
}

pub fn top() -> Path
    ensures { PathSound result }
{
    at(0, [0; 6])
}

// Child k of the root; the root for 0.
pub fn place(k: u8) -> Path
    ensures { PathSound result }
{
    if k == 0 {
        return top();
    }
    at(1, [k, 0, 0, 0, 0, 0])
}

// ---- nodes

// One node more, if it is not there yet and there is room.
fn with_node(t: Nodes, p: Path, owner: u8) -> Nodes
    requires { NodesSound t × PathSound p }
    ensures { NodesSound result }
{
    match owner_in(t, p) {
        None => {
            if 64 <= t.count {
                return t;
            }
            let a = Node {
                path: p,
                owner: owner,
                unused: [0; 7],
            };
            nodes::insert(a, t)
        }
        Some(_) => t,
    }
}

// The children 32 to 2 of the root.
fn children(t: Nodes) -> Nodes
    requires { NodesSound t }
    ensures { NodesSound result }
{
    let mut all = t;
    for k in (2..=32).rev() {
        all = with_node(all, place(k), k);
    }
    all
}

// The children 26 to 1 of the node at 2.
fn grandchildren(t: Nodes) -> Nodes
    requires { NodesSound t }
    ensures { NodesSound result }
{
    let mut all = t;
    for k in (1..=26).rev() {
        all = with_node(all, at(2, [2, k, 0, 0, 0, 0]), 32 + k);
    }
    all
}

// A chain of six steps, the deepest node first, and the root.
fn chain(t: Nodes) -> Nodes
    requires { NodesSound t }
    ensures { NodesSound result }
{
    let mut all = t;
    for n in (0..7).rev() {
        all = with_node(all, at(n, [1; 6]), 1);
    }
    all
}

pub fn nodes() -> Nodes
    ensures { NodesSound result }
{
    chain(grandchildren(children(tables::no_nodes())))
}

// ---- attributes

// One attribute more, if it is not there yet and there is room.
fn with_attribute(t: Attributes, p: Path, name: u16, owner: u8, value: Value) -> Attributes
    requires { AttributesSound t × PathSound p }
    ensures { AttributesSound result }
{
    match attribute_in(t, p, name) {
        None => {
            if 256 <= t.count {
                return t;
            }
            let a = Attribute {
                path: p,
                name: name,
                owner: owner,
                value: value,
            };
            attributes::insert(a, t)
        }
        Some(_) => t,
    }
}

// The value under a name on the node at place k: on the root minus zero, and the least and the greatest whole number.
fn value(k: u16, name: u16) -> Value {
    if k != 0 {
        return Value::Whole(u32::from(k) * 1000 + u32::from(name));
    }
    match name {
        98 => Value::Whole(0),
        99 => Value::Reading(f32::from_bits(0x8000_0000)),
        100 => Value::Whole(u32::MAX),
        _ => Value::Whole(u32::from(name)),
    }
}

// The names 100 to 85 on the node at place k.
fn names(t: Attributes, k: u8) -> Attributes
    requires { AttributesSound t × (k < 16) }
    ensures { AttributesSound result }
{
    let p = place(k);
    let mut all = t;
    for name in (85..=100).rev() {
        all = with_attribute(all, p, name, 64 - k, value(u16::from(k), name));
    }
    all
}

pub fn attributes() -> Attributes
    ensures { AttributesSound result }
{
    let mut all = tables::no_attributes();
    for k in (0..16).rev() {
        all = names(all, k);
    }
    all
}

// ---- permissions

pub fn grant(role: u8, action: u8, user: u8, span: Span, messages: u32, agreements: u32) -> Grant {
    Grant {
        role,
        action,
        user,
        span,
        messages,
        agreements,
    }
}

// One permission more, if it clashes with none of its object and there is room. An interval that ends before it starts shares no
// time even with itself.
fn with_permission(t: Permissions, p: Path, name: u16, g: Grant) -> Permissions
    requires { PermissionsSound t × PathSound p }
    ensures { PermissionsSound result }
{
    if !clash(g, g) {
        return t;
    }
    if clash_in(t, p, name, g) {
        return t;
    }
    if 128 <= t.count {
        return t;
    }
    let a = Permission {
        path: p,
        name,
        grant: g,
    };
    permissions::insert(a, t)
}

// Any user, or another one in each role.
fn user_in(user: u8, role: u8) -> u8
    requires { role ≤ 15 }
{
    if user == 0 {
        return 0;
    }
    49 + role
}

// The permission in a role, whose number is added to its messages.
fn in_role(g: Grant, role: u8) -> Grant
    requires { role ≤ 15 }
{
    Grant {
        role,
        user: user_in(g.user, role),
        messages: g.messages | u32::from(role),
        ..g
    }
}

// A permission in each role from the last one down to 1.
fn roles(t: Permissions, p: Path, name: u16, g: Grant, last: u8) -> Permissions
    requires { PermissionsSound t × PathSound p × (last ≤ 15) }
    ensures { PermissionsSound result }
{
    let mut all = t;
    for role in (1..=last).rev() {
        all = with_permission(all, p, name, in_role(g, role));
    }
    all
}

// Read of the root's attribute 85, and delegate and print of the root: no delegate permission in role 15.
fn on_top(t: Permissions) -> Permissions
    requires { PermissionsSound t }
    ensures { PermissionsSound result }
{
    let p = top();
    let s = Span { first: 0, last: 10 };
    let a = roles(t, p, 85, grant(0, 1, 0, always(), 64, 4294967295), 8);
    let b = roles(a, p, 0, grant(0, 4, 0, s, 256, 8), 14);
    roles(b, p, 0, grant(0, 3, 0, s, 128, 4), 15)
}

// Change and read of the root, and read at earlier times.
fn on_root(t: Permissions) -> Permissions
    requires { PermissionsSound t }
    ensures { PermissionsSound result }
{
    let p = top();
    let s = Span { first: 0, last: 10 };
    let a = roles(t, p, 0, grant(0, 2, 0, s, 32, 2), 15);
    let b = roles(a, p, 0, grant(0, 1, 0, s, 16, 1), 15);
    roles(
        b,
        p,
        0,
        grant(
            0,
            1,
            0,
            Span {
                first: -20,
                last: -11,
            },
            16,
            2147483648,
        ),
        15,
    )
}

// Read and change of the node at 1, each role for one user; change without read of the node at 2, and delegate before time 0.
fn on_places(t: Permissions) -> Permissions
    requires { PermissionsSound t }
    ensures { PermissionsSound result }
{
    let s = Span { first: -5, last: 5 };
    let past = Span {
        first: i64::MIN,
        last: -1,
    };
    let a = with_permission(t, place(2), 0, grant(15, 4, 64, past, 2147483648, 1));
    let b = roles(
        a,
        place(2),
        0,
        grant(0, 2, 0, Span { first: 0, last: 10 }, 0, 0),
        15,
    );
    let c = roles(b, place(1), 0, grant(0, 2, 1, s, 32, 2), 15);
    roles(c, place(1), 0, grant(0, 1, 1, s, 16, 1), 15)
}

pub fn always() -> Span {
    Span {
        first: i64::MIN,
        last: i64::MAX,
    }
}

pub fn permissions() -> Permissions
    ensures { PermissionsSound result }
{
    on_root(on_top(on_places(tables::no_permissions())))
}

// ---- the dossier

pub fn whole(n: Nodes, a: Attributes, q: Permissions) -> Dossier
    requires { NodesSound n × AttributesSound a × PermissionsSound q }
    ensures { DossierFits result }
{
    Dossier {
        nodes: n,
        attributes: a,
        permissions: q,
    }
}
