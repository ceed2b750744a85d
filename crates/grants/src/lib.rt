// Permissions: one against a subject or another permission, and those of one object.
#![tactic(auto)]

ghost use Rattle.std.specs.Prelude.{◌≡◌, map};
ghost use Rattle.path.specs.View.{steps, PathSound};
ghost use Rattle.model.specs.Decide as model;
ghost use Rattle.model.specs.Moves.{permissions_in};
ghost use Rattle.tables.specs.View.{view_grant, view_permissions, PermissionsSound};
ghost use Rattle.grants.specs.View.{view_subject, decision_of, walk_of, weights_of};

use path::Path;
use tables::order::same_grant;
use tables::place::permissions_at;
use tables::{Grant, Permission, Permissions};

// Who asks, in which role, when.
#[derive(Clone, Copy)]
pub struct Subject {
    pub role: u8,
    pub user: u8,
    pub time: i64,
}

// What a permission asks of who uses it: the messages to log and the agreements to be signed.
#[derive(Clone, Copy, Default)]
pub struct Provisions {
    pub messages: u32,
    pub agreements: u32,
}

// ---- one permission

// Role and action are equal and the user is admitted: any user (0), or that one.
pub fn concerns(s: Subject, action: u8, g: Grant) -> bool
    ensures { result ≡ model.concerns (view_subject s) action (view_grant g) }
{
    g.role == s.role && g.action == action && (g.user == 0 || g.user == s.user)
}

// The time is in the interval, both ends included.
pub fn during(g: Grant, s: Subject) -> bool
    ensures { result ≡ model.during (view_grant g) s.time }
{
    let span = g.span;
    span.first <= s.time && s.time <= span.last
}

pub fn matches(s: Subject, action: u8, g: Grant) -> bool
    ensures { result ≡ model.matches (view_subject s) action (view_grant g) }
{
    concerns(s, action, g) && during(g, s)
}

// Role and action are equal and the users share a user.
pub fn alike(g: Grant, h: Grant) -> bool
    ensures { result ≡ model.alike (view_grant g) (view_grant h) }
{
    g.role == h.role && g.action == h.action && (g.user == 0 || h.user == 0 || g.user == h.user)
}

// The intervals share a time.
pub fn overlap(g: Grant, h: Grant) -> bool
    ensures { result ≡ model.overlap (view_grant g) (view_grant h) }
{
    let s = g.span;
    let u = h.span;
    s.first <= u.last && u.first <= s.last
}

pub fn clash(g: Grant, h: Grant) -> bool
    ensures { result ≡ model.clash (view_grant g) (view_grant h) }
{
    alike(g, h) && overlap(g, h)
}

// All of a is in b.
pub fn subset(a: u32, b: u32) -> bool
    ensures { result ≡ model.subset a b }
{
    a & b == a
}

// The interval of c contains that of g.
pub fn spans(c: Grant, g: Grant) -> bool
    ensures { result ≡ model.spans (view_grant c) (view_grant g) }
{
    let s = c.span;
    let u = g.span;
    s.first <= u.first && u.last <= s.last
}

// Whether c lets the subject hand g on.
pub fn covers(s: Subject, g: Grant, c: Grant) -> bool
    ensures { result ≡ model.covers (view_subject s) (view_grant g) (view_grant c) }
{
    concerns(s, g.action, c)
        && (c.user == 0 || c.user == g.user)
        && spans(c, g)
        && subset(c.messages, g.messages)
        && subset(c.agreements, g.agreements)
}

// ---- the permissions of one object

// What the object's permissions give the subject, for each action that is granted by one: the first that matches.
#[derive(Clone, Copy, Default)]
pub struct Walk {
    pub read: Option<Provisions>,
    pub change: Option<Provisions>,
    pub delegate: Option<Provisions>,
}

// What the first permission that matches asks for.
fn given(rows: &[Permission], s: Subject, action: u8) -> Option<Provisions>
    ensures { result ≡ decision_of (model.matched (view_subject s) action (map (λ a. view_grant a.grant) rows.now)) }
{
    let g = rows.iter().find(|a| matches(s, action, a.grant))?.grant;
    Some(Provisions {
        messages: g.messages,
        agreements: g.agreements,
    })
}

pub fn walked(t: Permissions, p: Path, name: u16, s: Subject) -> Walk
    requires { PermissionsSound t × PathSound p }
    ensures { result ≡ walk_of (view_subject s) (permissions_in (steps p) name (view_permissions t)) }
{
    let rows = permissions_at(&t, p, name);
    Walk {
        read: given(rows, s, 1),
        change: given(rows, s, 2),
        delegate: given(rows, s, 4),
    }
}

// Of the object's permissions against g: whether one is g itself, one covers it for the subject, one clashes with it.
#[derive(Clone, Copy, Default)]
pub struct Weights {
    pub held: bool,
    pub covered: bool,
    pub clashing: bool,
}

pub fn weighed(t: Permissions, p: Path, name: u16, s: Subject, g: Grant) -> Weights
    requires { PermissionsSound t × PathSound p }
    ensures { result ≡ weights_of (view_subject s) (view_grant g) (permissions_in (steps p) name (view_permissions t)) }
{
    let rows = permissions_at(&t, p, name);
    Weights {
        held: rows.iter().any(|a| same_grant(g, a.grant)),
        covered: rows.iter().any(|a| covers(s, g, a.grant)),
        clashing: rows.iter().any(|a| clash(g, a.grant)),
    }
}

// Whether a permission of the object clashes with g.
pub fn clash_in(t: Permissions, p: Path, name: u16, g: Grant) -> bool
    requires { PermissionsSound t × PathSound p }
    ensures { result ≡ model.clash_any (view_grant g) (permissions_in (steps p) name (view_permissions t)) }
{
    permissions_at(&t, p, name)
        .iter()
        .any(|a| clash(g, a.grant))
}

// Whether a permission of the object covers g for the subject.
pub fn cover_in(t: Permissions, p: Path, name: u16, s: Subject, g: Grant) -> bool
    requires { PermissionsSound t × PathSound p }
    ensures { result ≡ model.cover_any (view_subject s) (view_grant g) (permissions_in (steps p) name (view_permissions t)) }
{
    permissions_at(&t, p, name)
        .iter()
        .any(|a| covers(s, g, a.grant))
}
