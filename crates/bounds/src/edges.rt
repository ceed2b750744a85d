// Decisions at the edges: document 01's examples 4, 5, 6 and 10, the ends of intervals, what covers a delegated permission.
ghost use Rattle.path.specs.View.{PathSound};
ghost use Rattle.tables.specs.View.{PermissionsSound, DossierFits};

use crate::fill::{at, grant, place, top};
use crate::show;
use crate::show::text;
use decide::{Asked, change_node, delegate, granted, own, read_attribute, read_node};
use grants::{Subject, cover_in};
use path::Path;
use tables::{Dossier, Grant, Permissions, Span};

pub fn edges(rt: &impl Print, d: Dossier, q: Permissions)
    requires { DossierFits d × PermissionsSound q }
{
    text(rt, b"5. decisions\n");
    example4(rt);
    example5(rt);
    example6(rt);
    reads(rt, d);
    attribute_reads(rt, d);
    changes(rt, d);
    owns(rt, d);
    delegates(rt, d);
    intervals(rt, q);
    provisions(rt, q);
    users(rt, q);
    delegators(rt, q);
    requests(rt, d, 2);
    requests(rt, d, 62);
    blank(rt, d);
}

// ---- examples 4 to 6

fn example4(rt: &impl Print) {
    let early = Span { first: -5, last: 0 };
    let before = Span {
        first: -5,
        last: -1,
    };
    let late = Span { first: 0, last: 9 };
    clash(rt, grant(1, 1, 0, early, 0, 0), grant(1, 1, 0, late, 0, 0));
    clash(rt, grant(1, 1, 0, before, 0, 0), grant(1, 1, 0, late, 0, 0));
}

fn example5(rt: &impl Print) {
    let early = Span { first: -5, last: 0 };
    let late = Span { first: 0, last: 9 };
    clash(rt, grant(1, 1, 3, early, 0, 0), grant(1, 1, 4, late, 0, 0));
    clash(rt, grant(1, 1, 3, early, 0, 0), grant(1, 1, 0, late, 0, 0));
    clash(rt, grant(1, 1, 3, early, 0, 0), grant(1, 2, 3, late, 0, 0));
    clash(rt, grant(1, 1, 3, early, 0, 0), grant(2, 1, 3, late, 0, 0));
}

fn clash(rt: &impl Print, g: Grant, h: Grant) {
    show::terms(rt, g);
    text(rt, b" and ");
    show::terms(rt, h);
    show::either(rt, grants::clash(g, h), b": clash\n", b": no clash\n");
}

fn example6(rt: &impl Print) {
    let g = grant(1, 1, 0, Span { first: 0, last: 10 }, 0, 0);
    matches(rt, g, who(1, 3, -1));
    matches(rt, g, who(1, 3, 0));
    matches(rt, g, who(1, 3, 10));
    matches(rt, g, who(1, 3, 11));
}

fn matches(rt: &impl Print, g: Grant, s: Subject) {
    show::terms(rt, g);
    text(rt, b",");
    subject(rt, s);
    show::either(rt, grants::matches(s, 1, g), b": match\n", b": no match\n");
}

fn who(role: u8, user: u8, time: i64) -> Subject {
    Subject { role, user, time }
}

fn subject(rt: &impl Print, s: Subject) {
    let _ = print!(rt; " role {} user {} time {}", s.role, s.user, s.time);
}

// What is asked of a node, and of an attribute: what comes before the decision.
fn asked(rt: &impl Print, what: &[u8], p: Path, s: Subject)
    requires { PathSound p }
{
    text(rt, what);
    show::address(rt, p);
    subject(rt, s);
    text(rt, b": ");
}

fn asked_of(rt: &impl Print, what: &[u8], p: Path, name: u16, s: Subject)
    requires { PathSound p }
{
    text(rt, what);
    show::address(rt, p);
    let _ = print!(rt; " {name}");
    subject(rt, s);
    text(rt, b": ");
}

// ---- read

fn reads(rt: &impl Print, d: Dossier)
    requires { DossierFits d }
{
    let p = top();
    read(rt, d, p, who(15, 1, 100));
    read(rt, d, p, who(2, 3, -1));
    read(rt, d, p, who(2, 3, 0));
    read(rt, d, p, who(2, 3, 10));
    read(rt, d, p, who(2, 3, 11));
    read(rt, d, p, who(2, 3, -11));
    read(rt, d, p, who(2, 3, -21));
    read(rt, d, place(2), who(2, 3, 5));
}

fn read(rt: &impl Print, d: Dossier, p: Path, s: Subject)
    requires { DossierFits d × PathSound p }
{
    asked(rt, b"read ", p, s);
    show::decision(rt, read_node(d, p, s));
}

fn attribute_reads(rt: &impl Print, d: Dossier)
    requires { DossierFits d }
{
    let end = i64::MAX;
    attribute_read(rt, d, top(), 85, who(8, 3, end));
    attribute_read(rt, d, top(), 86, who(8, 3, end));
    attribute_read(rt, d, top(), 84, who(8, 3, end));
    attribute_read(rt, d, top(), 85, who(9, 3, 5));
    attribute_read(rt, d, top(), 85, who(9, 1, 5));
    attribute_read(rt, d, top(), 85, who(9, 64, 5));
}

fn attribute_read(rt: &impl Print, d: Dossier, p: Path, name: u16, s: Subject)
    requires { DossierFits d × PathSound p }
{
    asked_of(rt, b"read ", p, name, s);
    show::decision(rt, read_attribute(d, p, name, s));
}

// ---- change: with read and change, with change alone (example 10), with read alone

fn changes(rt: &impl Print, d: Dossier)
    requires { DossierFits d }
{
    change(rt, d, top(), who(2, 3, 5));
    change(rt, d, place(2), who(2, 3, 5));
    change(rt, d, top(), who(2, 3, -15));
    change(rt, d, top(), who(2, 1, 100));
    change(rt, d, place(1), who(15, 64, -5));
    change(rt, d, place(1), who(15, 63, -5));
}

fn change(rt: &impl Print, d: Dossier, p: Path, s: Subject)
    requires { DossierFits d × PathSound p }
{
    asked(rt, b"change ", p, s);
    show::decision(rt, change_node(d, p, s));
}

// ---- own and delegate

fn owns(rt: &impl Print, d: Dossier)
    requires { DossierFits d }
{
    owned(rt, d, top(), 0, who(1, 1, 5));
    owned(rt, d, top(), 0, who(1, 64, 5));
    owned(rt, d, top(), 85, who(1, 64, 5));
    owned(rt, d, top(), 85, who(1, 1, 5));
}

fn owned(rt: &impl Print, d: Dossier, p: Path, name: u16, s: Subject)
    requires { DossierFits d × PathSound p }
{
    asked_of(rt, b"own ", p, name, s);
    show::decision(rt, own(d, p, name, s));
}

// Owning does not help: role 15 has no delegate permission on the root.
fn delegates(rt: &impl Print, d: Dossier)
    requires { DossierFits d }
{
    delegated(rt, d, top(), who(15, 1, 5));
    delegated(rt, d, top(), who(14, 1, 5));
    delegated(rt, d, top(), who(14, 1, 11));
    delegated(rt, d, place(2), who(15, 64, -1));
    delegated(rt, d, place(2), who(15, 64, 0));
    delegated(rt, d, place(2), who(15, 2, -1));
}

fn delegated(rt: &impl Print, d: Dossier, p: Path, s: Subject)
    requires { DossierFits d × PathSound p }
{
    asked(rt, b"delegate ", p, s);
    show::decision(rt, delegate(d, p, 0, s));
}

// ---- cover: the permission of role 2 on the root is 0..10 for any user with messages 18 and agreements 1; the present time is not in it

fn intervals(rt: &impl Print, q: Permissions)
    requires { PermissionsSound q }
{
    let p = top();
    let same = Span { first: 0, last: 10 };
    let longer = Span { first: 0, last: 11 };
    let sooner = Span {
        first: -1,
        last: 10,
    };
    let shorter = Span { first: 3, last: 3 };
    cover(rt, q, p, 2, 3, grant(5, 1, 0, same, 18, 1));
    cover(rt, q, p, 2, 3, grant(5, 1, 0, longer, 18, 1));
    cover(rt, q, p, 2, 3, grant(5, 1, 0, sooner, 18, 1));
    cover(rt, q, p, 2, 3, grant(5, 1, 0, shorter, 18, 1));
}

fn provisions(rt: &impl Print, q: Permissions)
    requires { PermissionsSound q }
{
    let p = top();
    let same = Span { first: 0, last: 10 };
    cover(rt, q, p, 2, 3, grant(5, 1, 0, same, 18, 0));
    cover(rt, q, p, 2, 3, grant(5, 1, 0, same, 16, 1));
    cover(rt, q, p, 2, 3, grant(5, 1, 7, same, u32::MAX, u32::MAX));
}

// One user's permission covers one for that user, not one for any.
fn users(rt: &impl Print, q: Permissions)
    requires { PermissionsSound q }
{
    let p = place(1);
    let span = Span { first: -5, last: 5 };
    cover(rt, q, p, 2, 51, grant(5, 1, 0, span, 18, 1));
    cover(rt, q, p, 2, 51, grant(5, 1, 51, span, 18, 1));
    cover(rt, q, p, 2, 51, grant(5, 1, 52, span, 18, 1));
}

// It admits no other user and no other role.
fn delegators(rt: &impl Print, q: Permissions)
    requires { PermissionsSound q }
{
    let p = place(1);
    let span = Span { first: -5, last: 5 };
    cover(rt, q, p, 2, 3, grant(5, 1, 51, span, 18, 1));
    cover(rt, q, p, 3, 51, grant(5, 1, 51, span, 18, 1));
    cover(rt, q, p, 2, 51, grant(5, 2, 51, span, 34, 2));
    cover(rt, q, p, 2, 51, grant(5, 2, 51, span, 18, 1));
}

fn cover(rt: &impl Print, q: Permissions, p: Path, role: u8, user: u8, g: Grant)
    requires { PermissionsSound q × PathSound p }
{
    let s = who(role, user, 1000);
    text(rt, b"cover ");
    show::address(rt, p);
    subject(rt, s);
    text(rt, b", ");
    show::terms(rt, g);
    show::either(
        rt,
        cover_in(q, p, 0, s, g),
        b": covered\n",
        b": not covered\n",
    );
}

// ---- the needs of every request, on the attribute 85 of the node at 2, and of two numbers that are none

fn requests(rt: &impl Print, d: Dossier, user: u8)
    requires { DossierFits d }
{
    for number in 0..19 {
        request(rt, d, number, user);
    }
}

fn request(rt: &impl Print, d: Dossier, number: u8, user: u8)
    requires { DossierFits d }
{
    let s = who(2, user, 5);
    let _ = print!(rt; "request {number} 2 85");
    subject(rt, s);
    text(rt, b": ");
    let a = Asked {
        number,
        subject: s,
        path: place(2),
        name: 85,
    };
    show::decision(rt, granted(a, d));
}

// ---- nobody is no user: where there is no node, the blank user is granted nothing

fn blank(rt: &impl Print, d: Dossier)
    requires { DossierFits d }
{
    let p = at(2, [3, 1, 0, 0, 0, 0]);
    read(rt, d, p, who(2, 0, 5));
    change(rt, d, p, who(2, 0, 5));
    attribute_read(rt, d, p, 85, who(2, 0, 5));
    owned(rt, d, p, 0, who(2, 0, 5));
    delegated(rt, d, p, who(2, 0, 5));
}
