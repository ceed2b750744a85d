// What is written: numbers, paths, rows, decisions. What cannot be written is left out.
ghost use Rattle.path.specs.View.{PathSound};
ghost use Rattle.tables.specs.View.{NodesSound, AttributesSound, PermissionsSound};

use grants::Provisions;
use path::Path;
use tables::{Attribute, Attributes, Grant, Node, Nodes, Permission, Permissions, Span, Value};

// ---- words and numbers

pub fn text(rt: &impl Print, s: &[u8]) {
    let _ = rt.write_all(s);
}

pub fn line(rt: &impl Print, words: &[u8], n: usize) {
    text(rt, words);
    let _ = println!(rt; "{n}");
}

pub fn bound(rt: &impl Print, n: usize, words: &[u8], over: bool) {
    let _ = print!(rt; "{n}");
    text(rt, words);
    either(rt, over, b"over\n", b"within\n");
}

pub fn either(rt: &impl Print, yes: bool, a: &[u8], b: &[u8]) {
    text(rt, if yes { a } else { b });
}

pub fn span(rt: &impl Print, s: Span) {
    let _ = print!(rt; "{}..{}", s.first, s.last);
}

// ---- paths

// The steps with a dot between them; a stroke for the root.
pub fn address(rt: &impl Print, p: Path)
    requires { PathSound p }
{
    let n = path::size(p);
    if n == 0 {
        text(rt, b"/");
        return;
    }
    for i in 0..n {
        step(rt, i, path::step_of(p, i));
    }
}

fn step(rt: &impl Print, i: usize, s: u8) {
    if 0 < i {
        text(rt, b".");
    }
    let _ = print!(rt; "{s}");
}

// ---- rows

fn node(rt: &impl Print, a: Node)
    requires { PathSound a.path }
{
    text(rt, b"node ");
    address(rt, a.path);
    let _ = println!(rt; " owner {}", a.owner);
}

pub fn nodes(rt: &impl Print, t: Nodes)
    requires { NodesSound t }
{
    for a in &t.rows[..t.count] {
        node(rt, *a);
    }
}

// A whole number, or a reading by its bits.
pub fn value(rt: &impl Print, v: Value) {
    match v {
        Value::Whole(n) => {
            let _ = print!(rt; "whole {n}");
        }
        Value::Reading(x) => {
            let _ = print!(rt; "reading {:08x}", pattern(x));
        }
    }
}

// A reading that is no number has the pattern 7fc00000.
fn pattern(x: f32) -> u32 {
    if x.is_nan() {
        return 0x7fc0_0000;
    }
    x.to_bits()
}

fn attribute(rt: &impl Print, a: Attribute)
    requires { PathSound a.path }
{
    text(rt, b"attribute ");
    address(rt, a.path);
    let _ = print!(rt; " {} owner {} ", a.name, a.owner);
    value(rt, a.value);
    text(rt, b"\n");
}

pub fn attributes(rt: &impl Print, t: Attributes)
    requires { AttributesSound t }
{
    for a in &t.rows[..t.count] {
        attribute(rt, *a);
    }
}

pub fn terms(rt: &impl Print, g: Grant) {
    let _ = print!(rt; "role {} action {} user {} ", g.role, g.action, g.user);
    span(rt, g.span);
    provisions(rt, g.messages, g.agreements);
}

fn provisions(rt: &impl Print, messages: u32, agreements: u32) {
    let _ = print!(rt; " messages {messages} agreements {agreements}");
}

fn permission(rt: &impl Print, a: Permission)
    requires { PathSound a.path }
{
    text(rt, b"permission ");
    address(rt, a.path);
    let _ = print!(rt; " {} ", a.name);
    terms(rt, a.grant);
    text(rt, b"\n");
}

pub fn permissions(rt: &impl Print, t: Permissions)
    requires { PermissionsSound t }
{
    for a in &t.rows[..t.count] {
        permission(rt, *a);
    }
}

// ---- decisions

pub fn decision(rt: &impl Print, d: Option<Provisions>) {
    match d {
        None => text(rt, b"denied\n"),
        Some(p) => {
            text(rt, b"granted,");
            provisions(rt, p.messages, p.agreements);
            text(rt, b"\n");
        }
    }
}
