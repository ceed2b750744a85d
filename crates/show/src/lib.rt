// A dossier as a person would draw it: a line for each node, indented by its depth, and below it its permissions and its attributes.
#![tactic(auto)]

use answers::line::Line;
use encode::pattern_of;
use path::{Path, key, raw_of};
use std::fmt;
use std::fmt::Write;
use tables::{Attribute, Attributes, Dossier, Grant, Node, Nodes, Permission, Permissions, Value};

pub mod helping;

// What cannot be written is left out.
pub fn say(rt: &impl Print, line: &Line) {
    let _ = rt.write_all(line.as_bytes());
}

// ---- parts of a line

// Two spaces for each step, and some more.
fn indent(line: &mut Line, p: Path, more: usize) -> fmt::Result {
    for _ in 0..raw_of(p).len {
        line.write_str("  ")?;
    }
    for _ in 0..more {
        line.write_str(" ")?;
    }
    Ok(())
}

fn put_address(line: &mut Line, p: Path) -> fmt::Result {
    let r = raw_of(p);
    if r.len == 0 {
        return line.write_str("/");
    }
    for (i, step) in r.steps.iter().take(usize::from(r.len)).enumerate() {
        if i != 0 {
            line.write_str(".")?;
        }
        write!(line, "{step}")?;
    }
    Ok(())
}

// The numbers in a set, with a word before the first and commas between them.
fn put_set(line: &mut Line, word: &str, set: u32) -> fmt::Result {
    let mut before = word;
    for n in 0..32u32 {
        if set >> n & 1 == 1 {
            write!(line, "{before}{n}")?;
            before = ",";
        }
    }
    Ok(())
}

fn put_value(line: &mut Line, v: Value) -> fmt::Result {
    match v {
        Value::Whole(n) => write!(line, "{n}"),
        Value::Reading(x) => {
            let bits = pattern_of(x);
            write!(line, "reading:{bits:08x}")
        }
    }
}

fn words_of_action(action: u8) -> &'static str {
    match action {
        1 => "may read",
        2 => "may change",
        3 => "may print",
        _ => "may delegate",
    }
}

fn put_grant(line: &mut Line, g: Grant) -> fmt::Result {
    let role = g.role;
    let action = words_of_action(g.action);
    write!(line, "role {role} {action}, ")?;
    match g.user {
        0 => line.write_str("any user")?,
        user => write!(line, "user {user}")?,
    }
    let first = g.span.first;
    let last = g.span.last;
    write!(line, ", {first}..{last}")?;
    put_set(line, ", messages ", g.messages)?;
    put_set(line, ", agreements ", g.agreements)
}

// ---- lines

fn put_permission(line: &mut Line, a: Permission, more: usize) -> fmt::Result {
    indent(line, a.path, more)?;
    put_grant(line, a.grant)?;
    line.write_str("\n")
}

fn put_attribute(line: &mut Line, a: Attribute) -> fmt::Result {
    let name = a.name;
    let owner = a.owner;
    indent(line, a.path, 4)?;
    write!(line, "{name} = ")?;
    put_value(line, a.value)?;
    writeln!(line, ", owner {owner}")
}

fn put_node(line: &mut Line, a: Node) -> fmt::Result {
    let owner = a.owner;
    indent(line, a.path, 0)?;
    put_address(line, a.path)?;
    writeln!(line, ", owner {owner}")
}

// ---- the tree

fn is_at(a: Path, b: Path) -> bool {
    key(a) == key(b)
}

// The permissions for one object: name 0 is the node.
fn show_permissions(
    rt: &impl Print,
    t: &Permissions,
    p: Path,
    name: u16,
    more: usize,
    line: &mut Line,
) -> fmt::Result {
    for row in t.rows.iter().take(t.count) {
        if is_at(row.path, p) && row.name == name {
            line.clear();
            put_permission(line, *row, more)?;
            say(rt, line);
        }
    }
    Ok(())
}

// The attributes of one node, each with its permissions.
fn show_attributes(rt: &impl Print, d: &Dossier, p: Path, line: &mut Line) -> fmt::Result {
    for row in d.attributes.rows.iter().take(d.attributes.count) {
        if is_at(row.path, p) {
            line.clear();
            put_attribute(line, *row)?;
            say(rt, line);
            show_permissions(rt, &d.permissions, p, row.name, 8, line)?;
        }
    }
    Ok(())
}

// Where a node is drawn: by its steps alone, so that a branch stays together. The root comes first.
fn place_of(p: Path) -> u64 {
    key(p) % 281474976710656 + 1
}

// The row that is drawn next behind a place.
fn next_row(t: &Nodes, last: u64) -> Option<&Node> {
    t.rows
        .iter()
        .take(t.count)
        .filter(|row| last < place_of(row.path))
        .min_by_key(|row| place_of(row.path))
}

fn show_branch(rt: &impl Print, a: Node, d: &Dossier, line: &mut Line) -> fmt::Result {
    line.clear();
    put_node(line, a)?;
    say(rt, line);
    show_permissions(rt, &d.permissions, a.path, 0, 4, line)?;
    show_attributes(rt, d, a.path, line)
}

pub fn show(rt: &impl Print, d: &Dossier, line: &mut Line) {
    let mut last = 0;
    for _ in 0..64 {
        let Some(row) = next_row(&d.nodes, last) else {
            return;
        };
        // A `Line` takes every text: nothing fails, and what finds no room is left out.
        let _ = show_branch(rt, *row, d, line);
        last = place_of(row.path);
    }
}
