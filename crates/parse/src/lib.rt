// One record of an image from its forty bytes. Each kind has its rule: the used fields are in their ranges, the others are 0.
#![tactic(auto)]

ghost use Rattle.std.specs.Prelude.{◌≡◌, ◌↔◌, IsTrue, EachIndex, slice_index};
ghost use Rattle.model.specs.Image as images;
ghost use Rattle.tables.specs.View.{view_grant, grant_of};
ghost use Rattle.parse.specs.Fields.{node_good, attribute_good, value_from, grant_good, permission_good};
ghost use Rattle.parse.specs.View.{valued_of, record_of, node_from, attribute_from, permission_from};

use numbers::{is_finite, read2, read4, read8, time_of};
use path::{Path, path_at};
use tables::{Attribute, Grant, Node, Permission, Span, Value};

pub mod numbers;

// A row of one of the tables.
#[derive(Clone, Copy)]
pub enum Record {
    Node(Node),
    Attribute(Attribute),
    Permission(Permission),
}

// ---- parts

// The value that a kind and 32 bits are: 1 a whole number, 2 a reading, which is finite.
pub fn value_of(kind: u8, bits: u32) -> Option<Value>
    ensures { result ≡ valued_of (value_from kind bits) }
{
    match kind {
        1 => Some(Value::Whole(bits)),
        2 => reading_of(bits),
        _ => None,
    }
}

fn reading_of(bits: u32) -> Option<Value>
    ensures { result ≡ valued_of (value_from 2 bits) }
{
    // the patterns of NaN
    if 0x7f80_0000 < bits % 0x8000_0000 {
        return None;
    }
    let x = f32::from_bits(bits);
    if is_finite(x) {
        return Some(Value::Reading(x));
    }
    None
}

fn all_zero(b: &[u8]) -> bool
    ensures { IsTrue result ↔ EachIndex b.now (λ k. slice_index b.now k ≡ 0) }
{
    b.iter().all(|x| *x == 0)
}

fn grant_at(b: &[u8; 40]) -> Grant
    ensures { result ≡ grant_of (images.read_permission b.now) }
{
    let first = time_of(read8(b, 16));
    let last = time_of(read8(b, 24));
    Grant {
        role: b[11],
        action: b[12],
        user: b[13],
        span: Span { first, last },
        messages: read4(b, 32),
        agreements: read4(b, 36),
    }
}

// ---- the rule of each kind

fn is_node(b: &[u8; 40]) -> bool
    ensures { result ≡ node_good b.now }
{
    let owner = b[10];
    let name = all_zero(&b[8..10]);
    let rest = all_zero(&b[11..40]);
    ((1 <= owner) & (owner <= 64)) & (name & rest)
}

fn is_attribute(b: &[u8; 40]) -> bool
    ensures { result ≡ attribute_good b.now }
{
    let name = read2(b, 8);
    let owner = b[10];
    let grant = all_zero(&b[11..14]);
    let gap = all_zero(&b[15..16]);
    let rest = all_zero(&b[20..40]);
    (1 <= name) & (((1 <= owner) & (owner <= 64)) & (grant & (gap & rest)))
}

// A permission's ranges; an interval does not end before it starts, and an attribute is not changed by permission.
fn is_grant(name: u16, g: Grant) -> bool
    ensures { result ≡ grant_good name (view_grant g) }
{
    let span = g.span;
    ((1 <= g.role) & (g.role <= 15))
        & (((1 <= g.action) & (g.action <= 4))
            & ((g.user <= 64) & ((span.first <= span.last) & ((name == 0) | (g.action != 2)))))
}

// ---- a record at a path

fn read_node(b: &[u8; 40], path: Path) -> Option<Record>
    ensures { result ≡ node_from path b.now }
{
    if !is_node(b) {
        return None;
    }
    let owner = b[10];
    Some(Record::Node(Node {
        path,
        owner,
        unused: [0; 7],
    }))
}

fn read_attribute(b: &[u8; 40], path: Path) -> Option<Record>
    ensures { result ≡ attribute_from path b.now }
{
    if !is_attribute(b) {
        return None;
    }
    let name = read2(b, 8);
    let owner = b[10];
    let value = value_of(b[14], read4(b, 16))?;
    Some(Record::Attribute(Attribute {
        path,
        name,
        owner,
        value,
    }))
}

fn read_permission(b: &[u8; 40], path: Path) -> Option<Record>
    ensures { result ≡ permission_from path b.now }
{
    let name = read2(b, 8);
    let grant = grant_at(b);
    let good = is_grant(name, grant);
    let owner = all_zero(&b[10..11]);
    let value = all_zero(&b[14..16]);
    if good & (owner & value) {
        return Some(Record::Permission(Permission { path, name, grant }));
    }
    None
}

// The record that forty bytes are, if they are one.
pub fn decoded(b: &[u8; 40]) -> Option<Record>
    ensures { result ≡ record_of (images.decode b.now) }
{
    let path = path_at(b, 1)?;
    match b[0] {
        1 => read_node(b, path),
        2 => read_attribute(b, path),
        3 => read_permission(b, path),
        _ => None,
    }
}
