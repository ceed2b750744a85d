// Numbers and records of forty bytes into a lent buffer.
#![tactic(auto)]

ghost use Rattle.std.specs.Prelude.{◌≡◌, [], ◌∷◌, ◌++◌, ◌+◌, ◌≤◌, length, replicate};
ghost use Rattle.std.specs.Float.Ieee.{to_bits};
ghost use Rattle.std.specs.Float.{binary32};
ghost use Rattle.std.specs.Int.{w64};
ghost use Rattle.std.proofs.Common.{of_z};
ghost use Rattle.laws.specs.Slots.{put};
ghost use Rattle.path.specs.View.{steps, PathSound};
ghost use Rattle.model.specs.Image as images;
ghost use Rattle.model.specs.Image.{bytes2, bytes4, bytes8, front, value_kind, value_bits, node_record, attribute_record, permission_record};
ghost use Rattle.tables.specs.View.{view_value, view_node, view_attribute, view_permission, NodeSound, AttributeSound, PermissionSound};

use path::{Path, put_path};
use tables::{Attribute, Grant, Node, Permission, Span, Value};

// ---- numbers, big-endian, from at on

pub fn put2(out: &mut [u8], at: usize, n: u16)
    requires { at + 2 ≤ length out.old }
    ensures { out.new ≡ put out.old at (bytes2 n) }
{
    out[at..at + 2].copy_from_slice(&n.to_be_bytes());
}

pub fn put4(out: &mut [u8], at: usize, n: u32)
    requires { at + 4 ≤ length out.old }
    ensures { out.new ≡ put out.old at (bytes4 n) }
{
    out[at..at + 4].copy_from_slice(&n.to_be_bytes());
}

pub fn put8(out: &mut [u8], at: usize, n: u64)
    requires { at + 8 ≤ length out.old }
    ensures { out.new ≡ put out.old at (bytes8 n) }
{
    out[at..at + 8].copy_from_slice(&n.to_be_bytes());
}

fn put_zeros(out: &mut [u8], at: usize, n: usize)
    requires { at + n ≤ length out.old }
    ensures { out.new ≡ put out.old at (replicate n 0) }
{
    out[at..at + n].fill(0);
}

// ---- times and readings as bits

// A time in two's complement.
pub fn bits_of_time(t: i64) -> u64
    ensures { result ≡ of_z w64 t }
{
    t.cast_unsigned()
}

// A reading's pattern. One that is no number has the pattern 7fc00000: `to_bits` is not asked for it.
pub fn pattern_of(x: f32) -> u32
    ensures { result ≡ to_bits binary32 x }
{
    if x.is_nan() {
        return 0x7fc0_0000;
    }
    x.to_bits()
}

fn value_kind(v: Value) -> u8
    ensures { result ≡ value_kind (view_value v) }
{
    match v {
        Value::Whole(_) => 1,
        Value::Reading(_) => 2,
    }
}

fn value_bits(v: Value) -> u32
    ensures { result ≡ value_bits (view_value v) }
{
    match v {
        Value::Whole(n) => n,
        Value::Reading(x) => pattern_of(x),
    }
}

// ---- records of forty bytes, from at on

// What every kind has: bytes 0 to 15. A field that the kind doesn't use is 0.
#[derive(Clone, Copy)]
struct Front {
    kind: u8,
    path: Path,
    name: u16,
    owner: u8,
    role: u8,
    action: u8,
    user: u8,
    value: u8,
}

// Bytes 10 to 15.
fn put_six(out: &mut [u8], at: usize, f: Front)
    requires { at + 6 ≤ length out.old }
    ensures { out.new ≡ put out.old at (f.owner ∷ f.role ∷ f.action ∷ f.user ∷ f.value ∷ 0 ∷ []) }
{
    out[at..at + 6].copy_from_slice(&[f.owner, f.role, f.action, f.user, f.value, 0]);
}

fn put_front(out: &mut [u8], at: usize, f: Front)
    requires { PathSound f.path × (at + 16 ≤ length out.old) }
    ensures { out.new ≡ put out.old at (front f.kind (steps f.path) f.name f.owner f.role f.action f.user f.value) }
{
    out[at] = f.kind;
    put_path(out, at + 1, f.path);
    put2(out, at + 8, f.name);
    put_six(out, at + 10, f);
}

pub fn put_node(out: &mut [u8], at: usize, a: Node)
    requires { NodeSound a × (at + 40 ≤ length out.old) }
    ensures { out.new ≡ put out.old at (images.encode (node_record (view_node a))) }
{
    let Node { path, owner, .. } = a;
    let front = Front {
        kind: 1,
        path,
        name: 0,
        owner,
        role: 0,
        action: 0,
        user: 0,
        value: 0,
    };
    put_front(out, at, front);
    put_zeros(out, at + 16, 24);
}

pub fn put_attribute(out: &mut [u8], at: usize, a: Attribute)
    requires { AttributeSound a × (at + 40 ≤ length out.old) }
    ensures { out.new ≡ put out.old at (images.encode (attribute_record (view_attribute a))) }
{
    let Attribute {
        path,
        name,
        owner,
        value,
    } = a;
    let front = Front {
        kind: 2,
        path,
        name,
        owner,
        role: 0,
        action: 0,
        user: 0,
        value: value_kind(value),
    };
    put_front(out, at, front);
    put4(out, at + 16, value_bits(value));
    put_zeros(out, at + 20, 20);
}

pub fn put_permission(out: &mut [u8], at: usize, a: Permission)
    requires { PermissionSound a × (at + 40 ≤ length out.old) }
    ensures { out.new ≡ put out.old at (images.encode (permission_record (view_permission a))) }
{
    let Permission { path, name, grant } = a;
    let front = Front {
        kind: 3,
        path,
        name,
        owner: 0,
        role: grant.role,
        action: grant.action,
        user: grant.user,
        value: 0,
    };
    put_front(out, at, front);
    put_terms(out, at + 16, grant);
}

// Bytes 16 to 39 of a permission: when it holds, and what it asks for.
fn put_terms(out: &mut [u8], at: usize, g: Grant)
    requires { at + 24 ≤ length out.old }
    ensures { out.new ≡ put out.old at (bytes8 (of_z w64 g.span.first) ++ (bytes8 (of_z w64 g.span.last) ++ (bytes4 g.messages ++ bytes4 g.agreements))) }
{
    put_span(out, at, g.span);
    put4(out, at + 16, g.messages);
    put4(out, at + 20, g.agreements);
}

fn put_span(out: &mut [u8], at: usize, s: Span)
    requires { at + 16 ≤ length out.old }
    ensures { out.new ≡ put out.old at (bytes8 (of_z w64 s.first) ++ bytes8 (of_z w64 s.last)) }
{
    put8(out, at, bits_of_time(s.first));
    put8(out, at + 8, bits_of_time(s.last));
}
