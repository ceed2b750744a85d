// The order of rows, as the bytes of their records compare, and whether two permissions are equal.
ghost use Rattle.std.specs.Prelude.{◌≡◌, FitsSigned};
ghost use Rattle.std.specs.Int.{cast_unsigned, w64};
ghost use Rattle.model.specs.Things as things;
ghost use Rattle.model.specs.Moves.{same_permission};
ghost use Rattle.tables.specs.View.{view_node, NodeSound, view_attribute, AttributeSound, view_permission, PermissionSound, view_grant, Apart};

use crate::{Attribute, Grant, Node, Permission};
use path::key;

pub fn node_before(a: Node, b: Node) -> bool
    requires { NodeSound a × NodeSound b }
    ensures { result ≡ things.before_node (view_node a) (view_node b) }
{
    (key(a.path), a.owner) < (key(b.path), b.owner)
}

// Of two attributes that differ in path or name.
pub fn attribute_before(a: Attribute, b: Attribute) -> bool
    requires { AttributeSound a × AttributeSound b × Apart (view_attribute a) (view_attribute b) }
    ensures { result ≡ things.before_attribute (view_attribute a) (view_attribute b) }
{
    (key(a.path), a.name) < (key(b.path), b.name)
}

// A grant's fields in the order of its record. Times compare as two's complement numbers: one below 0 comes after the others.
fn rank(g: Grant) -> ((u8, u8, u8), u64, u64, (u32, u32))
    ensures fields { result ≡ ((g.role, g.action, g.user), cast_unsigned w64 g.span.first, cast_unsigned w64 g.span.last, (g.messages, g.agreements)) }
    ensures times { FitsSigned w64 g.span.first × FitsSigned w64 g.span.last }
{
    let first = g.span.first.cast_unsigned();
    let last = g.span.last.cast_unsigned();
    (
        (g.role, g.action, g.user),
        first,
        last,
        (g.messages, g.agreements),
    )
}

pub fn grant_before(a: Grant, b: Grant) -> bool
    ensures { result ≡ things.lt_permission (view_grant a) (view_grant b) }
{
    rank(a) < rank(b)
}

pub fn permission_before(a: Permission, b: Permission) -> bool
    requires { PermissionSound a × PermissionSound b }
    ensures { result ≡ things.before_permission (view_permission a) (view_permission b) }
{
    (key(a.path), a.name, rank(a.grant)) < (key(b.path), b.name, rank(b.grant))
}

// Whether every field of the two is equal.
pub fn same_grant(g: Grant, h: Grant) -> bool
    ensures { result ≡ same_permission (view_grant g) (view_grant h) }
{
    g == h
}
