// Where a table is searched from: tables are in order, so that the place of a path or an object is found by halving.
ghost use Rattle.std.specs.Prelude.{◌≡◌, map};
ghost use Rattle.laws.specs.Sorted.{move};
ghost use Rattle.path.specs.View.{steps, PathSound};
ghost use Rattle.model.specs.Moves.{at, permissions_in};
ghost use Rattle.tables.specs.View.{view_nodes, NodesSound, view_attribute, view_attributes, AttributesSound, view_grant, view_permissions, PermissionsSound};
ghost use Rattle.tables.specs.Places.{before_object, place_of};

use crate::{Attribute, Attributes, Nodes, Permission, Permissions};
use path::{Path, key};

// The first row whose path is not before p, or the number of rows.
pub fn first_at(t: Nodes, p: Path) -> usize
    requires { NodesSound t × PathSound p }
    ensures { result ≡ place_of (steps p) (view_nodes t) }
{
    let k = key(p);
    t.rows[..t.count].partition_point(|a| key(a.path) < k)
}

// The attributes of the node at p, which stand together.
pub fn attributes_at(t: &Attributes, p: Path) -> &[Attribute]
    requires { AttributesSound t.now × PathSound p }
    ensures { map (λ a. (view_attribute a).1) result.now ≡ move (at (steps p)) (view_attributes t.now) }
{
    let k = key(p);
    let rows = &t.rows[..t.count];
    let rest = &rows[rows.partition_point(|a| key(a.path) < k)..];
    &rest[..rest.partition_point(|a| key(a.path) == k)]
}

// The permissions of the object of that name at p, which stand together.
pub fn permissions_at(t: &Permissions, p: Path, name: u16) -> &[Permission]
    requires { PermissionsSound t.now × PathSound p }
    ensures { map (λ a. view_grant a.grant) result.now ≡ permissions_in (steps p) name (view_permissions t.now) }
{
    let o = (key(p), name);
    let rows = &t.rows[..t.count];
    let rest = &rows[rows.partition_point(|a| (key(a.path), a.name) < o)..];
    &rest[..rest.partition_point(|a| (key(a.path), a.name) == o)]
}

// Whether the object of name m at p comes before that of name n at q: by path, then by name.
pub fn object_before(p: Path, m: u16, q: Path, n: u16) -> bool
    requires { PathSound p × PathSound q }
    ensures { result ≡ before_object (steps p, m) (steps q, n) }
{
    (key(p), m) < (key(q), n)
}
