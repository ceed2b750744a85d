// The table of permissions: how it changes.
#![tactic(auto)]

ghost use Rattle.std.specs.Prelude.{◌≡◌, ◌&&◌, [], map, ◌+◌, ◌-◌, ◌≤◌, ◌<◌, eqb, length};
ghost use Rattle.laws.specs.Sorted.{insert, merge, move};
ghost use Rattle.path.specs.Address.{same, down, off};
ghost use Rattle.path.specs.View.{steps, path_of, PathSound};
ghost use Rattle.model.specs.Things as things;
ghost use Rattle.model.specs.Moves as model;
ghost use Rattle.tables.specs.View.{view_permission, permission_of, permissions_of, PermissionsSound, view_grant, view_permissions, PermissionSound};
ghost use Rattle.std.proofs.Math.Option as math;
ghost use Rattle.rows.specs.Tables.{given};
ghost use Rattle.moves.specs.Moved.{below, raised};
ghost use Rattle.moves.specs.Room.{FreshPermission, NoObject, OneObject, Shallow, grant_in, renamed, held_grant};

use path::{Path, is_same, root};
use tables::order::{permission_before, same_grant};
use tables::{Grant, Permission, Permissions};

// After an add or a paste at q: at or below q, or a later sibling of it, that step is one higher; the others stay.
#[tactic(auto, unfolding(tables::specs::View::permissions_of))]
pub fn up(t: Permissions, q: Path) -> Permissions
    requires { PermissionsSound t × PathSound q }
    ensures { result ≡ permissions_of (raised (steps q) (view_permissions t)) }
{
    rows::up(&t, q)
}

// After a delete at q: permissions at or below q go; at or below a later sibling that step is one lower.
#[tactic(auto, unfolding(tables::specs::View::permissions_of))]
pub fn down(t: Permissions, q: Path) -> Permissions
    requires { PermissionsSound t × PathSound q }
    ensures { result ≡ permissions_of (model.carried (down (steps q)) (view_permissions t)) }
{
    rows::down(&t, q)
}

// Those of the branch at q, prefix removed.
#[tactic(auto, unfolding(tables::specs::View::permissions_of))]
pub fn off(t: Permissions, q: Path) -> Permissions
    requires { PermissionsSound t × PathSound q }
    ensures { result ≡ permissions_of (model.carried (off (steps q)) (view_permissions t)) }
{
    rows::off(&t, q)
}

// Those of the branch c pasted at q, which is not the root: what stood there has moved as for an add.
#[tactic(auto, unfolding(tables::specs::View::permissions_of))]
pub fn paste(c: Permissions, t: Permissions, q: Path) -> Permissions
    requires permissions_sound { PermissionsSound c × PermissionsSound t × PathSound q × (0 < length (steps q)) }
    requires count_bound { (c.count + t.count ≤ 128) × Shallow (steps q) (view_permissions c) }
    ensures { result ≡ permissions_of (merge things.before_permission (below (steps q) (view_permissions c)) (raised (steps q) (view_permissions t))) }
{
    rows::paste(&c, &t, q)
}

// One permission more, where it comes in the order of records; that row is not there yet.
#[tactic(auto, unfolding(tables::specs::View::permissions_of))]
pub fn insert(a: Permission, t: Permissions) -> Permissions
    requires { PermissionSound a × PermissionsSound t × (t.count < 128) × FreshPermission (view_permission a) (view_permissions t) }
    ensures { result ≡ permissions_of (insert things.before_permission (view_permission a) (view_permissions t)) }
{
    rows::insert(a, t)
}

// Whether it is for the object of that name at p, 0 for the node.
fn is_at(a: Permission, p: Path, name: u16) -> bool
    requires { PermissionSound a × PathSound p }
    ensures { result ≡ (same (steps a.path) (steps p) && eqb a.name name) }
{
    is_same(a.path, p) & (a.name == name)
}

// All but those for the object of that name at p.
#[tactic(auto, unfolding(tables::specs::View::permissions_of))]
pub fn without(t: Permissions, p: Path, name: u16) -> Permissions
    requires { PermissionsSound t × PathSound p }
    ensures { result ≡ permissions_of (move (model.keep (model.other_object (steps p) name)) (view_permissions t)) }
{
    rows::moved(
        &t,
        |row: Permission| -> Option<Permission>
            requires { PermissionSound row × PathSound p }
            ensures { result ≡ given permission_of (model.keep (model.other_object (steps p) name) (view_permission row)) }
        { if is_at(row, p, name) { None } else { Some(row) } },
    )
}

// Whether it is the exact permission: for that object, and g in every field.
fn is_exactly(a: Permission, p: Path, name: u16, g: Grant) -> bool
    requires { PermissionSound a × PathSound p }
    ensures { result ≡ ((same (steps a.path) (steps p) && eqb a.name name) && model.same_permission (view_grant g) (view_grant a.grant)) }
{
    is_at(a, p, name) & same_grant(g, a.grant)
}

// All but the exact permission.
#[tactic(auto, unfolding(tables::specs::View::permissions_of))]
pub fn except(t: Permissions, p: Path, name: u16, g: Grant) -> Permissions
    requires { PermissionsSound t × PathSound p }
    ensures { result ≡ permissions_of (move (model.keep (model.other_permission (steps p) name (view_grant g))) (view_permissions t)) }
{
    rows::moved(
        &t,
        |row: Permission| -> Option<Permission>
            requires { PermissionSound row × PathSound p }
            ensures { result ≡ given permission_of (model.keep (model.other_permission (steps p) name (view_grant g)) (view_permission row)) }
        {
            if is_exactly(row, p, name, g) {
                None
            } else {
                Some(row)
            }
        },
    )
}

// The same permission for another object.
fn granted(a: Permission, p: Path, name: u16) -> Permission
    ensures { result ≡ record { path = p; name = name; grant = a.grant } }
{
    Permission { path: p, name, ..a }
}

// Those for the object of that name at p, with the empty path, as the clipboard holds them.
#[tactic(auto, unfolding(tables::specs::View::permissions_of))]
pub fn of_object(t: Permissions, p: Path, name: u16) -> Permissions
    requires { PermissionsSound t × PathSound p }
    ensures { result ≡ permissions_of (map (model.grant_row [] name) (model.permissions_in (steps p) name (view_permissions t))) }
{
    let top = root();
    rows::moved(
        &t,
        |row: Permission| -> Option<Permission>
            requires { PermissionSound row × PathSound p × (top ≡ path_of []) }
            ensures { result ≡ given permission_of (held_grant (steps p) name (view_permission row)) }
        {
            if is_at(row, p, name) {
                Some(granted(row, top, name))
            } else {
                None
            }
        },
    )
}

// Those of a cached attribute (all for one object) pasted for the object of that name at p, where there are none for it yet.
#[tactic(auto, unfolding(tables::specs::View::permissions_of))]
pub fn paste_under(c: Permissions, t: Permissions, p: Path, name: u16) -> Permissions
    requires permissions_sound { PermissionsSound c × PermissionsSound t × PathSound p × (c.count + t.count ≤ 128) }
    requires one_object { OneObject (view_permissions c) × NoObject (steps p) name (view_permissions t) }
    ensures { result ≡ permissions_of (merge things.before_permission (map (model.grant_row (steps p) name) (map grant_in (view_permissions c))) (view_permissions t)) }
{
    let new = rows::moved(
        &c,
        |row: Permission| -> Option<Permission>
            requires { PermissionSound row × PathSound p }
            ensures { result ≡ given permission_of (math.some (renamed (steps p) name (view_permission row))) }
        { Some(granted(row, p, name)) },
    );
    rows::merged(&new.rows[..new.count], t, permission_before)
}
