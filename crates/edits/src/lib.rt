// How a whole dossier changes: an object goes with its owner and its permissions. Also what the clipboard takes and gives.
#![tactic(auto)]

ghost use Rattle.std.specs.Prelude.{◌≡◌, ◌<◌, length};
ghost use Rattle.std.proofs.Math.Option.{some};
ghost use Rattle.path.specs.Address.{up};
ghost use Rattle.path.specs.View.{steps, PathSound};
ghost use Rattle.model.specs.Things as things;
ghost use Rattle.model.specs.Moves as model;
ghost use Rattle.tables.specs.View.{AttributeSound, ClipboardSound, DossierFits, DossierSound, clipboard_of, dossier_of, view_attribute, view_attributes, view_clipboard, view_dossier, view_grant, view_permissions, view_value};
ghost use Rattle.moves.specs.Room.{FreshAttribute, FreshPermission};
ghost use Rattle.edits.specs.Room.{AttributeRoom, NodeRoom, PermissionRoom, Room, SingleRoom};

use path::Path;
use tables::{
    Attribute, Clipboard, Dossier, Grant, Permission, Value, no_attributes, no_nodes,
    no_permissions,
};

// A bare root of that owner.
pub fn bare(owner: u8) -> Dossier
    ensures { result ≡ dossier_of (things.bare owner) }
{
    let n = nodes::one(owner);
    Dossier {
        nodes: n,
        attributes: no_attributes(),
        permissions: no_permissions(),
    }
}

// ---- branches

// After an add or a paste at q: nodes, attributes and permissions move alike.
pub fn raise(d: Dossier, q: Path) -> Dossier
    requires { DossierFits d × PathSound q }
    ensures { result ≡ dossier_of (model.each (λ p. some (up (steps q) p)) (view_dossier d)) }
{
    Dossier {
        nodes: nodes::up(d.nodes, q),
        attributes: attributes::up(d.attributes, q),
        permissions: permissions::up(d.permissions, q),
    }
}

// Delete at q: objects at or below q go, with their permissions; the others move.
pub fn delete_branch(d: Dossier, q: Path) -> Dossier
    requires { DossierFits d × PathSound q }
    ensures { result ≡ dossier_of (model.delete_branch (steps q) (view_dossier d)) }
{
    let left = nodes::down(d.nodes, q);
    let held = attributes::down(d.attributes, q);
    let granted = permissions::down(d.permissions, q);
    let mut r = d;
    r.nodes = left;
    r.attributes = held;
    r.permissions = granted;
    r
}

// Copy takes the branch at q with its owners and permissions, prefix removed.
pub fn copy_branch(d: Dossier, q: Path) -> Dossier
    requires { DossierFits d × PathSound q }
    ensures { result ≡ dossier_of (model.copy_branch (steps q) (view_dossier d)) }
{
    Dossier {
        nodes: nodes::off(d.nodes, q),
        attributes: attributes::off(d.attributes, q),
        permissions: permissions::off(d.permissions, q),
    }
}

// The branch c pasted at q, with its owners and permissions; there is room for it.
pub fn paste_branch(c: Dossier, d: Dossier, q: Path) -> Dossier
    requires { DossierSound c × DossierSound d × PathSound q × (0 < length (steps q)) × Room (steps q) (view_dossier c) (view_dossier d) }
    ensures { result ≡ dossier_of (model.paste_branch (steps q) (view_dossier c) (view_dossier d)) }
{
    Dossier {
        nodes: nodes::paste(c.nodes, d.nodes, q),
        attributes: attributes::paste(c.attributes, d.attributes, q),
        permissions: permissions::paste(c.permissions, d.permissions, q),
    }
}

// An empty node added at q, which belongs to the adding user; there is room for it.
pub fn add_node(d: Dossier, q: Path, owner: u8) -> Dossier
    requires { DossierSound d × PathSound q × (0 < length (steps q)) × NodeRoom (view_dossier d) }
    ensures { result ≡ dossier_of (model.add_node (steps q) owner (view_dossier d)) }
{
    let n = nodes::one(owner);
    Dossier {
        nodes: nodes::paste(n, d.nodes, q),
        attributes: attributes::up(d.attributes, q),
        permissions: permissions::up(d.permissions, q),
    }
}

// ---- attributes

// One attribute more; its name is not on the node yet, and there is room for it.
pub fn with_attribute(d: Dossier, a: Attribute) -> Dossier
    requires { DossierSound d × AttributeSound a × AttributeRoom (view_dossier d) × FreshAttribute (view_attribute a) (view_attributes d.attributes) }
    ensures { result ≡ dossier_of (model.with_attribute (steps a.path) (view_attribute a).1 (view_dossier d)) }
{
    let t = attributes::insert(a, d.attributes);
    let mut r = d;
    r.attributes = t;
    r
}

// The attribute of that name at p goes, with its permissions.
pub fn delete_attribute(d: Dossier, p: Path, name: u16) -> Dossier
    requires { DossierFits d × PathSound p }
    ensures { result ≡ dossier_of (model.delete_attribute (steps p) name (view_dossier d)) }
{
    let t = attributes::without(d.attributes, p, name);
    let kept = permissions::without(d.permissions, p, name);
    let mut r = d;
    r.attributes = t;
    r.permissions = kept;
    r
}

// The attribute of that name at p, if there is one, with another value; owner and permissions stay.
pub fn change_value(d: Dossier, p: Path, name: u16, v: Value) -> Dossier
    requires { DossierSound d × PathSound p }
    ensures { result ≡ dossier_of (model.change_value (steps p) name (view_value v) (view_dossier d)) }
{
    let t = attributes::changed(d.attributes, p, name, v);
    let mut r = d;
    r.attributes = t;
    r
}

// ---- permissions

// One permission more for the object of that name at p; it is not held yet, and there is room for it.
pub fn add_permission(d: Dossier, p: Path, name: u16, g: Grant) -> Dossier
    requires { DossierSound d × PathSound p × PermissionRoom (view_dossier d) × FreshPermission (model.grant_row (steps p) name (view_grant g)) (view_permissions d.permissions) }
    ensures { result ≡ dossier_of (model.add_permission (steps p) name (view_grant g) (view_dossier d)) }
{
    let a = Permission {
        path: p,
        name: name,
        grant: g,
    };
    let t = permissions::insert(a, d.permissions);
    let mut r = d;
    r.permissions = t;
    r
}

// The exact permission goes.
pub fn delete_permission(d: Dossier, p: Path, name: u16, g: Grant) -> Dossier
    requires { DossierFits d × PathSound p }
    ensures { result ≡ dossier_of (model.delete_permission (steps p) name (view_grant g) (view_dossier d)) }
{
    let t = permissions::except(d.permissions, p, name, g);
    let mut r = d;
    r.permissions = t;
    r
}

// ---- the clipboard

// As a fresh session has it.
pub fn empty_clipboard() -> Clipboard
    ensures { result ≡ clipboard_of things.empty }
{
    let held = Dossier {
        nodes: no_nodes(),
        attributes: no_attributes(),
        permissions: no_permissions(),
    };
    Clipboard {
        kind: 0,
        held: held,
    }
}

// A branch, as copy took it.
pub fn branch_clipboard(d: Dossier) -> Clipboard
    requires { DossierFits d }
    ensures { result ≡ clipboard_of (things.branch (view_dossier d)) }
{
    Clipboard { kind: 1, held: d }
}

// An attribute with its owner and its permissions, under its own name.
pub fn copy_attribute(d: Dossier, a: Attribute) -> Clipboard
    requires { DossierFits d × PathSound a.path }
    ensures { result ≡ clipboard_of (things.single (view_attribute a).1 (model.permissions_for (steps a.path) a.name (view_dossier d))) }
{
    let held = Dossier {
        nodes: no_nodes(),
        attributes: attributes::one(a),
        permissions: permissions::of_object(d.permissions, a.path, a.name),
    };
    Clipboard {
        kind: 2,
        held: held,
    }
}

// The cached attribute pasted under that name at p, with its value, owner and permissions; the name is not on the node yet, and there is room for it.
pub fn paste_attribute(c: Clipboard, d: Dossier, p: Path, name: u16) -> Dossier
    requires { ClipboardSound c × (c.kind ≡ 2) × DossierSound d × PathSound p × SingleRoom (steps p) name (view_dossier c.held) (view_dossier d) }
    ensures { result ≡ dossier_of (model.pasted_attribute (steps p) name (view_dossier d) (view_clipboard c)) }
{
    let h = c.held;
    let t = attributes::paste_one(h.attributes, d.attributes, p, name);
    let g = permissions::paste_under(h.permissions, d.permissions, p, name);
    let mut r = d;
    r.attributes = t;
    r.permissions = g;
    r
}
