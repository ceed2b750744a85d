// Who may do what: the decision part. It answers when a request is granted and with which provisions, and knows nothing of
// sessions, signatures and logs.
#![tactic(auto)]

ghost use Rattle.std.specs.Prelude.{◌≡◌, eqb};
ghost use Rattle.laws.specs.Slots.{pick};
ghost use Rattle.path.specs.Address.{parent};
ghost use Rattle.path.specs.View.{steps, PathSound};
ghost use Rattle.model.specs.Decide as model;
ghost use Rattle.model.specs.Moves.{node_at, attribute_object, object_at, permissions_in};
ghost use Rattle.model.specs.Refusals as refusals;
ghost use Rattle.model.specs.Run as run;
ghost use Rattle.tables.specs.View.{view_dossier, DossierFits, view_nodes, NodesSound, view_attributes, AttributesSound, view_permissions, PermissionsSound};
ghost use Rattle.grants.specs.View.{view_subject, decision_of, view_decision};
ghost use Rattle.decide.specs.View.{view_asked, object_owner, found_owner, owners_in, found_by, owned, owned_or, object_walk, change_for, change_given};

use grants::{Provisions, Subject, Walk, walked};
use lookups::{attribute_in, owner_in};
use path::{Path, parent_of};
use tables::{Attributes, Dossier, Found, Nodes, Permissions};

// What a request's needs look at.
#[derive(Clone, Copy)]
pub struct Asked {
    pub number: u8,
    pub subject: Subject,
    pub path: Path,
    pub name: u16,
}

// Both must be granted, and the provisions are joined.
pub fn joined(a: Option<Provisions>, b: Option<Provisions>) -> Option<Provisions>
    ensures { result ≡ decision_of (model.joined (view_decision a) (view_decision b)) }
{
    let (a, b) = a.zip(b)?;
    Some(Provisions {
        messages: a.messages | b.messages,
        agreements: a.agreements | b.agreements,
    })
}

// The user owns it: no provisions.
fn owned(owner: u8, user: u8) -> Option<Provisions>
    ensures { result ≡ owned owner user }
{
    (user == owner).then_some(Provisions::default())
}

// Read of the node at p.
pub fn read_node(d: Dossier, p: Path, s: Subject) -> Option<Provisions>
    requires { DossierFits d × PathSound p }
    ensures { result ≡ decision_of (model.given (model.read_by (view_subject s)) (node_at (steps p) (view_dossier d))) }
{
    owned(owner_in(d.nodes, p)?, s.user).or_else(|| walked(d.permissions, p, 0, s).read)
}

// Change of the node at p.
pub fn change_node(d: Dossier, p: Path, s: Subject) -> Option<Provisions>
    requires { DossierFits d × PathSound p }
    ensures { result ≡ decision_of (model.given (model.change_by (view_subject s)) (node_at (steps p) (view_dossier d))) }
{
    owned(owner_in(d.nodes, p)?, s.user).or_else(|| change_by(d.permissions, p, s))
}

// Read of the attribute of that name at p. Made a part of its caller: a call lays another dossier on the stack.
#[inline(always)]
pub fn read_attribute(d: Dossier, p: Path, name: u16, s: Subject) -> Option<Provisions>
    requires { DossierFits d × PathSound p }
    ensures { result ≡ decision_of (model.given (model.read_by (view_subject s)) (attribute_object (steps p) name (view_dossier d))) }
{
    let owner = attribute_in(d.attributes, p, name)?.owner;
    owned(owner, s.user).or_else(|| walked(d.permissions, p, name, s).read)
}

// Whose the attribute is that was looked for.
pub fn owner_found(f: Option<Found>) -> Option<u8>
    ensures { result ≡ found_owner f }
{
    f.map(|a| a.owner)
}

// The owner of the object: the node at p for name 0, else the attribute of that name there.
pub fn owner_of(d: Dossier, p: Path, name: u16) -> Option<u8>
    requires { DossierFits d × PathSound p }
    ensures { result ≡ object_owner (object_at (steps p) name (view_dossier d)) }
{
    if name == 0 {
        owner_in(d.nodes, p)
    } else {
        owner_found(attribute_in(d.attributes, p, name))
    }
}

// Owning the object.
pub fn own(d: Dossier, p: Path, name: u16, s: Subject) -> Option<Provisions>
    requires { DossierFits d × PathSound p }
    ensures { result ≡ decision_of (model.given (model.own_by (view_subject s)) (object_at (steps p) name (view_dossier d))) }
{
    owned(owner_of(d, p, name)?, s.user)
}

// A delegate permission on the object that matches; owning does not help.
pub fn delegate(d: Dossier, p: Path, name: u16, s: Subject) -> Option<Provisions>
    requires { DossierFits d × PathSound p }
    ensures { result ≡ decision_of (model.given (model.delegate_by (view_subject s)) (object_at (steps p) name (view_dossier d))) }
{
    owner_of(d, p, name)?;
    walked(d.permissions, p, name, s).delegate
}

// ---- the needs of a request: whose what it looks at is, and what the permissions then give

// Whose the node at the path is, the node above it, the attribute of the name there.
#[derive(Clone, Copy)]
pub struct Owners {
    pub node: Option<u8>,
    pub parent: Option<u8>,
    pub attribute: Option<u8>,
}

fn owners_in(n: Nodes, t: Attributes, p: Path, name: u16) -> Owners
    requires { NodesSound n × AttributesSound t × PathSound p }
    ensures { result ≡ owners_in (steps p) name (view_nodes n) (view_attributes t) }
{
    Owners {
        node: owner_in(n, p),
        parent: owner_in(n, parent_of(p)),
        attribute: owner_found(attribute_in(t, p, name)),
    }
}

// The user owns it (no provisions), or what the permissions give.
fn owned_or(o: Option<u8>, user: u8, d: Option<Provisions>) -> Option<Provisions>
    ensures { result ≡ owned_or o user d }
{
    owned(o?, user).or(d)
}

// The object of requests 14 to 16.
pub fn object_owner(o: Owners, name: u16) -> Option<u8>
    ensures { result ≡ pick (eqb name 0) o.node o.attribute }
{
    if name == 0 { o.node } else { o.attribute }
}

// What the permissions of what the request reads or delegates on give.
fn object_walk(t: Permissions, a: Asked) -> Walk
    requires { PermissionsSound t × PathSound a.path }
    ensures { result ≡ object_walk (view_asked a) (view_permissions t) }
{
    match a.number {
        1 | 5 | 6 => walked(t, a.path, 0, a.subject),
        2 | 10 | 11 | 12 | 16 => walked(t, a.path, a.name, a.subject),
        _ => Walk::default(),
    }
}

// What the permissions of the node at p give: "one permission matches for read and one for change".
fn change_by(t: Permissions, p: Path, s: Subject) -> Option<Provisions>
    requires { PermissionsSound t × PathSound p }
    ensures { result ≡ change_for (view_subject s) (permissions_in (steps p) 0 (view_permissions t)) }
{
    let w = walked(t, p, 0, s);
    joined(w.read, w.change)
}

// What the permissions of the node that the request changes give.
fn change_given(t: Permissions, a: Asked) -> Option<Provisions>
    requires { PermissionsSound t × PathSound a.path }
    ensures { result ≡ change_given (view_asked a) (view_permissions t) }
{
    match a.number {
        3 | 4 | 6 | 7 | 17 => change_by(t, parent_of(a.path), a.subject),
        8 | 9 | 10 | 12 | 13 => change_by(t, a.path, a.subject),
        _ => None,
    }
}

// What the table of the calls has beside the number.
pub fn rights(a: Asked, o: Owners, t: Permissions) -> Option<Provisions>
    requires { PermissionsSound t × PathSound a.path }
    ensures { result ≡ decision_of (refusals.granted (view_asked a) (found_by (view_asked a) o (view_permissions t))) }
{
    let user = a.subject.user;
    let object = object_owner(o, a.name);
    let w = object_walk(t, a);
    let change = change_given(t, a);
    match a.number {
        1 | 5 => owned_or(o.node, user, w.read),
        2 | 11 => owned_or(o.attribute, user, w.read),
        3 | 4 | 7 | 17 => owned_or(o.parent, user, change),
        6 => joined(
            owned_or(o.node, user, w.read),
            owned_or(o.parent, user, change),
        ),
        8 | 9 | 13 => owned_or(o.node, user, change),
        10 | 12 => joined(
            owned_or(o.attribute, user, w.read),
            owned_or(o.node, user, change),
        ),
        14 | 15 => owned_or(object, user, None),
        16 => object.and(w.delegate),
        _ => None,
    }
}

pub fn granted(a: Asked, d: Dossier) -> Option<Provisions>
    requires { DossierFits d × PathSound a.path }
    ensures { result ≡ decision_of (refusals.granted (view_asked a) (run.found (view_asked a) (view_dossier d))) }
{
    let o = owners_in(d.nodes, d.attributes, a.path, a.name);
    rights(a, o, d.permissions)
}
