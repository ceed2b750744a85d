// What the tests look at, found once: each table is handed to one function at one place.
ghost use Rattle.std.specs.Prelude.{◌≡◌};
ghost use Rattle.path.specs.View.{steps, PathSound};
ghost use Rattle.model.specs.Moves.{permissions_in};
ghost use Rattle.model.specs.Refusals as refusals;
ghost use Rattle.tables.specs.View.{DossierFits, view_nodes, NodesSound, view_attributes, AttributesSound, view_permissions, PermissionsSound};
ghost use Rattle.grants.specs.View.{view_subject, decision_of};
ghost use Rattle.decide.specs.View.{object_owned, found_by};
ghost use Rattle.refusals.specs.View.{view_placed};
ghost use Rattle.refusals.specs.Look.{around_in, held_for, weights_for, seen_of};

use crate::{Placed, Seen};
use counts::children_in;
use decide::{Asked, Owners, object_owner, owner_found, rights};
use grants::{Provisions, Subject, Weights, weighed};
use lookups::{Held, held_at, owner_in};
use path::{Path, parent_of};
use tables::{Attributes, Dossier, Nodes, Permissions};

// Whose the node is, whose the node above, and how many children that has.
#[derive(Clone, Copy)]
pub struct Around {
    pub node: Option<u8>,
    pub parent: Option<u8>,
    pub siblings: usize,
}

fn around_at(t: Nodes, p: Path) -> Around
    requires { NodesSound t × PathSound p }
    ensures { result ≡ around_in (steps p) (view_nodes t) }
{
    let above = parent_of(p);
    Around {
        node: owner_in(t, p),
        parent: owner_in(t, above),
        siblings: children_in(t, above),
    }
}

// Requests 1, 3 to 7 and 17 don't look at attributes.
fn held_for(t: Attributes, q: Placed) -> Held
    requires { AttributesSound t × PathSound q.path }
    ensures { result ≡ held_for (view_placed q) (view_attributes t) }
{
    match q.number {
        1 | 3 | 4 | 5 | 6 | 7 | 17 => Held {
            found: None,
            names: 0,
        },
        _ => held_at(t, q.path, q.name),
    }
}

fn subject_of(q: Placed) -> Subject
    ensures { view_subject result ≡ refusals.subject (view_placed q) }
{
    Subject {
        role: q.role,
        user: q.user,
        time: q.time,
    }
}

fn granted_to(t: Permissions, q: Placed, o: Owners) -> Option<Provisions>
    requires { PermissionsSound t × PathSound q.path }
    ensures { result ≡ decision_of (refusals.granted (view_placed q) (found_by (view_placed q) o (view_permissions t))) }
{
    let s = subject_of(q);
    let p = q.path;
    let a = Asked {
        number: q.number,
        subject: s,
        path: p,
        name: q.name,
    };
    rights(a, o, t)
}

// Only requests 14 to 16 weigh the permissions of the object, and one that nobody owns has none.
fn weights_for(t: Permissions, q: Placed, o: Option<u8>) -> Weights
    requires { PermissionsSound t × PathSound q.path }
    ensures { result ≡ weights_for (view_placed q) (object_owned o (permissions_in (steps q.path) q.name (view_permissions t))) }
{
    match q.number {
        14 | 15 | 16 if o.is_some() => weighed(t, q.path, q.name, subject_of(q), q.permission),
        _ => Weights::default(),
    }
}

pub fn looked(d: Dossier, q: Placed) -> Seen
    requires { DossierFits d × PathSound q.path }
    ensures { result ≡ seen_of d q }
{
    let a = around_at(d.nodes, q.path);
    let h = held_for(d.attributes, q);
    let node = a.node;
    let parent = a.parent;
    let found = h.found;
    let o = Owners {
        node: node,
        parent: parent,
        attribute: owner_found(found),
    };
    let object = object_owner(o, q.name);
    let may = granted_to(d.permissions, q, o);
    let w = weights_for(d.permissions, q, object);
    Seen {
        node: node,
        parent: parent,
        siblings: a.siblings,
        attribute: found,
        names: h.names,
        nodes: d.nodes.count,
        attributes: d.attributes.count,
        permissions: d.permissions.count,
        may: may,
        held: w.held,
        covered: w.covered,
        clashing: w.clashing,
    }
}
