// What is found in a table: its rows are in order, so that a lookup halves them.
#![tactic(auto)]

ghost use Rattle.std.specs.Prelude.{◌≡◌, ◌≤◌, length, map, option_map};
ghost use Rattle.laws.specs.Sorted.{move};
ghost use Rattle.path.specs.View.{steps, PathSound};
ghost use Rattle.model.specs.Moves.{owner_in, called, head, attribute_in, permissions_in, names_in, holds};
ghost use Rattle.tables.specs.View.{view_nodes, NodesSound, view_attribute, view_attributes, AttributesSound, view_permissions, PermissionsSound, view_grant, owner_of, found_of, names_of};
ghost use Rattle.lookups.specs.View.{found_at, held_in};

use path::{Path, is_same, key};
use tables::order::same_grant;
use tables::place::{attributes_at, first_at, permissions_at};
use tables::{Attribute, Attributes, Found, Grant, Names, Nodes, Permissions};

pub fn owner_in(t: Nodes, p: Path) -> Option<u8>
    requires { NodesSound t × PathSound p }
    ensures { result ≡ owner_of (owner_in (steps p) (view_nodes t)) }
{
    let node = t.rows[..t.count].get(first_at(t, p))?;
    is_same(node.path, p).then_some(node.owner)
}

// Of one node's attributes, the one of that name.
fn named(here: &[Attribute], name: u16) -> Option<Found>
    ensures { result ≡ found_of (head (move (called name) (map (λ a. (view_attribute a).1) here.now))) }
{
    here.iter().find(|a| a.name == name).map(|a| Found {
        owner: a.owner,
        value: a.value,
    })
}

pub fn attribute_in(t: Attributes, p: Path, name: u16) -> Option<Found>
    requires { AttributesSound t × PathSound p }
    ensures { result ≡ found_of (attribute_in (steps p) name (view_attributes t)) }
{
    attribute_at(&t, p, name).map(|a| Found {
        owner: a.owner,
        value: a.value,
    })
}

// The attribute of that name at p, in the table that is lent.
pub fn attribute_at(t: &Attributes, p: Path, name: u16) -> Option<&Attribute>
    requires { AttributesSound t.now × PathSound p }
    ensures { option_map (λ a. found_at a.now) result ≡ found_of (attribute_in (steps p) name (view_attributes t.now)) }
{
    let o = (key(p), name);
    let rows = &t.rows[..t.count];
    let a = rows.get(rows.partition_point(|a| (key(a.path), a.name) < o))?;
    (a.name == name && is_same(a.path, p)).then_some(a)
}

// Whether the object has exactly this permission.
pub fn holds_in(t: Permissions, p: Path, name: u16, g: Grant) -> bool
    requires { PermissionsSound t × PathSound p }
    ensures { result ≡ holds (view_grant g) (permissions_in (steps p) name (view_permissions t)) }
{
    permissions_at(&t, p, name)
        .iter()
        .any(|a| same_grant(g, a.grant))
}

// The names on the node at p, of which there are at most 16.
pub fn names_in(t: Attributes, p: Path) -> Names
    requires { AttributesSound t × PathSound p × (length (names_in (steps p) (view_attributes t)) ≤ 16) }
    ensures { result ≡ names_of (names_in (steps p) (view_attributes t)) }
{
    let here = attributes_at(&t, p);
    let mut names = [0; 16];
    for (k, a) in here.iter().enumerate() {
        names[k] = a.name;
    }
    Names {
        names,
        count: here.len(),
    }
}

// How many attributes the node at p has.
pub fn count_on(t: Attributes, p: Path) -> usize
    requires { AttributesSound t × PathSound p }
    ensures { result ≡ length (names_in (steps p) (view_attributes t)) }
{
    attributes_at(&t, p).len()
}

// ---- what a request looks at on a node: the attribute of its name, and how many there are

#[derive(Clone, Copy)]
pub struct Held {
    pub found: Option<Found>,
    pub names: usize,
}

pub fn held_at(t: Attributes, p: Path, name: u16) -> Held
    requires { AttributesSound t × PathSound p }
    ensures { result ≡ held_in (steps p) name (view_attributes t) }
{
    let here = attributes_at(&t, p);
    Held {
        found: named(here, name),
        names: here.len(),
    }
}
