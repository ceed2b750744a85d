// The dossier as arrays: rows of nodes, attributes and permissions, in the order of an image.
#![tactic(auto)]

ghost use Rattle.std.specs.Prelude.{◌≡◌, []};
ghost use Rattle.tables.specs.View.{nodes_of, attributes_of, permissions_of, blank_node, blank_attribute, blank_permission};

use path::{Path, root};

pub mod order;
pub mod place;

// A whole number, or a measured reading.
#[derive(Clone, Copy)]
pub enum Value {
    Whole(u32),
    Reading(f32),
}

// The unused bytes, always 0, fill the row: with no hole in it a compiler blanks and copies a table as one block.
#[derive(Clone, Copy)]
pub struct Node {
    pub path: Path,
    pub owner: u8,
    pub unused: [u8; 7],
}

#[derive(Clone, Copy)]
pub struct Attribute {
    pub path: Path,
    pub name: u16,
    pub owner: u8,
    pub value: Value,
}

// What is found of an attribute. (Of a node that is its owner.)
#[derive(Clone, Copy)]
pub struct Found {
    pub owner: u8,
    pub value: Value,
}

// The names on a node, ascending; unused places are 0.
#[derive(Clone, Copy)]
pub struct Names {
    pub names: [u16; 16],
    pub count: usize,
}

// Both ends of an interval of times belong to it.
#[derive(Clone, Copy, PartialEq, Eq)]
pub struct Span {
    pub first: i64,
    pub last: i64,
}

// A permission without its object: user 0 is any user; messages and agreements are sets, bit n for number n.
#[derive(Clone, Copy, PartialEq, Eq)]
pub struct Grant {
    pub role: u8,
    pub action: u8,
    pub user: u8,
    pub span: Span,
    pub messages: u32,
    pub agreements: u32,
}

// A permission for the node at the path (name 0) or for the attribute of that name there.
#[derive(Clone, Copy)]
pub struct Permission {
    pub path: Path,
    pub name: u16,
    pub grant: Grant,
}

// Rows in order, so many as count says, and blank ones behind them.
#[derive(Clone, Copy)]
pub struct Table<R, const N: usize> {
    pub rows: [R; N],
    pub count: usize,
}

pub type Nodes = Table<Node, 64>;

pub type Attributes = Table<Attribute, 256>;

pub type Permissions = Table<Permission, 128>;

#[derive(Clone, Copy)]
pub struct Dossier {
    pub nodes: Nodes,
    pub attributes: Attributes,
    pub permissions: Permissions,
}

// Kind 0 is empty, 1 a branch, 2 one attribute with its permissions, all at the root's path.
#[derive(Clone, Copy)]
pub struct Clipboard {
    pub kind: u8,
    pub held: Dossier,
}

// ---- blank rows and empty tables

pub fn blank_node() -> Node
    ensures { result ≡ blank_node }
{
    Node {
        path: root(),
        owner: 0,
        unused: [0; 7],
    }
}

pub fn blank_attribute() -> Attribute
    ensures { result ≡ blank_attribute }
{
    Attribute {
        path: root(),
        name: 0,
        owner: 0,
        value: Value::Whole(0),
    }
}

pub fn blank_permission() -> Permission
    ensures { result ≡ blank_permission }
{
    Permission {
        path: root(),
        name: 0,
        grant: Grant {
            role: 0,
            action: 0,
            user: 0,
            span: Span { first: 0, last: 0 },
            messages: 0,
            agreements: 0,
        },
    }
}

pub fn no_nodes() -> Nodes
    ensures { result ≡ nodes_of [] }
{
    Nodes {
        rows: [blank_node(); 64],
        count: 0,
    }
}

pub fn no_attributes() -> Attributes
    ensures { result ≡ attributes_of [] }
{
    Attributes {
        rows: [blank_attribute(); 256],
        count: 0,
    }
}

pub fn no_permissions() -> Permissions
    ensures { result ≡ permissions_of [] }
{
    Permissions {
        rows: [blank_permission(); 128],
        count: 0,
    }
}
