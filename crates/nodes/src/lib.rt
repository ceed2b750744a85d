// The table of nodes: how it changes.
#![tactic(auto)]

ghost use Rattle.std.specs.Prelude.{◌≡◌, [], ◌∷◌, ◌+◌, ◌-◌, ◌≤◌, ◌<◌, length};
ghost use Rattle.laws.specs.Sorted.{insert, merge};
ghost use Rattle.path.specs.Address.{down, off};
ghost use Rattle.path.specs.View.{steps, PathSound};
ghost use Rattle.model.specs.Things as things;
ghost use Rattle.model.specs.Moves as model;
ghost use Rattle.tables.specs.View.{view_node, node_row, nodes_of, NodesSound, view_nodes, NodeSound};
ghost use Rattle.moves.specs.Moved.{below, raised};
ghost use Rattle.moves.specs.Room.{FreshNode, Shallow};

use path::{Path, root};
use tables::{Node, Nodes, no_nodes};

// After an add or a paste at q: at or below q, or a later sibling of it, that step is one higher; the others stay.
#[tactic(auto, unfolding(tables::specs::View::nodes_of))]
pub fn up(t: Nodes, q: Path) -> Nodes
    requires { NodesSound t × PathSound q }
    ensures { result ≡ nodes_of (raised (steps q) (view_nodes t)) }
{
    rows::up(&t, q)
}

// After a delete at q: nodes at or below q go; at or below a later sibling that step is one lower.
#[tactic(auto, unfolding(tables::specs::View::nodes_of))]
pub fn down(t: Nodes, q: Path) -> Nodes
    requires { NodesSound t × PathSound q }
    ensures { result ≡ nodes_of (model.carried (down (steps q)) (view_nodes t)) }
{
    rows::down(&t, q)
}

// Those of the branch at q, prefix removed.
#[tactic(auto, unfolding(tables::specs::View::nodes_of))]
pub fn off(t: Nodes, q: Path) -> Nodes
    requires { NodesSound t × PathSound q }
    ensures { result ≡ nodes_of (model.carried (off (steps q)) (view_nodes t)) }
{
    rows::off(&t, q)
}

// Those of the branch c pasted at q, which is not the root: what stood there has moved as for an add.
#[tactic(auto, unfolding(tables::specs::View::nodes_of))]
pub fn paste(c: Nodes, t: Nodes, q: Path) -> Nodes
    requires nodes_sound { NodesSound c × NodesSound t × PathSound q × (0 < length (steps q)) }
    requires count_bound { (c.count + t.count ≤ 64) × Shallow (steps q) (view_nodes c) }
    ensures { result ≡ nodes_of (merge things.before_node (below (steps q) (view_nodes c)) (raised (steps q) (view_nodes t))) }
{
    rows::paste(&c, &t, q)
}

// One node more, where it comes in the order of records; that row is not there yet.
#[tactic(auto, unfolding(tables::specs::View::nodes_of))]
pub fn insert(a: Node, t: Nodes) -> Nodes
    requires { NodeSound a × NodesSound t × (t.count < 64) × FreshNode (view_node a) (view_nodes t) }
    ensures { result ≡ nodes_of (insert things.before_node (view_node a) (view_nodes t)) }
{
    rows::insert(a, t)
}

// The table of a bare root of that owner.
pub fn one(owner: u8) -> Nodes
    ensures { result ≡ nodes_of (([], owner) ∷ []) }
{
    let a = Node {
        path: root(),
        owner: owner,
        unused: [0; 7],
    };
    let none = no_nodes();
    insert(a, none)
}
