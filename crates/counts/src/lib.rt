// What is counted in a table, of a branch or of children, reads every row; and whether a count is above its bound.
#![tactic(auto)]

ghost use Rattle.std.specs.Prelude.{◌≡◌, max, length};
ghost use Rattle.path.specs.Address.{off};
ghost use Rattle.path.specs.View.{steps, PathSound};
ghost use Rattle.model.specs.Moves.{children_in, one_step, deepest, carried};
ghost use Rattle.model.specs.Refusals as refusals;
ghost use Rattle.model.specs.Image as images;
ghost use Rattle.tables.specs.View.{view_nodes, NodesSound, view_attributes, AttributesSound, view_permissions, PermissionsSound};

use path::{Path, is_under, size};
use tables::{Attributes, Nodes, Permissions};

// Whether p is a child of q.
pub fn is_child(p: Path, q: Path) -> bool
    requires { PathSound p × PathSound q }
    ensures { result ≡ images.there (one_step (off (steps q) (steps p))) }
{
    size(p) == size(q) + 1 && is_under(p, q)
}

pub fn children_in(t: Nodes, q: Path) -> usize
    requires { NodesSound t × PathSound q }
    ensures { result ≡ children_in (steps q) (view_nodes t) }
{
    let mut found = 0;
    for a in &t.rows[..t.count] {
        if is_child(a.path, q) {
            found += 1;
        }
    }
    found
}

// How many nodes, attributes and permissions the branch at q has. Loops and not chains: a chain's closure must take any row, and
// `is_under` and `is_child` take the paths of sound rows alone, which a loop's invariant knows its rows to be.
pub fn nodes_under(t: Nodes, q: Path) -> usize
    requires { NodesSound t × PathSound q }
    ensures { result ≡ length (carried (off (steps q)) (view_nodes t)) }
{
    let mut found = 0;
    for a in &t.rows[..t.count] {
        if is_under(a.path, q) {
            found += 1;
        }
    }
    found
}

pub fn attributes_under(t: Attributes, q: Path) -> usize
    requires { AttributesSound t × PathSound q }
    ensures { result ≡ length (carried (off (steps q)) (view_attributes t)) }
{
    let mut found = 0;
    for a in &t.rows[..t.count] {
        if is_under(a.path, q) {
            found += 1;
        }
    }
    found
}

pub fn permissions_under(t: Permissions, q: Path) -> usize
    requires { PermissionsSound t × PathSound q }
    ensures { result ≡ length (carried (off (steps q)) (view_permissions t)) }
{
    let mut found = 0;
    for a in &t.rows[..t.count] {
        if is_under(a.path, q) {
            found += 1;
        }
    }
    found
}

// The steps of the longest path in the branch at q, counted from q.
pub fn depth_under(t: Nodes, q: Path) -> usize
    requires { NodesSound t × PathSound q }
    ensures { result ≡ deepest (carried (off (steps q)) (view_nodes t)) }
{
    let mut most = 0;
    for a in &t.rows[..t.count] {
        if is_under(a.path, q) {
            most = most.max(size(a.path) - size(q));
        }
    }
    most
}

// The steps of the longest path: rows are in order of length first, so that it is the last row's.
pub fn deepest_in(t: Nodes) -> usize
    requires { NodesSound t }
    ensures { result ≡ deepest (view_nodes t) }
{
    match t.rows[..t.count].last() {
        Some(a) => size(a.path),
        None => 0,
    }
}

// ---- bounds, a function for each: its clause names the model's own bound

pub fn nodes_over(total: usize) -> bool
    ensures { result ≡ refusals.nodes_over total }
{
    64 < total
}

pub fn depth_over(total: usize) -> bool
    ensures { result ≡ refusals.depth_over total }
{
    6 < total
}

pub fn children_over(total: usize) -> bool
    ensures { result ≡ refusals.children_over total }
{
    32 < total
}

pub fn attributes_over(total: usize) -> bool
    ensures { result ≡ refusals.attributes_over total }
{
    256 < total
}

pub fn on_node_over(total: usize) -> bool
    ensures { result ≡ refusals.on_node_over total }
{
    16 < total
}

pub fn permissions_over(total: usize) -> bool
    ensures { result ≡ refusals.permissions_over total }
{
    128 < total
}
