// Refusals 7, 8, 10, 11 and 13 to 17: what may be handed on, what clashes, and what there is room for.
ghost use Rattle.std.specs.Prelude.{◌≡◌, not, ◌+◌, ◌≤◌, ltb, length};
ghost use Rattle.path.specs.View.{PathSound};
ghost use Rattle.model.specs.Decide.{subset, members};
ghost use Rattle.model.specs.Refusals as refusals;
ghost use Rattle.refusals.specs.View.{view_placed, view_shelf, CacheSound};
ghost use Rattle.refusals.specs.Look.{SeenSound, uncovered_in, clashing_in, totals_in};

use crate::{Cache, Placed, Seen};
use counts::{
    attributes_over, children_over, depth_over, nodes_over, on_node_over, permissions_over,
};
use grants::subset;
use path::size;
use state::entries::message_count;
use state::refusal::Refusal;

// ---- the permissions of the object

// Request 16: nothing covers the delegated permission.
pub fn uncovered(s: Seen, q: Placed) -> bool
    ensures { result ≡ uncovered_in s (view_placed q) }
{
    (q.number == 16) & !s.covered
}

// Request 14 or 16: a permission of the object clashes.
pub fn clashing(s: Seen, q: Placed) -> bool
    ensures { result ≡ clashing_in s (view_placed q) }
{
    let n = q.number;
    ((n == 14) | (n == 16)) & s.clashing
}

// ---- bounds, each by itself

fn nodes_full(s: Seen, c: Cache, q: Placed) -> bool
    requires { SeenSound s × CacheSound c }
    ensures { result ≡ refusals.nodes_over (totals_in s c q).nodes }
{
    let number = q.number;
    match number {
        3 => nodes_over(s.nodes + 1),
        7 | 17 => nodes_over(s.nodes + c.nodes),
        _ => false,
    }
}

fn depth_full(s: Seen, c: Cache, q: Placed) -> bool
    requires { CacheSound c × PathSound q.path }
    ensures { result ≡ refusals.depth_over (totals_in s c q).depth }
{
    let number = q.number;
    match number {
        3 => depth_over(size(q.path)),
        7 | 17 => depth_over(size(q.path) + c.height),
        _ => false,
    }
}

fn children_full(s: Seen, c: Cache, q: Placed) -> bool
    requires { SeenSound s × PathSound q.path }
    ensures { result ≡ refusals.children_over (totals_in s c q).children }
{
    let number = q.number;
    match number {
        3 | 7 | 17 => children_over(s.siblings + 1),
        _ => false,
    }
}

fn attributes_full(s: Seen, c: Cache, q: Placed) -> bool
    requires { SeenSound s × CacheSound c }
    ensures { result ≡ refusals.attributes_over (totals_in s c q).attributes }
{
    let number = q.number;
    match number {
        7 | 17 => attributes_over(s.attributes + c.attributes),
        8 | 13 => attributes_over(s.attributes + 1),
        _ => false,
    }
}

fn on_node_full(s: Seen, c: Cache, q: Placed) -> bool
    requires { SeenSound s × PathSound q.path }
    ensures { result ≡ refusals.on_node_over (totals_in s c q).on_node }
{
    let number = q.number;
    match number {
        8 | 13 => on_node_over(s.names + 1),
        14 | 16 => on_node_over(s.names),
        _ => false,
    }
}

fn permissions_full(s: Seen, c: Cache, q: Placed) -> bool
    requires { SeenSound s × CacheSound c }
    ensures { result ≡ refusals.permissions_over (totals_in s c q).permissions }
{
    let number = q.number;
    match number {
        7 | 13 | 17 => permissions_over(s.permissions + c.permissions),
        14 | 16 => permissions_over(s.permissions + 1),
        _ => false,
    }
}

// The refusal of the first that would be passed, in the table's order.
pub fn shelf_for(s: Seen, c: Cache, q: Placed) -> Option<Refusal>
    requires { SeenSound s × CacheSound c × PathSound q.path }
    ensures { view_shelf result ≡ refusals.first_that (refusals.shelves (totals_in s c q)) }
{
    let nodes = nodes_full(s, c, q);
    let depth = depth_full(s, c, q);
    let children = children_full(s, c, q);
    let attributes = attributes_full(s, c, q);
    let on_node = on_node_full(s, c, q);
    let permissions = permissions_full(s, c, q);
    if nodes {
        return Some(Refusal::NodesFull);
    }
    if depth {
        return Some(Refusal::TooDeep);
    }
    if children {
        return Some(Refusal::ChildrenFull);
    }
    if attributes | on_node {
        return Some(Refusal::AttributesFull);
    }
    if permissions {
        return Some(Refusal::PermissionsFull);
    }
    None
}

// ---- signatures and the log

// An agreement is unsigned.
pub fn unsigned(agreements: u32, signed: u32) -> bool
    ensures { result ≡ not (subset agreements signed) }
{
    !subset(agreements, signed)
}

// The messages don't all fit.
pub fn log_full(messages: u32, entries: usize) -> bool
    requires { entries ≤ 256 }
    ensures { result ≡ ltb 256 (entries + length (members messages)) }
{
    256 < entries + message_count(messages)
}
