// Refusals 2 to 5: what must be there, what must not, and what the clipboard must hold.
ghost use Rattle.std.specs.Prelude.{◌≡◌, is_none, ◌||◌, ◌+◌, ◌≤◌, T, eqb, ltb};
ghost use Rattle.laws.specs.Slots.{pick};
ghost use Rattle.path.specs.Address.{valid, last};
ghost use Rattle.path.specs.View.{steps, asked, PathSound};
ghost use Rattle.model.specs.Refusals as refusals;
ghost use Rattle.state.specs.View.{view_request};
ghost use Rattle.refusals.specs.View.{view_placed, view_cache};
ghost use Rattle.refusals.specs.Look.{SeenSound, absent_in, taken_in};

use crate::{Cache, Placed, Seen};
use path::{Path, last_step, path_of, size};
use state::Request;
use tables::Found;

// The request with its path taken.
pub fn placed(r: Request) -> Placed
    requires { T (valid (asked r.path)) }
    ensures { (view_placed result ≡ view_request r) × PathSound result.path }
{
    let p = path_of(r.path);
    let v = r.value;
    let g = r.permission;
    Placed {
        number: r.number,
        dossier: r.dossier,
        role: r.role,
        user: r.user,
        time: r.time,
        path: p,
        name: r.name,
        value: v,
        permission: g,
    }
}

// Requests 3, 4, 6, 7 and 17 with the empty path.
pub fn at_root(q: Placed) -> bool
    requires { PathSound q.path }
    ensures { result ≡ refusals.at_root (view_placed q) }
{
    let n = q.number;
    let moves = (n == 3) | ((n == 4) | ((n == 6) | ((n == 7) | (n == 17))));
    moves & (size(q.path) == 0)
}

// ---- what is not there

// No parent, or a place beyond its child count + 1.
fn no_place(parent: Option<u8>, children: usize, p: Path) -> bool
    requires { PathSound p × (children ≤ 64) }
    ensures { result ≡ (is_none parent || ltb (children + 1) (last (steps p))) }
{
    parent.is_none() || children + 1 < last_step(p) as usize
}

fn no_object(node: Option<u8>, attribute: Option<Found>, name: u16) -> bool
    ensures { result ≡ pick (eqb name 0) (is_none node) (is_none attribute) }
{
    if name == 0 {
        node.is_none()
    } else {
        attribute.is_none()
    }
}

// Node, attribute, parent or exact permission absent, by what the number needs.
pub fn absent(s: Seen, q: Placed) -> bool
    requires { SeenSound s × PathSound q.path }
    ensures { result ≡ absent_in s (view_placed q) }
{
    match q.number {
        1 | 4 | 5 | 6 | 8 | 13 => s.node.is_none(),
        2 | 9 | 10 | 11 | 12 => s.attribute.is_none(),
        3 | 7 | 17 => no_place(s.parent, s.siblings, q.path),
        14 | 16 => no_object(s.node, s.attribute, q.name),
        15 => !s.held,
        _ => false,
    }
}

// ---- names and the clipboard

// Request 8 or 13: the name is already on the node.
pub fn taken(s: Seen, q: Placed) -> bool
    ensures { result ≡ taken_in s (view_placed q) }
{
    matches!(q.number, 8 | 13) && s.attribute.is_some()
}

// Request 7 or 13: a clipboard of another kind, or empty. Request 17 has its image.
pub fn wrong_clipboard(c: Cache, q: Placed) -> bool
    ensures { result ≡ refusals.wrong_clipboard (view_placed q) (view_cache c) }
{
    let number = q.number;
    match number {
        7 => !c.branch,
        13 => !c.attribute,
        _ => false,
    }
}
