// Refusal 1: the operands that a request uses, for any numbers at all.
#![tactic(auto)]

ghost use Rattle.std.specs.Prelude.{◌≡◌, ◌&&◌, leb};
ghost use Rattle.std.specs.Int.Signed.{le_z};
ghost use Rattle.model.specs.Refusals as refusals;
ghost use Rattle.tables.specs.View.{view_value, view_grant};
ghost use Rattle.state.specs.View.{view_request};

use parse::numbers::is_finite;
use path::is_valid;
use state::Request;
use tables::{Grant, Value};

// A whole number of 32 bits, or a reading that is finite.
pub fn value_good(v: Value) -> bool
    ensures { result ≡ refusals.value_good (view_value v) }
{
    match v {
        Value::Whole(n) => n <= 4294967295,
        Value::Reading(x) => is_finite(x),
    }
}

// 0 is blank.
fn name_good(name: u16) -> bool
    ensures { result ≡ refusals.name_good name }
{
    1 <= name
}

fn role_good(role: u8) -> bool
    ensures { result ≡ refusals.role_good role }
{
    (1 <= role) & (role <= 15)
}

// The interval does not end before it starts.
fn span_good(g: Grant) -> bool
    ensures { result ≡ le_z g.span.first g.span.last }
{
    let s = g.span;
    s.first <= s.last
}

// What fits its type is in range: times and sets.
pub fn permission_good(name: u16, g: Grant) -> bool
    ensures { result ≡ refusals.permission_good name (view_grant g) }
{
    let own = (name == 0) | !(g.action == 2);
    let action = (1 <= g.action) & (g.action <= 4);
    role_good(g.role) & (action & ((g.user <= 64) & (span_good(g) & own)))
}

// Dossier, role, user, time and path, which every request uses.
pub fn common_good(r: Request) -> bool
    ensures { result ≡ refusals.common_good (view_request r) }
{
    let dossier = (1 <= r.dossier) & (r.dossier <= 2);
    let user = (1 <= r.user) & (r.user <= 64);
    dossier & (role_good(r.role) & (user & is_valid(r.path)))
}

// The operands of a permission that is added or deleted.
fn grant_good(r: Request) -> bool
    ensures { result ≡ refusals.grant_good (view_request r) }
{
    permission_good(r.name, r.permission)
}

// A name and a value for it.
fn named_good(r: Request) -> bool
    ensures { result ≡ (refusals.name_good r.name && refusals.value_good (view_value r.value)) }
{
    let v = r.value;
    name_good(r.name) & value_good(v)
}

// The operands that the request's own rule uses; an unknown request has none that are good.
pub fn own_good(r: Request) -> bool
    ensures { result ≡ refusals.own_good (view_request r) }
{
    let number = r.number;
    match number {
        1 => true,
        2 => name_good(r.name),
        3 => true,
        4 => true,
        5 => true,
        6 => true,
        7 => true,
        8 => named_good(r),
        9 => name_good(r.name),
        10 => named_good(r),
        11 => name_good(r.name),
        12 => name_good(r.name),
        13 => name_good(r.name),
        14 => grant_good(r),
        15 => grant_good(r),
        16 => delegated_good(r),
        17 => true,
        _ => false,
    }
}

// Only read and change are handed on.
fn delegated_good(r: Request) -> bool
    ensures { result ≡ (refusals.grant_good (view_request r) && leb r.permission.action 2) }
{
    let g = r.permission;
    grant_good(r) & (g.action <= 2)
}

pub fn bad_operand(r: Request) -> bool
    ensures { result ≡ refusals.bad_operand (view_request r) }
{
    !(common_good(r) & own_good(r))
}
