// What a judged request does, by its class: a function is given the dossier that the request names, and gives back only what changes. In each
// function a callee has one call site: it is inlined there, and no table is copied for it.
ghost use Rattle.std.specs.Prelude.{◌≡◌, ◌⊎◌, ◌+◌, ◌≤◌, T, length, Some};
ghost use Rattle.path.specs.Address.{valid};
ghost use Rattle.path.specs.View.{asked};
ghost use Rattle.model.specs.Things as things;
ghost use Rattle.model.specs.Decide.{members};
ghost use Rattle.model.specs.Moves.{attribute_at};
ghost use Rattle.model.specs.Run as run;
ghost use Rattle.model.specs.Run.{found, cached};
ghost use Rattle.tables.specs.View.{ClipboardSound, DossierSound, clipboard_of, dossier_of, view_clipboard, view_dossier};
ghost use Rattle.state.specs.View.{answer_of, log_of, view_log, view_request};
ghost use Rattle.state.specs.Calls.{LogSound};
ghost use Rattle.deeds.specs.declared.classes.Class.TheVariants.{ChangeAttributes, ChangePermissions, Copy, Cut, Edit, Paste};
ghost use Rattle.deeds.specs.Classes.{Allowed, Open, class_of};

use crate::requests::{copy_attribute, copy_branch, read_attribute, read_node};
use edits::{add_node, delete_attribute, delete_branch, paste_attribute, paste_branch};
use refusals::place::placed;
use state::entries::logged;
use state::{Answer, Log, Reply, Request};
use tables::{Attribute, Attributes, Clipboard, Dossier, Permission, Permissions};

// What a request does. A cut copies, then edits.
#[derive(Clone, Copy)]
pub enum Class {
    Read,
    ChangeAttributes,
    ChangePermissions,
    Edit,
    Paste,
    Copy,
    Cut,
}

// A request that was judged and not refused: what it does, the dossier that it names, the messages to log, and the request.
#[derive(Clone, Copy)]
pub struct Verdict {
    pub class: Class,
    pub dossier: u8,
    pub messages: u32,
    pub request: Request,
}

// The number of a dossier, and what stands under it.
#[derive(Clone, Copy)]
pub struct DossierOut {
    pub dossier: u8,
    pub whole: Dossier,
}

#[derive(Clone, Copy)]
pub struct AttributesOut {
    pub dossier: u8,
    pub attributes: Attributes,
}

#[derive(Clone, Copy)]
pub struct PermissionsOut {
    pub dossier: u8,
    pub permissions: Permissions,
}

// What a request of that number does, if there is one. An arm each for numbers that follow one another.
pub fn class_of(number: u8) -> Option<Class>
    ensures { result ≡ class_of number }
{
    match number {
        1 => Some(Class::Read),
        2 => Some(Class::Read),
        8 | 10 => Some(Class::ChangeAttributes),
        14 | 16 => Some(Class::ChangePermissions),
        15 => Some(Class::ChangePermissions),
        3 | 9 => Some(Class::Edit),
        4 => Some(Class::Edit),
        7 | 13 | 17 => Some(Class::Paste),
        5 | 11 => Some(Class::Copy),
        6 | 12 => Some(Class::Cut),
        _ => None,
    }
}

// ---- what changes nothing, or one table

// Requests 1 and 2: what was asked for. Every other is done.
pub fn read_at(d: Dossier, v: Verdict) -> Answer
    requires { DossierSound d × T (valid (asked v.request.path)) }
    ensures { result ≡ answer_of (run.answered (view_request v.request) (found (view_request v.request) (view_dossier d)) (attribute_at (asked v.request.path) v.request.name (view_dossier d))) }
{
    let q = placed(v.request);
    let number = q.number;
    match number {
        1 => read_node(d, q),
        2 => read_attribute(d, q),
        _ => Ok(Reply::Done),
    }
}

// Request 8, an attribute that belongs to the adding user, and 10, another value: the table of attributes alone changes.
pub fn attributes_at(d: Dossier, v: Verdict) -> AttributesOut
    requires { DossierSound d × T (valid (asked v.request.path)) × Open (view_request v.request) (view_dossier d) × (class_of v.request.number ≡ Some ChangeAttributes) }
    ensures { result ≡ record { dossier = v.dossier; attributes = (dossier_of (run.edited (view_request v.request) (view_dossier d) things.empty)).attributes } }
{
    let q = placed(v.request);
    let p = q.path;
    let w = q.value;
    if q.number == 8 {
        let a = Attribute {
            path: p,
            name: q.name,
            owner: q.user,
            value: w,
        };
        return AttributesOut {
            dossier: v.dossier,
            attributes: attributes::insert(a, d.attributes),
        };
    }
    AttributesOut {
        dossier: v.dossier,
        attributes: attributes::changed(d.attributes, p, q.name, w),
    }
}

// Requests 14 and 16, one permission more, and 15, the exact one less: the table of permissions alone changes.
pub fn permissions_at(d: Dossier, v: Verdict) -> PermissionsOut
    requires { DossierSound d × T (valid (asked v.request.path)) × Open (view_request v.request) (view_dossier d) × (class_of v.request.number ≡ Some ChangePermissions) }
    ensures { result ≡ record { dossier = v.dossier; permissions = (dossier_of (run.edited (view_request v.request) (view_dossier d) things.empty)).permissions } }
{
    let q = placed(v.request);
    let p = q.path;
    let g = q.permission;
    if q.number == 15 {
        return PermissionsOut {
            dossier: v.dossier,
            permissions: permissions::except(d.permissions, p, q.name, g),
        };
    }
    let a = Permission {
        path: p,
        name: q.name,
        grant: g,
    };
    PermissionsOut {
        dossier: v.dossier,
        permissions: permissions::insert(a, d.permissions),
    }
}

// ---- what changes the whole dossier

// Requests 3 and 4, and the second half of 6: a branch comes or goes. Request 9, and the second half of 12: an attribute goes.
pub fn edited_at(d: Dossier, v: Verdict) -> DossierOut
    requires { DossierSound d × T (valid (asked v.request.path)) × Open (view_request v.request) (view_dossier d) × ((class_of v.request.number ≡ Some Edit) ⊎ (class_of v.request.number ≡ Some Cut)) }
    ensures { result ≡ record { dossier = v.dossier; whole = dossier_of (run.edited (view_request v.request) (view_dossier d) things.empty) } }
{
    let q = placed(v.request);
    let number = q.number;
    match number {
        3 => DossierOut {
            dossier: v.dossier,
            whole: add_node(d, q.path, q.user),
        },
        4 | 6 => DossierOut {
            dossier: v.dossier,
            whole: delete_branch(d, q.path),
        },
        _ => DossierOut {
            dossier: v.dossier,
            whole: delete_attribute(d, q.path, q.name),
        },
    }
}

// Requests 7 and 17, a branch, and 13, an attribute, each from c: the clipboard, or request 17's image as a branch.
pub fn pasted_at(d: Dossier, c: Clipboard, v: Verdict) -> DossierOut
    requires { DossierSound d × ClipboardSound c × T (valid (asked v.request.path)) × Allowed (view_request v.request) (view_dossier d) (view_clipboard c) × (class_of v.request.number ≡ Some Paste) × (v.request.number ≡ 17 → T (cached (view_clipboard c)).branch) }
    ensures { result ≡ record { dossier = v.dossier; whole = dossier_of (run.edited (view_request v.request) (view_dossier d) (view_clipboard c)) } }
{
    let q = placed(v.request);
    if q.number == 13 {
        return DossierOut {
            dossier: v.dossier,
            whole: paste_attribute(c, d, q.path, q.name),
        };
    }
    DossierOut {
        dossier: v.dossier,
        whole: paste_branch(c.held, d, q.path),
    }
}

// ---- the clipboard and the log

// Request 5, and the first half of 6: a branch. Request 11, and the first half of 12: an attribute.
pub fn copied_at(d: Dossier, v: Verdict) -> Clipboard
    requires { DossierSound d × T (valid (asked v.request.path)) × Open (view_request v.request) (view_dossier d) × ((class_of v.request.number ≡ Some Copy) ⊎ (class_of v.request.number ≡ Some Cut)) }
    ensures { result ≡ clipboard_of (run.clipped (view_request v.request) (view_dossier d) things.empty) }
{
    let q = placed(v.request);
    let number = q.number;
    if (number == 5) | (number == 6) {
        return copy_branch(d, q);
    }
    copy_attribute(d, q)
}

// The messages logged; where there are none, as nearly always, the log as it is, without a walk over the 32 numbers.
pub fn noted(log: Log, v: Verdict) -> Log
    requires { LogSound log × (log.count + length (members v.messages) ≤ 256) }
    ensures { result ≡ log_of (run.logged v.request.user v.messages (view_log log)) }
{
    if v.messages == 0 {
        return log;
    }
    logged(log, v.request.user, v.messages)
}
