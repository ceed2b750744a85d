// The permissions of an image, and its end.
ghost use Rattle.std.specs.Prelude.{◌≡◌, ◌*◌, eqb, ltb, length, MatchResult};
ghost use Rattle.laws.specs.Slots.{pick};
ghost use Rattle.path.specs.View.{steps, PathSound, key_of};
ghost use Rattle.model.specs.Decide.{clash_any};
ghost use Rattle.model.specs.Moves.{permissions_in};
ghost use Rattle.tables.specs.View.{view_attributes, AttributesSound, view_grant, view_permissions, PermissionsSound};
ghost use Rattle.image.specs.Records.{Blames};
ghost use Rattle.image.specs.Rows.{NoObjectAfter, AttributesDone, PermissionsUpto};
ghost use Rattle.image.specs.Columns.{Rises, among, pair_among, objects_of};

use crate::BadRecord;
use crate::columns::{is_among, keys_of};
use crate::records::record_after;
use grants::clash;
use lookups::attribute_at;
use parse::Record;
use path::{Path, key};
use tables::{Attributes, Nodes, Permission, Permissions, no_permissions};

// Whether the object is there: the node for name 0, by its key, else the attribute, in the table that is lent.
fn object_there(keys: &[u64], t: &Attributes, p: Path, name: u16) -> bool
    requires { Rises ltb keys.now × AttributesSound t.now × PathSound p }
    ensures { result ≡ pick (eqb name 0) (among (key_of p) keys.now) (pair_among (key_of p, name) (objects_of (view_attributes t.now))) }
{
    if name == 0 {
        return is_among(keys, key(p));
    }
    attribute_at(t, p, name).is_some()
}

// Whether r clashes with one of its object's permissions. They are the last rows, since records ascend: the walk back ends at the first row of another object.
fn clashes(t: &Permissions, r: Permission) -> bool
    requires { PermissionsSound t.now × PathSound r.path × NoObjectAfter (steps r.path, r.name) (view_permissions t.now) }
    ensures { result ≡ clash_any (view_grant r.grant) (permissions_in (steps r.path) r.name (view_permissions t.now)) }
{
    let k = key(r.path);
    let rows = &t.rows[..t.count];
    let mut own = rows
        .iter()
        .rev()
        .take_while(|a| a.name == r.name && key(a.path) == k);
    own.any(|a| clash(r.grant, a.grant))
}

// They are put into a table that is lent: a `Result` with the table lays one more of them on the stack of `load`, and so of `dossier_ask`.
pub fn read_permissions(
    image: &[u8],
    from: usize,
    n: usize,
    nodes: Nodes,
    attributes: Attributes,
    t: &mut Permissions,
) -> Result<(), BadRecord>
    requires { (length image.now ≡ n * 40) × AttributesDone image.now n from nodes attributes }
    ensures { MatchResult result (λ _. PermissionsUpto image.now n n nodes attributes t.new) (λ e. Blames image.now n e.number) }
{
    let keys = keys_of(nodes);
    *t = no_permissions();
    for k in from..n {
        let Some(Record::Permission(r)) = record_after(image, k) else {
            return Err(BadRecord { number: k + 1 });
        };
        let c = t.count;
        let on = object_there(&keys[..nodes.count], &attributes, r.path, r.name);
        let clashing = clashes(t, r);
        if (128 <= c) | (!on | clashing) {
            return Err(BadRecord { number: k + 1 });
        }
        t.rows[c] = r;
        t.count = c + 1;
    }
    Ok(())
}
