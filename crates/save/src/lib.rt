// A dossier or a clipboard into a lent buffer: all of its records, or nothing.
#![tactic(auto)]

ghost use Rattle.std.specs.Prelude.{◌≡◌, map, ◌+◌, ◌*◌, ◌≤◌, length};
ghost use Rattle.laws.specs.Slots.{put, All};
ghost use Rattle.model.specs.Image as images;
ghost use Rattle.model.specs.Image.{node_record, attribute_record, permission_record, bytes_of};
ghost use Rattle.tables.specs.View.{view_node, view_attribute, view_permission, view_dossier, view_clipboard, NodeSound, AttributeSound, PermissionSound, DossierFits, ClipboardSound};
ghost use Rattle.save.specs.Forty.{node_forty, attribute_forty, permission_forty};
ghost use Rattle.save.specs.Saved.{written_of, left_in};

use encode::{put_attribute, put_node, put_permission};
use tables::{Attribute, Clipboard, Dossier, Node, Permission};

// A row of a table, which is saved as one record.
trait Row: Copy {
    ghost is_sound: { Self → Type 0 };

    ghost as_record: { Self → images.Record };

    fn put(self, out: &mut [u8], at: usize)
        requires { is_sound self × (at + 40 ≤ length out.old) }
        ensures { out.new ≡ put out.old at (images.encode (as_record self)) };

    ghost forty: { (x : Self) → is_sound x → length (images.encode (as_record x)) ≡ 40 };
}

impl Row for Node {
    ghost is_sound = { NodeSound };

    ghost as_record = { λ a. node_record (view_node a) };

    ghost forty = { node_forty };

    fn put(self, out: &mut [u8], at: usize) {
        put_node(out, at, self);
    }
}

impl Row for Attribute {
    ghost is_sound = { AttributeSound };

    ghost as_record = { λ a. attribute_record (view_attribute a) };

    ghost forty = { attribute_forty };

    fn put(self, out: &mut [u8], at: usize) {
        put_attribute(out, at, self);
    }
}

impl Row for Permission {
    ghost is_sound = { PermissionSound };

    ghost as_record = { λ a. permission_record (view_permission a) };

    ghost forty = { permission_forty };

    fn put(self, out: &mut [u8], at: usize) {
        put_permission(out, at, self);
    }
}

// Rows, a record behind the other, from at on.
fn put_rows<R: Row>(rows: &[R], out: &mut [u8], at: usize)
    requires each { All R.is_sound rows.now }
    requires room { at + 40 * length rows.now ≤ length out.old }
    ensures { out.new ≡ put out.old at (bytes_of (map R.as_record rows.now)) }
{
    let mut k = at;
    for row in rows {
        row.put(out, k);
        k += 40;
    }
}

// ---- all or nothing

// Saves the dossier, a record for each row, and says how many bytes that are. A buffer that is too short for all of them stays as it is.
pub fn save(d: Dossier, out: &mut [u8]) -> Option<usize>
    requires { DossierFits d }
    ensures { (result ≡ written_of (images.save (view_dossier d)) out.old) × (out.new ≡ left_in (images.save (view_dossier d)) out.old) }
{
    let Dossier {
        nodes,
        attributes,
        permissions,
    } = d;
    let past_nodes = 40 * nodes.count;
    let past_attributes = past_nodes + 40 * attributes.count;
    let need = past_attributes + 40 * permissions.count;
    if out.len() < need {
        return None;
    }
    put_rows(&nodes.rows[..nodes.count], out, 0);
    put_rows(&attributes.rows[..attributes.count], out, past_nodes);
    put_rows(&permissions.rows[..permissions.count], out, past_attributes);
    Some(need)
}

// Saves what is on the clipboard: a cached attribute is held as its rows, and no rows are no bytes.
pub fn save_clipboard(c: Clipboard, out: &mut [u8]) -> Option<usize>
    requires { ClipboardSound c }
    ensures { (result ≡ written_of (images.save_clipboard (view_clipboard c)) out.old) × (out.new ≡ left_in (images.save_clipboard (view_clipboard c)) out.old) }
{
    save(c.held, out)
}
