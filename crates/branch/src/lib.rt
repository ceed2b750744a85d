// Request 17's image: what load gives of it, every owner the adding user's; refused with its first permission where none before that is bad.
#![tactic(auto)]

ghost use Rattle.std.specs.Prelude.{◌≡◌, map, ◌/◌, length};
ghost use Rattle.model.specs.Image as images;
ghost use Rattle.tables.specs.View.{view_nodes, nodes_of, NodesSound, view_attributes, attributes_of, AttributesSound, view_dossier, dossier_of, DossierFits};
ghost use Rattle.image.specs.View.{loaded_of};

use image::{BadRecord, load};
use tables::{Attributes, Dossier, Nodes};

// The same nodes, each the owner's.
fn own_nodes(t: Nodes, owner: u8) -> Nodes
    requires { NodesSound t }
    ensures { result ≡ nodes_of (map (images.owned_node owner) (view_nodes t)) }
{
    let mut nodes = t;
    for i in 0..t.count {
        nodes.rows[i].owner = owner;
    }
    nodes
}

// The same attributes, each the owner's.
fn own_attributes(t: Attributes, owner: u8) -> Attributes
    requires { AttributesSound t }
    ensures { result ≡ attributes_of (map (images.owned_attribute owner) (view_attributes t)) }
{
    let mut attributes = t;
    for i in 0..t.count {
        attributes.rows[i].owner = owner;
    }
    attributes
}

// Every object the owner's; permissions stay.
fn own_all(d: Dossier, owner: u8) -> Dossier
    requires { DossierFits d }
    ensures { result ≡ dossier_of (images.all_owned owner (view_dossier d)) }
{
    let nodes = own_nodes(d.nodes, owner);
    let attributes = own_attributes(d.attributes, owner);
    Dossier {
        nodes,
        attributes,
        permissions: d.permissions,
    }
}

// How many whole records stand before the first permission.
fn before_permissions(image: &[u8]) -> usize
    ensures { result ≡ images.before_permissions (images.records (length image.now / 40) image.now) }
{
    let n = image.len() / 40;
    for k in 0..n {
        if image[k * 40] == 3 {
            return k;
        }
    }
    n
}

// The branch that an image holds, or its first record that is bad or a permission.
pub fn load_branch(image: &[u8], owner: u8) -> Result<Dossier, BadRecord>
    ensures { result ≡ loaded_of (images.load_added owner image.now) }
{
    let n = image.len() / 40;
    let k = before_permissions(image);
    match load(image) {
        Ok(d) => {
            if k < n {
                return Err(BadRecord { number: k + 1 });
            }
            Ok(own_all(d, owner))
        }
        Err(bad) => {
            if k + 1 < bad.number {
                return Err(BadRecord { number: k + 1 });
            }
            Err(bad)
        }
    }
}
