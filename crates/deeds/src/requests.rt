// What a request does to the dossier that it names or takes from it, where more than one function of the crates below is needed.
ghost use Rattle.std.specs.Prelude.{◌≡◌, T};
ghost use Rattle.path.specs.View.{steps, PathSound};
ghost use Rattle.model.specs.Things as things;
ghost use Rattle.model.specs.Moves as model;
ghost use Rattle.model.specs.Image as images;
ghost use Rattle.model.specs.Run as run;
ghost use Rattle.tables.specs.View.{DossierSound, clipboard_of, view_dossier};
ghost use Rattle.state.specs.View.{answer_of};

use counts::children_in;
use edits;
use lookups::{attribute_in, names_in};
use refusals::Placed;
use state::{Answer, Reply};
use tables::{Attribute, Clipboard, Dossier};

// 1: the names on the node, ascending, and its child count.
pub fn read_node(d: Dossier, q: Placed) -> Answer
    requires { DossierSound d × PathSound q.path }
    ensures { result ≡ answer_of (run.contents (model.names_on (steps q.path) (view_dossier d)) (model.child_count (steps q.path) (view_dossier d))) }
{
    let names = names_in(d.attributes, q.path);
    Ok(Reply::Contents(names, children_in(d.nodes, q.path)))
}

// 2: the attribute's value.
pub fn read_attribute(d: Dossier, q: Placed) -> Answer
    requires { DossierSound d × PathSound q.path }
    ensures { result ≡ answer_of (run.value_of (model.attribute_at (steps q.path) q.name (view_dossier d))) }
{
    match attribute_in(d.attributes, q.path, q.name) {
        None => Ok(Reply::Done),
        Some(found) => Ok(Reply::ValueRead(found.value)),
    }
}

// 5, and the first half of 6: the branch with its owners and permissions.
pub fn copy_branch(d: Dossier, q: Placed) -> Clipboard
    requires { DossierSound d × PathSound q.path × T (images.there (model.node_at (steps q.path) (view_dossier d))) }
    ensures { result ≡ clipboard_of (things.branch (model.copy_branch (steps q.path) (view_dossier d))) }
{
    edits::branch_clipboard(edits::copy_branch(d, q.path))
}

// 11, and the first half of 12: the attribute with its owner and permissions, under its own name.
pub fn copy_attribute(d: Dossier, q: Placed) -> Clipboard
    requires { DossierSound d × PathSound q.path }
    ensures { result ≡ clipboard_of (model.copied (steps q.path) q.name (view_dossier d) things.empty (model.attribute_at (steps q.path) q.name (view_dossier d))) }
{
    match attribute_in(d.attributes, q.path, q.name) {
        None => edits::empty_clipboard(),
        Some(found) => {
            let a = Attribute {
                path: q.path,
                name: q.name,
                owner: found.owner,
                value: found.value,
            };
            edits::copy_attribute(d, a)
        }
    }
}
