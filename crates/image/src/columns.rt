// Columns: the rows of a table by their numbers alone. A lookup is lent a column, where a table would be copied for it.
ghost use Rattle.std.specs.Prelude.{◌≡◌, ltb};
ghost use Rattle.laws.specs.Slots.{slots};
ghost use Rattle.tables.specs.View.{view_nodes, NodesSound, view_attributes, AttributesSound};
ghost use Rattle.image.specs.Columns.{Rises, among, before_pair, pair_among, keys_of, objects_of};

use path::key;
use tables::{Attributes, Nodes};

// Whether k is among the keys, which never fall.
pub fn is_among(keys: &[u64], k: u64) -> bool
    requires { Rises ltb keys.now }
    ensures { result ≡ among k keys.now }
{
    keys.get(keys.partition_point(|x| *x < k))
        .is_some_and(|x| *x == k)
}

// Whether the object of key k and that name is among these, which never fall.
pub fn is_object_among(objects: &[(u64, u16)], k: u64, name: u16) -> bool
    requires { Rises before_pair objects.now }
    ensures { result ≡ pair_among (k, name) objects.now }
{
    let o = (k, name);
    objects
        .get(objects.partition_point(|x| *x < o))
        .is_some_and(|x| *x == o)
}

// The column of the nodes.
pub fn keys_of(t: Nodes) -> [u64; 64]
    requires { NodesSound t }
    ensures { result ≡ slots 64 0 (keys_of (view_nodes t)) }
{
    let mut keys: [u64; 64] = [0; 64];
    let nodes = &t.rows[..t.count];
    for (i, a) in nodes.iter().enumerate() {
        keys[i] = key(a.path);
    }
    keys
}

// The column of the attributes: the numbers of their paths, each with its name.
pub fn objects_of(t: Attributes) -> [(u64, u16); 256]
    requires { AttributesSound t }
    ensures { result ≡ slots 256 (0, 0) (objects_of (view_attributes t)) }
{
    let mut objects: [(u64, u16); 256] = [(0, 0); 256];
    let attributes = &t.rows[..t.count];
    for (i, a) in attributes.iter().enumerate() {
        objects[i] = (key(a.path), a.name);
    }
    objects
}
