// Load: any bytes to a dossier, or the number of the first bad record. Records ascend, so that nodes come first, then attributes,
// then permissions, and each row is put behind those that are there.
#![tactic(auto)]

ghost use Rattle.std.specs.Prelude.{◌≡◌, ◌||◌, not, ◌%◌, eqb, ltb};
ghost use Rattle.model.specs.Image as images;
ghost use Rattle.image.specs.View.{loaded_of};

use attributes::read_attributes;
use nodes::read_nodes;
use permissions::read_permissions;
use tables::{Dossier, no_permissions};

pub mod attributes;
pub mod columns;
pub mod nodes;
pub mod permissions;
pub mod records;

// A record that is bad, counted from 1; 0 for a bad length.
#[derive(Clone, Copy)]
pub struct BadRecord {
    pub number: usize,
}

// 0, not a multiple of 40, or above 17,920.
fn is_bad_length(n: usize) -> bool
    ensures { result ≡ (eqb n 0 || (not (eqb (n % 40) 0) || ltb 17920 n)) }
{
    (n == 0) | ((n % 40 != 0) | (17920 < n))
}

pub fn load(image: &[u8]) -> Result<Dossier, BadRecord>
    ensures { result ≡ loaded_of (images.load image.now) }
{
    let size = image.len();
    if is_bad_length(size) {
        return Err(BadRecord { number: 0 });
    }
    let n = size / 40;
    let a = read_nodes(image, n)?;
    let nodes = a.table;
    let b = read_attributes(image, a.next, n, nodes)?;
    let attributes = b.table;
    let mut permissions = no_permissions();
    read_permissions(image, b.next, n, nodes, attributes, &mut permissions)?;
    Ok(Dossier {
        nodes,
        attributes,
        permissions,
    })
}
