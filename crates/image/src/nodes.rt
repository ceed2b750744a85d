// The nodes of an image.
ghost use Rattle.std.specs.Prelude.{◌≡◌, ◌*◌, ◌<◌, ltb, length, MatchResult};
ghost use Rattle.path.specs.Address.{last};
ghost use Rattle.path.specs.Packed.{number};
ghost use Rattle.path.specs.View.{steps, path_of, PathSound};
ghost use Rattle.model.specs.Image as images;
ghost use Rattle.image.specs.Records.{Blames};
ghost use Rattle.image.specs.Rows.{NodesDone};
ghost use Rattle.image.specs.Columns.{Rises, NoneAbove, among, node_fits_among};

use crate::BadRecord;
use crate::columns::is_among;
use crate::records::record_after;
use parse::Record;
use path::{Path, child_of, key, last_step, parent_of, size};
use tables::{Nodes, no_nodes};

// The first `next` records are good nodes and the table holds them; record `next`, counted from 0, is no node, or there is none.
#[derive(Clone, Copy)]
pub struct NodesRead {
    pub next: usize,
    pub table: Nodes,
}

// Whether k is among the keys, none of which is above it: then it is the last one.
fn node_here(keys: &[u64], k: u64) -> bool
    requires { Rises ltb keys.now × NoneAbove k keys.now }
    ensures { result ≡ among k keys.now }
{
    keys.last().is_some_and(|x| *x == k)
}

// The path of the node on the left.
fn left_of(p: Path) -> Path
    requires { PathSound p × (1 < last (steps p)) }
    ensures { result ≡ path_of (images.left (steps p)) }
{
    child_of(parent_of(p), last_step(p) - 1).unwrap()
}

// Whether a node at p fits behind those of the keys.
fn node_fits(keys: &[u64], p: Path) -> bool
    requires { Rises ltb keys.now × PathSound p × NoneAbove (number (steps p)) keys.now }
    ensures { result ≡ node_fits_among (steps p) keys.now }
{
    if 64 <= keys.len() {
        return false;
    }
    if node_here(keys, key(p)) {
        return false;
    }
    if size(p) == 0 {
        return true;
    }
    if !is_among(keys, key(parent_of(p))) {
        return false;
    }
    if last_step(p) == 1 {
        return true;
    }
    is_among(keys, key(left_of(p)))
}

pub fn read_nodes(image: &[u8], n: usize) -> Result<NodesRead, BadRecord>
    requires { length image.now ≡ n * 40 }
    ensures { MatchResult result (λ a. NodesDone image.now n a.next a.table) (λ e. Blames image.now n e.number) }
{
    let mut t = no_nodes();
    let mut keys: [u64; 64] = [0; 64];
    for k in 0..n {
        let Some(Record::Node(node)) = record_after(image, k) else {
            return Ok(NodesRead { next: k, table: t });
        };
        let c = t.count;
        if !node_fits(&keys[..c], node.path) {
            return Err(BadRecord { number: k + 1 });
        }
        keys[c] = key(node.path);
        t.rows[c] = node;
        t.count = c + 1;
    }
    Ok(NodesRead { next: n, table: t })
}
