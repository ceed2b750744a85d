// The attributes of an image.
ghost use Rattle.std.specs.Prelude.{◌≡◌, ◌||◌, ◌*◌, ◌<◌, eqb, ltb, length, MatchResult};
ghost use Rattle.path.specs.Address.{before};
ghost use Rattle.path.specs.View.{steps, PathSound, key_of};
ghost use Rattle.tables.specs.Places.{before_object};
ghost use Rattle.image.specs.Records.{Blames};
ghost use Rattle.image.specs.Rows.{PathsSound, from_end, attribute_tests, NodesDone, AttributesDone};
ghost use Rattle.image.specs.Columns.{Rises, among};

use crate::BadRecord;
use crate::columns::{is_among, keys_of};
use crate::records::record_after;
use parse::Record;
use path::{Path, is_before, key};
use tables::place::object_before;
use tables::{Attribute, Attributes, Nodes, no_attributes};

// All records before `next` are good and the table holds the attributes; record `next`, counted from 0, is no attribute, or there is none.
#[derive(Clone, Copy)]
pub struct AttributesRead {
    pub next: usize,
    pub table: Attributes,
}

// Whether the object comes after that of the last row.
fn is_new(rows: &[Attribute], p: Path, name: u16) -> bool
    requires { PathsSound rows.now × PathSound p }
    ensures { result ≡ (eqb (length rows.now) 0 || before_object (steps (from_end 1 rows.now).path, (from_end 1 rows.now).name) (steps p, name)) }
{
    let Some(last) = rows.last() else {
        return true;
    };
    object_before(last.path, last.name, p, name)
}

// Whether the node at p has fewer than 16 attributes, by the row 16 places before the end.
fn has_room(rows: &[Attribute], p: Path) -> bool
    requires { PathsSound rows.now × PathSound p }
    ensures { result ≡ (ltb (length rows.now) 16 || before (steps (from_end 16 rows.now).path) (steps p)) }
{
    rows.len() < 16 || is_before(rows[rows.len() - 16].path, p)
}

// Whether an attribute of that name at p fits behind the rows; the nodes are those of the keys.
fn attribute_fits(keys: &[u64], rows: &[Attribute], p: Path, name: u16) -> bool
    requires { Rises ltb keys.now × PathsSound rows.now × PathSound p }
    ensures { result ≡ attribute_tests (among (key_of p) keys.now) (length rows.now) (from_end 1 rows.now) (from_end 16 rows.now) p name }
{
    let fresh = is_new(rows, p, name);
    let room = has_room(rows, p);
    let node = is_among(keys, key(p));
    node & (fresh & ((rows.len() < 256) & room))
}

pub fn read_attributes(
    image: &[u8],
    from: usize,
    n: usize,
    nodes: Nodes,
) -> Result<AttributesRead, BadRecord>
    requires { (length image.now ≡ n * 40) × NodesDone image.now n from nodes }
    ensures { MatchResult result (λ a. AttributesDone image.now n a.next nodes a.table) (λ e. Blames image.now n e.number) }
{
    let keys = keys_of(nodes);
    let mut t = no_attributes();
    for k in from..n {
        let Some(Record::Attribute(a)) = record_after(image, k) else {
            return Ok(AttributesRead { next: k, table: t });
        };
        let c = t.count;
        if !attribute_fits(&keys[..nodes.count], &t.rows[..c], a.path, a.name) {
            return Err(BadRecord { number: k + 1 });
        }
        t.rows[c] = a;
        t.count = c + 1;
    }
    Ok(AttributesRead { next: n, table: t })
}
