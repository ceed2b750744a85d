// What is done to a table, whichever rows it has.
#![tactic(auto)]

ghost use Rattle.std.specs.Prelude.{◌≡◌, Bool, ◌+◌, ◌≤◌, ◌<◌, ltb, length, map};
ghost use Rattle.laws.specs.Sorted.{◌∈◌, insert, merge, move};
ghost use Rattle.std.proofs.Math.Option as math;
ghost use Rattle.path.specs.Address.{Address, up, down, off, on, in_depth};
ghost use Rattle.path.specs.View.{steps, path_of, moved_of, key_of, PathSound};
ghost use Rattle.model.specs.Moves as model;
ghost use Rattle.model.specs.Moves.{carry};
ghost use Rattle.moves.specs.Moved.{raised, below};
ghost use Rattle.moves.specs.Room.{Shallow};
ghost use Rattle.model.specs.Things as things;
ghost use Rattle.rows.specs.Tables.{given, row_lt, RowSound, seen, table_of, TableSound, Step, Gives, Merging};

use kinds::Row;
use path::{Path, key, path_down, path_off, path_on, path_up};
use tables::Table;

pub mod kinds;

// What f gives for the rows of t, in turn.
pub fn moved<R: Row, const N: usize, F: Fn(R) -> Option<R>>(t: &Table<R, N>, f: F) -> Table<R, N>
    requires sound { TableSound N R.blank R.of R.lt t.now }
    requires callable { (s : R) → RowSound R.of s → F.pre f s }
    ensures { (g : Step R.Payload) → Gives R.of R.view (F.post f) g → result ≡ table_of N R.blank R.of (move g (seen R.view t.now)) }
{
    let mut rows = [R::unused(); N];
    let mut count = 0;
    for row in &t.rows[..t.count] {
        if let Some(kept) = f(*row) {
            rows[count] = kept;
            count += 1;
        }
    }
    Table { rows, count }
}

// The rows of c put among those of t, in order: from the end, at each turn the row that comes last.
pub fn merged<R: Row, const N: usize, F: Fn(R, R) -> bool>(
    c: &[R],
    t: Table<R, N>,
    before: F,
) -> Table<R, N>
    requires { Merging N R.blank R.of R.view R.lt (λ x y. F.pre before x y) (λ x y r. F.post before x y r) c.now t }
    ensures { result ≡ table_of N R.blank R.of (merge (row_lt R.lt) (map R.view c.now) (seen R.view t)) }
{
    let mut out = t;
    let mut i = c.len();
    let mut j = t.count;
    out.count = i + j;
    while 0 < i {
        let new = c[i - 1];
        if 0 < j && before(new, out.rows[j - 1]) {
            j -= 1;
            out.rows[i + j] = out.rows[j];
        } else {
            i -= 1;
            out.rows[i + j] = new;
        }
    }
    out
}

// ---- tables whose rows go where their paths go

// The row at its new path, if it has one.
fn carried<R: Row>(row: R, to: Option<Path>) -> Option<R>
    requires { RowSound R.of row }
    ensures { (o : math.Option Address) → to ≡ moved_of o → result ≡ given R.of (carry (λ p. o) (R.view row)) }
{
    Some(row.placed(to?))
}

// After an add or a paste at q: at or below q, or a later sibling of it, that step is one higher; the others stay.
pub fn up<R: Row, const N: usize>(t: &Table<R, N>, q: Path) -> Table<R, N>
    requires { TableSound N R.blank R.of R.lt t.now × PathSound q }
    ensures { result ≡ table_of N R.blank R.of (raised (steps q) (seen R.view t.now)) }
{
    moved(
        t,
        |row: R| -> Option<R>
            requires { RowSound R.of row × PathSound q }
            ensures { result ≡ given R.of (carry (λ p. math.some (up (steps q) p)) (R.view row)) }
        { Some(row.placed(path_up(row.path(), q))) },
    )
}

// After a delete at q: rows at or below q go; at or below a later sibling that step is one lower.
pub fn down<R: Row, const N: usize>(t: &Table<R, N>, q: Path) -> Table<R, N>
    requires { TableSound N R.blank R.of R.lt t.now × PathSound q }
    ensures { result ≡ table_of N R.blank R.of (model.carried (down (steps q)) (seen R.view t.now)) }
{
    moved(
        t,
        |row: R| -> Option<R>
            requires { RowSound R.of row × PathSound q }
            ensures { result ≡ given R.of (carry (down (steps q)) (R.view row)) }
        { carried(row, path_down(row.path(), q)) },
    )
}

// Those of the branch at q, prefix removed.
pub fn off<R: Row, const N: usize>(t: &Table<R, N>, q: Path) -> Table<R, N>
    requires { TableSound N R.blank R.of R.lt t.now × PathSound q }
    ensures { result ≡ table_of N R.blank R.of (model.carried (off (steps q)) (seen R.view t.now)) }
{
    moved(
        t,
        |row: R| -> Option<R>
            requires { RowSound R.of row × PathSound q }
            ensures { result ≡ given R.of (carry (off (steps q)) (R.view row)) }
        { carried(row, path_off(row.path(), q)) },
    )
}

// Those of the branch c, with the prefix q.
fn on<R: Row, const N: usize>(c: &Table<R, N>, q: Path) -> Table<R, N>
    requires { TableSound N R.blank R.of R.lt c.now × PathSound q × Shallow (steps q) (seen R.view c.now) }
    ensures { result ≡ table_of N R.blank R.of (below (steps q) (seen R.view c.now)) }
{
    moved(
        c,
        |row: R| -> Option<R>
            requires { RowSound R.of row × PathSound q }
            ensures { result ≡ given R.of (carry (λ p. in_depth (on (steps q) p)) (R.view row)) }
        { carried(row, path_on(row.path(), q)) },
    )
}

// Those of the branch c pasted at q, which is not the root: what stood there has moved as for an add.
pub fn paste<R: Row, const N: usize>(c: &Table<R, N>, t: &Table<R, N>, q: Path) -> Table<R, N>
    requires sound { TableSound N R.blank R.of R.lt c.now × TableSound N R.blank R.of R.lt t.now × PathSound q × (0 < length (steps q)) }
    requires count_bound { (c.now.count + t.now.count ≤ N) × Shallow (steps q) (seen R.view c.now) }
    ensures { result ≡ table_of N R.blank R.of (merge (row_lt R.lt) (below (steps q) (seen R.view c.now)) (raised (steps q) (seen R.view t.now))) }
{
    let branch = on(c, q);
    let rest = up(t, q);
    merged(
        &branch.rows[..branch.count],
        rest,
        |x: R, y: R| -> bool
            ensures { (r s : things.Row R.Payload) → x ≡ R.of r → y ≡ R.of s → result ≡ ltb (key_of (path_of r.0)) (key_of (path_of s.0)) }
        { key(x.path()) < key(y.path()) },
    )
}

// One row more, where it comes in the order of records; it is apart from all that are there.
pub fn insert<R: Row, const N: usize>(a: R, t: Table<R, N>) -> Table<R, N>
    requires sound { RowSound R.of a × TableSound N R.blank R.of R.lt t }
    requires room { (t.count < N) × ((r : things.Row R.Payload) → r ∈ seen R.view t → R.apart (R.view a) r) }
    ensures { result ≡ table_of N R.blank R.of (insert (row_lt R.lt) (R.view a) (seen R.view t)) }
{
    merged(
        &[a],
        t,
        |x: R, y: R| -> bool
            requires { RowSound R.of x × RowSound R.of y × R.apart (R.view x) (R.view y) }
            ensures { result ≡ row_lt R.lt (R.view x) (R.view y) }
        { x.is_before(y) },
    )
}
