// Addresses: a path of 0 to 6 steps, each 1 to 32, and how it moves when a branch is put in front of it or taken away.
//
// A path is one number: its length and six steps, a byte each, unused steps 0, as bytes 1 to 7 of a record of the image. So numbers
// are ordered as images are, and questions and moves are arithmetic on the number: none goes through the steps one by one.
// Only this crate looks at the steps of a `Path`. A host's bytes are a `RawPath`, which `is_valid` takes as it comes and `path_of`
// packs; an image's are packed by `path_at` and unpacked by `put_path`. The other functions are called with paths that stand for
// an address (`PathSound`).
#![tactic(auto)]

ghost use Rattle.std.specs.Prelude.{◌≡◌, [], ◌∷◌, ◌+◌, ◌-◌, ◌*◌, ◌^◌, ◌<◌, ◌≤◌, T, length, get_or, take, drop};
ghost use Rattle.laws.specs.Slots.{put};
ghost use Rattle.path.specs.Address.{valid, same, before, under, beside, parent, last, child, up, fall, down, off, on, in_depth};
ghost use Rattle.path.specs.Bytes.{step_bytes, read_steps, step_fits};
ghost use Rattle.path.specs.Packed.{pack};
ghost use Rattle.path.specs.View.{steps, asked, path_of, PathSound, moved_of, key_of, digit_of, raw_of};

#[derive(Clone, Copy, PartialEq, Eq, PartialOrd, Ord)]
pub struct Path {
    key: u64,
}

// A path as a host gives it: any bytes.
#[derive(Clone, Copy)]
pub struct RawPath {
    pub len: u8,
    pub steps: [u8; 6],
}

// What the length counts in the number: six digits below it are the steps.
const STEPS: u64 = 1 << 48;

// ---- a host's bytes

// Whether the bytes are a path: at most 6 steps, the used ones 1 to 32. Unused steps are not looked at.
pub fn is_valid(p: RawPath) -> bool
    ensures { result ≡ valid (asked p) }
{
    if 6 < p.len {
        return false;
    }
    p.steps[..p.len as usize]
        .iter()
        .all(|s| (1..=32).contains(s))
}

// The path that valid bytes are, its unused steps blank.
pub fn path_of(p: RawPath) -> Path
    requires { T (valid (asked p)) }
    ensures { result ≡ path_of (asked p) }
{
    let n = p.len as usize;
    let mut k = u64::from(p.len);
    for &s in &p.steps[..n] {
        k = k * 256 + u64::from(s);
    }
    Path {
        key: k << (48 - 8 * n),
    }
}

// The bytes of a path, as a host has them. Any path will do.
// A function, as `path_of` is: that one asks for valid bytes, so no `From` can stand for it, and two forms for one pair are no plainer.
pub fn raw_of(p: Path) -> RawPath
    ensures { result ≡ raw_of p }
{
    let [_, len, a, b, c, d, e, f] = p.key.to_be_bytes();
    RawPath {
        len,
        steps: [a, b, c, d, e, f],
    }
}

// The path of no steps.
pub fn root() -> Path
    ensures { result ≡ path_of [] }
{
    Path { key: 0 }
}

// ---- an image's bytes: the length and six steps, unused ones 0

// The path that the seven bytes from at on are; none where they are no path.
pub fn path_at(s: &[u8], at: usize) -> Option<Path>
    requires { at + 7 ≤ length s.now }
    ensures { result ≡ moved_of (read_steps (take 7 (drop at s.now))) }
{
    let len = s[at];
    if 6 < len {
        return None;
    }
    let n = len as usize;
    let mut k = u64::from(len);
    for (i, &x) in s[at + 1..at + 7].iter().enumerate() {
        if !step_fits(i, n, x) {
            return None;
        }
        k = k * 256 + u64::from(x);
    }
    Some(Path { key: k })
}

// Whether x may stand as step i, counted from 0, of a path of n steps.
fn step_fits(i: usize, n: usize, x: u8) -> bool
    ensures { result ≡ step_fits i n x }
{
    if i < n { (1..=32).contains(&x) } else { x == 0 }
}

// Writes the seven bytes of p from at on.
pub fn put_path(out: &mut [u8], at: usize, p: Path)
    requires { PathSound p × (at + 7 ≤ length out.old) }
    ensures { out.new ≡ put out.old at (step_bytes (steps p)) }
{
    out[at..at + 7].copy_from_slice(&p.key.to_be_bytes()[1..]);
}

// ---- the number's parts

// Digit n of p: its length for 0, else step n, counted from 1; 0 where p has no such step.
fn digit(p: Path, n: usize) -> u8
    requires { n ≤ 6 }
    ensures { (result ≡ digit_of n p) × (PathSound p → result ≡ get_or (length (steps p) ∷ steps p) n 0) }
{
    ((p.key >> (48 - 8 * n)) % 256) as u8
}

// The first n steps of p, as a number.
fn front(p: Path, n: usize) -> u64
    requires { PathSound p × (n ≤ 6) }
    ensures { result ≡ pack n (steps p) }
{
    (p.key % STEPS) >> (48 - 8 * n)
}

// What s counts in the number as step n, counted from 1.
fn placed(s: u8, n: usize) -> u64
    requires { n ≤ 6 }
    ensures { result ≡ s * 256 ^ (6 - n) }
{
    u64::from(s) << (48 - 8 * n)
}

// ---- questions

// A number whose order is the image order of paths.
pub fn key(p: Path) -> u64
    ensures { result ≡ key_of p }
{
    p.key
}

// Whether p comes before q in image order.
pub fn is_before(p: Path, q: Path) -> bool
    requires { PathSound p × PathSound q }
    ensures { result ≡ before (steps p) (steps q) }
{
    p < q
}

// Whether p and q are the same path.
pub fn is_same(p: Path, q: Path) -> bool
    requires { PathSound p × PathSound q }
    ensures { result ≡ same (steps p) (steps q) }
{
    p == q
}

// Whether p is at least as long as q, which is not the root, and agrees with it in all its steps but the last.
pub fn is_beside(p: Path, q: Path) -> bool
    requires { PathSound p × PathSound q }
    ensures { result ≡ beside (steps q) (steps p) }
{
    let k = size(q);
    let n = size(p);
    0 < k && k <= n && front(p, k - 1) == front(q, k - 1)
}

// Whether p is q or below q.
pub fn is_under(p: Path, q: Path) -> bool
    requires { PathSound p × PathSound q }
    ensures { result ≡ under (steps q) (steps p) }
{
    let k = size(q);
    front(p, k) == front(q, k)
}

// ---- parts

// How many steps p has.
pub fn size(p: Path) -> usize
    requires { PathSound p }
    ensures { (result ≡ length (steps p)) × (result ≤ 6) }
{
    (p.key >> 48) as usize
}

// Step i of p, counted from 0.
pub fn step_of(p: Path, i: usize) -> u8
    requires { PathSound p × (i < length (steps p)) }
    ensures { result ≡ get_or (steps p) i 0 }
{
    digit(p, i + 1)
}

// The last step of p, 0 for the root: the root's digit 0 is its length.
pub fn last_step(p: Path) -> u8
    requires { PathSound p }
    ensures { result ≡ last (steps p) }
{
    digit(p, size(p))
}

// The path of the node above p, the root's for the root.
pub fn parent_of(p: Path) -> Path
    requires { PathSound p }
    ensures { result ≡ path_of (parent (steps p)) }
{
    let k = size(p);
    if k == 0 {
        return p;
    }
    let less = placed(digit(p, k), k);
    Path {
        key: p.key - STEPS - less,
    }
}

// The path of child s of p; none where that is too deep.
pub fn child_of(p: Path, s: u8) -> Option<Path>
    requires { PathSound p }
    ensures { result ≡ moved_of (in_depth (child (steps p) s)) }
{
    let k = size(p);
    if 6 <= k {
        return None;
    }
    let more = placed(s, k + 1);
    Some(Path {
        key: p.key + STEPS + more,
    })
}

// ---- moves

// Where p stands after an add or a paste at q.
pub fn path_up(p: Path, q: Path) -> Path
    requires { PathSound p × PathSound q }
    ensures { result ≡ path_of (up (steps q) (steps p)) }
{
    if !is_beside(p, q) {
        return p;
    }
    let k = size(q);
    if digit(p, k) < digit(q, k) {
        return p;
    }
    let higher = placed(1, k);
    Path {
        key: p.key + higher,
    }
}

// Where p stands after a delete at q, if it stays.
pub fn path_fall(p: Path, q: Path) -> Path
    requires { PathSound p × PathSound q }
    ensures { result ≡ path_of (fall (steps q) (steps p)) }
{
    if !is_beside(p, q) {
        return p;
    }
    let k = size(q);
    if digit(p, k) <= digit(q, k) {
        return p;
    }
    let lower = placed(1, k);
    Path { key: p.key - lower }
}

// Where p stands after a delete at q; none for q itself and what is below it.
pub fn path_down(p: Path, q: Path) -> Option<Path>
    requires { PathSound p × PathSound q }
    ensures { result ≡ moved_of (down (steps q) (steps p)) }
{
    if is_under(p, q) {
        return None;
    }
    Some(path_fall(p, q))
}

// What is left of p when the prefix q is removed; none where p does not begin with q.
pub fn path_off(p: Path, q: Path) -> Option<Path>
    requires { PathSound p × PathSound q }
    ensures { result ≡ moved_of (off (steps q) (steps p)) }
{
    if !is_under(p, q) {
        return None;
    }
    let k = size(q);
    let rest = p.key - q.key;
    let low = rest % STEPS;
    Some(Path {
        key: rest - low + (low << (8 * k)),
    })
}

// p with the prefix q put before it; none where that is too deep.
pub fn path_on(p: Path, q: Path) -> Option<Path>
    requires { PathSound p × PathSound q }
    ensures { result ≡ moved_of (in_depth (on (steps q) (steps p))) }
{
    let k = size(q);
    if 6 < size(p) + k {
        return None;
    }
    let low = p.key % STEPS;
    Some(Path {
        key: q.key + (p.key - low) + (low >> (8 * k)),
    })
}
