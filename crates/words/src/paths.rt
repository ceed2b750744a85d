// Addresses as they are written: `/` for the root, else steps with dots between them.
ghost use Rattle.std.specs.Prelude.{◌≡◌, List, [], ◌∷◌, ◌++◌, ℕ, ◌<◌, option_map};
ghost use Rattle.words.specs.Paths.{raw_of, steps_in, path_in};

use crate::numbers::byte_in;
use path::RawPath;

pub fn raw_root() -> RawPath
    ensures { result ≡ raw_of [] }
{
    RawPath {
        len: 0,
        steps: [0; 6],
    }
}

// The path with one step more; steps beyond the sixth are counted alone.
#[tactic(auto, using(crate::proofs::Steps::step_in, crate::proofs::Steps::step_past))]
fn with_step(p: RawPath, n: u8) -> RawPath
    requires { p.len < 255 }
    ensures { (l : List ℕ) → p ≡ raw_of l → result ≡ raw_of (l ++ (n ∷ [])) }
{
    let mut q = p;
    q.len = p.len + 1;
    if p.len < 6 {
        q.steps[p.len as usize] = n;
    }
    q
}

fn steps_in(s: &[u8]) -> Option<RawPath>
    ensures { result ≡ option_map raw_of (steps_in s.now) }
{
    let mut path = raw_root();
    for word in s.split(|b| *b == b'.') {
        let n = byte_in(word)?;
        if path.len == 255 {
            return None;
        }
        path = with_step(path, n);
    }
    Some(path)
}

// The address that the word is: at most 255 steps, each 0 to 255.
pub fn path_in(s: &[u8]) -> Option<RawPath>
    ensures { result ≡ option_map raw_of (path_in s.now) }
{
    if s == b"/".as_slice() {
        return Some(raw_root());
    }
    steps_in(s)
}
