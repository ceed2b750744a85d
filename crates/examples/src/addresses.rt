// Examples 1 to 3, how addresses move: what the functions of `path` answer.
ghost use Rattle.path.specs.View.{PathSound};

use crate::show::{number, text};
use path::{Path, RawPath};

pub fn example1(rt: &impl Print) {
    let q = at(2, [1, 2, 0, 0, 0, 0]);
    text(rt, b"1. Add at ");
    address(rt, q);
    text(rt, b": ");
    added(rt, at(2, [1, 2, 0, 0, 0, 0]), q);
    text(rt, b"; ");
    added(rt, at(3, [1, 2, 4, 0, 0, 0]), q);
    text(rt, b"; ");
    added(rt, at(2, [1, 10, 0, 0, 0, 0]), q);
    text(rt, b".\n");
}

pub fn example2(rt: &impl Print) {
    let q = at(2, [1, 2, 0, 0, 0, 0]);
    text(rt, b"2. Same: ");
    address(rt, raised(at(1, [1, 0, 0, 0, 0, 0]), q));
    text(rt, b", ");
    address(rt, raised(at(2, [1, 1, 0, 0, 0, 0]), q));
    text(rt, b" and ");
    address(rt, raised(at(2, [2, 2, 0, 0, 0, 0]), q));
    text(rt, b" stay.\n");
}

pub fn example3(rt: &impl Print) {
    let q = at(2, [1, 2, 0, 0, 0, 0]);
    text(rt, b"3. Delete at ");
    address(rt, q);
    text(rt, b": ");
    deleted(rt, at(3, [1, 3, 1, 0, 0, 0]), q);
    text(rt, b"; ");
    deleted(rt, at(3, [1, 2, 5, 0, 0, 0]), q);
    text(rt, b"; ");
    deleted(rt, at(2, [1, 1, 0, 0, 0, 0]), q);
    text(rt, b".\n");
}

// ---- what becomes of a path

fn added(rt: &impl Print, p: Path, q: Path)
    requires { PathSound p × PathSound q }
{
    told(rt, p, raised(p, q));
}

// Where p stands after an add at q, if the step that is raised stays a step.
fn raised(p: Path, q: Path) -> Path
    requires { PathSound p × PathSound q }
    ensures { PathSound result }
{
    let n = path::size(q);
    if n == 0 {
        return p;
    }
    if path::size(p) < n {
        return p;
    }
    if 32 <= path::step_of(p, n - 1) {
        return p;
    }
    path::path_up(p, q)
}

fn deleted(rt: &impl Print, p: Path, q: Path)
    requires { PathSound p × PathSound q }
{
    match path::path_down(p, q) {
        Some(r) => told(rt, p, r),
        None => {
            address(rt, p);
            text(rt, b" goes");
        }
    }
}

// Writes that p stays, or the path that it becomes.
fn told(rt: &impl Print, p: Path, r: Path)
    requires { PathSound p × PathSound r }
{
    address(rt, p);
    if path::key(p) == path::key(r) {
        text(rt, b" stays");
        return;
    }
    text(rt, b" becomes ");
    address(rt, r);
}

// ---- paths in and out

// A host's bytes as a path; bytes that are none give the root's.
fn at(len: u8, steps: [u8; 6]) -> Path
    ensures { PathSound result }
{
    let p = RawPath { len, steps };
    if !path::is_valid(p) {
        return path::root();
    }
    path::path_of(p)
}

// Writes the steps with a dot between them.
fn address(rt: &impl Print, p: Path)
    requires { PathSound p }
{
    for i in 0..path::size(p) {
        step(rt, i, path::step_of(p, i));
    }
}

fn step(rt: &impl Print, i: usize, s: u8) {
    if 0 < i {
        text(rt, b".");
    }
    number(rt, s as u64);
}
