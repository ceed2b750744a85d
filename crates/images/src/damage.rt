// One image, changed: other lengths, one byte damaged, too little room for a save.
ghost use Rattle.std.specs.Prelude.{◌≤◌};
ghost use Rattle.std.specs.Counts.{IsPrefixLen};

use crate::show::{either, number, text};
use crate::{files, saved};
use std::fs;
use std::rt::Files;

// ---- what load answers

// good where it loads and saves as it was, else the record that is blamed.
fn answer(rt: &impl Print, image: &[u8]) {
    match saved::load(image) {
        Ok(d) => either(
            rt,
            saved::saves_as(d, image),
            b"good",
            b"saved as other bytes",
        ),
        Err(bad) => {
            text(rt, b"record ");
            number(rt, bad.number);
        }
    }
}

// ---- lengths

fn length_line(rt: &impl Print, image: &[u8], n: usize) {
    if image.len() < n {
        return;
    }
    let _ = print!(rt; "length {n}: ");
    answer(rt, &image[..n]);
    text(rt, b"\n");
}

// The full image, with zeros behind it.
fn lengths(rt: &impl Print, image: &[u8]) {
    for n in [0, 39, 40, 41, 17880, 17919, 17920, 17921, 17960, 18000] {
        length_line(rt, image, n);
    }
}

// With a first record that is bad, the length still comes first.
fn first_bad(rt: &impl Print, image: &mut [u8; 18000]) {
    text(rt, b"first record bad\n");
    image[0] = 9;
    length_line(rt, image, 17920);
    length_line(rt, image, 17921);
}

// The start of a file; none where it cannot be opened.
fn opened(rt: &impl Files, name: &str, most: usize, out: &mut [u8]) -> usize
    ensures { IsPrefixLen result out.new }
{
    match fs::open(rt, name) {
        Ok(mut file) => files::bytes(&mut file, most, out),
        Err(_) => 0,
    }
}

pub fn full(rt: &(impl Files + Print)) {
    let mut image = files::space();
    let n = opened(rt, "full.image", 17920, &mut image);
    lengths(rt, &image);
    room(rt, &image[..n]);
    first_bad(rt, &mut image);
}

// ---- room

// A save into one byte less than it needs.
fn room(rt: &impl Print, image: &[u8]) {
    let n = image.len();
    if n == 0 {
        return;
    }
    let refused = match saved::load(image) {
        Ok(d) => saved::is_refused(d, n - 1),
        Err(_) => false,
    };
    let _ = print!(rt; "save of {n} bytes into {}", n - 1);
    either(rt, refused, b": refused, buffer kept\n", b": wrong\n");
}

// ---- one byte

// The byte at k is replaced, and put back.
fn with_byte(rt: &impl Print, image: &mut [u8], k: usize, b: u8) {
    if image.len() <= k {
        return;
    }
    let old = image[k];
    image[k] = b;
    answer(rt, image);
    image[k] = old;
}

// Byte i of a record, which is byte k of the image.
fn position(rt: &impl Print, image: &mut [u8], kind: &[u8], k: usize, i: usize) {
    if image.len() <= k {
        return;
    }
    let b = image[k];
    text(rt, kind);
    let _ = print!(rt; "{i}: ");
    with_byte(rt, image, k, b.wrapping_add(1));
    text(rt, b", ");
    with_byte(rt, image, k, b ^ 0x80);
    text(rt, b"\n");
}

// Each byte of the record that starts at `at`.
fn record(rt: &impl Print, image: &mut [u8], kind: &[u8], at: usize)
    requires { at ≤ 440 }
{
    for i in 0..40 {
        position(rt, image, kind, at + i, i);
    }
}

// The second, the seventh and the eleventh record of the image: a node with a sibling and a child, an attribute with a permission,
// and that permission.
pub fn damaged(rt: &(impl Files + Print)) {
    let mut image = [0u8; 480];
    opened(rt, "three.image", 480, &mut image);
    text(rt, b"one byte damaged: byte + 1, byte xor 128\n");
    record(rt, &mut image, b"node ", 40);
    record(rt, &mut image, b"attribute ", 240);
    record(rt, &mut image, b"permission ", 400);
    room(rt, &image);
}
