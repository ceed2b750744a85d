// Images from files and to files; the lines of a script stand in `reading`.
#![tactic(auto)]

use lines::forms::Operand;
use lines::whys::Why;
use std::fs::OpenFile;
use std::io::{Read, Write};
use std::rt::Files;
use std::{fs, io};
use words::hex::hex_in;

pub mod reading;

// Reads until the buffer is full, the file ends or a read fails, and answers how many bytes came.
fn read_full(file: &mut impl Read, out: &mut [u8]) -> usize {
    let mut done: usize = 0;
    // no `for`: each read says how far it went
    while done < out.len() {
        let n = file.read(&mut out[done..]).unwrap_or(0);
        if n == 0 {
            return done;
        }
        done += n;
    }
    done
}

// All of a file, if there is room for it. What follows it must be its end: a read that fails is no end. A name that is no UTF-8 names none.
fn file_in(rt: &impl Files, path: &[u8], image: &mut [u8]) -> Result<usize, Why> {
    let name = str::from_utf8(path).map_err(|_| Why::NotRead)?;
    let mut file = fs::open(rt, name).map_err(|_| Why::NotRead)?;
    let n = read_full(&mut file, image);
    let mut one = [0u8; 1];
    match file.read(&mut one) {
        Ok(0) => Ok(n),
        _ => Err(Why::NotRead),
    }
}

// The image that a word is, at the front of the buffer, and how many bytes it has: hex, or the bytes of the file that it names behind an @.
pub fn image_in(rt: &impl Files, word: &[u8], image: &mut [u8]) -> Result<usize, Why> {
    match word.strip_prefix(b"@") {
        Some(path) => file_in(rt, path, image),
        None => hex_in(word, image).ok_or(Why::Word(Operand::Image)),
    }
}

// A name with `.new` behind it, at the front of the buffer; None where there is no room for it.
fn beside<'a>(path: &[u8], name: &'a mut [u8; 4096]) -> Option<&'a [u8]> {
    let ending = b".new";
    let end = path.len().checked_add(ending.len())?;
    if name.len() < end {
        return None;
    }
    name[..path.len()].copy_from_slice(path);
    name[path.len()..end].copy_from_slice(ending);
    Some(&name[..end])
}

// Written beside and renamed, so that the old file stays as it was where the new one cannot be written.
pub fn stored(rt: &impl Files, path: &[u8], bytes: &[u8]) -> Result<(), Why> {
    let mut name = [0u8; 4096];
    let name = beside(path, &mut name).ok_or(Why::NotWritten)?;
    let beside = str::from_utf8(name).map_err(|_| Why::NotWritten)?;
    let to = str::from_utf8(path).map_err(|_| Why::NotWritten)?;
    written(rt, beside, bytes).map_err(|_| Why::NotWritten)?;
    if fs::rename(rt, beside, to).is_ok() {
        return Ok(());
    }
    let _ = fs::remove_file(rt, beside);
    Err(Why::NotWritten)
}

fn written(rt: &impl Files, path: &str, bytes: &[u8]) -> io::Result<()> {
    let mut file = fs::create(rt, path)?;
    // Nothing is told when a file is closed, so what a late write comes to is asked before.
    let put = file.write_all(bytes);
    let kept = file.sync_all();
    let done = put.and(kept);
    if done.is_err() {
        let _ = fs::remove_file(rt, path);
    }
    done
}
