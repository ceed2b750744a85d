// The editor as a program: calls, one to a line, from the file named as its argument or from standard input; each is made on one session
// and answered by a line.
#![tactic(auto)]

use crate::answering::answer_line;
use answers::line::Line;
use files::reading::Reader;
use serve::fresh;
use show::helping::help;
use std::env::{Env, FillError};
use std::fs;
use std::io::Read;
use std::rt::Files;

mod answering;

// A proved loop has to end, and nothing says that a file does: so the lines are counted, up to a number that no run reaches.
fn answer_all(rt: &(impl Files + Print), file: &mut impl Read) {
    let mut held = [0u8; 131072];
    let mut image = [0u8; 65536];
    let mut lent = [0u8; 32768];
    let mut room = [0u8; 70000];
    let mut out = Line::new(&mut room);
    let mut reader = Reader::new();
    let mut s = fresh();
    for number in 1..u64::MAX {
        let Some(line) = reader.next_line(file, &mut held) else {
            return;
        };
        s = answer_line(rt, s, number, line, &mut image, &mut lent, &mut out);
    }
}

fn answer_file(rt: &(impl Files + Print + Eprint), path: &[u8]) {
    let Ok(name) = str::from_utf8(path) else {
        let _ = rt.eprintln("dossier: the name of the file is not UTF-8");
        return;
    };
    match fs::open(rt, name) {
        Ok(mut file) => answer_all(rt, &mut file),
        Err(e) => {
            let _ = eprintln!(rt; "{name}: {e}");
        }
    }
}

fn main(rt: HostRuntime) {
    let mut path = [0u8; 4096];
    match rt.arg(1, &mut path) {
        Err(FillError::NotPresent) => answer_all(&rt, &mut rt.stdin()),
        Err(FillError::TooLong) => {
            let _ = rt.eprintln("dossier: File name too long");
        }
        Ok(n) => match &path[..n] {
            b"--help" => help(&rt),
            name => answer_file(&rt, name),
        },
    }
}
