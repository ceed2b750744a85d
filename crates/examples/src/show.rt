// What is written: words, numbers, answers. What cannot be written is left out.
use state::refusal::Refusal;
use state::{Answer, Reply};

pub fn text(rt: &impl Print, s: &[u8]) {
    let _ = rt.write_all(s);
}

pub fn number(rt: &impl Print, n: u64) {
    let _ = rt.print(n);
}

pub fn either(rt: &impl Print, yes: bool, a: &[u8], b: &[u8]) {
    text(rt, if yes { a } else { b });
}

// The words before an answer, and then its refusal number, or the words for one that is no refusal.
pub fn answered(rt: &impl Print, before: &[u8], a: Answer, good: &[u8]) {
    text(rt, before);
    match a {
        Ok(_) => text(rt, good),
        Err(e) => refused(rt, e),
    }
}

// A refusal's number; 12 with its record.
fn refused(rt: &impl Print, e: Refusal) {
    text(rt, b"refused ");
    number(rt, e.number() as u64);
    if let Refusal::BadRecord(k) = e {
        text(rt, b" at record ");
        number(rt, k as u64);
    }
}

// The words before a child count that a read of a node answers.
pub fn children(rt: &impl Print, before: &[u8], a: Answer) {
    text(rt, before);
    match a {
        Ok(Reply::Contents(_, n)) => {
            number(rt, n as u64);
            text(rt, b" children");
        }
        _ => answered(rt, b"", a, b"no child count"),
    }
}

// As many bytes as the answer says were written, two digits each.
pub fn image(rt: &impl Print, a: Answer, bytes: &[u8]) {
    match a {
        Ok(Reply::Wrote(n)) => {
            hex(rt, n, bytes);
            text(rt, b", ");
            number(rt, n as u64);
            text(rt, b" bytes");
        }
        _ => answered(rt, b"", a, b"no bytes"),
    }
}

fn hex(rt: &impl Print, n: usize, bytes: &[u8]) {
    for b in bytes.iter().take(n) {
        let _ = print!(rt; "{b:02x}");
    }
}
