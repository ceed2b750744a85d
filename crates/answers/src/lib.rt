// Answers as lines, with no output. Nothing here fails: a `Line` takes every text, and what finds no room in it is left out. So each
// public function drops what `write!` answers, and its callers have none to look at.
#![tactic(auto)]

pub mod line;

use crate::line::Line;
use encode::pattern_of;
use state::refusal::Refusal;
use state::{Answer, Reply};
use std::fmt;
use std::fmt::Write;
use tables::{Names, Value};

// Bytes in lower-case hex; `-` for none.
fn put_bytes(line: &mut Line, bytes: &[u8]) -> fmt::Result {
    if bytes.is_empty() {
        return line.write_str("-");
    }
    for b in bytes {
        line.push_hex(*b);
    }
    Ok(())
}

// Names, with commas between them.
fn put_names(line: &mut Line, names: Names) -> fmt::Result {
    for (i, name) in names.names.iter().take(names.count).enumerate() {
        if i != 0 {
            line.write_str(",")?;
        }
        write!(line, "{name}")?;
    }
    Ok(())
}

fn put_value(line: &mut Line, v: Value) -> fmt::Result {
    match v {
        Value::Whole(n) => write!(line, "ok whole:{n}"),
        Value::Reading(x) => {
            let bits = pattern_of(x);
            write!(line, "ok reading:{bits:08x}")
        }
    }
}

// The paper's number; 12 with its record.
fn put_refusal(line: &mut Line, e: Refusal) -> fmt::Result {
    write!(line, "refused {}", e.number())?;
    match e {
        Refusal::BadRecord(k) => write!(line, " record={k}"),
        _ => Ok(()),
    }
}

fn put_reply(line: &mut Line, r: Reply, lent: &[u8]) -> fmt::Result {
    match r {
        Reply::Done => line.write_str("ok"),
        Reply::Contents(names, children) => {
            write!(line, "ok children={children} names=")?;
            put_names(line, names)
        }
        Reply::ValueRead(v) => put_value(line, v),
        Reply::Wrote(n) => {
            write!(line, "ok bytes={n} ")?;
            put_bytes(line, lent.get(..n).unwrap_or_default())
        }
    }
}

fn put_outcome(line: &mut Line, a: Answer, lent: &[u8]) -> fmt::Result {
    match a {
        Ok(r) => put_reply(line, r, lent)?,
        Err(e) => put_refusal(line, e)?,
    }
    line.write_str("\n")
}

// ---- whole lines

// The line of an answer; a save's bytes are those of the buffer that was lent to it.
pub fn put_answer(line: &mut Line, a: Answer, lent: &[u8]) {
    let _ = put_outcome(line, a, lent);
}

// The line of an ask: the number that it answered, and the two sets that it wrote.
pub fn put_asked(line: &mut Line, number: u32, messages: u32, agreements: u32) {
    let _ = if number == 0 {
        writeln!(line, "ok messages={messages} agreements={agreements}")
    } else {
        writeln!(line, "refused {number}")
    };
}

// The line of a store: how many bytes the file has.
pub fn put_stored(line: &mut Line, n: usize) {
    let _ = writeln!(line, "ok bytes={n}");
}
