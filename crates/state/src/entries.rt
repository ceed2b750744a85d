// The log: entries of a user and a message, oldest first.
ghost use Rattle.std.specs.Prelude.{◌≡◌, [], ◌≤◌, ◌+◌, ◌*◌, length};
ghost use Rattle.model.specs.Decide.{members};
ghost use Rattle.model.specs.Run as run;
ghost use Rattle.state.specs.View.{view_log, log_of};
ghost use Rattle.state.specs.Calls.{LogSound, having_log, taken_of, buffer_in};

use crate::refusal::Refusal;
use crate::{Answer, Entry, Log, Reply};

#[derive(Clone, Copy)]
pub struct LogOut {
    pub log: Log,
    pub answer: Answer,
}

pub fn no_entries() -> Log
    ensures { result ≡ log_of [] }
{
    let none = Entry {
        user: 0,
        message: 0,
    };
    Log {
        entries: [none; 256],
        count: 0,
    }
}

// How many messages are in the set.
pub fn message_count(messages: u32) -> usize
    ensures { (result ≡ length (members messages)) × (result ≤ 32) }
{
    messages.count_ones() as usize
}

// The messages logged for the user, once each, ascending; there is room for them.
pub fn logged(log: Log, user: u8, messages: u32) -> Log
    requires { LogSound log × (log.count + length (members messages) ≤ 256) }
    ensures { result ≡ log_of (run.logged user messages (view_log log)) }
{
    let mut out = log;
    let mut at = log.count;
    let mut left = messages;
    for m in 0..32u8 {
        if left % 2 == 1 {
            out.entries[at] = Entry { user, message: m };
            at += 1;
        }
        left /= 2;
    }
    out.count = at;
    out
}

// Take the log: two bytes an entry, user then message, oldest first; the log is empty afterwards. Refused 9 where they don't fit.
pub fn taken(log: Log, out: &mut [u8]) -> LogOut
    requires { LogSound log }
    ensures { (result ≡ taken_of log out.old) × (out.new ≡ buffer_in (having_log log) (run.take_log out.old)) }
{
    let n = log.count;
    if out.len() < 2 * n {
        return LogOut {
            log,
            answer: Err(Refusal::ShortBuffer),
        };
    }
    put_entries(log, out);
    LogOut {
        log: no_entries(),
        answer: Ok(Reply::Wrote(2 * n)),
    }
}

// The entries' bytes at the front of a buffer that has room for them.
fn put_entries(log: Log, out: &mut [u8])
    requires { LogSound log × (2 * log.count ≤ length out.old) }
    ensures { out.new ≡ run.written (run.log_bytes (view_log log)) out.old }
{
    let held = &log.entries[..log.count];
    for (i, e) in held.iter().enumerate() {
        out[2 * i] = e.user;
        out[2 * i + 1] = e.message;
    }
}
