// The calls without a guard, each on the parts of the session that it uses. Signing and taking the log stand with what they change: state::signatures, state::entries.
#![tactic(auto)]

ghost use Rattle.std.specs.Prelude.{◌≡◌, Err};
ghost use Rattle.model.specs.Things as things;
ghost use Rattle.model.specs.Run as run;
ghost use Rattle.tables.specs.View.{ClipboardSound, DossierSound};
ghost use Rattle.state.specs.View.{session_of};
ghost use Rattle.state.specs.Calls.{answer_in, buffer_in, dossiers_after, having, having_clipboard};
ghost use Rattle.unguarded.specs.Calls.{answer_for};

use edits::{bare, empty_clipboard};
use image::load;
use save::{save, save_clipboard};
use state::entries::no_entries;
use state::refusal::Refusal;
use state::{Agreements, Answer, DossiersOut, Reply, Session};
use tables::{Clipboard, Dossier};

// A fresh session: two dossiers of a bare root owned by user 1, and empty clipboard, signatures and log.
pub fn start() -> Session
    ensures { result ≡ session_of things.fresh }
{
    let none = Agreements { signed: 0 };
    Session {
        one: bare(1),
        two: bare(1),
        clipboard: empty_clipboard(),
        signatures: [none; 64],
        log: no_entries(),
    }
}

// Make dossier n new with an owner. Refused 1 for a dossier or an owner out of range.
pub fn renewed(one: Dossier, two: Dossier, n: u8, owner: u8) -> DossiersOut
    requires { DossierSound one × DossierSound two }
    ensures { result ≡ dossiers_after one two (run.new n owner) }
{
    if owner < 1 {
        return refused(one, two, Refusal::BadOperand);
    }
    if 64 < owner {
        return refused(one, two, Refusal::BadOperand);
    }
    if n == 1 {
        return DossiersOut {
            one: bare(owner),
            two: two,
            answer: Ok(Reply::Done),
        };
    }
    if n == 2 {
        return DossiersOut {
            one: one,
            two: bare(owner),
            answer: Ok(Reply::Done),
        };
    }
    refused(one, two, Refusal::BadOperand)
}

// Load dossier n from an image. Refused 1 for a dossier out of range, 12 with the first bad record.
pub fn loaded(one: Dossier, two: Dossier, n: u8, image: &[u8]) -> DossiersOut
    requires { DossierSound one × DossierSound two }
    ensures { result ≡ dossiers_after one two (run.load n image.now) }
{
    if n < 1 {
        return refused(one, two, Refusal::BadOperand);
    }
    if 2 < n {
        return refused(one, two, Refusal::BadOperand);
    }
    let d = match load(image) {
        Ok(d) => d,
        Err(bad) => {
            return DossiersOut {
                one,
                two,
                answer: Err(Refusal::BadRecord(bad.number)),
            };
        }
    };
    if n == 1 {
        return DossiersOut {
            one: d,
            two: two,
            answer: Ok(Reply::Done),
        };
    }
    DossiersOut {
        one: one,
        two: d,
        answer: Ok(Reply::Done),
    }
}

// Save dossier n: how many bytes were written. Refused 1 for a dossier out of range, 9 where the buffer is too short; then it stays as it is.
pub fn saved(one: Dossier, two: Dossier, n: u8, out: &mut [u8]) -> Answer
    requires { DossierSound one × DossierSound two }
    ensures { (result ≡ answer_in (having one two) (run.save n out.old)) × (out.new ≡ buffer_in (having one two) (run.save n out.old)) }
{
    if n == 1 {
        return written(save(one, out));
    }
    if n == 2 {
        return written(save(two, out));
    }
    Err(Refusal::BadOperand)
}

// Save the clipboard: how many bytes were written. Refused 9 where the buffer is too short.
pub fn clipboard_saved(c: Clipboard, out: &mut [u8]) -> Answer
    requires { ClipboardSound c }
    ensures { (result ≡ answer_in (having_clipboard c) (run.save_clipboard out.old)) × (out.new ≡ buffer_in (having_clipboard c) (run.save_clipboard out.old)) }
{
    written(save_clipboard(c, out))
}

// ---- answers

// How many bytes were written, or 9.
fn written(w: Option<usize>) -> Answer
    ensures { result ≡ answer_for w }
{
    match w {
        None => Err(Refusal::ShortBuffer),
        Some(n) => Ok(Reply::Wrote(n)),
    }
}

// The dossiers as they came, and the refusal.
fn refused(one: Dossier, two: Dossier, refusal: Refusal) -> DossiersOut
    ensures { result ≡ record { one = one; two = two; answer = Err refusal } }
{
    DossiersOut {
        one,
        two,
        answer: Err(refusal),
    }
}
