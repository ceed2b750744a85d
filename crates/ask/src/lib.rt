// Ask: one decision on an image, for a front end in C that greys out its menus. It builds no session and keeps nothing.
#![tactic(auto)]

ghost use Rattle.std.specs.Prelude.{◌≡◌, T};
ghost use Rattle.path.specs.Address.{valid};
ghost use Rattle.path.specs.View.{steps, asked, PathSound};
ghost use Rattle.model.specs.Image as images;
ghost use Rattle.model.specs.Decide.{given, read_by};
ghost use Rattle.model.specs.Moves.{node_at, object_at};
ghost use Rattle.model.specs.Refusals.{missing};
ghost use Rattle.model.specs.Run as run;
ghost use Rattle.tables.specs.View.{view_dossier, DossierFits};
ghost use Rattle.grants.specs.View.{view_subject, decision_of};
ghost use Rattle.ask.specs.Asked.{question_of, reply_to, out_of};
ghost use Rattle.ask.specs.Verdict.{view_question, verdict_on, verdict_in};

use decide::{change_node, joined, owner_of, read_attribute, read_node};
use encode::put4;
use grants::{Provisions, Subject};
use image::load;
use path::{Path, RawPath, is_valid, path_of};
use state::refusal::Refusal;
use tables::Dossier;

// What is asked, as it came: any numbers. Name 0 is the node at the path.
#[derive(Clone, Copy)]
pub struct Question {
    pub subject: Subject,
    pub path: RawPath,
    pub name: u16,
    pub action: u8,
}

// ---- 1, 12, 3, 6

// Every time is in range by its type, and so is every name.
fn bad_question(q: Question) -> bool
    ensures { result ≡ run.bad_question (view_question q) }
{
    let s = q.subject;
    let role = (1 <= s.role) & (s.role <= 15);
    let user = (1 <= s.user) & (s.user <= 64);
    let action = (1 <= q.action) & (q.action <= 2);
    !(role & (user & (is_valid(q.path) & action)))
}

// Whether there is no such object.
fn absent(d: Dossier, p: Path, name: u16) -> bool
    requires { DossierFits d × PathSound p }
    ensures { result ≡ missing (object_at (steps p) name (view_dossier d)) }
{
    owner_of(d, p, name).is_none()
}

// Read of the object: the node for name 0, else the attribute of that name.
fn may_read(d: Dossier, p: Path, name: u16, s: Subject) -> Option<Provisions>
    requires { DossierFits d × PathSound p }
    ensures { result ≡ decision_of (given (read_by (view_subject s)) (object_at (steps p) name (view_dossier d))) }
{
    if name == 0 {
        return read_node(d, p, s);
    }
    read_attribute(d, p, name, s)
}

// What is asked for, granted or not. Change of an attribute needs its read and the change of its node.
fn may(d: Dossier, p: Path, q: Question) -> Option<Provisions>
    requires { DossierFits d × PathSound p }
    ensures { result ≡ decision_of (run.may_ask (view_question q) (object_at (steps p) q.name (view_dossier d)) (node_at (steps p) (view_dossier d))) }
{
    let s = q.subject;
    if q.action == 1 {
        return may_read(d, p, q.name, s);
    }
    let change = change_node(d, p, s);
    if q.name == 0 {
        return change;
    }
    let read = read_attribute(d, p, q.name, s);
    joined(read, change)
}

// 3 and 6, on a dossier that was loaded; or granted, with the messages to log and the agreements to be signed.
fn decided_on(d: Dossier, q: Question) -> Result<Provisions, Refusal>
    requires { DossierFits d × T (valid (asked q.path)) }
    ensures { result ≡ verdict_in (view_question q) (view_dossier d) }
{
    let p = path_of(q.path);
    if absent(d, p, q.name) {
        return Err(Refusal::Absent);
    }
    may(d, p, q).ok_or(Refusal::NotGranted)
}

fn decided(image: &[u8], q: Question) -> Result<Provisions, Refusal>
    ensures { result ≡ verdict_on (view_question q) (run.image_of (images.load image.now)) }
{
    if bad_question(q) {
        return Err(Refusal::BadOperand);
    }
    match load(image) {
        Ok(d) => decided_on(d, q),
        Err(_) => Err(Refusal::BadImage),
    }
}

// ---- 9, and the answer

// The first eight bytes of out get messages, then agreements; on a refusal nothing is written.
pub fn dossier_ask(
    image: &[u8],
    role: u8,
    user: u8,
    time: i64,
    len: u8,
    s1: u8,
    s2: u8,
    s3: u8,
    s4: u8,
    s5: u8,
    s6: u8,
    name: u16,
    action: u8,
    out: &mut [u8],
) -> u32
    ensures number { result ≡ run.number_of (reply_to image.now (question_of role user time len s1 s2 s3 s4 s5 s6 name action) out.old).answer }
    ensures bytes { out.new ≡ out_of (reply_to image.now (question_of role user time len s1 s2 s3 s4 s5 s6 name action) out.old) }
{
    let path = RawPath {
        len,
        steps: [s1, s2, s3, s4, s5, s6],
    };
    let subject = Subject { role, user, time };
    let q = Question {
        subject,
        path,
        name,
        action,
    };
    match decided(image, q) {
        Err(refusal) => refusal.number() as u32,
        Ok(asked) => {
            if out.len() < 8 {
                return Refusal::ShortBuffer.number() as u32;
            }
            put4(out, 0, asked.messages);
            put4(out, 4, asked.agreements);
            0
        }
    }
}
