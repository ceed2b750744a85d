// The enforcing part, by value and by the parts of a session that it looks at: a request is weighed against the refusal table, and request 17's image
// becomes what there is to paste. What is done about it is deeds'.
#![tactic(auto)]

ghost use Rattle.std.specs.Prelude.{◌≡◌, not, ◌≤◌, T, eqb, Ok};
ghost use Rattle.model.specs.Image.{load_added};
ghost use Rattle.model.specs.Run as run;
ghost use Rattle.tables.specs.View.{ClipboardSound, DossierFits, view_clipboard};
ghost use Rattle.refusals.specs.View.{CacheSound, view_cache};
ghost use Rattle.image.specs.View.{loaded_of};
ghost use Rattle.state.specs.declared.Reply.TheVariants.{Done};
ghost use Rattle.state.specs.View.{view_request};
ghost use Rattle.enforce.specs.Requests.{laden_of, pasting, verdict_of, weighed_of};

use branch::load_branch;
use deeds::classes::{Verdict, class_of};
use judge::table::judged;
use operands::bad_operand;
use refusals::{Cache, cached};
use state::refusal::Refusal;
use state::{Agreements, Answer, Log, Reply, Request};
use tables::{Clipboard, Dossier};

// ---- a request, weighed

// Whether the number is of a request that pastes.
fn pastes(number: u8) -> bool
    ensures { result ≡ pasting number }
{
    (number == 7) | ((number == 13) | (number == 17))
}

// What there is to paste; a request that pastes nothing has no use for it, so that the clipboard is left alone.
fn cache_for(c: Clipboard, number: u8) -> Cache
    requires { ClipboardSound c }
    ensures { (T (pasting number) → view_cache result ≡ run.cached (view_clipboard c)) × CacheSound result }
{
    if pastes(number) {
        return cached(c);
    }
    Cache {
        branch: false,
        attribute: false,
        nodes: 0,
        attributes: 0,
        permissions: 0,
        height: 0,
    }
}

// The verdict on what was judged: the refusal, handed on; or the class of the request's number, with the messages to log.
fn verdict_for(told: Result<u32, Refusal>, r: Request) -> Result<Verdict, Refusal>
    ensures { result ≡ verdict_of r told }
{
    let messages = told?;
    // a number that no request has was refused before
    let class = class_of(r.number).ok_or(Refusal::BadOperand)?;
    Ok(Verdict {
        class,
        dossier: r.dossier,
        messages,
        request: r,
    })
}

// Refused; or what is to be done about it, and the messages to log.
pub fn weighed(
    d: Dossier,
    c: Clipboard,
    rows: [Agreements; 64],
    log: Log,
    r: Request,
) -> Result<Verdict, Refusal>
    requires { DossierFits d × ClipboardSound c × (log.count ≤ 256) }
    ensures { result ≡ weighed_of d c rows log r }
{
    let k = cache_for(c, r.number);
    verdict_for(judged(d, k, rows, log.count, r), r)
}

// No message is to be logged.
pub fn quiet(v: Verdict) -> bool
    ensures { result ≡ eqb v.messages 0 }
{
    v.messages == 0
}

// ---- answers

pub fn done() -> Answer
    ensures { result ≡ Ok Done }
{
    Ok(Reply::Done)
}

// ---- request 17

// Whether the request looks at no image: it is no request 17, or its operands are bad.
pub fn stays(r: Request) -> bool
    ensures { result ≡ not (run.places (view_request r)) }
{
    !((r.number == 17) & !bad_operand(r))
}

// Its image placed as a branch of its user's, or the first record that is bad or a permission.
pub fn as_branch(r: Request, image: &[u8]) -> Result<Clipboard, Refusal>
    ensures { result ≡ laden_of (loaded_of (load_added r.user image.now)) }
{
    match load_branch(image, r.user) {
        Ok(held) => Ok(Clipboard { kind: 1, held }),
        Err(bad) => Err(Refusal::BadRecord(bad.number)),
    }
}
