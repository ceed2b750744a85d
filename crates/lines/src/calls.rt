// From a line to a call.
use crate::forms::{Kind, Operand, form_of, kind_of, usual_room};
use crate::whys::Why;
use state::Request;
use tables::{Grant, Span, Value};
use words::numbers::{byte_in, long_in, number_in, short_in, time_in};
use words::paths::{path_in, raw_root};
use words::values::value_in;
use words::words_in;

// The request has the operands of every call that are named as its own; an owner is its user. The word is an image or a file's name,
// and empty where a request names no image.
#[derive(Clone, Copy)]
pub struct Call<'a> {
    pub kind: Kind,
    pub request: Request,
    pub agreement: u8,
    pub action: u8,
    pub room: usize,
    pub word: &'a [u8],
}

fn blank_request(number: u8) -> Request {
    Request {
        number,
        dossier: 0,
        role: 0,
        user: 0,
        time: 0,
        path: raw_root(),
        name: 0,
        value: Value::Whole(0),
        permission: Grant {
            role: 0,
            action: 0,
            user: 0,
            span: Span { first: 0, last: 0 },
            messages: 0,
            agreements: 0,
        },
    }
}

impl<'a> Call<'a> {
    // A call of the kind, with no operand yet.
    fn begun(kind: Kind) -> Call<'a> {
        let number = match kind {
            Kind::Request(number) => number,
            _ => 0,
        };
        Call {
            kind,
            request: blank_request(number),
            agreement: 0,
            action: 0,
            room: usual_room(kind),
            word: &[],
        }
    }

    // The word becomes the operand; None where it is not of the operand's form.
    fn take(&mut self, operand: Operand, word: &'a [u8]) -> Option<()> {
        let r = &mut self.request;
        match operand {
            Operand::Number => r.number = byte_in(word)?,
            Operand::Dossier => r.dossier = byte_in(word)?,
            Operand::Role => r.role = byte_in(word)?,
            Operand::User | Operand::Owner => r.user = byte_in(word)?,
            Operand::Time => r.time = time_in(word)?,
            Operand::Path => r.path = path_in(word)?,
            Operand::Name => r.name = short_in(word)?,
            Operand::Value => r.value = value_in(word)?,
            Operand::GrantRole => r.permission.role = byte_in(word)?,
            Operand::GrantAction => r.permission.action = byte_in(word)?,
            Operand::GrantUser => r.permission.user = byte_in(word)?,
            Operand::First => r.permission.span.first = time_in(word)?,
            Operand::Last => r.permission.span.last = time_in(word)?,
            Operand::Messages => r.permission.messages = long_in(word)?,
            Operand::Agreements => r.permission.agreements = long_in(word)?,
            Operand::Action => self.action = byte_in(word)?,
            Operand::Agreement => self.agreement = byte_in(word)?,
            Operand::MayRoom => self.room = number_in(word, 32768)? as usize,
            Operand::Image | Operand::MayImage | Operand::File => self.word = word,
        }
        Some(())
    }
}

// The call that a line is, its end taken off.
pub fn call_in(line: &[u8]) -> Result<Call<'_>, Why> {
    let ws = words_in(line);
    let mut words = ws.at[..ws.count].iter();
    let name = words.next().ok_or(Why::Unknown)?;
    let kind = kind_of(name).ok_or(Why::Unknown)?;
    let mut call = Call::begun(kind);
    let mut form = form_of(kind).iter();
    for word in words {
        let operand = form.next().ok_or(Why::TooMany)?;
        call.take(*operand, word).ok_or(Why::Word(*operand))?;
    }
    // What may be left out stands last.
    match form.next() {
        None | Some(Operand::MayRoom | Operand::MayImage) => Ok(call),
        _ => Err(Why::TooFew),
    }
}
