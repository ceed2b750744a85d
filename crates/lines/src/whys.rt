// Why a line is bad, in a few words.
use crate::forms::Operand;
use answers::line::Line;
use std::fmt::Write;

#[derive(Clone, Copy)]
pub enum Why {
    Unknown,
    TooFew,
    TooMany,
    TooLong,
    NotRead,
    NotWritten,
    // a word that is not of its operand's form
    Word(Operand),
}

fn words_of_operand(operand: Operand) -> &'static str {
    match operand {
        Operand::Number => "NUMBER is not a number 0..255",
        Operand::Dossier => "D is not a number 0..255",
        Operand::Owner => "OWNER is not a number 0..255",
        Operand::Role | Operand::GrantRole => "ROLE is not a number 0..255",
        Operand::User | Operand::GrantUser => "USER is not a number 0..255",
        Operand::Action | Operand::GrantAction => "ACTION is not a number 0..255",
        Operand::Agreement => "AGREEMENT is not a number 0..255",
        Operand::Time => "TIME is not a number of 64 bits",
        Operand::First => "FIRST is not a number of 64 bits",
        Operand::Last => "LAST is not a number of 64 bits",
        Operand::Messages => "MESSAGES is not a number 0..4294967295",
        Operand::Agreements => "AGREEMENTS is not a number 0..4294967295",
        Operand::Name => "NAME is not a number 0..65535",
        Operand::MayRoom => "ROOM is not a number 0..32768",
        Operand::Path => "PATH is not / or steps 0..255 with dots",
        Operand::Value => "VALUE is not whole:N or reading:H",
        Operand::File => "FILE is not a name",
        Operand::Image | Operand::MayImage => "IMAGE is not hex, two digits to a byte",
    }
}

fn words_of(why: Why) -> &'static str {
    match why {
        Why::Unknown => "no call of that name",
        Why::TooFew => "too few words",
        Why::TooMany => "too many words",
        Why::TooLong => "the line is too long",
        Why::NotRead => "the file cannot be read, or is too long",
        Why::NotWritten => "the file cannot be written",
        Why::Word(operand) => words_of_operand(operand),
    }
}

// The answer to a line that is no call. A `Line` takes every text: nothing fails, and what finds no room is left out.
pub fn put_bad(line: &mut Line, number: u64, why: Why) {
    let words = words_of(why);
    let _ = writeln!(line, "bad line {number}: {words}");
}
