// Refusals: one for each row of document 01's table, in its order, with the shelves of document 02 behind them.
ghost use Rattle.std.specs.Prelude.{◌≡◌};
ghost use Rattle.state.specs.Refusals.{number_of};

#[derive(Clone, Copy, PartialEq, Eq)]
pub enum Refusal {
    BadOperand,
    AtRoot,
    Absent,
    NameTaken,
    WrongClipboard,
    NotGranted,
    NotCovered,
    Clashes,
    ShortBuffer,
    Unsigned,
    LogFull,
    // ask's refusal 12, which has no record
    BadImage,
    // refusal 12 with the first record that is bad
    BadRecord(usize),
    NodesFull,
    TooDeep,
    ChildrenFull,
    AttributesFull,
    PermissionsFull,
}

impl Refusal {
    // The paper's number.
    pub fn number(self) -> u8
        ensures { result ≡ number_of self }
    {
        match self {
            Refusal::BadOperand => 1,
            Refusal::AtRoot => 2,
            Refusal::Absent => 3,
            Refusal::NameTaken => 4,
            Refusal::WrongClipboard => 5,
            Refusal::NotGranted => 6,
            Refusal::NotCovered => 7,
            Refusal::Clashes => 8,
            Refusal::ShortBuffer => 9,
            Refusal::Unsigned => 10,
            Refusal::LogFull => 11,
            Refusal::BadImage | Refusal::BadRecord(_) => 12,
            Refusal::NodesFull => 13,
            Refusal::TooDeep => 14,
            Refusal::ChildrenFull => 15,
            Refusal::AttributesFull => 16,
            Refusal::PermissionsFull => 17,
        }
    }
}
