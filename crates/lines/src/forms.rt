// The calls by their names, and the operands of each in order.

// Requests 1 to 17 have names of their own; `AnyRequest` has its number as an operand.
#[derive(Clone, Copy)]
pub enum Kind {
    Request(u8),
    AnyRequest,
    Start,
    New,
    Sign,
    Load,
    Save,
    Clipboard,
    Log,
    Ask,
    Store,
    Show,
    Help,
}

// The last seven are a permission's.
#[derive(Clone, Copy)]
pub enum Operand {
    Number,
    Dossier,
    Owner,
    Role,
    User,
    Time,
    Path,
    Name,
    Value,
    Image,
    MayImage,
    File,
    Action,
    Agreement,
    MayRoom,
    GrantRole,
    GrantAction,
    GrantUser,
    First,
    Last,
    Messages,
    Agreements,
}

fn request_of(name: &[u8]) -> Option<u8> {
    let number = match name {
        b"read-node" => 1,
        b"read-attribute" => 2,
        b"add-node" => 3,
        b"delete-branch" => 4,
        b"copy-branch" => 5,
        b"cut-branch" => 6,
        b"paste-branch" => 7,
        b"add-attribute" => 8,
        b"delete-attribute" => 9,
        b"change-value" => 10,
        b"copy-attribute" => 11,
        b"cut-attribute" => 12,
        b"paste-attribute" => 13,
        b"add-permission" => 14,
        b"delete-permission" => 15,
        b"delegate" => 16,
        b"add-image" => 17,
        _ => return None,
    };
    Some(number)
}

pub(crate) fn kind_of(name: &[u8]) -> Option<Kind> {
    let kind = match name {
        b"request" => Kind::AnyRequest,
        b"start" => Kind::Start,
        b"new" => Kind::New,
        b"sign" => Kind::Sign,
        b"load" => Kind::Load,
        b"save" => Kind::Save,
        b"clipboard" => Kind::Clipboard,
        b"log" => Kind::Log,
        b"ask" => Kind::Ask,
        b"store" => Kind::Store,
        b"show" => Kind::Show,
        b"help" => Kind::Help,
        _ => Kind::Request(request_of(name)?),
    };
    Some(kind)
}

fn request_form(number: u8) -> &'static [Operand] {
    use Operand::*;
    match number {
        2 | 9 | 11 | 12 | 13 => &[Dossier, Role, User, Time, Path, Name],
        8 | 10 => &[Dossier, Role, User, Time, Path, Name, Value],
        14 | 15 | 16 => &[
            Dossier,
            Role,
            User,
            Time,
            Path,
            Name,
            GrantRole,
            GrantAction,
            GrantUser,
            First,
            Last,
            Messages,
            Agreements,
        ],
        17 => &[Dossier, Role, User, Time, Path, Image],
        _ => &[Dossier, Role, User, Time, Path],
    }
}

pub(crate) fn form_of(kind: Kind) -> &'static [Operand] {
    use Operand::*;
    match kind {
        Kind::Request(number) => request_form(number),
        Kind::AnyRequest => &[
            Number,
            Dossier,
            Role,
            User,
            Time,
            Path,
            Name,
            Value,
            GrantRole,
            GrantAction,
            GrantUser,
            First,
            Last,
            Messages,
            Agreements,
            MayImage,
        ],
        Kind::Start | Kind::Help => &[],
        Kind::New => &[Dossier, Owner],
        Kind::Sign => &[User, Agreement],
        Kind::Load => &[Dossier, Image],
        Kind::Save => &[Dossier, MayRoom],
        Kind::Clipboard | Kind::Log => &[MayRoom],
        Kind::Ask => &[Image, Role, User, Time, Path, Name, Action, MayRoom],
        Kind::Store => &[Dossier, File],
        Kind::Show => &[Dossier],
    }
}

// The room of a call that names none.
pub(crate) fn usual_room(kind: Kind) -> usize {
    match kind {
        Kind::Save | Kind::Clipboard | Kind::Store => 17920,
        Kind::Log => 512,
        Kind::Ask => 8,
        _ => 0,
    }
}
