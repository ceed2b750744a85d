// The signature table: one row of agreements for each user, one row replaced on signing.
ghost use Rattle.std.specs.Prelude.{◌≡◌, ◌≤◌};
ghost use Rattle.model.specs.Run.{signed_by};
ghost use Rattle.state.specs.View.{view_signatures};
ghost use Rattle.state.specs.Calls.{signed_of};

use crate::refusal::Refusal;
use crate::{Agreements, Answer, Reply};

#[derive(Clone, Copy)]
pub struct SignaturesOut {
    pub signatures: [Agreements; 64],
    pub answer: Answer,
}

// The agreements that the user has signed.
pub fn signed_by(rows: [Agreements; 64], user: u8) -> u32
    requires { (1 ≤ user) × (user ≤ 64) }
    ensures { result ≡ signed_by user (view_signatures rows) }
{
    let at = (user - 1) as usize;
    let row = rows[at];
    row.signed
}

// Sign: refused 1 for a user or an agreement out of range; signing twice is the same as once.
pub fn signed(rows: [Agreements; 64], user: u8, agreement: u8) -> SignaturesOut
    ensures { result ≡ signed_of rows user agreement }
{
    if user < 1 {
        return SignaturesOut {
            signatures: rows,
            answer: Err(Refusal::BadOperand),
        };
    }
    if 64 < user {
        return SignaturesOut {
            signatures: rows,
            answer: Err(Refusal::BadOperand),
        };
    }
    if 31 < agreement {
        return SignaturesOut {
            signatures: rows,
            answer: Err(Refusal::BadOperand),
        };
    }
    let i = (user - 1) as usize;
    let mut out = rows;
    let row = out[i];
    let bit = 1u32 << agreement;
    out[i] = Agreements {
        signed: row.signed | bit,
    };
    SignaturesOut {
        signatures: out,
        answer: Ok(Reply::Done),
    }
}
