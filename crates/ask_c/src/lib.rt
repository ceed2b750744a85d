// Ask as a C function, for include/dossier_ask.h: `ask::dossier_ask` under its name.
#![tactic(auto)]

ghost use Rattle.std.specs.Prelude.{◌≡◌};
ghost use Rattle.model.specs.Run as run;
ghost use Rattle.ask.specs.Asked.{question_of, reply_to, out_of};

// The first eight bytes of out get messages, then agreements; on a refusal nothing is written.
#[unsafe(no_mangle)]
pub extern "C" fn dossier_ask(
    image: &[u8],
    role: u8,
    user: u8,
    time: i64,
    len: u8,
    s1: u8,
    s2: u8,
    s3: u8,
    s4: u8,
    s5: u8,
    s6: u8,
    name: u16,
    action: u8,
    out: &mut [u8],
) -> u32
    ensures number { result ≡ run.number_of (reply_to image.now (question_of role user time len s1 s2 s3 s4 s5 s6 name action) out.old).answer }
    ensures bytes { out.new ≡ out_of (reply_to image.now (question_of role user time len s1 s2 s3 s4 s5 s6 name action) out.old) }
{
    ask::dossier_ask(
        image, role, user, time, len, s1, s2, s3, s4, s5, s6, name, action, out,
    )
}
