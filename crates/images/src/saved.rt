// An image that was loaded, saved again.
ghost use Rattle.std.specs.Prelude.{◌≡◌, length, IfOk};
ghost use Rattle.tables.specs.View.{DossierFits};

use image::BadRecord;
use tables::Dossier;

const PATTERN: u8 = 0xa5;

// A buffer to lend, longer than any image.
fn buffer() -> [u8; 20000]
    ensures { 20000 ≡ length result }
{
    [PATTERN; 20000]
}

// Loads, and says of the dossier what a save asks.
pub fn load(bytes: &[u8]) -> Result<Dossier, BadRecord>
    ensures { IfOk result (λ d. DossierFits d) }
{
    image::load(bytes)
}

// Whether every byte from `from` on is as it was before the save.
fn is_kept(out: &[u8], from: usize) -> bool {
    out.iter().skip(from).all(|b| *b == PATTERN)
}

// Whether a dossier saves as that image, and nothing is written beyond.
pub fn saves_as(d: Dossier, image: &[u8]) -> bool
    requires { DossierFits d }
{
    let mut out = buffer();
    let n = save::save(d, &mut out).unwrap_or(0);
    (n == image.len()) & (out.starts_with(image) & is_kept(&out, n))
}

// Whether there is no room for a dossier in that many bytes of the buffer.
fn is_short_of(d: Dossier, room: usize, out: &mut [u8]) -> bool
    requires { DossierFits d }
{
    if out.len() < room {
        return false;
    }
    save::save(d, &mut out[..room]).is_none()
}

// Whether a save into so many bytes is refused, and leaves the buffer as it was.
pub fn is_refused(d: Dossier, room: usize) -> bool
    requires { DossierFits d }
{
    let mut out = buffer();
    let short = is_short_of(d, room, &mut out);
    short & is_kept(&out, 0)
}
