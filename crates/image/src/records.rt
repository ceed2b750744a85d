// One record of an image, by its number counted from 0.
ghost use Rattle.std.specs.Prelude.{◌≡◌, ◌+◌, ◌*◌, ◌≤◌, length};
ghost use Rattle.parse.specs.View.{record_of};
ghost use Rattle.image.specs.Records.{record_at};

use parse::{Record, decoded};

// Record k; none where it does not ascend after the one before it. The first has none before it.
pub fn record_after(image: &[u8], k: usize) -> Option<Record>
    requires { k * 40 + 40 ≤ length image.now }
    ensures { result ≡ record_of (record_at k image.now) }
{
    let (records, _) = image.as_chunks::<40>();
    if k == 0 || records[k - 1] < records[k] {
        return decoded(&records[k]);
    }
    None
}
