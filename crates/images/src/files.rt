// Files of images: a length, in some a record number before it, then the bytes.
ghost use Rattle.std.specs.Prelude.{◌≡◌, length};
ghost use Rattle.std.specs.Counts.{IsPrefixLen};

use std::io::Read;

// Reads until the buffer is full, the file ends or a read fails, and answers how many bytes came.
fn read_full(file: &mut impl Read, out: &mut [u8]) -> usize
    ensures { IsPrefixLen result out.new }
{
    let mut done: usize = 0;
    // no `for`: each read says how far it went
    while done < out.len() {
        let n = file.read(&mut out[done..]).unwrap_or(0);
        if n == 0 {
            return done;
        }
        done += n;
    }
    done
}

// A number of four bytes; none where the file has ended.
pub fn number(file: &mut impl Read) -> Option<usize> {
    let mut four = [0u8; 4];
    if read_full(file, &mut four) < 4 {
        return None;
    }
    Some(u32::from_be_bytes(four) as usize)
}

// Room for an image with two records too many.
pub fn space() -> [u8; 18000]
    ensures { 18000 ≡ length result }
{
    [0; 18000]
}

// Reads the next n bytes to the start of the buffer, and answers how many came; none where they don't fit.
pub fn bytes(file: &mut impl Read, n: usize, out: &mut [u8]) -> usize
    ensures { IsPrefixLen result out.new }
{
    if out.len() < n {
        return 0;
    }
    read_full(file, &mut out[..n])
}
