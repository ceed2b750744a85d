// Lines from a file that is read in pieces.
ghost use Rattle.std.specs.Prelude.{◌≤◌, length};

use lines::whys::Why;
use std::io::Read;

// Of the piece, the bytes from `at` up to `got` are left.
#[derive(Clone, Copy)]
pub struct Reader {
    piece: [u8; 65536],
    at: usize,
    got: usize,
}

// Where the line ends that the bytes begin with: at an end of a line, or with the bytes.
fn line_end(bytes: &[u8]) -> usize
    ensures { result ≤ length bytes.now }
{
    bytes
        .iter()
        .position(|b| *b == b'\n')
        .unwrap_or(bytes.len())
}

impl Reader {
    pub fn new() -> Reader {
        Reader {
            piece: [0; 65536],
            at: 0,
            got: 0,
        }
    }

    // The next piece; none at the end of the file, or where it cannot be read.
    fn refill(&mut self, file: &mut impl Read) -> bool {
        self.at = 0;
        self.got = file.read(&mut self.piece).unwrap_or(0);
        self.got != 0
    }

    // The next line, without its end, or that the buffer does not hold it; None at the end of the file.
    pub fn next_line<'a>(
        &mut self,
        file: &mut impl Read,
        line: &'a mut [u8],
    ) -> Option<Result<&'a [u8], Why>> {
        let mut len = 0;
        let mut is_long = false;
        // a proved loop has to end, and nothing says that a file does: the pieces are counted, up to a number that no run reaches
        for _ in 0..u64::MAX {
            let rest = self.piece.get(self.at..self.got).unwrap_or_default();
            if rest.is_empty() {
                if self.refill(file) {
                    continue;
                }
                if len == 0 {
                    return None;
                }
                break;
            }
            let end = line_end(rest);
            let taken = end.min(line.len() - len);
            line[len..len + taken].copy_from_slice(&rest[..taken]);
            len += taken;
            is_long = is_long || taken < end;
            self.at += end;
            if end < rest.len() {
                self.at += 1;
                break;
            }
        }
        if is_long {
            return Some(Err(Why::TooLong));
        }
        let line = &line[..len];
        Some(Ok(line.strip_suffix(b"\r").unwrap_or(line)))
    }
}
