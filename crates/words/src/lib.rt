// The words of a line: bytes between separators, and what a word stands for. No input and no output.
#![tactic(auto)]

ghost use Rattle.std.specs.Prelude.{◌≡◌, ◌≤◌, map, take};
ghost use Rattle.words.specs.Words.{words_in};

pub mod hex;
pub mod numbers;
pub mod paths;
pub mod values;

// The first words of a line; a call has at most seventeen, so eighteen are too many.
#[derive(Clone, Copy)]
pub struct Words<'a> {
    pub at: [&'a [u8]; 18],
    pub count: usize,
}

pub fn words_in(line: &[u8]) -> Words<'_>
    ensures { (result.count ≤ 18) × (map (λ w. w.now) (take result.count result.at) ≡ take 18 (words_in line.now)) }
{
    let mut ws = Words {
        at: [&[]; 18],
        count: 0,
    };
    for word in line
        .split(|b| *b == b' ')
        .filter(|word| !word.is_empty())
        .take(18)
    {
        ws.at[ws.count] = word;
        ws.count += 1;
    }
    ws
}
