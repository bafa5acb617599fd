//! The words of a line: its runs of bytes without a blank.
ghost use Rattle.std.specs.Prelude.{◌≡◌, ◌≤◌, length};
ghost use Rattle.wording.specs.Words.{is_blank, run, Reads, read_word, unread, words};
ghost use Rattle.std.specs.Option.{option_map};

/// The words of a line that are still to be read.
#[derive(Drop)]
pub struct Words<'a> {
    rest: &'a [u8],
}

/// Whether a byte separates words: a space or a tab.
fn is_blank(byte: u8) -> bool
    ensures { result ≡ is_blank byte }
{
    byte == b' ' || byte == b'\t'
}

/// How many bytes in front are blanks, or are not.
fn run(text: &[u8], blanks: bool) -> usize
    ensures count { result ≡ run blanks text.now }
    ensures within { result ≤ length text.now }
{
    text.iter()
        .position(|byte| is_blank(*byte) != blanks)
        .unwrap_or(text.len())
}

impl<'a> Words<'a> {
    /// All words of a line.
    pub fn new(line: &'a [u8]) -> Words<'a>
        ensures { unread result ≡ words line.now }
    {
        Words { rest: line }
    }

    /// The next word, or none at the line's end.
    pub fn next_word(&mut self) -> Option<&'a [u8]>
        ensures { Reads read_word (unread self.old) (option_map (λ x. x.now) result) (unread self.new) }
    {
        let (_, text) = self.rest.split_at(run(self.rest, true));
        let length = run(text, false);
        let (word, rest) = text.split_at(length);
        self.rest = rest;
        if length == 0 { None } else { Some(word) }
    }
}
