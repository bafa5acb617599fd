//! What a line is: its end, and whether it gets an answer.
ghost use Rattle.std.specs.Prelude.{◌≡◌};
ghost use Rattle.wording.specs.Lines.{skipped, without_end, without_last};

/// Whether a line, without its end, is empty or a remark, which gets no answer.
pub fn is_skipped(line: &[u8]) -> bool
    ensures { result ≡ skipped line.now }
{
    line.is_empty() || line[0] == b'#'
}

/// A line without this byte at its end, if it ends with it.
fn without_last(line: &[u8], byte: u8) -> &[u8]
    ensures { result.now ≡ without_last byte line.now }
{
    match line {
        [front @ .., last] if *last == byte => front,
        _ => line,
    }
}

/// A line without its end: a line feed, with or without a carriage return before it.
pub fn without_end(line: &[u8]) -> &[u8]
    ensures { result.now ≡ without_end line.now }
{
    let body = without_last(line, b'\n');
    if body.len() < line.len() {
        without_last(body, b'\r')
    } else {
        line
    }
}
