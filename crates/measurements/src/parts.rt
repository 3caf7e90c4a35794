// Parts of a line.
ghost use Rattle.std.specs.Prelude.{◌≡◌, Some, None, MatchOption, position, ◌==◌};
ghost use Rattle.measurements.specs.Lines.{split_once, unreturned, all_blank, is_skipped};

fn place_of(bytes: &[u8], stop: u8) -> Option<usize>
    ensures { result ≡ position (λ b. b == stop) bytes.now }
{
    bytes.iter().position(|byte| *byte == stop)
}

// What stands before and behind the first `stop`, where there is one: std's `split_once` is for text, and these bytes may be none.
pub fn split_once(bytes: &[u8], stop: u8) -> Option<(&[u8], &[u8])>
    ensures { MatchOption result (split_once stop bytes.now ≡ None) (λ p. split_once stop bytes.now ≡ Some (p.0.now, p.1.now)) }
{
    let place = place_of(bytes, stop)?;
    Some((&bytes[..place], &bytes[place + 1..]))
}

// Whether a line has nothing but spaces and tabs.
pub fn is_blank(line: &[u8]) -> bool
    ensures { result ≡ all_blank line.now }
{
    line.iter().all(|byte| matches!(byte, b' ' | b'\t'))
}

// Whether a line is blank or a comment.
pub fn is_skipped(line: &[u8]) -> bool
    ensures { result ≡ is_skipped line.now }
{
    is_blank(line) || line.starts_with(b"#")
}

// A line without the carriage return that some systems put before a newline.
pub fn without_return(line: &[u8]) -> &[u8]
    ensures { result.now ≡ unreturned line.now }
{
    line.strip_suffix(b"\r").unwrap_or(line)
}
