ghost use Rattle.std.specs.Prelude.{◌≡◌, ◌<◌, ◌≤◌, List, ◌∷◌, length, position, MatchResult, IfSome, IsTrue, ◌↔◌};
ghost use Rattle.stage_run.specs.Script.{is_line_end, lines_of, frame_word, IsScript, IsFirstBadLine};

/// The most commands that a script may have.
pub const MOST_COMMANDS: u32 = 100_000;

/// The number of commands of a script, or the number of its first bad line, counted from 1.
pub fn read_script(bytes: &[u8]) -> Result<u32, u32>
    ensures { MatchResult result (IsScript bytes.now) (IsFirstBadLine bytes.now) }
{
    let mut count = 0u32;
    let mut rest = bytes;
    while !rest.is_empty() {
        let (line, after) = split_line(rest);
        if count == MOST_COMMANDS || !is_frame(line) {
            return Err(count + 1);
        }
        count += 1;
        rest = after;
    }
    Ok(count)
}

/// Whether a line says `frame`.
fn is_frame(line: &[u8]) -> bool
    ensures { IsTrue result ↔ (line.now ≡ frame_word) }
{
    line == b"frame".as_slice()
}

/// The first line, without its LF, and what follows the LF.
fn split_line(bytes: &[u8]) -> (&[u8], &[u8])
    requires { 0 < length bytes.now }
    ensures lines { lines_of bytes.now ≡ result.0.now ∷ lines_of result.1.now }
    ensures shorter { length result.1.now < length bytes.now }
{
    let end = line_end(bytes).unwrap_or(bytes.len());
    let next = bytes.len().min(end + 1);
    (&bytes[..end], &bytes[next..])
}

/// The place of the first LF.
fn line_end(bytes: &[u8]) -> Option<usize>
    ensures place { result ≡ position is_line_end bytes.now }
    ensures within { IfSome result (λ end. end < length bytes.now) }
{
    bytes.iter().position(|byte| *byte == b'\n')
}
