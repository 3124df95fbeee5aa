// The lines of a text.

ghost use Rattle.std.specs.Prelude.{◌≡◌, ◌+◌, ◌<◌, ◌≤◌, ◌∷◌, length};
ghost use Rattle.std.specs.List.{position_or_len};
ghost use Rattle.dia_lines.specs.Text.{is_end, without_return, lines_of};
ghost use Rattle.dia_lines.specs.FirstLine.{cut_line};

use memchr::memchr;

// The index of the first line feed, or else the length.
fn text_len(bytes: &[u8]) -> usize
    ensures value { result ≡ position_or_len is_end bytes.now }
    ensures within { result ≤ length bytes.now }
{
    memchr(b'\n', bytes).unwrap_or(bytes.len())
}

fn trim_return(text: &[u8]) -> &[u8]
    ensures value { result.now ≡ without_return text.now }
    ensures within { length result.now ≤ length text.now }
{
    match text {
        [front @ .., b'\r'] => front,
        _ => text,
    }
}

fn split_line(bytes: &[u8]) -> (&[u8], &[u8])
    requires { 0 < length bytes.now }
    ensures value { (result.0.now, result.1.now) ≡ cut_line bytes.now }
    ensures shorter { length result.1.now < length bytes.now }
    ensures within { length result.0.now + length result.1.now ≤ length bytes.now }
{
    let len = text_len(bytes);
    if len == bytes.len() {
        (bytes, &bytes[len..])
    } else {
        (trim_return(&bytes[..len]), &bytes[len + 1..])
    }
}

/// The first line without its end, and the bytes after its end.
pub fn next_line(bytes: &[u8]) -> (&[u8], &[u8])
    requires { 0 < length bytes.now }
    ensures cut { (result.0.now, result.1.now) ≡ cut_line bytes.now }
    // The lines are the first one and those of the bytes after it.
    ensures value { lines_of bytes.now ≡ result.0.now ∷ lines_of result.1.now }
    ensures shorter { length result.1.now < length bytes.now }
    ensures within { length result.0.now + length result.1.now ≤ length bytes.now }
{
    split_line(bytes)
}
