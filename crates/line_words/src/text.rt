//! Lines of bytes, and the bytes that a line can have.
ghost use Rattle.std.specs.Prelude.{◌≡◌, ◌∷◌, ◌<◌, ◌≤◌, ◌^◌, ◌==◌, length};
ghost use Rattle.std.specs.List.{list_all, position};
ghost use Rattle.std.specs.Str.Lines.{lines, strip_carriage_return};
ghost use Rattle.line_words.specs.Words.{is_allowed};

/// The text of the first line, and the lines after it.
pub fn next_line(bytes: &[u8]) -> (&[u8], &[u8])
    requires { 0 < length bytes.now }
    ensures lines { lines bytes.now ≡ result.0.now ∷ lines result.1.now }
    ensures shorter { length result.1.now < length bytes.now }
{
    match line_end(bytes) {
        Some(end) => (without_return(&bytes[..end]), &bytes[end + 1..]),
        None => bytes.split_at(bytes.len()),
    }
}

/// The place of the line feed that ends the first line, if there is one.
fn line_end(bytes: &[u8]) -> Option<usize>
    ensures { result ≡ position (λ b. b == 10) bytes.now }
{
    bytes.iter().position(|byte| *byte == b'\n')
}

/// A line without the carriage return at its end.
pub fn without_return(text: &[u8]) -> &[u8]
    ensures { result.now ≡ strip_carriage_return text.now }
{
    match text {
        [front @ .., b'\r'] => front,
        _ => text,
    }
}

/// Whether each byte of a line is allowed: printable ASCII, or a tab.
pub fn is_clean(text: &[u8]) -> bool
    ensures { result ≡ list_all is_allowed text.now }
{
    let mut clean = true;
    for byte in text {
        clean &= is_allowed(*byte);
    }
    clean
}

/// Whether a script's line can have this byte: printable ASCII, or a tab.
pub fn is_allowed(byte: u8) -> bool
    ensures { result ≡ is_allowed byte }
{
    matches!(byte, b' '..=b'~' | b'\t')
}
