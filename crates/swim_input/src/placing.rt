//! Where in the text of a TOML file a key stands.

/// Whether a line gives a key its value.
fn is_of(line: &[u8], key: &str) -> bool {
    match line.trim_ascii_start().strip_prefix(key.as_bytes()) {
        Some(rest) => rest.trim_ascii_start().starts_with(b"="),
        None => false,
    }
}

/// The first line of a text that gives this key its value, counted from 1; none where no line begins with it, as where it is quoted.
pub fn key_line(text: &[u8], key: &str) -> Option<usize> {
    for (place, line) in text.split(|byte| *byte == b'\n').enumerate() {
        if is_of(line, key) {
            return Some(place.saturating_add(1));
        }
    }
    None
}
