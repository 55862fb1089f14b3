//! The first lines in which two texts differ.

ghost use Rattle.std.specs.Prelude.{◌≡◌, ◌∷◌, ◌++◌, IfSome};
ghost use Rattle.capn_cmp.specs.LinesApart.{AreApart, IsUnbroken};

/// Splits `bytes` after the first line. Returns the line without its newline, and the bytes after the newline, or
/// `None` if there is no newline.
fn split_line(bytes: &[u8]) -> Option<(&[u8], &[u8])>
    ensures { IfSome result (λ parts. (bytes.now ≡ parts.0.now ++ 10 ∷ parts.1.now) × IsUnbroken parts.0.now) }
{
    for at in 0..bytes.len() {
        if bytes[at] == b'\n' {
            return Some((&bytes[..at], &bytes[at + 1..]));
        }
    }
    None
}

/// Returns the first lines in which `text` and `other` differ, without their newlines. The line of `text` comes first.
/// `None` means that the texts do not differ within the complete lines that both have.
pub(crate) fn lines_apart<'a>(text: &'a [u8], other: &'a [u8]) -> Option<(&'a [u8], &'a [u8])>
    ensures { IfSome result (λ lines. AreApart text.now other.now lines.0.now lines.1.now) }
{
    let mut rest = text;
    let mut left = other;
    while let Some((first, after)) = split_line(rest) {
        match split_line(left) {
            Some((second, behind)) => {
                if first != second {
                    return Some((first, second));
                }
                rest = after;
                left = behind;
            }
            None => return None,
        }
    }
    None
}
