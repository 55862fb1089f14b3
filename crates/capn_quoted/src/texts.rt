//! The lists of bytes that are texts.

ghost use Rattle.std.specs.Prelude.{◌≡◌, ◌||◌, ◌==◌};
ghost use Rattle.std.specs.Str.{is_utf8};
ghost use Rattle.capn_quoted.specs.Texts as texts;

/// Returns `true` if `byte` is from 0x20 to 0x7e.
pub(crate) fn is_printable(byte: u8) -> bool
    ensures { result ≡ texts.is_printable byte }
{
    32 <= byte && byte <= 126
}

/// Returns `true` if `byte` is printable or zero, so that `byte` may be the last byte of an ASCII text.
fn ends_text(byte: u8) -> bool
    ensures { result ≡ (texts.is_printable byte || byte == 0) }
{
    is_printable(byte) || byte == 0
}

/// Returns `true` if `bytes` is an ASCII text: at least one byte, each from 0x20 to 0x7e, but the last may also be
/// zero. Takes no memory.
pub fn is_ascii_text(bytes: &[u8]) -> bool
    ensures { result ≡ texts.is_ascii_text bytes.now }
{
    if bytes.is_empty() {
        return false;
    }
    let last = bytes.len() - 1;
    for i in 0..last {
        if !is_printable(bytes[i]) {
            return false;
        }
    }
    ends_text(bytes[last])
}

/// Returns `true` if `byte` is a control character other than tab, newline and carriage return.
fn is_control(byte: u8) -> bool
    ensures { result ≡ texts.is_control byte }
{
    (byte <= 31 && !(byte == b'\t' || byte == b'\n' || byte == b'\r')) || byte == 127
}

/// Returns `true` if `first` and `second`, two consecutive bytes of a UTF-8 text, encode a control character from
/// U+0080 to U+009F.
fn is_long_control(first: u8, second: u8) -> bool
    ensures { result ≡ texts.is_long_control first second }
{
    first == 194 && second <= 159
}

/// Returns `true` if `bytes`, read as UTF-8, contain a control character other than tab, newline and carriage return.
fn has_control(bytes: &[u8]) -> bool
    ensures { result ≡ texts.has_control bytes.now }
{
    if bytes.is_empty() {
        return false;
    }
    let last = bytes.len() - 1;
    for i in 0..last {
        if is_control(bytes[i]) || is_long_control(bytes[i], bytes[i + 1]) {
            return true;
        }
    }
    is_control(bytes[last])
}

/// Returns `true` if `bytes` are well-formed UTF-8.
fn is_well_formed(bytes: &[u8]) -> bool
    ensures { result ≡ is_utf8 bytes.now }
{
    match str::from_utf8(bytes) {
        Ok(_) => true,
        Err(_) => false,
    }
}

/// Returns `true` if the last byte of `bytes` is zero, and the bytes before it are well-formed UTF-8 without control
/// characters other than tab, newline and carriage return. Takes no memory. (RFC 3629.)
pub fn is_clear_text(bytes: &[u8]) -> bool
    ensures { result ≡ texts.is_clear_text bytes.now }
{
    if bytes.is_empty() {
        return false;
    }
    let last = bytes.len() - 1;
    if bytes[last] != 0 {
        return false;
    }
    let front = &bytes[..last];
    is_well_formed(front) && !has_control(front)
}

/// Returns `true` if `bytes` is a text: a list that lines write between quotes. Takes no memory. (Our own.)
pub fn is_text(bytes: &[u8]) -> bool
    ensures { result ≡ texts.is_text bytes.now }
{
    is_ascii_text(bytes) || is_clear_text(bytes)
}
