//! The first bytes of some bytes, and the bytes behind them.

ghost use Rattle.std.specs.Prelude.{◌≡◌, drop, take};

/// Returns the first `count` of `bytes`, or all of them if there are fewer.
pub fn front(bytes: &[u8], count: usize) -> &[u8]
    ensures { result.now ≡ take count bytes.now }
{
    if bytes.len() <= count {
        bytes
    } else {
        &bytes[..count]
    }
}

/// Returns the bytes behind the first `count` of `bytes`, or none if there are fewer.
pub fn behind(bytes: &[u8], count: usize) -> &[u8]
    ensures { result.now ≡ drop count bytes.now }
{
    if bytes.len() <= count {
        &bytes[..0]
    } else {
        &bytes[count..]
    }
}
