//! The code points that are written as their numbers.

ghost use Rattle.std.specs.Prelude.{◌≡◌, ◌≤◌, ◌<◌, ◌^◌, drop};
ghost use Rattle.capn_quoted.specs.Hidden as hidden;

/// Returns `true` if the code point `c` is written as its number: nobody sees it, or it turns what others see. (Our
/// own.)
pub fn is_hidden(c: u32) -> bool
    ensures { result ≡ hidden.is_hidden c }
{
    0xad <= c
        && (c == 0xad
            || c == 0x61c
            || c == 0x180e
            || is_from(0x200b, 0x200f, c)
            || is_from(0x2028, 0x202e, c)
            || is_from(0x2060, 0x206f, c)
            || c == 0xfeff
            || is_from(0xfff9, 0xfffb, c)
            || is_from(0xe0000, 0xe007f, c))
}

/// Returns `true` if `n` is from `low` to `high`.
pub(crate) fn is_from(low: u32, high: u32, n: u32) -> bool
    ensures { result ≡ hidden.is_from low high n }
{
    low <= n && n <= high
}

/// Returns `true` if some hidden code point has a number whose hexadecimal digits begin with those of `n`.
pub(crate) fn begins_hidden(n: u32) -> bool
    ensures { result ≡ hidden.begins_hidden n }
{
    n < 0x100000 && (is_hidden(n) || begins_longer(n))
}

/// Returns `true` if `n` and further hexadecimal digits are the number of some hidden code point.
fn begins_longer(n: u32) -> bool
    ensures { result ≡ hidden.begins_longer n }
{
    n == 0xa
        || n == 0x6
        || n == 0x61
        || n == 0x1
        || n == 0x18
        || n == 0x180
        || n == 0x2
        || n == 0x20
        || n == 0x200
        || n == 0x202
        || n == 0x206
        || n == 0xf
        || n == 0xfe
        || n == 0xfef
        || n == 0xff
        || n == 0xfff
        || n == 0xe
        || n == 0xe0
        || n == 0xe00
        || is_from(0xe000, 0xe007, n)
}

/// Returns the hexadecimal digit, in lower case, of `n`, which is below 16.
fn digit(n: u32) -> u8
    requires { n < 16 }
    ensures { result ≡ hidden.digit n }
{
    b"0123456789abcdef"[n as usize]
}

/// Returns the number `n`, which is below 2^20, in five hexadecimal digits, and the place of the first digit that is
/// not zero.
pub fn hexadecimal(n: u32) -> ([u8; 5], usize)
    ensures within { result.1 ≤ 5 }
    ensures digits { drop result.1 result.0 ≡ hidden.hexadecimal n }
{
    let digits = [
        digit(n / 65536 % 16),
        digit(n / 4096 % 16),
        digit(n / 256 % 16),
        digit(n / 16 % 16),
        digit(n % 16),
    ];
    for start in 0..5 {
        if digits[start] != b'0' {
            return (digits, start);
        }
    }
    (digits, 5)
}
