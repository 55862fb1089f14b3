//! The messages for options that are known but mean no invocation.

/// The message for a value that `--tariff` does not take.
pub const NO_SUCH_TARIFF: &str = "--tariff takes strict or plain";

/// The message for a value that `--form` does not take.
pub const NO_SUCH_FORM: &str = "--form takes stream, packed or bare";

/// The message for a value that `--at` does not take.
pub const NO_PATH: &str = "--at takes numbers below 2^64, parted by dots";

/// The message for a value that `--number` does not take.
pub const NO_NUMBER: &str = "--number takes 1 to 2^64 - 1, without a sign or leading zeros";

/// The message for a value that `--only` does not take.
pub const NO_LIST: &str = "--only takes ascending numbers and ranges, as 3,7,9-12";

/// The message for a value that `--form` of `pick` and `cmp` does not take.
pub const NO_FRAMED_FORM: &str = "--form takes stream or packed";

/// The message for `--keep-going` of `canonical` without `--framed`.
pub const ONLY_FRAMED: &str = "--keep-going needs --framed";

/// The message for words that mean an invocation, but none of the six commands over messages and bytes.
pub const NO_COMMAND: &str = "this orders no run of show, check, canonical, hash, pack or unpack";
