//! The forms of a message's bytes.

/// A form in which the bytes of one message are written.
#[derive(Clone, Copy, Debug, PartialEq, Eq)]
pub enum Form {
    /// A frame: the table of segments, then the segments. (Page: serialization over a stream.)
    Stream,
    /// The packed text of a frame. (Page: packing.)
    Packed,
    /// The words of one segment, with no table. (Our own.)
    Bare,
}
