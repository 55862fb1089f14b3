//! The calls that find the target of a slot step by step, for a message whose reads are counted.

pub use crate::asked::{Asked, CountedTask, CountedWriter};
pub use crate::content::{many_at, node_at, segment_length, size_of};
pub use crate::paid_bytes::PaidBytes;
pub use crate::reader::{CountedSpace, OnlySegment, Reads, count_reads};
pub use crate::slot_target::{near, pointer_at, resolve};
