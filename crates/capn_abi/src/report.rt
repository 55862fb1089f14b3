//! The type `CapnReport`, the numbers that a call gives in addition to its status.

ghost use Rattle.std.specs.Prelude.{◌≡◌};
ghost use Rattle.capn_abi.specs.StatusCodes.{at_number, answered};

/// The report that a call gives in addition to its status. A field without a meaning for the status is 0.
#[derive(Clone, Copy)]
#[repr(C)]
pub struct CapnReport {
    /// The number of bytes of the result, or a number that is enough if the buffer is too short. For an incomplete
    /// frame, it is a number of bytes that the frame needs.
    pub length: u64,
    /// The number that belongs to the status: an offset, a count or an index.
    pub at: u64,
    /// The number of words that the walk paid.
    pub paid: u32,
    /// The number of visits that the walk made.
    pub visits: u32,
    /// The segment of the slot at which the walk stopped.
    pub segment: u32,
    /// The word of the slot at which the walk stopped, counted from the start of the segment.
    pub word: u32,
}

/// Returns a report with the number `at`, and 0 in all other fields.
pub fn report_at(at: u64) -> CapnReport
    ensures { result ≡ at_number at }
{
    CapnReport {
        length: 0,
        at,
        paid: 0,
        visits: 0,
        segment: 0,
        word: 0,
    }
}

/// Returns the report of a result of `length` bytes. The walk paid `paid` words and made `visits` visits.
pub fn answer_of(length: u64, paid: u32, visits: u32) -> CapnReport
    ensures { result ≡ answered length paid visits }
{
    CapnReport {
        length,
        paid,
        visits,
        ..report_at(0)
    }
}
