//! Laws of the limits.
ghost use Rattle.mem_rows.specs.Limits.{NoLimitIsWithin};

/// A memory that passes no limit is within all of them.
pub fn no_limit_is_within()
    ensures { NoLimitIsWithin }
{}
