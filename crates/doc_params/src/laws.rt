//! Laws, each the contract of a function that does nothing.
ghost use Rattle.doc_params.specs.Docs.{AttrReadsBack, AttrIsPlain};

/// What is written is kept again.
pub fn attr_reads_back()
    ensures { AttrReadsBack }
{}

/// A string that is kept has no bits, and bits that are kept have no string.
pub fn attr_is_plain()
    ensures { AttrIsPlain }
{}
