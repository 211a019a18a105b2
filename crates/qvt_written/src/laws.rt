//! What is written conforms. The function does nothing: its contract is the law.

ghost use Rattle.qvt_written.specs.Law.{WrittenConforms};

/// The data that are written for a model of a sound store have no fault, where no object of it has fewer items for a feature
/// than the lower bound: the rest of conformance is kept by every sound store.
pub fn written_conforms()
    ensures { WrittenConforms }
{}
