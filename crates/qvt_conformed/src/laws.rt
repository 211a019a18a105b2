//! Laws of the definitions, each on a function that does nothing.

ghost use Rattle.qvt_conformed.specs.Law.{FaultlessConforms};

/// A model of which no fault is told meets the conditions of loading.
pub fn faultless_conforms()
    ensures { FaultlessConforms }
{}
