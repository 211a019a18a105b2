ghost use Rattle.qvt_relation.specs.Law.{ReachesIsClosure};

/// For a relation that a test decides and whose steps begin below a number, the computed closure
/// holds exactly where the closure does.
pub fn reaches_is_closure()
    ensures { ReachesIsClosure }
{}
