ghost use Rattle.qvt_parsed.specs.Parsed.{IsParsing};

/// Its clause is the law that the function gives the tree of a text exactly where it is that of a
/// transformation, and a fault exactly where it is the first. It does nothing.
pub fn parsing()
    ensures { IsParsing }
{}
