ghost use Rattle.qvt_readback_trees.specs.Law.{OneText, PrintedIsRead};

/// Its clause is the law that tokens alike but for places to those of a printed tree are read as a tree of its shape. It
/// does nothing.
pub fn printed_is_read()
    ensures { PrintedIsRead }
{}

/// Its clause is the law that trees of one shape have one printed text. It does nothing.
pub fn one_text()
    ensures { OneText }
{}
