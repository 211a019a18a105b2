ghost use Rattle.qvt_readback_depth.specs.Law.{PrintedIsAsDeep};

/// Its clause is the law that printing opens no more brackets and conditionals at once than the text had, but for one
/// block in two forms of units, each of which must itself have had as many open as the whole text. It does nothing.
pub fn printed_is_as_deep()
    ensures { PrintedIsAsDeep }
{}
