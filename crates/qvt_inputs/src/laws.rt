ghost use Rattle.qvt_inputs.specs.Law.{IdsComeInOrder};

/// A law: the table of ids is the list of the ids of all inputs, in order. It does nothing.
pub fn ids_come_in_order()
    ensures { IdsComeInOrder }
{}
