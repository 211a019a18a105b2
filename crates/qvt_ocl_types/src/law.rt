//! The law of types of operations. Each function does nothing: its contract is the law.

ghost use Rattle.qvt_ocl_types.specs.Law.{TypedIsSound};
ghost use Rattle.qvt_ocl_types.specs.Rows.{EachRow};

/// Each row of the table holds: operands of its sorts, none invalid and none null but for items, have a
/// value, and it fits the row's answer.
pub fn rows_hold()
    ensures { EachRow }
{}

/// Where the table gives an operation a type at types of its operands, and the operands fit these, the
/// operation has a value, and it fits that type.
pub fn typed_is_sound()
    ensures { TypedIsSound }
{}
