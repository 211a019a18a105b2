use qvt_base::seq::Seq;

/// Numbers from 0, such as the positions of objects in their model.
pub type Positions = Seq<u32>;
