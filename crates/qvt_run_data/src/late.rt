use crate::request::Request;
use qvt_base::lists::OidList;
use qvt_base::numbers::{ExprNo, FeatureNo, Oid, Place};
use qvt_slots::op::SetOp;
use qvt_value::value::Vars;

/// What a late assignment keeps (QVT 1.3, 8.1.10): the slot, how it is written, the request, whether
/// one object is looked for, the number of the condition, the variables in scope, and the place of
/// the sign.
pub struct LateWrite {
    pub object: Oid,
    pub feature: FeatureNo,
    pub op: SetOp,
    pub request: Request,
    pub one: bool,
    pub condition: Option<ExprNo>,
    pub vars: Vars,
    pub place: Place,
}

impl Drop for LateWrite {
    fn drop(self) {
        let LateWrite {
            object,
            feature,
            op,
            request,
            one,
            condition,
            vars,
            place,
        } = self;
    }
}

/// What a late assignment writes into its slot in the end.
pub struct LateValue {
    pub object: Oid,
    pub feature: FeatureNo,
    pub op: SetOp,
    pub values: OidList,
    pub place: Place,
}

impl Drop for LateValue {
    fn drop(self) {
        let LateValue {
            object,
            feature,
            op,
            values,
            place,
        } = self;
    }
}
