//! Lists written into slots.

ghost use Rattle.std.specs.Prelude.{◌≡◌, ◌≢◌, Ok, Err, IfErr, OnOk, OnErr};
ghost use Rattle.qvt_slots.specs.Assign.{write};
ghost use Rattle.qvt_slots.specs.Types.{IsAssignable};
ghost use Rattle.qvt_store_laws.specs.Sound.{Sound};
ghost use Rattle.qvt_store_laws.specs.Stay.{InputsStay, StaysIn};

use crate::store::Store;
use qvt_base::numbers::{FeatureNo, Oid};
use qvt_slots::fault::StoreFault;
use qvt_slots::op::SetOp;
use qvt_value::value::Value;

impl Store {
    /// Writes the values into a slot: `Put` in place of what it holds, as `assign` does, `Add` after
    /// it, as `extend` does. It is one change with one refusal.
    pub fn write(
        &mut self,
        object: Oid,
        feature: FeatureNo,
        op: SetOp,
        values: &[Value],
    ) -> Result<(), StoreFault>
        requires { IsAssignable self.old object.0 feature.0 values.now }
        ensures ok { OnOk result (write self.old object.0 feature.0 op values.now ≡ Ok self.new) }
        ensures refused { IfErr result (λ fault. fault ≢ StoreFault.NoMemory → write self.old object.0 feature.0 op values.now ≡ Err fault) }
        ensures err { OnErr result (self.new ≡ self.old) }
        ensures stays { StaysIn self.old self.new }
        ensures sound { Sound self.old → Sound self.new }
        ensures inputs { Sound self.old → InputsStay self.old self.new }
    {
        match op {
            SetOp::Put => self.assign(object, feature, values),
            SetOp::Add => self.extend(object, feature, values),
        }
    }
}
