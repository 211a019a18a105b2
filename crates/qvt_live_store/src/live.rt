//! A store that is sound.

ghost use Rattle.std.specs.Prelude.{◌≡◌, ◌≢◌, ◌<◌, length, Ok, Err, IfOk, IfErr, OnOk, OnErr};
ghost use Rattle.qvt_store.specs.Contents.{with_new};
ghost use Rattle.qvt_store.specs.Limits.{most_objects};
ghost use Rattle.qvt_store.specs.Types.{IsAssignable};
ghost use Rattle.qvt_store.specs.Assign.{write};
ghost use Rattle.qvt_store.specs.Fault.{IsAddFault};
ghost use Rattle.qvt_store.specs.Sound.{IsClassFor, Sound};

use qvt_base::numbers::{ClassNo, FeatureNo, Oid};
use qvt_store::fault::StoreFault;
use qvt_store::op::SetOp;
use qvt_store::store::Store;
use qvt_value::value::Value;
use std::marker::Model;

/// A store that is sound, and stays so in each of its changes.
pub struct LiveStore {
    store: Store,
}

impl Drop for LiveStore {
    fn drop(self) {
        let LiveStore { store } = self;
    }
}

impl Model for LiveStore {
    ghost use Rattle.qvt_store.specs.Contents.{Contents};
    ghost use Rattle.qvt_store.specs.Sound.{Sound};
    ghost use Rattle.std.specs.Coded.{codes};
    ghost use Rattle.qvt_value.specs.contracts.value.Value as value;

    ghost Value = { Contents };

    ghost coded = { Prim.hlevel (codes, value.the_row.coded) };

    ghost view = { λ l. l.store };

    ghost invariant = { λ l. Sound l.store };
}

impl LiveStore {
    pub fn new(store: Store) -> LiveStore
        requires { Sound store }
        ensures { result ≡ store }
    {
        LiveStore { store }
    }

    pub fn as_store(&self) -> &Store
        ensures { result.now ≡ self.now }
    {
        &self.store
    }

    /// Writes values into a slot, in one change with one refusal. A refused call changes nothing.
    pub fn write(
        &mut self,
        object: Oid,
        feature: FeatureNo,
        op: SetOp,
        values: &[Value],
    ) -> Result<(), StoreFault>
        requires { IsAssignable self.old object.0 feature.0 values.now }
        ensures ok { OnOk result (write self.old object.0 feature.0 op values.now ≡ Ok self.new) }
        ensures refused { IfErr result (λ fault. fault ≢ StoreFault.NoMemory → write self.old object.0 feature.0 op values.now ≡ Err fault) }
        ensures err { OnErr result (self.new ≡ self.old) }
    {
        self.store.write(object, feature, op, values)
    }

    /// Adds an object with empty slots. A refused call changes nothing.
    pub fn add_object(&mut self, class: ClassNo, extent: u32) -> Result<Oid, StoreFault>
        requires { IsClassFor self.old class.0 extent }
        ensures number { IfOk result (λ object. object.0 ≡ length self.old.objects) }
        ensures ok { OnOk result (self.new ≡ with_new self.old class.0 extent) }
        ensures room { OnOk result (length self.old.objects < most_objects) }
        ensures refused { IfErr result (λ fault. IsAddFault (length self.old.objects) fault) }
        ensures err { OnErr result (self.new ≡ self.old) }
    {
        self.store.add_object(class, extent)
    }
}
