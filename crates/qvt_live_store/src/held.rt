//! A store that is held, or lent to be read.

ghost use Rattle.std.specs.Prelude.{◌≡◌, ◌≢◌, ◌<◌, length, Ok, Err, IfOk, IfErr, OnOk, OnErr};
ghost use Rattle.qvt_store.specs.Contents.{with_new};
ghost use Rattle.qvt_store.specs.Limits.{most_objects};
ghost use Rattle.qvt_store.specs.Types.{IsAssignable};
ghost use Rattle.qvt_store.specs.Assign.{write};
ghost use Rattle.qvt_store.specs.Fault.{IsAddFault};
ghost use Rattle.qvt_store.specs.Sound.{IsClassFor};
ghost use Rattle.qvt_live_store.specs.Held.{contents_of};

use crate::live::LiveStore;
use qvt_base::numbers::{ClassNo, FeatureNo, Oid};
use qvt_store::fault::StoreFault;
use qvt_store::op::SetOp;
use qvt_store::store::Store;
use qvt_value::value::Value;

/// The store that an evaluation reads, and that a run changes.
pub enum HeldStore<'s> {
    /// It is lent, to be read alone. There is no room to change it in, so a change is told as want of
    /// memory.
    Lent(&'s Store),
    Own(LiveStore),
}

impl Drop for HeldStore<'_> {
    fn drop(self) {
        match self {
            HeldStore::Lent(_) => {}
            HeldStore::Own(store) => {}
        }
    }
}

impl HeldStore<'_> {
    pub fn as_store(&self) -> &Store
        ensures { result.now ≡ contents_of self.now }
    {
        match self {
            HeldStore::Lent(store) => store,
            HeldStore::Own(store) => store.as_store(),
        }
    }

    /// Writes values into a slot, in one change with one refusal. A refused call changes nothing.
    pub fn write(
        &mut self,
        object: Oid,
        feature: FeatureNo,
        op: SetOp,
        values: &[Value],
    ) -> Result<(), StoreFault>
        requires { IsAssignable (contents_of self.old) object.0 feature.0 values.now }
        ensures ok { OnOk result (write (contents_of self.old) object.0 feature.0 op values.now ≡ Ok (contents_of self.new)) }
        ensures refused { IfErr result (λ fault. fault ≢ StoreFault.NoMemory → write (contents_of self.old) object.0 feature.0 op values.now ≡ Err fault) }
        ensures err { OnErr result (self.new ≡ self.old) }
    {
        match self {
            HeldStore::Lent(_) => Err(StoreFault::NoMemory),
            HeldStore::Own(store) => store.write(object, feature, op, values),
        }
    }

    /// Adds an object with empty slots. A refused call changes nothing.
    pub fn add_object(&mut self, class: ClassNo, extent: u32) -> Result<Oid, StoreFault>
        requires { IsClassFor (contents_of self.old) class.0 extent }
        ensures number { IfOk result (λ object. object.0 ≡ length (contents_of self.old).objects) }
        ensures ok { OnOk result (contents_of self.new ≡ with_new (contents_of self.old) class.0 extent) }
        ensures room { OnOk result (length (contents_of self.old).objects < most_objects) }
        ensures refused { IfErr result (λ fault. IsAddFault (length (contents_of self.old).objects) fault) }
        ensures err { OnErr result (self.new ≡ self.old) }
    {
        match self {
            HeldStore::Lent(_) => Err(StoreFault::NoMemory),
            HeldStore::Own(store) => store.add_object(class, extent),
        }
    }
}
