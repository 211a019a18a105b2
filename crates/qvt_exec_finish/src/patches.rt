//! Late entries that are written into their slots (QVT 1.3, 8.1.10).

ghost use Rattle.std.specs.Prelude.{◌≡◌, map, All, IfOk};
ghost use Rattle.qvt_value.specs.declared.value.Value.{Obj};
ghost use Rattle.qvt_run_rules.specs.Store.{fault_of};
ghost use Rattle.qvt_store.specs.Assign.{write};
ghost use Rattle.qvt_store.specs.Types.{IsAssignable};
ghost use Rattle.qvt_live_store.specs.Held.{contents_of};
ghost use Rattle.qvt_run_laws.specs.Entries.{CanBeWritten};
ghost use Rattle.qvt_exec_finish.specs.Entries.{entry_view};
ghost use Rattle.qvt_exec_finish.specs.Patches.{Patches, PatchesAll, WritesPatch};

use crate::entries::Entry;
use crate::stop::RunStop;
use qvt_base::list_fault::ListFault;
use qvt_base::numbers::Oid;
use qvt_base::seq::Seq;
use qvt_live_store::held::HeldStore;
use qvt_run_data::exit::End;
use qvt_run_data::fault::RunFault;
use qvt_run_data::late::LateWrite;
use qvt_store::fault::StoreFault;
use qvt_value::value::{Value, Values};
use std::alloc::Global;

/// The objects as values.
fn values_of(alloc: Global, objects: &[Oid]) -> Result<Values, ListFault>
    ensures { IfOk result (λ values. values ≡ map Obj objects.now) }
{
    let mut values = Seq::new(alloc);
    for object in objects {
        values.push(Value::Obj(*object))?;
    }
    Ok(values)
}

/// The fault that the refusal of a change is.
fn fault_of(refusal: StoreFault) -> RunFault
    ensures { result ≡ fault_of refusal }
{
    match refusal {
        StoreFault::TooMany => RunFault::TooMany,
        StoreFault::ContainmentCycle => RunFault::ContainmentCycle,
        StoreFault::ReadOnly => RunFault::ReadOnly,
        StoreFault::CrossModel => RunFault::CrossModel,
        StoreFault::TooManyObjects => RunFault::TooManyObjects,
        StoreFault::NoMemory => RunFault::TypeFault,
    }
}

/// Writes values that fit into the slot, or the fault of the refusal, at the sign of the assignment.
fn write_fit(late: &LateWrite, values: &[Value], store: &mut HeldStore<'_>) -> Result<(), RunStop>
    requires { IsAssignable (contents_of store.old) late.now.object.0 late.now.feature.0 values.now }
    ensures { WritesPatch (write (contents_of store.old) late.now.object.0 late.now.feature.0 late.now.op values.now) late.now.place result (contents_of store.new) }
{
    match store.write(late.object, late.feature, late.op, values) {
        Ok(()) => Ok(()),
        Err(StoreFault::NoMemory) => Err(RunStop::NoMemory),
        Err(refusal) => Err(RunStop::Ends(End::Fault(fault_of(refusal), late.place))),
    }
}

/// Writes the objects of an entry into its slot, in one change with one refusal.
fn patch(alloc: Global, entry: &Entry, store: &mut HeldStore<'_>) -> Result<(), RunStop>
    requires { CanBeWritten (contents_of store.old) (entry_view entry.now) }
    ensures { Patches (contents_of store.old) entry.now result (contents_of store.new) }
{
    let late = &entry.write;
    let values = values_of(alloc, entry.objects.as_slice())?;
    write_fit(late, values.as_slice(), store)
}

/// Writes all entries in order, up to the first that is refused.
pub fn patch_all(alloc: Global, entries: &[Entry], store: &mut HeldStore<'_>) -> Result<(), RunStop>
    requires { All (CanBeWritten (contents_of store.old)) (map entry_view entries.now) }
    ensures { PatchesAll (contents_of store.old) entries.now result (contents_of store.new) }
{
    for entry in entries {
        patch(alloc, entry, store)?;
    }
    Ok(())
}
