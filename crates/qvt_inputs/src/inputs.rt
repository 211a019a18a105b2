//! The input models of a job, loaded in its order.

ghost use Rattle.std.specs.Prelude.{◌≡◌, ◌<◌, ◌^◌, [], length, is_some, position, IfErr, IfOk, IfSome, IsTrue, OnOk};
ghost use Rattle.std.specs.Str.{bytes_eq};
ghost use Rattle.qvt_store.specs.Sound.{Sound};
ghost use Rattle.qvt_store.specs.Stay.{StaysIn};
ghost use Rattle.qvt_model.specs.Conforming.{Conforms};
ghost use Rattle.qvt_model.specs.Loaded.{IsLoadable, MembersStay};
ghost use Rattle.qvt_outcome.specs.Follows.{Follows};
ghost use Rattle.qvt_inputs.specs.Inputs.{extent_named, metamodel_of, with_input, input_read, inputs_read, HasExtent, HaveExtents, IsLoaded};
ghost use Rattle.qvt_store.specs.Contents.{Contents};

use crate::conforming::read_conforming;
use crate::loaded::Loaded;
use qvt_base::outside::Files;
use qvt_base::text::Text;
use qvt_job::job::JobModel;
use qvt_model::data::ModelData;
use qvt_model::id_table::IdTable;
use qvt_model::load::load;
use qvt_outcome::stop::Stop;
use qvt_store::extent::Extent;
use qvt_store::law::{stays_is_reflexive, stays_is_transitive};
use qvt_store::store::Store;
use std::alloc::Global;

/// The place of the extent of this name.
fn place_named(extents: &[Extent], name: &str) -> Option<usize>
    ensures { result ≡ position (λ e. bytes_eq name.now e.name) extents.now }
{
    extents
        .iter()
        .position(|extent| name == extent.name.as_str())
}

/// The extent of this name, none where its number does not fit.
fn extent_named(store: &Store, name: &Text) -> Option<u32>
    ensures number { IfSome result (λ e. e ≡ extent_named store.now name.now) }
    ensures fits { length store.now.extents < 2 ^ 32 → IsTrue (is_some result) }
{
    let Some(place) = place_named(store.extents().as_slice(), name.as_str()) else {
        return Some(0);
    };
    if place > u32::MAX as usize {
        return None;
    }
    Some(place as u32)
}

fn metamodel_of(store: &Store, extent: u32) -> u32
    ensures { result ≡ metamodel_of store.now extent }
{
    let extents = store.extents().as_slice();
    let place = extent as usize;
    if place < extents.len() {
        extents[place].metamodel
    } else {
        0
    }
}

/// Loads the model of an input, and tells the ids of its objects.
#[tactic(auto, unfolding(crate::specs::Inputs::with_input))]
fn load_input(
    alloc: Global,
    loaded: &mut Loaded,
    extent: u32,
    model: &ModelData,
) -> Result<(), Stop>
    requires loadable { IsLoadable loaded.old.store extent model.now.objects }
    requires conforms { Conforms loaded.old.store.metas model.now.objects }
    ensures loaded { OnOk result (loaded.new ≡ with_input loaded.old extent model.now.objects) }
    ensures stays { OnOk result (StaysIn loaded.old.store loaded.new.store) }
    ensures others { OnOk result (MembersStay loaded.old.store loaded.new.store extent) }
    ensures keeps { (s : Contents) → IsLoaded s loaded.old → OnOk result (IsLoaded s loaded.new) }
    ensures memory { IfErr result (λ stop. stop ≡ Stop.NoMemory) }
{
    stays_is_transitive();
    match load(alloc, &mut loaded.store, &mut loaded.ids, model, extent) {
        Ok(()) => Ok(()),
        Err(_) => Err(Stop::NoMemory),
    }
}

/// Reads the model of an input, and loads it.
fn read_input<F: Files>(
    alloc: Global,
    files: &mut F,
    loaded: &mut Loaded,
    input: &JobModel,
) -> Result<(), Stop>
    requires extent { HasExtent loaded.old.store input.now }
    ensures follows { Follows (λ _. loaded.new) (input_read loaded.old input.now) (F.seen files.old) result (F.seen files.new) }
    ensures stays { OnOk result (StaysIn loaded.old.store loaded.new.store) }
    ensures others { OnOk result (MembersStay loaded.old.store loaded.new.store (extent_named loaded.old.store input.now.model)) }
    ensures keeps { (s : Contents) → IsLoaded s loaded.old → OnOk result (IsLoaded s loaded.new) }
{
    let store = &loaded.store;
    store.is_whole();
    let Some(extent) = extent_named(store, &input.model) else {
        return Err(Stop::NoMemory);
    };
    let metamodel = metamodel_of(store, extent);
    let before = store.len();
    match read_conforming(alloc, files, store.metas(), metamodel, before, &input.file) {
        Err(stop) => Err(stop),
        Ok(model) => load_input(alloc, loaded, extent, &model),
    }
}

/// Reads the inputs in order, and loads each into the extent that has its name.
pub fn read_inputs<F: Files>(
    alloc: Global,
    files: &mut F,
    store: Store,
    inputs: &[JobModel],
) -> Result<Loaded, Stop>
    requires extents { HaveExtents store inputs.now }
    requires empty { store.objects ≡ [] }
    requires sound { Sound store }
    ensures follows { Follows (λ l. l) (inputs_read store inputs.now) (F.seen files.old) result (F.seen files.new) }
    ensures loaded { IfOk result (λ l. IsLoaded store l) }
{
    stays_is_reflexive();
    let mut loaded = Loaded {
        store,
        ids: IdTable::new(alloc),
    };
    for input in inputs {
        match read_input(alloc, files, &mut loaded, input) {
            Err(stop) => return Err(stop),
            Ok(()) => {}
        }
    }
    Ok(loaded)
}
