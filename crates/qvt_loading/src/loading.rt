//! Models read, loaded and written again, with the conditions of the calls asked at run time.

ghost use Rattle.std.specs.Prelude.{◌≡◌, ◌<◌, ◌≤◌, ◌+◌, [], length, IsTrue, IfSome};
ghost use Rattle.qvt_store.specs.Contents.{AreNamed, extent_at, is_extent, is_model, members_of};
ghost use Rattle.qvt_store.specs.Sound.{Sound};
ghost use Rattle.qvt_store.specs.Limits.{most_objects};
ghost use Rattle.qvt_model.specs.Extents.{data_of};
ghost use Rattle.qvt_model.specs.WellFormed.{IsModel};
ghost use Rattle.qvt_model.specs.Written.{model_text};
ghost use Rattle.qvt_model.specs.Conforming.{Conforms};
ghost use Rattle.qvt_model.specs.Loaded.{IsLoadable};

use qvt_base::lists::Bytes;
use qvt_conform::conform::conform;
use qvt_conformed::laws::faultless_conforms;
use qvt_metas::metas::Metas;
use qvt_model::data::ModelData;
use qvt_model::id_table::IdTable;
use qvt_model::load::load;
use qvt_model::read::read_model;
use qvt_model::write::write_model;
use qvt_store::extent::ExtentList;
use qvt_store::limits::MOST_OBJECTS;
use qvt_store::store::Store;
use std::alloc::Global;

/// A store without objects.
pub fn empty_store(alloc: Global, metas: &Metas, extents: &ExtentList) -> Option<Store>
    requires { AreNamed metas.now extents.now }
    ensures store { IfSome result (λ store. store ≡ record { metas = metas.now; extents = extents.now; objects = [] }) }
    ensures sound { IfSome result Sound }
{
    match Store::new(alloc, metas, extents) {
        Ok(store) => Some(store),
        Err(_) => None,
    }
}

/// The model of a text, if it is one of the metamodel, and no fault of it is told.
pub fn read_faultless(
    alloc: Global,
    bytes: &[u8],
    metas: &Metas,
    metamodel: u32,
) -> Option<ModelData>
    requires live { metamodel < length metas.now.metamodels }
    ensures model { IfSome result (λ model. IsModel metas.now metamodel model.objects) }
    ensures conforms { IfSome result (λ model. Conforms metas.now model.objects) }
{
    let Ok(model) = read_model(alloc, bytes, metas, metamodel) else {
        return None;
    };
    faultless_conforms();
    match conform(alloc, &model, metas) {
        Ok(()) => Some(model),
        Err(_) => None,
    }
}

/// Whether the extent is there and has this metamodel.
fn is_extent_of(store: &Store, extent: u32, metamodel: u32) -> bool
    ensures live { IsTrue result → IsTrue (is_extent store.now extent) }
    ensures metamodel { IsTrue result → (extent_at store.now extent).metamodel ≡ metamodel }
    ensures full { IsTrue (is_extent store.now extent) → (extent_at store.now extent).metamodel ≡ metamodel → IsTrue result }
{
    match store.extents().get(extent as usize) {
        None => false,
        Some(known) => known.metamodel == metamodel,
    }
}

/// Whether an extent has no objects.
fn has_no_objects(store: &Store, extent: u32) -> bool
    requires { IsTrue (is_extent store.now extent) }
    ensures empty { IsTrue result → members_of store.now extent ≡ [] }
    ensures full { members_of store.now extent ≡ [] → IsTrue result }
{
    store.extent(extent).is_empty()
}

/// Whether the store has room for the objects of the model.
fn has_room(store: &Store, model: &ModelData) -> bool
    ensures room { IsTrue result → length store.now.objects + length model.now.objects ≤ most_objects }
    ensures full { length store.now.objects + length model.now.objects ≤ most_objects → IsTrue result }
{
    let count = model.objects.len();
    if count > MOST_OBJECTS {
        return false;
    }
    store.len() as usize + count <= MOST_OBJECTS
}

/// Whether the extent has this metamodel and no objects, and the store has room for the model.
fn is_loadable(store: &Store, extent: u32, metamodel: u32, model: &ModelData) -> bool
    requires { IsModel store.now.metas metamodel model.now.objects }
    ensures loadable { IsTrue result → IsLoadable store.now extent model.now.objects }
    ensures full { IsLoadable store.now extent model.now.objects → (extent_at store.now extent).metamodel ≡ metamodel → IsTrue result }
{
    if !is_extent_of(store, extent, metamodel) {
        return false;
    }
    if !has_no_objects(store, extent) {
        return false;
    }
    has_room(store, model)
}

/// Whether the extent is a writable one of a model.
fn is_written(store: &Store, extent: u32) -> bool
    ensures live { IsTrue result → IsTrue (is_extent store.now extent) }
    ensures model { IsTrue result → IsTrue (is_model store.now extent) }
    ensures writable { IsTrue result → IsTrue (extent_at store.now extent).writable }
    ensures full { IsTrue (is_extent store.now extent) → IsTrue (is_model store.now extent) → IsTrue (extent_at store.now extent).writable → IsTrue result }
{
    match store.extents().get(extent as usize) {
        None => false,
        Some(known) => known.writable && !known.name.is_empty(),
    }
}

/// Loads the model of a text into an extent, if it is a model of the metamodel without a fault and can be loaded there. Else the
/// store and the table are to be given up.
pub fn load_text(
    alloc: Global,
    store: &mut Store,
    ids: &mut IdTable,
    bytes: &[u8],
    extent: u32,
    metamodel: u32,
) -> bool
    ensures { Sound store.old → IsTrue result → Sound store.new }
{
    if metamodel >= store.metas().metamodel_count() {
        return false;
    }
    let Some(model) = read_faultless(alloc, bytes, store.metas(), metamodel) else {
        return false;
    };
    if !is_loadable(store, extent, metamodel, &model) {
        return false;
    }
    match load(alloc, store, ids, &model, extent) {
        Ok(()) => true,
        Err(_) => false,
    }
}

/// The text of a sound store's extent, if it is a writable one of a model.
pub fn written_text(alloc: Global, store: &Store, extent: u32) -> Option<Bytes>
    requires { Sound store.now }
    ensures { IfSome result (λ text. text ≡ model_text store.now.metas (data_of store.now extent)) }
{
    if !is_written(store, extent) {
        return None;
    }
    match write_model(alloc, store, extent) {
        Ok(text) => Some(text),
        Err(_) => None,
    }
}
