//! The ids of the objects of a run.

ghost use Rattle.std.specs.Prelude.{◌≡◌, IfOk, IsTrue, Option, option_map};
ghost use Rattle.qvt_store.specs.Contents.{extent_of, is_writable, members_of};
ghost use Rattle.qvt_model.specs.Extents.{numbers, place_within};
ghost use Rattle.qvt_model.specs.RunIds.{file_id, place_id, run_id};
ghost use Rattle.qvt_run_ids.specs.Paths.{model_name, object_path};
ghost use Rattle.qvt_run_ids.specs.Places.{places_of};

use crate::places::places_of;
use qvt_base::list_fault::ListFault;
use qvt_base::numbers::Oid;
use qvt_base::seq::Seq;
use qvt_base::text::Text;
use qvt_model::id_table::IdTable;
use qvt_store::store::Store;
use std::alloc::Global;

/// The ids that the objects of a store have in a run. Where objects stand in their extents is found once, for all of
/// them.
pub struct RunIds<'a> {
    pub store: &'a Store,
    pub ids: &'a IdTable,
    places: Seq<u32>,
    ghost places_are: { places ≡ places_of store.now },
}

impl Drop for RunIds<'_> {
    fn drop(self) {
        let RunIds { store, ids, places } = self;
    }
}

/// The number of the object's extent.
fn extent_of(store: &Store, object: Oid) -> u32
    ensures { result ≡ extent_of store.now object.0 }
{
    if object.0 < store.len() {
        store.extent_of(object)
    } else {
        0
    }
}

/// Whether the extent of the object is writable.
fn is_writable(store: &Store, object: Oid) -> bool
    ensures { result ≡ is_writable store.now object.0 }
{
    let extents = store.extents().as_slice();
    let at = extent_of(store, object) as usize;
    at < extents.len() && extents[at].writable
}

/// The id of the object that stands at this place of a written model, from 0: `o` and its position, from 1.
#[tactic(auto, unfolding(qvt_model::specs::Extents::own_id))]
fn place_id(alloc: Global, place: Option<u32>) -> Result<Text, ListFault>
    ensures { IfOk result (λ id. id ≡ place_id place) }
{
    let Some(place) = place else {
        return Ok(Text::new(alloc));
    };
    let position = place as u64 + 1;
    match format!(in alloc; "o{position}") {
        Ok(id) => Ok(Text::from_string(id)),
        Err(_) => Err(ListFault::NoMemory),
    }
}

/// The id of an object in its file.
fn file_id(alloc: Global, id: Option<&str>) -> Result<Text, ListFault>
    ensures { IfOk result (λ t. t ≡ file_id (option_map (λ s. s.now) id.entry)) }
{
    match id {
        Some(id) => Text::from_str(alloc, id),
        None => Ok(Text::new(alloc)),
    }
}

impl<'a> RunIds<'a> {
    /// The ids of the objects of a store, with those that they have in their files.
    pub fn new(alloc: Global, store: &'a Store, ids: &'a IdTable) -> Result<RunIds<'a>, ListFault>
        ensures store { IfOk result (λ all. all.store.now ≡ store.now) }
        ensures ids { IfOk result (λ all. all.ids.now ≡ ids.now) }
    {
        let places = places_of(alloc, store)?;
        Ok(RunIds { store, ids, places })
    }

    /// Where an object of a writable extent stands in it.
    #[tactic(auto, using(crate::proofs::Placed::place_found))]
    fn place(&self, object: Oid) -> Option<u32>
        ensures { IsTrue (is_writable self.now.store.now object.0) → result ≡ place_within (numbers (members_of self.now.store.now (extent_of self.now.store.now object.0))) object.0 }
    {
        self.places.get(object.0 as usize).copied()
    }

    /// The id of an object: that of its file, or its place in a model that is written.
    pub fn id(&self, alloc: Global, object: Oid) -> Result<Text, ListFault>
        ensures { IfOk result (λ id. id ≡ run_id self.now.store.now self.now.ids.now object.0) }
    {
        if is_writable(self.store, object) {
            return place_id(alloc, self.place(object));
        }
        file_id(alloc, self.ids.id(object))
    }

    /// The name of the object's model; that of intermediate instances is empty.
    pub fn model_name(&self, object: Oid) -> &str
        ensures { result.now ≡ model_name self.now.store.now object.0 }
    {
        let extents = self.store.extents().as_slice();
        let at = extent_of(self.store, object) as usize;
        if at < extents.len() {
            extents[at].name.as_str()
        } else {
            ""
        }
    }

    /// An object by the name of its model and its id.
    pub fn path(&self, alloc: Global, object: Oid) -> Result<Text, ListFault>
        ensures { IfOk result (λ path. path ≡ object_path self.now.store.now self.now.ids.now object.0) }
    {
        let id = self.id(alloc, object)?;
        let mut path = Text::from_str(alloc, self.model_name(object))?;
        path.push_str(":")?;
        path.push_str(id.as_str())?;
        Ok(path)
    }
}
