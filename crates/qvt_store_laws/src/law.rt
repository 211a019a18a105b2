//! Laws of the definitions, each on a function that does nothing.

ghost use Rattle.qvt_store_laws.specs.Law.{KeepsOpposites, KeepsOneContainer};
ghost use Rattle.qvt_store_laws.specs.Sound.{NewIsSound, AddKeepsSound, AssignKeepsSound, AppendKeepsSound, WriteKeepsSound, AddKeepsLoading, PlaceKeepsLoading, PlaceKeepsSound};
ghost use Rattle.qvt_store_laws.specs.Stay.{StaysIsReflexive, StaysIsTransitive, AddStays, AssignStays, AppendStays, WriteStays, ReadOnlyStays, InputsStayIsReflexive, InputsStayIsTransitive, AddLeavesInputs, WriteLeavesInputs};

/// A change keeps that opposite slots agree.
pub fn change_keeps_opposites()
    ensures { KeepsOpposites }
{}

/// A change keeps that an object stands in one containment slot at most.
pub fn change_keeps_one_container()
    ensures { KeepsOneContainer }
{}

/// A store with no objects is sound.
pub fn new_is_sound()
    ensures { NewIsSound }
{}

/// One more object keeps a store sound.
pub fn add_keeps_sound()
    ensures { AddKeepsSound }
{}

/// An assignment that is not refused keeps a store sound.
pub fn assign_keeps_sound()
    ensures { AssignKeepsSound }
{}

/// An append that is not refused keeps a store sound.
pub fn append_keeps_sound()
    ensures { AppendKeepsSound }
{}

/// A write that is not refused keeps a store sound.
pub fn write_keeps_sound()
    ensures { WriteKeepsSound }
{}

/// One more object keeps a store that is loaded.
pub fn add_keeps_loading()
    ensures { AddKeepsLoading }
{}

/// A slot that is placed, with a list that a sound store may hold there, keeps a store that is
/// loaded.
pub fn place_keeps_loading()
    ensures { PlaceKeepsLoading }
{}

/// A slot that is placed, of a feature without an opposite and with a list that a sound store may
/// hold there, keeps a store sound.
pub fn place_keeps_sound()
    ensures { PlaceKeepsSound }
{}

/// A store says of its objects what it says.
pub fn stays_is_reflexive()
    ensures { StaysIsReflexive }
{}

/// What stays through a first step and through a second one stays through both.
pub fn stays_is_transitive()
    ensures { StaysIsTransitive }
{}

/// What an object that is added leaves.
pub fn add_stays()
    ensures { AddStays }
{}

/// What an assignment leaves that is not refused.
pub fn assign_stays()
    ensures { AssignStays }
{}

/// What an append leaves that is not refused.
pub fn append_stays()
    ensures { AppendStays }
{}

/// What a write leaves that is not refused.
pub fn write_stays()
    ensures { WriteStays }
{}

/// A write to a sound store leaves the objects of the extents that are not writable as they are.
pub fn read_only_stays()
    ensures { ReadOnlyStays }
{}

/// The objects of extents that are not writable stay where nothing changes.
pub fn inputs_stay_is_reflexive()
    ensures { InputsStayIsReflexive }
{}

/// Where they stay through a first step and through a second one, they stay through both.
pub fn inputs_stay_is_transitive()
    ensures { InputsStayIsTransitive }
{}

/// One more object leaves them.
pub fn add_leaves_inputs()
    ensures { AddLeavesInputs }
{}

/// A write to a sound store leaves them.
pub fn write_leaves_inputs()
    ensures { WriteLeavesInputs }
{}
