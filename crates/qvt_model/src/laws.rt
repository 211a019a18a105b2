ghost use Rattle.qvt_model.specs.Laws.{WrittenModelIsRead, ExtentIsRead};
ghost use Rattle.qvt_model.specs.Loaded.{EachLoadLeaves, LoadEach};
ghost use Rattle.qvt_model.specs.RunIds.{DataHaveRunIds, RunIdsStay};

/// The text that is written for a model is read as the same model.
pub fn written_is_read()
    ensures { WrittenModelIsRead }
{}

/// The text that is written for a model of a sound store is read as the data of its extent.
pub fn extent_is_read()
    ensures { ExtentIsRead }
{}

/// What a loading leaves of the other extents and of the ids that were told, so that the next model
/// can be loaded, and the ids that the loaded objects have in a run.
pub fn load_leaves()
    ensures { EachLoadLeaves }
{}

/// The objects of a writable extent are written with the ids that they have in the run.
pub fn data_have_run_ids()
    ensures { DataHaveRunIds }
{}

/// An object keeps its id through a run.
pub fn run_ids_stay()
    ensures { RunIdsStay }
{}

/// Models that can be loaded into a store as it is, each into an extent of its own, can be loaded
/// one after the other, if there is room for all.
pub fn load_each()
    ensures { LoadEach }
{}
