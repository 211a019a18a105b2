//! Each function does nothing: its contract is the law.

ghost use Rattle.qvt_program_laws.specs.Models.{ModelsAreDeclared, ModelsHaveMetamodels};
ghost use Rattle.qvt_program_laws.specs.Units.{MappingsAreUnits, UnitsAreSigned};

use qvt_typed_laws::laws::accepted_is_judged;
use qvt_types_laws::laws::notes_leave_the_tree;

/// Each model of the header has a metamodel, and it is one of the job's.
pub fn models_have_metamodels()
    ensures { ModelsHaveMetamodels }
{
    accepted_is_judged();
    notes_leave_the_tree();
}

/// The models of a program are those of the header, by name and with their metamodels; and its metamodels are those of the job, and
/// one without a name.
pub fn models_are_declared()
    ensures { ModelsAreDeclared }
{
    accepted_is_judged();
    notes_leave_the_tree();
}

/// Each unit has a signature, and no other has.
pub fn units_are_signed()
    ensures { UnitsAreSigned }
{
    accepted_is_judged();
    notes_leave_the_tree();
}

/// Each number of a mapping is that of a unit, which is a mapping.
pub fn mappings_are_units()
    ensures { MappingsAreUnits }
{
    accepted_is_judged();
    notes_leave_the_tree();
}
