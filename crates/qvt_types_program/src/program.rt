//! A program.

ghost use Rattle.std.specs.Prelude.{◌≡◌};
ghost use Rattle.qvt_types_nodes.specs.Module.{typed_module_view};
ghost use Rattle.qvt_types_nodes.specs.StripModule.{strip};
ghost use Rattle.qvt_types_program.specs.Mappings.{AreNumbered};
ghost use Rattle.qvt_types_program.specs.Tables.{tables_of};

use crate::known::known;
use crate::tables::ProgramTables;
use qvt_base::numbers::MappingNo;
use qvt_tree_types::module::ModelParamList;
use qvt_types_groups::signature::Signature;
use qvt_types_groups::units::Units;
use qvt_types_heads::context::Heads;
use qvt_types_heads::declarations::{Declarations, lent};
use qvt_types_nodes::module::{TypedModule, TypedUnit};
use qvt_types_paths::metas::Metas;
use qvt_types_paths::models::Models;

/// A transformation that is accepted: the tree of its text with a note on each node, and what its heads declare.
pub struct Program {
    pub module: TypedModule,
    declarations: Declarations,
    tables: ProgramTables,
    ghost tables_are: { tables ≡ tables_of (strip (typed_module_view «module»)).params declarations },
    ghost numbered: { AreNumbered 0 declarations.units.units },
}

impl Drop for Program {
    fn drop(self) {
        let Program {
            module,
            declarations,
            tables,
        } = self;
    }
}

impl Program {
    ghost use Rattle.std.specs.Prelude.{option_map};
    ghost use Rattle.std.specs.Option.{option_copied};
    ghost use Rattle.qvt_types_nodes.specs.Module.{typed_unit_view};
    ghost use Rattle.qvt_types_program.specs.Mappings as mappings_of;
    ghost use Rattle.qvt_types_program.specs.Program as words;
    ghost use Rattle.qvt_types_heads.specs.Seen.{heads_seen};

    /// The program of a typed tree, with what its heads declare.
    pub fn new(module: TypedModule, declarations: Declarations, tables: ProgramTables) -> Program
        requires tables { tables ≡ tables_of (strip (typed_module_view «module»)).params declarations }
        requires numbered { AreNumbered 0 declarations.units.units }
        ensures { words.program_view result ≡ words.program_of (typed_module_view «module») declarations }
    {
        Program {
            module,
            declarations,
            tables,
        }
    }

    /// The metamodels of the job, by the same numbers, and after them one without a name, which has Element and the intermediate
    /// classes.
    pub fn metas(&self) -> &Metas
        ensures { result.now ≡ (words.program_view self.now).heads.metas }
    {
        self.declarations.units.metas()
    }

    /// What the heads declare, for the rulings of typing: those on calls and steps do not ask for the metamodels of the job.
    pub fn heads(&self) -> Heads<'_>
        ensures { heads_seen result ≡ words.heads_in (words.program_view self.now) }
    {
        lent(&self.declarations, self.declarations.units.metas())
    }

    /// The units by their names, and which of them is called on objects of a class.
    pub fn units(&self) -> &Units
        ensures metas { result.now.metas ≡ (words.program_view self.now).heads.metas }
        ensures units { result.now.units ≡ (words.program_view self.now).heads.units }
    {
        &self.declarations.units
    }

    /// The signatures of the units, by their numbers.
    pub fn signatures(&self) -> &[Signature]
        ensures { result.now ≡ (words.program_view self.now).heads.units }
    {
        self.declarations.units.names().signatures()
    }

    /// The unit of this number, with its body.
    pub fn unit(&self, number: u32) -> Option<&TypedUnit>
        ensures { option_map typed_unit_view (option_copied result) ≡ words.unit_term (words.program_view self.now) number }
    {
        self.module.units.get(number as usize)
    }

    /// The model parameters, in the order of the header.
    pub fn models(&self) -> &ModelParamList
        ensures { result.now ≡ words.model_params (words.program_view self.now) }
    {
        &self.tables.params
    }

    /// The models by their names, with the metamodel of each, and whether it may be changed.
    pub fn model_table(&self) -> &Models
        ensures { result.now ≡ (words.program_view self.now).heads.models }
    {
        &self.declarations.models
    }

    /// The metamodel of a model, by its place in the header.
    pub fn model_metamodel(&self, model: u32) -> u32
        ensures { result ≡ words.model_metamodel (words.program_view self.now) model }
    {
        let rows = self.declarations.models.rows.as_slice();
        let at = model as usize;
        if at < rows.len() {
            known(rows[at].metamodel)
        } else {
            0
        }
    }

    /// How many mappings there are.
    pub fn mapping_count(&self) -> u32
        ensures { result ≡ mappings_of.mapping_count (words.program_view self.now).heads.units }
    {
        let _units = self.declarations.units.names().count();
        self.tables.mappings.len() as u32
    }

    /// The unit that the mapping is.
    pub fn mapping_unit(&self, mapping: MappingNo) -> Option<u32>
        ensures { result ≡ mappings_of.mapping_unit (words.program_view self.now).heads.units mapping.0 }
    {
        self.tables.mappings.get(mapping.0 as usize).copied()
    }

    /// The name of the mapping in a trace: metamodel, class and name; empty where there is no such mapping.
    pub fn mapping_name(&self, mapping: MappingNo) -> &str
        ensures { result.now ≡ mappings_of.mapping_name (words.program_view self.now).heads.metas (words.program_view self.now).heads.units mapping.0 }
    {
        let names = self.tables.names.as_slice();
        let at = mapping.0 as usize;
        if at < names.len() {
            names[at].as_str()
        } else {
            ""
        }
    }
}
