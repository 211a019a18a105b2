ghost use Rattle.std.specs.Prelude.{◌≡◌, ◌++◌, ◌∷◌, OnOk, map};
ghost use Rattle.qvt_tree_types.specs.View.{block_view};
ghost use Rattle.qvt_tree_types.specs.Module as tree;
ghost use Rattle.qvt_tree_types.specs.Module.{MainOf};
ghost use Rattle.qvt_language.specs.Readers.{nowhere};
ghost use Rattle.qvt_printer_layout.specs.declared.piece.PrintPiece.TheVariants.{Line};
ghost use Rattle.qvt_printer.specs.Expressions as expressions;
ghost use Rattle.qvt_printer.specs.Units as printed;

use crate::pieces::Pieces;
use qvt_base::list_fault::ListFault;
use qvt_base::text::Text;
use qvt_language::class::Class;
use qvt_printer_layout::piece::PrintPiece;
use qvt_printer_layout::words::{direction_word, helper_word};
use qvt_tree_types::module::{
    ClassDecl, Field, Helper, Mapping, ModelParam, ModelType, Module, Param, ResultDecl, Unit,
};
use qvt_tree_types::tree::{Expr, Stmt};
use qvt_tree_types::types::PathTree;

fn has_statements(body: &[Stmt]) -> bool
    ensures { result ≡ printed.has_statements (block_view body.now) }
{
    match body.first() {
        None => false,
        Some(_) => true,
    }
}

impl Pieces {
    fn param(&mut self, param: &Param) -> Result<(), ListFault>
        ensures { OnOk result (self.new ≡ self.old ++ printed.typed_name (tree.param_view param.now)) }
    {
        self.name(&param.name)?;
        self.typed(&param.kind)
    }

    fn more_params(&mut self, params: &[Param]) -> Result<(), ListFault>
        ensures { OnOk result (self.new ≡ self.old ++ printed.more_params (map tree.param_view params.now)) }
    {
        for param in params {
            self.word(Class::Comma)?;
            self.param(param)?;
        }
        Ok(())
    }

    fn params(&mut self, params: &[Param]) -> Result<(), ListFault>
        ensures { OnOk result (self.new ≡ self.old ++ printed.params (map tree.param_view params.now)) }
    {
        let Some((first, rest)) = params.split_first() else {
            return Ok(());
        };
        self.param(first)?;
        self.more_params(rest)
    }

    fn field(&mut self, field: &Field) -> Result<(), ListFault>
        ensures { OnOk result (self.new ≡ self.old ++ Line ∷ expressions.ended (printed.typed_name (tree.field_view field.now))) }
    {
        self.put(PrintPiece::Line)?;
        self.name(&field.name)?;
        self.typed(&field.kind)?;
        self.word(Class::Semicolon)
    }

    fn fields(&mut self, fields: &[Field]) -> Result<(), ListFault>
        ensures { OnOk result (self.new ≡ self.old ++ printed.fields (map tree.field_view fields.now)) }
    {
        for field in fields {
            self.field(field)?;
        }
        Ok(())
    }

    /// The word and the paths, where there are some.
    fn listed(&mut self, word: Class, paths: &[PathTree]) -> Result<(), ListFault>
        ensures { OnOk result (self.new ≡ self.old ++ printed.listed word paths.now) }
    {
        if paths.is_empty() {
            return Ok(());
        }
        self.word(word)?;
        self.paths(paths)
    }

    fn class_unit(&mut self, class: &ClassDecl) -> Result<(), ListFault>
        ensures { OnOk result (self.new ≡ self.old ++ printed.class_unit (tree.class_view class.now)) }
    {
        self.word(Class::IntermediateWord)?;
        self.word(Class::ClassWord)?;
        self.name(&class.name)?;
        self.listed(Class::ExtendsWord, class.supers.as_slice())?;
        self.open_block()?;
        self.fields(class.features.as_slice())?;
        self.close_block()
    }

    fn signature(&mut self, path: &[Text], params: &[Param]) -> Result<(), ListFault>
        ensures { OnOk result (self.new ≡ self.old ++ printed.signature path.now (map tree.param_view params.now)) }
    {
        self.names(path)?;
        self.word(Class::OpenRound)?;
        self.params(params)?;
        self.word(Class::CloseRound)
    }

    fn helper_unit(&mut self, helper: &Helper) -> Result<(), ListFault>
        ensures { OnOk result (self.new ≡ self.old ++ printed.helper_unit (tree.helper_view helper.now)) }
    {
        self.word(helper_word(helper.pure))?;
        self.signature(helper.path.as_slice(), helper.params.as_slice())?;
        self.typed_if(&helper.answer)?;
        self.block(helper.body.as_slice())
    }

    fn constructor_unit(&mut self, helper: &Helper) -> Result<(), ListFault>
        ensures { OnOk result (self.new ≡ self.old ++ printed.constructor_unit (tree.helper_view helper.now)) }
    {
        self.word(Class::ConstructorWord)?;
        self.signature(helper.path.as_slice(), helper.params.as_slice())?;
        self.block(helper.body.as_slice())
    }

    fn result_if(&mut self, result_class: &Option<ResultDecl>) -> Result<(), ListFault>
        ensures { OnOk result (self.new ≡ self.old ++ printed.result_if result_class.now) }
    {
        match result_class {
            None => Ok(()),
            Some(declared) => {
                self.word(Class::Colon)?;
                self.path(&declared.path)?;
                self.extent(&declared.extent)
            }
        }
    }

    fn when_if(&mut self, condition: &Option<Expr>) -> Result<(), ListFault>
        ensures { OnOk result (self.new ≡ self.old ++ printed.when_if (tree.condition_view condition.now)) }
    {
        match condition {
            None => Ok(()),
            Some(condition) => {
                self.word(Class::WhenWord)?;
                self.word(Class::OpenBrace)?;
                self.expr(condition)?;
                self.word(Class::CloseBrace)
            }
        }
    }

    /// A section on lines of its own, where it has statements.
    fn section(&mut self, word: Class, body: &[Stmt]) -> Result<(), ListFault>
        ensures { OnOk result (self.new ≡ self.old ++ printed.section word (block_view body.now)) }
    {
        if has_statements(body) {
            self.put(PrintPiece::Line)?;
            self.word(word)?;
            self.block(body)
        } else {
            Ok(())
        }
    }

    fn sections(&mut self, mapping: &Mapping) -> Result<(), ListFault>
        ensures { OnOk result (self.new ≡ self.old ++ printed.sections (tree.mapping_view mapping.now)) }
    {
        self.open_block()?;
        self.section(Class::InitWord, mapping.init.as_slice())?;
        self.section(Class::PopulationWord, mapping.population.as_slice())?;
        self.section(Class::EndWord, mapping.finish.as_slice())?;
        self.close_block()
    }

    fn mapping_body(&mut self, mapping: &Mapping) -> Result<(), ListFault>
        ensures { OnOk result (self.new ≡ self.old ++ printed.mapping_body (tree.mapping_view mapping.now)) }
    {
        if has_statements(mapping.init.as_slice()) || has_statements(mapping.finish.as_slice()) {
            self.sections(mapping)
        } else {
            self.block(mapping.population.as_slice())
        }
    }

    fn extras(&mut self, mapping: &Mapping) -> Result<(), ListFault>
        ensures { OnOk result (self.new ≡ self.old ++ printed.extras (tree.mapping_view mapping.now)) }
    {
        self.listed(Class::InheritsWord, mapping.inherits.as_slice())?;
        self.listed(Class::MergesWord, mapping.merges.as_slice())?;
        self.listed(Class::DisjunctsWord, mapping.disjuncts.as_slice())?;
        self.when_if(&mapping.condition)
    }

    fn mapping_unit(&mut self, mapping: &Mapping) -> Result<(), ListFault>
        ensures { OnOk result (self.new ≡ self.old ++ printed.mapping_unit (tree.mapping_view mapping.now)) }
    {
        self.word(Class::MappingWord)?;
        self.signature(mapping.path.as_slice(), mapping.params.as_slice())?;
        self.result_if(&mapping.result)?;
        self.extras(mapping)?;
        self.mapping_body(mapping)
    }

    fn main_unit(&mut self, body: &[Stmt]) -> Result<(), ListFault>
        ensures { OnOk result (self.new ≡ self.old ++ printed.unit (MainOf (block_view body.now) nowhere)) }
    {
        self.word(Class::MainWord)?;
        self.word(Class::OpenRound)?;
        self.word(Class::CloseRound)?;
        self.block(body)
    }

    fn unit(&mut self, unit: &Unit) -> Result<(), ListFault>
        ensures { OnOk result (self.new ≡ self.old ++ printed.unit (tree.unit_view unit.now)) }
    {
        match unit {
            Unit::Class(class) => self.class_unit(class),
            Unit::Main(body, _) => self.main_unit(body.as_slice()),
            Unit::Helper(helper) => self.helper_unit(helper),
            Unit::Constructor(helper) => self.constructor_unit(helper),
            Unit::Mapping(mapping) => self.mapping_unit(mapping),
        }
    }

    fn units(&mut self, units: &[Unit]) -> Result<(), ListFault>
        ensures { OnOk result (self.new ≡ self.old ++ printed.units (map tree.unit_view units.now)) }
    {
        for unit in units {
            self.unit(unit)?;
            self.put(PrintPiece::Line)?;
        }
        Ok(())
    }

    fn model_type(&mut self, kind: &ModelType) -> Result<(), ListFault>
        ensures { OnOk result (self.new ≡ self.old ++ printed.model_type kind.now) }
    {
        self.word(Class::ModelTypeWord)?;
        self.name(&kind.name)?;
        self.word(Class::UsesWord)?;
        self.quoted(&kind.uri)?;
        self.word(Class::Semicolon)
    }

    fn model_types(&mut self, types: &[ModelType]) -> Result<(), ListFault>
        ensures { OnOk result (self.new ≡ self.old ++ printed.model_types types.now) }
    {
        for kind in types {
            self.model_type(kind)?;
            self.put(PrintPiece::Line)?;
        }
        Ok(())
    }

    fn model_param(&mut self, param: &ModelParam) -> Result<(), ListFault>
        ensures { OnOk result (self.new ≡ self.old ++ printed.model_param param.now) }
    {
        self.word(direction_word(param.direction))?;
        self.name(&param.name)?;
        self.word(Class::Colon)?;
        self.name(&param.model_type)
    }

    fn more_model_params(&mut self, params: &[ModelParam]) -> Result<(), ListFault>
        ensures { OnOk result (self.new ≡ self.old ++ printed.more_model_params params.now) }
    {
        for param in params {
            self.word(Class::Comma)?;
            self.model_param(param)?;
        }
        Ok(())
    }

    fn model_params(&mut self, params: &[ModelParam]) -> Result<(), ListFault>
        ensures { OnOk result (self.new ≡ self.old ++ printed.model_params params.now) }
    {
        let Some((first, rest)) = params.split_first() else {
            return Ok(());
        };
        self.model_param(first)?;
        self.more_model_params(rest)
    }

    fn header(&mut self, transformation: &Module) -> Result<(), ListFault>
        ensures { OnOk result (self.new ≡ self.old ++ printed.header (tree.module_view transformation.now)) }
    {
        self.word(Class::TransformationWord)?;
        self.name(&transformation.name)?;
        self.word(Class::OpenRound)?;
        self.model_params(transformation.params.as_slice())?;
        self.word(Class::CloseRound)?;
        self.word(Class::Semicolon)
    }

    /// The pieces of a transformation.
    #[tactic(auto, unfolding(crate::specs::Units::module_pieces))]
    pub fn transformation(&mut self, transformation: &Module) -> Result<(), ListFault>
        ensures { OnOk result (self.new ≡ self.old ++ printed.module_pieces (tree.module_view transformation.now)) }
    {
        self.model_types(transformation.model_types.as_slice())?;
        self.header(transformation)?;
        self.put(PrintPiece::Line)?;
        self.units(transformation.units.as_slice())
    }
}
