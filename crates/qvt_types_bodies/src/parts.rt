//! The parts of units' heads: `self`, parameters, fields, paths.

ghost use Rattle.std.specs.Prelude.{◌≡◌, map};
ghost use Rattle.qvt_tree_types.specs.Module.{field_view, param_view};
ghost use Rattle.qvt_types_context.specs.Seen.{seen};
ghost use Rattle.qvt_types_states.specs.Does.{GivesAndLeaves};
ghost use Rattle.qvt_types_context.specs.Units as units;

use qvt_base::list_fault::ListFault;
use qvt_base::text::Text;
use qvt_tree_types::module::{Field, Param, ResultDecl};
use qvt_tree_types::types::PathTree;
use qvt_types_context::context::Context;
use qvt_types_context::names::{class_type, made_read, source};
use qvt_types_data::note::Reading;
use qvt_types_data::ruling::Read;
use qvt_types_data::variable::VariableSort;
use qvt_types_rules::leaves::{named_class, written_type};
use qvt_types_rules::objects::extent_of;
use qvt_types_rules::resolves::listed_path;
use qvt_types_states::scope::Known;
use qvt_types_states::state::TypingState;
use qvt_types_states::steps::{add_source, declare, marks, writes_nothing};
use qvt_types_steps::classes::ClassPart;

/// Makes `self` an implicit source, where there is one.
pub fn add_self(x: &Context<'_>, class: ClassPart, state: &mut TypingState) -> Result<(), ListFault>
    ensures { GivesAndLeaves (units.with_self class state.old) result state.new }
{
    match class {
        ClassPart::Missing => Ok(()),
        _ => {
            let name = Text::from_str(x.alloc, "#self")?;
            add_source(source(name, class_type(class)), state)
        }
    }
}

fn param(x: &Context<'_>, param: &Param, state: &mut TypingState) -> Result<(), ListFault>
    ensures { GivesAndLeaves (units.param (seen x.now) (param_view param.now) state.old) result state.new }
{
    let ty = written_type(x, &param.kind, state)?;
    let known = Known {
        sort: VariableSort::Parameter,
        ty,
    };
    declare(x.alloc, param.name.as_str(), known, param.place, state)?;
    writes_nothing(state)
}

pub fn params(x: &Context<'_>, list: &[Param], state: &mut TypingState) -> Result<(), ListFault>
    ensures { GivesAndLeaves (units.params (seen x.now) (map param_view list.now) state.old) result state.new }
{
    for next in list {
        param(x, next, state)?;
    }
    Ok(())
}

/// The classes above an intermediate class.
pub fn supers(x: &Context<'_>, list: &[PathTree], state: &mut TypingState) -> Result<(), ListFault>
    ensures { GivesAndLeaves (units.all_paths (units.super (seen x.now)) list.now state.old) result state.new }
{
    for path in list {
        named_class(x, path, state)?;
    }
    Ok(())
}

/// A list of mappings that a mapping reuses.
pub fn all_reused(
    x: &Context<'_>,
    list: &[PathTree],
    state: &mut TypingState,
) -> Result<(), ListFault>
    ensures { GivesAndLeaves (units.all_paths (units.reused (seen x.now)) list.now state.old) result state.new }
{
    for path in list {
        listed_path(x, path, state)?;
    }
    Ok(())
}

fn field(x: &Context<'_>, field: &Field, state: &mut TypingState) -> Result<(), ListFault>
    ensures { GivesAndLeaves (units.field (seen x.now) (field_view field.now) state.old) result state.new }
{
    written_type(x, &field.kind, state)?;
    writes_nothing(state)
}

pub fn fields(x: &Context<'_>, list: &[Field], state: &mut TypingState) -> Result<(), ListFault>
    ensures { GivesAndLeaves (units.fields (seen x.now) (map field_view list.now) state.old) result state.new }
{
    for next in list {
        field(x, next, state)?;
    }
    Ok(())
}

/// The class and the extent of the object that a mapping makes.
fn result_read(x: &Context<'_>, name: &Option<Text>, class: ClassPart) -> Read
    ensures { result ≡ units.result_read (seen x.now) name.now class }
{
    match class {
        ClassPart::Class(class) => made_read(class, extent_of(x, name, class)),
        _ => Read::plain(Reading::Nothing, None),
    }
}

/// The result class of a mapping.
pub fn result_head(
    x: &Context<'_>,
    declared: &Option<ResultDecl>,
    state: &mut TypingState,
) -> Result<(), ListFault>
    ensures { GivesAndLeaves (units.result_head (seen x.now) declared.now state.old) result state.new }
{
    match declared {
        None => Ok(()),
        Some(declared) => {
            let class = named_class(x, &declared.path, state)?;
            marks(result_read(x, &declared.extent, class), state)?;
            Ok(())
        }
    }
}
