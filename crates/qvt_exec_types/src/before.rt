//! The types before the steps of an expression, told one after the other.

ghost use Rattle.std.specs.Prelude.{◌≡◌, ◌==◌, ◌-◌, if◌then◌else◌, drop, map, take, IfOk};
ghost use Rattle.qvt_types_nodes.specs.View.{typed_step_view};
ghost use Rattle.qvt_types_program.specs.Program.{program_view};
ghost use Rattle.qvt_meaning.specs.StepTypes as types;
ghost use Rattle.qvt_exec_types.specs.Types.{type_after, type_before};

use crate::steps::step_type;
use qvt_base::list_fault::ListFault;
use qvt_types_data::kinds::kind_of;
use qvt_types_data::ty::{Ty, copied};
use qvt_types_nodes::tree::TypedStep;
use qvt_types_program::program::Program;
use qvt_types_steps::calls::source_kind;
use qvt_value::value::Kind;
use std::alloc::Global;

/// The kind of what an arrow on a source with this type goes over.
pub fn kind_of_source(ty: &Option<Ty>) -> Kind
    ensures { result ≡ types.kind_before ty.now }
{
    match ty {
        None => Kind::Set,
        Some(ty) => kind_of(source_kind(ty)),
    }
}

/// The type behind the steps, by the type of what stands before the first of them.
pub fn type_behind(
    alloc: Global,
    program: &Program,
    first: &Option<Ty>,
    steps: &[TypedStep],
) -> Result<Option<Ty>, ListFault>
    ensures { IfOk result (λ t. t ≡ type_after (program_view program.now) first.now (map typed_step_view steps.now)) }
{
    let mut ty = copied(alloc, first)?;
    for step in steps {
        ty = step_type(alloc, program, step, &ty)?;
    }
    Ok(ty)
}

/// The steps from one place up to another.
#[tactic(auto, using(crate::proofs::Slices::none_between, crate::proofs::Slices::none_behind, crate::proofs::Slices::all_behind))]
fn between(steps: &[TypedStep], from: usize, upto: usize) -> &[TypedStep]
    ensures { result.now ≡ take (upto - from) (drop from steps.now) }
{
    if upto <= from {
        return &steps[..0];
    }
    if steps.len() <= from {
        return &steps[..0];
    }
    if steps.len() <= upto {
        return &steps[from..];
    }
    &steps[from..upto]
}

/// The kind of what stands before step `upto`, by the type of what stands before the first step.
pub fn kind_before(
    alloc: Global,
    program: &Program,
    first: &Option<Ty>,
    steps: &[TypedStep],
    upto: usize,
) -> Result<Kind, ListFault>
    ensures { IfOk result (λ k. k ≡ types.kind_before (type_before (program_view program.now) first.now (map typed_step_view steps.now) upto)) }
{
    Before::new(program, first, steps).kind(alloc, upto)
}

/// The types before the steps of an expression, told as far as they were asked for. A type is told from the last one that was asked for
/// on, so that all of them, asked for in order, cost one pass over the steps.
pub struct Before<'a> {
    program: &'a Program,
    first: &'a Option<Ty>,
    steps: &'a [TypedStep],
    next: usize,
    /// The type before step `next`, but for the first step, before which `first` is.
    ty: Option<Ty>,
    ghost told: { (if next == 0 then first.now else ty) ≡ type_before (program_view program.now) first.now (map typed_step_view steps.now) next },
}

impl<'a> Drop for Before<'a> {
    fn drop(self) {
        let Before {
            program,
            first,
            steps,
            next,
            ty,
        } = self;
    }
}

impl<'a> Before<'a> {
    ghost use Rattle.std.specs.Prelude.{OnOk};
    ghost use Rattle.qvt_exec_types.specs.Post.{post_of, type_at};

    /// Those of an expression with these steps, by the type of what stands before the first. It takes no memory.
    pub fn new(program: &'a Program, first: &'a Option<Ty>, steps: &'a [TypedStep]) -> Before<'a>
        ensures { post_of result ≡ record { program = program_view program.now; first = first.now; steps = map typed_step_view steps.now } }
    {
        Before {
            program,
            first,
            steps,
            next: 0,
            ty: None,
        }
    }

    /// The last type that was asked for.
    fn last(&self) -> &Option<Ty>
        ensures { result.now ≡ type_at (post_of self.now) self.now.next }
    {
        if self.next == 0 { self.first } else { &self.ty }
    }

    /// Goes to the type before step `upto`.
    fn advance(&mut self, alloc: Global, upto: usize) -> Result<(), ListFault>
        ensures same { post_of self.new ≡ post_of self.old }
        ensures there { OnOk result (self.new.next ≡ upto) }
    {
        if upto < self.next {
            self.next = 0;
        }
        if self.next < upto {
            let steps = between(self.steps, self.next, upto);
            let ty = type_behind(alloc, self.program, self.last(), steps)?;
            self.ty = ty;
            self.next = upto;
        }
        Ok(())
    }

    /// The kind of what stands before step `upto`.
    pub fn kind(&mut self, alloc: Global, upto: usize) -> Result<Kind, ListFault>
        ensures same { post_of self.new ≡ post_of self.old }
        ensures kind { IfOk result (λ k. k ≡ types.kind_before (type_at (post_of self.old) upto)) }
    {
        self.advance(alloc, upto)?;
        Ok(kind_of_source(self.last()))
    }
}
