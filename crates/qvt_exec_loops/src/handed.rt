//! The variables of iterators, whose names are handed on from item to item.

ghost use Rattle.std.specs.Prelude.{◌≡◌, take, IfSome, OnOk, OnErr};
ghost use Rattle.std.specs.Option.{option_copied};
ghost use Rattle.qvt_run_rules.specs.Locals.{fixed, name_in};
ghost use Rattle.qvt_exec_state.specs.Runs.{seen, with_local};

use qvt_base::list_fault::ListFault;
use qvt_base::text::Text;
use qvt_exec_state::state::RunState;
use qvt_exec_state::steps::bind;
use qvt_run_data::local::Local;
use qvt_value::value::Value;
use std::alloc::Global;
use std::mem;

/// The text that is handed on, if it is the same as this one.
#[tactic(auto, using(crate::proofs::Scopes::same_text))]
fn taken(name: &Text, handed: &mut Option<Text>) -> Option<Text>
    ensures { IfSome result (λ text. text ≡ name.now) }
{
    let text = mem::replace(handed, None)?;
    if text.as_str() == name.as_str() {
        Some(text)
    } else {
        None
    }
}

/// Declares the variable of an iterator, which may have no name. The text of its name is the one that is handed on, where that is the same.
/// A refused call declares nothing.
pub fn bind_handed(
    alloc: Global,
    state: &mut RunState<'_>,
    name: Option<&Text>,
    handed: &mut Option<Text>,
    value: Value,
) -> Result<(), ListFault>
    ensures ok { OnOk result (seen state.new ≡ with_local (fixed (name_in state.old.locals (option_copied name.entry)) value) (seen state.old)) }
    ensures err { OnErr result (seen state.new ≡ seen state.old) }
{
    if let Some(own) = name {
        if let Some(text) = taken(own, handed) {
            return state.locals.push(Local {
                name: text,
                asked: None,
                value,
            });
        }
    }
    bind(alloc, state, name, value)
}

/// Ends a scope that began behind so many variables, and hands on the name of its variable where it has one alone.
#[tactic(auto, using(crate::proofs::Scopes::all_but_one))]
pub fn end_scope(alloc: Global, state: &mut RunState<'_>, depth: usize) -> Option<Text>
    ensures { seen state.new ≡ record (seen state.old) { locals = take depth state.old.locals } }
{
    if state.locals.len().saturating_sub(depth) != 1 {
        state.locals.truncate(depth);
        return None;
    }
    let mut last = state.locals.pop()?;
    Some(mem::replace(&mut last.name, Text::new(alloc)))
}
