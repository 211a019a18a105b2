//! The keys of mapping calls, and the trace by them (QVT 1.3, 8.1.12).

ghost use Rattle.std.specs.Prelude.{◌≡◌, IfOk};
ghost use Rattle.qvt_run_rules.specs.Mappings as rule;
ghost use Rattle.qvt_run_rules.specs.Trace as trace;
ghost use Rattle.qvt_exec_state.specs.Runs.{Runs, seen};

use qvt_base::copied::Copied;
use qvt_base::list_fault::ListFault;
use qvt_base::numbers::{MappingNo, Oid};
use qvt_exec_state::state::RunState;
use qvt_run_data::exit::Halt;
use qvt_run_data::record::{Key, Record};
use qvt_trace::keys::{same_end, same_values};
use qvt_value::value::Values;
use std::alloc::Global;

/// A key of its own memory.
pub fn key_of(
    alloc: Global,
    mapping: u32,
    context: Option<Oid>,
    args: &Values,
) -> Result<Key, ListFault>
    ensures { IfOk result (λ key. key ≡ rule.key mapping context args.now) }
{
    let args = args.copy(alloc)?;
    Ok(Key {
        mapping: MappingNo(mapping),
        context,
        args,
    })
}

#[tactic(auto, unfolding(qvt_run_rules::specs::Trace::same_key))]
fn same_key(some: &Key, other: &Key) -> bool
    ensures { result ≡ trace.same_key some.now other.now }
{
    some.mapping.0 == other.mapping.0
        && same_end(some.context, other.context)
        && same_values(some.args.as_slice(), other.args.as_slice())
}

/// The result that the trace has for a key, if it has the key. The key is looked up by its hash.
#[tactic(auto, using(qvt_trace::proofs::Results::result_at, qvt_trace::proofs::Results::result_none))]
pub fn result_for(key: &Key, state: &RunState<'_>) -> Option<Option<Oid>>
    ensures { result ≡ trace.result_for key.now (seen state.now).trace }
{
    let args = key.args.as_slice();
    match state.trace.find(key.mapping, key.context, args) {
        None => None,
        Some(number) => Some(state.trace.at(number).result),
    }
}

/// Whether the key is open.
pub fn is_open(key: &Key, state: &RunState<'_>) -> bool
    ensures { result ≡ trace.has_key (seen state.now).keys key.now }
{
    state.keys.as_slice().iter().any(|open| same_key(open, key))
}

/// A record of the call with this result, the latest.
#[tactic(auto, unfolding(qvt_run_rules::specs::Mappings::note))]
pub fn note(
    alloc: Global,
    key: &Key,
    outcome: Option<Oid>,
    state: &mut RunState<'_>,
) -> Result<(), Halt>
    ensures { Runs (rule.note key.now outcome (seen state.old)) result state.new }
{
    let args = key.args.copy(alloc)?;
    let record = Record {
        mapping: key.mapping,
        context: key.context,
        args,
        result: outcome,
    };
    state.trace.add(record)?;
    Ok(())
}
