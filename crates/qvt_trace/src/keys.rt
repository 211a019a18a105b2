//! The keys of records: their parts compared by value, and their hashes.

ghost use Rattle.std.specs.Prelude.{◌≡◌};
ghost use Rattle.qvt_run_rules.specs.Trace as rule;
ghost use Rattle.qvt_trace.specs.Keys.{is_of};
ghost use Rattle.qvt_trace.specs.Hashes as hashes;

use qvt_base::numbers::{MappingNo, Oid};
use qvt_run_rules::record::Record;
use qvt_value::value::Value;
use std::hash::{DefaultHasher, Hash, Hasher};

/// Whether both are the same object, or neither is one.
pub fn same_end(some: Option<Oid>, other: Option<Oid>) -> bool
    ensures { result ≡ rule.same_end some other }
{
    match some {
        None => other.is_none(),
        Some(object) => match other {
            None => false,
            Some(end) => object.0 == end.0,
        },
    }
}

/// Whether the arguments are equal by value. It stops at the first difference.
#[tactic(auto, using(crate::proofs::Same::values_alike))]
pub fn same_values(some: &[Value], others: &[Value]) -> bool
    ensures { result ≡ rule.same_values some.now others.now }
{
    some == others
}

/// Whether the record is of a call of the mapping on this context with these arguments.
#[tactic(auto, unfolding(qvt_run_rules::specs::Trace::same_key))]
pub(crate) fn is_of(call: &Record, mapping: MappingNo, context: Option<Oid>, args: &[Value]) -> bool
    ensures { result ≡ is_of mapping context args.now call.now }
{
    call.mapping.0 == mapping.0
        && same_end(call.context, context)
        && same_values(call.args.as_slice(), args)
}

/// A hash of a key (SipHash), of all that the key is.
#[tactic(auto, unfolding(crate::specs::Hashes::key_hash))]
pub(crate) fn key_hash(mapping: MappingNo, context: Option<Oid>, args: &[Value]) -> u64
    ensures { result ≡ hashes.key_hash mapping context args.now }
{
    let mut state = DefaultHasher::new();
    mapping.hash(&mut state);
    context.hash(&mut state);
    args.hash(&mut state);
    state.finish()
}
