//! The trace.

use crate::fault::TraceFault;
use crate::keys::{is_of, key_hash};
use crate::table::Table;
use qvt_base::numbers::{MappingNo, Oid};
use qvt_base::seq::Seq;
use qvt_run_rules::record::Record;
use qvt_value::value::Value;
use std::alloc::Global;
use std::marker::Model;

/// Records in order, which contracts see as their list. Their numbers are looked up by hash: by the hashes of their
/// keys, by their contexts, and by their results.
pub struct Trace {
    records: Seq<Record>,
    by_key: Table<u64>,
    by_context: Table<Option<Oid>>,
    by_result: Table<Option<Oid>>,
}

impl Drop for Trace {
    fn drop(self) {
        let Trace {
            records,
            by_key,
            by_context,
            by_result,
        } = self;
    }
}

impl Model for Trace {
    ghost use Rattle.std.specs.Prelude.{List};
    ghost use Rattle.std.specs.Coded.{codes};
    ghost use Rattle.qvt_value.specs.contracts.value.Value as value;
    ghost use Rattle.qvt_run_rules.specs.declared.record.Record.{Record};
    ghost use Rattle.qvt_trace.specs.Indexed.{IsIndexed};

    ghost Value = { List Record };

    ghost coded = { Prim.hlevel (codes, value.the_row.coded) };

    ghost view = { λ t. t.records };

    ghost invariant = { λ t. IsIndexed t.records t.by_key t.by_context t.by_result };
}

impl Trace {
    ghost use Rattle.std.specs.Prelude.{◌≡◌, ◌<◌, [], ◌∷◌, ◌++◌, length, slice_get, position, All, Some, IfOk, IfSome, OnOk, OnErr};
    ghost use Rattle.qvt_trace.specs.Hashes.{has_hash};
    ghost use Rattle.qvt_trace.specs.Keys.{is_of, has_context, has_result};
    ghost use Rattle.qvt_trace.specs.Numbers.{numbers};

    /// No records. It takes no memory.
    pub fn new(alloc: Global) -> Trace
        ensures { result ≡ [] }
    {
        Trace {
            records: Seq::new(alloc),
            by_key: Table::new(alloc),
            by_context: Table::new(alloc),
            by_result: Table::new(alloc),
        }
    }

    pub fn len(&self) -> usize
        ensures { result ≡ length self.now }
    {
        self.records.len()
    }

    /// The records, in order.
    pub fn as_slice(&self) -> &[Record]
        ensures { result.now ≡ self.now }
    {
        self.records.as_slice()
    }

    /// The record of this number, from 0.
    pub fn at(&self, number: usize) -> &Record
        requires { number < length self.now }
        ensures { slice_get self.now number ≡ Some result.now }
    {
        &self.records.as_slice()[number]
    }

    /// The numbers of the records whose keys have this hash.
    fn with_hash(&self, hash: u64) -> &[usize]
        ensures within { All (λ n. n < length self.now) result.now }
        ensures exact { result.now ≡ numbers (has_hash hash) self.now }
    {
        self.by_key.at(hash)
    }

    /// The numbers of the records with this context, ascending. It is a look-up by hash.
    pub fn with_context(&self, object: Oid) -> &[usize]
        ensures within { All (λ n. n < length self.now) result.now }
        ensures exact { result.now ≡ numbers (has_context object) self.now }
    {
        self.by_context.at(Some(object))
    }

    /// The same with this result.
    pub fn with_result(&self, object: Oid) -> &[usize]
        ensures within { All (λ n. n < length self.now) result.now }
        ensures exact { result.now ≡ numbers (has_result object) self.now }
    {
        self.by_result.at(Some(object))
    }

    /// The number of the first record of this key, whose arguments are compared by value. Only records whose keys have
    /// the same hash are looked at. It takes no memory.
    pub fn find(&self, mapping: MappingNo, context: Option<Oid>, args: &[Value]) -> Option<usize>
        ensures first { result ≡ position (is_of mapping context args.now) self.now }
        ensures within { IfSome result (λ n. n < length self.now) }
    {
        for number in self.with_hash(key_hash(mapping, context, args)) {
            if is_of(self.at(*number), mapping, context, args) {
                return Some(*number);
            }
        }
        None
    }

    /// Puts the record last, and tells its number. After NoMemory the trace is what it was. A record of a key that is
    /// there is put there too, and the first one is found as before.
    pub fn add(&mut self, item: Record) -> Result<usize, TraceFault>
        ensures ok { OnOk result (self.new ≡ self.old ++ item ∷ []) }
        ensures number { IfOk result (λ n. n ≡ length self.old) }
        ensures err { OnErr result (self.new ≡ self.old) }
    {
        let number = self.records.len();
        let hash = key_hash(item.mapping, item.context, item.args.as_slice());
        let context = item.context;
        let made = item.result;
        self.by_key.ready(hash)?;
        self.by_context.ready(context)?;
        self.by_result.ready(made)?;
        self.records.push(item)?;
        self.by_key.note(hash, number);
        self.by_context.note(context, number);
        self.by_result.note(made, number);
        Ok(number)
    }
}
