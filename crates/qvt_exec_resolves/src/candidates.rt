//! The objects that a trace has for a request (QVT 1.3, 8.1.10 and 8.2.1.22).

ghost use Rattle.std.specs.Prelude.{◌≡◌, ◌==◌, ◌<◌, ◌∷◌, [], ℕ, Some, None, IfOk, OnOk, All, length, slice_get};
ghost use Rattle.std.specs.List.{filter_map, list_any};
ghost use Rattle.qvt_run_rules.specs.Trace as rule;
ghost use Rattle.qvt_trace.specs.Numbers.{numbers};
ghost use Rattle.qvt_exec_resolves.specs.Candidates.{AreMappingNumbers, ends_from, ends_of, ends_within, is_near, is_number_in, oids, with_end};
ghost use Rattle.qvt_exec_resolves.specs.Numbers.{has};

use crate::number_set::NumberSet;
use qvt_base::list_fault::ListFault;
use qvt_base::lists::{MappingList, OidList};
use qvt_base::numbers::{ClassNo, MappingNo, Oid};
use qvt_base::seq::Seq;
use qvt_exec_state::store::Store;
use qvt_run_data::record::Record;
use qvt_run_data::request::Request;
use qvt_trace::trace::Trace;
use std::alloc::Global;

/// A request over a store, with the mappings whose records are looked at as they are looked up by hash.
pub struct Sieve<'a> {
    pub store: &'a Store,
    pub request: &'a Request,
    within: Option<NumberSet>,
    ghost within_are: { AreMappingNumbers within request.now.within },
}

impl Drop for Sieve<'_> {
    fn drop(self) {
        let Sieve {
            store,
            request,
            within,
        } = self;
    }
}

/// The numbers of the mappings.
fn numbers_of(alloc: Global, mappings: &[MappingNo]) -> Result<NumberSet, ListFault>
    ensures { IfOk result (λ set. (m : ℕ) → has set m ≡ list_any (λ n. n.0 == m) mappings.now) }
{
    let mut set = NumberSet::new(alloc);
    for mapping in mappings {
        set.add(mapping.0)?;
    }
    Ok(set)
}

/// The same, if not all mappings are looked at.
fn within_of(alloc: Global, within: &Option<MappingList>) -> Result<Option<NumberSet>, ListFault>
    ensures { IfOk result (λ numbers. AreMappingNumbers numbers within.now) }
{
    match within {
        None => Ok(None),
        Some(mappings) => {
            let numbers = numbers_of(alloc, mappings.as_slice())?;
            Ok(Some(numbers))
        }
    }
}

fn is_number_in(numbers: &Option<NumberSet>, number: u32) -> bool
    ensures { result ≡ is_number_in numbers.now number }
{
    match numbers {
        None => true,
        Some(numbers) => numbers.has(number),
    }
}

/// Whether the object is there and of the class.
fn is_object_of(store: &Store, class: ClassNo, object: Oid) -> bool
    ensures { result ≡ rule.is_object_of store.now class.0 object }
{
    object.0 < store.len() && store.metas().descends(store.class_of(object), class)
}

fn far_end(request: &Request, call: &Record) -> Option<Oid>
    ensures { result ≡ rule.far_end request.now call.now }
{
    if request.inverse {
        call.context
    } else {
        call.result
    }
}

/// Puts the object last, if it is of the class and does not stand there.
#[tactic(auto, using(crate::proofs::Ends::put_last))]
fn put_object(
    store: &Store,
    class: ClassNo,
    found: &mut NumberSet,
    object: Oid,
) -> Result<(), ListFault>
    ensures { OnOk result (oids found.new ≡ with_end store.now class.0 (oids found.old) (Some object)) }
{
    if is_object_of(store, class, object) {
        return found.add(object.0);
    }
    Ok(())
}

fn put_end(
    store: &Store,
    class: ClassNo,
    found: &mut NumberSet,
    end: Option<Oid>,
) -> Result<(), ListFault>
    ensures { OnOk result (oids found.new ≡ with_end store.now class.0 (oids found.old) end) }
{
    match end {
        None => Ok(()),
        Some(object) => put_object(store, class, found, object),
    }
}

/// The objects of these numbers.
fn objects_of(alloc: Global, numbers: &[u32]) -> Result<OidList, ListFault>
    ensures { IfOk result (λ objects. objects ≡ oids numbers.now) }
{
    let mut objects = Seq::new(alloc);
    for number in numbers {
        objects.push(Oid(*number))?;
    }
    Ok(objects)
}

impl<'a> Sieve<'a> {
    /// A sieve of the request over the store.
    pub fn new(
        alloc: Global,
        store: &'a Store,
        request: &'a Request,
    ) -> Result<Sieve<'a>, ListFault>
        ensures store { IfOk result (λ s. s.store.now ≡ store.now) }
        ensures request { IfOk result (λ s. s.request.now ≡ request.now) }
    {
        let within = within_of(alloc, &request.within)?;
        Ok(Sieve {
            store,
            request,
            within,
        })
    }

    /// Whether the record is of one of the mappings that are looked at.
    fn is_within(&self, call: &Record) -> bool
        ensures { result ≡ rule.is_within self.now.request.now call.now }
    {
        is_number_in(&self.within, call.mapping.0)
    }

    /// Puts the far end of a record last, if the record is of one of the mappings that are looked at, and the far end
    /// is a candidate that does not stand there.
    #[tactic(auto, using(crate::proofs::Ends::one_within, crate::proofs::Ends::one_without))]
    pub(crate) fn take(&self, found: &mut NumberSet, call: &Record) -> Result<(), ListFault>
        ensures { OnOk result (oids found.new ≡ ends_within self.now.store.now self.now.request.now (oids found.old) (call.now ∷ [])) }
    {
        if self.is_within(call) {
            return put_end(
                self.store,
                self.request.class,
                found,
                far_end(self.request, call),
            );
        }
        Ok(())
    }

    /// The candidates without a source.
    fn all(&self, alloc: Global, records: &[Record]) -> Result<NumberSet, ListFault>
        ensures { IfOk result (λ found. oids found ≡ ends_within self.now.store.now self.now.request.now [] records.now) }
    {
        let mut found = NumberSet::new(alloc);
        for call in records {
            self.take(&mut found, call)?;
        }
        Ok(found)
    }

    /// The same of the records of these numbers, behind what was found.
    fn take_numbered(
        &self,
        trace: &Trace,
        numbers: &[usize],
        found: &mut NumberSet,
    ) -> Result<(), ListFault>
        requires { All (λ n. n < length trace.now) numbers.now }
        ensures { OnOk result (oids found.new ≡ ends_within self.now.store.now self.now.request.now (oids found.old) (filter_map (slice_get trace.now) numbers.now)) }
    {
        for number in numbers {
            self.take(found, trace.at(*number))?;
        }
        Ok(())
    }

    /// The numbers of the records that have the source as their near end.
    fn numbers_from<'t>(&self, trace: &'t Trace, source: Oid) -> &'t [usize]
        ensures within { All (λ n. n < length trace.now) result.now }
        ensures exact { result.now ≡ numbers (is_near self.now.request.now source) trace.now }
    {
        if self.request.inverse {
            trace.with_result(source)
        } else {
            trace.with_context(source)
        }
    }

    /// Puts the candidates from the source last that do not stand there. Only the records of the source are looked at.
    #[tactic(auto, using(crate::proofs::Ends::from_numbered))]
    fn take_from(&self, source: Oid, found: &mut NumberSet, trace: &Trace) -> Result<(), ListFault>
        ensures { OnOk result (oids found.new ≡ ends_from self.now.store.now self.now.request.now source (oids found.old) trace.now) }
    {
        let numbers = self.numbers_from(trace, source);
        self.take_numbered(trace, numbers, found)?;
        Ok(())
    }

    /// The candidates from these sources.
    fn from_each(
        &self,
        alloc: Global,
        sources: &[Oid],
        trace: &Trace,
    ) -> Result<NumberSet, ListFault>
        ensures { IfOk result (λ found. oids found ≡ ends_of self.now.store.now self.now.request.now [] (rule.matched_by self.now.request.now (Some sources.now) trace.now)) }
    {
        let mut found = NumberSet::new(alloc);
        for source in sources {
            self.take_from(*source, &mut found, trace)?;
        }
        Ok(found)
    }

    /// The candidates.
    fn found_in(&self, alloc: Global, trace: &Trace) -> Result<NumberSet, ListFault>
        ensures { IfOk result (λ found. oids found ≡ ends_of self.now.store.now self.now.request.now [] (rule.matched_by self.now.request.now self.now.request.now.sources trace.now)) }
    {
        match &self.request.sources {
            None => self.all(alloc, trace.as_slice()),
            Some(sources) => self.from_each(alloc, sources.as_slice(), trace),
        }
    }
}

/// The candidates for a request: the other ends of the records that it looks at, each where it first
/// stands. Of each source only the records are looked at that have it as their near end; without a source
/// all are.
#[tactic(auto, unfolding(qvt_run_rules::specs::Trace::candidates))]
pub fn candidates(
    alloc: Global,
    trace: &Trace,
    store: &Store,
    request: &Request,
) -> Result<OidList, ListFault>
    ensures { IfOk result (λ objects. objects ≡ rule.candidates trace.now store.now request.now) }
{
    let sieve = Sieve::new(alloc, store, request)?;
    let found = sieve.found_in(alloc, trace)?;
    let objects = objects_of(alloc, found.as_slice())?;
    Ok(objects)
}
