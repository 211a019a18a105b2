//! The state of a run, and of the evaluation of an expression.

ghost use Rattle.std.specs.Prelude.{◌≡◌, [], None};
ghost use Rattle.qvt_live_store.specs.Held.{contents_of};
ghost use Rattle.qvt_exec_state.specs.Runs.{seen};

use crate::cost::Cost;
use qvt_base::numbers::Oid;
use qvt_base::seq::Seq;
use qvt_live_store::held::HeldStore;
use qvt_live_store::live::LiveStore;
use qvt_live_store::store::Store;
use qvt_run_rules::late::LateWrite;
use qvt_run_rules::local::Local;
use qvt_run_rules::record::Key;
use qvt_trace::trace::Trace;
use std::alloc::Global;

/// The store; the variables in scope, the latest last; the object of the innermost object expression;
/// the trace; the keys of the mapping calls that are open; what late assignments keep; and the cost so
/// far. A scope ends where `locals` are cut to those from before it.
pub struct RunState<'s> {
    pub store: HeldStore<'s>,
    pub locals: Seq<Local>,
    pub inner: Option<Oid>,
    pub trace: Trace,
    pub keys: Seq<Key>,
    pub entries: Seq<LateWrite>,
    pub cost: Cost,
}

impl Drop for RunState<'_> {
    fn drop(self) {
        let RunState {
            store,
            locals,
            inner,
            trace,
            keys,
            entries,
            cost,
        } = self;
    }
}

/// Nothing is done yet, over this store, with these variables in scope. It takes no memory.
fn begun<'s>(alloc: Global, store: HeldStore<'s>, locals: Seq<Local>) -> RunState<'s>
    ensures { seen result ≡ record { locals = locals; inner = None; store = contents_of store.entry; trace = []; keys = []; entries = []; cost = 0 } }
{
    RunState {
        store,
        locals,
        inner: None,
        trace: Trace::new(alloc),
        keys: Seq::new(alloc),
        entries: Seq::new(alloc),
        cost: Cost::new(alloc),
    }
}

impl<'s> RunState<'s> {
    /// Before the evaluation of an expression, over a store that is lent. It takes no memory.
    pub fn new(alloc: Global, store: &'s Store, locals: Seq<Local>) -> RunState<'s>
        ensures { seen result ≡ record { locals = locals; inner = None; store = store.now; trace = []; keys = []; entries = []; cost = 0 } }
    {
        begun(alloc, HeldStore::Lent(store), locals)
    }

    /// Before a run, which changes the store. It takes no memory.
    pub fn of_run(alloc: Global, store: LiveStore) -> RunState<'s>
        ensures { seen result ≡ record { locals = []; inner = None; store = store; trace = []; keys = []; entries = []; cost = 0 } }
    {
        begun(alloc, HeldStore::Own(store), Seq::new(alloc))
    }
}
