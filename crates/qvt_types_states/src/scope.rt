//! What is in scope.

ghost use Rattle.std.specs.Prelude.{◌≡◌, [], length, OnOk};
ghost use Rattle.std.specs.Option.{option_copied};
ghost use Rattle.qvt_types_states.specs.Scopes.{found, is_known, with_named, with_source};
ghost use Rattle.std.specs.Prelude.{take, false};

use indexmap::IndexMap;
use qvt_base::list_fault::ListFault;
use qvt_base::seq::Seq;
use qvt_types_data::ty::Ty;
use qvt_types_data::variable::{Variable, VariableSort};
use std::alloc::Global;
use std::marker::Model;

/// What a name in scope is: its sort, and its type, if it has one.
pub struct Known {
    pub sort: VariableSort,
    pub ty: Option<Ty>,
}

impl Drop for Known {
    fn drop(self) {
        let Known { sort, ty } = self;
    }
}

/// The variables in scope, looked up by hash, and the implicit sources, the nearest last.
pub struct Scope {
    named: IndexMap<String, Known>,
    sources: Seq<Variable>,
}

impl Drop for Scope {
    fn drop(self) {
        let Scope { named, sources } = self;
    }
}

impl Model for Scope {
    ghost use Rattle.std.specs.Coded.{codes};
    ghost use Rattle.qvt_types_data.specs.contracts.ty.Ty as ty_row;
    ghost use Rattle.qvt_types_states.specs.Scopes.{ScopeTerm, by_bytes};

    ghost Value = { ScopeTerm };

    ghost coded = { Prim.hlevel (codes, ty_row.the_row.coded) };

    ghost view = { λ s. record { named = by_bytes s.named.entries; sources = s.sources } };
}

impl Scope {
    /// Nothing is in scope. It takes no memory.
    pub fn new(alloc: Global) -> Scope
        ensures { result ≡ record { named = []; sources = [] } }
    {
        Scope {
            named: IndexMap::new(alloc),
            sources: Seq::new(alloc),
        }
    }

    /// What the name is.
    pub fn find(&self, name: &str) -> Option<&Known>
        ensures { option_copied result ≡ found name.now self.now }
    {
        self.named.get(name)
    }

    /// The implicit sources, the nearest last.
    pub fn sources(&self) -> &[Variable]
        ensures { result.now ≡ self.now.sources }
    {
        self.sources.as_slice()
    }

    /// How many variables and implicit sources are in scope.
    pub fn mark(&self) -> (usize, usize)
        ensures { result ≡ (length self.now.named, length self.now.sources) }
    {
        (self.named.len(), self.sources.len())
    }

    /// Leaves these numbers of variables and of implicit sources in scope, the first ones.
    pub fn cut(&mut self, named: usize, sources: usize)
        ensures { self.new ≡ record { named = take named self.old.named; sources = take sources self.old.sources } }
    {
        self.named.truncate(named);
        self.sources.truncate(sources);
    }

    /// Declares a variable whose name is not in scope.
    pub fn add(&mut self, alloc: Global, name: &str, known: Known) -> Result<(), ListFault>
        requires { is_known name.now self.old ≡ false }
        ensures { OnOk result (self.new ≡ with_named name.now known self.old) }
    {
        let Ok(key) = String::from_str(alloc, name) else {
            return Err(ListFault::NoMemory);
        };
        let Ok(_) = self.named.insert(key, known) else {
            return Err(ListFault::NoMemory);
        };
        Ok(())
    }

    /// Adds an implicit source, the nearest.
    pub fn add_source(&mut self, source: Variable) -> Result<(), ListFault>
        ensures { OnOk result (self.new ≡ with_source source self.old) }
    {
        self.sources.push(source)
    }
}
