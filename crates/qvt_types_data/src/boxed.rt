//! Shared values that contracts see as what they are.

ghost use Rattle.std.specs.Prelude.{◌≡◌, IfOk};

use qvt_base::list_fault::ListFault;
use std::alloc::Global;
use std::marker::Model;
use std::rc::Rc;

/// A value that several may hold, which contracts see as the value, so that a type may hold itself by it.
#[derive(Debug)]
pub struct Boxed<T> {
    inner: Rc<T>,
}

impl<T: Drop> Drop for Boxed<T> {
    fn drop(self) {
        let Boxed { inner } = self;
    }
}

impl<T> Model for Boxed<T> {
    ghost Value = { T };

    ghost coded = { T.code };

    ghost view = { λ b. b.inner.value };
}

impl<T> Boxed<T> {
    /// Lends the value.
    pub fn get(&self) -> &T
        ensures { result.now ≡ self.now }
    {
        self.inner.as_ref()
    }
}

impl<T: Drop> Boxed<T> {
    /// The value, held once.
    pub fn new(alloc: Global, value: T) -> Result<Boxed<T>, ListFault>
        ensures { IfOk result (λ b. b ≡ value) }
    {
        match Rc::new(alloc, value) {
            Ok(inner) => Ok(Boxed { inner }),
            Err(_) => Err(ListFault::NoMemory),
        }
    }

    /// The same value, held once more. It takes no memory.
    pub fn again(&self) -> Result<Boxed<T>, ListFault>
        ensures { IfOk result (λ b. b ≡ self.now) }
    {
        match self.inner.clone() {
            Ok(inner) => Ok(Boxed { inner }),
            Err(_) => Err(ListFault::NoMemory),
        }
    }
}
