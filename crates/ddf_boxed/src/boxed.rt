//! A bay over another one, on the heap.
ghost use Rattle.std.specs.Prelude.{◌≡◌, IfOk};
ghost use Rattle.ddf_boxed.specs.Boxing.{inner_of};

use ddf_bay::Bay;
use ddf_bytes::NoMemory;
use std::alloc::Global;

/// A bay that is another one, on the heap: whoever hands it on copies one word, where a bay of many slots takes kilobytes of the stack each time.
#[derive(Drop)]
pub struct Boxed<B> {
    pub(crate) inner: Box<B>,
}

impl<B: Bay + Drop> Boxed<B> {
    /// Puts a bay onto the heap.
    ///
    /// # Errors
    /// Want of memory.
    pub fn new(alloc: Global, inner: B) -> Result<Boxed<B>, NoMemory>
        ensures { IfOk result (λ boxed. inner_of boxed ≡ inner) }
    {
        let inner = Box::new(alloc, inner)?;
        Ok(Boxed { inner })
    }

    /// The bay itself, to be asked.
    pub fn inner(&self) -> &B
        ensures { result.now ≡ inner_of self.now }
    {
        &self.inner
    }

    /// The bay itself.
    pub fn into_inner(self) -> B
        ensures { result ≡ inner_of self }
    {
        Box::into_inner(self.inner)
    }
}
