//! What a handle keeps.
ghost use Rattle.std.specs.Prelude.{◌≡◌, IfOk};
ghost use Rattle.std.specs.Arc.{arc_value};

use ffi3_prepared::Prepared;
use std::alloc::{AllocError, Global};
use std::sync::Arc;

/// A prepared interface that several handles share. The last one gives its memory back.
#[derive(Drop)]
pub struct Kept {
    pub prepared: Arc<Prepared>,
}

/// Does nothing. What it is called with may go to another thread, and be read by several at once.
fn crosses<T: Send + Sync>(_kept: &T) {}

impl Kept {
    /// Keeps an interface.
    pub fn new(alloc: Global, prepared: Prepared) -> Result<Box<Kept>, AllocError>
        ensures { IfOk result (λ b. arc_value b.value.prepared ≡ prepared) }
    {
        let Ok(prepared) = Arc::new(alloc, prepared) else {
            return Err(AllocError);
        };
        match Box::new(alloc, Kept { prepared }) {
            Ok(kept) => Ok(kept),
            Err(_) => Err(AllocError),
        }
    }

    /// Keeps the same interface once more. Too many handles are refused, as memory is.
    pub fn share(&self, alloc: Global) -> Result<Box<Kept>, AllocError>
        ensures { IfOk result (λ b. arc_value b.value.prepared ≡ arc_value self.now.prepared) }
    {
        // each handle may be another thread's
        crosses(self);
        let prepared = Arc::try_clone(&self.prepared)?;
        match Box::new(alloc, Kept { prepared }) {
            Ok(kept) => Ok(kept),
            Err(_) => Err(AllocError),
        }
    }
}
