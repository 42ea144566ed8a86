//! Copies of values.
ghost use Rattle.std.specs.Prelude.{◌≡◌, IfOk};

use crate::{Bytes, NoMemory, Value, Values};
use std::alloc::Global;

impl Value {
    /// An equal value.
    #[cycle(copy)]
    pub fn copy(&self, alloc: Global) -> Result<Value, NoMemory>
        ensures { IfOk result (λ v. v ≡ self.now) }
    {
        Ok(match self {
            Value::Void => Value::Void,
            Value::Leaf(bytes) => Value::Leaf(Bytes::from_slice(alloc, bytes.as_slice())?),
            Value::List(values) => Value::List(values.copy(alloc)?),
        })
    }
}

impl Values {
    /// Equal values.
    #[cycle(copy)]
    pub fn copy(&self, alloc: Global) -> Result<Values, NoMemory>
        ensures { IfOk result (λ vs. vs ≡ self.now) }
    {
        let mut values = Values::new(alloc);
        for i in 0..self.len() {
            values.push(self.get(i).copy(alloc)?)?;
        }
        Ok(values)
    }
}
