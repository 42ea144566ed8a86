//! A place in a script.
ghost use Rattle.std.specs.Prelude.{◌≡◌, ◌<◌, ◌++◌, ◌∷◌, [], OnOk, OnErr, IfOk, length, slice_get, Some};
ghost use Rattle.ffi3_script_spec.specs.Language.{under, at_item};
ghost use Rattle.ffi3_json.specs.StepOf.{step_of};

use crate::NoMemory;
use std::alloc::Global;
use std::marker::Model;

/// From a value to one inside it.
#[derive(Debug, Drop)]
pub enum Step {
    /// The member of an object.
    Key(String),
    /// The item of an array, from 0.
    Number(u32),
}

impl Step {
    /// An equal step.
    fn copy(&self, alloc: Global) -> Result<Step, NoMemory>
        ensures { IfOk result (λ s. step_of s ≡ step_of self.now) }
    {
        match self {
            Step::Key(name) => Ok(Step::Key(String::from_str(alloc, name.as_str())?)),
            Step::Number(i) => Ok(Step::Number(*i)),
        }
    }
}

/// The keys and numbers from the root to a value.
#[derive(Debug, Drop)]
pub struct Where {
    steps: Vec<Step>,
}

impl Model for Where {
    ghost use Rattle.std.specs.Prelude.{List, map};
    ghost use Rattle.ffi3_script_spec.specs.JsonPath.{PathStep};
    ghost use Rattle.ffi3_json.specs.StepOf.{step_of};

    ghost Value = { List PathStep };

    ghost view = { λ w. map step_of w.steps.items };
}

impl Where {
    /// The root.
    pub fn new(alloc: Global) -> Where
        ensures { result ≡ [] }
    {
        Where {
            steps: Vec::new(alloc),
        }
    }

    /// How many steps there are from the root.
    pub fn len(&self) -> usize
        ensures { result ≡ length self.now }
    {
        self.steps.len()
    }

    /// Step `i` from the root.
    pub fn get(&self, i: usize) -> &Step
        requires { i < length self.now }
        ensures { slice_get self.now i ≡ Some (step_of result.now) }
    {
        &self.steps[i]
    }

    /// One step further. Refused, it leaves the place as it was.
    pub fn push(&mut self, step: Step) -> Result<(), NoMemory>
        ensures ok { OnOk result (self.new ≡ self.old ++ step_of step ∷ []) }
        ensures err { OnErr result (self.new ≡ self.old) }
    {
        self.steps.push(step)?;
        Ok(())
    }

    /// On to the member under a key.
    pub fn push_key(&mut self, alloc: Global, name: &str) -> Result<(), NoMemory>
        ensures { OnOk result (self.new ≡ under self.old name.now) }
    {
        self.push(Step::Key(String::from_str(alloc, name)?))
    }

    /// On to the item of a number.
    pub fn push_number(&mut self, i: u32) -> Result<(), NoMemory>
        ensures { OnOk result (self.new ≡ at_item self.old i) }
    {
        self.push(Step::Number(i))
    }

    /// An equal place.
    pub fn copy(&self, alloc: Global) -> Result<Where, NoMemory>
        ensures { IfOk result (λ w. w ≡ self.now) }
    {
        let mut place = Where::new(alloc);
        for step in &self.steps {
            place.push(step.copy(alloc)?)?;
        }
        Ok(place)
    }
}
