//! Tables of names: names by number, and numbers by name.
ghost use Rattle.std.specs.Prelude.{◌≡◌, ℕ, ◌+◌, ◌<◌, ◌^◌, ◌++◌, ◌∷◌, [], List, OnOk, OnErr, length, map};
ghost use Rattle.std.specs.Prelude.{slice_get, Some, None, position, bytes_eq, string_bytes};
ghost use Rattle.std.specs.BTreeMap.{get_by_text};
ghost use Rattle.ffi3_script_spec.specs.Values.{is_name_of};
ghost use Rattle.ffi3_script.specs.Finds.{first_or};

use crate::NoMemory;
use std::alloc::Global;
use std::collections::BTreeMap;
use std::marker::Model;

/// A list of names, in the order of the natives that they name.
#[derive(Debug, Drop)]
pub struct Names {
    names: Vec<String>,
}

impl Model for Names {
    ghost use Rattle.std.specs.Prelude.{List, ℕ, ◌<◌, ◌^◌, length, map, string_bytes};

    ghost Value = { List (List ℕ) };

    ghost view = { λ n. map string_bytes n.names.items };

    ghost invariant = { λ n. length n.names.items < 2 ^ 32 };
}

impl Names {
    /// No names.
    pub fn new(alloc: Global) -> Names
        ensures { result ≡ [] }
    {
        Names {
            names: Vec::new(alloc),
        }
    }

    /// How many names there are.
    pub fn len(&self) -> usize
        ensures count { result ≡ length self.now }
        ensures bound { length self.now < 2 ^ 32 }
    {
        self.names.len()
    }

    /// Name `i`.
    pub fn get(&self, i: usize) -> &str
        requires { i < length self.now }
        ensures { slice_get self.now i ≡ Some result.now }
    {
        self.names[i].as_str()
    }

    /// One more name at the end. Refused, it leaves the list as it was.
    pub fn push(&mut self, name: String) -> Result<(), NoMemory>
        requires { length self.old + 1 < 2 ^ 32 }
        ensures ok { OnOk result (self.new ≡ self.old ++ string_bytes name ∷ []) }
        ensures err { OnErr result (self.new ≡ self.old) }
    {
        self.names.push(name)?;
        Ok(())
    }
}

/// Things by number, each with a name or without one.
#[derive(Drop)]
pub(crate) struct NameIndex {
    names: Vec<Option<String>>,
    // the number of the first thing of each name
    numbers: BTreeMap<String, usize>,
}

impl Model for NameIndex {
    ghost use Rattle.std.specs.Prelude.{List, ℕ, Option, map, option_map, string_bytes};

    ghost Value = { List (Option (List ℕ)) };

    ghost use Rattle.ffi3_script.specs.Finds.{FindsFirst};

    ghost view = { λ n. map (option_map string_bytes) n.names.items };

    ghost invariant = { λ n. FindsFirst n.numbers (map (option_map string_bytes) n.names.items) };
}

impl NameIndex {
    /// Nothing.
    pub(crate) fn new(alloc: Global) -> NameIndex
        ensures { result ≡ [] }
    {
        NameIndex {
            names: Vec::new(alloc),
            numbers: BTreeMap::new(alloc),
        }
    }

    /// One more thing, without a name.
    pub(crate) fn push_unnamed(&mut self) -> Result<(), NoMemory>
        ensures { OnOk result (self.new ≡ self.old ++ None ∷ []) }
    {
        self.names.push(None)?;
        Ok(())
    }

    /// One more thing, of this name. Refused, it leaves the list as it was.
    pub(crate) fn push_named(&mut self, alloc: Global, name: &str) -> Result<(), NoMemory>
        ensures ok { OnOk result (self.new ≡ self.old ++ Some name.now ∷ []) }
        ensures err { OnErr result (self.new ≡ self.old) }
    {
        let number = self.names.len();
        let copy = String::from_str(alloc, name)?;
        self.names.push(Some(copy))?;
        if let Err(refused) = number_name(&mut self.numbers, alloc, name, number) {
            self.names.truncate(number);
            return Err(refused);
        }
        Ok(())
    }

    /// The number of the first thing of a name.
    pub(crate) fn find(&self, name: &str) -> Option<usize>
        ensures { result ≡ position (is_name_of name.now) self.now }
    {
        self.numbers.get(name).copied()
    }
}

/// Gives a name this number, where it has none yet.
fn number_name(
    numbers: &mut BTreeMap<String, usize>,
    alloc: Global,
    name: &str,
    number: usize,
) -> Result<(), NoMemory>
    ensures ok { OnOk result
        ((q : List ℕ) → get_by_text numbers.new q ≡ first_or (get_by_text numbers.old q) (bytes_eq q name.now) number) }
    ensures err { OnErr result ((q : List ℕ) → get_by_text numbers.new q ≡ get_by_text numbers.old q) }
{
    if numbers.contains_key(name) {
        return Ok(());
    }
    let key = String::from_str(alloc, name)?;
    numbers.insert(key, number)?;
    Ok(())
}

/// Names of functions by number, and their numbers by name.
#[derive(Drop)]
pub(crate) struct FunctionNames {
    index: NameIndex,
}

impl Model for FunctionNames {
    ghost use Rattle.std.specs.Prelude.{◌≡◌, List, ℕ, Some, map};
    ghost use Rattle.ffi3_script.specs.Texts.{texts_of};

    ghost Value = { List (List ℕ) };

    ghost view = { λ f. texts_of f.index };

    ghost invariant = { λ f. f.index ≡ map (λ name. Some name) (texts_of f.index) };
}

impl FunctionNames {
    /// No names.
    pub(crate) fn new(alloc: Global) -> FunctionNames
        ensures { result ≡ [] }
    {
        FunctionNames {
            index: NameIndex::new(alloc),
        }
    }

    /// One more name.
    pub(crate) fn push(&mut self, alloc: Global, name: &str) -> Result<(), NoMemory>
        ensures { OnOk result (self.new ≡ self.old ++ name.now ∷ []) }
    {
        self.index.push_named(alloc, name)?;
        Ok(())
    }

    /// The number of the first function of a name.
    pub(crate) fn find(&self, name: &str) -> Option<usize>
        ensures { result ≡ position (bytes_eq name.now) self.now }
    {
        self.index.find(name)
    }

    /// The same names, each that of a thing.
    pub(crate) fn index(&self) -> &NameIndex
        ensures { result.now ≡ map (λ name. Some name) self.now }
    {
        &self.index
    }
}
