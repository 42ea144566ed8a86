//! Whether a call is one of those that fail.
ghost use Rattle.std.specs.Prelude.{◌↔◌, Contains, IsTrue};

/// Whether a call's number is in the list of the calls that fail.
pub fn is_due(fails: &[u64], call: u64) -> bool
    ensures { IsTrue result ↔ Contains fails.now call }
{
    fails.contains(&call)
}
