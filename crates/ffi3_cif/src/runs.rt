//! The bytes of arguments that stand on the stack, in runs.

ghost use Rattle.std.specs.Prelude.{◌≡◌, ◌+◌, ◌<◌, ◌≤◌, ◌^◌, ◌++◌, List, [], ◌∷◌, length, replicate, slice_index_or, IfOk, OnOk, OnErr};
ghost use Rattle.std.specs.List.{AllByRecursion};
ghost use Rattle.ffi3_type_spec.specs.declared.limits.TheConstants.{LARGEST_TYPE};
ghost use Rattle.ffi3_place_spec.specs.Sound.{AreRising, PlaceRises};
ghost use Rattle.ffi3_cif.specs.Runs.{AreRunsOf, EndsWithin, PlaceEndsWithin, PlacesHaveRuns, HasNoRuns, pieces_of, run_at, goes_on, some_run, glued};

use ffi3_place::{Loc, Piece, Pieces, Place, Places};
use ffi3_place_spec::Listed;
use ffi3_types::NoMemory;
use std::alloc::Global;
use std::marker::Model;

/// `len` bytes of a value, from `off` on, stand from byte `at` of the stack arguments on.
#[derive(Clone, Copy, Debug, PartialEq, Eq)]
pub struct Run {
    pub at: u32,
    pub off: u32,
    pub len: u32,
}

/// The bytes of an argument that stand on the stack, in as few runs as they make.
#[derive(Debug, Drop)]
pub struct Runs {
    items: Vec<Run>,
}

impl Model for Runs {
    ghost use Rattle.std.specs.Prelude.{List};
    ghost use Rattle.ffi3_cif.specs.declared.runs.Run.{Run};

    ghost Value = { List Run };

    ghost view = { λ f. f.items.items };
}

impl Runs {
    fn new(alloc: Global) -> Runs
        ensures { result ≡ [] }
    {
        Runs {
            items: Vec::new(alloc),
        }
    }

    /// One more run, if it has bytes. Refused, it leaves the list as it was.
    fn push(&mut self, run: Run) -> Result<(), NoMemory>
        ensures ok { OnOk result (self.new ≡ self.old ++ some_run run) }
        ensures err { OnErr result (self.new ≡ self.old) }
    {
        if run.len > 0 {
            self.items.push(run)?;
        }
        Ok(())
    }

    /// How many runs there are.
    pub fn len(&self) -> usize
        ensures { result ≡ length self.now }
    {
        self.items.len()
    }

    /// Run `i`.
    pub fn get(&self, i: usize) -> Run
        requires { i < length self.now }
        ensures { result ≡ slice_index_or self.now i result }
    {
        self.items[i]
    }
}

/// The runs of each argument. Of arguments without any that come last only the number is kept.
#[derive(Drop)]
pub struct AllRuns {
    listed: Listed<Runs>,
    none: Runs,
    more: usize,
}

impl Model for AllRuns {
    ghost use Rattle.std.specs.Prelude.{◌≡◌, ◌++◌, List, [], replicate};
    ghost use Rattle.ffi3_cif.specs.declared.runs.Run.{Run};

    ghost Value = { List (List Run) };

    ghost view = { λ a. a.listed ++ replicate a.more [] };

    ghost invariant = { λ a. a.none ≡ [] };
}

impl AllRuns {
    /// So many arguments without runs.
    fn empty(alloc: Global, count: usize) -> AllRuns
        ensures { result ≡ replicate count [] }
    {
        AllRuns {
            listed: Listed::new(alloc),
            none: Runs::new(alloc),
            more: count,
        }
    }

    /// The runs of one argument more.
    fn push(&mut self, alloc: Global, runs: Runs) -> Result<(), NoMemory>
        requires { length self.old + 1 < 2 ^ 64 }
        ensures { OnOk result (self.new ≡ self.old ++ runs ∷ []) }
    {
        if runs.len() == 0 {
            self.more += 1;
            return Ok(());
        }
        push_empty(alloc, self.more, &mut self.listed)?;
        self.more = 0;
        self.listed.push(runs)?;
        Ok(())
    }

    /// Those of argument `i`.
    pub fn get(&self, i: usize) -> &Runs
        requires { i < length self.now }
        ensures { result.now ≡ slice_index_or self.now i result.now }
    {
        if i < self.listed.len() {
            self.listed.get(i)
        } else {
            &self.none
        }
    }
}

/// So many arguments without runs at the end of a list.
fn push_empty(alloc: Global, count: usize, listed: &mut Listed<Runs>) -> Result<(), NoMemory>
    ensures { OnOk result (listed.new ≡ listed.old ++ replicate count []) }
{
    for _k in 0..count {
        listed.push(Runs::new(alloc))?;
    }
    Ok(())
}

/// The bytes of a piece that stands on the stack.
fn run_at(piece: &Piece) -> Option<Run>
    ensures { result ≡ run_at piece.now.loc piece.now }
{
    match piece.loc {
        Loc::S(at, _) => Some(Run {
            at,
            off: piece.off,
            len: piece.len as u32,
        }),
        Loc::G(_) => None,
        Loc::F(_) => None,
    }
}

/// Whether the second run goes on where the first ends, in the value and on the stack.
fn goes_on(run: Run, next: Run) -> bool
    ensures { result ≡ goes_on run next }
{
    run.at as u64 + run.len as u64 == next.at as u64
        && run.off as u64 + run.len as u64 == next.off as u64
}

/// The run to which more may be added, with bytes that come next. What they do not make longer is whole.
fn with_next(runs: &mut Runs, run: Run, next: Run) -> Result<Run, NoMemory>
    requires { next.off + next.len ≤ LARGEST_TYPE }
    ensures { IfOk result
        (λ r. ((rest : List Run) → runs.new ++ glued r rest ≡ runs.old ++ glued run (next ∷ rest))) }
{
    if next.len == 0 {
        return Ok(run);
    }
    if goes_on(run, next) {
        return Ok(Run {
            at: run.at,
            off: run.off,
            len: run.len + next.len,
        });
    }
    runs.push(run)?;
    Ok(next)
}

/// The runs of the pieces that stand on the stack. No type has more than `LARGEST_TYPE` bytes.
fn runs_of(alloc: Global, pieces: &Pieces) -> Result<Runs, NoMemory>
    requires within { AllByRecursion (EndsWithin LARGEST_TYPE) pieces.now }
    requires rising { AreRising pieces.now }
    ensures { IfOk result (λ r. AreRunsOf pieces.now r) }
{
    let mut runs = Runs::new(alloc);
    let mut run = Run {
        at: 0,
        off: 0,
        len: 0,
    };
    for i in 0..pieces.len() {
        if let Some(next) = run_at(pieces.get(i)) {
            run = with_next(&mut runs, run, next)?;
        }
    }
    runs.push(run)?;
    Ok(runs)
}

fn place_runs(alloc: Global, place: &Place) -> Result<Runs, NoMemory>
    requires within { PlaceEndsWithin LARGEST_TYPE place.now }
    requires rising { PlaceRises place.now }
    ensures { IfOk result (λ r. AreRunsOf (pieces_of place.now) r) }
{
    match place {
        Place::Direct(pieces) => runs_of(alloc, pieces),
        Place::ByRef { .. } => Ok(Runs::new(alloc)),
    }
}

/// The runs of each argument, in a frame of so many bytes. Where it has none, nothing stands on the stack.
pub fn runs_in_frame(alloc: Global, places: &Places, frame: u64) -> Result<AllRuns, NoMemory>
    requires within { AllByRecursion (PlaceEndsWithin LARGEST_TYPE) places.now }
    requires rising { AllByRecursion PlaceRises places.now }
    requires empty { frame ≡ 0 → AllByRecursion HasNoRuns places.now }
    ensures { IfOk result (λ r. PlacesHaveRuns places.now r) }
{
    if frame == 0 {
        return Ok(AllRuns::empty(alloc, places.len()));
    }
    all_runs(alloc, places)
}

fn all_runs(alloc: Global, places: &Places) -> Result<AllRuns, NoMemory>
    requires within { AllByRecursion (PlaceEndsWithin LARGEST_TYPE) places.now }
    requires rising { AllByRecursion PlaceRises places.now }
    ensures { IfOk result (λ r. PlacesHaveRuns places.now r) }
{
    let mut all = AllRuns::empty(alloc, 0);
    for i in 0..places.len() {
        all.push(alloc, place_runs(alloc, places.get(i))?)?;
    }
    Ok(all)
}
