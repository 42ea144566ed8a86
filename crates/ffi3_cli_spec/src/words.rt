//! What the words of the program ask for.

use ffi3_type_spec::Target;

/// What the words ask for.
#[derive(Clone, Copy, Debug, PartialEq, Eq)]
pub enum Request {
    /// What a command makes of the input.
    OnInput(InputCommand),
    /// The made script of a seed and a number of calls, from 1 to 1000, on amd64, aapcs64 and riscv. No input is read.
    Bench { seed: u32, calls: u32 },
}

/// A command that reads the input: a script, a C declaration, or the description of an image.
#[derive(Clone, Copy, Debug, PartialEq, Eq)]
pub enum InputCommand {
    /// The layout of every type.
    Layout,
    /// The frame and the places of every signature.
    Place { target: Target },
    /// A run on a modelled machine, with the lines of a trace or without.
    Run { target: Target, trace: bool },
    /// The signature's text and the canonical text of a C declaration.
    Cdecl,
    /// The same, and the frame and the places on every target.
    Cplace,
    /// The arguments that registers and stack at an entry hold, or the first place that holds something else.
    Explain,
    /// The arguments that they have by the standard alone, whoever called.
    Arguments,
}
