//! What is answered to the bytes of an input.
ghost use Rattle.std.specs.Prelude.{◌≡◌, ◌+◌, ◌^◌, ◌<◌, ◌≤◌, length, true, IfOk};
ghost use Rattle.ffi3_type_spec.specs.Tree.{trees_of};
ghost use Rattle.ffi3_type_spec.specs.Value.{all_fit, values_of};
ghost use Rattle.ffi3_place_spec.specs.Standard.{frame_of};
ghost use Rattle.ffi3_explain_spec.specs.Arguments.{least_stack};
ghost use Rattle.ffi3_explain.specs.ImageOf.{image_of};
ghost use Rattle.ffi3_explain_spec.specs.Standards.{standard_of};
ghost use Rattle.ffi3_image_spec.specs.Lines.{explained_text};
ghost use Rattle.ffi3_image_spec.specs.Answer.{IsTheAnswer, answer_by};
ghost use Rattle.ffi3_image.specs.AnswerOf.{IsToldAs, answer_about, answer_of};

use crate::lines::{
    arguments_text, broken_line, fault_line, hidden_lines, not_json_line, outside_line,
    too_long_line,
};
use crate::room::{buffer_address, room_for_arguments, room_for_explain};
use crate::{ImageFault, read_snapshot};
use ffi3_cif::Cif;
use ffi3_explain::{Image, Unexplained, Unread, arguments, explain};
use ffi3_image_spec::Question;
use ffi3_place::Abi;
use ffi3_standards::{ByStandard, on_target};
use ffi3_type_spec::Target;
use ffi3_types::{Bytes, CheckedSig, NoMemory};
use ffi3_values::Values;
use std::alloc::Global;

/// What is answered to an input that is to describe an image.
#[derive(Debug, Drop)]
pub enum Answer {
    /// Lines, each with its newline: what the image holds.
    Text(Bytes),
    /// The line that says why it does not hold arguments, or why the input describes no image.
    Refusal(Bytes),
}

/// Reads the bytes as the description of an image, and answers a question about it: with the lines of its arguments
/// and, where it is explained, the line of a hidden result's address behind them; or with the line that refuses it.
/// These are refused, in this order: more than 1,048,576 bytes; what is no JSON; the first fault of reading; an image
/// that lacks the room that the question needs; one that values do not explain, or, by the standard alone, one with an
/// address that points outside.
pub fn answer_question(alloc: Global, question: Question, bytes: &[u8]) -> Result<Answer, NoMemory>
    ensures { IfOk result (λ a. IsTheAnswer question bytes.now (answer_of a)) }
{
    match read_snapshot(alloc, bytes) {
        Ok(snapshot) => {
            let sig = CheckedSig::of(&snapshot.sig);
            answer_about(alloc, question, snapshot.target, sig, &snapshot.image)
        }
        Err(fault) => refusal(alloc, &fault),
    }
}

/// A question about an image at the entry of a function of a signature.
#[derive(Drop)]
struct Asked<'a> {
    alloc: Global,
    question: Question,
    sig: CheckedSig<'a>,
    image: &'a Image,
}

impl<'a> ByStandard for Asked<'a> {
    type Answer = Result<Answer, NoMemory>;

    ghost answers = { λ task std r.
        IfOk r (λ a. answer_of a ≡ answer_about task.question std task.sig (image_of task.image.now)) };

    fn by<A: Abi>(self) -> Result<Answer, NoMemory> {
        answer_by::<A>(self.alloc, self.question, &self.sig, self.image)
    }
}

/// About an image of a target's machine, at the entry of a function of a signature.
fn answer_about(
    alloc: Global,
    question: Question,
    target: Target,
    sig: CheckedSig<'_>,
    image: &Image,
) -> Result<Answer, NoMemory>
    ensures { IfOk result (λ a. answer_of a ≡ answer_about question (standard_of target) sig.entry (image_of image.now)) }
{
    let task = Asked {
        alloc,
        question,
        sig,
        image,
    };
    on_target(target, task)
}

/// By a calling standard.
fn answer_by<A: Abi>(
    alloc: Global,
    question: Question,
    sig: &CheckedSig<'_>,
    image: &Image,
) -> Result<Answer, NoMemory>
    ensures { IfOk result (λ a. answer_of a ≡ answer_about question A.standard sig.now (image_of image.now)) }
{
    let cif: Cif<A> = Cif::prepare_copy(alloc, sig)?;
    answer_of_call(alloc, question, image, &cif)
}

/// About the image of a call that is prepared.
fn answer_of_call<A: Abi>(
    alloc: Global,
    question: Question,
    image: &Image,
    cif: &Cif<A>,
) -> Result<Answer, NoMemory>
    ensures { IfOk result (λ a. answer_of a ≡ answer_about question A.standard cif.now (image_of image.now)) }
{
    match question {
        Question::Explained => answer_explained(alloc, image, cif),
        Question::ByStandard => answer_by_standard(alloc, image, cif),
    }
}

// ---- an explanation

fn answer_explained<A: Abi>(alloc: Global, image: &Image, cif: &Cif<A>) -> Result<Answer, NoMemory>
    ensures { IfOk result (λ a. answer_of a ≡ answer_about Question.Explained A.standard cif.now (image_of image.now)) }
{
    match room_for_explain(alloc, image, cif) {
        Ok(()) => explanation(alloc, image, cif),
        Err(fault) => refusal(alloc, &fault),
    }
}

/// Of an image that has room for it.
fn explanation<A: Abi>(alloc: Global, image: &Image, cif: &Cif<A>) -> Result<Answer, NoMemory>
    requires stack { A.standard.link + frame_of A.standard cif.now ≤ length image.now.stack }
    requires high { image.now.sp + A.standard.link + frame_of A.standard cif.now < 2 ^ 64 }
    ensures { IfOk result (λ a. answer_of a ≡ answer_by Question.Explained A.standard cif.now (image_of image.now)) }
{
    let isa = A::TARGET.isa();
    match explain(alloc, image, cif) {
        Ok(values) => Ok(Answer::Text(explained_text(alloc, image, cif, &values)?)),
        Err(Unexplained::NotHeld(check)) => {
            Ok(Answer::Refusal(broken_line(alloc, isa, &check)?))
        }
        Err(Unexplained::NoMemory) => Err(NoMemory),
    }
}

/// The lines of the arguments, and of a hidden result's address.
fn explained_text<A: Abi>(
    alloc: Global,
    image: &Image,
    cif: &Cif<A>,
    values: &Values,
) -> Result<Bytes, NoMemory>
    requires stack { A.standard.link + frame_of A.standard cif.now ≤ length image.now.stack }
    requires high { image.now.sp + A.standard.link + frame_of A.standard cif.now < 2 ^ 64 }
    requires fits { all_fit (trees_of cif.now.arguments) (values_of values.now) ≡ true }
    ensures { IfOk result (λ text. text ≡ explained_text A.standard cif.now (image_of image.now) values.now) }
{
    let mut text = arguments_text(alloc, cif.sig(), values)?;
    text.extend(hidden_lines(alloc, buffer_address(image, cif))?.as_slice())?;
    Ok(text)
}

// ---- arguments by the standard alone

fn answer_by_standard<A: Abi>(
    alloc: Global,
    image: &Image,
    cif: &Cif<A>,
) -> Result<Answer, NoMemory>
    ensures { IfOk result (λ a. answer_of a ≡ answer_about Question.ByStandard A.standard cif.now (image_of image.now)) }
{
    match room_for_arguments(alloc, image, cif) {
        Ok(()) => held_arguments(alloc, image, cif),
        Err(fault) => refusal(alloc, &fault),
    }
}

/// Of an image that has room for them.
fn held_arguments<A: Abi>(alloc: Global, image: &Image, cif: &Cif<A>) -> Result<Answer, NoMemory>
    requires { least_stack A.standard cif.now ≤ length image.now.stack }
    ensures { IfOk result (λ a. answer_of a ≡ answer_by Question.ByStandard A.standard cif.now (image_of image.now)) }
{
    match arguments(alloc, image, cif) {
        Ok(values) => Ok(Answer::Text(arguments_text(alloc, cif.sig(), &values)?)),
        Err(Unread::PointsOutside(outside)) => Ok(Answer::Refusal(outside_line(alloc, &outside)?)),
        Err(Unread::NoMemory) => Err(NoMemory),
    }
}

// ---- faults

/// The refusal that tells a fault of reading.
fn refusal(alloc: Global, fault: &ImageFault) -> Result<Answer, NoMemory>
    ensures { IfOk result (λ a. IsToldAs fault.now (answer_of a)) }
{
    match fault {
        ImageFault::TooLong => Ok(Answer::Refusal(too_long_line(alloc)?)),
        ImageFault::BadJson => Ok(Answer::Refusal(not_json_line(alloc)?)),
        ImageFault::BadImage { path, why } => { Ok(Answer::Refusal(fault_line(alloc, path, why)?)) }
        ImageFault::NoMemory => Err(NoMemory),
    }
}
