//! The text that answers the lines of a phase.

ghost use Rattle.std.specs.Prelude.{◌≡◌, ℕ, ◌+◌, ◌^◌, ◌<◌, ◌++◌, List, All, length, map, IfOk, OnOk};
ghost use Rattle.std.specs.List.{flat_map};
ghost use Rattle.hybrid_time.specs.declared.times.Timestamp.{Timestamp};
ghost use Rattle.legal_output.specs.Lines.{Line};
ghost use Rattle.legal_output.specs.Outputs.{text_of_line};
ghost use Rattle.answer_lines.specs.Lines.{text_of};
ghost use Rattle.phase_run.specs.declared.works.Work.{Work};
ghost use Rattle.phase_lines.specs.Waiting.{Read};
ghost use Rattle.phase_lines.specs.Blocks.{CanAppend, IsBlock};
ghost use Rattle.phase_lines.specs.Steps.{items_at, left_of, StandAt, answer_at, left_behind, text_of_slots, HasAnswer, HaveAnswers};

use crate::lines::Slot;
use crate::places::{CALLERS, empty_places};
use answer_lines::{Answer, line};
use phase_run::Done;
use row_types::Memory;
use std::alloc::Global;

/// Appends the lines that answer a phase's lines from the number `first` on: each caller's answers at its
/// lines, in their order, and the refusals between them. Where memory is wanting, some of the text may stand.
pub fn append_lines(
    alloc: Global,
    first: u32,
    slots: &[Slot],
    done: Vec<Done>,
    text: &mut Vec<u8>,
) -> Result<(), Memory>
    requires known { (reads : List Read) × (mine : List Timestamp) × (works : List Work) × CanAppend first slots.now done.items reads mine works }
    requires room { first + length slots.now < 2 ^ 32 }
    ensures { OnOk result ((reads : List Read) (mine : List Timestamp) (works : List Work) → CanAppend first slots.now done.items reads mine works
        → (block : List Line) × (text.new.items ≡ text.old.items ++ flat_map text_of_line block) × IsBlock first reads works done.items block) }
{
    let answers = answers_of(alloc, done)?;
    append_slots(alloc, first, slots, answers.as_slice(), text)
}

// The answers of each caller, at its place.
fn answers_of(alloc: Global, done: Vec<Done>) -> Result<Vec<Vec<(u32, Answer)>>, Memory>
    requires { All (λ done. done.caller < 16) done.items }
    ensures many { IfOk result (λ answers. length answers.items ≡ 16) }
    ensures each { IfOk result (λ answers. StandAt done.items answers.items) }
{
    let mut answers = empty_places(alloc)?;
    for did in done {
        let Done {
            caller,
            mine: _,
            answers: own,
        } = did;
        answers[caller as usize] = own;
    }
    Ok(answers)
}

fn append_slots(
    alloc: Global,
    first: u32,
    slots: &[Slot],
    answers: &[Vec<(u32, Answer)>],
    text: &mut Vec<u8>,
) -> Result<(), Memory>
    requires many { length answers.now ≡ 16 }
    requires answers { HaveAnswers slots.now (items_at answers.now) }
    requires room { first + length slots.now < 2 ^ 32 }
    ensures { OnOk result (text.new.items ≡ text.old.items ++ text_of_slots first slots.now (items_at answers.now)) }
{
    let mut told = vec![in alloc; 0; CALLERS]?;
    let mut number = first;
    for slot in slots {
        append_slot(alloc, number, *slot, answers, &mut told, text)?;
        number += 1;
    }
    Ok(())
}

// Appends the line that answers a slot; `told` counts each caller's answers that stand in the text.
fn append_slot(
    alloc: Global,
    number: u32,
    slot: Slot,
    answers: &[Vec<(u32, Answer)>],
    told: &mut Vec<usize>,
    text: &mut Vec<u8>,
) -> Result<(), Memory>
    requires many { (length answers.now ≡ 16) × (length told.old.items ≡ 16) }
    requires answer { HasAnswer slot (left_of answers.now told.old.items) }
    ensures text { OnOk result (text.new.items ≡ text.old.items ++ text_of number (answer_at slot (left_of answers.now told.old.items))) }
    ensures left { left_of answers.now told.new.items ≡ left_behind slot (left_of answers.now told.old.items) }
    ensures many { length told.new.items ≡ 16 }
{
    match slot {
        Slot::Refused(reason) => append_line(alloc, number, &Answer::Refused(reason), text),
        Slot::Asked(caller) => {
            let at = caller as usize;
            let next = told[at];
            told[at] = next + 1;
            append_line(alloc, number, &answers[at][next].1, text)
        }
    }
}

fn append_line(
    alloc: Global,
    number: u32,
    answer: &Answer,
    text: &mut Vec<u8>,
) -> Result<(), Memory>
    ensures { OnOk result (text.new.items ≡ text.old.items ++ text_of number answer.now) }
{
    let shown = line(alloc, number, answer)?;
    text.extend_from_slice(shown.as_slice())?;
    Ok(())
}
