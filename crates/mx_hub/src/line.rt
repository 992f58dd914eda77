ghost use Rattle.std.specs.Prelude.{◌≡◌, IfOk, string_bytes};
ghost use Rattle.mx_lines.specs.declared.line.Line.TheVariants.{Whole};
ghost use Rattle.mx_hub.specs.History.{AnswersTaken, moment, printed};

use crate::answered::Answered;
use crate::asks::{drive, refused};
use mx_ask::{LineError, Refusal, ask_of, print_reply};
use mx_lines::Line;
use mx_lists::Bytes;
use mx_store::{Named, Store};
use mx_world::World;
use std::alloc::{AllocError, Global};

/// Answers a line.
pub(crate) fn answer<S: Store, N: Named>(
    alloc: Global,
    table: &mut World<S, N>,
    number: u64,
    line: Line,
) -> Answered
    ensures { AnswersTaken N.opening number line (moment S.journal S.faults S.reads table.old) (moment S.journal S.faults S.reads table.new) result }
{
    match line {
        Line::Whole { bytes } => answer_whole(alloc, table, number, &bytes),
        Line::Long => refused(table, number, Refusal::Line),
    }
}

fn answer_whole<S: Store, N: Named>(
    alloc: Global,
    table: &mut World<S, N>,
    number: u64,
    bytes: &Bytes,
) -> Answered
    ensures { AnswersTaken N.opening number (Whole bytes.now) (moment S.journal S.faults S.reads table.old) (moment S.journal S.faults S.reads table.new) result }
{
    match ask_of(alloc, bytes.as_slice()) {
        Ok(ask) => drive(alloc, table, number, &ask),
        Err(LineError::NotAnAsk) => refused(table, number, Refusal::Line),
        Err(LineError::NoMemory) => refused(table, number, Refusal::NoMemory),
    }
}

/// The line that is written for an answer, with its newline.
pub(crate) fn printed_line(alloc: Global, answered: &Answered) -> Result<String, AllocError>
    ensures { IfOk result (λ text. string_bytes text ≡ printed answered.now) }
{
    let mut text = print_reply(alloc, &answered.reply, answered.seq)?.into_string();
    text.push('\n')?;
    Ok(text)
}
