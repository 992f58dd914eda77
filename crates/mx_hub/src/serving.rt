ghost use Rattle.std.specs.Prelude.{◌≡◌, ◌≢◌, ◌<◌, ◌^◌, ◌++◌, ◌∷◌, [], ℕ, length, take, IfOk, IfSome, OnErr, string_bytes};
ghost use Rattle.mx_store.specs.Calls.{Rose};
ghost use Rattle.mx_store.specs.Streams.{added};
ghost use Rattle.mx_lines.specs.Ahead.{CountsBytes};
ghost use Rattle.mx_lines.specs.Lines.{LinesAreCut, lines_of};
ghost use Rattle.mx_hub.specs.History.{IsHistory, moment, printed, printed_replies};

use crate::answered::Answered;
use crate::line::{answer, printed_line};
use mx_lines::{Ahead, ReadError, next_line, write_all};
use mx_lists::Listed;
use mx_store::{Named, Sink, Source, Store};
use mx_world::World;
use std::alloc::{AllocError, Global};

/// How the lines ended.
#[derive(Clone, Copy, Debug, PartialEq, Eq)]
pub enum Ending {
    /// The input was read to its end.
    Done,
    NoMemory,
    SourceFault,
    SinkFault,
    /// 2^40 bytes were read.
    TooLong,
}

/// The end of the lines, and the answers in the order in which they were kept.
#[derive(Drop)]
pub struct Served {
    pub ending: Ending,
    pub answers: Listed<Answered>,
}

/// Answers the lines of the source one after the other, each before the next one is taken.
pub fn serve<S: Store, I: Source, O: Sink, N: Named>(
    alloc: Global,
    table: &mut World<S, N>,
    source: &mut I,
    sink: &mut O,
) -> Served
    ensures history { IsHistory N.opening (moment S.journal S.faults S.reads table.old) (moment S.journal S.faults S.reads table.new) (I.left source.old) result.ending result.answers }
    ensures done { result.ending ≡ Ending.Done → IfSome (I.left source.old) (λ input. length result.answers ≡ length (lines_of input)) }
    ensures read { result.ending ≡ Ending.Done → IfSome (I.left source.new) (λ left. left ≡ []) }
    ensures whole { result.ending ≢ Ending.SinkFault → O.written sink.new ≡ added (O.written sink.old) (printed_replies result.answers) }
    ensures part { result.ending ≡ Ending.SinkFault → (n : ℕ) × (O.written sink.new ≡ added (O.written sink.old) (take n (printed_replies result.answers))) }
    ensures short { result.ending ≡ Ending.Done → IfSome (I.left source.old) (λ input. length input < 2 ^ 40) }
    ensures too_long { result.ending ≡ Ending.TooLong → CountsBytes 0 (I.left source.old) (2 ^ 40) (I.left source.new) }
    ensures cut { result.ending ≡ Ending.TooLong → LinesAreCut (I.left source.old) (length result.answers) (I.left source.new) }
    ensures source_fault { result.ending ≡ Ending.SourceFault → Rose (I.faults source.old) (I.faults source.new) }
    ensures sink_fault { result.ending ≡ Ending.SinkFault → Rose (O.faults sink.old) (O.faults sink.new) }
{
    let mut answers = Listed::new(alloc);
    let Ok(mut ahead) = Ahead::new(alloc) else {
        return stop_with(Ending::NoMemory, answers);
    };
    loop {
        let line = match next_line(alloc, source, &mut ahead) {
            Ok(Some(line)) => line,
            Ok(None) => return stop_with(Ending::Done, answers),
            Err(ReadError::NoMemory) => return stop_with(Ending::NoMemory, answers),
            Err(ReadError::Fault) => return stop_with(Ending::SourceFault, answers),
            Err(ReadError::TooLong) => return stop_with(Ending::TooLong, answers),
        };
        let number = answers.len() as u64;
        let answered = answer(alloc, table, number, line);
        let text = match keep(alloc, &mut answers, answered) {
            Ok(text) => text,
            Err(_) => return stop_with(Ending::NoMemory, answers),
        };
        match write_all(sink, text.as_bytes()) {
            Ok(()) => {}
            Err(_) => return stop_with(Ending::SinkFault, answers),
        }
    }
}

// The line of an answer, which is kept once it is printed.
fn keep(
    alloc: Global,
    answers: &mut Listed<Answered>,
    answered: Answered,
) -> Result<String, AllocError>
    ensures kept { IfOk result (λ text. answers.new ≡ answers.old ++ answered ∷ []) }
    ensures text { IfOk result (λ text. string_bytes text ≡ printed answered) }
    ensures err { OnErr result (answers.new ≡ answers.old) }
{
    let text = printed_line(alloc, &answered)?;
    answers.push(answered)?;
    Ok(text)
}

fn stop_with(ending: Ending, answers: Listed<Answered>) -> Served
    ensures ending { result.ending ≡ ending }
    ensures answers { result.answers ≡ answers }
{
    Served { ending, answers }
}
