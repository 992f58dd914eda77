ghost use Rattle.std.specs.Prelude.{◌≡◌, ◌≢◌, ◌≤◌, ◌<◌, ◌+◌, ◌^◌, ◌++◌, ◌==◌, [], ◌∷◌, length, take, drop, ℕ, List, IfOk, IfErr, IfSome, IfNone, OnSome, OnOk, IsErrOf, MatchOption, MatchBool};
ghost use Rattle.std.specs.List.{position_or_len};
ghost use Rattle.mx_store.specs.Calls.{Rose};
ghost use Rattle.mx_lines.specs.Ahead.{all_left, budget, CountsBytes};
ghost use Rattle.mx_lines.specs.Lines.{IsLine, LinesAreCut, TakesLine, before_newline, after_newline, has_newline};

use crate::ahead::{Ahead, ReadError, fill};
use mx_lists::Bytes;
use mx_store::Source;
use std::alloc::{AllocError, Global};

const LINE_LIMIT: usize = 1 << 22;

/// A line of a source, without its newline.
#[derive(Debug, Drop)]
pub enum Line {
    Whole { bytes: Bytes },
    /// It has more than 4,194,304 bytes, which were dropped.
    Long,
}

// The line with a piece more.
fn extended(line: Line, piece: &[u8]) -> Result<Line, AllocError>
    ensures { IfOk result (λ new. (before : List ℕ) → IsLine line before → IsLine new (before ++ piece.now)) }
{
    match line {
        Line::Whole { bytes } => {
            if piece.len() > LINE_LIMIT.saturating_sub(bytes.len()) {
                return Ok(Line::Long);
            }
            let mut bytes = bytes.into_vec();
            bytes.extend_from_slice(piece)?;
            Ok(Line::Whole {
                bytes: Bytes::from_vec(bytes),
            })
        }
        Line::Long => Ok(Line::Long),
    }
}

// How many bytes stand before the first newline, or all.
fn piece_len(bytes: &[u8]) -> usize
    ensures { result ≡ position_or_len (λ b. b == 10) bytes.now }
{
    let mut count = 0;
    while count < bytes.len() && bytes[count] != b'\n' {
        count += 1;
    }
    count
}

// Takes what is ahead up to the first newline and the newline, or all. It tells whether the line has ended.
fn take_piece(line: Line, ahead: &mut Ahead) -> Result<(Line, bool), AllocError>
    ensures line { IfOk result (λ r. (before : List ℕ) → IsLine line before → IsLine r.0 (before ++ before_newline ahead.old.ahead)) }
    ensures ended { IfOk result (λ r. r.1 ≡ has_newline ahead.old.ahead) }
    ensures ahead { OnOk result (ahead.new.ahead ≡ after_newline ahead.old.ahead) }
    ensures taken { ahead.new.taken ≡ ahead.old.taken }
{
    let count = piece_len(ahead.bytes());
    let ended = count < ahead.bytes().len();
    let line = extended(line, &ahead.bytes()[..count])?;
    ahead.skip(count + 1);
    Ok((line, ended))
}

// What is left at the end of the input: a line, unless it is empty.
fn last_line(line: Line) -> Option<Line>
    ensures none { IfNone result ((piece : List ℕ) → IsLine line piece → piece ≡ []) }
    ensures some { IfSome result (λ l. (l ≡ line) × ((piece : List ℕ) → IsLine line piece → piece ≢ [])) }
{
    match line {
        Line::Whole { bytes } if bytes.len() == 0 => None,
        line => Some(line),
    }
}

/// The next line, None at the end of the input. A last piece without a newline is a line unless it is empty.
pub fn next_line<I: Source>(
    alloc: Global,
    source: &mut I,
    ahead: &mut Ahead,
) -> Result<Option<Line>, ReadError>
    ensures line { IfOk result (λ o. MatchOption o (IfSome (all_left ahead.old (I.left source.old)) (λ left. left ≡ []))
        (λ line. TakesLine (all_left ahead.old (I.left source.old)) line (all_left ahead.new (I.left source.new)))) }
    ensures end { IfOk result (λ o. IfNone o (all_left ahead.new (I.left source.new) ≡ all_left ahead.old (I.left source.old))) }
    ensures budget { IfOk result (λ o. OnSome o (budget ahead.new < budget ahead.old)) }
    ensures room { IfOk result (λ o. IfNone o (ahead.new.taken < 2 ^ 40)) }
    ensures fault { IsErrOf result ReadError.Fault → Rose (I.faults source.old) (I.faults source.new) }
    ensures too_long { IsErrOf result ReadError.TooLong → ahead.new.taken ≡ 2 ^ 40 }
    ensures cut { IsErrOf result ReadError.TooLong → LinesAreCut (all_left ahead.old (I.left source.old)) 0 (I.left source.new) }
    ensures faults { OnOk result (I.faults source.new ≡ I.faults source.old) }
    ensures quiet { IfErr result (λ e. e ≢ ReadError.Fault → I.faults source.new ≡ I.faults source.old) }
    ensures count { CountsBytes ahead.old.taken (I.left source.old) ahead.new.taken (I.left source.new) }
{
    let mut line = Line::Whole {
        bytes: Bytes::new(alloc),
    };
    loop {
        if !fill(source, ahead)? {
            return Ok(last_line(line));
        }
        let (more, ended) = take_piece(line, ahead)?;
        if ended {
            return Ok(Some(more));
        }
        line = more;
    }
}
