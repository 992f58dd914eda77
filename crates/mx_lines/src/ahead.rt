ghost use Rattle.std.specs.Prelude.{◌≡◌, ◌≢◌, ◌≤◌, ◌<◌, ◌+◌, ◌^◌, ◌↔◌, [], length, drop, take, IfOk, IfErr, IfSome, IsErrOf, IsTrue, MatchBool, OnOk, OnErr};
ghost use Rattle.mx_store.specs.Calls.{Rose, CountsErrors};
ghost use Rattle.mx_store.specs.Streams.{before};
ghost use Rattle.mx_lines.specs.declared.ahead.ReadError.TheVariants.{NoMemory};
ghost use Rattle.mx_lines.specs.Ahead.{all_left, budget, CountsBytes};

use mx_store::{Failed, Source};
use std::alloc::{AllocError, Global};
use std::marker::Model;

/// Why there is no next line.
#[derive(Clone, Copy, Debug, PartialEq, Eq)]
pub enum ReadError {
    NoMemory,
    Fault,
    TooLong,
}

impl From<AllocError> for ReadError {
    ghost from_gives = { λ _ e. e ≡ NoMemory };

    fn from(_: AllocError) -> Self {
        ReadError::NoMemory
    }
}

const INPUT_LIMIT: u64 = 1 << 40;

const ROOM: usize = 4096;

/// The bytes that were read and not yet taken, and how many were read in all.
#[derive(Drop)]
pub struct Ahead {
    buffer: Vec<u8>,
    at: usize,
    end: usize,
    taken: u64,
}

impl Model for Ahead {
    ghost use Rattle.std.specs.Prelude.{◌≤◌, ◌<◌, ◌^◌, length, take, drop};
    ghost use Rattle.mx_lines.specs.Ahead.{Seen};

    ghost Value = { Seen };

    ghost view = { λ a. record { ahead = drop a.at (take a.end a.buffer.items); taken = a.taken } };

    ghost invariant = { λ a. (a.at ≤ a.end) × (a.end ≤ length a.buffer.items) × (0 < length a.buffer.items) × (a.taken ≤ 2 ^ 40) };
}

impl Ahead {
    /// Nothing was read yet.
    pub fn new(alloc: Global) -> Result<Ahead, AllocError>
        ensures ahead { IfOk result (λ a. a.ahead ≡ []) }
        ensures taken { IfOk result (λ a. a.taken ≡ 0) }
    {
        Ok(Ahead {
            buffer: zeros(alloc, ROOM)?,
            at: 0,
            end: 0,
            taken: 0,
        })
    }

    /// The bytes that were read and not yet taken.
    pub fn bytes(&self) -> &[u8]
        ensures { result.now ≡ self.now.ahead }
    {
        &self.buffer[self.at..self.end]
    }

    // Takes so many of them, or all where there are fewer.
    pub(crate) fn skip(&mut self, count: usize)
        ensures ahead { self.new.ahead ≡ drop count self.old.ahead }
        ensures taken { self.new.taken ≡ self.old.taken }
    {
        self.at += count.min(self.end - self.at);
    }
}

fn zeros(alloc: Global, count: usize) -> Result<Vec<u8>, AllocError>
    ensures { IfOk result (λ v. length v.items ≡ count) }
{
    vec![in alloc; 0; count]
}

// Reads into the buffer's front, which has room for so many bytes.
fn read_front<I: Source>(source: &mut I, buffer: &mut [u8], most: usize) -> Result<usize, Failed>
    requires room { most ≤ length buffer.old }
    requires some { 0 < most }
    ensures bound { IfOk result (λ n. n ≤ most) }
    ensures bytes { IfOk result (λ n. I.left source.old ≡ before (take n buffer.new) (I.left source.new)) }
    ensures end { IfOk result (λ n. n ≡ 0 → IfSome (I.left source.old) (λ left. left ≡ [])) }
    ensures kept { OnErr result (I.left source.new ≡ I.left source.old) }
    ensures size { length buffer.new ≡ length buffer.old }
    ensures cause { CountsErrors (I.faults source.old) (I.faults source.new) result }
{
    source.read(&mut buffer[..most])
}

// Reads on, where nothing is ahead. It answers false at the end of the input.
fn refill<I: Source>(source: &mut I, ahead: &mut Ahead) -> Result<bool, ReadError>
    requires { length ahead.old.ahead ≡ 0 }
    ensures read { OnOk result (I.left source.old ≡ all_left ahead.new (I.left source.new)) }
    ensures more { IfOk result (λ more. MatchBool more (0 < length ahead.new.ahead) ((ahead.new.ahead ≡ []) × (ahead.new.taken < 2 ^ 40) × IfSome (I.left source.old) (λ left. left ≡ []))) }
    ensures budget { OnOk result (budget ahead.new ≡ budget ahead.old) }
    ensures fault { IsErrOf result ReadError.Fault → Rose (I.faults source.old) (I.faults source.new) }
    ensures too_long { IsErrOf result ReadError.TooLong ↔ (ahead.old.taken ≡ 2 ^ 40) }
    ensures too_long_new { IsErrOf result ReadError.TooLong → ahead.new.taken ≡ 2 ^ 40 }
    ensures kept { IsErrOf result ReadError.TooLong → I.left source.new ≡ I.left source.old }
    ensures no_memory { IsErrOf result ReadError.NoMemory → ⊥ }
    ensures faults { OnOk result (I.faults source.new ≡ I.faults source.old) }
    ensures quiet { IfErr result (λ e. e ≢ ReadError.Fault → I.faults source.new ≡ I.faults source.old) }
    ensures count { CountsBytes ahead.old.taken (I.left source.old) ahead.new.taken (I.left source.new) }
{
    let room = INPUT_LIMIT - ahead.taken;
    if room == 0 {
        return Err(ReadError::TooLong);
    }
    let most = ahead.buffer.len().min(room as usize);
    let Ok(count) = read_front(source, &mut ahead.buffer, most) else {
        return Err(ReadError::Fault);
    };
    ahead.at = 0;
    ahead.end = count;
    ahead.taken += count as u64;
    Ok(count > 0)
}

// Reads on, unless something is ahead. It answers false at the end of the input.
pub(crate) fn fill<I: Source>(source: &mut I, ahead: &mut Ahead) -> Result<bool, ReadError>
    ensures left { OnOk result (all_left ahead.new (I.left source.new) ≡ all_left ahead.old (I.left source.old)) }
    ensures more { IfOk result (λ more. MatchBool more (0 < length ahead.new.ahead) ((ahead.new.taken < 2 ^ 40) × IfSome (all_left ahead.new (I.left source.new)) (λ left. left ≡ []))) }
    ensures budget { OnOk result (budget ahead.new ≡ budget ahead.old) }
    ensures fault { IsErrOf result ReadError.Fault → Rose (I.faults source.old) (I.faults source.new) }
    ensures too_long { IsErrOf result ReadError.TooLong → ahead.new.taken ≡ 2 ^ 40 }
    ensures kept { IsErrOf result ReadError.TooLong → (ahead.old.ahead ≡ []) × (I.left source.new ≡ I.left source.old) }
    ensures no_memory { IsErrOf result ReadError.NoMemory → ⊥ }
    ensures faults { OnOk result (I.faults source.new ≡ I.faults source.old) }
    ensures quiet { IfErr result (λ e. e ≢ ReadError.Fault → I.faults source.new ≡ I.faults source.old) }
    ensures count { CountsBytes ahead.old.taken (I.left source.old) ahead.new.taken (I.left source.new) }
{
    if ahead.bytes().is_empty() {
        return refill(source, ahead);
    }
    Ok(true)
}
