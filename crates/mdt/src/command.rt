ghost use Rattle.std.specs.Prelude.{◌≡◌, ◌≢◌, ◌<◌, []};
ghost use Rattle.mx_store.specs.Calls.{Rose};
ghost use Rattle.mx_store.specs.Journal.{Begins};
ghost use Rattle.mx_world.specs.State.{StaysValid};
ghost use Rattle.mx_hub.specs.History.{moment};
ghost use Rattle.mdt.specs.Words.{IsCommand};
ghost use Rattle.mdt.specs.declared.words.Command.TheVariants.{Serve};
ghost use Rattle.mdt.specs.Ends.{AnswersEachLine, AnswersLines, CarriesOutInit, IsEarly, MakesTable, ReadsTooMuch, Serves, TellsWords, WritesReplies};

use crate::status::{Status, ending_status, init_status, read_status};
use crate::words::{Command, command_of};
use mx_base::Instant;
use mx_hub::{Answered, Served, serve};
use mx_lists::Listed;
use mx_open::init;
use mx_recovery::{OpenFailed, open_world};
use mx_schema::Schema;
use mx_store::{Named, Sink, Source, Store};
use mx_world::World;
use std::alloc::Global;

/// The end of a command: how it ended, the store as it left it, and the answers in the order in which they were kept.
pub struct Ended<S> {
    pub status: Status,
    pub store: S,
    pub answers: Listed<Answered>,
}

/// Carries out the command of these words over a store.
///
/// The words are those behind the program's name. The next instant that is drawn is `now` at least.
pub fn command<S: Store, I: Source, O: Sink, N: Named>(
    alloc: Global,
    words: &[String],
    now: Instant,
    store: S,
    source: &mut I,
    sink: &mut O,
) -> Ended<S>
    requires moment { now ≡ N.moment }
    requires some { 0 < now }
    requires count { N.count ≡ S.faults store }
    requires opening { N.opening ≡ S.journal store }
    ensures begins { Begins N.opening (S.journal result.store) }
    ensures valid { StaysValid N.opening (S.journal result.store) }
    ensures words { TellsWords words.now N.opening (S.journal result.store) result.status }
    ensures init { CarriesOutInit words.now N.opening (S.journal result.store) result.status }
    ensures serves { IsCommand words.now Serve → Serves N.moment N.count N.opening (I.left source.old) (S.journal result.store) (S.faults result.store) (S.reads result.store) result.status result.answers }
    ensures early { IsEarly result.status → (I.left source.new ≡ I.left source.old) × (result.answers ≡ []) }
    ensures to_end { IsCommand words.now Serve → result.status ≡ Status.Done → AnswersEachLine (I.left source.old) (I.left source.new) result.answers }
    ensures written { WritesReplies (O.written sink.old) (O.written sink.new) result.status result.answers }
    ensures too_long { result.status ≡ Status.TooLong → ReadsTooMuch (I.left source.old) (I.left source.new) result.answers }
    ensures source_fault { result.status ≡ Status.SourceFault → Rose (I.faults source.old) (I.faults source.new) }
    ensures sink_fault { result.status ≡ Status.SinkFault → Rose (O.faults sink.old) (O.faults sink.new) }
    ensures store_fault { result.status ≡ Status.StoreFault → Rose N.count (S.faults result.store) }
{
    match command_of(alloc, words) {
        Ok(Some(Command::Init { schema })) => make_table(alloc, store, &schema),
        Ok(Some(Command::Serve)) => serve_table::<S, I, O, N>(alloc, now, store, source, sink),
        Ok(None) => unserved(alloc, Status::Words, store),
        Err(_) => unserved(alloc, Status::NoMemory, store),
    }
}

// No line was read.
fn unserved<S>(alloc: Global, status: Status, store: S) -> Ended<S>
    ensures status { result.status ≡ status }
    ensures store { result.store ≡ store }
    ensures answers { result.answers ≡ [] }
{
    Ended {
        status,
        store,
        answers: Listed::new(alloc),
    }
}

// Makes a new table.
fn make_table<S: Store>(alloc: Global, store: S, schema: &Schema) -> Ended<S>
    ensures makes { MakesTable schema.now (S.journal store) (S.journal result.store) result.status }
    ensures answers { result.answers ≡ [] }
    ensures store_fault { result.status ≡ Status.StoreFault → Rose (S.faults store) (S.faults result.store) }
{
    let mut store = store;
    match init(alloc, &mut store, schema) {
        Ok(()) => unserved(alloc, Status::Done, store),
        Err(error) => unserved(alloc, init_status(error), store),
    }
}

// Opens the table and answers the lines.
fn serve_table<S: Store, I: Source, O: Sink, N: Named>(
    alloc: Global,
    now: Instant,
    store: S,
    source: &mut I,
    sink: &mut O,
) -> Ended<S>
    requires moment { now ≡ N.moment }
    requires some { 0 < now }
    requires count { N.count ≡ S.faults store }
    requires opening { N.opening ≡ S.journal store }
    ensures begins { Begins N.opening (S.journal result.store) }
    ensures valid { StaysValid N.opening (S.journal result.store) }
    ensures serves { Serves N.moment N.count N.opening (I.left source.old) (S.journal result.store) (S.faults result.store) (S.reads result.store) result.status result.answers }
    ensures early { IsEarly result.status → (I.left source.new ≡ I.left source.old) × (result.answers ≡ []) }
    ensures to_end { result.status ≡ Status.Done → AnswersEachLine (I.left source.old) (I.left source.new) result.answers }
    ensures written { WritesReplies (O.written sink.old) (O.written sink.new) result.status result.answers }
    ensures too_long { result.status ≡ Status.TooLong → ReadsTooMuch (I.left source.old) (I.left source.new) result.answers }
    ensures source_fault { result.status ≡ Status.SourceFault → Rose (I.faults source.old) (I.faults source.new) }
    ensures sink_fault { result.status ≡ Status.SinkFault → Rose (O.faults sink.old) (O.faults sink.new) }
    ensures store_fault { result.status ≡ Status.StoreFault → Rose N.count (S.faults result.store) }
    ensures no_words { result.status ≢ Status.Words }
{
    let opened: Result<World<S, N>, OpenFailed<S>> = open_world(alloc, store, now);
    match opened {
        Ok(table) => serve_opened(alloc, table, source, sink),
        Err(OpenFailed { store, why }) => unserved(alloc, read_status(why), store),
    }
}

// Answers the lines over the opened table.
fn serve_opened<S: Store, I: Source, O: Sink, N: Named>(
    alloc: Global,
    table: World<S, N>,
    source: &mut I,
    sink: &mut O,
) -> Ended<S>
    ensures begins { Begins N.opening (S.journal result.store) }
    ensures valid { StaysValid N.opening (S.journal result.store) }
    ensures answers { AnswersLines N.opening (moment S.journal S.faults S.reads table) (I.left source.old) (S.journal result.store) (S.faults result.store) (S.reads result.store) result.status result.answers }
    ensures to_end { result.status ≡ Status.Done → AnswersEachLine (I.left source.old) (I.left source.new) result.answers }
    ensures written { WritesReplies (O.written sink.old) (O.written sink.new) result.status result.answers }
    ensures too_long { result.status ≡ Status.TooLong → ReadsTooMuch (I.left source.old) (I.left source.new) result.answers }
    ensures source_fault { result.status ≡ Status.SourceFault → Rose (I.faults source.old) (I.faults source.new) }
    ensures sink_fault { result.status ≡ Status.SinkFault → Rose (O.faults sink.old) (O.faults sink.new) }
{
    let mut table = table;
    let Served { ending, answers } = serve(alloc, &mut table, source, sink);
    Ended {
        status: ending_status(ending),
        store: table.into_store(),
        answers,
    }
}
