ghost use Rattle.std.specs.Prelude.{◌≡◌};
ghost use Rattle.mdt.specs.Ends as spec;

use mx_base::Path;
use mx_hub::Ending;
use mx_open::{InitError, ReadError};

/// How a command ended.
#[derive(Debug, Drop)]
pub enum Status {
    /// The table was made, or the input was read to its end.
    Done,
    NoMemory,
    /// The words are those of no command.
    Words,
    SourceFault,
    SinkFault,
    /// The store failed while the table was opened or made.
    StoreFault,
    NotATable,
    /// The least path in byte order that shows damage.
    Damaged { path: Path },
    /// The table is of another version than 6.
    Version { found: u64 },
    /// A new table needs a folder that holds nothing; the first path in byte order.
    NotEmpty { path: Path },
    /// 2^40 bytes were read.
    TooLong,
}

pub fn ending_status(ending: Ending) -> Status
    ensures { result ≡ spec.ending_status ending }
{
    match ending {
        Ending::Done => Status::Done,
        Ending::NoMemory => Status::NoMemory,
        Ending::SourceFault => Status::SourceFault,
        Ending::SinkFault => Status::SinkFault,
        Ending::TooLong => Status::TooLong,
    }
}

pub fn read_status(error: ReadError) -> Status
    ensures { result ≡ spec.read_status error }
{
    match error {
        ReadError::NotATable => Status::NotATable,
        ReadError::Version { found } => Status::Version { found },
        ReadError::Damaged { path } => Status::Damaged { path },
        ReadError::StoreFault => Status::StoreFault,
        ReadError::NoMemory => Status::NoMemory,
    }
}

pub fn init_status(error: InitError) -> Status
    ensures { result ≡ spec.init_status error }
{
    match error {
        InitError::NotEmpty { path } => Status::NotEmpty { path },
        InitError::StoreFault => Status::StoreFault,
        InitError::NoMemory => Status::NoMemory,
    }
}
