ghost use Rattle.std.specs.Prelude.{◌≡◌, IfOk};
ghost use Rattle.serde_json.specs.View.{view};
ghost use Rattle.mx_ask.specs.Replies.{plain_refusal, limit_word, refusal_data};

use crate::{Limit, Refusal};
use mx_base::{FileId, Instant, Partition, Path};
use mx_lists::Text;
use serde_json::{Value, json};
use std::alloc::{AllocError, Global};

/// A refusal as JSON.
pub(crate) fn refusal_value(alloc: Global, refusal: &Refusal, seq: u64) -> Result<Value, AllocError>
    ensures { IfOk result (λ v. view v ≡ refusal_data refusal.now seq) }
{
    match refusal {
        Refusal::Line => line_value(alloc, seq),
        Refusal::InstantsUsedUp => used_up_value(alloc, seq),
        Refusal::NoMemory => no_memory_value(alloc, seq),
        Refusal::StoreFault => fault_value(alloc, seq),
        Refusal::Changed { path } => changed_value(alloc, path, seq),
        Refusal::TooMany { what, count } => too_many_value(alloc, *what, *count, seq),
        Refusal::DuplicateGroup { partition, file } => {
            duplicate_group_value(alloc, partition, file, seq)
        }
        Refusal::BadRow { file, row, column } => bad_row_value(alloc, *file, *row, *column, seq),
        Refusal::DuplicateRow { key } => duplicate_row_value(alloc, key, seq),
        Refusal::TooLarge { bytes } => too_large_value(alloc, *bytes, seq),
        Refusal::Expired { floor } => expired_value(alloc, *floor, seq),
    }
}

fn line_value(alloc: Global, seq: u64) -> Result<Value, AllocError>
    ensures { IfOk result (λ v. view v ≡ refusal_data Refusal.Line seq) }
{
    plain_value(alloc, "line", seq)
}

fn used_up_value(alloc: Global, seq: u64) -> Result<Value, AllocError>
    ensures { IfOk result (λ v. view v ≡ refusal_data Refusal.InstantsUsedUp seq) }
{
    plain_value(alloc, "InstantsUsedUp", seq)
}

fn no_memory_value(alloc: Global, seq: u64) -> Result<Value, AllocError>
    ensures { IfOk result (λ v. view v ≡ refusal_data Refusal.NoMemory seq) }
{
    plain_value(alloc, "NoMemory", seq)
}

fn fault_value(alloc: Global, seq: u64) -> Result<Value, AllocError>
    ensures { IfOk result (λ v. view v ≡ refusal_data Refusal.StoreFault seq) }
{
    plain_value(alloc, "StoreFault", seq)
}

fn plain_value(alloc: Global, word: &str, seq: u64) -> Result<Value, AllocError>
    ensures { IfOk result (λ v. view v ≡ plain_refusal word.now seq) }
{
    json!(in alloc; {"refused": word, "seq": seq})
}

fn changed_value(alloc: Global, path: &Path, seq: u64) -> Result<Value, AllocError>
    ensures { IfOk result (λ v. view v ≡ refusal_data (Refusal.Changed path.now) seq) }
{
    json!(in alloc; {"path": path.as_str(), "refused": "Changed", "seq": seq})
}

fn too_many_value(alloc: Global, what: Limit, count: u64, seq: u64) -> Result<Value, AllocError>
    ensures { IfOk result (λ v. view v ≡ refusal_data (Refusal.TooMany what count) seq) }
{
    json!(in alloc; {"count": count, "refused": "TooMany", "seq": seq, "what": limit_text(what)})
}

fn limit_text(what: Limit) -> &'static str
    ensures { result.now ≡ limit_word what }
{
    match what {
        Limit::Files => "files",
        Limit::Rows => "rows",
        Limit::Instants => "instants",
        Limit::Live => "live",
    }
}

fn duplicate_group_value(
    alloc: Global,
    partition: &Partition,
    file: &FileId,
    seq: u64,
) -> Result<Value, AllocError>
    ensures { IfOk result (λ v. view v ≡ refusal_data (Refusal.DuplicateGroup partition.now file.now) seq) }
{
    let file = file.to_text(alloc)?;
    json!(in alloc; {"file": file.as_str(), "partition": partition.as_str(), "refused": "DuplicateGroup", "seq": seq})
}

fn bad_row_value(
    alloc: Global,
    file: u64,
    row: u64,
    column: u32,
    seq: u64,
) -> Result<Value, AllocError>
    ensures { IfOk result (λ v. view v ≡ refusal_data (Refusal.BadRow file row column) seq) }
{
    json!(in alloc; {"column": column, "file": file, "refused": "BadRow", "row": row, "seq": seq})
}

fn duplicate_row_value(alloc: Global, key: &Text, seq: u64) -> Result<Value, AllocError>
    ensures { IfOk result (λ v. view v ≡ refusal_data (Refusal.DuplicateRow key.now) seq) }
{
    json!(in alloc; {"key": key.as_str(), "refused": "DuplicateRow", "seq": seq})
}

fn too_large_value(alloc: Global, bytes: u64, seq: u64) -> Result<Value, AllocError>
    ensures { IfOk result (λ v. view v ≡ refusal_data (Refusal.TooLarge bytes) seq) }
{
    json!(in alloc; {"bytes": bytes, "refused": "TooLarge", "seq": seq})
}

fn expired_value(alloc: Global, floor: Instant, seq: u64) -> Result<Value, AllocError>
    ensures { IfOk result (λ v. view v ≡ refusal_data (Refusal.Expired floor) seq) }
{
    let floor = floor.to_text(alloc)?;
    json!(in alloc; {"floor": floor.as_str(), "refused": "Expired", "seq": seq})
}
