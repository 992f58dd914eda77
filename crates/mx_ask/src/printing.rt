ghost use Rattle.std.specs.Prelude.{◌≡◌, IfOk, map};
ghost use Rattle.serde_json.specs.Data.{string};
ghost use Rattle.serde_json.specs.View.{view};
ghost use Rattle.mx_ask.specs.Replies.{size_data, reply_data, reply_text};

use crate::refusals::refusal_value;
use crate::{FileSize, Reply};
use mx_base::{Instant, Path};
use mx_lists::Text;
use mx_text::print;
use serde_json::{Value, json};
use std::alloc::{AllocError, Global};

/// A reply as one line, without a newline.
pub fn print_reply(alloc: Global, reply: &Reply, seq: u64) -> Result<Text, AllocError>
    ensures { IfOk result (λ line. line ≡ reply_text reply.now seq) }
{
    let value = reply_value(alloc, reply, seq)?;
    print(alloc, &value)
}

fn reply_value(alloc: Global, reply: &Reply, seq: u64) -> Result<Value, AllocError>
    ensures { IfOk result (λ v. view v ≡ reply_data reply.now seq) }
{
    match reply {
        Reply::Committed { at, files } => committed_value(alloc, *at, files.as_slice(), seq),
        Reply::Files { at, files } => files_value(alloc, *at, files.as_slice(), seq),
        Reply::Partitions { at, partitions } => {
            partitions_value(alloc, *at, partitions.as_slice(), seq)
        }
        Reply::Refused { refusal } => refusal_value(alloc, refusal, seq),
    }
}

fn committed_value(
    alloc: Global,
    at: Instant,
    files: &[Path],
    seq: u64,
) -> Result<Value, AllocError>
    ensures { IfOk result (λ v. view v ≡ reply_data (Reply.Committed at files.now) seq) }
{
    let paths = path_values(alloc, files)?;
    let at = at.to_text(alloc)?;
    json!(in alloc; {"files": paths, "instant": at.as_str(), "ok": "commit", "seq": seq})
}

fn files_value(
    alloc: Global,
    at: Instant,
    files: &[FileSize],
    seq: u64,
) -> Result<Value, AllocError>
    ensures { IfOk result (λ v. view v ≡ reply_data (Reply.Files at files.now) seq) }
{
    let sizes = size_values(alloc, files)?;
    let at = at.to_text(alloc)?;
    json!(in alloc; {"at": at.as_str(), "files": sizes, "ok": "files", "seq": seq})
}

fn partitions_value(
    alloc: Global,
    at: Instant,
    partitions: &[Text],
    seq: u64,
) -> Result<Value, AllocError>
    ensures { IfOk result (λ v. view v ≡ reply_data (Reply.Partitions at partitions.now) seq) }
{
    let names = partition_values(alloc, partitions)?;
    let at = at.to_text(alloc)?;
    json!(in alloc; {"at": at.as_str(), "ok": "partitions", "partitions": names, "seq": seq})
}

fn path_values(alloc: Global, paths: &[Path]) -> Result<Vec<Value>, AllocError>
    ensures { IfOk result (λ vs. map view vs.items ≡ map string paths.now) }
{
    let mut values = Vec::new(alloc);
    for path in paths {
        values.push(Value::try_from_str(alloc, path.as_str())?)?;
    }
    Ok(values)
}

fn partition_values(alloc: Global, partitions: &[Text]) -> Result<Vec<Value>, AllocError>
    ensures { IfOk result (λ vs. map view vs.items ≡ map string partitions.now) }
{
    let mut values = Vec::new(alloc);
    for partition in partitions {
        values.push(Value::try_from_str(alloc, partition.as_str())?)?;
    }
    Ok(values)
}

fn size_values(alloc: Global, files: &[FileSize]) -> Result<Vec<Value>, AllocError>
    ensures { IfOk result (λ vs. map view vs.items ≡ map size_data files.now) }
{
    let mut values = Vec::new(alloc);
    for file in files {
        values.push(json!(in alloc; {"name": file.name.as_str(), "size": file.size})?)?;
    }
    Ok(values)
}
