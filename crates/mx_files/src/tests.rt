ghost use Rattle.std.specs.Prelude.{◌<◌, ◌^◌, All, IfOk};

use super::*;
use mx_base::{Entry, FileAt, FileId, Instant, Partition};
use mx_payload::{Payload, decode};
use std::alloc::Global;
use std::test::Fail;

// A partition, a file id and a size.
type Written = (&'static str, &'static str, u32);

const FIRST: Written = ("2024-01-01", "11111111-1111-4111-8111-111111111111", 5);

const SECOND: Written = ("2024-01-02", "22222222-2222-4222-8222-222222222222", 1);

const SMALL: Written = ("a", "11111111-1111-4111-8111-111111111111", 7);

const SMALL_TOO: Written = ("a", "22222222-2222-4222-8222-222222222222", 3);

const CAPITAL: Written = ("Z", "22222222-2222-4222-8222-222222222222", 0);

// The new files, those that are taken out, and the delta.
const CASES: [(&[Written], &[Written], &str); 6] = [
    (&[], &[], ""),
    (
        &[SECOND, FIRST],
        &[],
        "shard 0
2024-01-01: 11111111-1111-4111-8111-111111111111_0-0-0_20250101000000000.parquet 5 stands
2024-01-02: 22222222-2222-4222-8222-222222222222_0-0-0_20250101000000000.parquet 1 stands
__all_partitions__: 2024-01-01 2024-01-02
",
    ),
    (
        &[],
        &[FIRST, SECOND],
        "shard 0
2024-01-01: 11111111-1111-4111-8111-111111111111_0-0-0_20250101000000000.parquet 0 deleted
2024-01-02: 22222222-2222-4222-8222-222222222222_0-0-0_20250101000000000.parquet 0 deleted
",
    ),
    (
        &[SMALL, CAPITAL],
        &[],
        "shard 0
Z: 22222222-2222-4222-8222-222222222222_0-0-0_20250101000000000.parquet 0 stands
__all_partitions__: Z a
a: 11111111-1111-4111-8111-111111111111_0-0-0_20250101000000000.parquet 7 stands
",
    ),
    (
        &[SMALL_TOO, SMALL],
        &[],
        "shard 0
__all_partitions__: a
a: 11111111-1111-4111-8111-111111111111_0-0-0_20250101000000000.parquet 7 stands 22222222-2222-4222-8222-222222222222_0-0-0_20250101000000000.parquet 3 stands
",
    ),
    (
        &[FIRST],
        &[FIRST],
        "shard 0
2024-01-01: 11111111-1111-4111-8111-111111111111_0-0-0_20250101000000000.parquet 0 deleted
__all_partitions__: 2024-01-01
",
    ),
];

fn file_of(alloc: Global, file: Written) -> Result<FileAt, Fail>
    ensures { IfOk result (λ file. file.size < 2 ^ 63) }
{
    let (partition, file, size) = file;
    Ok(FileAt {
        partition: Partition::parse(alloc, partition)?,
        file: FileId::parse(file)?,
        at: Instant::new(20_250_101_000_000_000).ok_or("no instant")?,
        size: u64::from(size),
    })
}

fn files_of(alloc: Global, files: &[Written]) -> Result<Vec<FileAt>, Fail>
    ensures { IfOk result (λ files. All (λ file. file.size < 2 ^ 63) files.items) }
{
    let mut all = Vec::new(alloc);
    for &file in files {
        all.push(file_of(alloc, file)?)?;
    }
    Ok(all)
}

fn payload_text(alloc: Global, payload: &Payload) -> Result<String, Fail> {
    let mut text = String::new(alloc);
    match payload {
        Payload::Partitions(names) => {
            for name in names.as_slice() {
                text.push_str(format!(in alloc; " {}", name.as_str())?.as_str())?;
            }
        }
        Payload::Files(words) => {
            for word in words.as_slice() {
                let name = word.name.as_str();
                let state = if word.deleted { "deleted" } else { "stands" };
                text.push_str(format!(in alloc; " {name} {} {state}", word.size)?.as_str())?;
            }
        }
        _ => text.push_str("another payload")?,
    }
    Ok(text)
}

fn entry_text(alloc: Global, entry: &Entry) -> Result<String, Fail> {
    let key = std::str::from_utf8(entry.key.as_slice())?;
    let payload = decode(alloc, entry.value.as_slice())?;
    let payload = payload_text(alloc, &payload)?;
    Ok(format!(in alloc; "{key}:{payload}\n")?)
}

// The shards with a line for each entry.
fn delta_text(alloc: Global, news: &[Written], gone: &[Written]) -> Result<String, Fail> {
    let news = files_of(alloc, news)?;
    let gone = files_of(alloc, gone)?;
    let mut text = String::new(alloc);
    for shard in delta(alloc, news.as_slice(), gone.as_slice())? {
        text.push_str(format!(in alloc; "shard {}\n", shard.shard)?.as_str())?;
        for entry in shard.entries.as_slice() {
            text.push_str(entry_text(alloc, entry)?.as_str())?;
        }
    }
    Ok(text)
}

#[test]
fn an_action_says_its_files_and_the_partitions_of_the_new_ones_in_the_order_of_keys(
    rt: HostRuntime,
) -> Result<(), Fail> {
    for (news, gone, text) in CASES {
        assert_eq!(rt; delta_text(rt.alloc(), news, gone)?.as_str(), text);
    }
    Ok(())
}

// Whether the delta of these new files has these values, in the order of keys.
fn has_values(alloc: Global, news: &[Written], values: &[&[u8]]) -> Result<bool, Fail> {
    let news = files_of(alloc, news)?;
    let shards = delta(alloc, news.as_slice(), &[])?;
    let [shard] = shards.as_slice() else {
        return Ok(false);
    };
    let entries = shard.entries.as_slice();
    Ok(
        entries.len() == values.len()
            && entries
                .iter()
                .zip(values)
                .all(|(entry, value)| entry.value.as_slice() == *value),
    )
}

#[test]
fn a_list_of_one_file_is_its_name_size_and_flag_in_one_block(rt: HostRuntime) -> Result<(), Fail> {
    let file: &[u8] =
        b"\x00\x04\x02\x02\x88\x0111111111-1111-4111-8111-111111111111_0-0-0_20250101000000000.parquet\x0a\x00\x00\x00\x00\x00";
    let partitions: &[u8] = b"\x00\x02\x02\x02\x142024-01-01\x00\x00\x00\x00\x00\x00";
    assert!(rt; has_values(rt.alloc(), &[FIRST], &[file, partitions])?);
    Ok(())
}
