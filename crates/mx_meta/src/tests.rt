use super::*;
use mx_base::{FileId, Instant, Partition, Path};
use mx_lists::Listed;
use std::alloc::{AllocError, Global};
use std::test::Fail;

const ONE: &str = "11111111-1111-4111-8111-111111111111";

const TWO: &str = "22222222-2222-4222-8222-222222222222";

#[test]
fn a_commit_is_printed_with_its_partitions_and_files(rt: HostRuntime) -> Result<(), Fail> {
    let alloc = rt.alloc();
    let first = Instant::new(20_250_101_000_000_000).expect(&rt, "an instant");
    let later = Instant::new(20_250_102_000_000_000).expect(&rt, "an instant");
    let day = stats_of(alloc, "2024-01-01", &[(ONE, 693, 1, first, None)])?.expect(&rt, "names");
    let two = [
        (ONE, 0, 0, later, Some(first)),
        (TWO, u64::MAX, 7, later, None),
    ];
    let both = stats_of(alloc, "2024-01-01", &two)?.expect(&rt, "names");
    let none = stats_of(alloc, "a=b", &[])?.expect(&rt, "names");
    let mut one_day = Listed::new(alloc);
    one_day.push(day)?;
    let mut two_days = Listed::new(alloc);
    two_days.push(both)?;
    two_days.push(none)?;
    let cases = [
        (Listed::new(alloc), "{\"partitionToWriteStats\":{}}"),
        (
            one_day,
            "{\"partitionToWriteStats\":{\"2024-01-01\":[{\"fileId\":\"11111111-1111-4111-8111-111111111111\",\"fileSizeInBytes\":693,\"numWrites\":1,\"path\":\"2024-01-01/11111111-1111-4111-8111-111111111111_0-0-0_20250101000000000.parquet\",\"prevCommit\":\"null\"}]}}",
        ),
        (
            two_days,
            "{\"partitionToWriteStats\":{\"2024-01-01\":[{\"fileId\":\"11111111-1111-4111-8111-111111111111\",\"fileSizeInBytes\":0,\"numWrites\":0,\"path\":\"2024-01-01/11111111-1111-4111-8111-111111111111_0-0-0_20250102000000000.parquet\",\"prevCommit\":\"20250101000000000\"},{\"fileId\":\"22222222-2222-4222-8222-222222222222\",\"fileSizeInBytes\":18446744073709551615,\"numWrites\":7,\"path\":\"2024-01-01/22222222-2222-4222-8222-222222222222_0-0-0_20250102000000000.parquet\",\"prevCommit\":\"null\"}],\"a=b\":[]}}",
        ),
    ];
    for (partitions, line) in cases {
        let meta = CommitMeta { partitions };
        assert_eq!(rt; meta.print(alloc)?.as_slice(), line.as_bytes());
    }
    Ok(())
}

fn stats_of(
    alloc: Global,
    partition: &str,
    files: &[(&str, u64, u64, Instant, Option<Instant>)],
) -> Result<Option<PartitionStats>, AllocError> {
    let Ok(partition) = Partition::parse(alloc, partition) else {
        return Ok(None);
    };
    let mut stats = Listed::new(alloc);
    for file in files {
        let (id, size, writes, at, prev_commit) = *file;
        let Ok(file_id) = FileId::parse(id) else {
            return Ok(None);
        };
        let path = Path::of_data_file(alloc, &partition, &file_id, at)?;
        stats.push(WriteStat {
            file_id,
            file_size_in_bytes: size,
            num_writes: writes,
            path,
            prev_commit,
        })?;
    }
    Ok(Some(PartitionStats { partition, stats }))
}
