// Commits that are refused.
use crate::tests::{MOMENT, committed, config, file, file_with, files, made, table, table_of};
use mx_ask::FileRows;
use mx_base::{FileId, Instant, Partition, Path};
use mx_lists::{Listed, Text};
use mx_meta::{CommitMeta, PartitionStats, WriteStat};
use mx_model::Action;
use mx_schema::{Row, RowValue};
use mx_store::{MemStore, QuietStore};
use mx_world::{Mirror, World};
use std::alloc::{AllocError, Global};
use std::marker::Brand;
use std::test::Fail;

#[test]
fn seventeen_files_and_two_of_one_group_are_refused(rt: HostRuntime) -> Result<(), Fail> {
    let alloc = rt.alloc();
    assert_eq!(rt; made(alloc, 17, MOMENT)?, ("too many", 0));
    let mut table = table(alloc, MOMENT, 100)?;
    let mut twice = files(alloc, 3)?;
    twice.push(file(alloc, "00000001-1111-4111-8111-111111111111")?)?;
    let said = committed(alloc, &mut table, twice.as_slice())?;
    assert_eq!(rt; said, "double");
    assert_eq!(rt; table.seq(), 0);
    Ok(())
}

// A commit that lists so many files, each of a group of its own.
fn listing(alloc: Global, count: u32) -> Result<Action, Fail> {
    let partition = Partition::parse(alloc, "2024-01-02")?;
    let at = Instant::parse("00000000000000001")?;
    let mut stats = Listed::new(alloc);
    for number in 0..count {
        let id = format!(in alloc; "{number:08}-1111-4111-8111-111111111111")?;
        let file_id = FileId::parse(id.as_str())?;
        stats.push(WriteStat {
            file_id,
            file_size_in_bytes: 0,
            num_writes: 0,
            path: Path::of_data_file(alloc, &partition, &file_id, at)?,
            prev_commit: None,
        })?;
    }
    let mut partitions = Listed::new(alloc);
    partitions.push(PartitionStats { partition, stats })?;
    Ok(Action {
        at,
        meta: CommitMeta { partitions },
    })
}

// The request of each of so many instants.
fn requests(alloc: Global, count: u64) -> Result<Vec<Path>, Fail> {
    let mut paths = Vec::new(alloc);
    for number in 0..count {
        let path = format!(in alloc; ".hoodie/{number:016}1.commit.requested")?;
        paths.push(Path::parse(alloc, path.as_str())?)?;
    }
    Ok(paths)
}

// The word of a commit of so many files to a table of so many instants and live files, and the number of changes.
fn crowded(
    alloc: Global,
    instants: u64,
    live: u32,
    count: u32,
) -> Result<(&'static str, u64), Fail> {
    let commits = [listing(alloc, live)?];
    let paths = requests(alloc, instants)?;
    let mirror = Mirror::of(alloc, config(alloc, "a:int64")?, paths.as_slice(), &commits)?;
    let Some(last) = Instant::new(MOMENT) else {
        return Err(Fail::new("the last instant is one"));
    };
    let mut table: World<QuietStore, Brand> = World::over(
        QuietStore::over(MemStore::empty(alloc)),
        mirror,
        last,
        0,
    );
    let said = committed(alloc, &mut table, files(alloc, count)?.as_slice())?;
    Ok((said, table.seq()))
}

#[test]
fn a_table_takes_8192_instants_and_8192_live_files(rt: HostRuntime) -> Result<(), Fail> {
    let alloc = rt.alloc();
    assert_eq!(rt; crowded(alloc, 8191, 8191, 1)?, ("committed", 7));
    assert_eq!(rt; crowded(alloc, 8192, 0, 1)?, ("too many", 0));
    assert_eq!(rt; crowded(alloc, 8191, 8192, 1)?, ("too many", 0));
    assert_eq!(rt; crowded(alloc, 8191, 8192, 0)?, ("committed", 5));
    Ok(())
}

// A row of a key and a text.
fn text_row(alloc: Global, key: &str, text: &str) -> Result<Row, AllocError> {
    let mut row = Listed::new(alloc);
    row.push(RowValue::Text(Text::from_str(alloc, key)?))?;
    row.push(RowValue::Text(Text::from_str(alloc, text)?))?;
    Ok(row)
}

// A file of so many rows of 4,096 bytes of text.
fn long_texts(alloc: Global, id: &str, count: u64) -> Result<FileRows, Fail> {
    let text = "t".repeat(alloc, 4096)?;
    let mut rows = Listed::new(alloc);
    for number in 0..count {
        let key = format!(in alloc; "{number}")?;
        rows.push(text_row(alloc, key.as_str(), text.as_str())?)?;
    }
    file_with(alloc, id, rows)
}

// A file of so many rows without a cell, all of one key.
fn short_rows(alloc: Global, id: &str, count: u64) -> Result<FileRows, Fail> {
    let mut rows = Listed::new(alloc);
    for _ in 0..count {
        let mut short = Listed::new(alloc);
        short.push(RowValue::Text(Text::from_str(alloc, "a")?))?;
        rows.push(short)?;
    }
    file_with(alloc, id, rows)
}

// A file of two rows of one key.
fn twins(alloc: Global, id: &str) -> Result<FileRows, Fail> {
    let mut rows = Listed::new(alloc);
    rows.push(text_row(alloc, "a", "")?)?;
    rows.push(text_row(alloc, "a", "b")?)?;
    file_with(alloc, id, rows)
}

const FIRST: &str = "00000001-1111-4111-8111-111111111111";

const SECOND: &str = "00000002-1111-4111-8111-111111111111";

// Two files that are refused, by what is looked for before all else that is wrong with them.
fn refused_files(alloc: Global, case: u32) -> Result<(&'static str, FileRows, FileRows), Fail> {
    Ok(match case {
        0 => (
            "too many rows",
            short_rows(alloc, FIRST, 1)?,
            short_rows(alloc, FIRST, 16_385)?,
        ),
        1 => ("double", short_rows(alloc, FIRST, 1)?, twins(alloc, FIRST)?),
        2 => (
            "bad row",
            twins(alloc, FIRST)?,
            short_rows(alloc, SECOND, 1)?,
        ),
        3 => (
            "double row",
            long_texts(alloc, FIRST, 1030)?,
            twins(alloc, SECOND)?,
        ),
        _ => (
            "too large",
            long_texts(alloc, FIRST, 1)?,
            long_texts(alloc, SECOND, 1030)?,
        ),
    })
}

// The wanted word of a case, that of the commit behind the last instant, and the number of changes.
fn refused(alloc: Global, case: u32, last: u64) -> Result<(&'static str, &'static str, u64), Fail> {
    let (wanted, first, second) = refused_files(alloc, case)?;
    let files = vec![in alloc; first, second]?;
    let mut table = table_of(alloc, "s:string", last, 100)?;
    let said = committed(alloc, &mut table, files.as_slice())?;
    Ok((wanted, said, table.seq()))
}

#[test]
fn rows_are_refused_in_the_order_of_the_refusals_and_before_the_last_instant(
    rt: HostRuntime,
) -> Result<(), Fail> {
    for case in 0..5_u32 {
        for last in [MOMENT, 99_999_999_999_999_999] {
            let (wanted, said, changes) = refused(rt.alloc(), case, last)?;
            assert_eq!(rt; said, wanted);
            assert_eq!(rt; changes, 0);
        }
    }
    Ok(())
}
