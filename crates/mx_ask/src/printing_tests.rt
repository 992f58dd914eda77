use super::*;
use mx_base::{FileId, Instant, Partition, Path};
use mx_lists::{Listed, Text};
use std::alloc::{AllocError, Global};
use std::test::Fail;

#[test]
fn a_commit_is_told_by_its_instant_and_the_paths_of_its_files(rt: HostRuntime) -> Result<(), Fail> {
    let alloc = rt.alloc();
    let path = "2024-01-01/11111111-1111-4111-8111-111111111111_0-0-0_20250101000000000.parquet";
    let mut files = Listed::new(alloc);
    files.push(Path::parse(alloc, path)?)?;
    let reply = Reply::Committed {
        at: Instant::parse("20250101000000000")?,
        files,
    };
    assert_eq!(rt;
        print_reply(alloc, &reply, 3)?.as_str(),
        "{\"files\":[\"2024-01-01/11111111-1111-4111-8111-111111111111_0-0-0_20250101000000000.parquet\"],\"instant\":\"20250101000000000\",\"ok\":\"commit\",\"seq\":3}"
    );
    Ok(())
}

#[test]
fn files_are_told_by_their_names_and_sizes(rt: HostRuntime) -> Result<(), Fail> {
    let alloc = rt.alloc();
    let name = "11111111-1111-4111-8111-111111111111_0-0-0_20250101000000000.parquet";
    let mut files = Listed::new(alloc);
    files.push(FileSize {
        name: Text::from_str(alloc, name)?,
        size: 5,
    })?;
    let reply = Reply::Files {
        at: Instant::parse("20250101000000000")?,
        files,
    };
    assert_eq!(rt;
        print_reply(alloc, &reply, 3)?.as_str(),
        "{\"at\":\"20250101000000000\",\"files\":[{\"name\":\"11111111-1111-4111-8111-111111111111_0-0-0_20250101000000000.parquet\",\"size\":5}],\"ok\":\"files\",\"seq\":3}"
    );
    Ok(())
}

#[test]
fn no_files_are_told_as_an_empty_list(rt: HostRuntime) -> Result<(), Fail> {
    let alloc = rt.alloc();
    let reply = Reply::Files {
        at: Instant::parse("00000000000000000")?,
        files: Listed::new(alloc),
    };
    assert_eq!(rt;
        print_reply(alloc, &reply, 0)?.as_str(),
        "{\"at\":\"00000000000000000\",\"files\":[],\"ok\":\"files\",\"seq\":0}"
    );
    Ok(())
}

#[test]
fn a_refusal_without_a_cause_of_the_ask_is_told_by_its_word(rt: HostRuntime) -> Result<(), Fail> {
    let cases = [
        (Refusal::Line, 1, "{\"refused\":\"line\",\"seq\":1}"),
        (
            Refusal::InstantsUsedUp,
            2,
            "{\"refused\":\"InstantsUsedUp\",\"seq\":2}",
        ),
        (
            Refusal::NoMemory,
            18446744073709551615,
            "{\"refused\":\"NoMemory\",\"seq\":18446744073709551615}",
        ),
        (
            Refusal::StoreFault,
            6,
            "{\"refused\":\"StoreFault\",\"seq\":6}",
        ),
    ];
    for (refusal, seq, line) in cases {
        assert_eq!(rt; refused(rt.alloc(), refusal, seq)?.as_str(), line);
    }
    Ok(())
}

#[test]
fn partitions_are_told_in_their_order(rt: HostRuntime) -> Result<(), Fail> {
    let alloc = rt.alloc();
    let cases: [(&str, &[&str], u64, &str); 2] = [
        (
            "00000000000000000",
            &[],
            0,
            "{\"at\":\"00000000000000000\",\"ok\":\"partitions\",\"partitions\":[],\"seq\":0}",
        ),
        (
            "20250101000000000",
            &["2024-01-01", "2024-01-02"],
            8,
            "{\"at\":\"20250101000000000\",\"ok\":\"partitions\",\"partitions\":[\"2024-01-01\",\"2024-01-02\"],\"seq\":8}",
        ),
    ];
    for (at, names, seq, line) in cases {
        let reply = Reply::Partitions {
            at: Instant::parse(at)?,
            partitions: partitions(alloc, names)?,
        };
        assert_eq!(rt; print_reply(alloc, &reply, seq)?.as_str(), line);
    }
    Ok(())
}

#[test]
fn what_stands_in_the_way_of_a_commit_is_told_by_its_path(rt: HostRuntime) -> Result<(), Fail> {
    let alloc = rt.alloc();
    let reply = Reply::Refused {
        refusal: Refusal::Changed {
            path: Path::parse(alloc, "p/a")?,
        },
    };
    assert_eq!(rt;
        print_reply(alloc, &reply, 0)?.as_str(),
        "{\"path\":\"p/a\",\"refused\":\"Changed\",\"seq\":0}"
    );
    Ok(())
}

#[test]
fn a_refusal_tells_how_many_are_too_many(rt: HostRuntime) -> Result<(), Fail> {
    let cases = [
        (
            Limit::Files,
            17,
            0,
            "{\"count\":17,\"refused\":\"TooMany\",\"seq\":0,\"what\":\"files\"}",
        ),
        (
            Limit::Rows,
            16385,
            0,
            "{\"count\":16385,\"refused\":\"TooMany\",\"seq\":0,\"what\":\"rows\"}",
        ),
        (
            Limit::Instants,
            18446744073709551615,
            5,
            "{\"count\":18446744073709551615,\"refused\":\"TooMany\",\"seq\":5,\"what\":\"instants\"}",
        ),
        (
            Limit::Live,
            0,
            1,
            "{\"count\":0,\"refused\":\"TooMany\",\"seq\":1,\"what\":\"live\"}",
        ),
    ];
    for (what, count, seq, line) in cases {
        let refusal = Refusal::TooMany { what, count };
        assert_eq!(rt; refused(rt.alloc(), refusal, seq)?.as_str(), line);
    }
    Ok(())
}

#[test]
fn a_group_that_stands_twice_is_told_by_its_partition_and_file(
    rt: HostRuntime,
) -> Result<(), Fail> {
    let alloc = rt.alloc();
    let reply = Reply::Refused {
        refusal: Refusal::DuplicateGroup {
            partition: Partition::parse(alloc, "2024-01-01")?,
            file: FileId::parse("11111111-1111-4111-8111-111111111111")?,
        },
    };
    assert_eq!(rt;
        print_reply(alloc, &reply, 0)?.as_str(),
        "{\"file\":\"11111111-1111-4111-8111-111111111111\",\"partition\":\"2024-01-01\",\"refused\":\"DuplicateGroup\",\"seq\":0}"
    );
    Ok(())
}

#[test]
fn a_look_below_the_floor_is_told_the_floor(rt: HostRuntime) -> Result<(), Fail> {
    let alloc = rt.alloc();
    let reply = Reply::Refused {
        refusal: Refusal::Expired {
            floor: Instant::parse("20250101000000001")?,
        },
    };
    assert_eq!(rt;
        print_reply(alloc, &reply, 22)?.as_str(),
        "{\"floor\":\"20250101000000001\",\"refused\":\"Expired\",\"seq\":22}"
    );
    Ok(())
}

#[test]
fn a_bad_row_is_told_by_its_file_its_row_and_its_element(rt: HostRuntime) -> Result<(), Fail> {
    let cases = [
        (
            (0, 0, 1),
            "{\"column\":1,\"file\":0,\"refused\":\"BadRow\",\"row\":0,\"seq\":0}",
        ),
        (
            (15, 16383, 2),
            "{\"column\":2,\"file\":15,\"refused\":\"BadRow\",\"row\":16383,\"seq\":0}",
        ),
    ];
    for ((file, row, column), line) in cases {
        let refusal = Refusal::BadRow { file, row, column };
        assert_eq!(rt; refused(rt.alloc(), refusal, 0)?.as_str(), line);
    }
    Ok(())
}

#[test]
fn a_row_that_stands_twice_is_told_by_its_key(rt: HostRuntime) -> Result<(), Fail> {
    let alloc = rt.alloc();
    let refusal = Refusal::DuplicateRow {
        key: Text::from_str(alloc, "a")?,
    };
    assert_eq!(rt;
        refused(alloc, refusal, 0)?.as_str(),
        "{\"key\":\"a\",\"refused\":\"DuplicateRow\",\"seq\":0}"
    );
    Ok(())
}

#[test]
fn a_file_that_is_too_large_is_told_by_its_bytes(rt: HostRuntime) -> Result<(), Fail> {
    let refusal = Refusal::TooLarge { bytes: 4194305 };
    assert_eq!(rt;
        refused(rt.alloc(), refusal, 3)?.as_str(),
        "{\"bytes\":4194305,\"refused\":\"TooLarge\",\"seq\":3}"
    );
    Ok(())
}

fn refused(alloc: Global, refusal: Refusal, seq: u64) -> Result<Text, AllocError> {
    print_reply(alloc, &Reply::Refused { refusal }, seq)
}

fn partitions(alloc: Global, names: &[&str]) -> Result<Listed<Text>, Fail> {
    let mut partitions = Listed::new(alloc);
    for name in names {
        partitions.push(Text::from_str(alloc, name)?)?;
    }
    Ok(partitions)
}
