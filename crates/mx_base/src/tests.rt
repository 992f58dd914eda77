use super::*;
use mx_lists::Same;
use std::alloc::Global;
use std::process::Abort;
use std::test::Fail;

const LETTERS: &str = "abcdefghijklmnopqrstuvwxyz0123456789abcdefghijklmnopqrstuvwxyz0123456789";

const ID: &str = "11111111-1111-4111-8111-111111111111";

#[test]
fn an_instant_is_seventeen_digits(rt: HostRuntime) -> Result<(), Fail> {
    let cases = [
        ("00000000000000000", Some(0)),
        ("00000000000000001", Some(1)),
        ("20250101000000000", Some(20_250_101_000_000_000)),
        ("99999999999999999", Some(99_999_999_999_999_999)),
        ("", None),
        ("2025010100000000", None),
        ("202501010000000000", None),
        ("2025010100000000a", None),
        ("2025-101000000000", None),
        ("+2025010100000000", None),
        ("\u{661}025010100000000", None),
    ];
    for (text, number) in cases {
        match Instant::parse(text) {
            Ok(at) => {
                assert_eq!(rt; Some(at.number()), number, "{text}");
                assert_eq!(rt; at.print().as_slice(), text.as_bytes());
            }
            Err(_) => assert_eq!(rt; number, None, "{text}"),
        }
    }
    Ok(())
}

#[test]
fn the_greatest_instant_has_no_next(rt: HostRuntime) -> Result<(), Fail> {
    let greatest = 99_999_999_999_999_999;
    let cases = [
        (0, Some(1)),
        (greatest - 1, Some(greatest)),
        (greatest, None),
    ];
    for (number, next) in cases {
        let at = Instant::new(number).expect(&rt, "an instant");
        assert_eq!(rt; at.next().map(Instant::number), next, "{number}");
    }
    assert_eq!(rt; Instant::new(greatest + 1), None);
    assert_eq!(rt; Instant::new(u64::MAX), None);
    Ok(())
}

#[test]
fn a_partition_is_1_to_64_bytes_and_begins_with_a_letter_or_digit(
    rt: HostRuntime,
) -> Result<(), Fail> {
    let alloc = rt.alloc();
    let cases = [
        ("", false),
        ("a", true),
        ("2024-01-01", true),
        ("date=2024-01-01", true),
        ("A.b_C", true),
        ("=a", false),
        ("-a", false),
        ("_a", false),
        (".a", false),
        ("a b", false),
        ("a/b", false),
        ("a\u{e9}", false),
        (&LETTERS[..64], true),
        (&LETTERS[..65], false),
    ];
    for (text, is_partition) in cases {
        match Partition::parse(alloc, text) {
            Ok(partition) => {
                assert!(rt; is_partition, "{text}");
                assert_eq!(rt; partition.as_str(), text);
                assert!(rt; partition.same(&partition.clone()?));
            }
            Err(error) => {
                assert_eq!(rt; error, NameError::BadName);
                assert!(rt; !is_partition, "{text}");
            }
        }
    }
    Ok(())
}

#[test]
fn a_file_id_is_lower_case_with_hyphens(rt: HostRuntime) -> Result<(), Fail> {
    let cases = [
        (ID, true),
        ("0a1b2c3d-4e5f-6789-abcd-ef0123456789", true),
        ("00000000-0000-0000-0000-000000000000", true),
        ("0A1B2C3D-4E5F-6789-ABCD-EF0123456789", false),
        ("0a1b2c3D-4e5f-6789-abcd-ef0123456789", false),
        ("0a1b2c3d4e5f6789abcdef0123456789", false),
        ("{0a1b2c3d-4e5f-6789-abcd-ef0123456789}", false),
        ("urn:uuid:0a1b2c3d-4e5f-6789-abcd-ef0123456789", false),
        ("0a1b2c3d-4e5f-6789-abcd-ef012345678", false),
        ("0a1b2c3d-4e5f-6789-abcd-ef012345678g", false),
        ("0a1b2c3d-4e5f-6789-abcdef-0123456789", false),
        ("", false),
    ];
    for (text, is_file_id) in cases {
        match FileId::parse(text) {
            Ok(id) => {
                assert!(rt; is_file_id, "{text}");
                assert_eq!(rt; id.print().as_slice(), text.as_bytes());
                assert!(rt; id.same(&id));
            }
            Err(_) => assert!(rt; !is_file_id, "{text}"),
        }
    }
    Ok(())
}

fn is_a_path_where(rt: &impl Abort, alloc: Global, text: &str, is_path: bool) {
    match Path::parse(alloc, text) {
        Ok(path) => {
            assert!(rt; is_path, "{text}");
            assert_eq!(rt; path.as_str(), text);
        }
        Err(error) => {
            assert_eq!(rt; error, NameError::BadName);
            assert!(rt; !is_path, "{text}");
        }
    }
}

#[test]
fn a_path_is_segments_of_letters_digits_and_marks(rt: HostRuntime) {
    let cases = [
        ("", false),
        ("a", true),
        ("a/b", true),
        ("=/-", true),
        (".hoodie/hoodie.properties", true),
        (".", false),
        ("..", false),
        ("...", true),
        ("a/..", false),
        ("a/./b", false),
        ("a//b", false),
        ("/a", false),
        ("a/", false),
        ("a b", false),
        ("a\\b", false),
        ("a\u{e9}", false),
    ];
    for (text, is_path) in cases {
        is_a_path_where(&rt, rt.alloc(), text, is_path);
    }
}

#[test]
fn a_segment_has_at_most_255_bytes_and_a_path_1024(rt: HostRuntime) -> Result<(), Fail> {
    let alloc = rt.alloc();
    let long = "a".repeat(alloc, 255)?;
    let longer = "a".repeat(alloc, 256)?;
    let whole = "abc/".repeat(alloc, 255)?;
    let most = format!(in alloc; "{whole}abcd")?;
    let more = format!(in alloc; "{whole}abcde")?;
    let cases = [
        (long.as_str(), true),
        (longer.as_str(), false),
        (most.as_str(), true),
        (more.as_str(), false),
    ];
    for (text, is_path) in cases {
        is_a_path_where(&rt, alloc, text, is_path);
    }
    Ok(())
}

#[test]
fn the_objects_of_a_table_have_these_names(rt: HostRuntime) -> Result<(), Fail> {
    let alloc = rt.alloc();
    let at = Instant::new(20_250_101_000_000_000).expect(&rt, "an instant");
    let id = FileId::parse(ID).ok().expect(&rt, "a file id");
    let partition = Partition::parse(alloc, "2024-01-01")
        .ok()
        .expect(&rt, "a partition");
    let commit = Path::of_commit(alloc, at)?;
    let log = Path::of_files_log(alloc, at)?;
    let file = Path::of_data_file(alloc, &partition, &id, at)?;
    let cases = [
        (&commit, ".hoodie/20250101000000000.commit"),
        (
            &log,
            ".hoodie/metadata/files/files-0000_20250101000000000.log",
        ),
        (
            &file,
            "2024-01-01/11111111-1111-4111-8111-111111111111_0-0-0_20250101000000000.parquet",
        ),
    ];
    for (path, text) in cases {
        assert_eq!(rt; path.as_str(), text);
    }
    let name = data_file_name(alloc, &id, at)?;
    assert_eq!(rt;
        Some(name.as_str()),
        file.as_str().strip_prefix("2024-01-01/")
    );
    assert_eq!(rt; at.to_text(alloc)?.as_str(), "20250101000000000");
    assert_eq!(rt; id.to_text(alloc)?.as_str(), ID);
    Ok(())
}

#[test]
fn a_commit_is_named_by_its_instant_above_0(rt: HostRuntime) -> Result<(), Fail> {
    let alloc = rt.alloc();
    let cases = [
        (".hoodie/00000000000000001.commit", Some(1)),
        (
            ".hoodie/99999999999999999.commit",
            Some(99_999_999_999_999_999),
        ),
        (".hoodie/00000000000000000.commit", None),
        (".hoodie/0000000000000001.commit", None),
        (".hoodie/000000000000000001.commit", None),
        (".hoodie/00000000000000001.commit.requested", None),
        (".hoodie/00000000000000001.inflight", None),
        ("hoodie/00000000000000001.commit", None),
        (".hoodie/metadata/00000000000000001.commit", None),
        (
            ".hoodie/metadata/files/files-0000_00000000000000001.log",
            None,
        ),
    ];
    for (text, number) in cases {
        let path = Path::parse(alloc, text).ok().expect(&rt, "a path");
        assert_eq!(rt;
            path.commit_instant().map(Instant::number),
            number,
            "{text}"
        );
    }
    Ok(())
}

#[test]
fn the_index_partitions_have_these_names_and_shards(rt: HostRuntime) -> Result<(), Fail> {
    let cases = [
        ("files", Some((Part::Files, 1, 0))),
        ("column_stats", Some((Part::ColumnStats, 4, 1))),
        ("bloom_filters", Some((Part::BloomFilters, 4, 2))),
        ("record_index", Some((Part::RecordIndex, 8, 3))),
        ("", None),
        ("file", None),
        ("files ", None),
        ("Files", None),
        ("record-index", None),
        ("record_index_v2", None),
    ];
    for (text, expected) in cases {
        match Part::parse(text) {
            Ok(part) => {
                assert_eq!(rt;
                    Some((part, part.shards(), part.place())),
                    expected,
                    "{text}"
                );
                assert_eq!(rt; part.name(), text);
                assert!(rt; part.same(&part) && !part.is_before(part));
                assert!(rt; Part::Files.is_before(part) == (part != Part::Files));
            }
            Err(BadName) => assert_eq!(rt; expected, None, "{text}"),
        }
    }
    Ok(())
}

#[test]
fn a_record_key_is_1_to_255_bytes_that_are_not_0(rt: HostRuntime) -> Result<(), Fail> {
    let alloc = rt.alloc();
    let most = "k".repeat(alloc, 255)?;
    let more = "k".repeat(alloc, 256)?;
    let cases = [
        ("", false),
        ("a", true),
        ("/ \u{e9}\n", true),
        ("a\0b", false),
        (most.as_str(), true),
        (more.as_str(), false),
    ];
    for (text, is_key) in cases {
        match RecordKey::parse(alloc, text) {
            Ok(key) => {
                assert!(rt; is_key, "{text}");
                assert_eq!(rt; key.as_str(), text);
                assert!(rt; key.same(&key.clone()?));
            }
            Err(error) => {
                assert_eq!(rt; error, NameError::BadName);
                assert!(rt; !is_key, "{text}");
            }
        }
    }
    Ok(())
}

#[test]
fn seats_go_up_to_16(rt: HostRuntime) -> Result<(), Fail> {
    for (number, is_seat) in [(0, true), (16, true), (17, false), (255, false)] {
        assert_eq!(rt; Seat::new(number).is_some(), is_seat);
        assert!(rt; Seat::new(number).map_or(true, |seat| seat.number() == number));
    }
    Ok(())
}

#[test]
fn the_shard_of_a_name_is_by_its_md5(rt: HostRuntime) -> Result<(), Fail> {
    let cases = [
        (Part::RecordIndex, "a", 1),
        (Part::RecordIndex, "abc", 0),
        (Part::RecordIndex, "b", 6),
        (Part::Files, "a", 0),
        (Part::Files, "b", 0),
        (Part::ColumnStats, "b", 2),
    ];
    for (part, name, expected) in cases {
        assert_eq!(rt; shard(part, name.as_bytes()), expected, "{name}");
    }
    Ok(())
}
