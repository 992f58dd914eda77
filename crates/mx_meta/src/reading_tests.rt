use super::*;
use mx_base::{Instant, Part, Path};
use mx_lists::{Bytes, Listed};
use std::alloc::{AllocError, Global};
use std::test::Fail;

#[derive(Clone, Copy)]
pub(crate) enum Kind {
    Commit,
    Paths,
    Drops,
    Rollback,
    Index,
    Compact,
    Delta,
    Bases,
}

const LINE: &str =
    "{\"partitionToWriteStats\":{\"2024-01-01\":[{\"fileId\":\"11111111-1111-4111-8111-111111111111\",\"fileSizeInBytes\":693,\"numWrites\":1,\"path\":\"2024-01-01/11111111-1111-4111-8111-111111111111_0-0-0_20250101000000000.parquet\",\"prevCommit\":\"null\"}]}}";

#[test]
fn a_commit_is_read_and_printed_on_the_same_line(rt: HostRuntime) -> Result<(), Fail> {
    let alloc = rt.alloc();
    let lines = [
        LINE,
        "{\"partitionToWriteStats\":{}}",
        "{\"partitionToWriteStats\":{\"a\":[],\"b\":[{\"fileId\":\"11111111-1111-4111-8111-111111111111\",\"fileSizeInBytes\":9223372036854775807,\"numWrites\":0,\"path\":\"x\",\"prevCommit\":\"00000000000000000\"},{\"fileId\":\"22222222-2222-4222-8222-222222222222\",\"fileSizeInBytes\":0,\"numWrites\":9223372036854775807,\"path\":\"b/y\",\"prevCommit\":\"20250101000000000\"}]}}",
    ];
    for line in lines {
        assert!(rt; is_printed_as(alloc, Kind::Commit, line, line), "{line}");
    }
    Ok(())
}

#[test]
fn lists_and_plans_are_read_and_printed_on_the_same_line(rt: HostRuntime) -> Result<(), Fail> {
    let alloc = rt.alloc();
    let lines = [
        (Kind::Paths, "{\"paths\":[]}"),
        (Kind::Paths, "{\"paths\":[\"b/y\",\"a/x\",\"b/y\"]}"),
        (Kind::Drops, "{\"drop\":[\"Z\",\"a\",\"a/x\",\"b\"]}"),
        (
            Kind::Rollback,
            "{\"instant\":\"00000000000000001\",\"paths\":[\"b\",\"a\"]}",
        ),
        (
            Kind::Index,
            "{\"part\":\"record_index\",\"upto\":\"00000000000000000\"}",
        ),
        (
            Kind::Compact,
            "{\"parts\":[\"files\",\"column_stats\",\"bloom_filters\",\"record_index\"],\"upto\":\"99999999999999999\"}",
        ),
    ];
    for (kind, line) in lines {
        assert!(rt; is_printed_as(alloc, kind, line, line), "{line}");
    }
    Ok(())
}

#[test]
fn blanks_and_the_order_of_names_do_not_count(rt: HostRuntime) -> Result<(), Fail> {
    let alloc = rt.alloc();
    let spellings = [
        (
            Kind::Rollback,
            " {\"paths\" :\n[ \"\\u0061\" ] , \"instant\":\"20250101000000000\"}\t",
            "{\"instant\":\"20250101000000000\",\"paths\":[\"a\"]}",
        ),
        (
            Kind::Commit,
            "{\"partitionToWriteStats\":{\"b\":[],\"a\":[{\"prevCommit\":\"null\",\"path\":\"a/x\",\"numWrites\":1,\"fileSizeInBytes\":2,\"fileId\":\"11111111-1111-4111-8111-111111111111\"}]}}",
            "{\"partitionToWriteStats\":{\"a\":[{\"fileId\":\"11111111-1111-4111-8111-111111111111\",\"fileSizeInBytes\":2,\"numWrites\":1,\"path\":\"a/x\",\"prevCommit\":\"null\"}],\"b\":[]}}",
        ),
        (
            Kind::Index,
            "{\"part\":1,\"upto\":\"20250101000000000\",\"part\":\"files\"}",
            "{\"part\":\"files\",\"upto\":\"20250101000000000\"}",
        ),
    ];
    for (kind, spelling, line) in spellings {
        assert!(rt; is_printed_as(alloc, kind, spelling, line), "{spelling}");
    }
    Ok(())
}

#[test]
fn what_is_no_object_is_refused_for_no_field(rt: HostRuntime) -> Result<(), Fail> {
    let alloc = rt.alloc();
    for text in ["", "[]", "\"part\"", "{\"part\":\"files\"", "{} {}"] {
        assert!(rt;
            is_refused_for(alloc, Kind::Index, text.as_bytes(), ""),
            "{text}"
        );
    }
    assert!(rt; is_refused_for(alloc, Kind::Index, b"{\"part\":\"\xff\"}", ""));
    Ok(())
}

#[test]
fn a_refusal_names_the_least_bad_field(rt: HostRuntime) -> Result<(), Fail> {
    let alloc = rt.alloc();
    let rows = [
        ("{}", "part"),
        ("{\"part\":\"files\"}", "upto"),
        ("{\"upto\":\"20250101000000000\"}", "part"),
        (
            "{\"part\":\"Files\",\"upto\":\"20250101000000000\"}",
            "part",
        ),
        ("{\"part\":\"files\",\"upto\":20250101000000000}", "upto"),
        ("{\"part\":1,\"upto\":\"2025\"}", "part"),
        (
            "{\"part\":\"files\",\"part\":1,\"upto\":\"20250101000000000\"}",
            "part",
        ),
        ("{\"a\":1,\"part\":1}", "a"),
        (
            "{\"\":1,\"part\":\"files\",\"upto\":\"20250101000000000\"}",
            "",
        ),
        ("{\"part\":\"files\",\"q\":1}", "q"),
        ("{\"part\":1,\"q\":1}", "part"),
        (
            "{\"part\":\"files\",\"upto\":\"20250101000000000\",\"z\":1}",
            "z",
        ),
    ];
    for (text, field) in rows {
        assert!(rt;
            is_refused_for(alloc, Kind::Index, text.as_bytes(), field),
            "{text}"
        );
    }
    Ok(())
}

#[test]
fn lists_out_of_order_are_bad_fields(rt: HostRuntime) -> Result<(), Fail> {
    let alloc = rt.alloc();
    let rows = [
        (
            Kind::Compact,
            "{\"parts\":[\"column_stats\",\"files\"],\"upto\":\"20250101000000000\"}",
            "parts",
        ),
        (
            Kind::Compact,
            "{\"parts\":[\"files\",\"files\"],\"upto\":\"20250101000000000\"}",
            "parts",
        ),
        (Kind::Drops, "{\"drop\":[\"b\",\"a\"]}", "drop"),
        (Kind::Drops, "{\"drop\":[\"a\",\"a\"]}", "drop"),
    ];
    for (kind, text, field) in rows {
        assert!(rt;
            is_refused_for(alloc, kind, text.as_bytes(), field),
            "{text}"
        );
    }
    Ok(())
}

#[test]
fn other_values_and_other_names_are_bad_fields(rt: HostRuntime) -> Result<(), Fail> {
    let alloc = rt.alloc();
    let stats = "partitionToWriteStats";
    let no_instant = "{\"instant\":\"00000000000000000\",\"paths\":[]}";
    let no_path = "{\"instant\":\"20250101000000000\",\"paths\":[\"\"]}";
    let no_partition = "{\"partitionToWriteStats\":{\"a/b\":[]}}";
    let one_more = "{\"partitionToWriteStats\":{},\"operationType\":1}";
    let rows = [
        (
            Kind::Compact,
            "{\"parts\":[\"files\"],\"upto\":null}",
            "upto",
        ),
        (Kind::Paths, "{\"paths\":[\"a\",\"..\"]}", "paths"),
        (Kind::Paths, "{\"more\":1,\"paths\":[]}", "more"),
        (Kind::Rollback, no_instant, "instant"),
        (Kind::Rollback, no_path, "paths"),
        (Kind::Commit, "{\"partitionToWriteStats\":[]}", stats),
        (Kind::Commit, one_more, "operationType"),
        (Kind::Commit, no_partition, stats),
    ];
    for (kind, text, field) in rows {
        assert!(rt;
            is_refused_for(alloc, kind, text.as_bytes(), field),
            "{text}"
        );
    }
    Ok(())
}

#[test]
fn an_entry_of_a_commit_has_five_fields_of_their_kinds(rt: HostRuntime) -> Result<(), Fail> {
    let alloc = rt.alloc();
    let good =
        "\"fileId\":\"11111111-1111-4111-8111-111111111111\",\"fileSizeInBytes\":1,\"numWrites\":1,\"path\":\"x\",\"prevCommit\":\"null\"";
    let changes = [
        (",\"prevCommit\":\"null\"", ""),
        ("\"null\"", "null"),
        ("\"null\"", "\"0\""),
        ("\"numWrites\":1", "\"numWrites\":9223372036854775808"),
        ("\"numWrites\":1", "\"numWrites\":1.0"),
        (
            "\"fileSizeInBytes\":1",
            "\"fileSizeInBytes\":9223372036854775808",
        ),
        ("-111111111111", "-11111111111F"),
        ("\"x\"", "\"a//x\""),
        ("\"path\"", "\"more\":1,\"path\""),
    ];
    for (part, other) in changes {
        let entry = good.replace(alloc, part, other)?;
        let entry = entry.as_str();
        let text = format!(in alloc; "{{\"partitionToWriteStats\":{{\"a\":[{{{entry}}}]}}}}")?;
        let bytes = text.as_bytes();
        assert!(rt;
            is_refused_for(alloc, Kind::Commit, bytes, "partitionToWriteStats"),
            "{other}"
        );
    }
    let twice = format!(in alloc;
        "{{\"partitionToWriteStats\":{{\"a\":[{{{good}}},{{{good}}}]}}}}"
    )?;
    let bytes = twice.as_bytes();
    assert!(rt; is_refused_for(alloc, Kind::Commit, bytes, "partitionToWriteStats"));
    Ok(())
}

#[test]
fn a_list_is_made_of_what_stands_in_its_order_alone(rt: HostRuntime) -> Result<(), Fail> {
    let alloc = rt.alloc();
    let cases: [(&[&str], bool); 5] = [
        (&[], true),
        (&["b"], true),
        (&["a", "b"], true),
        (&["b", "a"], false),
        (&["a", "a"], false),
    ];
    for (texts, rises) in cases {
        let list = DropList::new(paths_of(alloc, texts)?);
        assert_eq!(rt; list.is_some(), rises);
        if let Some(list) = list {
            assert_eq!(rt; list.paths().len(), texts.len());
        }
    }
    let upto = Instant::new(7).expect(&rt, "an instant");
    let orders: [(&[Part], bool); 4] = [
        (&[], true),
        (&[Part::Files, Part::RecordIndex], true),
        (&[Part::RecordIndex, Part::Files], false),
        (&[Part::Files, Part::Files], false),
    ];
    for (parts, rises) in orders {
        let plan = CompactPlan::new(Listed::from_vec(Vec::from_slice(alloc, parts)?), upto);
        assert_eq!(rt; plan.is_some(), rises);
        if let Some(plan) = plan {
            assert_eq!(rt; plan.parts(), parts);
            assert_eq!(rt; plan.upto(), upto);
        }
    }
    let none = Instant::new(0).expect(&rt, "an instant");
    assert!(rt; RollbackPlan::new(none, Listed::new(alloc)).is_none());
    let plan = RollbackPlan::new(upto, paths_of(alloc, &["a"])?).expect(&rt, "a plan");
    assert_eq!(rt; plan.instant(), upto);
    let first = plan.paths().first().expect(&rt, "a path");
    assert_eq!(rt; first.as_str(), "a");
    Ok(())
}

fn read_and_print(alloc: Global, kind: Kind, bytes: &[u8]) -> Result<Bytes, MetaError> {
    match kind {
        Kind::Commit => Ok(CommitMeta::read(alloc, bytes)?.print(alloc)?),
        Kind::Paths => Ok(PathList::read(alloc, bytes)?.print(alloc)?),
        Kind::Drops => Ok(DropList::read(alloc, bytes)?.print(alloc)?),
        Kind::Rollback => Ok(RollbackPlan::read(alloc, bytes)?.print(alloc)?),
        Kind::Index => Ok(IndexPlan::read(alloc, bytes)?.print(alloc)?),
        Kind::Compact => Ok(CompactPlan::read(alloc, bytes)?.print(alloc)?),
        Kind::Delta => Ok(DeltaMeta::read(alloc, bytes)?.print(alloc)?),
        Kind::Bases => Ok(BaseMeta::read(alloc, bytes)?.print(alloc)?),
    }
}

pub(crate) fn is_printed_as(alloc: Global, kind: Kind, text: &str, line: &str) -> bool {
    match read_and_print(alloc, kind, text.as_bytes()) {
        Ok(printed) => printed.as_slice() == line.as_bytes(),
        Err(_error) => false,
    }
}

pub(crate) fn is_refused_for(alloc: Global, kind: Kind, bytes: &[u8], name: &str) -> bool {
    match read_and_print(alloc, kind, bytes) {
        Ok(_printed) => false,
        Err(MetaError::BadMeta { field }) => field.as_str() == name,
        Err(MetaError::NoMemory) => false,
    }
}

pub(crate) fn paths_of(alloc: Global, texts: &[&str]) -> Result<Listed<Path>, Fail> {
    let mut paths = Listed::new(alloc);
    for text in texts {
        match Path::parse(alloc, text) {
            Ok(path) => paths.push(path)?,
            Err(_) => return Err(Fail::from(AllocError)),
        }
    }
    Ok(paths)
}
