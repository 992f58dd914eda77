use super::*;
use mx_base::Part;
use mx_lists::Listed;
use mx_schema::Schema;
use std::test::Fail;

const FRESH: &str =
    "hoodie.table.metadata.partitions=files\nhoodie.table.metadata.partitions.inflight=\nhoodie.table.version=6\nmdt.schema=a:int64\n";

const FULL: &str =
    "hoodie.table.metadata.partitions=files,bloom_filters,record_index\nhoodie.table.metadata.partitions.inflight=column_stats\nhoodie.table.version=6\nmdt.schema=a:int64,s:string?\n";

#[test]
fn the_config_of_a_fresh_table_has_this_text(rt: HostRuntime) -> Result<(), Fail> {
    let alloc = rt.alloc();
    let schema = Schema::parse(alloc, "a:int64").ok().expect(&rt, "a schema");
    let mut available = Listed::new(alloc);
    available.push(Part::Files)?;
    let props = Props::new(available, None, schema).expect(&rt, "a config");
    let text = props.print(alloc)?;
    assert_eq!(rt; text.as_slice(), FRESH.as_bytes());
    Ok(())
}

#[test]
fn a_config_prints_as_it_was_read(rt: HostRuntime) -> Result<(), Fail> {
    let alloc = rt.alloc();
    let cases = [(FRESH, 1, None), (FULL, 3, Some(Part::ColumnStats))];
    for (text, count, building) in cases {
        let props = Props::read(alloc, text.as_bytes())
            .ok()
            .expect(&rt, "a config");
        assert_eq!(rt; props.available().len(), count);
        assert_eq!(rt; props.building(), building);
        assert!(rt; !props.schema().columns().is_empty());
        let printed = props.print(alloc)?;
        assert_eq!(rt; printed.as_slice(), text.as_bytes());
    }
    Ok(())
}

// What stands behind each of the four names, and the first bad line.
const BAD_LINES: [(&str, &str, &str, &str, u32); 17] = [
    ("files\n", "\n", "6\n", "a:int64", 3),
    ("files\n", "\n", "6\n", "a:int64\n\n", 4),
    ("files\n", "\n", "6\n", "a:int64\nx", 4),
    ("files\n", "\n", "6\n", "a:int64\r\n", 3),
    ("files\n", "\n", "6\n", "\u{e9}\n", 3),
    ("files\n", "\n", "06\n", "a:int64\n", 2),
    ("files\n", "\n", "1000000000\n", "a:int64\n", 2),
    ("files\n", "\n", "\n", "a:int64\n", 2),
    ("files\n", "files\n", "6\n", "a:int64\n", 1),
    (
        "files\n",
        "column_stats,record_index\n",
        "6\n",
        "a:int64\n",
        1,
    ),
    ("files,column_stats\n", "column_stats\n", "6\n", "\n", 1),
    ("files\n", "stats\n", "6\n", "a:int64\n", 1),
    ("\n", "x\n", "6\n", "\n", 0),
    ("column_stats\n", "\n", "6\n", "a:int64\n", 0),
    (
        "files,record_index,column_stats\n",
        "\n",
        "6\n",
        "a:int64\n",
        0,
    ),
    ("files,files\n", "\n", "6\n", "a:int64\n", 0),
    ("files,\n", "\n", "6\n", "a:int64\n", 0),
];

#[test]
fn bytes_that_are_no_config_are_refused_at_their_first_bad_line(
    rt: HostRuntime,
) -> Result<(), Fail> {
    let alloc = rt.alloc();
    for (available, building, version, schema, line) in BAD_LINES {
        let text = format!(in alloc;
            "hoodie.table.metadata.partitions={available}hoodie.table.metadata.partitions.inflight={building}hoodie.table.version={version}mdt.schema={schema}"
        )?;
        match Props::read(alloc, text.as_bytes()) {
            Ok(_) => assert!(rt; false, "{line}"),
            Err(error) => assert_eq!(rt; error, PropsError::BadProps { line }),
        }
    }
    Ok(())
}

#[test]
fn a_config_that_is_cut_is_bad_at_the_line_that_is_cut(rt: HostRuntime) -> Result<(), Fail> {
    let alloc = rt.alloc();
    let cases = [
        (0, 0),
        (38, 0),
        (39, 1),
        (81, 1),
        (82, 2),
        (104, 2),
        (105, 3),
        (123, 3),
    ];
    for (end, line) in cases {
        let front = FRESH.as_bytes().get(..end).expect(&rt, "a front");
        match Props::read(alloc, front) {
            Ok(_) => assert!(rt; false, "{end}"),
            Err(error) => assert_eq!(rt; error, PropsError::BadProps { line }),
        }
    }
    Ok(())
}

#[test]
fn another_version_is_told_whatever_the_other_lines_are(rt: HostRuntime) -> Result<(), Fail> {
    let alloc = rt.alloc();
    let cases = [
        ("\n\nhoodie.table.version=5", 5),
        ("x\ny\nhoodie.table.version=007\nz", 7),
        ("\n\nhoodie.table.version=000000000\n", 0),
        ("\n\nhoodie.table.version=999999999\n\n\n", 999_999_999),
    ];
    for (text, found) in cases {
        match Props::read(alloc, text.as_bytes()) {
            Ok(_) => assert!(rt; false, "{text}"),
            Err(error) => assert_eq!(rt; error, PropsError::Version { found }),
        }
    }
    Ok(())
}
