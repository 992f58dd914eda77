// Commits of rows.
use crate::tests::{new_table, replies, run, run_late, served};
use mx_base::Path;
use mx_parquet::read_rows;
use mx_schema::Cell;
use mx_store::{MemStore, Store};
use std::alloc::Global;
use std::test::Fail;

// Commits of the rows that a table of one column of 64-bit numbers does not take, with their replies.
const REFUSED: [(&[u8], &str); 8] = [
    (
        b"{\"ask\":\"commit\",\"files\":[{\"file\":\"11111111-1111-4111-8111-111111111111\",\"partition\":\"2024-01-01\",\"rows\":[[\"a\"]]}]}\n",
        "{\"column\":1,\"file\":0,\"refused\":\"BadRow\",\"row\":0,\"seq\":0}\n",
    ),
    (
        b"{\"ask\":\"commit\",\"files\":[{\"file\":\"11111111-1111-4111-8111-111111111111\",\"partition\":\"2024-01-01\",\"rows\":[[\"a\",1],[\"b\",1,2]]}]}\n",
        "{\"column\":2,\"file\":0,\"refused\":\"BadRow\",\"row\":1,\"seq\":0}\n",
    ),
    (
        b"{\"ask\":\"commit\",\"files\":[{\"file\":\"11111111-1111-4111-8111-111111111111\",\"partition\":\"2024-01-01\",\"rows\":[[\"a\",1]]},{\"file\":\"22222222-2222-4222-8222-222222222222\",\"partition\":\"2024-01-01\",\"rows\":[[\"b\",2],[null,3]]}]}\n",
        "{\"column\":0,\"file\":1,\"refused\":\"BadRow\",\"row\":1,\"seq\":0}\n",
    ),
    (
        b"{\"ask\":\"commit\",\"files\":[{\"file\":\"11111111-1111-4111-8111-111111111111\",\"partition\":\"2024-01-01\",\"rows\":[[\"a\",null]]}]}\n",
        "{\"column\":1,\"file\":0,\"refused\":\"BadRow\",\"row\":0,\"seq\":0}\n",
    ),
    (
        b"{\"ask\":\"commit\",\"files\":[{\"file\":\"11111111-1111-4111-8111-111111111111\",\"partition\":\"2024-01-01\",\"rows\":[[\"a\",true]]}]}\n",
        "{\"column\":1,\"file\":0,\"refused\":\"BadRow\",\"row\":0,\"seq\":0}\n",
    ),
    (
        b"{\"ask\":\"commit\",\"files\":[{\"file\":\"11111111-1111-4111-8111-111111111111\",\"partition\":\"2024-01-01\",\"rows\":[[\"a\",1],[\"a\",2]]}]}\n",
        "{\"key\":\"a\",\"refused\":\"DuplicateRow\",\"seq\":0}\n",
    ),
    (
        b"{\"ask\":\"commit\",\"files\":[{\"file\":\"11111111-1111-4111-8111-111111111111\",\"partition\":\"2024-01-01\",\"text\":\"hello\"}]}\n",
        "{\"refused\":\"line\",\"seq\":0}\n",
    ),
    (
        b"{\"ask\":\"commit\",\"files\":[{\"file\":\"11111111-1111-4111-8111-111111111111\",\"partition\":\"2024-01-01\",\"rows\":[[\"a\",9223372036854775808]]}]}\n",
        "{\"refused\":\"line\",\"seq\":0}\n",
    ),
];

#[test]
fn rows_that_are_not_taken_are_refused_and_change_nothing(rt: HostRuntime) -> Result<(), Fail> {
    let alloc = rt.alloc();
    for (line, reply) in REFUSED {
        let left = run(alloc, new_table(alloc)?, &["serve", "work"], line)?;
        assert_eq!(rt; left.code, 0);
        assert_eq!(rt; left.written.as_slice(), reply.as_bytes());
        assert_eq!(rt; left.store.journal().len(), 4);
    }
    Ok(())
}

const LINE: &[u8] =
    b"{\"ask\":\"commit\",\"files\":[{\"file\":\"11111111-1111-4111-8111-111111111111\",\"partition\":\"2024-01-01\",\"rows\":[[\"a\",-9223372036854775808],[\"b\",9223372036854775807]]}]}\n";

const PATH: &str =
    "2024-01-01/11111111-1111-4111-8111-111111111111_0-0-0_20250101000000000.parquet";

// The key and the number of each row of the file at the path.
fn rows_at(alloc: Global, store: &mut MemStore) -> Result<Vec<(String, i64)>, Fail> {
    let mut found = Vec::new(alloc);
    let Ok(Some(bytes)) = store.get(alloc, &Path::parse(alloc, PATH)?) else {
        return Err(Fail::new("the file stands"));
    };
    for row in read_rows(alloc, bytes.as_slice())?.rows.as_slice() {
        match row.cells.as_slice() {
            [Cell::Whole(number)] => {
                found.push((String::from_str(alloc, row.record_key.as_str())?, *number))?;
            }
            _ => return Err(Fail::new("a row has one number")),
        }
    }
    Ok(found)
}

#[test]
fn the_rows_of_a_commit_stand_in_its_data_file(rt: HostRuntime) -> Result<(), Fail> {
    let alloc = rt.alloc();
    let mut left = run(alloc, new_table(alloc)?, &["serve", "work"], LINE)?;
    let rows = rows_at(alloc, &mut left.store)?;
    assert_eq!(rt; rows.len(), 2);
    for ((key, number), wanted) in rows.iter().zip([("a", i64::MIN), ("b", i64::MAX)]) {
        assert_eq!(rt; (key.as_str(), *number), wanted);
    }
    Ok(())
}

#[test]
fn the_last_instant_is_taken_once_and_look_ups_go_on(rt: HostRuntime) -> Result<(), Fail> {
    let alloc = rt.alloc();
    let lines =
        b"{\"ask\":\"commit\",\"files\":[]}\n{\"ask\":\"commit\",\"files\":[]}\n{\"ask\":\"partitions\"}\n";
    let left = run_late(alloc, new_table(alloc)?, lines)?;
    let parts = [
        (
            "{\"files\":[],\"instant\":\"99999999999999999\",\"ok\":\"commit\",\"seq\":",
            5,
        ),
        ("{\"refused\":\"InstantsUsedUp\",\"seq\":", 5),
        (
            "{\"at\":\"99999999999999999\",\"ok\":\"partitions\",\"partitions\":[],\"seq\":",
            5,
        ),
    ];
    assert_eq!(rt; left.code, 0);
    assert_eq!(rt; left.written.as_slice(), replies(alloc, &parts)?.as_slice());
    Ok(())
}
