// The words of commands, and the tables that they make or don't open.
use crate::tests::{FIRST_LINES, new_table, run};
use mx_base::Path;
use mx_store::{MemStore, Store};
use std::alloc::Global;
use std::test::Fail;

// The exit status, whether the message is this one, and how many changes were made.
fn ends(
    alloc: Global,
    store: MemStore,
    words: &[&str],
    message: &str,
) -> Result<(u8, bool, usize), Fail> {
    let before = store.journal().len();
    let left = run(alloc, store, words, FIRST_LINES)?;
    let made = left.store.journal().len().saturating_sub(before);
    Ok((left.code, left.message.as_str() == message, made))
}

fn ends_on_nothing(
    alloc: Global,
    words: &[&str],
    message: &str,
) -> Result<(u8, bool, usize), Fail> {
    ends(alloc, MemStore::empty(alloc), words, message)
}

#[test]
fn other_words_than_those_of_a_command_do_nothing(rt: HostRuntime) -> Result<(), Fail> {
    let cases: [&[&str]; 9] = [
        &[],
        &["serve"],
        &["frob", "x"],
        &["serve", "a", "b"],
        &["Serve", "x"],
        &["init", "x"],
        &["init", "x", ""],
        &["init", "x", "a:int65"],
        &["init", "x", "a:int64", "y"],
    ];
    for words in cases {
        assert!(rt; ends_on_nothing(rt.alloc(), words, "words")? == (2, true, 0));
    }
    Ok(())
}

#[test]
fn a_table_is_made_once_and_served_only_where_it_is_made(rt: HostRuntime) -> Result<(), Fail> {
    let alloc = rt.alloc();
    let init = ["init", "work", "a:int64"];
    assert!(rt; ends_on_nothing(alloc, &["serve", "work"], "not a table")? == (6, true, 0));
    assert!(rt; ends_on_nothing(alloc, &init, "")? == (0, true, 4));
    let again = ends(
        alloc,
        new_table(alloc)?,
        &init,
        "not empty .hoodie/hoodie.properties",
    )?;
    assert!(rt; again == (6, true, 0));
    Ok(())
}

// A new table with one object more, or another one.
fn changed_table(alloc: Global, path: &str, bytes: &[u8]) -> Result<MemStore, Fail> {
    let mut store = new_table(alloc)?;
    let path = Path::parse(alloc, path)?;
    store.put(alloc, &path, bytes)?;
    Ok(store)
}

#[test]
fn a_table_of_another_version_or_with_damage_is_not_opened(rt: HostRuntime) -> Result<(), Fail> {
    let alloc = rt.alloc();
    let older =
        b"hoodie.table.metadata.partitions=files\nhoodie.table.metadata.partitions.inflight=\nhoodie.table.version=5\nmdt.schema=a:int64\n";
    let words = ["serve", "work"];
    let store = changed_table(alloc, ".hoodie/hoodie.properties", older)?;
    assert!(rt; ends(alloc, store, &words, "version 5")? == (6, true, 0));
    let store = changed_table(alloc, ".hoodie/no_name", b"{}")?;
    assert!(rt; ends(alloc, store, &words, "damaged .hoodie/no_name")? == (6, true, 0));
    Ok(())
}
