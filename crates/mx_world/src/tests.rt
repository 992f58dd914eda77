ghost use Rattle.std.specs.Prelude.{◌≡◌, None};

use crate::{ChangeError, Mirror, World, is_plain};
use mx_base::{Instant, Part, Path};
use mx_lists::{Bytes, Listed};
use mx_props::Props;
use mx_schema::Schema;
use mx_store::{Change, MemStore, QuietStore, Store};
use std::alloc::Global;
use std::marker::Brand;
use std::test::Fail;

const REQUESTED: &str = ".hoodie/20250101000000000.commit.requested";

const COMMIT: &str = ".hoodie/20250101000000000.commit";

const MOMENT: u64 = 20_250_101_000_000_000;

fn config(alloc: Global) -> Result<Props, Fail> {
    let mut available = Listed::new(alloc);
    available.push(Part::Files)?;
    let Ok(schema) = Schema::parse(alloc, "a:int64") else {
        return Err(Fail::new("the schema is one"));
    };
    match Props::new(available, None, schema) {
        Some(config) => Ok(config),
        None => Err(Fail::new("the config is one")),
    }
}

fn create(alloc: Global, path: &str) -> Result<Change, Fail> {
    create_of(alloc, path, "{}")
}

fn create_of(alloc: Global, path: &str, text: &str) -> Result<Change, Fail> {
    Ok(Change::Create {
        path: Path::parse(alloc, path)?,
        bytes: Bytes::from_slice(alloc, text.as_bytes())?,
    })
}

fn delete(alloc: Global, path: &str) -> Result<Change, Fail> {
    Ok(Change::Delete {
        path: Path::parse(alloc, path)?,
    })
}

// A table of no objects but those at the paths, of whose store's calls these fail.
fn table(
    alloc: Global,
    standing: &[&str],
    fails: &[(u64, bool)],
) -> Result<World<QuietStore, Brand>, Fail> {
    let mut store = MemStore::empty(alloc);
    let mut paths = Listed::new(alloc);
    for text in standing {
        let path = Path::parse(alloc, *text)?;
        if !store.create(alloc, &path, b"{}")? {
            return Err(Fail::new("a path stands once"));
        }
        paths.push(path)?;
    }
    for &(call, applied) in fails {
        store.fail(call, applied)?;
    }
    let mirror = Mirror::of(alloc, config(alloc)?, paths.as_slice(), &[])?;
    let Some(last) = Instant::new(MOMENT - 1) else {
        return Err(Fail::new("the moment is an instant"));
    };
    Ok(World::over(QuietStore::over(store), mirror, last, 0))
}

// The word of the answer to a change.
fn change(
    alloc: Global,
    table: &mut World<QuietStore, Brand>,
    change: Change,
) -> Result<&'static str, Fail> {
    if !is_plain(&change) {
        return Err(Fail::new("the config stays as it is"));
    }
    Ok(match table.change(alloc, change) {
        Ok(()) => "made",
        Err(ChangeError::InDoubt { .. }) => "in doubt",
        Err(ChangeError::Changed { .. }) => "changed",
        Err(ChangeError::StoreFault) => "store fault",
        Err(ChangeError::NoMemory) => "no memory",
    })
}

// Whether no other change is made before the doubt is settled, and one is behind that.
fn is_blocked_until_settled(
    alloc: Global,
    table: &mut World<QuietStore, Brand>,
) -> Result<bool, Fail> {
    let blocked = change(alloc, table, create(alloc, COMMIT)?)? == "in doubt";
    let settled = table.settle(alloc).is_ok();
    let made = change(alloc, table, create(alloc, COMMIT)?)? == "made";
    Ok(blocked && settled && made)
}

fn holds(alloc: Global, table: &World<QuietStore, Brand>, path: &str) -> Result<bool, Fail> {
    let path = Path::parse(alloc, path)?;
    Ok(table.mirror().holds(&path))
}

// Whether the doubt blocks until it is settled, how many changes count then, and whether the path is known.
fn settled(alloc: Global, table: &mut World<QuietStore, Brand>) -> Result<(bool, u64, bool), Fail> {
    let blocked = is_blocked_until_settled(alloc, table)?;
    let known = holds(alloc, table, REQUESTED)?;
    Ok((blocked, table.seq(), known))
}

// The same of a create that fails and is applied or not, or of a delete.
fn after_a_failed_create(alloc: Global, applied: bool) -> Result<(bool, u64, bool), Fail> {
    let mut table = table(alloc, &[], &[(0, applied)])?;
    failed(alloc, &mut table, create(alloc, REQUESTED)?)?;
    settled(alloc, &mut table)
}

fn after_a_failed_delete(alloc: Global, applied: bool) -> Result<(bool, u64, bool), Fail> {
    let mut table = table(alloc, &[REQUESTED], &[(1, applied)])?;
    failed(alloc, &mut table, delete(alloc, REQUESTED)?)?;
    settled(alloc, &mut table)
}

fn failed(alloc: Global, table: &mut World<QuietStore, Brand>, asked: Change) -> Result<(), Fail> {
    if change(alloc, table, asked)? == "store fault" {
        Ok(())
    } else {
        Err(Fail::new("the change fails"))
    }
}

#[test]
fn a_change_that_fails_is_in_doubt_until_its_path_is_read(rt: HostRuntime) -> Result<(), Fail> {
    let alloc = rt.alloc();
    let (blocked, seq, known) = after_a_failed_create(alloc, true)?;
    assert!(rt; blocked && seq == 2 && known);
    let (blocked, seq, known) = after_a_failed_create(alloc, false)?;
    assert!(rt; blocked && seq == 1 && !known);
    Ok(())
}

#[test]
fn a_delete_that_fails_is_in_doubt_until_its_path_is_read(rt: HostRuntime) -> Result<(), Fail> {
    let alloc = rt.alloc();
    let (blocked, seq, known) = after_a_failed_delete(alloc, true)?;
    assert!(rt; blocked && seq == 2 && !known);
    let (blocked, seq, known) = after_a_failed_delete(alloc, false)?;
    assert!(rt; blocked && seq == 1 && known);
    Ok(())
}

// Whether the doubt stands after a get that fails, and how many changes count once it is settled.
fn after_a_failed_get(
    alloc: Global,
    table: &mut World<QuietStore, Brand>,
) -> Result<(bool, u64), Fail> {
    failed(alloc, table, create(alloc, REQUESTED)?)?;
    let unsettled = table.settle(alloc).is_err();
    let blocked = change(alloc, table, create(alloc, COMMIT)?)? == "in doubt";
    let settled = table.settle(alloc).is_ok();
    Ok((unsettled && blocked && settled, table.seq()))
}

#[test]
fn a_get_that_fails_leaves_the_doubt(rt: HostRuntime) -> Result<(), Fail> {
    let alloc = rt.alloc();
    let mut table = table(alloc, &[], &[(0, true), (1, false)])?;
    let (stands, seq) = after_a_failed_get(alloc, &mut table)?;
    assert!(rt; stands && seq == 1);
    Ok(())
}

// The last instant after the object was asked for.
fn last_after(alloc: Global, path: &str, fails: &[(u64, bool)]) -> Result<u64, Fail> {
    let mut table = table(alloc, &[], fails)?;
    change(alloc, &mut table, create(alloc, path)?)?;
    Ok(table.last().number())
}

#[test]
fn the_object_that_requests_an_action_draws_its_instant(rt: HostRuntime) -> Result<(), Fail> {
    let alloc = rt.alloc();
    const DELTA: &str = ".hoodie/metadata/.hoodie/20250101000000000.deltacommit";
    // the object, whether its create fails, and the last instant then
    const CASES: [(&str, bool, u64); 4] = [
        (REQUESTED, false, MOMENT),
        (REQUESTED, true, MOMENT),
        (COMMIT, false, MOMENT - 1),
        (DELTA, false, MOMENT - 1),
    ];
    for (path, fails, last) in CASES {
        let failing: &[(u64, bool)] = if fails { &[(0, false)] } else { &[] };
        let found = last_after(alloc, path, failing)?;
        assert_eq!(rt; found, last, "{path}");
    }
    Ok(())
}

// The words of a create where something stands, and of a delete where nothing does.
fn declined(
    alloc: Global,
    table: &mut World<QuietStore, Brand>,
) -> Result<(&'static str, &'static str), Fail> {
    let first = change(alloc, table, create(alloc, REQUESTED)?)?;
    let second = change(alloc, table, delete(alloc, COMMIT)?)?;
    Ok((first, second))
}

#[test]
fn a_create_where_something_stands_is_refused(rt: HostRuntime) -> Result<(), Fail> {
    let alloc = rt.alloc();
    let mut table = table(alloc, &[REQUESTED], &[])?;
    let (first, second) = declined(alloc, &mut table)?;
    assert_eq!(rt; first, "changed");
    assert_eq!(rt; second, "made");
    assert_eq!(rt; table.seq(), 0);
    Ok(())
}

// Whether the commit is completed before its object is made, while that stands, and once it is deleted.
fn completions(
    alloc: Global,
    table: &mut World<QuietStore, Brand>,
    at: Instant,
) -> Result<(bool, bool, bool), Fail> {
    let before = table.mirror().is_completed(at);
    change(alloc, table, create(alloc, COMMIT)?)?;
    let stands = table.mirror().is_completed(at);
    change(alloc, table, delete(alloc, COMMIT)?)?;
    Ok((before, stands, table.mirror().is_completed(at)))
}

// Whether the name below `.hoodie/` is known, and the one outside.
fn known(alloc: Global, table: &mut World<QuietStore, Brand>) -> Result<(bool, bool), Fail> {
    const OUTSIDE: &str = "2024-01-01/data";
    change(alloc, table, create(alloc, OUTSIDE)?)?;
    let below = holds(alloc, table, REQUESTED)?;
    Ok((below, holds(alloc, table, OUTSIDE)?))
}

#[test]
fn a_mirror_knows_the_completed_commits(rt: HostRuntime) -> Result<(), Fail> {
    let alloc = rt.alloc();
    let mut table = table(alloc, &[REQUESTED], &[])?;
    let Some(at) = Instant::new(MOMENT) else {
        return Err(Fail::new("the moment is an instant"));
    };
    let (before, stands, deleted) = completions(alloc, &mut table, at)?;
    assert!(rt; !before && stands && !deleted);
    Ok(())
}

#[test]
fn a_mirror_knows_the_names_below_the_folder_of_the_table(rt: HostRuntime) -> Result<(), Fail> {
    let alloc = rt.alloc();
    let mut table = table(alloc, &[REQUESTED], &[])?;
    let (below, outside) = known(alloc, &mut table)?;
    assert!(rt; below && !outside);
    Ok(())
}

const INFLIGHT: &str = ".hoodie/20250101000000000.inflight";

// Three changes in turn.
fn three(alloc: Global) -> Result<Vec<Change>, Fail> {
    Ok(vec![in alloc;
        create(alloc, REQUESTED)?,
        create(alloc, INFLIGHT)?,
        create(alloc, COMMIT)?,
    ]?)
}

// Whether all are made where the call of this number fails, how many are, and whether the last name is known.
fn in_turn(alloc: Global, call: u64) -> Result<(bool, u64, bool), Fail> {
    let changes = three(alloc)?;
    if !changes.iter().all(|change| is_plain(change)) {
        return Err(Fail::new("the config stays as it is"));
    }
    let mut table = table(alloc, &[], &[(call, false)])?;
    let made = table.change_in_turn(alloc, changes).is_ok();
    let last = holds(alloc, &table, COMMIT)?;
    Ok((made, table.seq(), last))
}

#[test]
fn changes_in_turn_end_at_the_one_that_fails(rt: HostRuntime) -> Result<(), Fail> {
    let alloc = rt.alloc();
    for call in 0..4_u64 {
        let (made, seq, last) = in_turn(alloc, call)?;
        assert!(rt; made == (call == 3) && seq == call && last == (call == 3));
    }
    Ok(())
}

// How many instants have an action, where objects stand at these paths.
fn instants(alloc: Global, standing: &[&str]) -> Result<u64, Fail> {
    let table = table(alloc, standing, &[])?;
    Ok(table.mirror().instants(alloc)?)
}

#[test]
fn the_instants_of_the_actions_are_counted_once_each(rt: HostRuntime) -> Result<(), Fail> {
    let alloc = rt.alloc();
    const CLEAN: &str = ".hoodie/20250102000000000.clean.requested";
    const DELTA: &str = ".hoodie/metadata/.hoodie/20250103000000000.deltacommit";
    assert_eq!(rt; instants(alloc, &[])?, 0);
    assert_eq!(rt; instants(alloc, &[REQUESTED, INFLIGHT, COMMIT])?, 1);
    assert_eq!(rt; instants(alloc, &[CLEAN, COMMIT])?, 2);
    assert_eq!(rt; instants(alloc, &[COMMIT, DELTA])?, 1);
    Ok(())
}

const TWO_FILES: &str =
    "{\"partitionToWriteStats\":{\"p\":[{\"fileId\":\"11111111-1111-4111-8111-111111111111\",\"fileSizeInBytes\":5,\"numWrites\":0,\"path\":\"p/11111111-1111-4111-8111-111111111111_0-0-0_20250101000000000.parquet\",\"prevCommit\":\"null\"},{\"fileId\":\"22222222-2222-4222-8222-222222222222\",\"fileSizeInBytes\":5,\"numWrites\":0,\"path\":\"p/22222222-2222-4222-8222-222222222222_0-0-0_20250101000000000.parquet\",\"prevCommit\":\"null\"}]}}";

// The live files before a commit of two is completed, while its object stands, and once that is deleted.
fn live_files(
    alloc: Global,
    table: &mut World<QuietStore, Brand>,
) -> Result<(u64, u64, u64), Fail> {
    let before = table.mirror().live();
    change(alloc, table, create_of(alloc, COMMIT, TWO_FILES)?)?;
    let stands = table.mirror().live();
    change(alloc, table, delete(alloc, COMMIT)?)?;
    Ok((before, stands, table.mirror().live()))
}

#[test]
fn the_files_of_a_completed_commit_are_live(rt: HostRuntime) -> Result<(), Fail> {
    let alloc = rt.alloc();
    let mut table = table(alloc, &[REQUESTED], &[])?;
    let (before, stands, deleted) = live_files(alloc, &mut table)?;
    assert!(rt; before == 0 && stands == 2 && deleted == 0);
    Ok(())
}
