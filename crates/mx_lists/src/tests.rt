use super::*;
use std::test::Fail;

#[test]
fn texts_and_bytes_are_equal_and_ordered_by_their_bytes(rt: HostRuntime) -> Result<(), Fail> {
    let alloc = rt.alloc();
    let cases = [
        ("", "", false),
        ("a", "a", false),
        ("", "a", true),
        ("a", "b", true),
        ("a", "aa", true),
        ("Z", "a", true),
        ("z", "\u{e9}", true),
    ];
    for (first, second, less) in cases {
        let a = Text::from_str(alloc, first)?;
        let b = Text::from_str(alloc, second)?;
        assert_eq!(rt; a < b, less, "{first} {second}");
        assert_eq!(rt; a == b, !less, "{first} {second}");
        assert_eq!(rt; a.same(&b), !less, "{first} {second}");
        assert!(rt; !(b < a), "{first} {second}");
        let a = Bytes::from_slice(alloc, first.as_bytes())?;
        let b = Bytes::from_slice(alloc, second.as_bytes())?;
        assert_eq!(rt; a < b, less, "{first} {second}");
        assert_eq!(rt; a == b, !less, "{first} {second}");
        assert_eq!(rt; a.same(&b), !less, "{first} {second}");
        assert_eq!(rt; a.clone()?.as_slice(), first.as_bytes());
        assert_eq!(rt; a.len(), first.len());
    }
    Ok(())
}

#[test]
fn a_list_keeps_what_was_pushed_in_order(rt: HostRuntime) -> Result<(), Fail> {
    let alloc = rt.alloc();
    let mut names: Listed<Text> = Listed::new(alloc);
    assert_eq!(rt; names.len(), 0);
    names.push(Text::from_str(alloc, "a")?)?;
    let one = names.clone()?;
    names.push(Text::from_string(Text::from_str(alloc, "b")?.into_string()))?;
    let shown = [names.as_slice()[0].as_str(), names.as_slice()[1].as_str()];
    assert_eq!(rt; shown, ["a", "b"]);
    assert!(rt; !names.same(&one));
    assert!(rt; names != one);
    assert!(rt; names.same(&names.clone()?));
    let numbers = Listed::from_vec(vec![in alloc; 7u64; 2]?);
    assert!(rt; numbers.same(&Listed::from_vec(numbers.clone()?.into_vec())));
    assert_eq!(rt; Bytes::from_vec(Bytes::new(alloc).into_vec()).len(), 0);
    assert_eq!(rt; Text::new(alloc).as_str(), "");
    Ok(())
}
