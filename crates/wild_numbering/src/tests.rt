use crate::Numbering;
use std::test::Fail;
use wild_names::Name;

#[test]
fn names_with_numbers(rt: HostRuntime) -> Result<(), Fail> {
    let alloc = rt.alloc();
    let mut names = Numbering::new(alloc);
    for name in [b".a".as_slice(), b".b", b".a"] {
        names.push(alloc, &Name::new(alloc, name)?)?;
    }
    assert_eq!(rt; names.len(), 3);
    for (name, wanted) in [(b".a".as_slice(), Some(0)), (b".b", Some(1)), (b".c", None)] {
        assert_eq!(rt; names.get(&Name::new(alloc, name)?), wanted);
    }
    Ok(())
}
