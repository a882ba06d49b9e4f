//! Residuals that outlive their selector.

use ix_cbor::decode;
use ix_selector::{OwnedResidual, Residual, Selector, Step};
use std::alloc::Global;
use std::cmp::Ordering;
use std::test::Fail;

// The selector of what matches below the key `a`: {"f": {"f>": {"a": {".": {}}}}}.
const BELOW_A: &str = "a16166a162663ea16161a1612ea0";

fn selector_of(alloc: Global, text: &str) -> Result<Selector, Fail> {
    let tree = decode(alloc, hex::decode(alloc, text)?.as_slice())?;
    Ok(Selector::read(alloc, &tree)?)
}

// The residual at the root. The selector is dropped here.
fn start(alloc: Global) -> Result<OwnedResidual, Fail> {
    let selector = selector_of(alloc, BELOW_A)?;
    Ok(OwnedResidual::start(alloc, &selector)?)
}

#[test]
fn an_owned_residual(rt: HostRuntime) -> Result<(), Fail> {
    let alloc = rt.alloc();
    let root = start(alloc)?;
    // Only the key `a` is entered, and there nothing below.
    let Some(inside) = root.step(alloc, &Step::Key(b"a"))? else {
        return Err(Fail::from("the key is entered"));
    };
    assert!(rt; root.step(alloc, &Step::Key(b"b"))?.is_none());
    assert!(rt; root.step(alloc, &Step::Pos(0))?.is_none());
    assert!(rt; inside.step(alloc, &Step::Key(b"a"))?.is_none());
    assert!(rt; !root.is_same(&inside));
    assert!(rt; root.compare(&inside) != Ordering::Equal);
    let again = root.try_clone(alloc)?;
    drop(root);
    assert!(rt; again == start(alloc)?);
    assert!(rt; again.compare(&start(alloc)?) == Ordering::Equal);
    Ok(())
}

#[test]
fn over_and_back(rt: HostRuntime) -> Result<(), Fail> {
    let alloc = rt.alloc();
    let owned = {
        let selector = selector_of(alloc, BELOW_A)?;
        Residual::start(alloc, &selector)?.into_owned()?
    };
    let borrowed = owned.borrowed(alloc)?;
    let inside = match borrowed.step(alloc, &Step::Key(b"a"))? {
        Some(inside) => inside.into_owned()?,
        None => return Err(Fail::from("the key is entered")),
    };
    assert!(rt; borrowed.step(alloc, &Step::Key(b"b"))?.is_none());
    assert!(rt; Some(inside) == owned.step(alloc, &Step::Key(b"a"))?);
    Ok(())
}
