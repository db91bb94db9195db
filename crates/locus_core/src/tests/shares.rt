//! What the workers of a sum have for shares.

use crate::tests::cases::SHARES;
use crate::tests::{outcome, sound};
use std::test::Fail;

#[test]
fn each_worker_has_a_share(rt: HostRuntime) -> Result<(), Fail> {
    let alloc = rt.alloc();
    for (words, text, wanted, shares) in SHARES {
        let found = outcome(&rt, alloc, words, &sound(text))?;
        assert_eq!(rt; found.told(alloc)?.as_str(), wanted);
        assert_eq!(rt; found.shares, shares);
    }
    Ok(())
}
