//! Public calls, where it isn't a story that shows them: stores that fail, requests and responses
//! that break off.
mod breaking;
mod browsers;
mod exchanges;
mod health;
mod proxies;
mod taking;
pub(crate) mod worked;
mod writing;

use std::test::Fail;
use stock::allot;

#[test]
fn the_first_lots_give_first(rt: HostRuntime) -> Result<(), Fail> {
    let cases: [(&[u64], u64, &[u64]); 4] = [
        (&[5, 7], 6, &[5, 1]),
        (&[5, 7], 13, &[5, 7]),
        (&[5, 7], 0, &[0, 0]),
        (&[], 4, &[]),
    ];
    for (free, want, given) in cases {
        assert!(rt;
            allot(rt.alloc(), free, want)?.as_slice() == given,
            "{want}"
        );
    }
    Ok(())
}
