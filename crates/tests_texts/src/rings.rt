// The token ring as a model.

use model::{Model, Outgoing};
use models::TokenRing;

fn token(to: u32, a: u64) -> Outgoing {
    Outgoing {
        to,
        delay: 1,
        a,
        b: 0,
        c: 0,
        d: 0,
    }
}

#[test]
fn each_token_starts_at_its_process(rt: HostRuntime) {
    let ring = TokenRing::new(3, 2, 7);
    assert_eq!(rt; ring.lps(), 3);
    assert_eq!(rt; ring.identity(rt.alloc()).as_slice(), [1, 2, 7].as_slice());
    let (state, sends) = ring.start(rt.alloc(), 0);
    assert_eq!(rt; state.as_slice(), [0].as_slice());
    assert_eq!(rt;
        sends.as_slice(),
        [token(0, 0), token(0, 3), token(0, 6)].as_slice()
    );
    let (_, sends) = ring.start(rt.alloc(), 2);
    assert_eq!(rt; sends.as_slice(), [token(2, 2), token(2, 5)].as_slice());
    let (_, sends) = TokenRing::new(1024, 1, 1).start(rt.alloc(), 1023);
    assert_eq!(rt; sends.len(), 0);
    let (_, sends) = TokenRing::new(1, 4294967295, 8).start(rt.alloc(), 0);
    assert_eq!(rt; sends.len(), 8);
}
