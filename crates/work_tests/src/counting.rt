// Four threads count one counter up.
use crate::counter::{Counter, count_together};
use crate::told::Told;
use mv_history::View;
use std::test::*;

const ASKED: Counter = Counter {
    asked: 250,
    last: Told::Late,
};

#[test]
fn four_threads_count_to_a_thousand(rt: HostRuntime) -> Result<(), Fail> {
    let counters = vec![in rt.alloc(); ASKED, ASKED, ASKED, ASKED]?;
    let Ok((mut closing, counters)) = count_together(&rt, rt.alloc(), counters) else {
        return Err(Fail::new("there is memory for four threads"));
    };
    assert_eq!(rt; closing.read(0)[0], 1000);
    assert!(rt;
        counters
            .iter()
            .all(|counter| matches!(counter.last, Told::Counted))
    );
    Ok(())
}
