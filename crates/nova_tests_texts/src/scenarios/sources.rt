use super::{SETTINGS, assert_faults, fault_of, scenario_of};
use nova_scenario::Why::{self, Missing, Range, Syntax};
use nova_scenario::{ScenarioFault, SourceRow};
use std::alloc::AllocError;

/// Lines of sources after the settings.
static SOURCES: [(&[u8], u64, Why); 17] = [
    (b"source 0 6 1", 5, Syntax),
    (b"source 0 6 1 1 1", 5, Syntax),
    (b"source 0 x 1 1", 5, Syntax),
    (b"source 0 6 1 -1", 5, Syntax),
    (b"source 0 6 1 1 \xff", 5, Syntax),
    (b"source 1 6 1 1", 5, Range),
    (b"source 4294967296 6 1 1", 5, Range),
    (b"source 0 10000001 1 1", 5, Range),
    (b"source 0 6 0 1", 5, Range),
    (b"source 0 6 10000001 1", 5, Range),
    (b"source 0 6 1 0", 5, Range),
    (b"source 0 6 1 10000001", 5, Range),
    (b"source 0 6 1 18446744073709551616", 5, Range),
    (
        b"source 0 6 1 1\nimage 0 hex\nend\nsource 0 6 1 1",
        8,
        Syntax,
    ),
    (b"image 0 hex\nend\nsource 1 6 1 0", 7, Syntax),
    (b"image 0 hex\nsource 0 6 1 1\nend", 6, Syntax),
    (b"source 0 6 1 1\nimage 0 hex", 7, Missing),
];

/// A source before a setting.
static EARLY: [(&[u8], u64, Why); 3] = [
    (b"source 0 6 1 1\nroot 0 0 0 1", 4, Missing),
    (b"source 9 6 1 0\nroot 0 0 0 1", 4, Missing),
    (b"source 9 6 1", 4, Syntax),
];

#[test]
fn sources_have_faults(rt: HostRuntime) -> Result<(), AllocError> {
    assert_faults(&rt, rt.alloc(), SETTINGS, &SOURCES)?;
    assert_faults(&rt, rt.alloc(), b"cpus 1\nram 0\nconsoles 0\n", &EARLY)
}

/// A source as its four numbers.
fn numbers(row: SourceRow) -> [u64; 4] {
    [u64::from(row.cpu), row.first, row.period, row.count]
}

#[test]
fn sources_are_read_in_order(rt: HostRuntime) {
    let text = b"source 0 0 1 1\nsource 0x0 10000000 10000000 10000000\nimage 0 hex\nend";
    let scenario = scenario_of(rt.alloc(), text.as_slice()).expect(&rt, "a scenario");
    let [first, second] = scenario.sources.as_slice() else {
        panic!(&rt; "two sources");
    };
    assert!(&rt; numbers(*first) == [0, 0, 1, 1]);
    assert!(&rt; numbers(*second) == [0, 10_000_000, 10_000_000, 10_000_000]);
}

#[test]
fn thirty_two_sources_are_read(rt: HostRuntime) -> Result<(), AllocError> {
    let mut text = Vec::new(rt.alloc());
    for _ in 0..32 {
        text.extend_from_slice(b"source 0 6 1 1\n".as_slice())?;
    }
    let read = fault_of(rt.alloc(), SETTINGS, &text)?;
    assert!(&rt; read == None);
    text.extend_from_slice(b"source 0 6 1 1\n".as_slice())?;
    let over = fault_of(rt.alloc(), SETTINGS, &text)?;
    assert!(&rt;
        over == Some(ScenarioFault::At {
            line: 37,
            why: Range
        })
    );
    Ok(())
}
