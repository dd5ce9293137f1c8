use nova_gen::generate;
use std::process::Abort;

/// Asserts the count of the lines of a bench of 90,000 domains, that with the number, and the last.
fn assert_lines(rt: &impl Abort, text: &str) {
    assert!(rt; text.lines().count() == 20);
    assert!(rt; text.lines().nth(5) == Some("li x8, 90000"));
    assert!(rt; text.lines().last() == Some("end"));
}

#[test]
fn lines_are_those_of_a_bench(rt: HostRuntime) {
    let text = generate(rt.alloc(), 90_000).expect(&rt, "ample memory");
    assert_lines(&rt, str::from_utf8(&text).expect(&rt, "plain text"));
}
