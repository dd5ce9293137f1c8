use nova_order::OrderFault::{BadCpu, BadLine, NotMerged, TooMany, ZeroCount};
use nova_order::{Block, Order, OrderFault};

/// Texts of two processors and at most 9 turns, with their faults.
static FAULTS: [(&[u8], OrderFault); 14] = [
    (b"\n", BadLine(1)),
    (b"0 1", BadLine(1)),
    (b"0 1\n1 1\n0 1", BadLine(3)),
    (b"00 1\n", BadLine(1)),
    (b"0 01\n", BadLine(1)),
    (b"0  2\n", BadLine(1)),
    (b"+0 1\n", BadLine(1)),
    (b"0 18446744073709551616\n", BadLine(1)),
    (b"0 1\n2 0\n", BadCpu(2)),
    (b"4294967296 1\n", BadCpu(1)),
    (b"0 1\n0 0\n", ZeroCount(2)),
    (b"0 9\n0 9\n", NotMerged(2)),
    (b"0 9\n1 1\n", TooMany(2)),
    (b"0 8\n1 18446744073709551615\n", TooMany(2)),
];

#[test]
fn first_faults_are_told(rt: HostRuntime) {
    for (text, fault) in &FAULTS {
        let answer = Order::read(rt.alloc(), text, 2, 9).err();
        assert!(rt; answer == Some(*fault), "{fault}");
    }
}

static TEXTS: [&[u8]; 3] = [b"", b"0 7\n1 2\n", b"1 1\n0 8\n"];

#[test]
fn texts_are_read_and_written(rt: HostRuntime) {
    for &text in &TEXTS {
        let order = Order::read(rt.alloc(), text, 2, 9).expect(&rt, "an order");
        let written = order.text().expect(&rt, "ample memory");
        assert!(rt; written.as_slice() == text, "{text:?}");
    }
}

#[test]
fn turns_of_one_processor_are_one_block(rt: HostRuntime) {
    let mut order = Order::new(rt.alloc());
    order.reserve(3).expect(&rt, "ample memory");
    order.push(1, 2);
    order.push(1, 3);
    order.push(0, 4);
    let written = order.text().expect(&rt, "ample memory");
    let blocks = [Block { cpu: 1, count: 5 }, Block { cpu: 0, count: 4 }];
    assert!(rt; order.blocks() == blocks.as_slice());
    assert!(rt; order.sum() == 9);
    assert!(rt; written.as_slice() == b"1 5\n0 4\n".as_slice());
}
