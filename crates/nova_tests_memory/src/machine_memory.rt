use nova_frames::{FRAME_SIZE, Frames};
use std::process::Abort;
use std::test::Fail;

fn store(rt: &impl Abort, frames: &mut Frames, frame: u32, offset: u32, width: u32, value: u32) {
    assert!(rt; width == 1 || width == 2 || width == 4);
    assert!(rt; offset < 4096 && offset % width == 0);
    assert!(rt; frames.ram_frames() == 2 && frames.consoles() == 2 && frame < 4);
    assert!(rt; frames.room() > 0);
    frames.store(frame, offset, width, value);
}

fn load(rt: &impl Abort, frames: &Frames, frame: u32, offset: u32, width: u32) -> u32 {
    assert!(rt; width == 1 || width == 2 || width == 4);
    assert!(rt; offset < 4096 && offset % width == 0);
    assert!(rt; frames.ram_frames() == 2 && frames.consoles() == 2 && frame < 4);
    frames.load(frame, offset, width)
}

/// Frame, offset and width, and what is loaded there.
static LOADS: [(u32, u32, u32, u32); 12] = [
    (0, 16, 1, 0x13),
    (0, 17, 1, 0x05),
    (0, 18, 1, 0x10),
    (0, 19, 1, 0x04),
    (0, 16, 2, 0x0513),
    (0, 18, 2, 0x0410),
    (0, 16, 4, 0x0410_0513),
    (0, 20, 4, 0),
    (1, 16, 4, 0),
    (1, 4092, 4, 0x5678_ff98),
    (1, 4094, 2, 0x5678),
    (1, 4095, 1, 0x56),
];

#[test]
fn lowest_byte_lies_first(rt: HostRuntime) -> Result<(), Fail> {
    let mut frames = Frames::new(rt.alloc(), 1, 2, 4)?;
    store(&rt, &mut frames, 0, 16, 4, 0x0410_0513);
    store(&rt, &mut frames, 1, 4092, 4, 0xfedc_ba98);
    store(&rt, &mut frames, 1, 4094, 2, 0x1234_5678);
    store(&rt, &mut frames, 1, 4093, 1, 0x1ff);
    for &(frame, offset, width, wanted) in &LOADS {
        let loaded = load(&rt, &frames, frame, offset, width);
        assert!(rt; loaded == wanted, "at {frame} {offset}");
    }
    assert!(rt; frames.room() == 4);
    Ok(())
}

/// An entry of the log: its console and its byte.
fn entry(frames: &Frames, i: usize) -> Option<(u32, u8)> {
    let entry = frames.log().get(i)?;
    Some((entry.console, entry.value))
}

#[test]
fn consoles_log_what_is_stored_at_offset_0(rt: HostRuntime) -> Result<(), Fail> {
    let mut frames = Frames::new(rt.alloc(), 1, 2, 3)?;
    store(&rt, &mut frames, 2, 0, 4, 0x1234_5648);
    store(&rt, &mut frames, 2, 4, 4, 0x49);
    store(&rt, &mut frames, 3, 0, 1, 0x69);
    store(&rt, &mut frames, 3, 1, 1, 0x6a);
    let log = [entry(&frames, 0), entry(&frames, 1), entry(&frames, 2)];
    let answers = (log, frames.room(), load(&rt, &frames, 2, 0, 4));
    let copy = frames.copy()?;
    let copied = (copy.log().len(), copy.consoles(), copy.room());
    let log = [Some((0, 0x48)), Some((1, 0x69)), None];
    assert!(rt; (answers, copied) == ((log, 1, 0), (2, 2, 0)));
    Ok(())
}

#[test]
fn bytes_are_put_across_frames(rt: HostRuntime) -> Result<(), Fail> {
    let mut frames = Frames::new(rt.alloc(), 1, 2, 0)?;
    frames.write_frame(1, &[7; FRAME_SIZE]);
    frames.put(4095, &[1, 2]);
    let (first, second) = (frames.frame(0), frames.frame(1));
    let bytes = [first[4094], first[4095], second[0], second[1]];
    assert!(rt; bytes == [0, 1, 2, 7]);
    Ok(())
}

#[test]
fn the_largest_machine_is_made(rt: HostRuntime) -> Result<(), Fail> {
    let frames = Frames::new(rt.alloc(), 14, 16, 10_000_000)?;
    let sizes = (frames.ram_frames(), frames.consoles(), frames.room());
    let refused = Frames::new(rt.alloc(), 0, 0, u64::MAX).is_err();
    assert!(rt; (sizes, refused) == ((16384, 16, 10_000_000), true));
    Ok(())
}
