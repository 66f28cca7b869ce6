//! What a `Marked` returns from the reader or writer inside, and when its mark is set.
ghost use Rattle.std.specs.Prelude.{◌<◌};

use super::support::expect_each;
use super::support::streams::{Answers, KINDS};
use std::process::Abort;
use zs_run::{Drain, Failed, Marked, Source};

// A pull returns the next bytes of `plan`, up to three, and sets no mark.
fn expect_pull(rt: &impl Abort, reader: &mut Marked<&[u8]>, wanted: &str) {
    let mut buf = [0u8; 3];
    let pulled = reader.pull(&mut buf);
    let count = wanted.len();
    let facts = [
        pulled == Ok(count),
        buf.starts_with(wanted.as_bytes()),
        !Source::failed(reader),
    ];
    expect_each(rt, &facts, count as u64);
}

#[test]
fn bytes_are_pulled_to_the_end_with_no_mark(rt: HostRuntime) {
    let mut reader = Marked::new("plan".as_bytes());
    expect_pull(&rt, &mut reader, "pla");
    expect_pull(&rt, &mut reader, "n");
    expect_pull(&rt, &mut reader, "");
}

// `give` returns this, and the mark is then set or not.
fn expect_give(
    rt: &impl Abort,
    writer: &mut Marked<Answers>,
    bytes: &[u8],
    wanted: Result<usize, Failed>,
    mark: bool,
) {
    assert!(rt; !bytes.is_empty());
    let given = writer.give(bytes);
    assert!(rt; given == wanted && Drain::failed(writer) == mark);
}

// The same for a flush.
fn expect_flush(
    rt: &impl Abort,
    writer: &mut Marked<Answers>,
    wanted: Result<(), Failed>,
    mark: bool,
) {
    let flushed = writer.flush();
    assert!(rt; flushed == wanted && Drain::failed(writer) == mark);
}

#[test]
fn a_short_write_is_told(rt: HostRuntime) {
    let mut writer = Marked::new(Answers::Count(2));
    expect_give(&rt, &mut writer, &[0u8; 6], Ok(2), false);
    expect_give(&rt, &mut writer, &[0u8; 1], Ok(1), false);
    expect_flush(&rt, &mut writer, Ok(()), false);
}

#[test]
fn a_write_of_no_bytes_sets_the_mark_which_stays(rt: HostRuntime) {
    let mut writer = Marked::new(Answers::Count(0));
    expect_give(&rt, &mut writer, &[0u8; 6], Err(Failed), true);
    expect_flush(&rt, &mut writer, Ok(()), true);
}

#[test]
fn a_read_error_of_any_kind_sets_the_mark(rt: HostRuntime) {
    for kind in KINDS {
        let mut reader = Marked::new(Answers::Error(kind));
        assert!(rt; !Source::failed(&reader));
        let pulled = reader.pull(&mut [0u8; 3]);
        assert!(rt; pulled == Err(Failed) && Source::failed(&reader));
    }
}

#[test]
fn a_write_error_of_any_kind_sets_the_mark(rt: HostRuntime) {
    for kind in KINDS {
        let mut writer = Marked::new(Answers::Error(kind));
        expect_give(&rt, &mut writer, &[0u8; 6], Err(Failed), true);
    }
}

#[test]
fn a_flush_error_of_any_kind_sets_the_mark(rt: HostRuntime) {
    for kind in KINDS {
        let mut writer = Marked::new(Answers::Error(kind));
        expect_flush(&rt, &mut writer, Err(Failed), true);
    }
}
