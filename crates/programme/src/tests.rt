use crate::composed::Composed;
use crate::entry::Entry;
use crate::fault::Fault;
use crate::line::read_line;
use crate::text::compose;
use label::tag::Tag;
use std::test::Fail;

fn depth_of(line: &str) -> Result<u16, Fault> {
    match read_line(line.as_bytes())? {
        Entry::Reading { time: _, tenths } => Ok(tenths),
        _ => Err(Fault::Unknown),
    }
}

#[test]
fn readings(rt: HostRuntime) {
    let rows = [
        ("06:00,2.4", 24),
        ("06:00;2,43", 24),
        ("6:00;2", 20),
        ("06:00,\"2,4\"", 24),
        ("\"06:00\";\"2.4\"", 24),
        ("2026-11-17 06:00:00;2,4", 24),
        ("2026-11-17T06:00 ; +012.49 \r", 124),
        ("23:59,2,49", 24),
        ("00:00;-0.0", 0),
        ("6:00;99.99", 999),
    ];
    for (line, tenths) in rows {
        assert_eq!(rt; depth_of(line), Ok(tenths));
    }
}

#[test]
fn faults(rt: HostRuntime) {
    let rows = [
        ("24:00;2.4", Fault::NoTime),
        ("06:60;2.4", Fault::NoTime),
        ("2026-11-17  06:00;2.4", Fault::NoTime),
        ("06:00;2.4 m", Fault::NoDepth),
        ("06:00;.4", Fault::NoDepth),
        ("06:00", Fault::NoDepth),
        ("06:00;-0.03", Fault::BelowZero),
        ("06:00;100", Fault::TooDeep),
        ("song House of the rising sun", Fault::NoSong),
        ("song / Eric Burdon", Fault::NoSong),
        ("say ", Fault::NothingToSay),
        ("sing", Fault::Unknown),
        (" say", Fault::Unknown),
    ];
    for (line, fault) in rows {
        assert_eq!(rt; depth_of(line), Err(fault));
    }
}

#[test]
fn nothing_to_send(rt: HostRuntime) {
    for line in ["", "  \r", "# 06:00;2.4"] {
        assert_eq!(rt; read_line(line.as_bytes()), Ok(Entry::Nothing));
    }
}

fn label_of(rt: &HostRuntime, line: &str) -> Result<Composed, Fail> {
    let entry = read_line(line.as_bytes())?;
    Ok(compose(rt.alloc(), entry).ok_or("no label")??)
}

fn tag(class: u8, start: u8, extent: u8) -> Tag {
    Tag {
        class,
        start,
        extent,
    }
}

#[test]
fn labels(rt: HostRuntime) -> Result<(), Fail> {
    let song = label_of(&rt, "song  House of the rising sun / Eric Burdon")?;
    let text = "You are listening to \"House of the rising sun\" by Eric Burdon";
    assert_eq!(rt; song.text.as_slice(), text.as_bytes());
    let tags = [tag(1, 22, 22), tag(4, 50, 10)];
    assert_eq!(rt; song.tags.as_slice(), tags.as_slice());
    let reading = label_of(&rt, "6:00;12.49")?;
    assert_eq!(rt; reading.text.as_slice(), "Sill 12.4 m".as_bytes());
    assert_eq!(rt; reading.tags.as_slice(), [tag(56, 5, 3)].as_slice());
    Ok(())
}
