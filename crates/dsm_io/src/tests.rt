use crate::{Failed, MemSink, MemSource, NullSink, ReadErr, Sink, SureSource, read_all, write_all};
use std::test::Fail;

const TEN: [u8; 10] = [10, 11, 12, 13, 14, 15, 16, 17, 18, 19];

#[test]
fn reads_all_up_to_the_limit(rt: HostRuntime) -> Result<(), Fail> {
    let alloc = rt.alloc();
    let mut source = MemSource::new(TEN.to_vec(alloc)?, 3, Vec::new(alloc));
    assert_eq!(rt;
        read_all(alloc, &mut source, 10)?.as_slice(),
        TEN.as_slice()
    );
    let mut source = MemSource::new(TEN.to_vec(alloc)?, 3, Vec::new(alloc));
    assert_eq!(rt;
        read_all(alloc, &mut source, 9).err(),
        Some(ReadErr::TooLong)
    );
    let mut sure = SureSource::new(TEN.to_vec(alloc)?);
    assert_eq!(rt; read_all(alloc, &mut sure, 10)?.as_slice(), TEN.as_slice());
    Ok(())
}

// The second read fails, and the next whole read goes on behind the first.
#[test]
fn reads_on_after_a_fault(rt: HostRuntime) -> Result<(), Fail> {
    let alloc = rt.alloc();
    let mut source = MemSource::new(TEN.to_vec(alloc)?, 3, [2].to_vec(alloc)?);
    assert_eq!(rt;
        read_all(alloc, &mut source, 10).err(),
        Some(ReadErr::Fault)
    );
    assert_eq!(rt; read_all(alloc, &mut source, 10)?.as_slice(), &TEN[3..]);
    Ok(())
}

// Each row: the room, the call that fails, what is answered, how many bytes were written, and how many of them were
// handed on.
#[test]
fn writes_all_or_a_prefix(rt: HostRuntime) -> Result<(), Fail> {
    let alloc = rt.alloc();
    for (room, fail, answer, count, handed) in [
        (10, 9, Ok(()), 10, 10),
        (20, 2, Err(Failed), 5, 0),
        (4, 9, Err(Failed), 4, 0),
        (10, 3, Err(Failed), 10, 0),
    ] {
        let mut sink = MemSink::new(alloc, room, 5, [fail].to_vec(alloc)?)?;
        assert_eq!(rt; sink.bytes().len(), 0);
        assert_eq!(rt;
            write_all(&mut sink, &TEN),
            answer,
            "at room {room}, call {fail}"
        );
        assert_eq!(rt;
            Some(sink.bytes()),
            TEN.get(..count),
            "at room {room}, call {fail}"
        );
        assert_eq!(rt;
            Some(sink.handed()),
            TEN.get(..handed),
            "at room {room}, call {fail}"
        );
    }
    Ok(())
}

// Whole pieces, also an empty one, and an end.
#[test]
fn a_null_sink_takes_all(rt: HostRuntime) {
    let mut sink = NullSink::new();
    assert_eq!(rt; sink.write(&TEN), Ok(10));
    assert_eq!(rt; sink.write(&[]), Ok(0));
    assert_eq!(rt; write_all(&mut sink, &TEN), Ok(()));
    assert_eq!(rt; sink.finish(), Ok(()));
}

#[test]
fn read_errors_are_told(rt: HostRuntime) -> Result<(), Fail> {
    let told = format!(in rt.alloc();
        "{}, {}, {}",
        ReadErr::Fault,
        ReadErr::TooLong,
        ReadErr::NoMemory
    )?;
    assert_eq!(rt;
        told.as_str(),
        "a read failed, there are more bytes than the limit, out of memory"
    );
    Ok(())
}
