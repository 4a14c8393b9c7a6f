//! The host's files and streams, of which contracts see no content.

use offer_io::{Failed, HostSink, HostStore, Sink, Store, load};
use std::{env, fs};

/// What a first read of three bytes puts there, and their number.
fn three<S: Store>(store: &mut S, name: &str) -> Result<([u8; 3], usize), Failed> {
    let mut piece = [b'-'; 3];
    store.open(name)?;
    let count = store.read(&mut piece)?;
    Ok((piece, count))
}

/// Writes a file of two pieces.
fn write_two<S: Store>(store: &mut S, name: &str) -> Result<(), Failed> {
    store.create(name)?;
    store.append(b"ab")?;
    store.append(b"cde")?;
    store.seal()
}

#[test]
fn real_files_hold_what_is_written(rt: HostRuntime) {
    let mut path = env::temp_dir(&rt).expect(&rt, "a folder");
    assert!(rt;
        path.push("run_rows_real_files_hold_what_is_written")
            .is_ok()
    );
    let name = path.to_str().expect(&rt, "a name");
    let mut store = HostStore::new(&rt);
    assert!(rt; write_two(&mut store, name).is_ok());
    assert_eq!(rt; three(&mut store, name), Ok((*b"abc", 3)));
    let bytes = load(rt.alloc(), &mut store, name, 5);
    assert!(rt; bytes.is_ok_and(|bytes| bytes.as_slice() == b"abcde".as_slice()));
    assert!(rt; fs::remove_file(&rt, name).is_ok());
    assert!(rt; store.open(name).is_err());
}

#[test]
fn a_stream_without_room_fails_after_a_part(rt: HostRuntime) {
    let mut room = [0u8; 3];
    let mut sink = HostSink::new(room.as_mut_slice());
    assert!(rt; sink.write(b"ab").is_ok());
    assert!(rt; sink.write(b"cd").is_err());
    assert_eq!(rt; room, *b"abc");
}
