//! The forms of the outside over the host's files and its standard output.

use hist_plain::{Event, Gate, Op, OpenGate};
use spr_io::{
    Bay, BayErr, Failed, HostBay, HostFile, HostShelf, HostStore, RamFile, Shelf, ShelfErr, Sink,
    StdSink, Store,
};
use std::fs;
use std::test::Fail;

#[test]
fn host_bay(rt: HostRuntime) -> Result<(), Fail> {
    let path = "spr_io_bay.f.img";
    let _ = fs::remove_file(&rt, path);
    let mut bay = HostBay::new(rt.clone()?, rt.alloc());
    let mut store = bay.take("spr_io_bay", "f", 4, 2)?;
    let mut out = [9u8; 4];
    assert_eq!(rt; store.read(1, &mut out), Ok(()));
    assert_eq!(rt; out.as_slice(), b"\0\0\0\0".as_slice());
    assert_eq!(rt; store.write(1, b"abcd"), Ok(()));
    assert_eq!(rt; store.flush(), Ok(()));
    assert_eq!(rt; bay.give("spr_io_bay", "f", store), Ok(()));
    assert_eq!(rt; fs::read(&rt, path)?.as_slice(), b"\0\0\0\0abcd".as_slice());
    assert_eq!(rt;
        bay.take("spr_io_bay", "f", 4, 3).err(),
        Some(BayErr::Failed),
        "it has two blocks"
    );
    let store = bay.take("spr_io_bay", "f", 4, 2)?;
    assert_eq!(rt;
        bay.give("spr_io_bay", "g", store),
        Err(Failed),
        "it was not taken"
    );
    fs::remove_file(&rt, path)?;
    Ok(())
}

/// A store of the host whose file cannot be written.
#[test]
fn host_store_at_the_end_of_its_count(rt: HostRuntime) -> Result<(), Fail> {
    let path = "spr_io_store.f.img";
    fs::write(&rt, path, "abcd")?;
    for (count, want, after) in [(0u64, Err(Failed), 1u64), (u64::MAX, Ok(()), u64::MAX)] {
        let file = fs::open(&rt, path)?;
        let mut store = HostStore::new(HostFile::new(file), 4, 1, count);
        assert_eq!(rt;
            store.write(0, b"efgh"),
            want,
            "the file is not open for writing"
        );
        assert_eq!(rt; store.count(), after);
    }
    fs::remove_file(&rt, path)?;
    Ok(())
}

/// A store that one bay has taken is refused to another, until it is given back.
#[test]
fn a_taken_store_is_locked(rt: HostRuntime) -> Result<(), Fail> {
    let path = "spr_io_lock.f.img";
    let _ = fs::remove_file(&rt, path);
    let mut one = HostBay::new(rt.clone()?, rt.alloc());
    let mut other = HostBay::new(rt.clone()?, rt.alloc());
    let store = one.take("spr_io_lock", "f", 4, 2)?;
    assert_eq!(rt;
        other.take("spr_io_lock", "f", 4, 2).err(),
        Some(BayErr::Failed)
    );
    assert_eq!(rt; one.give("spr_io_lock", "f", store), Ok(()));
    let store = other.take("spr_io_lock", "f", 4, 2)?;
    assert_eq!(rt; other.give("spr_io_lock", "f", store), Ok(()));
    fs::remove_file(&rt, path)?;
    Ok(())
}

/// A file that is cut short while its store is out: what is gone is refused, and the block that is left is read.
#[test]
fn a_file_that_is_cut(rt: HostRuntime) -> Result<(), Fail> {
    let path = "spr_io_cut.f.img";
    let _ = fs::remove_file(&rt, path);
    let mut bay = HostBay::new(rt.clone()?, rt.alloc());
    let mut store = bay.take("spr_io_cut", "f", 4, 2)?;
    assert_eq!(rt; store.write(0, b"abcd"), Ok(()));
    assert_eq!(rt; store.write(1, b"efgh"), Ok(()));
    let mut how = fs::OpenOptions::new();
    how.write(true);
    how.open(&rt, path)?.set_len(4)?;
    let mut out = [0u8; 4];
    assert_eq!(rt; store.read(1, &mut out), Err(Failed));
    assert_eq!(rt; store.count(), 1);
    assert_eq!(rt; store.read(0, &mut out), Ok(()));
    assert_eq!(rt; out.as_slice(), b"abcd".as_slice());
    assert_eq!(rt; bay.give("spr_io_cut", "f", store), Ok(()));
    assert_eq!(rt;
        bay.take("spr_io_cut", "f", 4, 2).err(),
        Some(BayErr::Failed),
        "it has two blocks"
    );
    fs::remove_file(&rt, path)?;
    Ok(())
}

/// A file that reads three bytes at most, and refuses its first sync: the store reads whole blocks, and is never flushed well.
#[test]
fn a_refused_sync_spoils(rt: HostRuntime) -> Result<(), Fail> {
    let file = RamFile::new(rt.alloc(), b"abcdefgh", 3, &[], &[], &[1])?;
    let mut store = HostStore::new(file, 4, 2, 0);
    let mut out = [0u8; 4];
    assert_eq!(rt; store.read(1, &mut out), Ok(()));
    assert_eq!(rt; out.as_slice(), b"efgh".as_slice());
    assert_eq!(rt; store.write(0, b"ijkl"), Ok(()));
    assert_eq!(rt; store.flush(), Err(Failed));
    assert_eq!(rt; store.flush(), Err(Failed), "the file would answer Ok");
    assert_eq!(rt; (store.is_spoiled(), store.count()), (true, 2));
    assert_eq!(rt; store.read(0, &mut out), Ok(()));
    assert_eq!(rt; out.as_slice(), b"ijkl".as_slice());
    Ok(())
}

#[test]
fn host_shelf(rt: HostRuntime) -> Result<(), Fail> {
    let path = "spr_io_shelf.txt";
    fs::write(&rt, path, "text")?;
    let mut shelf = HostShelf::new(rt.clone()?);
    let mut out = Vec::new(rt.alloc());
    assert_eq!(rt; shelf.read(path, 4, &mut out), Ok(()));
    assert_eq!(rt; out.as_slice(), b"text".as_slice());
    assert_eq!(rt; shelf.read(path, 3, &mut out), Err(ShelfErr::Failed));
    fs::remove_file(&rt, path)?;
    assert_eq!(rt;
        shelf.read(path, 4, &mut out),
        Err(ShelfErr::Failed),
        "it is missing"
    );
    Ok(())
}

#[test]
fn standard_output(rt: HostRuntime) -> Result<(), Fail> {
    let mut sink = StdSink::new(rt.clone()?);
    assert_eq!(rt; sink.write(b""), Ok(0));
    assert_eq!(rt; sink.write(b"out\n"), Ok(4));
    let read = Event::Access {
        caller: 0,
        number: 0,
        node: 1,
        life: 0,
        op: Op::Open,
    };
    OpenGate.between(0, 0, &read);
    Ok(())
}
