//! What no clause says: that calls succeed, and what files and streams do.
ghost use Rattle.std.specs.Prelude.{◌≡◌, ◌≢◌, ◌<◌, length, Err, IfOk};

use screen_io::{
    Failed, HonestSource, MemSink, MemSource, ReadFault, RealSink, RealSource, Sink, Source,
    read_all, write_all_of,
};
use std::alloc::Global;
use std::test::Fail;
use std::{env, fs, process};

/// Reads an honest source to its end: it never fails, and gives all its bytes or has too many.
fn read_honest(alloc: Global, bytes: Vec<u8>, limit: u64) -> Result<Vec<u8>, ReadFault>
    ensures all { IfOk result (λ taken. taken.items ≡ bytes.items) }
    ensures never { result ≢ Err ReadFault.Failed }
    ensures too_long { result ≡ Err ReadFault.TooLong → limit < length bytes.items }
{
    read_all(alloc, &mut HonestSource::new(bytes), limit)
}

#[test]
fn reads_all_that_the_limit_allows(rt: HostRuntime) -> Result<(), Fail> {
    let alloc = rt.alloc();
    for count in [0, 1, 5, 200_000] {
        let bytes = vec![in alloc; 7u8; count as usize]?;
        for (limit, allows) in [(count, true), (u64::MAX, true), (count / 2, count == 0)] {
            let want = if allows {
                Ok(bytes.as_slice())
            } else {
                Err(ReadFault::TooLong)
            };
            let honest = read_honest(alloc, bytes.clone()?, limit);
            assert_eq!(rt;
                honest.as_ref().map(Vec::as_slice).map_err(|fault| *fault),
                want
            );
            let mut halting = MemSource::new(bytes.clone()?, Vec::new(alloc), 100_000);
            let read = read_all(alloc, &mut halting, limit);
            assert_eq!(rt;
                read.as_ref().map(Vec::as_slice).map_err(|fault| *fault),
                want
            );
        }
    }
    Ok(())
}

#[test]
fn a_call_that_fails_is_counted_and_handed_on(rt: HostRuntime) -> Result<(), Fail> {
    let alloc = rt.alloc();
    let mut source = MemSource::new(b"hello".to_vec(alloc)?, vec![in alloc; 2]?, 1);
    let read = read_all(alloc, &mut source, 5);
    assert_eq!(rt; read.err(), Some(ReadFault::Failed));
    assert_eq!(rt; source.fault_count(), 1);
    // The third call, which hands on, fails after all was taken.
    for (call, held) in [(1, b"".as_slice()), (2, b"hel"), (3, b"hello")] {
        let mut sink = MemSink::new(alloc, 5, vec![in alloc; call]?, 3)?;
        assert_eq!(rt; write_all_of(&mut sink, b"hello"), Err(Failed));
        assert_eq!(rt; sink.held_bytes(), held);
        assert_eq!(rt; sink.fault_count(), 1);
    }
    let mut sink = MemSink::new(alloc, 5, vec![in alloc; 4]?, 3)?;
    assert_eq!(rt; write_all_of(&mut sink, b"hello"), Ok(()));
    Ok(())
}

#[test]
fn a_file_gives_back_what_was_written(rt: HostRuntime) -> Result<(), Fail> {
    let alloc = rt.alloc();
    let name = own_name(&rt, "written")?;
    let mut absent = RealSink::file(rt.clone()?, name.clone()?);
    assert_eq!(rt; write_all_of(&mut absent, b""), Ok(()));
    let mut source = RealSource::file(rt.clone()?, name.clone()?);
    let read = read_all(alloc, &mut source, 16);
    assert_eq!(rt;
        read.err(),
        Some(ReadFault::Failed),
        "a file without a write is not made"
    );
    assert_eq!(rt; source.fault_count(), 1);

    for bytes in [b"first contents".as_slice(), b"second"] {
        let mut sink = RealSink::file(rt.clone()?, name.clone()?);
        write_all_of(&mut sink, bytes)?;
        write_all_of(&mut sink, b", and more")?;
        assert_eq!(rt; sink.fault_count(), 0);
    }
    let mut source = RealSource::file(rt.clone()?, name.clone()?);
    let bytes = read_all(alloc, &mut source, 16)?;
    assert_eq!(rt; bytes.as_slice(), b"second, and more".as_slice());
    assert_eq!(rt; source.fault_count(), 0);
    fs::remove_file(&rt, name)?;
    Ok(())
}

#[test]
fn devices_and_folders_are_told_apart_from_files(rt: HostRuntime) -> Result<(), Fail> {
    let alloc = rt.alloc();
    // A device has no store to wait for, and that is no fault.
    for (name, outcome, faults) in [
        ("/dev/null", Ok(()), 0),
        ("/dev/full", Err(Failed), 1),
        ("/", Err(Failed), 1),
    ] {
        let name = String::from_str(alloc, name)?;
        let mut sink = RealSink::file(rt.clone()?, name);
        assert_eq!(rt; write_all_of(&mut sink, b"hello"), outcome);
        assert_eq!(rt; sink.fault_count(), faults);
    }
    let mut folder = RealSource::file(rt.clone()?, String::from_str(alloc, "/")?);
    let read = read_all(alloc, &mut folder, 16);
    assert_eq!(rt; read.err(), Some(ReadFault::Failed));
    assert_eq!(rt; folder.fault_count(), 1);
    Ok(())
}

#[test]
fn standard_streams_and_nothing_take_and_give(rt: HostRuntime) -> Result<(), Fail> {
    let alloc = rt.alloc();
    write_all_of(&mut RealSink::output(rt.clone()?), b"to standard output\n")?;
    write_all_of(
        &mut RealSink::error(rt.clone()?),
        b"to standard \xff error\n",
    )?;
    write_all_of(&mut RealSink::<HostRuntime>::nothing(), b"to nothing")?;
    let mut nothing = RealSource::<HostRuntime>::nothing();
    let read = read_all(alloc, &mut nothing, 16)?;
    assert_eq!(rt; read.as_slice(), b"".as_slice());
    assert_eq!(rt; RealSource::input(rt.clone()?).read(&mut []), Ok(0));
    Ok(())
}

/// A name in the folder for temporary files that no other process uses.
fn own_name(rt: &HostRuntime, word: &str) -> Result<String, Fail> {
    let folder = env::temp_dir(rt)?;
    let process = process::id(rt.process());
    let name = format!(in rt.alloc(); "screen_io_{process}_{word}")?;
    let path = folder.as_path().join(rt.alloc(), name.as_str())?;
    Ok(format!(in rt.alloc(); "{}", path.display())?)
}
