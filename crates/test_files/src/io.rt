//! Tests of what no clause says: the texts of both real ends, and each impl once.
use pv_io::*;
use std::alloc::{AllocError, Global};
use std::collections::BTreeMap;
use std::io::{Error, ErrorKind, Write};
use std::os::unix::fs::{MetadataExt, PermissionsExt, symlink};
use std::test::Fail;
use std::{fs, io};

const PIECES: [&str; 3] = ["ab", "cd", "ef"];

fn one_file(alloc: Global, name: &str, bytes: &[u8]) -> Result<BTreeMap<String, Vec<u8>>, Fail> {
    let mut files = BTreeMap::new(alloc);
    files.insert(String::from_str(alloc, name)?, bytes.to_vec(alloc)?)?;
    Ok(files)
}

#[test]
fn a_sink_in_memory_fails_by_its_list(rt: HostRuntime) -> Result<(), Fail> {
    let alloc = rt.alloc();
    let mut sink = MemSink::new(alloc, vec![in alloc; 1]?);
    let want = [Ok(()), Err(IoRefused::Failed), Ok(())];
    for (piece, want) in PIECES.iter().zip(want) {
        assert_eq!(rt; sink.write(piece.as_bytes()), want, "{piece}");
    }
    assert_eq!(rt; sink.bytes(), b"abef".as_slice());
    let mut plain = PlainSink::new(alloc);
    plain.write(b"ab")?;
    plain.write(b"")?;
    plain.write(b"c")?;
    assert_eq!(rt; plain.bytes(), b"abc".as_slice());
    Ok(())
}

#[test]
fn a_folder_in_memory_fails_by_its_list(rt: HostRuntime) -> Result<(), Fail> {
    let alloc = rt.alloc();
    let files = one_file(alloc, "s", b"abc")?;
    let mut folder = MemFolder::new(alloc, files, vec![in alloc; 1, 6]?);
    let fetches: [(&str, u64, Result<(), FetchRefused>, &[u8]); 5] = [
        ("s", 3, Ok(()), b"abc"),
        ("s", 3, Err(FetchRefused::Failed), b""),
        ("s", 2, Err(FetchRefused::TooLong), b"abc"),
        ("s", 0, Err(FetchRefused::TooLong), b"a"),
        ("t", 3, Err(FetchRefused::Absent), b""),
    ];
    for (name, limit, want, bytes) in fetches {
        let mut into = Vec::new(alloc);
        assert_eq!(rt; folder.fetch(name, limit, &mut into), want);
        assert_eq!(rt; into.as_slice(), bytes);
    }
    assert_eq!(rt; folder.store("t", b"xy"), Ok(()));
    assert_eq!(rt; folder.store("t", b"z"), Err(IoRefused::Failed));
    let mut into = Vec::new(alloc);
    assert_eq!(rt; folder.fetch("t", 9, &mut into), Ok(()));
    assert_eq!(rt; into.as_slice(), b"xy".as_slice());
    let mut plain = PlainFolder::new(alloc, one_file(alloc, "s", b"abc")?);
    plain.store("s", b"d")?;
    let mut into = Vec::new(alloc);
    assert_eq!(rt; plain.fetch("s", 9, &mut into), Ok(()));
    assert_eq!(rt; into.as_slice(), b"d".as_slice());
    Ok(())
}

// Takes two bytes at a time, is once interrupted, and takes nothing more when it is full.
#[derive(Drop)]
struct Slow {
    taken: Vec<u8>,
    room: usize,
    interrupted: bool,
}

impl Write for Slow {
    fn write(&mut self, buf: &[u8]) -> io::Result<usize> {
        if !self.interrupted {
            self.interrupted = true;
            return Err(Error::from(ErrorKind::Interrupted));
        }
        let count = buf.len().min(2).min(self.room);
        self.taken.extend_from_slice(&buf[..count])?;
        self.room -= count;
        Ok(count)
    }

    fn flush(&mut self) -> io::Result<()> {
        Ok(())
    }
}

#[test]
fn a_real_sink_goes_on_until_all_is_taken(rt: HostRuntime) -> Result<(), Fail> {
    let alloc = rt.alloc();
    let mut slow = Slow {
        taken: Vec::new(alloc),
        room: 7,
        interrupted: false,
    };
    let mut sink = RealSink::new(&mut slow);
    assert_eq!(rt; sink.write(b"abcde"), Ok(()));
    assert_eq!(rt; sink.write(b""), Ok(()));
    assert_eq!(rt; sink.write(b"fgh"), Err(IoRefused::Failed));
    assert_eq!(rt; slow.taken.as_slice(), b"abcdefg".as_slice());
    Ok(())
}

#[test]
fn a_real_folder_reads_what_it_stored(rt: HostRuntime) -> Result<(), Fail> {
    let alloc = rt.alloc();
    let name = "pv_io_test_file";
    fs::create_dir(&rt, "pv_io_test_dir")?;
    let mut folder = RealFolder::new(&rt);
    assert_eq!(rt; folder.store(name, b"longer than what follows"), Ok(()));
    assert_eq!(rt; folder.store(name, b"abc"), Ok(()));
    assert_eq!(rt;
        folder.store("pv_io_test_dir", b"abc"),
        Err(IoRefused::Failed)
    );
    let fetches: [(&str, u64, Result<(), FetchRefused>, &[u8]); 5] = [
        (name, 3, Ok(()), b"abc"),
        (name, 2, Err(FetchRefused::TooLong), b"abc"),
        (name, 0, Err(FetchRefused::TooLong), b"a"),
        ("pv_io_test_none", 3, Err(FetchRefused::Absent), b""),
        ("pv_io_test_dir", 3, Err(FetchRefused::Failed), b""),
    ];
    for (name, limit, want, bytes) in fetches {
        let mut into = Vec::new(alloc);
        assert_eq!(rt; folder.fetch(name, limit, &mut into), want);
        assert_eq!(rt; into.as_slice(), bytes);
    }
    fs::remove_file(&rt, name)?;
    fs::remove_dir(&rt, "pv_io_test_dir")?;
    Ok(())
}

// More than three pieces of what one read takes, with no period that a piece could hide.
fn long_text(alloc: Global) -> Result<Vec<u8>, AllocError> {
    let mut text = Vec::new(alloc);
    for i in 0..50_000u32 {
        text.push((i % 251) as u8)?;
    }
    Ok(text)
}

#[test]
fn a_real_folder_reads_in_pieces(rt: HostRuntime) -> Result<(), Fail> {
    let name = "pv_io_test_long";
    let mut text = long_text(rt.alloc())?;
    let mut folder = RealFolder::new(&rt);
    assert_eq!(rt; folder.store(name, &text), Ok(()));
    let mut into = Vec::new(rt.alloc());
    assert_eq!(rt; folder.fetch(name, 50_000, &mut into), Ok(()));
    assert!(rt; into.as_slice() == text.as_slice());
    let mut into = Vec::new(rt.alloc());
    assert_eq!(rt;
        folder.fetch(name, 40_000, &mut into),
        Err(FetchRefused::TooLong)
    );
    text.truncate(40_001);
    assert!(rt; into.as_slice() == text.as_slice());
    fs::remove_file(&rt, name)?;
    Ok(())
}

fn held(rt: &HostRuntime, name: &str) -> io::Result<String> {
    fs::read_to_string(rt, name)
}

// How many names a folder has.
fn names_in(rt: &HostRuntime, folder: &str) -> io::Result<usize> {
    let mut count = 0usize;
    for entry in fs::read_dir(rt, folder)? {
        entry?;
        count = count.saturating_add(1);
    }
    Ok(count)
}

#[test]
fn a_store_replaces_the_file_at_the_end_of_links(rt: HostRuntime) -> Result<(), Fail> {
    let _ = fs::remove_dir_all(&rt, "pv_io_test_links");
    fs::create_dir(&rt, "pv_io_test_links")?;
    fs::create_dir(&rt, "pv_io_test_links/far")?;
    fs::write(&rt, "pv_io_test_links/far/old", "old")?;
    fs::set_permissions(
        &rt,
        "pv_io_test_links/far/old",
        fs::Permissions::from_mode(0o640),
    )?;
    symlink(&rt, "far/old", "pv_io_test_links/link")?;
    symlink(&rt, "link", "pv_io_test_links/second")?;
    symlink(&rt, "far/none", "pv_io_test_links/loose")?;
    symlink(&rt, "round", "pv_io_test_links/round")?;
    let before = fs::metadata(&rt, "pv_io_test_links/far/old")?.ino();
    let mut folder = RealFolder::new(&rt);
    assert_eq!(rt; folder.store("pv_io_test_links/second", b"new"), Ok(()));
    assert_eq!(rt; held(&rt, "pv_io_test_links/far/old")?.as_str(), "new");
    let after = fs::metadata(&rt, "pv_io_test_links/far/old")?;
    assert!(rt; after.ino() != before);
    assert_eq!(rt; after.mode() & 0o777, 0o640);
    assert_eq!(rt; folder.store("pv_io_test_links/loose", b"made"), Ok(()));
    assert_eq!(rt; held(&rt, "pv_io_test_links/far/none")?.as_str(), "made");
    assert_eq!(rt;
        folder.store("pv_io_test_links/round", b"lost"),
        Err(IoRefused::Failed)
    );
    assert_eq!(rt; names_in(&rt, "pv_io_test_links")?, 5);
    assert_eq!(rt; names_in(&rt, "pv_io_test_links/far")?, 2);
    fs::remove_dir_all(&rt, "pv_io_test_links")?;
    Ok(())
}

#[test]
fn a_folder_tells_which_names_are_one(rt: HostRuntime) -> Result<(), Fail> {
    let _ = fs::remove_dir_all(&rt, "pv_io_test_one");
    fs::create_dir(&rt, "pv_io_test_one")?;
    fs::write(&rt, "pv_io_test_one/a", "a")?;
    fs::write(&rt, "pv_io_test_one/b", "a")?;
    fs::hard_link(&rt, "pv_io_test_one/a", "pv_io_test_one/hard")?;
    symlink(&rt, "a", "pv_io_test_one/soft")?;
    let folder = RealFolder::new(&rt);
    assert!(rt; folder.are_one("pv_io_test_one/a", "pv_io_test_one/a"));
    assert!(rt; folder.are_one("pv_io_test_one/a", "pv_io_test_one/./hard"));
    assert!(rt; folder.are_one("pv_io_test_one/soft", "pv_io_test_one/a"));
    assert!(rt; !folder.are_one("pv_io_test_one/a", "pv_io_test_one/b"));
    assert!(rt; !folder.are_one("pv_io_test_one/a", "pv_io_test_one/none"));
    assert!(rt; folder.is_stream("/dev/stdout") || folder.are_one("/dev/stdout", "/dev/null"));
    assert!(rt; !folder.is_stream("pv_io_test_one/a"));
    assert!(rt; !folder.is_stream("/dev/null"));
    let plain = PlainFolder::new(rt.alloc(), one_file(rt.alloc(), "a", b"a")?);
    assert!(rt; plain.are_one("a", "a") && !plain.are_one("a", "b") && !plain.is_stream("a"));
    fs::remove_dir_all(&rt, "pv_io_test_one")?;
    Ok(())
}
