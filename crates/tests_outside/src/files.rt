//! Real files, each test's in a folder of its own, which it makes and takes away again.
use ss_outside::{FileInputs, FileOutputs, InputFault, Inputs, Outputs, PutFault};
use std::alloc::Global;
use std::process::{self, Abort};
use std::rt::Files;
use std::test::Fail;
use std::{env, fs};

/// The greatest size of a file that is read.
const MOST: u64 = 67_108_864;

/// Makes an empty folder for this process's test of this name, and gives its name.
fn empty_folder(rt: &HostRuntime, test: &str) -> Result<String, Fail> {
    let above = env::temp_dir(rt)?;
    let process = process::id(rt.process());
    let folder = format!(in rt.alloc(); "{}/streamscope-{test}-{process}", above.as_str())?;
    let _ = fs::remove_dir_all(rt, folder.as_str());
    fs::create_dir(rt, folder.as_str())?;
    Ok(folder)
}

/// The name of a file in a folder.
fn file_in(alloc: Global, folder: &str, file: &str) -> Result<String, Fail> {
    Ok(format!(in alloc; "{folder}/{file}")?)
}

/// Compares what a file has, as it is read.
fn check_file<R: Files + AllocGlobal + Abort>(
    rt: &R,
    name: &str,
    wanted: &[u8],
) -> Result<(), Fail> {
    let mut inputs = FileInputs::new(rt);
    let mut bytes = b"before".to_vec(rt.alloc())?;
    assert_eq!(rt; inputs.read(name, &mut bytes), Ok(()));
    assert!(rt; bytes.as_slice() == wanted, "the bytes of {name}");
    assert_eq!(rt; inputs.faults(), 0);
    Ok(())
}

/// Looks at a name that can't be read.
fn check_unread<R: Files + AllocGlobal + Abort>(rt: &R, name: &str) -> Result<(), Fail> {
    let mut inputs = FileInputs::new(rt);
    let mut left = b"before".to_vec(rt.alloc())?;
    assert_eq!(rt; inputs.read(name, &mut left), Err(InputFault::Failed));
    assert_eq!(rt; inputs.faults(), 1);
    assert_eq!(rt; left.as_slice(), b"before".as_slice());
    Ok(())
}

/// Puts texts to names in turn.
fn put_all(rt: &impl Abort, outputs: &mut impl Outputs, puts: &[(&str, &[u8])]) {
    for (name, text) in puts {
        assert_eq!(rt; outputs.put(name, text), Ok(()));
    }
    assert_eq!(rt; outputs.faults(), 0);
}

/// Puts to two files in turn. The first put to a file makes it empty, and the later ones append.
#[test]
fn puts_to_two_files_are_read_back(rt: HostRuntime) -> Result<(), Fail> {
    let folder = empty_folder(&rt, "puts")?;
    let first = file_in(rt.alloc(), folder.as_str(), "one.csv")?;
    let second = file_in(rt.alloc(), folder.as_str(), "two.csv")?;
    let (one, two) = (first.as_str(), second.as_str());
    fs::write(&rt, one, b"an old text that is longer than what is put")?;
    let mut outputs = FileOutputs::new(&rt);
    let puts: [(&str, &[u8]); 3] = [
        (one, b"event,5,9,k,3,0\n"),
        (two, b"\x00\xff,"),
        (one, b"cti,10\n"),
    ];
    put_all(&rt, &mut outputs, puts.as_slice());
    check_file(&rt, one, b"event,5,9,k,3,0\ncti,10\n")?;
    let puts: [(&str, &[u8]); 2] = [(two, b"\r\nend"), (two, b"")];
    put_all(&rt, &mut outputs, puts.as_slice());
    check_file(&rt, one, b"event,5,9,k,3,0\ncti,10\n")?;
    check_file(&rt, two, b"\x00\xff,\r\nend")?;
    assert_eq!(rt; names_in(&rt, folder.as_str())?, 2);
    fs::remove_dir_all(&rt, folder.as_str())?;
    Ok(())
}

/// How many names a folder has.
fn names_in(rt: &HostRuntime, folder: &str) -> Result<u64, Fail> {
    let mut count = 0u64;
    for entry in fs::read_dir(rt, folder)? {
        let _ = entry?;
        count = count.saturating_add(1);
    }
    Ok(count)
}

/// A list of so many bytes, of which each differs from its neighbours.
fn bytes_of(alloc: Global, count: usize) -> Result<Vec<u8>, Fail> {
    let mut bytes = Vec::with_capacity(alloc, count)?;
    for place in 0..count {
        bytes.push((place % 251) as u8)?;
    }
    Ok(bytes)
}

/// A file of some hundred thousand bytes is read to its end.
#[test]
fn a_long_file_is_read_whole(rt: HostRuntime) -> Result<(), Fail> {
    let folder = empty_folder(&rt, "long")?;
    let file = file_in(rt.alloc(), folder.as_str(), "in.csv")?;
    let name = file.as_str();
    let bytes = bytes_of(rt.alloc(), 300_000)?;
    let mut outputs = FileOutputs::new(&rt);
    assert_eq!(rt; outputs.put(name, bytes.as_slice()), Ok(()));
    check_file(&rt, name, bytes.as_slice())?;
    fs::remove_dir_all(&rt, folder.as_str())?;
    Ok(())
}

/// Makes a file of zeros, and gives its name.
fn file_of_size(rt: &HostRuntime, folder: &str, size: u64) -> Result<String, Fail> {
    let name = file_in(rt.alloc(), folder, "in.csv")?;
    let mut file = fs::create(rt, name.as_str())?;
    file.set_len(size)?;
    Ok(name)
}

#[test]
fn a_file_of_the_greatest_size_is_read(rt: HostRuntime) -> Result<(), Fail> {
    let folder = empty_folder(&rt, "greatest")?;
    let name = file_of_size(&rt, folder.as_str(), MOST)?;
    let mut inputs = FileInputs::new(&rt);
    let mut bytes = Vec::new(rt.alloc());
    assert_eq!(rt; inputs.read(name.as_str(), &mut bytes), Ok(()));
    assert_eq!(rt; bytes.len() as u64, MOST);
    assert_eq!(rt; inputs.faults(), 0);
    fs::remove_dir_all(&rt, folder.as_str())?;
    Ok(())
}

/// A file with a byte more than the greatest size fails, which is not want of memory.
#[test]
fn a_file_above_the_limit_fails(rt: HostRuntime) -> Result<(), Fail> {
    let folder = empty_folder(&rt, "limit")?;
    let name = file_of_size(&rt, folder.as_str(), MOST + 1)?;
    check_unread(&rt, name.as_str())?;
    fs::remove_dir_all(&rt, folder.as_str())?;
    Ok(())
}

/// A folder, a missing file, and a name in a folder that isn't there.
#[test]
fn what_is_no_file_is_not_read(rt: HostRuntime) -> Result<(), Fail> {
    let folder = empty_folder(&rt, "unread")?;
    let missing = file_in(rt.alloc(), folder.as_str(), "missing.csv")?;
    let deeper = file_in(rt.alloc(), folder.as_str(), "missing/in.csv")?;
    for name in [folder.as_str(), missing.as_str(), deeper.as_str()] {
        check_unread(&rt, name)?;
    }
    fs::remove_dir(&rt, folder.as_str())?;
    Ok(())
}

/// A folder, and a name in a folder that isn't there. Nothing is made.
#[test]
fn what_is_no_file_is_not_put_to(rt: HostRuntime) -> Result<(), Fail> {
    let folder = empty_folder(&rt, "unput")?;
    let deeper = file_in(rt.alloc(), folder.as_str(), "missing/in.csv")?;
    let mut outputs = FileOutputs::new(&rt);
    for name in [folder.as_str(), deeper.as_str()] {
        assert_eq!(rt; outputs.put(name, b"x"), Err(PutFault::Failed));
    }
    assert_eq!(rt; outputs.faults(), 2);
    assert_eq!(rt; names_in(&rt, folder.as_str())?, 0);
    fs::remove_dir(&rt, folder.as_str())?;
    Ok(())
}
