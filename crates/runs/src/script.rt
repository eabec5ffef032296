//! Commands as lines of text, each carried out by `run`, or by `run_reach` where it begins with `ncl_reach`, over files that lie
//! in a folder or were kept, and what is written printed with the status.
use ncl_base::{Items, MemFile, MemSink, MemSource, Name};
use ncl_reach_top::run_reach;
use ncl_top::run;
use std::alloc::Global;
use std::fs;
use std::io::Print;
use std::rt::Files;
use std::thread::Threads;

/// The most bytes that a command writes.
const ROOM: usize = 1_000_000;

/// The bytes that one call of a source or of a sink moves at most.
const AT_ONCE: usize = 4096;

/// A file of this name with these bytes.
fn file(alloc: Global, name: &str, bytes: Vec<u8>) -> anyhow::Result<MemFile> {
    Ok(MemFile {
        name: Name::from_bytes(alloc, name.as_bytes())?,
        bytes: Items::from_vec(bytes),
    })
}

/// What stands after the `=` of an argument such as `--words=FILE`, and else the argument.
fn value_of(argument: &str) -> &str {
    match argument.split_once('=') {
        Some((_, value)) => value,
        None => argument,
    }
}

/// What a folder with a `/` behind it holds under a name, if it can be read.
fn bytes_in<R: Files + AllocGlobal>(
    rt: &R,
    folder: &str,
    name: &str,
) -> anyhow::Result<Option<Vec<u8>>> {
    let path = format!(in rt.alloc(); "{folder}{name}")?;
    Ok(fs::read(rt, &path).ok())
}

/// The files that these arguments name: those that were kept, and those that lie in the folder. A pass over the kept
/// files for each argument.
fn files_of<R: Files + AllocGlobal>(
    rt: &R,
    folder: &str,
    arguments: &[&str],
    kept: &[MemFile],
) -> anyhow::Result<Vec<MemFile>> {
    let alloc = rt.alloc();
    let mut files = Vec::new(alloc);
    for argument in arguments {
        let name = value_of(argument);
        if let Some(one) = kept.iter().find(|one| one.name.bytes() == name.as_bytes()) {
            files.push(one.clone()?)?;
        } else if let Some(bytes) = bytes_in(rt, folder, name)? {
            files.push(file(alloc, name, bytes)?)?;
        }
    }
    Ok(files)
}

/// The status of a command, and what it writes.
fn status_and_text<R: Threads + Sync + Files + AllocGlobal>(
    rt: &R,
    folder: &str,
    command: &str,
    kept: &[MemFile],
) -> anyhow::Result<(u8, Vec<u8>)> {
    let alloc = rt.alloc();
    let arguments: Vec<&str> = command.split(' ').collect(alloc)?;
    let files = files_of(rt, folder, &arguments, kept)?;
    let mut source = MemSource::new(files, AT_ONCE, Vec::new(alloc));
    let mut sink = MemSink::new(alloc, ROOM, AT_ONCE, Vec::new(alloc))?;
    let status = match arguments.as_slice() {
        ["ncl_reach", rest @ ..] => run_reach(alloc, rest, &mut source, &mut sink),
        all => run(rt, alloc, all, &mut source, &mut sink),
    };
    Ok((status, sink.bytes().to_vec(alloc)?))
}

/// Carries out a line, the arguments of a command with blanks between them, and prints it, what it writes, and its
/// status. Where the line ends with `> NAME`, what is written is kept as a file of this name for the lines that follow.
fn carry_out_line<R: Threads + Sync + Files + AllocGlobal + Print>(
    rt: &R,
    folder: &str,
    line: &str,
    kept: &mut Vec<MemFile>,
) -> anyhow::Result<()> {
    let program = if line.starts_with("ncl_reach ") {
        ""
    } else {
        "nclc "
    };
    println!(rt; "$ {program}{line}")?;
    let (command, name) = match line.split_once(" > ") {
        Some((command, name)) => (command, Some(name)),
        None => (line, None),
    };
    let (status, written) = status_and_text(rt, folder, command, kept)?;
    match name {
        Some(name) => kept.push(file(rt.alloc(), name, written)?)?,
        None => rt.write_all(&written)?,
    }
    println!(rt; "status {status}")?;
    Ok(())
}

/// Carries out each command of the file `commands` of a folder, whose name has a `/` behind it, a line for each, by the top calls
/// over the files of that folder. Prints the command, what it writes, and the status. What a command that ends with `> NAME`
/// writes is kept as a file of this name for those that follow.
///
/// Fails where memory is refused, where nothing can be printed, or where a command writes more than a million bytes.
pub(crate) fn carry_out<R: Threads + Sync + Files + AllocGlobal + Print>(
    rt: &R,
    folder: &str,
) -> anyhow::Result<()> {
    let path = format!(in rt.alloc(); "{folder}commands")?;
    let commands = fs::read_to_string(rt, &path)?;
    let mut kept = Vec::new(rt.alloc());
    for line in commands.lines() {
        carry_out_line(rt, folder, line, &mut kept)?;
    }
    Ok(())
}
