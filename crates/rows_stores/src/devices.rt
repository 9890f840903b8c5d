//! What rows act on: files of each kind, or a table of links. Several may be open, and each row is for all of them.
use crate::answers::{Answer, displayed, done, joined, yes_or_no};
use crate::file_rows;
use crate::ids::two;
use crate::recorder::Recorder;
use crate::tables::Drawn;
use std::alloc::Global;
use std::fs::File;
use std::io::Print;
use std::thread::Threads;
use std::{mem, rt};
use vc_files::{FailOnce, FusedFiles, MemoryFiles};
use vc_folder::{FolderFiles, Syncs};

/// What a program is given to reach folders, and to print.
pub trait Host: rt::Files<File = File> + Threads + Print + AllocGlobal + Clone + Drop {}

impl<R: rt::Files<File = File> + Threads + Print + AllocGlobal + Clone + Drop> Host for R {}

#[derive(Drop)]
pub enum Device<R: Host> {
    Memory(MemoryFiles),
    Folder(FolderFiles<R>),
    Recorded(FolderFiles<Recorder<R>>),
    Fails(FailOnce<MemoryFiles>),
    Fused(FusedFiles<MemoryFiles>),
    Table(Drawn),
}

/// Lets go what was open, and opens what the text names, parted by `, `.
pub fn open_all<R: Host>(rt: &R, devices: &mut Vec<Device<R>>, text: &str) -> Answer {
    devices.clear();
    for part in text.split(", ") {
        devices.push(open(rt, part)?)?;
    }
    done(rt.alloc())
}

fn open<R: Host>(rt: &R, text: &str) -> anyhow::Result<Device<R>> {
    let (kind, rest) = two(text);
    let alloc = rt.alloc();
    match kind {
        "memory" => Ok(Device::Memory(MemoryFiles::new(alloc))),
        "folder" => folder(rt, rest),
        "recorded" => recorded(rt, rest, None),
        "meanwhile" => {
            let (path, taken) = two(rest);
            recorded(rt, path, Some(String::from_str(alloc, taken)?))
        }
        "fails" => {
            let calls = rest.parse::<u64>()?;
            Ok(Device::Fails(FailOnce::new(MemoryFiles::new(alloc), calls)))
        }
        "fused" => fused(alloc, rest),
        "table" => table(alloc, rest),
        _ => anyhow::bail!("no such files"),
    }
}

fn folder<R: Host>(rt: &R, path: &str) -> anyhow::Result<Device<R>> {
    let path = String::from_str(rt.alloc(), path)?;
    Ok(Device::Folder(FolderFiles::new(rt.clone()?, path)))
}

fn recorded<R: Host>(rt: &R, path: &str, taken: Option<String>) -> anyhow::Result<Device<R>> {
    let recorder = Recorder {
        host: rt.clone()?,
        taken,
    };
    let path = String::from_str(rt.alloc(), path)?;
    Ok(Device::Recorded(FolderFiles::new(recorder, path)))
}

// Files with a fuse that is set where the text has a number.
fn fused<R: Host>(alloc: Global, text: &str) -> anyhow::Result<Device<R>> {
    let fuse = match text {
        "" => None,
        number => Some(number.parse::<u64>()?),
    };
    let mut files = FusedFiles::new(MemoryFiles::new(alloc));
    if let Some(writes) = fuse {
        files.stop_after(writes);
    }
    Ok(Device::Fused(files))
}

fn table<R: Host>(alloc: Global, text: &str) -> anyhow::Result<Device<R>> {
    let mut drawn = Drawn::new(alloc);
    drawn.draw(text)?;
    Ok(Device::Table(drawn))
}

/// The answers of all that is open, of which one is printed where all are the same.
pub fn obey_all<R: Host>(
    alloc: Global,
    devices: &mut Vec<Device<R>>,
    verb: &str,
    rest: &str,
) -> Answer {
    let mut answers: Vec<String> = Vec::new(alloc);
    for device in devices.iter_mut() {
        answers.push(told(alloc, obey(alloc, device, verb, rest))?)?;
    }
    if are_same(&answers) {
        answers.truncate(1);
    }
    joined(alloc, &answers, " | ")
}

// An answer, or why there is none.
fn told(alloc: Global, answer: Answer) -> Answer {
    match answer {
        Ok(answer) => Ok(answer),
        Err(error) => displayed(alloc, &error),
    }
}

fn are_same(answers: &[String]) -> bool {
    let Some((first, others)) = answers.split_first() else {
        return true;
    };
    for other in others {
        if other != first {
            return false;
        }
    }
    true
}

fn obey<R: Host>(alloc: Global, device: &mut Device<R>, verb: &str, rest: &str) -> Answer {
    if verb == "restart" {
        restart(alloc, device);
        return done(alloc);
    }
    match device {
        Device::Memory(files) => file_rows::obey(files, alloc, verb, rest),
        Device::Folder(files) => obey_in_folder(files, alloc, verb, rest),
        Device::Recorded(files) => obey_in_folder(files, alloc, verb, rest),
        Device::Fails(files) => match verb {
            "tripped" => yes_or_no(alloc, files.has_failed()),
            _ => file_rows::obey(files, alloc, verb, rest),
        },
        Device::Fused(files) => match verb {
            "tripped" => yes_or_no(alloc, files.is_blown()),
            "fuse" => {
                files.stop_after(rest.parse()?);
                done(alloc)
            }
            "mend" => {
                files.mend();
                done(alloc)
            }
            _ => file_rows::obey(files, alloc, verb, rest),
        },
        Device::Table(drawn) => drawn.obey(verb, rest),
    }
}

fn obey_in_folder<R: rt::Files + Syncs<R::File> + AllocGlobal + Clone + Drop>(
    files: &mut FolderFiles<R>,
    alloc: Global,
    verb: &str,
    rest: &str,
) -> Answer {
    if verb != "sync" {
        return file_rows::obey(files, alloc, verb, rest);
    }
    files.sync(alloc)?;
    done(alloc)
}

// The files as a restart finds them, without what made them fail.
fn restart<R: Host>(alloc: Global, device: &mut Device<R>) {
    let none = MemoryFiles::new(alloc);
    let files = match device {
        Device::Fails(files) => mem::replace(files, FailOnce::new(none, 0)).into_inner(),
        Device::Fused(files) => mem::replace(files, FusedFiles::new(none)).into_inner(),
        _ => return,
    };
    *device = Device::Memory(files);
}
