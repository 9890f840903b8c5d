//! Rows on the right to write to a folder, and on shares in one. A program that locks a folder twice stands for two processes.
use crate::answers::{Answer, done, word};
use crate::devices::Host;
use vc_folder::{FolderLock, FolderShare};

pub fn obey<R: Host>(rt: &R, locks: &mut Vec<FolderLock<R>>, verb: &str, path: &str) -> Answer {
    match verb {
        "lock" => locks.push(FolderLock::take(rt, path)?)?,
        "unlock" => locks.clear(),
        _ => return try_take(rt, locks, path),
    }
    done(rt.alloc())
}

fn try_take<R: Host>(rt: &R, locks: &mut Vec<FolderLock<R>>, path: &str) -> Answer {
    match FolderLock::try_take(rt, path) {
        Ok(Some(lock)) => {
            locks.push(lock)?;
            done(rt.alloc())
        }
        Ok(None) => word(rt.alloc(), "held by another"),
        Err(fault) => Ok(format!(in rt.alloc(); "{fault}")?),
    }
}

pub fn obey_share<R: Host>(
    rt: &R,
    shares: &mut Vec<FolderShare>,
    verb: &str,
    path: &str,
) -> Answer {
    if verb == "unshare" {
        shares.clear();
        return done(rt.alloc());
    }
    match FolderShare::take(rt, path) {
        Ok(share) => {
            shares.push(share)?;
            done(rt.alloc())
        }
        Err(fault) => Ok(format!(in rt.alloc(); "{fault}")?),
    }
}
