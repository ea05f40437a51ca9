//! Locks on files, by which a run sees that another one is at work.

use std::fs::{File, TryLockError};
use std::io;
use std::rt::Files;

/// Files that can be locked.
pub trait LockFiles: Files {
    /// Locks an open file until all its handles are closed, which a kill does too. Returns false where
    /// another holds the lock.
    ///
    /// # Errors
    ///
    /// Where it can't be locked: not each file system has locks.
    fn try_lock(&self, file: &Self::File) -> io::Result<bool>;
}

impl LockFiles for HostRuntime {
    fn try_lock(&self, file: &File) -> io::Result<bool> {
        match file.try_lock() {
            Ok(()) => Ok(true),
            Err(TryLockError::WouldBlock) => Ok(false),
            Err(TryLockError::Error(error)) => Err(error),
        }
    }
}
