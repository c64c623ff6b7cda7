//! The files of a system, each as one that keeps why a call on it failed.
use crate::file::HeardFile;
use std::alloc::Allocator;
use std::fs::{File, Files, Metadata, OpenOptions};
use std::io;

/// The files of a system, which keep why a call on them failed.
#[derive(Drop)]
pub struct Heard<R>(pub R);

impl<R: Files<File = File>> Files for Heard<R> {
    type File = HeardFile<File>;

    type Dir = R::Dir;

    fn open_file(&self, how: &OpenOptions, path: &str) -> io::Result<HeardFile<File>> {
        match self.0.open_file(how, path) {
            Ok(file) => Ok(HeardFile::new(file)),
            Err(why) => Err(why),
        }
    }

    fn open_dir(&self, path: &str) -> io::Result<R::Dir> {
        self.0.open_dir(path)
    }

    fn metadata(&self, path: &str) -> io::Result<Metadata> {
        self.0.metadata(path)
    }

    fn symlink_metadata(&self, path: &str) -> io::Result<Metadata> {
        self.0.symlink_metadata(path)
    }

    fn copy(&self, from: &str, to: &str) -> io::Result<u64> {
        self.0.copy(from, to)
    }

    fn rename(&self, from: &str, to: &str) -> io::Result<()> {
        self.0.rename(from, to)
    }

    fn remove_file(&self, path: &str) -> io::Result<()> {
        self.0.remove_file(path)
    }

    fn create_dir(&self, path: &str) -> io::Result<()> {
        self.0.create_dir(path)
    }

    fn remove_dir(&self, path: &str) -> io::Result<()> {
        self.0.remove_dir(path)
    }

    fn remove_dir_all<B: Allocator>(&self, alloc: B, path: &str) -> io::Result<()> {
        self.0.remove_dir_all(alloc, path)
    }
}
