//! The files of the system.
use std::rt::Files;
use std::{fs, io};
use test_runner::Texts;

/// The files of the system, whose bytes no contract knows before they are read.
#[derive(Drop)]
pub(crate) struct Folder<'a, R> {
    pub(crate) rt: &'a R,
}

impl<R: Files> Texts for Folder<'_, R> {
    ghost use Rattle.std.specs.Prelude.{None};

    type Text = R::File;

    ghost bytes = { λ folder name. None };

    fn open(&self, name: &str) -> io::Result<R::File> {
        fs::open(self.rt, name)
    }
}
