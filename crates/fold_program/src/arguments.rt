// The words that the program was started with.
use std::alloc::Global;
use std::env::{self, Args, Env, FillError};
use std::io;

/// The words after the program's own name, which need not be UTF-8 as they have to be.
pub fn words_after_name<R: Env>(rt: &R, alloc: Global) -> io::Result<Args> {
    env::args(&(AfterName { rt }, alloc))
}

/// A runtime whose first word is the one after the program's name.
#[derive(Clone, Copy)]
struct AfterName<'a, R> {
    rt: &'a R,
}

impl<R: Env> Env for AfterName<'_, R> {
    fn arg(&self, i: usize, buf: &mut [u8]) -> Result<usize, FillError> {
        match i.checked_add(1) {
            Some(next) => self.rt.arg(next, buf),
            None => Err(FillError::NotPresent),
        }
    }

    fn var(&self, name: &str, buf: &mut [u8]) -> Result<usize, FillError> {
        self.rt.var(name, buf)
    }

    fn var_at(&self, i: usize, buf: &mut [u8]) -> Result<usize, FillError> {
        self.rt.var_at(i, buf)
    }
}
