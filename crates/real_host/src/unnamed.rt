//! A system whose program has no name.
//!
//! std returns all arguments, or none if one of them is not UTF-8. The name is irrelevant for the command, so a program whose
//! path is not UTF-8 runs like any other.
use std::env::FillError;
use std::rt::Env;

/// The arguments of this system, with an empty name.
#[derive(Drop)]
pub struct Unnamed<'a, R>(pub &'a R);

impl<R: Env> Env for Unnamed<'_, R> {
    fn arg(&self, index: usize, buffer: &mut [u8]) -> Result<usize, FillError> {
        match self.0.arg(index, buffer) {
            Ok(_) | Err(FillError::TooLong) if index == 0 => Ok(0),
            answer => answer,
        }
    }

    fn var(&self, name: &str, buffer: &mut [u8]) -> Result<usize, FillError> {
        self.0.var(name, buffer)
    }

    fn var_at(&self, index: usize, buffer: &mut [u8]) -> Result<usize, FillError> {
        self.0.var_at(index, buffer)
    }
}
