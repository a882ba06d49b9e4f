//! What the program asks of the system it runs on.

use std::fs::File;
use std::rt::{Clock, Env, Files};
use std::sync::Wait;
use std::thread::Threads;

/// A runtime with all that a command may use. Functions that need less have smaller bounds.
pub trait Host: AllocGlobal
    + Clock
    + Env
    + Eprint
    + Files<File = File>
    + Input
    + Print
    + Threads
    + Wait
    + Sync {}

impl<R> Host for R
where
    R: AllocGlobal
        + Clock
        + Env
        + Eprint
        + Files<File = File>
        + Input
        + Print
        + Threads
        + Wait
        + Sync,
{}

/// Whether standard output and standard error are terminals.
#[derive(Clone, Copy)]
pub struct Terminals {
    pub output: bool,
    pub errors: bool,
}
