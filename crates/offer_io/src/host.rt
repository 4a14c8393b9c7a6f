//! The real files and streams, which tell no content.
ghost use Rattle.std.specs.Prelude.{◌≡◌, false, IsTrue};
ghost use Rattle.offer_io.specs.Causes.{count_after};
ghost use Rattle.offer_io.specs.Stores.{Opens, Reads, Creates, Appends, Seals};
ghost use Rattle.offer_io.specs.Sinks.{Writes};
ghost use Rattle.offer_io.specs.HostDevices.{host_view, input_file, output_file, host_sink_view, writer_of, Reaches, FileTakes, FileGives};

use crate::{Failed, Sink, Store};
use std::fs;
use std::io::{Read, Write};
use std::rt::Files;

/// The real files. Each error counts as a fault, and so does a write that takes nothing of a piece
/// that isn't empty.
#[derive(Drop)]
pub struct HostStore<'a, R: Files> {
    rt: &'a R,
    input: Option<R::File>,
    output: Option<R::File>,
    sealed: bool,
    faults: u64,
}

impl<'a, R: Files> HostStore<'a, R> {
    pub fn new(rt: &'a R) -> Self
        ensures reading { (host_view result).reading ≡ false }
        ensures writing { (host_view result).writing ≡ false }
        ensures faults { (host_view result).faults ≡ 0 }
    {
        HostStore {
            rt,
            input: None,
            output: None,
            sealed: false,
            faults: 0,
        }
    }
}

/// Writes the whole piece.
fn write_whole<W: Write>(to: &mut W, piece: &[u8]) -> Result<(), Failed>
    ensures { Reaches (W.contents to.old) piece.now result (W.contents to.new) }
{
    let mut rest = piece;
    'writes: while !rest.is_empty() {
        match to.write(rest) {
            Ok(0) | Err(_) => return Err(Failed),
            Ok(count) => rest = &rest[count..],
        }
    }
    Ok(())
}

impl<'a, R: Files> Store for HostStore<'a, R> {
    ghost view = { host_view };

    fn open(&mut self, name: &str) -> Result<(), Failed>
        ensures opens { Opens (host_view self.old) name.now result (host_view self.new) }
        ensures faults { (host_view self.new).faults
            ≡ count_after result (host_view self.old).faults }
    {
        match fs::open(self.rt, name) {
            Ok(file) => {
                self.input = Some(file);
                Ok(())
            }
            Err(_) => {
                self.input = None;
                self.faults = self.faults.saturating_add(1);
                Err(Failed)
            }
        }
    }

    fn read(&mut self, piece: &mut [u8]) -> Result<usize, Failed>
        requires { IsTrue (host_view self.old).reading }
        ensures bytes { FileGives R.File.remaining
            (input_file self.old) result piece.new (input_file self.new) }
        ensures reads { Reads (host_view self.old) result piece.new (host_view self.new) }
        ensures faults { (host_view self.new).faults
            ≡ count_after result (host_view self.old).faults }
    {
        let Some(file) = &mut self.input else {
            unreachable!();
        };
        match file.read(piece) {
            Ok(count) => Ok(count),
            Err(_) => {
                self.faults = self.faults.saturating_add(1);
                Err(Failed)
            }
        }
    }

    fn create(&mut self, name: &str) -> Result<(), Failed>
        ensures creates { Creates (host_view self.old) name.now result (host_view self.new) }
        ensures faults { (host_view self.new).faults
            ≡ count_after result (host_view self.old).faults }
    {
        self.sealed = false;
        match fs::create(self.rt, name) {
            Ok(file) => {
                self.output = Some(file);
                Ok(())
            }
            Err(_) => {
                self.output = None;
                self.faults = self.faults.saturating_add(1);
                Err(Failed)
            }
        }
    }

    fn append(&mut self, piece: &[u8]) -> Result<(), Failed>
        requires { IsTrue (host_view self.old).writing }
        ensures bytes { FileTakes R.File.contents
            (output_file self.old) piece.now result (output_file self.new) }
        ensures appends { Appends (host_view self.old) piece.now result (host_view self.new) }
        ensures faults { (host_view self.new).faults
            ≡ count_after result (host_view self.old).faults }
    {
        let Some(file) = &mut self.output else {
            unreachable!();
        };
        if write_whole(file, piece).is_err() {
            self.faults = self.faults.saturating_add(1);
            return Err(Failed);
        }
        Ok(())
    }

    fn seal(&mut self) -> Result<(), Failed>
        requires { IsTrue (host_view self.old).writing }
        ensures seals { Seals (host_view self.old) result (host_view self.new) }
        ensures faults { (host_view self.new).faults
            ≡ count_after result (host_view self.old).faults }
    {
        self.output = None;
        self.sealed = true;
        Ok(())
    }
}

/// A real stream. Each error counts as a fault, and so does a write that takes nothing of a piece
/// that isn't empty.
#[derive(Drop)]
pub struct HostSink<W: Write> {
    inner: W,
    faults: u64,
}

impl<W: Write> HostSink<W> {
    pub fn new(inner: W) -> Self
        ensures writer { writer_of result ≡ inner }
        ensures faults { (host_sink_view result).faults ≡ 0 }
    {
        HostSink { inner, faults: 0 }
    }
}

impl<W: Write> Sink for HostSink<W> {
    ghost view = { host_sink_view };

    fn write(&mut self, piece: &[u8]) -> Result<(), Failed>
        ensures bytes { Reaches
            (W.contents (writer_of self.old)) piece.now result (W.contents (writer_of self.new)) }
        ensures writes { Writes
            (host_sink_view self.old) piece.now result (host_sink_view self.new) }
        ensures faults { (host_sink_view self.new).faults
            ≡ count_after result (host_sink_view self.old).faults }
    {
        if write_whole(&mut self.inner, piece).is_err() {
            self.faults = self.faults.saturating_add(1);
            return Err(Failed);
        }
        Ok(())
    }
}
