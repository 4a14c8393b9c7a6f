ghost use Rattle.std.specs.Prelude.{◌≡◌, true, IsTrue};
ghost use Rattle.offer_io.specs.Stores.{StoreView, Opens, Reads, Creates, Appends, Seals};
ghost use Rattle.offer_io.specs.Sinks.{SinkView, Writes};

/// A call on a device failed.
#[derive(Clone, Copy, Debug, PartialEq, Eq)]
pub struct Failed;

/// Files by name, of which at most one is open for reading and at most one for writing.
///
/// Nothing is promised of what is left of the open input after a `create` or an `append`: where they
/// change the file that is read, stores may differ.
pub trait Store {
    ghost view: { Self → StoreView };

    /// Closes the earlier input, and opens a file for reading from its start.
    fn open(&mut self, name: &str) -> Result<(), Failed>
        ensures { Opens (view self.old) name.now result (view self.new) };

    /// Puts the next bytes of the open input at the front of a piece, and answers their number, which
    /// for a piece that isn't empty is 0 only at the end.
    fn read(&mut self, piece: &mut [u8]) -> Result<usize, Failed>
        requires { IsTrue (view self.old).reading }
        ensures { Reads (view self.old) result piece.new (view self.new) };

    /// Makes an empty file as the open output, in place of one that is there.
    fn create(&mut self, name: &str) -> Result<(), Failed>
        ensures { Creates (view self.old) name.now result (view self.new) };

    /// Adds the whole piece to the open output.
    fn append(&mut self, piece: &[u8]) -> Result<(), Failed>
        requires { IsTrue (view self.old).writing }
        ensures { Appends (view self.old) piece.now result (view self.new) };

    /// Ends the open output.
    fn seal(&mut self) -> Result<(), Failed>
        requires { IsTrue (view self.old).writing }
        ensures { Seals (view self.old) result (view self.new) };
}

/// A place that takes bytes.
pub trait Sink {
    ghost view: { Self → SinkView };

    /// Writes the whole piece.
    fn write(&mut self, piece: &[u8]) -> Result<(), Failed>
        ensures { Writes (view self.old) piece.now result (view self.new) };
}

/// A gate that each worker passes before each task. It may hold a worker up, and changes nothing that
/// contracts see.
pub trait Gate {
    fn pass(&self, worker: u64, task: u64);
}

/// The gate of the running program, which holds nobody up.
#[derive(Clone, Copy, Debug)]
pub struct OpenGate;

impl Gate for OpenGate {
    fn pass(&self, _worker: u64, _task: u64) {}
}
