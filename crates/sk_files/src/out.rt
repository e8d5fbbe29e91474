// The real output. It tells nothing, and counts each error.
ghost use Rattle.std.specs.Prelude.{◌≡◌, None};

use crate::{OuterFault, Sink};
use std::io;
use std::io::Write;

/// A sink over a writer. Each put ends with a flush.
#[derive(Drop)]
pub struct OutSink<W: Write> {
    out: W,
    faults: u64,
}

impl<W: Write> OutSink<W> {
    /// A sink that writes to `out`. It tells nothing, and no call of it has failed.
    pub fn new(out: W) -> OutSink<W>
        ensures taken { ⟦<OutSink<W> as Sink>⟧.taken result ≡ None }
        ensures faults { ⟦<OutSink<W> as Sink>⟧.faults result ≡ 0 }
    {
        OutSink { out, faults: 0 }
    }
}

fn put_through<W: Write>(out: &mut W, bytes: &[u8]) -> io::Result<()> {
    out.write_all(bytes)?;
    out.flush()
}

impl<W: Write> Sink for OutSink<W> {
    ghost taken = { λ _. None };

    ghost faults = { λ s. s.faults };

    fn put(&mut self, bytes: &[u8]) -> Result<(), OuterFault> {
        match put_through(&mut self.out, bytes) {
            Ok(()) => Ok(()),
            Err(_) => {
                self.faults = self.faults.saturating_add(1);
                Err(OuterFault::Failed)
            }
        }
    }
}
