// Sinks.
ghost use Rattle.outside.specs.Sinks.{SinkView, Wrote, Extends};

use thiserror::Error;

/// Why a write took no more: a fault, or want of memory.
#[derive(Clone, Copy, Debug, Drop, PartialEq, Eq, Error)]
pub enum SinkStop {
    #[error("the write failed")]
    Failed,
    #[error("out of memory")]
    Memory,
}

/// Something that takes bytes.
pub trait Sink {
    ghost view: { Self → SinkView };

    /// Takes the bytes, or a prefix of them and a stop.
    fn write(&mut self, bytes: &[u8]) -> Result<(), SinkStop>
        ensures { Wrote (view self.old) (view self.new) result bytes.now };
}

/// Writes a piece after what was written so far, unless that has stopped already.
pub fn put<K: Sink>(out: &mut K, so_far: Result<(), SinkStop>, piece: &[u8]) -> Result<(), SinkStop>
    ensures { Extends (K.view out.old) (K.view out.new) so_far result piece.now }
{
    so_far?;
    out.write(piece)
}
