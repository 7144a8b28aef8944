//! The files that are read and the sink that is written to, as objects that the caller passes in.

ghost use Rattle.std.specs.Prelude.{◌≡◌, ◌≢◌, ◌≤◌, ◌<◌, ◌-◌, ℕ, List, Option, length, take, IfOk, OnOk, OnErr};
ghost use Rattle.text_base.specs.declared.outside.FileFault.TheVariants.{Failed as ReadFailed, TooLong, Memory as NoMemory};
ghost use Rattle.text_base.specs.declared.outside.SinkFault.TheVariants.{Failed as PutFailed, Memory as NoRoom};
ghost use Rattle.text_base.specs.Outside.{Held, Blamed, TellsMissing, Rose, Gives, MayExceed, Exceeds, IsBlamed, greatest_count, grown, GrewByPrefix};

use std::alloc::Global;

/// Why a read gave no bytes.
#[derive(Clone, Copy, PartialEq, Eq)]
pub enum FileFault {
    /// The file cannot be read; the object's count of faults rose.
    Failed,
    /// The file has more bytes than were asked for.
    TooLong,
    /// Out of memory.
    Memory,
}

/// Why a put took nothing.
#[derive(Clone, Copy, PartialEq, Eq)]
pub enum SinkFault {
    /// The sink cannot be written to; its count of faults rose.
    Failed,
    /// Out of memory.
    Memory,
}

/// Files by name. Reading does not change what they hold. The count of faults is at most 2^64 - 1, and a count of this value counts as
/// risen.
pub trait Files {
    /// The bytes under a name, as far as the object reports them.
    ghost holds: { Self → List ℕ → Held };

    /// The number of reads that failed.
    ghost faults: { Self → ℕ };

    /// The name of the last read that failed.
    ghost blamed: { Self → Blamed };

    /// The bytes of a file of at most `cap` bytes.
    fn read(&mut self, alloc: Global, name: &str, cap: usize) -> Result<Vec<u8>, FileFault>
        ensures bytes { IfOk result (λ v. Gives (holds self.old name.now) v.items) }
        ensures cap { IfOk result (λ v. length v.items ≤ cap) }
        ensures missing { TellsMissing (holds self.old name.now) → result ≢ Err NoMemory → result ≡ Err ReadFailed }
        ensures too_long { result ≡ Err TooLong → MayExceed (holds self.old name.now) cap }
        ensures long { Exceeds (holds self.old name.now) cap → result ≢ Err ReadFailed → result ≢ Err NoMemory → result ≡ Err TooLong }
        ensures same { (n : List ℕ) → holds self.new n ≡ holds self.old n }
        ensures later { faults self.old ≤ faults self.new }
        ensures bounded { faults self.new ≤ greatest_count }
        ensures failed { result ≡ Err ReadFailed → Rose (faults self.old) (faults self.new) }
        ensures blames { result ≡ Err ReadFailed → IsBlamed (blamed self.new) name.now }
        ensures kept { result ≢ Err ReadFailed → faults self.new ≡ faults self.old }
        ensures kept_blame { result ≢ Err ReadFailed → blamed self.new ≡ blamed self.old };
}

/// A sink, written piece after piece. The count of faults is at most 2^64 - 1, and a count of this value counts as risen.
pub trait Sink {
    /// The bytes taken so far, if the object reports them.
    ghost written: { Self → Option (List ℕ) };

    /// The number of puts that failed or took nothing.
    ghost faults: { Self → ℕ };

    /// Takes a prefix of the piece, and returns its length. Taking nothing of a piece that isn't empty counts as a fault.
    fn put(&mut self, piece: &[u8]) -> Result<usize, SinkFault>
        ensures count { IfOk result (λ n. n ≤ length piece.now) }
        ensures taken { IfOk result (λ n. written self.new ≡ grown (written self.old) (take n piece.now)) }
        ensures refused { OnErr result (written self.new ≡ written self.old) }
        ensures later { faults self.old ≤ faults self.new }
        ensures bounded { faults self.new ≤ greatest_count }
        ensures failed { result ≡ Err PutFailed → Rose (faults self.old) (faults self.new) }
        ensures stuck { result ≡ Ok 0 → 0 < length piece.now → Rose (faults self.old) (faults self.new) }
        ensures kept { result ≡ Err NoRoom → faults self.new ≡ faults self.old }
        ensures taking { IfOk result (λ n. 0 < n → faults self.new ≡ faults self.old) }
        ensures nothing { IfOk result (λ _. length piece.now ≡ 0 → faults self.new ≡ faults self.old) };
}

/// Puts the whole text. After a refusal a prefix of it was written.
pub fn put_all<K: Sink>(out: &mut K, text: &[u8]) -> Result<(), SinkFault>
    ensures whole { OnOk result (K.written out.new ≡ grown (K.written out.old) text.now) }
    ensures unfailing { OnOk result (K.faults out.new ≡ K.faults out.old) }
    ensures prefix { OnErr result (GrewByPrefix (K.written out.old) (K.written out.new) text.now) }
    ensures failed { result ≡ Err PutFailed → Rose (K.faults out.old) (K.faults out.new) }
    ensures kept { result ≡ Err NoRoom → K.faults out.new ≡ K.faults out.old }
    ensures later { K.faults out.old ≤ K.faults out.new }
{
    let mut done = 0;
    while done < text.len() {
        match out.put(&text[done..]) {
            Ok(0) => return Err(SinkFault::Failed),
            Ok(count) => done += count,
            Err(fault) => return Err(fault),
        }
    }
    Ok(())
}
