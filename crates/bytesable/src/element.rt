// The interface of elements.
ghost use Rattle.std.specs.Prelude.{◌≡◌, ℕ, List, length, Decides};
ghost use Rattle.answers.specs.Faults.{Fills};
ghost use Rattle.bytesable.specs.Elements.{Takes};

use answers::Fault;

// A value that means a list of octets.
pub trait Bytesable {
    ghost bytes: { Self → List ℕ };

    // How many octets the value means.
    fn length_in_bytes(&self) -> usize
        ensures answer { result ≡ length (bytes self.now) };

    // Fills `out` with the octets.
    fn into_bytes(&self, out: &mut [u8]) -> Result<(), Fault>
        ensures after { Fills (bytes self.now) out.old result out.new };

    // Becomes the value that means the octets, where there is one.
    fn from_bytes(&mut self, from: &[u8]) -> Result<(), Fault>
        ensures after { Takes bytes from.now self.old result self.new };

    // Whether two values mean the same octets.
    fn same(&self, other: &Self) -> bool
        ensures answer { Decides result (bytes self.now ≡ bytes other.now) };
}
