//! Names of keys and their bytes.

ghost use Rattle.std.specs.Prelude.{◌≡◌, ℕ, ◌<◌, ◌^◌, List, Option, Some, ◌++◌, length, OnOk, OnErr, IsSomeAnd, true};
ghost use Rattle.bytes.specs.Filled.{UsesSpare};

use bytes::BytesMut;
use std::alloc::AllocError;
use std::hash::Hash;

/// A name of data, as a key is: ordered, hashed and cloned, with a fixed number of bytes. What goes to
/// another thread asks for `Send` besides.
///
/// An implementation owes that each name is spelled by `SIZE` bytes, the same number for all names and
/// below 2^32; that `write` appends these and nothing else; and that `read` takes exactly what `write`
/// spells, and answers an equal name. So two spellings never are one name, and a peer reads the name that
/// was meant. Both take time linear in `SIZE`, and `read` takes no memory.
pub trait Span: Ord + Hash + Clone {
    ghost SIZE: { ℕ };

    /// How many bytes every name has, at most `u32::MAX`.
    const SIZE: usize;

    /// The bytes of a name.
    ghost bytes_of: { Self → List ℕ };

    /// The name that these bytes spell, if they spell one.
    ghost read_from: { List ℕ → Option Self };

    /// Appends the name's `SIZE` bytes, or nothing where memory is refused. It takes no memory
    /// where there is room for them.
    fn write(&self, out: &mut BytesMut) -> Result<(), AllocError>
        ensures ok { OnOk result (out.new.items ≡ out.old.items ++ bytes_of self.now) }
        ensures err { OnErr result (out.new.items ≡ out.old.items) }
        ensures spare { UsesSpare result out.old.spare out.new.spare SIZE };

    /// Reads a name from `SIZE` bytes. There is none where they spell no name.
    fn read(bytes: &[u8]) -> Option<Self>
        requires { length bytes.now ≡ SIZE }
        ensures { result ≡ read_from bytes.now };

    /// The size fits four bytes.
    ghost small: { SIZE < 2 ^ 32 };

    /// Every name has `SIZE` bytes.
    ghost sized: { (name : Self) → length (bytes_of name) ≡ SIZE };

    /// What was written is read again, as an equal name.
    ghost read_again: { (name : Self) → IsSomeAnd (read_from (bytes_of name)) (λ same. Self.eq name same ≡ true) };

    /// Bytes that are read as a name are the bytes that it writes.
    ghost own_bytes: { (bytes : List ℕ) (name : Self) → read_from bytes ≡ Some name → bytes_of name ≡ bytes };
}
