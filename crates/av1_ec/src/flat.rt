// Bits that are stored as symbols, each as likely as not.
ghost use Rattle.std.specs.Prelude.{[], ◌∷◌, length};
ghost use Rattle.av1_ec.specs.Flat.{bool_token, flat_tokens};
ghost use Rattle.av1_ec.specs.Storing.{HasBits, StoresAll};
ghost use Rattle.av1_model.specs.Bits.{bits_of};

use crate::storage::StorageBackend;
use av1_codes::Word;
use av1_geometry::OutOfMemory;

// Stores a bit.
#[inline(always)]
fn store_bit<B: StorageBackend>(w: &mut B, bit: bool) -> Result<(), OutOfMemory>
    requires { HasBits B.Known w.old (bool_token 16384 bit ∷ []) }
    ensures { StoresAll B.Known 1 (bool_token 16384 bit ∷ []) result w.old w.new }
{
    if bit {
        w.store(16384, 0, 1)
    } else {
        w.store(32768, 16384, 2)
    }
}

// Stores the bits of a word, all or none.
pub(crate) fn store_word<B: StorageBackend>(w: &mut B, word: Word) -> Result<(), OutOfMemory>
    requires { HasBits B.Known w.old (flat_tokens (bits_of word.len word.number)) }
    ensures { let bits = bits_of word.len word.number in StoresAll B.Known (length bits) (flat_tokens bits) result w.old w.new }
{
    w.ready(word.len as usize)?;
    let mut left = word.len;
    while left > 0 {
        left -= 1;
        store_bit(w, (word.number >> left) % 2 == 1)?;
    }
    Ok(())
}
