//! The bytes of a file that is given by its words, for the programs that try cases.
#![tactic(auto)]

ghost use Rattle.std.specs.Prelude.{◌≡◌, ◌+◌, ◌*◌, ◌%◌, ◌^◌, ◌++◌, [], ◌∷◌, IfOk};
ghost use Rattle.format.specs.Words.{words as words_of};

use std::alloc::{AllocError, Global};

const END: u32 = 0xF000_0000;

// An end that says how many words stand before it, as far as its 28 bits can say.
pub fn end_after(count: usize) -> u32
    ensures { result ≡ 15 * 2 ^ 28 + count % 2 ^ 28 }
{
    END | (count % (1 << 28)) as u32
}

// The words and an end as bytes, each word's most significant byte first.
pub fn bytes(heap: Global, words: &[u32], end: u32) -> Result<Vec<u8>, AllocError>
    ensures { IfOk result (λ v. words_of v.items ≡ words.now ++ (end ∷ [])) }
{
    let mut bytes = Vec::new(heap);
    for word in words {
        bytes.extend_from_slice(&word.to_be_bytes())?;
    }
    bytes.extend_from_slice(&end.to_be_bytes())?;
    Ok(bytes)
}

#[cfg(test)]
mod tests {
    use super::*;
    use std::test::Fail;

    #[test]
    fn two_words_and_an_end(rt: HostRuntime) -> Result<(), Fail> {
        let written = bytes(rt.alloc(), &[0x1000_0021, 0x8000_0001], end_after(2))?;
        assert_eq!(rt;
            written.as_slice(),
            [0x10, 0, 0, 0x21, 0x80, 0, 0, 1, 0xF0, 0, 0, 2].as_slice()
        );
        Ok(())
    }

    #[test]
    fn an_end_alone(rt: HostRuntime) -> Result<(), Fail> {
        let written = bytes(rt.alloc(), &[], end_after(0))?;
        assert_eq!(rt; written.as_slice(), [0xF0, 0, 0, 0].as_slice());
        Ok(())
    }
}
