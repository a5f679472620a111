// A copy from the front of one run of bytes over the front of another, and of numbers as their bytes.
ghost use Rattle.std.specs.Prelude.{◌≡◌, ◌++◌, ◌*◌, ◌≤◌, length, take, drop};
ghost use Rattle.blocks.specs.Copies.{copied};
ghost use Rattle.blocks.specs.RowNumbers.{words_bytes};

use crate::rows::store_word;

// As many of the first n bytes as both have.
#[tactic(auto, unfolding(crate::specs::Copies::copied))]
pub fn copy_front(to: &mut [u8], from: &[u8], n: usize)
    ensures { to.new ≡ copied n from.now to.old }
{
    let m = n.min(to.len().min(from.len()));
    to[..m].copy_from_slice(&from[..m]);
}

// The bytes of the first n numbers, 8 each. One loop, which is one copy of memory.
pub fn copy_words(to: &mut [u8], words: &[u64], n: usize)
    requires { (n * 8 ≤ length to.old) × (n ≤ length words.now) }
    ensures { to.new ≡ words_bytes (take n words.now) ++ drop (n * 8) to.old }
{
    for i in 0..n {
        store_word(to, i * 8, words[i]);
    }
}
