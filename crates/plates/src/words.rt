// The word at a place in a file's bytes.
ghost use Rattle.std.specs.Prelude.{◌≡◌, ◌+◌, ◌≤◌, length};
ghost use Rattle.buffers.specs.Words.{word_at};

use buffers::joined;

pub fn word_at(bytes: &[u8], at: usize) -> u32
    requires { at + 4 ≤ length bytes.now }
    ensures { result ≡ word_at bytes.now at }
{
    joined(bytes[at], bytes[at + 1], bytes[at + 2], bytes[at + 3])
}
