// Bytes written one after another: into a room of their own, and over a lent buffer.
#![tactic(auto)]

ghost use Rattle.std.specs.Prelude.{◌≡◌, ◌+◌, ◌≤◌, ◌<◌, ℕ, List, [], ◌++◌, length, take};
ghost use Rattle.buffers.specs.Buffers.{written_at};

use std::marker::Model;

// Bytes, of which there is room for N. A contract sees them as a list.
#[derive(Drop)]
pub struct Text<const N: usize> {
    room: [u8; N],
    length: usize,
}

impl<const N: usize> Model for Text<N> {
    ghost Value = { List ℕ };

    ghost view = { λ t. take t.length t.room };

    ghost invariant = { λ t. t.length ≤ N };
}

impl<const N: usize> Text<N> {
    pub fn new() -> Self
        ensures { result ≡ [] }
    {
        Text {
            room: [0; N],
            length: 0,
        }
    }

    // Bytes that have no room are left out, all of them.
    #[tactic(auto, unfolding(crate::specs::Buffers::written_at))]
    pub fn push(&mut self, bytes: &[u8])
        ensures room { length self.old + length bytes.now ≤ N → self.new ≡ self.old ++ bytes.now }
        ensures full { N < length self.old + length bytes.now → self.new ≡ self.old }
    {
        self.length = put(&mut self.room, self.length, bytes);
    }

    pub fn as_slice(&self) -> &[u8]
        ensures bytes { result.now ≡ self.now }
        ensures room { length result.now ≤ N }
    {
        &self.room[..self.length]
    }
}

// Writes a text over a buffer from a place on, where it has room, and gives the place after it.
#[tactic(auto, unfolding(crate::specs::Buffers::written_at))]
pub fn put(buf: &mut [u8], at: usize, text: &[u8]) -> usize
    ensures { (record { buffer = buf.new; place = result }) ≡ written_at text.now at buf.old }
{
    if buf.len() < at || buf.len() - at < text.len() {
        return at;
    }
    let end = at + text.len();
    buf[at..end].copy_from_slice(text);
    end
}
