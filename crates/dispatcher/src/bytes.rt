// The 21 bytes of a state.
ghost use Rattle.std.specs.Prelude.{◌≡◌, not, ◌*◌, ◌/◌, ◌%◌, ◌^◌, ◌<◌, ◌≤◌, get_or};
ghost use Rattle.dispatcher.specs.Bytes.{bytes_of, state_of, unclear, number};
ghost use Rattle.dispatcher.specs.Outcome.{written_of};

use crate::State;
use crate::leaves::byte_in;

// Byte k of a number, lowest first.
fn byte_of(x: u64, k: usize) -> u8
    requires { k < 8 }
    ensures { result ≡ x / 2 ^ (8 * k) % 256 }
{
    x.to_le_bytes()[k]
}

// The number that n bytes from a place make, from the highest down. No `from_le_bytes`: `State::read` takes any length, and a byte past the last counts as 0.
fn number_in(bytes: &[u8], at: usize, n: usize) -> u64
    requires { (at < 21) × (n ≤ 8) }
    ensures { (result ≡ number bytes.now at n) × (result < 2 ^ (8 * n)) }
{
    let mut x: u64 = 0;
    for k in (0..n).rev() {
        x = x * 256 + u64::from(byte_in(bytes, at + k));
    }
    x
}

impl State {
    // How many bytes a state has for C.
    pub const BYTES: usize = 21;

    // Byte k of the 21.
    fn byte_at(self, k: usize) -> u8
        requires { k < 21 }
        ensures { result ≡ get_or (bytes_of self) k 0 }
    {
        if k < 4 {
            return byte_of(u64::from(self.tick), k);
        }
        if k < 5 {
            return u8::from(self.first);
        }
        if k < 13 {
            return byte_of(self.done, k - 5);
        }
        byte_of(self.ran, k - 13)
    }

    // The 21 bytes of the state, where there is room for just these; else nothing is written.
    pub fn write(self, out: &mut [u8])
        ensures { out.new ≡ written_of self out.old }
    {
        if out.len() != State::BYTES {
            return;
        }
        for k in 0..State::BYTES {
            out[k] = self.byte_at(k);
        }
    }

    // Whether the byte of the first cycle is 0 or 1.
    pub fn is_clear(bytes: &[u8]) -> bool
        ensures { result ≡ not (unclear bytes.now) }
    {
        byte_in(bytes, 4) < 2
    }

    // The state that bytes make; past the last they count as 0.
    pub fn read(bytes: &[u8]) -> State
        ensures { result ≡ state_of bytes.now }
    {
        State {
            tick: number_in(bytes, 0, 4) as u32,
            first: byte_in(bytes, 4) == 1,
            done: number_in(bytes, 5, 8),
            ran: number_in(bytes, 13, 8),
        }
    }
}
