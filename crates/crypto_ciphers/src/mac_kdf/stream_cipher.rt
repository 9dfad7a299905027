//! The stream cipher RC4.
ghost use Rattle.std.specs.Prelude.{◌≡◌, ◌<◌, ◌≤◌, length};
ghost use Rattle.spec_crypto.specs.ciphers.Rc4.{opened, advanced, advanced_by, stream_byte, enciphered};

use std::marker::Model;

/// A key's table and how far its stream has come.
#[derive(Drop)]
pub struct Rc4 {
    table: [u8; 256],
    i: u8,
    j: u8,
}

impl Model for Rc4 {
    ghost use Rattle.spec_crypto.specs.ciphers.Rc4.{CipherState};

    ghost Value = { CipherState };

    ghost view = { λ s. record { table = s.table; i = s.i; j = s.j } };
}

impl Rc4 {
    /// The state that a key of 1 to 256 bytes gives.
    pub fn new(key: &[u8]) -> Rc4
        requires { (0 < length key.now) × (length key.now ≤ 256) }
        ensures { result ≡ opened key.now }
    {
        let mut table = [0u8; 256];
        'fill: for n in 0..256usize {
            table[n] = n as u8;
        }
        let mut j = 0u8;
        'schedule: for n in 0..256usize {
            j = j.wrapping_add(table[n]).wrapping_add(key[n % key.len()]);
            table.swap(n, j as usize);
        }
        Rc4 { table, i: 0, j: 0 }
    }

    // Goes on by one byte of the stream, which is the answer.
    fn next(&mut self) -> u8
        ensures state { self.new ≡ advanced self.old }
        ensures byte { result ≡ stream_byte self.new }
    {
        self.i = self.i.wrapping_add(1);
        self.j = self.j.wrapping_add(self.table[self.i as usize]);
        self.table.swap(self.i as usize, self.j as usize);
        let sum = self.table[self.i as usize].wrapping_add(self.table[self.j as usize]);
        self.table[sum as usize]
    }

    /// Joins the bytes with the next ones of the stream: enciphers, or deciphers. Two pieces give what
    /// both in one give.
    pub fn apply(&mut self, bytes: &mut [u8])
        ensures state { self.new ≡ advanced_by self.old (length bytes.old) }
        ensures bytes { bytes.new ≡ enciphered self.old bytes.old }
    {
        for byte in bytes.iter_mut() {
            *byte ^= self.next();
        }
    }
}
