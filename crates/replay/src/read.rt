// The numbers of the input. Past its end every byte is 0.
ghost use Rattle.std.specs.Prelude.{◌^◌, ◌≤◌, ◌<◌, length};

use std::io;
use std::io::{Read, Write};

// The input. A read that fails gives no byte, and is told in the end.
#[derive(Drop)]
pub struct Input<R> {
    reader: R,
    failed: Option<io::Error>,
}

// What an entry of a list is in the input: the lowest byte first, a signed one in two's complement.
pub trait Entry: Copy {
    fn read<R: Read>(input: &mut Input<R>) -> Self;
}

impl Entry for u32 {
    fn read<R: Read>(input: &mut Input<R>) -> u32 {
        u32::from_le_bytes(input.bytes())
    }
}

impl Entry for i32 {
    fn read<R: Read>(input: &mut Input<R>) -> i32 {
        i32::from_le_bytes(input.bytes())
    }
}

impl Entry for i64 {
    fn read<R: Read>(input: &mut Input<R>) -> i64 {
        i64::from_le_bytes(input.bytes())
    }
}

impl<R: Read> Input<R> {
    pub fn new(reader: R) -> Self {
        Input {
            reader,
            failed: None,
        }
    }

    // What a read failed with, if one did.
    pub fn end(self) -> io::Result<()>
    where
        R: Drop,
    {
        match self.failed {
            Some(error) => Err(error),
            None => Ok(()),
        }
    }

    // The bytes that one read puts at the front of a buffer, 0 where there are no more.
    fn read_once(&mut self, buffer: &mut [u8]) -> usize
        ensures { result ≤ length buffer.new }
    {
        match self.reader.read(buffer) {
            Ok(count) => count,
            Err(error) => {
                self.failed = Some(error);
                0
            }
        }
    }

    // Reads until the buffer is full or the input ends.
    fn fill(&mut self, buffer: &mut [u8]) {
        let mut done = 0;
        while done < buffer.len() {
            let count = self.read_once(&mut buffer[done..]);
            if count == 0 {
                return;
            }
            done += count;
        }
    }

    // The next bytes, as many as an entry has.
    fn bytes<const N: usize>(&mut self) -> [u8; N] {
        let mut bytes = [0; N];
        self.fill(&mut bytes);
        bytes
    }

    // A number of 4 bytes.
    pub fn number(&mut self) -> usize
        ensures { result < 256 ^ 4 }
    {
        u32::read(self) as usize
    }

    // A number of 8 bytes.
    pub fn long(&mut self) -> usize {
        u64::from_le_bytes(self.bytes()) as usize
    }

    // The part of a list that is lent: at most what there is.
    pub fn lent<'a, T>(&mut self, list: &'a mut [T]) -> &'a mut [T] {
        let count = self.number().min(list.len());
        &mut list[..count]
    }

    // The entries given, and the same again behind them.
    fn entries<T: Entry>(&mut self, list: &mut [T]) {
        let given = self.number();
        for k in 0..list.len() {
            list[k] = if k < given {
                T::read(self)
            } else {
                list[k - given]
            };
        }
    }

    // The part of a list that is lent, with the entries given.
    pub fn list<'a, T: Entry>(&mut self, list: &'a mut [T]) -> &'a mut [T] {
        let lent = self.lent(list);
        self.entries(lent);
        lent
    }

    // The costs that are lent, with one that may stand alone.
    pub fn costs<'a>(&mut self, costs: &'a mut [i32]) -> &'a mut [i32] {
        let lent = self.list(costs);
        let place = self.number();
        let cost = i32::read(self);
        if place < lent.len() {
            lent[place] = cost;
        }
        lent
    }

    // The night's name, written.
    pub fn name(&mut self, out: &mut impl Write) -> io::Result<()> {
        let mut text = [0u8; 128];
        let name = self.lent(&mut text);
        self.fill(name);
        out.write_all(name)
    }
}
