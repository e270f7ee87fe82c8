// A night of the checker, or of `cost`, on the lists of the input.
use crate::read::Input;
use crate::say;
use std::io;
use std::io::{Read, Write};

#[inline(never)]
pub fn checked(
    input: &mut Input<impl Read>,
    out: &mut impl Write,
    n: usize,
    costs: &[i32],
) -> io::Result<()> {
    let mut cols = [0u32; 1024];
    let mut rows = [0u32; 1024];
    let mut us = [0i64; 1024];
    let mut vs = [0i64; 1024];
    let cols = input.list(&mut cols);
    let rows = input.list(&mut rows);
    let us = input.list(&mut us);
    let vs = input.list(&mut vs);
    say::answer(out, checker::check(n, costs, cols, rows, us, vs))
}

#[inline(never)]
pub fn totalled(
    input: &mut Input<impl Read>,
    out: &mut impl Write,
    n: usize,
    costs: &[i32],
) -> io::Result<()> {
    let mut cols = [0u32; 1024];
    let listed = input.list(&mut cols);
    say::answer(out, matrix::cost(n, costs, listed))
}
