// The parts of a line.
use lapjv::Sums;
use matrix::Refusal;
use rules::Counts;
use std::fmt::Display;
use std::io;
use std::io::Write;

// A blank and a number.
fn number<T: Display + Copy>(out: &mut impl Write, x: T) -> io::Result<()> {
    write!(out, " {x}")
}

// A part's end.
fn end(out: &mut impl Write) -> io::Result<()> {
    out.write_all(b";")
}

// The first n entries of a list.
pub fn list<T: Display + Copy>(out: &mut impl Write, list: &[T], n: usize) -> io::Result<()> {
    for x in list.iter().take(n) {
        number(out, *x)?;
    }
    end(out)
}

// The total, and the six counts.
pub fn sums(out: &mut impl Write, night: Sums) -> io::Result<()> {
    let Counts {
        free_rows,
        looks_one,
        left_one,
        looks_two,
        rows_left,
        columns_scanned,
    } = night.counts;
    number(out, night.total)?;
    end(out)?;
    for count in [
        free_rows,
        looks_one,
        left_one,
        looks_two,
        rows_left,
        columns_scanned,
    ] {
        number(out, count)?;
    }
    end(out)
}

pub fn refused(out: &mut impl Write, refusal: Refusal) -> io::Result<()> {
    out.write_all(b" refused")?;
    number(out, refusal.number())?;
    number(out, refusal.place)?;
    end(out)
}

pub fn kept(out: &mut impl Write, held: bool) -> io::Result<()> {
    if held {
        out.write_all(b" kept;")?;
    }
    Ok(())
}

// The checker's answer on what the solver paired.
pub fn checked(out: &mut impl Write, answer: Result<i64, Refusal>) -> io::Result<()> {
    match answer {
        Ok(total) => number(out, total),
        Err(refusal) => refused(out, refusal),
    }
}

// The answer of a night of the checker, or of `cost`: a refusal with its slack, where there is one.
pub fn answer(out: &mut impl Write, answer: Result<i64, Refusal>) -> io::Result<()> {
    match answer {
        Ok(total) => {
            out.write_all(b" accepted total")?;
            number(out, total)
        }
        Err(refusal) => {
            out.write_all(b" refused")?;
            number(out, refusal.number())?;
            out.write_all(b" place")?;
            number(out, refusal.place)?;
            if refusal.slack != 0 {
                out.write_all(b" slack")?;
                number(out, refusal.slack)?;
            }
            Ok(())
        }
    }
}
