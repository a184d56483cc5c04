// Checks many grammar files on standard input, and prints each answer by the paper's number.
// A record is a length of a label (one byte), a length of a file (two bytes), the label and the file. A labelled record gets a
// line of its own and, where the file is accepted, the rows of its prediction table, their words in hexadecimal; of the others
// only the number is printed.
#![tactic(auto)]

ghost use Rattle.std.specs.Prelude.{◌≤◌, ◌<◌};
ghost use Rattle.grammar.specs.Accepted.{max_symbols};

use bits::Row;
use grammar::{Fault, Grammar, check, read};
use prediction::{Table, table};
use programs::reading::read_full;
use std::io;
use std::io::Read;

// The longest label and the longest file that their lengths can tell, and more.
const LABEL: usize = 4096;

const FILE: usize = 65536;

fn digit(file: &[u8]) -> u8 {
    match check(file) {
        Ok(()) => b'0',
        Err(Fault::Malformed) => b'1',
        Err(Fault::Broken) => b'2',
    }
}

// The label, where there is one, then the answer.
fn print(rt: &impl Print, label: &[u8], number: u8) -> io::Result<()> {
    if label.is_empty() {
        return rt.write_all(&[number]);
    }
    rt.write_all(label)?;
    rt.write_all(&[b' ', number, b'\n'])
}

// The words of a row, sixteen digits each, parted by blanks.
fn print_row(rt: &impl Print, row: &Row) -> io::Result<()> {
    print!(rt; "{:016x}", row[0])?;
    for word in &row[1..] {
        print!(rt; " {word:016x}")?;
    }
    println!(rt)
}

// The first `n` rows.
fn print_rows(rt: &impl Print, table: &Table, n: usize) -> io::Result<()>
    requires { n ≤ max_symbols }
{
    for row in &table[..n] {
        print_row(rt, row)?;
    }
    Ok(())
}

// The table of a file that is accepted; nothing of any other.
fn show(rt: &impl Print, file: &[u8]) -> io::Result<()> {
    let mut grammar = Grammar::new();
    let Ok(()) = read(file, &mut grammar) else {
        return Ok(());
    };
    let made = table(&grammar.rules, grammar.symbols);
    print_rows(rt, &made, grammar.symbols)
}

// One record; whether there was one. Where the input ends in it, its other bytes are 0.
fn replay<R: Read>(rt: &impl Print, from: &mut R) -> io::Result<bool> {
    let mut head = [0u8; 3];
    if read_full(from, &mut head) < 3 {
        return Ok(false);
    }
    let named = usize::from(head[0]);
    let long = usize::from(u16::from_be_bytes([head[1], head[2]]));
    let mut labels = [0u8; LABEL];
    let label = &mut labels[..named];
    read_full(from, label);
    let mut files = [0u8; FILE];
    let file = &mut files[..long];
    read_full(from, file);
    print(rt, label, digit(file))?;
    if named > 0 {
        show(rt, file)?;
    }
    Ok(true)
}

fn main(rt: HostRuntime) -> io::Result<()> {
    let mut reader = rt.reader();
    for _ in 0..u64::MAX {
        if !replay(&rt, &mut reader)? {
            break;
        }
    }
    println!(rt)
}
