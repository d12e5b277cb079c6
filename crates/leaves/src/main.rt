// Shows what the leaves make of each line of the standard input, a line each: the file `stdout` is what the Rust's own functions say.
#![tactic(auto)]

ghost use Rattle.std.specs.Prelude.{◌≤◌, length};

use names::{NumberError, SizeSuffix, SpecialRegister, Suppressed};
use std::fmt::{self, Display, Formatter, Write};
use std::io::Read;

// What cannot be written is left out.
fn put(rt: &impl Print, text: &[u8]) {
    let _ = rt.write_all(text);
}

// A number, where there is one.
#[derive(Drop)]
struct Found(Option<u8>);

impl Display for Found {
    fn fmt<W: Write>(&self, f: &mut Formatter<W>) -> fmt::Result {
        match self.0 {
            Some(n) => write!(f, "{n}"),
            None => f.write_str("no"),
        }
    }
}

#[derive(Drop)]
struct Flag(bool);

impl Display for Flag {
    fn fmt<W: Write>(&self, f: &mut Formatter<W>) -> fmt::Result {
        f.write_str(if self.0 { "yes" } else { "no" })
    }
}

// What is written with a `z`.
#[derive(Drop)]
struct Zeroed(Option<Suppressed>);

impl Display for Zeroed {
    fn fmt<W: Write>(&self, f: &mut Formatter<W>) -> fmt::Result {
        match self.0 {
            Some(Suppressed::Register(r)) => write!(f, "{r}"),
            Some(Suppressed::ProgramCounter) => f.write_str("pc"),
            None => f.write_str("no"),
        }
    }
}

// A number of any size, or why it is none: the words are this program's, not the library's.
#[derive(Drop)]
struct Value(Result<u64, NumberError>);

impl Display for Value {
    fn fmt<W: Write>(&self, f: &mut Formatter<W>) -> fmt::Result {
        match self.0 {
            Ok(v) => write!(f, "{v}"),
            Err(NumberError::TooLarge) => f.write_str("large"),
            Err(NumberError::Invalid) => f.write_str("no"),
        }
    }
}

// The bytes of a literal are put as they are: they need be no text.
fn show_literal(rt: &impl Print, text: &[u8]) {
    let mut space = [0u8; 16];
    match names::string_literal_bytes(text, &mut space) {
        Some(n) => put(rt, space.get(..n).unwrap_or_default()),
        None => put(rt, b"no room"),
    }
}

// A name and what it is worth, each written by itself: where a write fails, the next is tried all the same.
fn put_value(rt: &impl Print, name: &[u8], value: impl Display + Drop) {
    put(rt, name);
    let _ = rt.print(value);
}

fn show(rt: &impl Print, line: &[u8]) {
    put(rt, line);
    put(rt, b":");
    put_value(rt, b" register=", Found(names::parse_register(line)));
    put_value(
        rt,
        b" special=",
        Found(SpecialRegister::parse(line).map(u8::from)),
    );
    put_value(rt, b" pc=", Flag(names::is_program_counter(line)));
    put_value(
        rt,
        b" suppressed=",
        Zeroed(names::suppressed_register(line)),
    );
    put_value(rt, b" reserved=", Flag(names::is_reserved_name(line)));
    put_value(
        rt,
        b" size=",
        Found(SizeSuffix::from_run(names::suffix_run(line)).map(u8::from)),
    );
    put_value(rt, b" numbers=", Value(names::parse_number(0, line)));
    put_value(rt, b",", Value(names::parse_number(1, line)));
    put_value(rt, b",", Value(names::parse_number(2, line)));
    put_value(rt, b",", Value(names::parse_number(3, line)));
    put(rt, b" literal=");
    show_literal(rt, line);
    put(rt, b"\n");
}

fn show_lines(rt: &impl Print, input: &[u8]) {
    for line in input.split_inclusive(|byte| *byte == b'\n') {
        show(rt, line.strip_suffix(b"\n").unwrap_or(line));
    }
}

// How many bytes of the input stand at the front of the store: all of it, or as many as fit. A read that fails ends it.
// Each read says how much it gave, so that no iterator gives the next part.
fn read_full(input: &mut impl Read, space: &mut [u8]) -> usize
    ensures { result ≤ length space.new }
{
    let mut done = 0;
    while done < space.len() {
        let n = input.read(&mut space[done..]).unwrap_or(0);
        if n == 0 {
            return done;
        }
        done += n;
    }
    done
}

fn main(rt: HostRuntime) {
    let mut space = [0u8; 4096];
    let n = read_full(&mut rt.stdin(), &mut space);
    show_lines(&rt, &space[..n]);
}
