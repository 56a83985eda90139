// What the programs share: the input that they are given, and lines of text.
#![tactic(auto)]

ghost use Rattle.std.specs.Prelude.{◌≡◌, IfOk, IfSome, length};
ghost use Rattle.io.specs.Counts.{IsPrefixLen};
ghost use Rattle.console.specs.Signed.{size_of};
ghost use Rattle.console.specs.Lines.{put_byte, put_first, Continues};

use std::env::{Env, FillError};
use std::fs;
use std::fs::Files;
use std::io::{Error, ErrorKind, Read, Result};

// A line of text, as far as it is made. It goes by value from one function that adds to it to the next. A buffer and a length, and no String: its clauses say
// what a line that is full does.
#[derive(Clone, Copy)]
pub struct Line {
    text: [u8; 256],
    length: usize,
}

// Whether the program was started with an argument i.
pub fn has_arg(rt: &impl Env, i: usize) -> bool {
    !matches!(rt.arg(i, &mut []), Err(FillError::NotPresent))
}

// Puts argument i into buf and answers its bytes there, none where it is missing or longer than buf.
fn arg<'a>(rt: &impl Env, i: usize, buf: &'a mut [u8]) -> &'a [u8]
    ensures { IsPrefixLen (length result.now) buf.old }
{
    match rt.arg(i, buf) {
        Ok(n) => &buf[..n],
        Err(_) => &[],
    }
}

// The text of a path: std wants it in UTF-8, and another path is refused like that of a file that cannot be opened.
fn path_text(path: &[u8]) -> Result<&str> {
    str::from_utf8(path).map_err(|_| Error::new(ErrorKind::InvalidInput, "the name is not UTF-8"))
}

fn open_read<R: Files>(rt: &R, path: &[u8]) -> Result<R::File> {
    fs::open(rt, path_text(path)?)
}

fn overwrite(rt: &impl Files, path: &[u8], bytes: &[u8]) -> Result<()> {
    fs::write(rt, path_text(path)?, bytes)
}

// Reads until buf is full or the input ends, and answers how many bytes now stand at the start of buf. A read that a signal cuts short is made again.
fn read_full(reader: &mut impl Read, buf: &mut [u8]) -> Result<usize>
    ensures kept { length buf.new ≡ length buf.old }
    ensures ok { IfOk result (λ n. IsPrefixLen n buf.new) }
{
    let mut done = 0;
    for _ in 0..u64::MAX {
        if buf.len() <= done {
            break;
        }
        match reader.read(&mut buf[done..]) {
            Ok(0) => break,
            Ok(n) => done += n,
            Err(e) if e.kind() == ErrorKind::Interrupted => {}
            Err(e) => return Err(e),
        }
    }
    Ok(done)
}

// Writes a line to standard error: the path of a file, a colon and why it could not be opened or written.
fn fail(rt: &(impl Eprint + Alloc), path: &[u8], error: Error) -> Result<()> {
    let path = String::from_utf8_lossy(rt.alloc(), path)?;
    let why = format!(in rt.alloc(); "{error}")?;
    // The system's words stand alone, without their number.
    let (words, _) = why
        .as_str()
        .split_once(" (os error ")
        .unwrap_or((why.as_str(), ""));
    eprintln!(rt; "{path}: {words}")
}

// Reads the file that the first argument names, or standard input where there is none, into buf, and answers how many of its bytes now stand at the
// start. A file that cannot be opened gets a line on standard error and answers none; a read that fails ends it with its error.
pub fn load<R: Files + Env + std::io::Input + Eprint + Alloc>(
    rt: &R,
    buf: &mut [u8],
) -> Result<Option<usize>>
    ensures kept { length buf.new ≡ length buf.old }
    ensures ok { IfOk result (λ read. IfSome read (λ n. IsPrefixLen n buf.new)) }
{
    if has_arg(rt, 1) {
        return load_named(rt, 1, buf);
    }
    let n = read_full(&mut rt.reader(), buf)?;
    Ok(Some(n))
}

// Reads the file that argument i names into buf, as `load` does.
pub fn load_named<R: Files + Env + Eprint + Alloc>(
    rt: &R,
    i: usize,
    buf: &mut [u8],
) -> Result<Option<usize>>
    ensures kept { length buf.new ≡ length buf.old }
    ensures ok { IfOk result (λ read. IfSome read (λ n. IsPrefixLen n buf.new)) }
{
    let mut name = io::buffer();
    let path = arg(rt, i, &mut name);
    let mut file = match open_read(rt, path) {
        Ok(file) => file,
        Err(e) => {
            fail(rt, path, e)?;
            return Ok(None);
        }
    };
    let n = read_full(&mut file, buf)?;
    Ok(Some(n))
}

// Writes bytes to the file that argument i names, in place of what it held, and says whether that was done. A file that cannot be written gets a line on
// standard error.
pub fn save_named(
    rt: &(impl Files + Env + Eprint + Alloc),
    i: usize,
    bytes: &[u8],
) -> Result<bool> {
    let mut name = io::buffer();
    let path = arg(rt, i, &mut name);
    match overwrite(rt, path, bytes) {
        Ok(()) => Ok(true),
        Err(e) => {
            fail(rt, path, e)?;
            Ok(false)
        }
    }
}

// How many bytes of a text count, at most all.
fn within(n: usize, text: &[u8]) -> usize
    ensures { IsPrefixLen result text.now }
{
    n.min(text.len())
}

// A number without its sign.
fn size_of(x: i32) -> u64
    ensures { result ≡ size_of x }
{
    u64::from(x.unsigned_abs())
}

impl Line {
    const LONGEST: usize = 256;

    pub fn new() -> Line
        ensures { result.length ≡ 0 }
    {
        Line {
            text: [0; 256],
            length: 0,
        }
    }

    // The line with a byte behind it; a line that is full stays as it is.
    #[tactic(auto, unfolding(crate::specs::Lines::put_byte))]
    pub fn put_byte(mut self, x: u8) -> Line
        ensures { result ≡ put_byte self x }
    {
        let at = self.length;
        if Line::LONGEST <= at {
            return self;
        }
        self.text[at] = x;
        self.length = at + 1;
        self
    }

    // The line with words behind it, as far as there is room.
    pub fn put(self, words: &[u8]) -> Line
        ensures { result ≡ put_first self words.now (length words.now) }
    {
        let mut line = self;
        for x in words {
            line = line.put_byte(*x);
        }
        line
    }

    // With the first n bytes of words behind it, or all where there are fewer.
    pub fn put_first(self, words: &[u8], n: usize) -> Line
        ensures { Continues self result }
    {
        let k = within(n, words);
        self.put(&words[..k])
    }

    // With a number behind it.
    pub fn put_number(self, x: u64) -> Line
        ensures { Continues self result }
    {
        let mut digits = [0u8; 20];
        let k = io::decimal(x, &mut digits);
        self.put(&digits[..k])
    }

    // With words and a number.
    pub fn put_named(self, words: &[u8], x: u64) -> Line
        ensures { Continues self result }
    {
        self.put(words).put_number(x)
    }

    // With a signed number.
    pub fn put_signed(self, x: i32) -> Line
        ensures { Continues self result }
    {
        let size = size_of(x);
        if x < 0 {
            return self.put_named(b"-", size);
        }
        self.put_number(size)
    }

    // With the text of another line, behind as many blanks as make it width wide.
    fn put_right(self, other: Line, width: usize) -> Line
        ensures { Continues self result }
    {
        let mut line = self;
        for _ in other.length..width {
            line = line.put_byte(b' ');
        }
        line.put(other.bytes())
    }

    // With a number in a column of some width.
    pub fn put_column(self, x: u64, width: usize) -> Line
        ensures { Continues self result }
    {
        self.put_right(Line::new().put_number(x), width)
    }

    // With a signed number in a column.
    pub fn put_signed_column(self, x: i32, width: usize) -> Line
        ensures { Continues self result }
    {
        self.put_right(Line::new().put_signed(x), width)
    }

    // The bytes that stand in the line.
    fn bytes(&self) -> &[u8] {
        &self.text[..self.length.min(Line::LONGEST)]
    }

    pub fn print(self, rt: &impl Print) -> Result<()> {
        rt.write_all(self.bytes())
    }
}
