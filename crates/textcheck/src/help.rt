// What --help prints.
use std::io;

const HELP: &str = "\
textcheck reads program texts from standard input, one to a line, and says of each
whether it is a program, and if not, why and where.

How a text is written:
  C P R        a step's letter (compensatable, pivot, retriable); its operands follow:
               one byte of activity and two of parameter, as in  C 00 0003
  [ | ] .      the marks, each a byte of its own
  00 to ff     any byte, as two hexadecimal digits in small letters
  blanks       are ignored; an empty line is the empty text

Example:
  C 00 0003 P 03 0003 [ R 04 0003 ] .

A line that is not written so gets a message with its column, and the next line goes on.
";

pub fn show(rt: &impl Print) -> io::Result<()> {
    rt.print(HELP)
}
