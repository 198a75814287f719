// The program of document 01: standard input, with plan length, plan and log, to standard output. `program::run` has the promise of the
// bytes, `replay` that it is they that are read and written, where a reader's bytes and a writer's contents are known: of standard input
// and output no contract can say it. A failed read or write ends it with the error.
#![tactic(auto)]

ghost use Rattle.std.specs.Prelude.{IfSome, OnOk};
ghost use Rattle.std.specs.Io.KnownBytes.{Appends};
ghost use Rattle.model.specs.Program.{program};

use std::io;
use std::io::{Read, Write};

// Reads an input to its end, and writes what the program prints of it: of the bytes that the input has, where they are known.
fn replay<R: Read, W: Write>(input: &mut R, output: &mut W) -> io::Result<()>
    ensures { OnOk result (IfSome (R.remaining input.old)
        (λ bytes. Appends (W.contents output.old) (W.contents output.new) (program bytes))) }
{
    // Room for the longest input and one byte more, so that an input that is too long is seen to be.
    let mut bytes = whole_input::room::<65537>();
    let size = whole_input::read_full(input, &mut bytes)?;
    output.write_all(program::run(&bytes[..size]).as_slice())
}

fn main(rt: HostRuntime) -> io::Result<()> {
    replay(&mut rt.stdin(), &mut rt.stdout())
}
